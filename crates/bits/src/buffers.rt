// A byte put into a buffer, one behind the other.
ghost use Rattle.std.specs.Prelude.{[], ◌∷◌, ◌<◌, length};
ghost use Rattle.bits.specs.Steps.{Put};

// The byte `c` at index `at` of the buffer, and the index after it.
// An index in and an index out: the definition `Put` is of a buffer and two places, and a writer would hold the same two.
pub fn put(buffer: &mut [u8], at: usize, c: u8) -> usize
    requires { at < length buffer.old }
    ensures { Put at (c ∷ []) buffer.old result buffer.new }
{
    buffer[at] = c;
    at + 1
}
