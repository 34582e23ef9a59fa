// Instructions put into a list's buffer and items into theirs, for every builder of lists. `at` is the instruction's number, or the item's:
// a writer that kept it would hold a `&mut`, and each contract would have to say besides that it is still that of the same buffer.
ghost use Rattle.std.specs.Prelude.{◌≡◌, [], ◌∷◌, ◌+◌, ◌*◌, ◌≤◌, length};
ghost use Rattle.bits.specs.Steps.{put_at};
ghost use Rattle.builders.specs.Lists.{encoded};

use judge::Instruction;

// Any instruction.
pub fn put(list: &mut [u8], at: usize, i: Instruction)
    requires { 8 * at + 8 ≤ length list.old }
    ensures { list.new ≡ put_at (8 * at) (encoded (i ∷ [])) list.old }
{
    let bytes = [
        i.kind, i.source, i.tag, i.mode, i.addr, i.flip, i.code, i.logic,
    ];
    list[8 * at..8 * at + 8].copy_from_slice(&bytes);
}

// Several, one behind the other.
// The loops that write rounds stay loops: one function of them over a closure that gives an array is refused ("a bound Fn names a const parameter"), and a struct and an impl for each would be longer.
pub fn put_all(list: &mut [u8], at: usize, instructions: &[Instruction])
    requires { 8 * (at + length instructions.now) ≤ length list.old }
    ensures { list.new ≡ put_at (8 * at) (encoded instructions.now) list.old }
{
    for (k, i) in instructions.iter().enumerate() {
        put(list, at + k, *i);
    }
}

// Any item. No list of document 01 takes one: this is what the builders of lists with items (document 02, One and Five) stand on.
#[inline(always)]
pub fn put_item(items: &mut [u8], at: usize, item: &[u8; 32])
    requires { (32 * at + 32 ≤ length items.old) × (length item.now ≡ 32) }
    ensures { items.new ≡ put_at (32 * at) item.now items.old }
{
    items[32 * at..32 * at + 32].copy_from_slice(item);
}
