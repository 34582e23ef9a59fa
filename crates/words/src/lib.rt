// The words of a memory in plain order, out of its chips and into them, eight at a time. Document 01, Blocks on disk: "the 256
// words in plain order, 32 bytes each".
//
// Both are inner functions, of what reads and writes pictures.
#![tactic(auto)]

mod ordering;

ghost use Rattle.std.specs.Prelude.{◌≡◌, ◌*◌, ◌<◌, take, drop};
ghost use Rattle.bits.specs.Steps.{put_at};
ghost use Rattle.words.specs.Plain.{plain_words, scrambled};

// Words 8v to 8v+7 of the memory in plain order.
pub fn words_out(mem: &[u8; 8192], v: usize) -> [u8; 256]
    requires { v < 32 }
    ensures { result ≡ take 256 (drop (256 * v) (plain_words mem.now)) }
{
    let bytes = memory::reading::read_all(mem, 255, (8 * v) as u8);
    let mut words = [0u8; 256];
    ordering::turned(&bytes, &mut words);
    words
}

// Words 8v to 8v+7 in plain order into the memory; every other word stays.
pub fn words_in(mem: &mut [u8; 8192], v: usize, words: &[u8; 256])
    requires { v < 32 }
    ensures { mem.new ≡ scrambled (put_at (256 * v) words.now (plain_words mem.old)) }
{
    let mut bytes = [0u8; 256];
    ordering::turned(words, &mut bytes);
    ordering::put_all(mem, v, &bytes);
}
