// The instructions of a sum and of a difference, for fields that no number refuses.
ghost use Rattle.std.specs.Prelude.{◌≡◌, ◌++◌, ◌+◌, ◌*◌, ◌<◌, ◌≤◌, length};
ghost use Rattle.bits.specs.Steps.{put_at};
ghost use Rattle.builders.specs.Lists.{encoded};
ghost use Rattle.builders.specs.Sums.{bit_round, bit_rounds, Fields, clear, set_y};

use crate::instructions::{Y, logic_at, logic_from, store_at};
use crate::writing;
use judge::Instruction;
use judge::kinds::X;

// Byte 7, 16 times the choice plus the function: X and Y together to 0; Y alone to 1; the read of a slice, and of B's in a difference; the carry where Y is 1; the carry to Y, and X to 0.
const CLEAR: u8 = 16 * 2;

const SET_Y: u8 = 16 + 15;

pub const READ: u8 = 16 * 4 + 6;

pub const READ_TURNED: u8 = 16 * 4 + 9;

const CARRY: u8 = 16 * 3 + 3;

const MOVE: u8 = 16 * 2 + 6;

// What both lists start with.
pub fn clear() -> Instruction
    ensures { result ≡ clear }
{
    logic_from(X, CLEAR)
}

// And a difference behind it.
pub fn set_y() -> Instruction
    ensures { result ≡ set_y }
{
    logic_from(X, SET_Y)
}

// The five instructions of one bit; `byte7` is that of B's read.
fn bit_round(byte7: u8, a: u8, b: u8, s: u8) -> [Instruction; 5]
    ensures { result ≡ bit_round byte7 a b s }
{
    [
        logic_at(a, READ),
        logic_at(b, byte7),
        store_at(Y, s),
        logic_from(X, CARRY),
        logic_from(X, MOVE),
    ]
}

// The whole list: `lead`, and the rounds of all bits behind it, lowest first.
// The four numbers apart, as `Fields` of the definitions takes them; it stands in this contract alone.
pub fn put_fields(list: &mut [u8], lead: &[Instruction], byte7: u8, a: u32, b: u32, s: u32, n: u32)
    requires { Fields a b s n × (length lead.now < 3) × (8 * (length lead.now + 5 * n) ≤ length list.old) }
    ensures { list.new ≡ put_at 0 (encoded (lead.now ++ bit_rounds byte7 a b s n)) list.old }
{
    writing::put_all(list, 0, lead);
    for k in 0..n {
        let round = bit_round(byte7, (a + k) as u8, (b + k) as u8, (s + k) as u8);
        writing::put_all(list, lead.len() + 5 * k as usize, &round);
    }
}
