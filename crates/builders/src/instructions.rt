// The instructions that lists on fields are made of. Document 01, Instructions.
ghost use Rattle.std.specs.Prelude.{◌≡◌};
ghost use Rattle.builders.specs.Lists.{logic_from, logic_at, store_at};

use judge::Instruction;
use judge::kinds::{LOGIC, STORE, TAG_GIVEN};

// Nothing said: each instruction is made of it by what it says.
pub const UNSAID: Instruction = Instruction {
    kind: 0,
    source: 0,
    tag: 0,
    mode: 0,
    addr: 0,
    flip: 0,
    code: 0,
    logic: 0,
};

// Byte 7, 16 times the choice plus the function: X everywhere to 0; Y takes the source; where Y is 1, X takes it.
pub const CLEAR_X: u8 = 0;

pub const TAKE_Y: u8 = 16 + 10;

pub const TAKE_MARKED: u8 = 16 * 3 + 10;

// The source of a store that is Y.
// A number, as all of an instruction is: judge::kinds says why.
pub const Y: u8 = 3;

// Logic with a register as its source, or with the next item.
pub fn logic_from(source: u8, byte7: u8) -> Instruction
    ensures { result ≡ logic_from source byte7 }
{
    Instruction {
        kind: LOGIC,
        source,
        logic: byte7,
        ..UNSAID
    }
}

// Logic with one bit of every word as its source.
pub fn logic_at(addr: u8, byte7: u8) -> Instruction
    ensures { result ≡ logic_at addr byte7 }
{
    Instruction {
        kind: LOGIC,
        tag: TAG_GIVEN,
        addr,
        logic: byte7,
        ..UNSAID
    }
}

// The store of a register to one bit of every word.
pub fn store_at(source: u8, addr: u8) -> Instruction
    ensures { result ≡ store_at source addr }
{
    Instruction {
        kind: STORE,
        source,
        tag: TAG_GIVEN,
        addr,
        ..UNSAID
    }
}
