// Instructions as words, and words as instructions. docs/TEXT.md.
#![tactic(auto)]

pub mod saying;
pub mod wording;

ghost use Rattle.std.specs.Prelude.{◌≡◌};
ghost use Rattle.judge.specs.Answers.{fault_given};
ghost use Rattle.lines.specs.Alone.{of_kind, stores, touches, both_set, fault_alone};

use judge::{Fault, Instruction};
use registers::{ModeRegister, Modes};

// What a line may go on with.
#[derive(Clone, Copy)]
pub enum Phase {
    // the name of an instruction
    Head,
    // logic's choice, and its function
    Choice,
    Function,
    // a register, outside or a place in memory
    Source,
    // a place in memory
    Place,
    // a mode's number or a mode register, the word `address`, an address's number
    Mode,
    AddressWord,
    Address,
    // the word `from`, a register or outside
    From,
    Register,
    // a flip or a shift or nothing
    Moves,
    // a flip's number; then a shift or nothing
    Flip,
    AfterFlip,
    // a shift's 2^m, the word `mod`, its 2^p
    Amount,
    Modulo,
    Group,
    // the mode register that is set, and its mode
    SetWhich,
    SetTo,
    // nothing
    End,
    // byte number n of eight; then nothing
    Byte(u8),
    Whole,
    // a comment
    Comment,
    // what comes does not matter: the line was refused, with this number
    // No Refusal: any number may be handed in, and a line that is refused keeps it.
    Refused(u8),
}

// What the end of a line finds there: the line ends too early, or it holds no instruction yet, a whole one, a comment behind one, or a refusal.
#[derive(Clone, Copy, Debug, PartialEq, Eq)]
pub enum Sort {
    TooEarly,
    Nothing,
    Whole,
    Comment,
    Refused,
}

// An instruction so far, and what its line may go on with.
#[derive(Clone, Copy)]
pub struct Line {
    pub phase: Phase,
    pub got: Instruction,
}

// An instruction with only its kind.
pub fn of_kind(kind: u8) -> Instruction
    ensures { result ≡ of_kind kind }
{
    Instruction {
        kind,
        source: 0,
        tag: 0,
        mode: 0,
        addr: 0,
        flip: 0,
        code: 0,
        logic: 0,
    }
}

// Do instructions of this kind store?
#[tactic(auto, unfolding(crate::specs::Alone::stores))]
pub(crate) fn stores(kind: u8) -> bool
    ensures { result ≡ stores kind }
{
    judge::rows::stores(of_kind(kind))
}

// Does it touch memory?
#[tactic(auto, unfolding(crate::specs::Alone::touches))]
pub(crate) fn touches(i: Instruction) -> bool
    ensures { result ≡ touches i }
{
    judge::rows::touches(i)
}

// Both mode registers set.
// Not one with `none_set` of text and of assembly, where neither is set: one literal each.
fn both_set() -> Modes
    ensures { result ≡ both_set }
{
    let register = ModeRegister { set: 1, mode: 0 };
    Modes {
        a: register,
        b: register,
    }
}

// What is wrong with an instruction by itself, if anything is.
#[tactic(auto, unfolding(crate::specs::Alone::fault_alone))]
pub(crate) fn fault_alone(i: Instruction) -> Result<(), Fault>
    ensures { fault_given result ≡ fault_alone i }
{
    judge::rows::fault(both_set(), i)
}
