// Whether a list is one in which no station can disturb another, and else the first instruction that breaks the condition. Document 02, Fourteen.
#![tactic(auto)]

ghost use Rattle.std.specs.Prelude.{◌≡◌};
ghost use Rattle.bits.specs.Rows.{number_of};
ghost use Rattle.bits.specs.Refusals.{number_given};
ghost use Rattle.fields.specs.Isolation.{holds_zero, mode_zero, breaks, first_breaking};
ghost use Rattle.isolation.specs.Isolation.{ask_rows, isolation_given, isolation_of};

use bits::refusals::Refusal;
use judge::kinds::{MASKED_STORE, MEMORY, SET_MODE, STORE, TAG_A, TAG_B, TAG_GIVEN};
use judge::modes::settle;
use judge::{Instruction, REGISTER_BYTES, decode, unfit};
use registers::mode_bytes::{modes_of, wrong_modes};
use registers::{ModeRegister, Modes};

// A list that is not answered with a yes: why, and where it is the list itself the place of the instruction.
// Place 0 where it is not, as the answer has it (`isolation_given`), so it is no Option.
#[derive(Clone, Copy, Debug, PartialEq, Eq)]
pub struct Refused {
    pub why: Refusal,
    pub place: usize,
}

// What is lent is refused without an instruction.
impl From<Refusal> for Refused {
    ghost from_gives = { λ why r. r ≡ record { why = why; place = 0 } };

    fn from(why: Refusal) -> Refused {
        Refused { why, place: 0 }
    }
}

// Is it set, and to mode 0?
fn holds_zero(register: ModeRegister) -> bool
    ensures { result ≡ holds_zero register }
{
    register.mode_if_set() == Some(0)
}

// Has its access mode 0, given or in a register? Most are given.
fn mode_zero(m: Modes, i: Instruction) -> bool
    ensures { result ≡ mode_zero m i }
{
    if i.tag == TAG_GIVEN {
        return i.mode == 0;
    }
    ((i.tag == TAG_A) & holds_zero(m.a)) | ((i.tag == TAG_B) & holds_zero(m.b))
}

// Does it break the condition, by the mode registers before it? Its move first, then its kind, and of a kind that stays its access, if it has one.
fn breaks(m: Modes, i: Instruction) -> bool
    ensures { result ≡ breaks m i }
{
    if !((i.flip == 0) & (i.code == 0)) {
        return true;
    }
    if i.kind > MASKED_STORE {
        return i.kind != SET_MODE;
    }
    if (i.kind < STORE) & (i.source != MEMORY) {
        return false;
    }
    !mode_zero(m, i)
}

// The first instruction that does, or how many there are; the mode registers are carried along as a run would.
// A number for none, as `first_breaking` of specs/Isolation says it.
fn first_breaking(m: Modes, list: &[u8]) -> usize
    ensures { result ≡ first_breaking m list.now }
{
    let n = list.len() / 8;
    let mut modes = m;
    for k in 0..n {
        let i = decode(list, k);
        if breaks(modes, i) {
            return k;
        }
        modes = settle(i, modes).modes;
    }
    n
}

// What is wrong with what is lent: 2, 3 and 15, in a run's order.
fn ask_lent(m: Modes, list: &[u8], registers: usize) -> Result<(), Refusal>
    ensures { number_given result ≡ number_of (ask_rows registers m list.now) }
{
    if registers != REGISTER_BYTES {
        return Err(Refusal::RegistersLength);
    }
    if unfit(8, list.len()) {
        return Err(Refusal::ListLength);
    }
    if wrong_modes(m) {
        return Err(Refusal::ModeRegisters);
    }
    Ok(())
}

// Is it such a list, for a run that starts with these registers? Else 2, 3 or 15, or 40 with the place of the first instruction that breaks the condition.
pub fn isolated(list: &[u8], registers: &[u8]) -> Result<(), Refused>
    ensures { isolation_given result ≡ isolation_of list.now registers.now }
{
    let m = modes_of(registers);
    ask_lent(m, list, registers.len())?;
    let place = first_breaking(m, list);
    if place < list.len() / 8 {
        return Err(Refused {
            why: Refusal::NotIsolated,
            place,
        });
    }
    Ok(())
}
