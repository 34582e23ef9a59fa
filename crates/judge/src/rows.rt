// The rows of the table that look at one instruction, condition by condition as the documents word them, each with the byte that it is about.
ghost use Rattle.std.specs.Prelude.{◌≡◌, Err};
ghost use Rattle.network.specs.Unlisted.{code_rows};
ghost use Rattle.judge.specs.Answers.{fault_given};
ghost use Rattle.judge.specs.ByteRows.{fault_in, about_byte};
ghost use Rattle.judge.specs.Instructions.{stores, touches, takes, gives};
ghost use Rattle.judge.specs.Judge.{wrong_kind, wrong_source, tagged, lacks_tag, wrong_tag, idle_tag, idle_mode, idle_address, unset_mode, barred_flip, barred_shift, wrong_logic, access_rows, move_rows, fault_of};

use crate::kinds::{
    DELIVER, LOGIC, MASKED_STORE, MEMORY, OUTSIDE, RESOLVE, SET_M, SET_MODE, STORE, TAG_A, TAG_B,
    TAG_GIVEN,
};
use crate::modes::unset;
use crate::{Fault, Instruction};
use bits::refusals::Refusal;
use registers::Modes;

// Does it store?
pub fn stores(i: Instruction) -> bool
    ensures { result ≡ stores i }
{
    (i.kind == STORE) | (i.kind == MASKED_STORE)
}

// Does it touch memory?
pub fn touches(i: Instruction) -> bool
    ensures { result ≡ touches i }
{
    stores(i)
        | ((i.source == MEMORY) & ((i.kind == LOGIC) | (i.kind == SET_M) | (i.kind == DELIVER)))
}

// Does it need a tag?
fn tagged(i: Instruction) -> bool
    ensures { result ≡ tagged i }
{
    touches(i) | (i.kind == SET_MODE)
}

// 5: kind over 6
fn wrong_kind(i: Instruction) -> bool
    ensures { result ≡ wrong_kind i }
{
    i.kind > SET_MODE
}

// 6: source over 4; 0 for a store; not 0 for a resolve or kind 6
fn wrong_source(i: Instruction) -> bool
    ensures { result ≡ wrong_source i }
{
    (i.source > OUTSIDE)
        | (stores(i) & (i.source == MEMORY))
        | (((i.kind == RESOLVE) | (i.kind == SET_MODE)) & (i.source != 0))
}

// 7: a tag needed, and 0
fn lacks_tag(i: Instruction) -> bool
    ensures { result ≡ lacks_tag i }
{
    tagged(i) & (i.tag == 0)
}

// 8: a tag needed, and over 3; 1 for kind 6
fn wrong_tag(i: Instruction) -> bool
    ensures { result ≡ wrong_tag i }
{
    (tagged(i) & (i.tag > TAG_B)) | ((i.kind == SET_MODE) & (i.tag == TAG_GIVEN))
}

// 9, of byte 2: no tag needed, and not 0
fn idle_tag(i: Instruction) -> bool
    ensures { result ≡ idle_tag i }
{
    !tagged(i) & (i.tag != 0)
}

// 9, of byte 3: no tag needed, or memory touched under the mode of a register, and not 0
fn idle_mode(i: Instruction) -> bool
    ensures { result ≡ idle_mode i }
{
    (!tagged(i) | (touches(i) & ((i.tag == TAG_A) | (i.tag == TAG_B)))) & (i.mode != 0)
}

// 9, of byte 4: memory not touched, and not 0
fn idle_address(i: Instruction) -> bool
    ensures { result ≡ idle_address i }
{
    !touches(i) & (i.addr != 0)
}

// 14: memory touched under the mode of a register that is not set
fn unset_mode(m: Modes, i: Instruction) -> bool
    ensures { result ≡ unset_mode m i }
{
    touches(i) & unset(m, i)
}

// 18, of byte 5: a resolve or kind 6 that flips
fn barred_flip(i: Instruction) -> bool
    ensures { result ≡ barred_flip i }
{
    ((i.kind == RESOLVE) | (i.kind == SET_MODE)) & (i.flip != 0)
}

// 18, of byte 6: a store, a resolve or kind 6 that shifts
fn barred_shift(i: Instruction) -> bool
    ensures { result ≡ barred_shift i }
{
    (stores(i) | (i.kind == RESOLVE) | (i.kind == SET_MODE)) & (i.code != 0)
}

// 11: choice over 4 in logic; byte 7 not 0 in another kind
fn wrong_logic(i: Instruction) -> bool
    ensures { result ≡ wrong_logic i }
{
    ((i.kind == LOGIC) & (i.logic / 16 > 4)) | ((i.kind != LOGIC) & (i.logic != 0))
}

// The refusal of an instruction for one of its bytes.
fn refused(why: Refusal, byte: u8) -> Result<(), Fault>
    ensures { result ≡ Err (record { why = why; byte = byte }) }
{
    Err(Fault { why, byte })
}

// 16 and 17: byte 6 is searched among the 37, and only one that is not found is split.
fn shift_fault(code: u8) -> Result<(), Fault>
    ensures { fault_given result ≡ fault_in (about_byte 6 (code_rows code)) }
{
    if network::codes::is_code(code) {
        return Ok(());
    }
    Err(Fault {
        why: network::codes::unlisted(code),
        byte: 6,
    })
}

// What is wrong with what an instruction accesses: 5 to 9, and then 14.
#[tactic(auto, unfolding(crate::specs::Judge::access_rows))]
fn access_fault(m: Modes, i: Instruction) -> Result<(), Fault>
    ensures { fault_given result ≡ fault_in (access_rows m i) }
{
    if wrong_kind(i) {
        return refused(Refusal::Kind, 0);
    }
    if wrong_source(i) {
        return refused(Refusal::Source, 1);
    }
    if lacks_tag(i) {
        return refused(Refusal::NoMode, 2);
    }
    if wrong_tag(i) {
        return refused(Refusal::ModeTag, 2);
    }
    if idle_tag(i) {
        return refused(Refusal::ModeUnused, 2);
    }
    if idle_mode(i) {
        return refused(Refusal::ModeUnused, 3);
    }
    if idle_address(i) {
        return refused(Refusal::ModeUnused, 4);
    }
    if unset_mode(m, i) {
        return refused(Refusal::ModeUnset, 2);
    }
    Ok(())
}

// What is wrong with its move: 18, and then 16 and 17.
#[tactic(auto, unfolding(crate::specs::Judge::move_rows))]
fn move_fault(i: Instruction) -> Result<(), Fault>
    ensures { fault_given result ≡ fault_in (move_rows i) }
{
    if barred_flip(i) {
        return refused(Refusal::MoveBarred, 5);
    }
    if barred_shift(i) {
        return refused(Refusal::MoveBarred, 6);
    }
    shift_fault(i.code)
}

// What is wrong with an instruction, by the mode registers before it: the first of the table's conditions that holds, with its byte.
pub fn fault(m: Modes, i: Instruction) -> Result<(), Fault>
    ensures { fault_given result ≡ fault_of m i }
{
    access_fault(m, i)?;
    move_fault(i)?;
    if wrong_logic(i) {
        return refused(Refusal::Logic, 7);
    }
    Ok(())
}

// Does it take an item?
pub fn takes(i: Instruction) -> bool
    ensures { result ≡ takes i }
{
    i.source == OUTSIDE
}

// Does it give one?
pub fn gives(i: Instruction) -> bool
    ensures { result ≡ gives i }
{
    (i.kind == DELIVER) | (i.kind == RESOLVE)
}
