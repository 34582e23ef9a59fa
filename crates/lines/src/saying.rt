// An instruction as words: 19 places, 0 where there is no word.
ghost use Rattle.std.specs.Prelude.{◌≡◌, ⊤, cond, ◌/◌, ◌%◌, get_or};
ghost use Rattle.judge.specs.Answers.{fault_given};
ghost use Rattle.spelling.specs.Tables.{heads, choices, functions, sources, mode_registers, powers};
ghost use Rattle.spelling.specs.Words.{decimal, when};
ghost use Rattle.lines.specs.Alone.{touches};
ghost use Rattle.lines.specs.Said.{short, general, place_word, mode_name, sets, reach_word, words_after, said, in_bytes, words_of};

use crate::{fault_alone, stores, touches};
use judge::kinds::{LOGIC, SET_MODE, TAG_GIVEN};
use judge::modes::{settle, unset};
use judge::{Fault, Instruction};
use registers::Modes;
use spelling::tables::*;
use spelling::{decimal, hex_pair, pick, when};

// Is the mode given, and that of a slice or of a word?
fn short(i: Instruction) -> bool
    ensures { result ≡ short i }
{
    (i.tag == TAG_GIVEN) & ((i.mode == 0) | (i.mode == 255))
}

// The word that names the place.
fn place_word(i: Instruction) -> u64
    ensures { result ≡ place_word i }
{
    match i.mode {
        0 if short(i) => SLICE,
        _ if short(i) => WORD,
        _ => MODE,
    }
}

// The mode's number, or the name of the register that has it.
fn mode_name(i: Instruction) -> u64
    ensures { result ≡ mode_name i }
{
    if i.tag == TAG_GIVEN {
        decimal(u16::from(i.mode))
    } else {
        pick(&MODE_REGISTERS, i.tag)
    }
}

// The word for the place in memory, or the register that is set.
fn place_name(i: Instruction) -> u64
    ensures { result ≡ cond (touches i) (place_word i) (when (sets i) (get_or mode_registers i.tag 0)) }
{
    if touches(i) {
        place_word(i)
    } else {
        when(i.kind == SET_MODE, pick(&MODE_REGISTERS, i.tag))
    }
}

// The address of the place, or the mode that a register is set to.
fn place_number(i: Instruction) -> u64
    ensures { result ≡ cond (touches i) (decimal i.addr) (when (sets i) (decimal i.mode)) }
{
    if touches(i) {
        decimal(u16::from(i.addr))
    } else {
        when(i.kind == SET_MODE, decimal(u16::from(i.mode)))
    }
}

// How many words a store reaches, as a word.
fn reach_word(m: Modes, i: Instruction) -> u64
    ensures { result ≡ reach_word m i }
{
    if unset(m, i) {
        UNKNOWN
    } else {
        decimal(reach::reach_of(settle(i, m).mode) as u16)
    }
}

// `word` behind 1, else `words`.
fn words_word(m: Modes, i: Instruction) -> u64
    ensures { result ≡ words_after m i }
{
    if !unset(m, i) & (settle(i, m).mode == 255) {
        WORD
    } else {
        WORDS
    }
}

// The instruction in words, by the mode registers before it.
#[tactic(auto, unfolding(crate::specs::Said::said))]
fn say(m: Modes, i: Instruction) -> [u64; 19]
    ensures { result ≡ said m i }
{
    let logic = i.kind == LOGIC;
    let stores = stores(i.kind);
    let general = touches(i) & !short(i);
    let flips = i.flip != 0;
    let shifts = i.code != 0;
    [
        pick(&HEADS, i.kind),
        when(logic, pick(&CHOICES, i.logic / 16)),
        when(logic, pick(&FUNCTIONS, i.logic % 16)),
        place_name(i),
        when(general, mode_name(i)),
        when(general, ADDRESS),
        place_number(i),
        when(stores, FROM),
        pick(&SOURCES, i.source),
        when(flips, FLIP),
        when(flips, decimal(u16::from(i.flip))),
        when(shifts, SHIFT),
        when(shifts, pick(&POWERS, i.code % 16)),
        when(shifts, MOD),
        when(shifts, pick(&POWERS, i.code / 16)),
        when(stores, COMMENT),
        when(stores, REACHES),
        when(stores, reach_word(m, i)),
        when(stores, words_word(m, i)),
    ]
}

// The instruction in bytes, and what it is refused with.
#[tactic(auto, unfolding(crate::specs::Said::in_bytes))]
fn say_bytes(i: Instruction, fault: Fault) -> [u64; 19]
    ensures { result ≡ in_bytes i (fault_given {A = ⊤} (Err fault)) }
{
    [
        BYTES,
        hex_pair(i.kind),
        hex_pair(i.source),
        hex_pair(i.tag),
        hex_pair(i.mode),
        hex_pair(i.addr),
        hex_pair(i.flip),
        hex_pair(i.code),
        hex_pair(i.logic),
        0,
        0,
        0,
        0,
        0,
        COMMENT,
        REFUSED,
        decimal(u16::from(fault.why.number())),
        BYTE,
        decimal(u16::from(fault.byte)),
    ]
}

// In words, or in bytes where the judge refuses it.
#[tactic(auto, unfolding(crate::specs::Said::words_of))]
pub fn words_of(m: Modes, i: Instruction) -> [u64; 19]
    ensures { result ≡ words_of m i }
{
    match fault_alone(i) {
        Err(fault) => say_bytes(i, fault),
        Ok(()) => say(m, i),
    }
}
