// Words as an instruction: what each word makes of a line.
ghost use Rattle.std.specs.Prelude.{◌≡◌, ◌<◌, ◌&&◌, cond, ltb};
ghost use Rattle.bits.specs.Refusals.{number_of_refusal};
ghost use Rattle.bits.specs.Search.{index_of};
ghost use Rattle.spelling.specs.Tables.{sources, mode_registers};
ghost use Rattle.spelling.specs.Words.{number};
ghost use Rattle.lines.specs.Worded.{line, with_mode, with_function, register_tag, with_byte, after_place, after_byte, after_head, head_word, choice_word, function_word, place_word, source_word, register_word, which_word, set_number, mode_number, address_number, flip_number, only, amount_word, group_word, shift_head, moves_word, byte_word, worded, sort_of};
ghost use Rattle.lines.specs.Sorts.{number_of_sort};
ghost use Rattle.lines.specs.declared.Phase.TheVariants.{Refused};

use crate::{Line, Phase, Sort, of_kind, stores};
use bits::refusals::Refusal;
use judge::Instruction;
use judge::kinds::{LOGIC, RESOLVE, SET_MODE, TAG_GIVEN};
use spelling::tables::*;
use spelling::{find, number, pair_value};

fn line(phase: Phase, got: Instruction) -> Line
    ensures { result ≡ line phase got }
{
    Line { phase, got }
}

// A line that is refused, for this reason.
fn refused(why: Refusal, got: Instruction) -> Line
    ensures { result ≡ line (Refused (number_of_refusal why)) got }
{
    line(Phase::Refused(why.number()), got)
}

// A mode, and the tag that says whose it is.
fn with_mode(i: Instruction, tag: u8, mode: u8) -> Instruction
    ensures { result ≡ with_mode i tag mode }
{
    Instruction { tag, mode, ..i }
}

// The bytes moved up by one, and `x` as the last.
fn with_byte(i: Instruction, x: u8) -> Instruction
    ensures { result ≡ with_byte i x }
{
    Instruction {
        kind: i.source,
        source: i.tag,
        tag: i.mode,
        mode: i.addr,
        addr: i.flip,
        flip: i.code,
        code: i.logic,
        logic: x,
    }
}

// The number below 256 that a word says.
fn byte_number(w: u64) -> Option<u8>
    ensures { result ≡ cond (ltb (number w) 256) (Some (number w)) None }
{
    u8::try_from(number(w)).ok()
}

// The source that a word names: a register or outside.
// Not one with register_tag: another table, and another range of it.
#[tactic(auto, using(spelling::proofs::FindLaws::index_of_found))]
fn direct_source(w: u64) -> Option<u8>
    ensures { result ≡ cond (ltb 0 (index_of w sources) && ltb (index_of w sources) 5) (Some (index_of w sources)) None }
{
    match find(&SOURCES, w) {
        Some(k @ 1..=4) => Some(k as u8),
        _ => None,
    }
}

// The tag of the mode register that a word names.
#[tactic(auto, using(spelling::proofs::FindLaws::index_of_found))]
fn register_tag(w: u64) -> Option<u8>
    ensures { result ≡ cond (register_tag (index_of w mode_registers)) (Some (index_of w mode_registers)) None }
{
    match find(&MODE_REGISTERS, w) {
        Some(k @ 2..=3) => Some(k as u8),
        _ => None,
    }
}

fn after_head(kind: u8) -> Phase
    ensures { result ≡ after_head kind }
{
    match kind {
        LOGIC => Phase::Choice,
        _ if stores(kind) => Phase::Place,
        RESOLVE => Phase::End,
        SET_MODE => Phase::SetWhich,
        _ => Phase::Source,
    }
}

// The name of an instruction.
#[tactic(auto, using(spelling::proofs::FindLaws::index_of_found), unfolding(crate::specs::Worded::head_word))]
fn head(w: u64) -> Line
    ensures { result ≡ head_word w }
{
    match find(&HEADS, w) {
        Some(7) => line(Phase::Byte(0), of_kind(0)),
        Some(k) => line(after_head(k as u8), of_kind(k as u8)),
        None => refused(Refusal::TextName, of_kind(0)),
    }
}

// Logic's choice.
#[tactic(auto, using(spelling::proofs::FindLaws::index_of_found), unfolding(crate::specs::Worded::choice_word))]
fn choice(i: Instruction, w: u64) -> Line
    ensures { result ≡ choice_word i w }
{
    match find(&CHOICES, w) {
        Some(k) => line(
            Phase::Function,
            Instruction {
                logic: 16 * k as u8,
                ..i
            },
        ),
        None => refused(Refusal::TextChoice, i),
    }
}

// The function `f` beside the choice that stands.
fn with_function(i: Instruction, f: u8) -> Line
    requires { f < 16 }
    ensures { result ≡ with_function i f }
{
    line(
        Phase::Source,
        Instruction {
            logic: 16 * (i.logic / 16) + f,
            ..i
        },
    )
}

// Logic's function: a name, or a number below 16.
#[tactic(auto, using(spelling::proofs::FindLaws::index_of_found), unfolding(crate::specs::Worded::function_word))]
fn function(i: Instruction, w: u64) -> Line
    ensures { result ≡ function_word i w }
{
    match (find(&FUNCTIONS, w), number(w)) {
        (Some(k), _) => with_function(i, k as u8),
        (None, n @ 0..=15) => with_function(i, n as u8),
        (None, _) => refused(Refusal::TextFunction, i),
    }
}

// The first word of a place in memory.
#[tactic(auto, using(spelling::proofs::FindLaws::index_of_found), unfolding(crate::specs::Worded::place_word))]
fn place(i: Instruction, w: u64) -> Line
    ensures { result ≡ place_word i w }
{
    match find(&PLACES, w) {
        Some(0) => line(Phase::Address, with_mode(i, TAG_GIVEN, 0)),
        Some(1) => line(Phase::Address, with_mode(i, TAG_GIVEN, 255)),
        Some(2) => line(Phase::Mode, with_mode(i, TAG_GIVEN, 0)),
        _ => refused(Refusal::TextSource, i),
    }
}

// A register, outside, or the first word of a place.
// Not one with those below that look alike: each puts another field, goes on to another phase and is refused for another reason, which a function of all three would be handed.
#[tactic(auto, unfolding(crate::specs::Worded::source_word))]
fn source(i: Instruction, w: u64) -> Line
    ensures { result ≡ source_word i w }
{
    match direct_source(w) {
        Some(source) => line(Phase::Moves, Instruction { source, ..i }),
        None => place(i, w),
    }
}

// A register or outside.
#[tactic(auto, unfolding(crate::specs::Worded::register_word))]
fn register(i: Instruction, w: u64) -> Line
    ensures { result ≡ register_word i w }
{
    match direct_source(w) {
        Some(source) => line(Phase::Moves, Instruction { source, ..i }),
        None => refused(Refusal::TextSource, i),
    }
}

// The mode register that is set.
#[tactic(auto, unfolding(crate::specs::Worded::which_word))]
fn which(i: Instruction, w: u64) -> Line
    ensures { result ≡ which_word i w }
{
    match register_tag(w) {
        Some(tag) => line(Phase::SetTo, with_mode(i, tag, 0)),
        None => refused(Refusal::TextSource, i),
    }
}

// The mode that it is set to.
#[tactic(auto, unfolding(crate::specs::Worded::set_number))]
fn set_to(i: Instruction, w: u64) -> Line
    ensures { result ≡ set_number i w }
{
    match byte_number(w) {
        Some(mode) => line(Phase::End, Instruction { mode, ..i }),
        None => refused(Refusal::TextNumber, i),
    }
}

// A mode's number, or a mode register.
#[tactic(auto, unfolding(crate::specs::Worded::mode_number))]
fn mode(i: Instruction, w: u64) -> Line
    ensures { result ≡ mode_number i w }
{
    match (register_tag(w), byte_number(w)) {
        (Some(tag), _) => line(Phase::AddressWord, with_mode(i, tag, 0)),
        (None, Some(mode)) => line(Phase::AddressWord, with_mode(i, TAG_GIVEN, mode)),
        (None, None) => refused(Refusal::TextNumber, i),
    }
}

// What follows a place: in a store its source, else moves.
fn after_place(kind: u8) -> Phase
    ensures { result ≡ after_place kind }
{
    if stores(kind) {
        Phase::From
    } else {
        Phase::Moves
    }
}

// An address's number.
#[tactic(auto, unfolding(crate::specs::Worded::address_number))]
fn address(i: Instruction, w: u64) -> Line
    ensures { result ≡ address_number i w }
{
    match byte_number(w) {
        Some(addr) => line(after_place(i.kind), Instruction { addr, ..i }),
        None => refused(Refusal::TextNumber, i),
    }
}

// A flip's number.
#[tactic(auto, unfolding(crate::specs::Worded::flip_number))]
fn flip(i: Instruction, w: u64) -> Line
    ensures { result ≡ flip_number i w }
{
    match byte_number(w) {
        Some(flip) => line(Phase::AfterFlip, Instruction { flip, ..i }),
        None => refused(Refusal::TextNumber, i),
    }
}

// One word alone.
#[tactic(auto, unfolding(crate::specs::Worded::only))]
fn only(word: u64, phase: Phase, i: Instruction, w: u64) -> Line
    ensures { result ≡ only word phase i w }
{
    if w == word {
        line(phase, i)
    } else {
        refused(Refusal::TextWord, i)
    }
}

// A shift's 2^m.
#[tactic(auto, using(spelling::proofs::FindLaws::index_of_found), unfolding(crate::specs::Worded::amount_word))]
fn amount(i: Instruction, w: u64) -> Line
    ensures { result ≡ amount_word i w }
{
    match find(&POWERS, w) {
        Some(k @ 0..=7) => line(Phase::Modulo, Instruction { code: k as u8, ..i }),
        _ => refused(Refusal::TextShift, i),
    }
}

// A shift's 2^p, m < p.
#[tactic(auto, using(spelling::proofs::FindLaws::index_of_found), unfolding(crate::specs::Worded::group_word))]
fn group(i: Instruction, w: u64) -> Line
    ensures { result ≡ group_word i w }
{
    match find(&POWERS, w) {
        Some(k) if usize::from(i.code) < k => {
            line(
                Phase::End,
                Instruction {
                    code: 16 * k as u8 + i.code,
                    ..i
                },
            )
        }
        _ => refused(Refusal::TextShift, i),
    }
}

// A shift or nothing.
#[tactic(auto, unfolding(crate::specs::Worded::shift_head))]
fn shift(i: Instruction, w: u64) -> Line
    ensures { result ≡ shift_head i w }
{
    if (w == SHIFT) & !stores(i.kind) {
        line(Phase::Amount, i)
    } else {
        refused(Refusal::TextTooMuch, i)
    }
}

// A flip, or a shift or nothing.
#[tactic(auto, unfolding(crate::specs::Worded::moves_word))]
fn moves(i: Instruction, w: u64) -> Line
    ensures { result ≡ moves_word i w }
{
    if w == FLIP {
        line(Phase::Flip, i)
    } else {
        shift(i, w)
    }
}

// What follows byte `n` of eight.
fn after_byte(n: u8) -> Phase
    ensures { result ≡ after_byte n }
{
    if n < 7 {
        Phase::Byte(n + 1)
    } else {
        Phase::Whole
    }
}

// Byte `n` of eight, in hex.
#[tactic(auto, unfolding(crate::specs::Worded::byte_word))]
fn byte(i: Instruction, n: u8, w: u64) -> Line
    ensures { result ≡ byte_word i n w }
{
    match u8::try_from(pair_value(w)) {
        Ok(v) => line(after_byte(n), with_byte(i, v)),
        Err(_) => refused(Refusal::TextByte, i),
    }
}

// What the word `w` makes of a line.
#[tactic(auto, unfolding(crate::specs::Worded::worded))]
pub fn worded(l: Line, w: u64) -> Line
    ensures { result ≡ worded l w }
{
    let i = l.got;
    match l.phase {
        Phase::Head => head(w),
        Phase::Choice => choice(i, w),
        Phase::Function => function(i, w),
        Phase::Source => source(i, w),
        Phase::Place => place(i, w),
        Phase::Mode => mode(i, w),
        Phase::AddressWord => only(ADDRESS, Phase::Address, i, w),
        Phase::Address => address(i, w),
        Phase::From => only(FROM, Phase::Register, i, w),
        Phase::Register => register(i, w),
        Phase::Moves => moves(i, w),
        Phase::Flip => flip(i, w),
        Phase::AfterFlip => shift(i, w),
        Phase::Amount => amount(i, w),
        Phase::Modulo => only(MOD, Phase::Group, i, w),
        Phase::Group => group(i, w),
        Phase::SetWhich => which(i, w),
        Phase::SetTo => set_to(i, w),
        Phase::End => refused(Refusal::TextTooMuch, i),
        Phase::Whole => refused(Refusal::TextTooMuch, i),
        Phase::Byte(n) => byte(i, n, w),
        Phase::Comment | Phase::Refused(_) => l,
    }
}

// What the end of a line finds there.
pub fn sort(p: Phase) -> Sort
    ensures { number_of_sort result ≡ sort_of p }
{
    match p {
        Phase::Head => Sort::Nothing,
        Phase::Moves | Phase::AfterFlip | Phase::End | Phase::Whole => Sort::Whole,
        Phase::Comment => Sort::Comment,
        Phase::Refused(_) => Sort::Refused,
        _ => Sort::TooEarly,
    }
}
