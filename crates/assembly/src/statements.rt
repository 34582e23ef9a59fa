// The lines of a text: what each kind of line makes. docs/TEXT.md, "Fields by name, and the builders as statements"; Refusals.
ghost use Rattle.std.specs.Prelude.{◌≡◌, ◌+◌, ◌≤◌, ◌<◌, length, IfOk, false, true};
ghost use Rattle.bits.specs.Refusals.{number_given};
ghost use Rattle.spelling.specs.Words.{number};
ghost use Rattle.builders.specs.Sums.{crosses};
ghost use Rattle.builders.specs.Searches.{too_large};
ghost use Rattle.assembly.specs.Fields.{span_of};
ghost use Rattle.assembly.specs.Steps.{act_given, judged, is_difference, is_less, value_given};
ghost use Rattle.assembly.specs.Statements.{name_fault, start_fault, width_fault, known_fault, second_fault, target_fault, only_fault, value_fault, count_fault, rest_fault, small_of, field_line, sum_line, search_line, greatest_line, reach_line, instruction_line, line_by, line_act};

use crate::acts::{out_of_step, over_limit};
use crate::fields::Fields;
use crate::words::{value_of, word_from};
use crate::{Act, Adding, Fault, Search, Span, Word};
use bits::refusals::Refusal;
use builders::field::{beyond, meets, wrong_width};
use judge::decode;
use registers::Modes;
use spelling::number;
use spelling::tables::{WORD, WORDS};

// The statements' names, as numbers (spelling::tables); difference has more than eight characters.
const FIELD: u64 = 0x6669656c64;

const SUM: u64 = 0x73756d;

const EQUAL: u64 = 0x657175616c;

const LESS: u64 = 0x6c657373;

const GREATEST: u64 = 0x6772656174657374;

const REACH: u64 = 0x7265616368;

const DIFFERENCE: [u8; 10] = [100, 105, 102, 102, 101, 114, 101, 110, 99, 101];

// into
const INTO: u64 = 0x696e746f;

// at
const AT: u64 = 0x6174;

// most
const MOST: u64 = 0x6d6f7374;

// What no word reads as.
// A number and no Option, as 0 is for no word: the definition `extended` says both.
const UNREADABLE: u64 = 18446744073709551615;

// ---- one word: what it gives, or why it is refused

#[tactic(auto, unfolding(crate::specs::Statements::name_fault))]
fn name_of(fields: &Fields, w: u64) -> Result<u64, Refusal>
    ensures refused { number_given result ≡ name_fault fields.now w }
    ensures done { IfOk result (λ name. name ≡ w) }
{
    if w == 0 {
        return Err(Refusal::TextTooEarly);
    }
    if w == UNREADABLE {
        return Err(Refusal::TextFieldName);
    }
    if fields.span_of(w).is_some() {
        return Err(Refusal::TextFieldTwice);
    }
    if fields.len() >= 256 {
        return Err(Refusal::TextFieldsTooMany);
    }
    Ok(w)
}

#[tactic(auto, unfolding(crate::specs::Statements::start_fault, crate::specs::Statements::small_of))]
fn start_of(w: u64) -> Result<u8, Refusal>
    ensures refused { number_given result ≡ start_fault w }
    ensures done { IfOk result (λ start. start ≡ small_of w) }
{
    if w == 0 {
        return Err(Refusal::TextTooEarly);
    }
    let start = number(w);
    if start >= 256 {
        return Err(Refusal::TextNumber);
    }
    Ok(start as u8)
}

// Not one with start_of and count_of: each is refused for reasons of its own, in their order.
#[tactic(auto, unfolding(crate::specs::Statements::width_fault, crate::specs::Statements::small_of))]
fn width_of(start: u64, w: u64) -> Result<u8, Refusal>
    ensures refused { number_given result ≡ width_fault start w }
    ensures done { IfOk result (λ width. width ≡ small_of w) }
{
    if w == 0 {
        return Err(Refusal::TextTooEarly);
    }
    let width = number(w) as u32;
    if wrong_width(width, 64) {
        return Err(Refusal::Width);
    }
    if beyond(number(start) as u32, width) {
        return Err(Refusal::FieldBeyond);
    }
    Ok(width as u8)
}

#[tactic(auto, unfolding(crate::specs::Statements::known_fault))]
fn field_of(fields: &Fields, w: u64) -> Result<Span, Refusal>
    ensures refused { number_given result ≡ known_fault fields.now w }
    ensures done { IfOk result (λ span. span ≡ span_of fields.now w) }
{
    if w == 0 {
        return Err(Refusal::TextTooEarly);
    }
    fields.span_of(w).ok_or(Refusal::TextFieldUnknown)
}

// A field of `n` bits.
#[tactic(auto, unfolding(crate::specs::Statements::second_fault, crate::specs::Statements::known_fault))]
fn second_of(fields: &Fields, n: u8, w: u64) -> Result<Span, Refusal>
    ensures refused { number_given result ≡ second_fault fields.now n w }
    ensures done { IfOk result (λ span. span ≡ span_of fields.now w) }
{
    let b = field_of(fields, w)?;
    if b.width != n {
        return Err(Refusal::TextFieldWidth);
    }
    Ok(b)
}

// Does a field that starts at `s` overlap one that starts at `a` without having its start?
// builders has this and `too_large` of u32, and keeps them to itself: public they would be owed a field each of promises' Uniqueness.
fn crosses(s: u8, a: u8, n: u8) -> bool
    ensures { result ≡ crosses s a n }
{
    s != a && meets(u32::from(a), u32::from(s), u32::from(n))
}

// One that may be written beside fields that start at `a` and at `b`.
#[tactic(auto, unfolding(crate::specs::Statements::target_fault, crate::specs::Statements::second_fault))]
fn target_of(fields: &Fields, a: u8, b: u8, n: u8, w: u64) -> Result<Span, Refusal>
    ensures refused { number_given result ≡ target_fault fields.now a b n w }
    ensures done { IfOk result (λ span. span ≡ span_of fields.now w) }
{
    let s = second_of(fields, n, w)?;
    if crosses(s.start, a, n) | crosses(s.start, b, n) {
        return Err(Refusal::FieldsCross);
    }
    Ok(s)
}

// One of two words.
#[tactic(auto, unfolding(crate::specs::Statements::only_fault))]
fn only(this: u64, that: u64, w: u64) -> Result<(), Refusal>
    ensures { number_given result ≡ only_fault this that w }
{
    if w == 0 {
        return Err(Refusal::TextTooEarly);
    }
    if !((w == this) | (w == that)) {
        return Err(Refusal::TextWord);
    }
    Ok(())
}

// Has the number more than `n` bits? For a width of 64 and more no number has.
fn too_large(number: u64, n: u8) -> bool
    ensures { result ≡ too_large number n }
{
    n < 64 && (number >> n) > 0
}

#[tactic(auto, unfolding(crate::specs::Statements::value_fault))]
fn value_fits(w: u64, n: u8, value: Option<u64>) -> Result<u64, Refusal>
    ensures refused { number_given result ≡ value_fault w n (value_given value) }
    ensures done { IfOk result (λ v. v ≡ (value_given value).value) }
{
    if w == 0 {
        return Err(Refusal::TextTooEarly);
    }
    let v = value.ok_or(Refusal::TextValue)?;
    if too_large(v, n) {
        return Err(Refusal::NumberTooLarge);
    }
    Ok(v)
}

#[tactic(auto, unfolding(crate::specs::Statements::count_fault))]
fn count_of(w: u64) -> Result<usize, Refusal>
    ensures refused { number_given result ≡ count_fault w }
    ensures done { IfOk result (λ count. count ≡ number w) }
{
    if w == 0 {
        return Err(Refusal::TextTooEarly);
    }
    let count = number(w);
    if (count < 1) | (count > 256) {
        return Err(Refusal::TextNumber);
    }
    Ok(count as usize)
}

// No word.
#[tactic(auto, unfolding(crate::specs::Statements::rest_fault))]
fn rest(w: u64) -> Result<(), Refusal>
    ensures { number_given result ≡ rest_fault w }
{
    if w != 0 {
        return Err(Refusal::TextTooMuch);
    }
    Ok(())
}

impl Word {
    // Why it is refused, with its column.
    fn fault(self, why: Refusal) -> Fault
        requires { self.start ≤ 1048576 }
        ensures { result ≡ record { why = why; column = self.start + 1 } }
    {
        Fault {
            why,
            column: self.start + 1,
        }
    }

    // What was judged of it: a refusal with its column.
    fn judged<T>(self, answer: Result<T, Refusal>) -> Result<T, Fault>
        requires { self.start ≤ 1048576 }
        ensures { result ≡ judged self answer }
    {
        match answer {
            Ok(given) => Ok(given),
            Err(why) => Err(self.fault(why)),
        }
    }
}

// ---- the lines, from the place `at` behind their first word on

// A line and a place in it, here and below: the definitions are of both, and a refusal names the column in the whole line.
#[tactic(auto, unfolding(crate::specs::Statements::field_line, crate::specs::Statements::refused_or))]
#[inline(never)]
fn field_line(fields: &Fields, line: &[u8], at: usize) -> Result<Act, Fault>
    requires { (at ≤ length line.now) × (length line.now ≤ 1048576) }
    ensures { act_given result ≡ field_line fields.now line.now at }
{
    let name = word_from(line, at);
    let w = name.judged(name_of(fields, name.word))?;
    let second = word_from(line, name.next);
    let start = second.judged(start_of(second.word))?;
    let third = word_from(line, second.next);
    let width = third.judged(width_of(second.word, third.word))?;
    let more = word_from(line, third.next);
    more.judged(rest(more.word))?;
    Ok(Act::Field(w, Span { start, width }))
}

#[tactic(auto, unfolding(crate::specs::Statements::sum_line, crate::specs::Statements::refused_or))]
fn sum_line(adding: Adding, fields: &Fields, line: &[u8], at: usize) -> Result<Act, Fault>
    requires { (at ≤ length line.now) × (length line.now ≤ 1048576) }
    ensures { act_given result ≡ sum_line (is_difference adding) fields.now line.now at }
{
    let first = word_from(line, at);
    let a = first.judged(field_of(fields, first.word))?;
    let second = word_from(line, first.next);
    let b = second.judged(second_of(fields, a.width, second.word))?;
    let into = word_from(line, second.next);
    into.judged(only(INTO, INTO, into.word))?;
    let target = word_from(line, into.next);
    let s = target.judged(target_of(fields, a.start, b.start, a.width, target.word))?;
    let more = word_from(line, target.next);
    more.judged(rest(more.word))?;
    Ok(Act::Sum(adding, a, b.start, s.start))
}

#[tactic(auto, unfolding(crate::specs::Statements::search_line, crate::specs::Statements::refused_or))]
fn search_line(search: Search, fields: &Fields, line: &[u8], at: usize) -> Result<Act, Fault>
    requires { (at ≤ length line.now) × (length line.now ≤ 1048576) }
    ensures { act_given result ≡ search_line (is_less search) fields.now line.now at }
{
    let name = word_from(line, at);
    let a = name.judged(field_of(fields, name.word))?;
    let value = word_from(line, name.next);
    let given = value_of(&line[value.start..value.next]);
    let v = value.judged(value_fits(value.word, a.width, given))?;
    let more = word_from(line, value.next);
    more.judged(rest(more.word))?;
    Ok(Act::Search(search, a, v))
}

#[tactic(auto, unfolding(crate::specs::Statements::greatest_line, crate::specs::Statements::refused_or))]
#[inline(never)]
fn greatest_line(fields: &Fields, line: &[u8], at: usize) -> Result<Act, Fault>
    requires { (at ≤ length line.now) × (length line.now ≤ 1048576) }
    ensures { act_given result ≡ greatest_line fields.now line.now at }
{
    let name = word_from(line, at);
    let a = name.judged(field_of(fields, name.word))?;
    let more = word_from(line, name.next);
    more.judged(rest(more.word))?;
    Ok(Act::Greatest(a))
}

#[tactic(auto, unfolding(crate::specs::Statements::reach_line, crate::specs::Statements::refused_or))]
#[inline(never)]
fn reach_line(line: &[u8], at: usize) -> Result<Act, Fault>
    requires { (at ≤ length line.now) × (length line.now ≤ 1048576) }
    ensures { act_given result ≡ reach_line line.now at }
{
    let first = word_from(line, at);
    first.judged(only(AT, AT, first.word))?;
    let second = word_from(line, first.next);
    second.judged(only(MOST, MOST, second.word))?;
    let number = word_from(line, second.next);
    let count = number.judged(count_of(number.word))?;
    let last = word_from(line, number.next);
    last.judged(only(WORD, WORDS, last.word))?;
    let more = word_from(line, last.next);
    more.judged(rest(more.word))?;
    Ok(Act::Limit(count))
}

// A line that is an instruction, or empty: made by itself. One without a character is told at once: a call of `make` for it costs more than all else of the line.
#[tactic(auto, unfolding(crate::specs::Statements::instruction_line))]
#[inline(never)]
fn instruction_line(line: &[u8]) -> Result<Act, Fault>
    ensures { act_given result ≡ instruction_line line.now }
{
    if line.is_empty() {
        return Ok(Act::Nothing);
    }
    let mut one = [0u8; 8];
    match text::making::make(line, &mut one) {
        Ok(0) => Ok(Act::Nothing),
        Ok(_) => Ok(Act::One(decode(&one, 0))),
        Err(r) => Err(Fault {
            why: r.why,
            column: r.column,
        }),
    }
}

// ---- a line

// By its first word, which is `w`.
fn line_by(fields: &Fields, line: &[u8], w: Word) -> Result<Act, Fault>
    requires { (w.start ≤ w.next) × (w.next ≤ length line.now) × (length line.now ≤ 1048576) }
    ensures { act_given result ≡ line_by fields.now line.now w }
{
    if line[w.start..w.next] == DIFFERENCE[..] {
        return sum_line(Adding::Difference, fields, line, w.next);
    }
    match w.word {
        FIELD => field_line(fields, line, w.next),
        SUM => sum_line(Adding::Sum, fields, line, w.next),
        EQUAL => search_line(Search::Equal, fields, line, w.next),
        LESS => search_line(Search::Less, fields, line, w.next),
        GREATEST => greatest_line(fields, line, w.next),
        REACH => reach_line(line, w.next),
        _ => instruction_line(line),
    }
}

// What a line makes, by the fields, the limit and the mode registers before it, and by whether an instruction took an item from outside.
#[tactic(auto, unfolding(crate::specs::Statements::line_act, crate::specs::Acts::limited, crate::specs::Acts::ordered))]
pub fn line_act(
    fields: &Fields,
    limit: usize,
    m: Modes,
    taken: bool,
    line: &[u8],
) -> Result<Act, Fault>
    requires { length line.now ≤ 1048576 }
    ensures { act_given result ≡ line_act fields.now limit m taken line.now }
{
    let first = word_from(line, 0);
    let act = line_by(fields, line, first)?;
    if over_limit(limit, m, act) {
        return Err(first.fault(Refusal::TextReach));
    }
    if out_of_step(taken, act) {
        return Err(first.fault(Refusal::TextItemAbove));
    }
    Ok(act)
}
