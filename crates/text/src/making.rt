// Text as a list of instructions. docs/TEXT.md, Words, lines and comments, and Refusals.
ghost use Rattle.std.specs.Prelude.{◌≡◌, ◌+◌, ◌*◌, ◌≤◌, length};
ghost use Rattle.bits.specs.Steps.{Put};
ghost use Rattle.lines.specs.Alone.{bytes_of};
ghost use Rattle.lines.specs.Worded.{sort_of};
ghost use Rattle.text.specs.Make.{reading, ended, closed, character, commented, stepped, begin, brought, made_bytes, last_of, line_at, column_at, number_of, refused_at, made_answer, made_out};
ghost use Rattle.text.specs.Results.{made_of};
ghost use Rattle.bits.specs.Refusals.{number_of_refusal, number_given};

use crate::{Place, Reading, Refused, Scan};
use bits::refusals::Refusal;
use judge::{Instruction, MOST_BYTES};
use lines::wording::{sort, worded};
use lines::{Line, Phase, Sort, of_kind};
use spelling::extended;

fn reading(line: Line, word: u64, start: usize, ready: bool) -> Reading
    ensures { result ≡ reading line word start ready }
{
    Reading {
        line,
        word,
        start,
        ready,
    }
}

// The line once the word at its end, if there is one, is read.
#[tactic(auto, unfolding(crate::specs::Make::ended))]
fn ended(l: Line, w: u64) -> Line
    ensures { result ≡ ended l w }
{
    if w == 0 { l } else { worded(l, w) }
}

// The line ends at place `at`, and what follows is a new line or a comment.
// Ifs that return, here and in the next three, and each record built whole: by a `match`, or by `..s`, it is put together in a place of its own and copied in pieces, and a text takes half as long again to twice as long to make (docs/PERFORMANCE.md).
#[tactic(auto, unfolding(crate::specs::Make::closed))]
fn closed(next: Phase, l: Line, at: usize, start: usize) -> Reading
    ensures { result ≡ closed next l at start }
{
    let found = sort(l.phase);
    if matches!(found, Sort::Nothing) {
        return reading(Line { phase: next, ..l }, 0, at, false);
    }
    if matches!(found, Sort::Whole) {
        return reading(Line { phase: next, ..l }, 0, at, true);
    }
    if matches!(found, Sort::Refused) {
        return reading(l, 0, start, false);
    }
    let phase = Phase::Refused(Refusal::TextTooEarly.number());
    reading(Line { phase, ..l }, 0, at, false)
}

// A character in a line that is neither refused nor in its comment.
#[tactic(auto, unfolding(crate::specs::Make::character))]
fn character(s: Reading, at: usize, c: u8) -> Reading
    ensures { result ≡ character s at c }
{
    if c == b'\n' {
        return closed(Phase::Head, ended(s.line, s.word), at, s.start);
    }
    if c == b';' {
        return closed(Phase::Comment, ended(s.line, s.word), at, s.start);
    }
    if matches!(c, b' ' | b'\t' | b'\r') {
        return reading(ended(s.line, s.word), 0, s.start, false);
    }
    let start = if s.word == 0 { at } else { s.start };
    reading(s.line, extended(s.word, c), start, false)
}

// A character of a comment.
#[tactic(auto, unfolding(crate::specs::Make::commented))]
fn commented(s: Reading, at: usize, c: u8) -> Reading
    ensures { result ≡ commented s at c }
{
    if c == b'\n' {
        return reading(
            Line {
                phase: Phase::Head,
                ..s.line
            },
            0,
            at,
            false,
        );
    }
    reading(s.line, s.word, s.start, false)
}

// The character `c` at place `at`.
#[tactic(auto, unfolding(crate::specs::Make::stepped))]
fn step(s: Reading, at: usize, c: u8) -> Reading
    ensures { result ≡ stepped s at c }
{
    let found = sort(s.line.phase);
    if matches!(found, Sort::Comment) {
        return commented(s, at, c);
    }
    if matches!(found, Sort::Refused) {
        return reading(s.line, s.word, s.start, false);
    }
    character(s, at, c)
}

// Before the first character.
fn begin() -> Reading
    ensures { result ≡ begin }
{
    let line = Line {
        phase: Phase::Head,
        got: of_kind(0),
    };
    reading(line, 0, 0, false)
}

// The text read to its end, and a line feed behind it: what was read in the end, and how many instructions it makes.
// At most 1,048,576 characters, here and in assembly: `make` and `assemble` ask it once (50), and a type for it would be lost at each part of the text that is handed on.
fn scan(text: &[u8]) -> Scan
    requires { length text.now ≤ 1048576 }
    ensures { (result.last ≡ last_of text.now) × (8 * result.count ≡ length (made_bytes text.now)) × (result.count ≤ 1048577) × (result.last.start ≤ length text.now) }
{
    let mut s = begin();
    let mut count: usize = 0;
    for (i, c) in text.iter().enumerate() {
        s = step(s, i, *c);
        count += usize::from(s.ready);
    }
    let last = step(s, text.len(), b'\n');
    Scan {
        last,
        count: count + usize::from(last.ready),
    }
}

// Place `at` of a text, as line and column from 1.
// By number: `line_at` and `column_at` are of a text and a place.
fn place_of(text: &[u8], at: usize) -> Place
    requires { (at ≤ length text.now) × (length text.now ≤ 1048576) }
    ensures { (result.line ≡ line_at text.now at) × (result.column ≡ column_at text.now at) }
{
    let mut line: usize = 1;
    let mut column: usize = 1;
    for k in 0..at {
        if text[k] == b'\n' {
            line += 1;
            column = 1;
        } else {
            column += 1;
        }
    }
    Place { line, column }
}

// An instruction's eight bytes from index `at` on, and the index after them.
// An index in and an index out, here and in showing: bits::buffers says why. Not builders' put, a crate that text does not stand on, with a clause of `put_at`.
fn put_bytes(out: &mut [u8], at: usize, i: Instruction) -> usize
    requires { at + 8 ≤ length out.old }
    ensures { Put at (bytes_of i) out.old result out.new }
{
    out[at..at + 8].copy_from_slice(&[
        i.kind, i.source, i.tag, i.mode, i.addr, i.flip, i.code, i.logic,
    ]);
    at + 8
}

// The instruction that is whole with the last character, if one is.
#[tactic(auto, unfolding(crate::specs::Make::brought))]
fn put_brought(out: &mut [u8], at: usize, s: Reading) -> usize
    requires { at + length (brought s) ≤ length out.old }
    ensures { Put at (brought s) out.old result out.new }
{
    if s.ready {
        put_bytes(out, at, s.line.got)
    } else {
        at
    }
}

// The bytes that a text makes, at the start of `out`.
fn write(out: &mut [u8], text: &[u8]) -> usize
    requires { length (made_bytes text.now) ≤ length out.old }
    ensures { Put 0 (made_bytes text.now) out.old result out.new }
{
    let mut s = begin();
    let mut next: usize = 0;
    for (i, c) in text.iter().enumerate() {
        s = step(s, i, *c);
        next = put_brought(out, next, s);
    }
    put_brought(out, next, step(s, text.len(), b'\n'))
}

// Why a line is refused, if it is: its words and its end give 60 to 69 alone.
fn refusal(p: Phase) -> Result<(), Refusal>
    requires { sort_of p ≡ 4 → (60 ≤ number_of p) × (number_of p ≤ 69) }
    ensures { number_given result ≡ number_of p }
{
    match p {
        Phase::Refused(60) => Err(Refusal::TextName),
        Phase::Refused(61) => Err(Refusal::TextChoice),
        Phase::Refused(62) => Err(Refusal::TextFunction),
        Phase::Refused(63) => Err(Refusal::TextSource),
        Phase::Refused(64) => Err(Refusal::TextNumber),
        Phase::Refused(65) => Err(Refusal::TextWord),
        Phase::Refused(66) => Err(Refusal::TextShift),
        Phase::Refused(67) => Err(Refusal::TextTooMuch),
        Phase::Refused(68) => Err(Refusal::TextByte),
        Phase::Refused(_) => Err(Refusal::TextTooEarly),
        _ => Ok(()),
    }
}

// A refusal with the line and the column of its place.
#[tactic(auto, unfolding(crate::specs::Make::refused_at))]
fn refused_at(text: &[u8], why: Refusal, at: usize) -> Refused
    requires { (at ≤ length text.now) × (length text.now ≤ 1048576) }
    ensures { made_of (Err result) ≡ refused_at text.now (number_of_refusal why) at }
{
    let Place { line, column } = place_of(text, at);
    Refused { why, line, column }
}

// The instructions of a text, 8 bytes each, at the start of `out`, and the count of their bytes. A refusal leaves `out` as it was.
pub fn make(text: &[u8], out: &mut [u8]) -> Result<usize, Refused>
    ensures answer { made_of result ≡ made_answer text.now (length out.old) }
    ensures bytes { out.new ≡ made_out text.now out.old }
{
    if text.len() > 1048576 {
        return Err(Refusal::TextLength.into());
    }
    let Scan { last, count } = scan(text);
    if let Err(why) = refusal(last.line.phase) {
        return Err(refused_at(text, why, last.start));
    }
    let size = 8 * count;
    if size > MOST_BYTES {
        return Err(Refusal::ListLength.into());
    }
    if out.len() < size {
        return Err(Refusal::ListTooShort.into());
    }
    Ok(write(out, text))
}
