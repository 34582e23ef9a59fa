// A list of instructions as text. docs/TEXT.md, The one form.
ghost use Rattle.std.specs.Prelude.{◌≡◌, ◌+◌, ◌*◌, ◌≤◌, ◌<◌, length};
ghost use Rattle.bits.specs.Steps.{Put};
ghost use Rattle.lines.specs.Said.{words_of};
ghost use Rattle.registers.specs.Modes.{none_set};
ghost use Rattle.text.specs.Show.{spaced, line_text, shown_from, shown_answer, shown_out};
ghost use Rattle.text.specs.Results.{shown_of};

use bits::buffers::put;
use bits::refusals::Refusal;
use judge::modes::settle;
use judge::{Instruction, decode, unfit};
use lines::saying::words_of;
use registers::{ModeRegister, Modes};
use spelling::put_word;

// A blank and the word, where there is one.
#[tactic(auto, unfolding(crate::specs::Show::spaced))]
fn put_spaced(text: &mut [u8], at: usize, w: u64) -> usize
    requires { at + length (spaced w) ≤ length text.old }
    ensures { Put at (spaced w) text.old result text.new }
{
    if w == 0 {
        return at;
    }
    let next = put(text, at, b' ');
    put_word(text, next, w)
}

// A line: its words, one blank between them, and a line feed.
fn put_line(text: &mut [u8], at: usize, ws: &[u64; 19]) -> usize
    requires { at + length (line_text ws.now) ≤ length text.old }
    ensures { Put at (line_text ws.now) text.old result text.new }
{
    let mut next = put_word(text, at, ws[0]);
    for w in &ws[1..] {
        next = put_spaced(text, next, *w);
    }
    put(text, next, b'\n')
}

// An instruction's line, by the mode registers before it.
fn put_instruction(text: &mut [u8], at: usize, m: Modes, i: Instruction) -> usize
    requires { at + length (line_text (words_of m i)) ≤ length text.old }
    ensures { Put at (line_text (words_of m i)) text.old result text.new }
{
    put_line(text, at, &words_of(m, i))
}

// How long an instruction's line is: it is put into a buffer of its own.
fn line_size(m: Modes, i: Instruction) -> usize
    ensures { (result ≤ 192) × (result ≡ length (line_text (words_of m i))) }
{
    let mut scratch = [0u8; 192];
    put_instruction(&mut scratch, 0, m, i)
}

// Neither mode register set.
fn none_set() -> Modes
    ensures { result ≡ none_set }
{
    let register = ModeRegister { set: 0, mode: 0 };
    Modes {
        a: register,
        b: register,
    }
}

// How long the text of the first `n` instructions is.
fn text_size(list: &[u8], n: usize) -> usize
    requires { (8 * n ≤ length list.now) × (n ≤ 4096) }
    ensures { result ≡ length (shown_from list.now 0 n) }
{
    let mut modes = none_set();
    let mut total: usize = 0;
    for k in 0..n {
        let i = decode(list, k);
        total += line_size(modes, i);
        modes = settle(i, modes).modes;
    }
    total
}

// The text of the first `n` instructions, at the start of the buffer.
fn put_lines(text: &mut [u8], list: &[u8], n: usize) -> usize
    requires { (8 * n ≤ length list.now) × (length (shown_from list.now 0 n) ≤ length text.old) }
    ensures { Put 0 (shown_from list.now 0 n) text.old result text.new }
{
    let mut modes = none_set();
    let mut next: usize = 0;
    for k in 0..n {
        let i = decode(list, k);
        next = put_instruction(text, next, modes, i);
        modes = settle(i, modes).modes;
    }
    next
}

// The text of a list of whole instructions, at the start of `text`, and the count of its characters. A refusal leaves `text` as it was.
pub fn show(list: &[u8], text: &mut [u8]) -> Result<usize, Refusal>
    ensures answer { shown_of result ≡ shown_answer list.now (length text.old) }
    ensures text { text.new ≡ shown_out list.now text.old }
{
    if unfit(8, list.len()) {
        return Err(Refusal::ListLength);
    }
    let n = list.len() / 8;
    let size = text_size(list, n);
    if text.len() < size {
        return Err(Refusal::OutputTooShort);
    }
    Ok(put_lines(text, list, n))
}
