// The program's printed lines, put into a buffer byte by byte. Document 01, The program.
//
// Each function puts its text from index `at` of the buffer on, and answers the index after it: every other byte stays.
#![tactic(auto)]

ghost use Rattle.std.specs.Prelude.{◌≡◌, [], ◌∷◌, ◌++◌, ◌+◌, ◌*◌, ◌≤◌, ◌<◌, length, drop};
ghost use Rattle.report.specs.Report.{decimal, spaced, line, hex_digit, hexed, item_lines, printed};
ghost use Rattle.bits.specs.Steps.{Put};

use bits::buffers::put;

// A number in decimal: the digits of its tenth first, where that is not 0, and then its last digit.
// No `write!`, nor in hex: each character is stated (`printed`), and an index in and an index out is what `Put` says (bits::buffers).
fn put_decimal(text: &mut [u8], at: usize, n: u32) -> usize
    requires { at + length (decimal n) ≤ length text.old }
    ensures { Put at (decimal n) text.old result text.new }
{
    if n < 10 {
        return put(text, at, 48 + (n as u8));
    }
    let next = put_decimal(text, at, n / 10);
    put(text, next, 48 + ((n % 10) as u8))
}

// A space and a number: at most eleven characters.
fn put_spaced(text: &mut [u8], at: usize, n: u32) -> usize
    requires { at + 11 ≤ length text.old }
    ensures { (result ≤ at + 11) × Put at (spaced n) text.old result text.new }
{
    let next = put(text, at, 32);
    put_decimal(text, next, n)
}

// The six numbers of a line.
#[derive(Clone, Copy, Debug, PartialEq, Eq)]
pub struct Numbers {
    pub number: u32,
    pub place: u32,
    pub byte: u32,
    pub steps: u32,
    pub taken: u32,
    pub given: u32,
}

// The line: a letter, six numbers and a line feed.
fn put_line(text: &mut [u8], letter: u8, a: Numbers) -> usize
    requires { 68 ≤ length text.old }
    ensures { (result ≤ 68) × Put 0 (line letter a.number a.place a.byte a.steps a.taken a.given) text.old result text.new }
{
    let mut next = put(text, 0, letter);
    for n in [a.number, a.place, a.byte, a.steps, a.taken, a.given] {
        next = put_spaced(text, next, n);
    }
    put(text, next, 10)
}

// A digit below 16 as a character.
// Not spelling's, which gives a capital, as a part of a word.
fn hex_digit(d: u8) -> u8
    requires { d < 16 }
    ensures { result ≡ hex_digit d }
{
    if d < 10 { 48 + d } else { 87 + d }
}

// A byte as two hex digits.
fn put_byte(text: &mut [u8], at: usize, x: u8) -> usize
    requires { at + 2 ≤ length text.old }
    ensures { (result ≡ at + 2) × Put at (hexed (x ∷ [])) text.old result text.new }
{
    let next = put(text, at, hex_digit(x / 16));
    put(text, next, hex_digit(x % 16))
}

// An item on a line of its own.
fn put_item(text: &mut [u8], at: usize, item: &[u8]) -> usize
    requires { (length item.now ≡ 32) × (at + 65 ≤ length text.old) }
    ensures { (result ≡ at + 65) × Put at (hexed item.now ++ (10 ∷ [])) text.old result text.new }
{
    let mut next = at;
    for x in item {
        next = put_byte(text, next, *x);
    }
    put(text, next, 10)
}

// The first items of the out buffer, each on a line.
fn put_items(text: &mut [u8], at: usize, out: &[u8], given: usize) -> usize
    requires { (32 * given ≤ length out.now) × (at + 65 * given ≤ length text.old) }
    ensures { (result ≡ at + 65 * given) × Put at (item_lines out.now given) text.old result text.new }
{
    let mut next = at;
    for k in 0..given {
        next = put_item(text, next, &out[32 * k..32 * k + 32]);
    }
    next
}

// All that the program prints, at the start of `text`, and how many characters that is; what stands behind them stays.
pub fn report(letter: u8, a: Numbers, out: &[u8], text: &mut [u8]) -> usize
    requires { (32 * a.given ≤ length out.now) × (68 + 65 * a.given ≤ length text.old) }
    ensures room { result ≤ length text.new }
    ensures count { result ≡ length (printed letter a.number a.place a.byte a.steps a.taken a.given out.now) }
    ensures text { text.new ≡ printed letter a.number a.place a.byte a.steps a.taken a.given out.now ++ drop result text.old }
{
    let next = put_line(text, letter, a);
    put_items(text, next, out, a.given as usize)
}
