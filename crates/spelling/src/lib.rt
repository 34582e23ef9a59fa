// Words of the text as numbers: tables, numbers in decimal and in hex, and the characters of a word. A word is a number, 0 is none: so the definitions say (specs/Tables).
#![tactic(auto)]

pub mod tables;

ghost use Rattle.std.specs.Prelude.{◌≡◌, ◌==◌, ◌+◌, ◌<◌, ◌≤◌, length, get_or, position};
ghost use Rattle.spelling.specs.Words.{when, decimal, digit, number, hex_digit, hex_pair, hex_value, pair_value, extended, visible, spelled};
ghost use Rattle.bits.specs.Steps.{Put};

use bits::buffers::put;

// The place of a word's first character, where it has eight: 256^7.
const TOP_PLACE: u64 = 0x0100_0000_0000_0000;

// Where `w` first stands in a table, if it does: `index_of` in the definitions, which count a word that does not stand there as the table's length (proofs/FindLaws).
pub fn find(table: &[u64], w: u64) -> Option<usize>
    ensures { result ≡ position (λ x. x == w) table.now }
{
    table.iter().position(|x| *x == w)
}

// Entry `k` of a table; no word behind its end.
pub fn pick(table: &[u64], k: u8) -> u64
    ensures { result ≡ get_or table.now k 0 }
{
    table.get(usize::from(k)).copied().unwrap_or(0)
}

// The word `w` where `b` holds, else no word.
// A bool chooses, as in the definition `when`: the word itself is 0 where there is none.
pub fn when(b: bool, w: u64) -> u64
    ensures { result ≡ when b w }
{
    if b { w } else { 0 }
}

// A number below 1,000 in decimal.
// No Display, nor in hex: a word is a number here, and no text.
#[tactic(auto, unfolding(crate::specs::Words::decimal))]
pub fn decimal(n: u16) -> u64
    ensures { result ≡ decimal n }
{
    let d = u64::from(n);
    match n {
        0..=9 => 48 + d,
        10..=99 => 256 * (48 + d / 10) + (48 + d % 10),
        _ => 65536 * (48 + d / 100) + (256 * (48 + d / 10 % 10) + (48 + d % 10)),
    }
}

// The digit that a character is; 999 where it is none.
// No Option: the definitions `digit` and `hex_value` say 999, and `number` and `pair_value` reckon with it.
#[tactic(auto, unfolding(crate::specs::Words::digit))]
fn digit(c: u8) -> u64
    ensures { (result ≤ 999) × (result ≡ digit c) }
{
    match c {
        b'0'..=b'9' => u64::from(c - b'0'),
        _ => 999,
    }
}

// The number that a word of one to three digits is; at least 999 where it is none. It is no Option: `number` says which number over 999 it is.
#[tactic(auto, unfolding(crate::specs::Words::number))]
pub fn number(w: u64) -> u64
    ensures { result ≡ number w }
{
    let last = digit((w % 256) as u8);
    match w {
        0..256 => last,
        256..65536 => 10 * digit((w / 256) as u8) + last,
        65536..16777216 => {
            100 * digit((w / 65536) as u8) + (10 * digit((w / 256 % 256) as u8) + last)
        }
        _ => 999,
    }
}

// A digit below 16 as a character.
#[tactic(auto, unfolding(crate::specs::Words::hex_digit))]
fn hex_digit(d: u8) -> u64
    requires { d < 16 }
    ensures { (result ≤ 70) × (result ≡ hex_digit d) }
{
    u64::from(if d < 10 { b'0' + d } else { b'A' - 10 + d })
}

// A byte as two hex digits.
#[tactic(auto, unfolding(crate::specs::Words::hex_pair))]
pub fn hex_pair(n: u8) -> u64
    ensures { result ≡ hex_pair n }
{
    256 * hex_digit(n / 16) + hex_digit(n % 16)
}

// The hex digit that a character is; 999 where it is none.
#[tactic(auto, unfolding(crate::specs::Words::hex_value))]
fn hex_value(c: u8) -> u64
    ensures { (result ≤ 999) × (result ≡ hex_value c) }
{
    match c {
        b'0'..=b'9' => u64::from(c - b'0'),
        b'A'..=b'F' => u64::from(c - b'A' + 10),
        b'a'..=b'f' => u64::from(c - b'a' + 10),
        _ => 999,
    }
}

// The byte that a word of two hex digits is; at least 999 where it is none, and `pair_value` says which.
#[tactic(auto, unfolding(crate::specs::Words::pair_value))]
pub fn pair_value(w: u64) -> u64
    ensures { result ≡ pair_value w }
{
    if w < 65536 {
        16 * hex_value((w / 256) as u8) + hex_value((w % 256) as u8)
    } else {
        999
    }
}

// The word `w` with one more character.
#[tactic(auto, unfolding(crate::specs::Words::extended))]
pub fn extended(w: u64, c: u8) -> u64
    ensures { result ≡ extended w c }
{
    match c {
        b'!'..=b'~' if w < TOP_PLACE => 256 * w + u64::from(c),
        _ => u64::MAX,
    }
}

// One character, where it is none of code 0.
#[tactic(auto, unfolding(crate::specs::Words::visible))]
fn put_visible(text: &mut [u8], at: usize, c: u8) -> usize
    requires { at + length (visible c) ≤ length text.old }
    ensures { Put at (visible c) text.old result text.new }
{
    if c == 0 {
        return at;
    }
    put(text, at, c)
}

// The characters of a word from index `at` of the buffer on, and the index after them, as `Put` says it: a writer would hold the same two.
pub fn put_word(text: &mut [u8], at: usize, w: u64) -> usize
    requires { at + length (spelled w) ≤ length text.old }
    ensures { Put at (spelled w) text.old result text.new }
{
    let mut next = at;
    for c in w.to_be_bytes() {
        next = put_visible(text, next, c);
    }
    next
}
