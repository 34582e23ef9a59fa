// The words of a line, one behind the other, and the number that the characters of a word are. docs/TEXT.md, "Words, lines and comments".
ghost use Rattle.std.specs.Prelude.{◌≡◌, ◌+◌, ◌≤◌, length, drop, true};
ghost use Rattle.text.specs.Make.{blank};
ghost use Rattle.spelling.specs.Words.{extended_by};
ghost use Rattle.assembly.specs.Words.{stops, blanks, letters, word_from, valued, with_digit, value_of, same_characters};
ghost use Rattle.assembly.specs.Steps.{value_given};

use crate::Word;

// Space, tab or carriage return? The crate text has the same line for its own characters.
fn blank(c: u8) -> bool
    ensures { result ≡ blank c }
{
    matches!(c, b' ' | b'\t' | b'\r')
}

// Does a word end before this character?
fn stops(c: u8) -> bool
    ensures { result ≡ stops c }
{
    blank(c) | (c == b';')
}

// The first place from `at` on without a blank.
fn skip(line: &[u8], at: usize) -> usize
    requires { at ≤ length line.now }
    ensures { (result ≤ length line.now) × (result ≡ at + blanks (drop at line.now)) }
{
    let left = &line[at..];
    at + left.iter().position(|c| !blank(*c)).unwrap_or(left.len())
}

// The first place from `at` on that is not in a word.
fn span(line: &[u8], at: usize) -> usize
    requires { at ≤ length line.now }
    ensures { (at ≤ result) × (result ≤ length line.now) × (result ≡ at + letters (drop at line.now)) }
{
    let left = &line[at..];
    at + left.iter().position(|c| stops(*c)).unwrap_or(left.len())
}

// Characters as a word.
fn spell(characters: &[u8]) -> u64
    ensures { result ≡ extended_by 0 characters.now }
{
    characters.iter().fold(0, |w, c| spelling::extended(w, *c))
}

// The first word from `at` on.
pub fn word_from(line: &[u8], at: usize) -> Word
    requires { at ≤ length line.now }
    ensures { (result ≡ word_from line.now at) × (result.start ≤ result.next) × (result.next ≤ length line.now) }
{
    let start = skip(line, at);
    let next = span(line, start);
    let word = spell(&line[start..next]);
    Word { start, next, word }
}

// A number with one more digit.
// `as`, for the reason that stands at acts::sum_size.
fn with_digit(v: u64, c: u8) -> Option<u64>
    ensures { value_given result ≡ with_digit (valued true v) c }
{
    let d = spelling::number(c as u64);
    if d > 9 {
        return None;
    }
    v.checked_mul(10)?.checked_add(d)
}

// The number that characters are, in decimal.
pub fn value_of(characters: &[u8]) -> Option<u64>
    ensures { value_given result ≡ value_of characters.now }
{
    if characters.len() > 20 {
        return None;
    }
    let mut v: u64 = 0;
    for c in characters {
        v = with_digit(v, *c)?;
    }
    Some(v)
}
