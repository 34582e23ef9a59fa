// A case's line of hex digits to its record, what the record says, and an answer's numbers to a line of hex digits.
ghost use Rattle.std.specs.Prelude.{◌<◌, ◌≤◌, length};

use std::io::{Read, Write};

// The value of a lower-case hex digit; 0 for any other character.
// 0 and no Option: so the protocol reads any other character.
fn hex_value(c: u8) -> u8
    ensures { result < 16 }
{
    match c {
        b'0'..=b'9' => c - b'0',
        b'a'..=b'f' => c - b'a' + 10,
        _ => 0,
    }
}

// The digit `c`, number `k` of its line, put into the record, where that has room: two digits to a byte, the high one first.
fn put_digit(record: &mut [u8], k: usize, c: u8) {
    let d = hex_value(c);
    if let Some(x) = record.get_mut(k / 2) {
        *x = if k % 2 == 0 { d * 16 } else { *x / 16 * 16 + d };
    }
}

// The next byte of standard input, or a line feed at its end and where it cannot be read.
fn next_byte(input: &mut impl Read) -> u8 {
    let mut one = [b'\n'; 1];
    match input.read(&mut one) {
        Err(_) | Ok(0) => b'\n',
        Ok(_) => one[0],
    }
}

// The next line of standard input put into the record. Is there one? A line has at most 2,101 digits.
pub(crate) fn read_record(input: &mut impl Read, record: &mut [u8]) -> bool {
    for k in 0..2101 {
        let c = next_byte(input);
        if c == b'\n' {
            return k > 0;
        }
        put_digit(record, k, c);
    }
    true
}

// The record's byte at `at`, or 0 behind its end.
pub(crate) fn byte(record: &[u8], at: usize) -> u8 {
    record.get(at).copied().unwrap_or(0)
}

// The number of two bytes, low byte first, or 0 where they do not stand in the record.
pub(crate) fn half(record: &[u8], at: usize) -> usize
    requires { at < 4000 }
    ensures { result < 65536 }
{
    match record.get(at..at + 2) {
        Some([low, high]) => usize::from(u16::from_le_bytes([*low, *high])),
        _ => 0,
    }
}

// The number of four bytes, low byte first, or 0 where they do not stand in the record.
pub(crate) fn word(record: &[u8], at: usize) -> u32
    requires { at < 3900 }
{
    match record.get(at..at + 4) {
        Some([a, b, c, d]) => u32::from_le_bytes([*a, *b, *c, *d]),
        _ => 0,
    }
}

// How many buffers the case has.
pub(crate) fn buffers_of(record: &[u8]) -> usize
    ensures { result < 256 }
{
    usize::from(byte(record, 2))
}

// The length of its buffer `k`: 0 where it has none of that number.
pub(crate) fn length_of(record: &[u8], k: usize) -> usize
    ensures { result < 65536 }
{
    if k < buffers_of(record) {
        half(record, 9 + 3 * k)
    } else {
        0
    }
}

// Is its buffer `k` filled with zeros?
pub(crate) fn zeros_in(record: &[u8], k: usize) -> bool
    requires { k < 256 }
{
    byte(record, 11 + 3 * k) == 1
}

// Its parameter `i`: 0 where it has none of that number.
pub(crate) fn parameter(record: &[u8], i: usize) -> u32
    requires { i < 256 }
{
    if i < usize::from(byte(record, 3)) {
        word(record, 9 + 3 * buffers_of(record) + 4 * i)
    } else {
        0
    }
}

// Where its first patch starts.
pub(crate) fn patches_at(record: &[u8]) -> usize
    ensures { result < 2000 }
{
    9 + 3 * buffers_of(record) + 4 * usize::from(byte(record, 3))
}

// A number of an answer written out in hex digits, and behind it a line feed if it is the last, else a space. All in one write.
pub(crate) fn write_word(output: &mut impl Write, x: u32, last: bool) {
    let behind = if last { '\n' } else { ' ' };
    let mut text = [0u8; 9];
    let _ = write!(&mut text[..], "{x:08x}{behind}");
    let _ = output.write_all(&text);
}
