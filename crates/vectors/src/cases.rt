// One case: its buffers are made in the room, the entry that it names is called, and the answer is written beside the digests of all buffers.
ghost use Rattle.std.specs.Prelude.{◌≡◌, ◌<◌, length};

use super::answers::{Numbers, Unfixed};
use super::buffers::{digest, fill, format, make_good, patch, repeat, seal, shape_of};
use super::calls::call;
use super::records::{buffers_of, byte, half, parameter, patches_at, word, write_word, zeros_in};
use super::rooms::{end_of, start_of};
use std::io::Write;

// The buffers that a case's list and file are, and its memory.
// Numbers and no enum: a case says how many buffers it has, and its patches name them by number.
const MEMORY: usize = 0;

const LIST: usize = 2;

const FILE: usize = 5;

// The patch at `at` of the record, if it is for the buffer of number `which`: its bytes go into the buffer; target 255 seals a block of the file;
// targets 254 and 253 repeat the front of the memory and of the file. Answers where the patch behind it starts.
// Nothing is a patch from byte 1,000 on, and the byte before is read as 0 for a target. Of a patch that goes past the record's end the bytes that stand in the record are put.
// A place in and a place out: a patch says its own length, so that only reading it says where the next is.
fn one_patch(record: &[u8], at: usize, which: usize, buffer: &mut [u8]) -> usize {
    if 1000 <= at {
        return at;
    }
    let target = half(record, at) % 256;
    let to = half(record, at + 1);
    let end = at + 4 + usize::from(byte(record, at + 3));
    match (target, which) {
        (255, FILE) => seal(buffer, to),
        (254, MEMORY) | (253, FILE) => repeat(buffer, to),
        _ if target == which => {
            let bytes = record.get(at + 4..end.min(record.len())).unwrap_or(&[]);
            patch(buffer, to, bytes);
        }
        _ => {}
    }
    end
}

// The patches of one buffer, in their order.
fn patches(record: &[u8], which: usize, buffer: &mut [u8]) {
    let mut at = patches_at(record);
    for _ in 0..byte(record, 8) {
        at = one_patch(record, at, which, buffer);
    }
}

// Does the case read the disk, and ask that the file is made good?
fn formats(record: &[u8]) -> bool {
    matches!(byte(record, 0), 6 | 7 | 17 | 19 | 20) && parameter(record, 3) == 1
}

// The buffer of number `which` made: filled from the generator at `x`, shaped if it is the list, formatted if it is the file, and patched. Answers the generator's number afterwards.
fn make(record: &[u8], which: usize, x: u32, buffer: &mut [u8]) -> u32
    requires { which < 256 }
{
    let y = filled(record, which, x, buffer);
    if which == LIST {
        if let Some(s) = shape_of(byte(record, 1)) {
            make_good(buffer, s);
        }
    }
    if which == FILE && formats(record) {
        let kind = (parameter(record, 1) % 65536) as usize;
        let used = (parameter(record, 2) % 65536) as usize;
        format(buffer, kind, used);
    }
    patches(record, which, buffer);
    y
}

// The same where it is filled alone: with zeros, or from the generator.
fn filled(record: &[u8], which: usize, x: u32, buffer: &mut [u8]) -> u32
    requires { which < 256 }
{
    if zeros_in(record, which) {
        buffer.fill(0);
        x
    } else {
        fill(buffer, x)
    }
}

// All buffers made, in the order in which they draw from the generator.
// A slice with its length, here and below: `main` has the one array, and a type for it says no more.
fn prepare(record: &[u8], room: &mut [u8])
    requires { length room.old ≡ 240272 }
{
    let mut x = word(record, 4);
    for k in 0..buffers_of(record) {
        let s = start_of(record, k);
        let e = end_of(record, k, s);
        x = make(record, k, x, &mut room[s..e]);
    }
}

// The numbers of an answer written out, on a line that the digests end.
fn write_numbers(output: &mut impl Write, numbers: &[u32]) {
    for x in numbers {
        write_word(output, *x, false);
    }
}

// How many bytes at the front of a buffer are not digested: of the registers, of the list and of the items those that no document fixes.
fn left_out(which: usize, unfixed: Unfixed) -> usize {
    match which {
        1 => unfixed.registers,
        2 => unfixed.list,
        3 => unfixed.items,
        _ => 0,
    }
}

// The digests of all buffers written out.
fn write_digests(output: &mut impl Write, record: &[u8], room: &[u8], unfixed: Unfixed)
    requires { length room.now ≡ 240272 }
{
    let count = buffers_of(record);
    for k in 0..count {
        let s = start_of(record, k);
        let e = end_of(record, k, s);
        let from = s + left_out(k, unfixed).min(e - s);
        write_word(output, digest(&room[from..e]), k + 1 == count);
    }
}

// One case: its answer, and the digests of what it leaves.
pub(crate) fn run_case(output: &mut impl Write, record: &[u8], room: &mut [u8])
    requires { length room.old ≡ 240272 }
{
    prepare(record, room);
    let answer = call(record, room);
    match &answer.numbers {
        Numbers::Five(w) => write_numbers(output, w),
        Numbers::Six(w) => write_numbers(output, w),
        Numbers::Nine(w) => write_numbers(output, w),
    }
    write_digests(output, record, room, answer.unfixed);
}
