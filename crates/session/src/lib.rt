// All of a run in a folder but the system's calls: what the program prints and writes, from what was found of its three files.
// Document 01, The program; document 02, Seven and Eight.
#![tactic(auto)]

ghost use Rattle.std.specs.Prelude.{◌≡◌, false, ◌++◌, ◌<◌, ◌≤◌, length, take, drop, Err};
ghost use Rattle.registers.specs.Modes.{modes_of, wrong_modes};
ghost use Rattle.judge.specs.Answers.{answer_of};
ghost use Rattle.contents.specs.Moved.{moved_of};
ghost use Rattle.contents.specs.Kinds.{number_of_kind};
ghost use Rattle.contents.specs.File.{is_picture};
ghost use Rattle.contents.specs.Content.{over};
ghost use Rattle.pictures.specs.Picture.{scrambled};
ghost use Rattle.module.specs.Run.{ran};
ghost use Rattle.report.specs.Report.{printed};
ghost use Rattle.session.specs.Session.{file_of, kind_taken, picture_answer, content_answer, content_in, kind_of, blank_registers, start_registers};
ghost use Rattle.session.specs.Session.{only_line, kind_written, after_of, finished, out_bytes, with_items, with_list, outcome};
ghost use Rattle.session.specs.Shown.{Shown};
ghost use Rattle.session.specs.Steps.{Small};

use bits::refusals::Refusal;
use contents::{Kind, Refused};
use registers::mode_bytes::{any_set, modes_of};
use report::{Numbers, report};

// What was found of a file: nothing of its name; one that could not be opened or read; or its bytes, as far as they were read.
#[derive(Clone, Copy)]
pub enum Found<'a> {
    Absent,
    Failed,
    Bytes(&'a [u8]),
}

// How many characters are to be printed, and how many bytes of a picture are to be written: 0 for none.
// A count and no Option: the clause is of what stands behind it in the buffer (`Shown`), and `Outcome` has an empty picture for none too.
#[derive(Clone, Copy)]
pub struct Counts {
    pub text: usize,
    pub after: usize,
}

// "20": a file that is absent, cannot be read or is too long.
const UNREAD: Refused = Refused {
    why: Refusal::FileLength,
    place: 0,
};

// 8,192 zeros: a memory, a list, items or an out buffer.
fn blank() -> [u8; 8192]
    ensures { (result ≡ out_bytes) × (8192 ≡ length result) }
{
    [0u8; 8192]
}

// The kind of a picture by its first two bytes as they stand.
#[tactic(auto, unfolding(crate::specs::Session::kind_of))]
fn kind_of(bytes: &[u8]) -> Kind
    ensures { number_of_kind result ≡ kind_of bytes.now }
{
    if bytes.len() >= 2 && blocks::two_at(bytes, 0) == Kind::ModesPicture.number() {
        Kind::ModesPicture
    } else {
        Kind::Picture
    }
}

// The kind that before.pic is taken for.
fn kind_taken(found: Found) -> Kind
    ensures { number_of_kind result ≡ kind_taken (file_of found.entry) }
{
    match found {
        Found::Absent | Found::Failed => Kind::Picture,
        Found::Bytes(bytes) => kind_of(bytes),
    }
}

// before.pic, read into memory and registers, which are blank: behind those of a picture of kind 1 both mode registers stay unset.
fn take_picture(
    found: Found,
    kind: Kind,
    memory: &mut [u8],
    registers: &mut [u8],
) -> Result<usize, Refused>
    requires { (number_of_kind kind ≡ kind_taken (file_of found)) × (length memory.old ≡ 8192) × (registers.old ≡ blank_registers) }
    ensures answer { moved_of result ≡ picture_answer (file_of found.entry) }
    ensures targets { (moved_of result).number ≡ 0 → (memory.new ≡ scrambled (content_in (file_of found.entry)))
        × (registers.new ≡ start_registers (file_of found.entry)) }
    ensures place { (moved_of result).place ≤ 17 }
{
    match found {
        Found::Absent | Found::Failed => Err(UNREAD),
        Found::Bytes(bytes) => {
            if bytes.len() > 8704 {
                return Err(UNREAD);
            }
            let asked = kind.number();
            let size = pictures::registers_bytes(asked);
            pictures::read_picture(asked, bytes, memory, &mut registers[0..size])
        }
    }
}

// run.lst or in.itm, read into its buffer.
fn take_content(found: Found, kind: Kind, target: &mut [u8]) -> Result<usize, Refused>
    requires { (is_picture (number_of_kind kind) ≡ false) × (length target.old ≡ 8192) }
    ensures answer { moved_of result ≡ content_answer (number_of_kind kind) (file_of found.entry) }
    ensures target { (moved_of result).number ≡ 0 → ((moved_of result).bytes ≤ length target.new)
        × (take (moved_of result).bytes target.new ≡ content_in (file_of found.entry)) }
    ensures place { (moved_of result).place ≤ 17 }
{
    match found {
        Found::Absent => Ok(0),
        Found::Failed => Err(UNREAD),
        Found::Bytes(bytes) => {
            if bytes.len() > 8192 {
                return Err(UNREAD);
            }
            contents::read_content(kind.number(), bytes, target)
        }
    }
}

// The line of a refused file.
fn print_line(letter: u8, a: Refused, text: &mut [u8]) -> Counts
    requires { (a.place ≤ 17) × (68 ≤ length text.old) }
    ensures { Shown (only_line letter (moved_of (Err a))) result text.old text.new }
{
    let numbers = Numbers {
        number: u32::from(a.why.number()),
        place: a.place as u32,
        byte: 0,
        steps: 0,
        taken: 0,
        given: 0,
    };
    let n = report(letter, numbers, &[], text);
    Counts { text: n, after: 0 }
}

// The six numbers of a run.
// No From: neither a Result nor Numbers is this crate's.
fn numbers_of(a: Result<judge::Done, judge::Refused>) -> Numbers
    requires { ((answer_of a).place ≤ 4096) × ((answer_of a).steps ≤ 4096) × ((answer_of a).taken ≤ 4096) × ((answer_of a).given ≤ 4096) }
    ensures { result
        ≡ record { number = (answer_of a).number; place = (answer_of a).place; byte = (answer_of a).byte; steps = (answer_of a).steps; taken = (answer_of a).taken; given = (answer_of a).given } }
{
    match a {
        Ok(done) => Numbers {
            number: 0,
            place: 0,
            byte: 0,
            steps: done.steps as u32,
            taken: done.taken as u32,
            given: done.given as u32,
        },
        Err(refused) => Numbers {
            number: u32::from(refused.why.number()),
            place: refused.place as u32,
            byte: u32::from(refused.byte),
            steps: 0,
            taken: 0,
            given: 0,
        },
    }
}

// The lines of a run: its numbers, and the items that it has given.
fn print_run(a: Result<judge::Done, judge::Refused>, out: &[u8], text: &mut [u8]) -> usize
    requires { Small (answer_of a) (length out.now) × (length out.now ≡ 8192) × (16708 ≤ length text.old) }
    ensures room { result ≤ length text.new }
    ensures count { result
        ≡ length (printed 114 (answer_of a).number (answer_of a).place (answer_of a).byte (answer_of a).steps (answer_of a).taken (answer_of a).given out.now) }
    ensures text { text.new
        ≡ printed 114 (answer_of a).number (answer_of a).place (answer_of a).byte (answer_of a).steps (answer_of a).taken (answer_of a).given out.now ++ drop result text.old }
{
    report(b'r', numbers_of(a), out, text)
}

// The kind of after.pic.
fn kind_written(took: Kind, registers: &[u8]) -> Kind
    ensures { number_of_kind result ≡ kind_written (number_of_kind took) registers.now }
{
    match took {
        Kind::ModesPicture => Kind::ModesPicture,
        _ if any_set(modes_of(registers)) => Kind::ModesPicture,
        _ => Kind::Picture,
    }
}

// The picture after a run that is done, and its size.
// Slices with their lengths, here and below: they go on to entries that take any length, and come from arrays that have these.
fn keep(took: Kind, memory: &[u8], registers: &[u8], after: &mut [u8]) -> usize
    requires { (length memory.now ≡ 8192) × (length registers.now ≡ 100) × (length after.old ≡ 8704)
        × (wrong_modes (modes_of registers.now) ≡ false) }
    ensures { (result ≤ 8704) × (result ≡ length (after_of (number_of_kind took) 0 memory.now registers.now))
        × (after.new ≡ over (after_of (number_of_kind took) 0 memory.now registers.now) after.old) }
{
    let kind = kind_written(took, registers).number();
    let size = pictures::registers_bytes(kind);
    pictures::write_picture(kind, memory, &registers[..size], after).unwrap_or(0)
}

// The run, its lines and its picture; none after a run that is not done.
fn finish(
    took: Kind,
    memory: &mut [u8],
    registers: &mut [u8],
    list: &[u8],
    items: &[u8],
    out: &mut [u8],
    after: &mut [u8],
    text: &mut [u8],
) -> Counts
    requires { (length memory.old ≡ 8192) × (length registers.old ≡ 100) × (length out.old ≡ 8192)
        × (length after.old ≡ 8704) × (16708 ≤ length text.old) }
    ensures text { Shown
        (finished (number_of_kind took) (ran (record {
          memory = memory.entry.now;
          registers = registers.old;
          list = list.now;
          items = items.now;
          out = out.old;
        })))
        result text.old text.new }
    ensures after { after.new ≡ over
        (finished (number_of_kind took) (ran (record {
          memory = memory.entry.now;
          registers = registers.old;
          list = list.now;
          items = items.now;
          out = out.old;
        }))).after
        after.old }
{
    let a = module::run(memory, registers, list, items, out);
    let n = print_run(a, out, text);
    match a {
        Ok(_) => {
            let w = keep(took, memory, registers, after);
            Counts { text: n, after: w }
        }
        Err(_) => Counts { text: n, after: 0 },
    }
}

// The last stage, in.itm: its line, or the run on it and on what was taken before.
fn with_items(
    took: Kind,
    memory: &mut [u8],
    registers: &mut [u8],
    list: &[u8],
    i: Found,
    after: &mut [u8],
    text: &mut [u8],
) -> Counts
    requires { (length memory.old ≡ 8192) × (length registers.old ≡ 100)
        × (length after.old ≡ 8704) × (16708 ≤ length text.old) }
    ensures text { Shown (with_items (number_of_kind took) memory.old registers.old list.now
        (file_of i.entry)) result text.old text.new }
    ensures after { after.new ≡ over (with_items (number_of_kind took) memory.old registers.old
        list.now (file_of i.entry)).after after.old }
{
    let mut lent = blank();
    let read_i = take_content(i, Kind::Items, &mut lent);
    let n = match read_i {
        Ok(n) => n,
        Err(refused) => return print_line(b'i', refused, text),
    };
    let mut out = blank();
    finish(
        took,
        memory,
        registers,
        list,
        &lent[..n],
        &mut out,
        after,
        text,
    )
}

// The second stage, run.lst: its line, or the last stage.
fn with_list(
    took: Kind,
    memory: &mut [u8],
    registers: &mut [u8],
    l: Found,
    i: Found,
    after: &mut [u8],
    text: &mut [u8],
) -> Counts
    requires { (length memory.old ≡ 8192) × (length registers.old ≡ 100)
        × (length after.old ≡ 8704) × (16708 ≤ length text.old) }
    ensures text { Shown (with_list (number_of_kind took) memory.old registers.old (file_of l.entry)
        (file_of i.entry)) result text.old text.new }
    ensures after { after.new ≡ over (with_list (number_of_kind took) memory.old registers.old
        (file_of l.entry) (file_of i.entry)).after after.old }
{
    let mut lent = blank();
    let read_l = take_content(l, Kind::List, &mut lent);
    let n = match read_l {
        Ok(n) => n,
        Err(refused) => return print_line(b'l', refused, text),
    };
    with_items(took, memory, registers, &lent[..n], i, after, text)
}

// The program, from what was found of before.pic, run.lst and in.itm: the text to print, and the bytes of after.pic. What stands
// behind either stays, and all of after.pic's buffer where it is not to be written. The first of three stages, before.pic: its
// line, or the second stage.
pub fn session(p: Found, l: Found, i: Found, after: &mut [u8], text: &mut [u8]) -> Counts
    requires { (length after.old ≡ 8704) × (16708 ≤ length text.old) }
    ensures text { Shown (outcome (file_of p.entry) (file_of l.entry) (file_of i.entry)) result text.old text.new }
    ensures after { after.new ≡ over (outcome (file_of p.entry) (file_of l.entry) (file_of i.entry)).after after.old }
{
    let mut memory = blank();
    let mut registers = [0u8; 100];
    let kind = kind_taken(p);
    let read_p = take_picture(p, kind, &mut memory, &mut registers);
    match read_p {
        Ok(_) => with_list(kind, &mut memory, &mut registers, l, i, after, text),
        Err(refused) => print_line(b'p', refused, text),
    }
}
