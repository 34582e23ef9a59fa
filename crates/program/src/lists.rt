// Lists as text, both ways: the text of a list's file printed, and the files of a list and of its items made of that of a text. docs/TEXT.md.
//
// What is printed is `text::showing::show`, what is made `assembly::assemble`, in the blocks of `contents`, and all three are proved; here are the system's calls alone.
ghost use Rattle.std.specs.Prelude.{◌≡◌, length};

use super::files::{Told, answer, bytes_of, made, remove};
use contents::{Kind, read_content, write_content};
use std::rt::Files;

// Room for the text that is shown, at most 192 characters for each of 4,096 instructions. Here and below the contract gives the length alone, so that no proof has so many zeros to look through.
fn shown_room() -> [u8; 786432]
    ensures { 786432 ≡ length result }
{
    [0u8; 786432]
}

// Room for the text that a list is made of, and one character more, which tells that it is longer.
fn text_room() -> [u8; 1048577]
    ensures { 1048577 ≡ length result }
{
    [0u8; 1048577]
}

// The text of a list, behind its line: s, number, place and characters.
fn show_list(rt: &(impl Print + Eprint), list: &[u8]) -> Result<(), Told> {
    let mut lines = shown_room();
    match text::showing::show(list, &mut lines) {
        Ok(count) => {
            let shown = count.min(lines.len());
            answer(rt, b"s", &[0, 0, count], &lines[..shown])
        }
        Err(why) => answer(rt, b"s", &[usize::from(why.number()), 0, 0], b""),
    }
}

// The list's file that is named, by the blocks that it is made of; one that is refused has its line alone.
fn show(rt: &(impl Files + Print + Eprint), name: &[u8]) -> Result<(), Told> {
    let mut buffer = [0u8; 34305];
    let bytes = bytes_of(rt, name, &mut buffer)?;
    let mut list = [0u8; 32768];
    match read_content(Kind::List.number(), bytes, &mut list) {
        Ok(size) => show_list(rt, &list[..size.min(32768)]),
        Err(refused) => {
            let number = usize::from(refused.why.number());
            answer(rt, b"s", &[number, refused.place, 0], b"")
        }
    }
}

// The file of a list or of items.
fn made_of(rt: &(impl Files + Eprint), kind: Kind, content: &[u8], to: &[u8]) -> Result<(), Told> {
    let mut out = [0u8; 34304];
    let size = write_content(kind.number(), content, &mut out).unwrap_or(0);
    made(rt, to, &out[..size.min(34304)])
}

// Both files, or none; a list that brings no items has none of them.
fn both_made(
    rt: &(impl Files + Eprint),
    list: &[u8],
    items: &[u8],
    to: &[u8],
    beside: &[u8],
) -> Result<(), Told> {
    made_of(rt, Kind::List, list, to)?;
    if items.is_empty() {
        return Ok(());
    }
    let made = made_of(rt, Kind::Items, items, beside);
    if made.is_err() {
        remove(rt, to);
    }
    made
}

// The files of a list and of its items that are to be made of the text's file that is named: the line, m, number, line, column and the bytes of each, is printed once the files stand, or where the text is refused.
fn make(
    rt: &(impl Files + Print + Eprint),
    from: &[u8],
    to: &[u8],
    beside: &[u8],
) -> Result<(), Told> {
    let mut buffer = text_room();
    let lines = bytes_of(rt, from, &mut buffer)?;
    let mut list = [0u8; 32768];
    let mut items = [0u8; 32768];
    match assembly::assemble(lines, &mut list, &mut items) {
        Ok(sizes) => {
            let list = &list[..sizes.list.min(32768)];
            let items = &items[..sizes.items.min(32768)];
            both_made(rt, list, items, to, beside)?;
            answer(rt, b"m", &[0, 0, 0, sizes.list, sizes.items], b"")
        }
        Err(refused) => {
            let number = usize::from(refused.why.number());
            answer(rt, b"m", &[number, refused.line, refused.column, 0, 0], b"")
        }
    }
}

// What is asked for: the text of a list's file, or the files of a list and of its items, of a text's file.
#[derive(Clone, Copy)]
pub(crate) enum Asked<'a> {
    Text {
        list: &'a [u8],
    },
    List {
        text: &'a [u8],
        list: &'a [u8],
        items: &'a [u8],
    },
}

// Either way. Both are called through here, from two places, so that the compiler does not join the rooms for a text to `main`, whose stack every run in a folder would then have: tests/program_cases.sh holds it to less.
pub(crate) fn turn(rt: &(impl Files + Print + Eprint), asked: Asked) -> Result<(), Told> {
    match asked {
        Asked::Text { list } => show(rt, list),
        Asked::List { text, list, items } => make(rt, text, list, items),
    }
}
