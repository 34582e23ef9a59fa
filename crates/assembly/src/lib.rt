// Whole texts, whose lines are instructions or statements, as a list of instructions and its items. docs/TEXT.md.
#![tactic(auto)]

mod acts;
mod assembling;
mod fields;
mod statements;
mod words;

ghost use Rattle.std.specs.Prelude.{◌≡◌, length};
ghost use Rattle.assembly.specs.Results.{assembled_of};
ghost use Rattle.assembly.specs.Assembly.{too_short, assembled_answer, assembled_list, assembled_items};

use assembling::{measure, write};
use bits::refusals::Refusal;
use builders::Sizes;
use fields::Fields;
use judge::{Instruction, MOST_BYTES};
use text::Refused;

// A word of a line: where it begins, where it ends, and its characters as a number; no word, 0, begins and ends where the words of the line do.
#[derive(Clone, Copy)]
pub struct Word {
    pub start: usize,
    pub next: usize,
    pub word: u64,
}

// A field: its first bit, and how many it has.
#[derive(Clone, Copy)]
pub struct Span {
    pub start: u8,
    pub width: u8,
}

// Is B added to A, or taken off it?
#[derive(Clone, Copy)]
pub enum Adding {
    Sum,
    Difference,
}

// Which words does a search mark: those whose field equals a number, or is less?
// builders has the same enum, and keeps it to itself.
#[derive(Clone, Copy)]
pub enum Search {
    Equal,
    Less,
}

// What a line makes.
#[derive(Clone, Copy)]
pub enum Act {
    // an empty line
    Nothing,
    // a field and its name
    Field(u64, Span),
    // how many words a store may reach
    Limit(usize),
    // an instruction
    One(Instruction),
    // the list of a sum, or of a difference: A, and the starts of B and S, which have its width
    Sum(Adding, Span, u8, u8),
    // the list and the items of a search for a number
    Search(Search, Span, u64),
    // the list of greatest
    Greatest(Span),
}

// Why a word is refused, and the column of its first character, counted from 1.
#[derive(Clone, Copy)]
pub struct Fault {
    pub why: Refusal,
    pub column: usize,
}

// Is the list buffer shorter than the list, or the items buffer than the items?
// Not builders' `Sizes::lacks`: `too_short` is the definition of this line, and the edit items_without_room is of it.
fn too_short(list: usize, room: usize, items: usize, other: usize) -> bool
    ensures { result ≡ too_short list room items other }
{
    (room < list) | (other < items)
}

// The list of a text, at the front of `list`, and its items, at the front of `items`: how many bytes of each there are. A refusal leaves both as they were, and says in which line and at which column it is, counted from 1.
pub fn assemble(text: &[u8], list: &mut [u8], items: &mut [u8]) -> Result<Sizes, Refused>
    ensures answer { assembled_of result ≡ assembled_answer text.now (length list.old) (length items.old) }
    ensures list { list.new ≡ assembled_list text.now list.old items.old }
    ensures items { items.new ≡ assembled_items text.now list.old items.old }
{
    if text.len() > 1048576 {
        return Err(Refusal::TextLength.into());
    }
    let mut fields = Fields::none();
    let sizes = measure(text, &mut fields)?;
    if sizes.list > MOST_BYTES {
        return Err(Refusal::ListLength.into());
    }
    if sizes.items > MOST_BYTES {
        return Err(Refusal::ItemsLength.into());
    }
    if too_short(sizes.list, list.len(), sizes.items, items.len()) {
        return Err(Refusal::ListTooShort.into());
    }
    fields.clear();
    write(text, &mut fields, list, items);
    Ok(sizes)
}
