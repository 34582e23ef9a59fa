// The words behind the program's name: what is asked for, and of which files.
use super::convert::{Wanted, convert};
use super::files::Told;
use super::lists::{Asked, turn};
use std::env::FillError;
use std::rt::{Env, Files};

// Is there a word `i`, counted from the program's name?
fn has_word(rt: &impl Env, i: usize) -> bool {
    let mut first = [0u8; 1];
    match rt.arg(i, &mut first) {
        Ok(_) | Err(FillError::TooLong) => true,
        Err(FillError::NotPresent) => false,
    }
}

// How many words there are, the program's name among them; 6 are as many as more.
pub(crate) fn arg_count(rt: &impl Env) -> usize {
    for i in 0..6 {
        if !has_word(rt, i) {
            return i;
        }
    }
    6
}

// Word `i`, which is put at the front of a buffer: nothing where there is none or it is longer than the buffer.
fn arg<'a>(rt: &impl Env, i: usize, buffer: &'a mut [u8]) -> &'a [u8] {
    match rt.arg(i, buffer) {
        Ok(n) => &buffer[..n],
        Err(_) => &[],
    }
}

// What can be asked for, to standard error.
fn usage(rt: &impl Eprint) -> Told {
    let _ = rt.eprint(
        "new or old, a file and the file to be made; show and a list; make, a text, and the files of list and items to be made; or no word at all\n",
    );
    Told
}

// A word has room for one character more than the longest: one that is longer is none of them.
pub(crate) fn asked(rt: &(impl Files + Env + Print + Eprint)) -> Result<(), Told> {
    let mut word = [0u8; 5];
    let mut from = [0u8; 4096];
    let mut to = [0u8; 4096];
    let mut beside = [0u8; 4096];
    let word = arg(rt, 1, &mut word);
    let from = arg(rt, 2, &mut from);
    let to = arg(rt, 3, &mut to);
    let beside = arg(rt, 4, &mut beside);
    match (arg_count(rt), word) {
        (3, b"show") => turn(rt, Asked::Text { list: from }),
        (4, b"new") => convert(rt, Wanted::New, from, to),
        (4, b"old") => convert(rt, Wanted::Old, from, to),
        (5, b"make") => turn(
            rt,
            Asked::List {
                text: from,
                list: to,
                items: beside,
            },
        ),
        _ => Err(usage(rt)),
    }
}
