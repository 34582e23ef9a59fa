// A picture's file of one kind made one of the other. Document 02, Eight.
//
// What is made and answered is `pictures::convert`, which is proved; here are the system's calls alone.
use super::files::{Told, answer, bytes_of, made};
use contents::Refused;
use pictures::convert::{to_new, to_old};
use std::rt::Files;

// What a picture's file is made: one of the new kind, 4, or of the old one, 1.
#[derive(Clone, Copy)]
pub(crate) enum Wanted {
    New,
    Old,
}

// What is made of a file.
fn converted(wanted: Wanted, bytes: &[u8], out: &mut [u8]) -> Result<usize, Refused> {
    match wanted {
        Wanted::New => to_new(bytes, out),
        Wanted::Old => to_old(bytes, out),
    }
}

// The file that is named, made one of the kind that is asked for: its line, c, number, place and bytes put out, is printed once the new file stands, or where
// it is refused.
pub(crate) fn convert(
    rt: &(impl Files + Print + Eprint),
    wanted: Wanted,
    from: &[u8],
    to: &[u8],
) -> Result<(), Told> {
    let mut buffer = [0u8; 34305];
    let bytes = bytes_of(rt, from, &mut buffer)?;
    let mut out = [0u8; 8704];
    match converted(wanted, bytes, &mut out) {
        Ok(count) => {
            made(rt, to, &out)?;
            answer(rt, b"c", &[0, 0, count], b"")
        }
        Err(refused) => {
            let number = usize::from(refused.why.number());
            answer(rt, b"c", &[number, refused.place, 0], b"")
        }
    }
}
