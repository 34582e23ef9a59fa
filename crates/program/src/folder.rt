// A run in the folder that the program is started in: reads before.pic, run.lst and in.itm, runs, writes after.pic and prints. Document 01, The program; document 02, Eight.
//
// What is printed and written is `session::session`, which is proved; here are the system's calls alone.
use super::files::{Told, create, load, or_told, put, remove, rename};
use std::random::RandomSource;
use std::rt::Files;

// One of sixteen letters.
fn letter(x: u8) -> u8 {
    b'a' + x % 16
}

// The name of a run's own new file: after.pic.new, a dot and sixteen letters, two for each random byte.
fn own_name(random: &[u8; 8]) -> [u8; 30] {
    let mut name = *b"after.pic.new.................";
    for (i, x) in random.iter().enumerate() {
        name[14 + 2 * i] = letter(*x / 16);
        name[15 + 2 * i] = letter(*x);
    }
    name
}

// after.pic is the whole picture, or as it was: a new file of this run's own takes its name only once it is complete, and is removed where it cannot. Other runs in the folder have others, and none touches a file that it has not made.
fn replace(rt: &(impl Files + RandomSource + Eprint), picture: &[u8]) -> Result<(), Told> {
    let mut random = [0u8; 8];
    or_told(rt, b"after.pic.new", rt.fill_bytes(&mut random))?;
    let name = own_name(&random);
    let file = or_told(rt, b"after.pic.new", create(rt, &name))?;
    let replaced = complete(rt, file, &name, picture);
    if replaced.is_err() {
        remove(rt, &name);
    }
    replaced
}

// The new file written, and given the name of the picture.
fn complete<R: Files + Eprint>(
    rt: &R,
    file: R::File,
    name: &[u8],
    picture: &[u8],
) -> Result<(), Told> {
    or_told(rt, b"after.pic.new", put(file, picture))?;
    or_told(rt, b"after.pic", rename(rt, name, b"after.pic"))
}

// Nothing is printed where after.pic is to be written and cannot be.
pub(crate) fn run(rt: &(impl Files + RandomSource + Print + Eprint)) -> Result<(), Told> {
    let mut picture = [0u8; 8705];
    let mut list = [0u8; 8193];
    let mut items = [0u8; 8193];
    let p = load(rt, b"before.pic", &mut picture);
    let l = load(rt, b"run.lst", &mut list);
    let i = load(rt, b"in.itm", &mut items);
    let mut after = [0u8; 8704];
    let mut text = [0u8; 16708];
    let counts = session::session(p, l, i, &mut after, &mut text);
    if counts.after > 0 {
        replace(rt, &after[..counts.after])?;
    }
    or_told(rt, b"standard output", rt.write_all(&text[..counts.text]))
}
