// A file read and one written, and a line printed, by the system's calls.
use session::Found;
use std::fs::{OpenFile, OpenOptions};
use std::io::{Cursor, ErrorKind, Read, Write};
use std::rt::Files;
use std::{fs, io, str};

// Something has failed, and the reason has gone to standard error.
#[derive(Clone, Copy)]
pub(crate) struct Told;

// A name as the system's calls take it. One that is not UTF-8 is no name to them.
fn name_of(name: &[u8]) -> io::Result<&str> {
    str::from_utf8(name).map_err(|_| io::Error::from(ErrorKind::InvalidFilename))
}

// A file opened to be read.
fn open<R: Files>(rt: &R, name: &[u8]) -> io::Result<R::File> {
    OpenOptions::new().read(true).open(rt, name_of(name)?)
}

// A file made, to be written: a name that is taken is refused.
pub(crate) fn create<R: Files>(rt: &R, name: &[u8]) -> io::Result<R::File> {
    OpenOptions::new()
        .write(true)
        .create_new(true)
        .open(rt, name_of(name)?)
}

// A file given another name.
pub(crate) fn rename(rt: &impl Files, from: &[u8], to: &[u8]) -> io::Result<()> {
    fs::rename(rt, name_of(from)?, name_of(to)?)
}

// A file removed, where it can be.
pub(crate) fn remove(rt: &impl Files, name: &[u8]) {
    if let Ok(text) = name_of(name) {
        let _ = fs::remove_file(rt, text);
    }
}

// The system's reason alone, of what an error is shown as: its number stands behind it.
fn reason(shown: &str) -> &str {
    shown
        .split_once(" (os error ")
        .map_or(shown, |(words, _)| words)
}

// A line to standard error: what failed, a colon and the reason.
fn tell(rt: &impl Eprint, what: &[u8], error: &io::Error) -> Told {
    let mut shown = Cursor::new([0u8; 320]);
    let _ = write!(shown, "{error}");
    let length = (shown.position() as usize).min(320);
    let words = reason(str::from_utf8(&shown.get_ref()[..length]).unwrap_or(""));
    let name = str::from_utf8(what).unwrap_or("a name that is no text");
    let _ = eprintln!(rt; "{name}: {words}");
    Told
}

// What was tried with a file, or with what else is named: where it failed, the reason goes to standard error.
pub(crate) fn or_told<T>(rt: &impl Eprint, what: &[u8], tried: io::Result<T>) -> Result<T, Told> {
    match tried {
        Ok(value) => Ok(value),
        Err(error) => Err(tell(rt, what, &error)),
    }
}

// Reads an open file to its end, or until the buffer is full: whoever lends one byte more than a file may have sees that it is too long, and reads no further.
fn fill<'a>(opened: io::Result<impl Read + Drop>, buffer: &'a mut [u8]) -> io::Result<&'a [u8]> {
    let mut file = opened?;
    let mut done: usize = 0;
    // A `while`: the count moves by what a read gives.
    while done < buffer.len() {
        match file.read(&mut buffer[done..])? {
            0 => break,
            more => done += more,
        }
    }
    Ok(&buffer[..done])
}

// Absent is a file of which the system says that there is none. Any other that cannot be opened or read has failed, and the system's reason goes to standard error.
pub(crate) fn load<'a>(rt: &(impl Files + Eprint), name: &[u8], buffer: &'a mut [u8]) -> Found<'a> {
    match open(rt, name) {
        Err(error) if error.kind() == ErrorKind::NotFound => Found::Absent,
        opened => match or_told(rt, name, fill(opened, buffer)) {
            Ok(bytes) => Found::Bytes(bytes),
            Err(Told) => Found::Failed,
        },
    }
}

// The bytes of a file that has to be there: where there are none to be had, the reason goes to standard error.
pub(crate) fn bytes_of<'a>(
    rt: &(impl Files + Eprint),
    name: &[u8],
    buffer: &'a mut [u8],
) -> Result<&'a [u8], Told> {
    or_told(rt, name, fill(open(rt, name), buffer))
}

// All of the bytes, through to the device, and then the file is closed; a failure of closing alone std does not tell.
pub(crate) fn put(mut file: impl Write + OpenFile + Drop, bytes: &[u8]) -> io::Result<()> {
    file.write_all(bytes)?;
    file.sync_all()
}

// The new file, removed again where it cannot be written whole: a name that is taken stays with the file that has it.
pub(crate) fn made(rt: &(impl Files + Eprint), name: &[u8], bytes: &[u8]) -> Result<(), Told> {
    let file = or_told(rt, name, create(rt, name))?;
    let written = or_told(rt, name, put(file, bytes));
    if written.is_err() {
        remove(rt, name);
    }
    written
}

// The line of an answer, a letter and numbers behind it, and a text behind that.
fn print_answer(rt: &impl Print, letter: &[u8], numbers: &[usize], text: &[u8]) -> io::Result<()> {
    rt.write_all(letter)?;
    for n in numbers {
        print!(rt; " {n}")?;
    }
    rt.write_all(b"\n")?;
    rt.write_all(text)
}

// The line of an answer, and a text behind it. Where standard output does not take all of it, the reason goes to standard error.
pub(crate) fn answer(
    rt: &(impl Print + Eprint),
    letter: &[u8],
    numbers: &[usize],
    text: &[u8],
) -> Result<(), Told> {
    or_told(
        rt,
        b"standard output",
        print_answer(rt, letter, numbers, text),
    )
}
