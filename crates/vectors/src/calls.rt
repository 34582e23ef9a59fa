// The entry that a case names, called on its buffers. tests/outside/cases/PROTOCOL.md has the table of the kinds.
use super::answers::{
    Answer, Unfixed, of_assembled, of_builder, of_counted, of_disk, of_isolation, of_made, of_none,
    of_run, of_two, six, three,
};
use super::records::{byte, parameter};
use super::rooms::{Buffers, buffers_in};
use bits::refusals::Refusal;
use builders::Sizes;
use builders::searches::{equal_list, greatest_list, less_list};
use builders::sums::{difference_list, sum_list};
use closing::{closing_list, spreading_list};
use contents::{Kind, Refused, read_content, write_content};
use judge::Done;
use pictures::convert::{to_new, to_old};
use pictures::{read_picture, write_picture};

// As many bytes as both have, put at the front of a buffer.
// Not buffers::patch at 0, which puts a case's patches: the line that they share is the loop.
fn put_front(buffer: &mut [u8], bytes: &[u8]) {
    for (x, y) in buffer.iter_mut().zip(bytes) {
        *x = *y;
    }
}

// What a form of the network gives for the item, put into the output.
fn pass<F: Fn(&[u8; 32], u8, u8) -> Result<[u8; 32], Refusal>>(
    b: Buffers,
    p: [u32; 4],
    form: F,
) -> Answer
    requires { F.IsAlwaysCallable form }
{
    let Buffers { items, out, .. } = b;
    let mut item = [0u8; 32];
    put_front(&mut item, items);
    let passed = form(&item, (p[0] % 256) as u8, (p[1] % 256) as u8);
    put_front(out, &passed.unwrap_or([0; 32]));
    match passed {
        Ok(_) => three(0, 0, 0),
        Err(why) => three(why.number(), 0, 0),
    }
}

// The first bytes of the list run, as many as there are of the number that is given.
fn run(b: Buffers, count: usize) -> Result<Done, judge::Refused> {
    let Buffers {
        memory,
        registers,
        list,
        items,
        out,
        ..
    } = b;
    let n = count.min(list.len());
    module::run(memory, registers, &list[..n], items, out)
}

// One instruction of a list taken; nothing is done where there are no 100 bytes of registers.
fn step(b: Buffers) -> Answer {
    let Buffers {
        memory,
        registers,
        list,
        items,
        out,
        ..
    } = b;
    if registers.len() != 100 {
        return of_none(0);
    }
    let mut r = registers::rows::registers_of(registers);
    let answer = module::step(memory, &mut r, list, items, out);
    registers::rows::write_registers(registers, r);
    of_run(answer)
}

// The builders of one buffer, on the case's numbers.
fn built(kind: u8, p: [u32; 4], b: Buffers) -> Result<usize, Refusal> {
    let [a, b1, s, n] = p;
    let Buffers { list, .. } = b;
    match kind {
        4 | 10 => sum_list(a, b1, s, n, list),
        5 | 11 => difference_list(a, b1, s, n, list),
        _ => greatest_list(a, b1, list),
    }
}

// Those of a list and its items: the number that is searched for is in two parameters, the low one first, and the marks are the file.
fn built_two(kind: u8, p: [u32; 4], b: Buffers) -> Result<Sizes, Refusal> {
    let [start, n, low, high] = p;
    let number = u64::from(low) + 4294967296 * u64::from(high);
    let Buffers {
        list,
        items,
        file,
        ..
    } = b;
    match kind {
        12 => equal_list(start, n, number, list, items),
        13 => less_list(start, n, number, list, items),
        15 => closing_list(start, n, low, file, list, items),
        _ => spreading_list(start, n, low, file, list, items),
    }
}

// A list that was built, run if it was.
fn of_built(r: Result<usize, Refusal>, b: Buffers) -> Answer {
    match r {
        Ok(count) => of_run(run(b, count)),
        Err(why) => of_none(why.number()),
    }
}

// The same of a list with its items: the six numbers of the run are 0 where it was not built.
fn run_built(r: Result<Sizes, Refusal>, b: Buffers) -> [u32; 6] {
    match r {
        Ok(sizes) => six(run(b, sizes.list)),
        Err(_) => [0; 6],
    }
}

// What no document fixes of a list and its items.
fn unfixed_of(r: Result<Sizes, Refusal>) -> Unfixed {
    match r {
        Ok(sizes) => Unfixed {
            registers: 0,
            list: sizes.list,
            items: sizes.items,
        },
        Err(_) => Unfixed::default(),
    }
}

// That of a search: the list's bytes are its own.
fn of_search(r: Result<Sizes, Refusal>, b: Buffers) -> Answer {
    let mut unfixed = unfixed_of(r);
    unfixed.items = 0;
    of_two(r, run_built(r, b), unfixed)
}

// That of a closing or a spreading: the items are its own too, and where the run is done so are M, X and Y.
fn of_closing(r: Result<Sizes, Refusal>, b: Buffers) -> Answer {
    let run = run_built(r, b);
    let mut unfixed = unfixed_of(r);
    if r.is_ok() && run[0] == 0 {
        unfixed.registers = 96;
    }
    of_two(r, run, unfixed)
}

// The disk's entries, kinds 6 to 9 and 17 to 20: lists, items and pictures read and written, and pictures converted. Kinds 7 and 9 ask for a picture of kind 1.
fn moved(kind: u8, asked: usize, b: Buffers) -> Result<usize, Refused> {
    let Buffers {
        memory,
        registers,
        list,
        file,
        ..
    } = b;
    match kind {
        6 => read_content(asked, file, list),
        7 => read_picture(Kind::Picture.number(), file, memory, registers),
        8 => write_content(asked, list, file),
        9 => write_picture(Kind::Picture.number(), memory, registers, file),
        17 => read_picture(asked, file, memory, registers),
        18 => write_picture(asked, memory, registers, file),
        19 => to_new(file, list),
        _ => to_old(file, list),
    }
}

// Kinds 21 to 25: whether a list is isolated, its text, a text of instructions made a list, what a list reaches, and a text with statements made a list with its items.
fn of_list(kind: u8, b: Buffers) -> Answer {
    let Buffers {
        registers,
        list,
        items,
        out,
        file,
        ..
    } = b;
    match kind {
        21 => of_isolation(isolation::isolated(list, registers)),
        22 => of_counted(text::showing::show(list, file)),
        23 => of_made(text::making::make(file, list)),
        24 => of_counted(reach::reach(registers, list, out)),
        _ => of_assembled(assembly::assemble(file, list, items)),
    }
}

// Sums and differences built, and searches, closings and spreadings, and what is built run.
fn of_builders(kind: u8, p: [u32; 4], record: &[u8], room: &mut [u8]) -> Answer {
    let b = buffers_in(record, room);
    match kind {
        4 | 5 => of_builder(built(kind, p, b)),
        10 | 11 => {
            let r = built(kind, p, b);
            of_built(r, buffers_in(record, room))
        }
        14 => {
            let r = built(kind, p, b);
            let list = r.map(|list| Sizes { list, items: 0 });
            of_search(list, buffers_in(record, room))
        }
        12 | 13 => {
            let r = built_two(kind, p, b);
            of_search(r, buffers_in(record, room))
        }
        _ => {
            let r = built_two(kind, p, b);
            of_closing(r, buffers_in(record, room))
        }
    }
}

// The entry that the case names.
// Kinds are numbers, here and above: the protocol's own, whose table this is.
pub(crate) fn call(record: &[u8], room: &mut [u8]) -> Answer {
    let kind = byte(record, 0);
    let p = [
        parameter(record, 0),
        parameter(record, 1),
        parameter(record, 2),
        parameter(record, 3),
    ];
    match kind {
        0 => of_run(run(buffers_in(record, room), usize::MAX)),
        1 => step(buffers_in(record, room)),
        2 => pass(buffers_in(record, room), p, network::pass),
        3 => pass(buffers_in(record, room), p, network::wired_pass),
        4 | 5 | 10..=16 => of_builders(kind, p, record, room),
        6..=9 | 17..=20 => of_disk(moved(kind, p[0] as usize, buffers_in(record, room))),
        _ => of_list(kind, buffers_in(record, room)),
    }
}
