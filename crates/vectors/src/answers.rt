// What a call answered, as numbers of the protocol.
use bits::refusals::Refusal;
use builders::Sizes;
use judge::Done;

// How many bytes at the front of the registers, of the list and of the items no document fixes: they are not digested.
#[derive(Clone, Copy, Default)]
pub struct Unfixed {
    pub registers: usize,
    pub list: usize,
    pub items: usize,
}

// The numbers of an answer: five are the fewest of the protocol.
#[derive(Clone, Copy)]
pub enum Numbers {
    Five([u32; 5]),
    Six([u32; 6]),
    Nine([u32; 9]),
}

// The numbers, and what is not digested.
#[derive(Clone, Copy)]
pub struct Answer {
    pub numbers: Numbers,
    pub unfixed: Unfixed,
}

// A count or a place as a number of the protocol.
// A cast, and no From: a larger number keeps its last 32 digits.
fn narrow(x: usize) -> u32 {
    (x % 4294967296) as u32
}

// Every byte of the buffers is digested.
fn fixed(numbers: Numbers) -> Answer {
    Answer {
        numbers,
        unfixed: Unfixed::default(),
    }
}

// An answer of five numbers, of which the last two are 0.
pub(crate) fn three(a: u8, b: usize, c: usize) -> Answer {
    fixed(Numbers::Five([u32::from(a), narrow(b), narrow(c), 0, 0]))
}

// The six numbers of a run or of a step.
pub(crate) fn six(r: Result<Done, judge::Refused>) -> [u32; 6] {
    match r {
        Ok(done) => {
            let (taken, given) = (narrow(done.taken), narrow(done.given));
            [0, 0, 0, narrow(done.steps), taken, given]
        }
        Err(refused) => {
            let (place, byte) = (narrow(refused.place), u32::from(refused.byte));
            [u32::from(refused.why.number()), place, byte, 0, 0, 0]
        }
    }
}

// A run's or a step's answer.
pub(crate) fn of_run(r: Result<Done, judge::Refused>) -> Answer {
    fixed(Numbers::Six(six(r)))
}

// The same where nothing is run: with the number of a builder that refused, or 0.
pub(crate) fn of_none(number: u8) -> Answer {
    fixed(Numbers::Six([u32::from(number), 0, 0, 0, 0, 0]))
}

// A builder's answer.
pub(crate) fn of_builder(r: Result<usize, Refusal>) -> Answer {
    match r {
        Ok(count) => three(0, 0, count),
        Err(why) => three(why.number(), 0, 0),
    }
}

// The answer of a builder of two buffers, and behind it the six numbers of its run.
pub(crate) fn of_two(r: Result<Sizes, Refusal>, run: [u32; 6], unfixed: Unfixed) -> Answer {
    let [number, place, byte, steps, taken, given] = run;
    let [refusal, list, items] = match r {
        Ok(sizes) => [0, narrow(sizes.list), narrow(sizes.items)],
        Err(why) => [u32::from(why.number()), 0, 0],
    };
    Answer {
        numbers: Numbers::Nine([
            refusal, list, items, number, place, byte, steps, taken, given,
        ]),
        unfixed,
    }
}

// The answer of showing and that of reach: a number and a count.
pub(crate) fn of_counted(r: Result<usize, Refusal>) -> Answer {
    match r {
        Ok(count) => three(0, count, 0),
        Err(why) => three(why.number(), 0, 0),
    }
}

// The answer to the question whether a list is isolated.
pub(crate) fn of_isolation(r: Result<(), isolation::Refused>) -> Answer {
    match r {
        Ok(()) => three(0, 0, 0),
        Err(refused) => three(refused.why.number(), refused.place, 0),
    }
}

// A text that is refused, with its line and column.
fn of_text(r: text::Refused) -> Answer {
    let (line, column) = (narrow(r.line), narrow(r.column));
    let number = u32::from(r.why.number());
    fixed(Numbers::Five([number, line, column, 0, 0]))
}

// The answer of making, with the count of the list's bytes.
pub(crate) fn of_made(r: Result<usize, text::Refused>) -> Answer {
    match r {
        Ok(count) => fixed(Numbers::Five([0, 0, 0, narrow(count), 0])),
        Err(refused) => of_text(refused),
    }
}

// The answer of making with statements, which counts the items too.
pub(crate) fn of_assembled(r: Result<Sizes, text::Refused>) -> Answer {
    match r {
        Ok(sizes) => {
            let (list, items) = (narrow(sizes.list), narrow(sizes.items));
            fixed(Numbers::Five([0, 0, 0, list, items]))
        }
        Err(refused) => of_text(refused),
    }
}

// The answer of an entry of the disk.
pub(crate) fn of_disk(r: Result<usize, contents::Refused>) -> Answer {
    match r {
        Ok(size) => three(0, 0, size),
        Err(refused) => three(refused.why.number(), refused.place, 0),
    }
}
