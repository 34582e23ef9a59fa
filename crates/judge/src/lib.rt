// The judge: the number that a run gives back, with its place, its byte and its counts, from the lengths, the mode registers and the list alone. Document 01, Numbers given back; document 02, Six and Seven.
#![tactic(auto)]

mod forms;
pub mod kinds;
pub mod modes;
pub mod rows;
pub mod searches;

ghost use Rattle.std.specs.Prelude.{◌≡◌, ◌+◌, ◌*◌, ◌<◌, ◌≤◌, length};
ghost use Rattle.bits.specs.Rows.{number_of};
ghost use Rattle.bits.specs.Refusals.{number_given};
ghost use Rattle.judge.specs.Answers.{answer_of};
ghost use Rattle.judge.specs.Kinds.{most_bytes};
ghost use Rattle.judge.specs.Instructions.{instruction_at};
ghost use Rattle.judge.specs.Judge.{unfit, run_rows, step_rows, judged_alone, done, or_else, judged_list, judged, judged_step};

use bits::refusals::Refusal;
use registers::Modes;
use registers::mode_bytes::wrong_modes;

// The lengths that stand: of the memory, of the registers, and the most that a list or items may have.
pub const MEMORY_BYTES: usize = 8192;

pub const REGISTER_BYTES: usize = 100;

pub const MOST_BYTES: usize = 32768;

// An instruction, its eight bytes in order.
// Numbers, for the reason that stands in kinds.
#[derive(Clone, Copy)]
pub struct Instruction {
    pub kind: u8,
    pub source: u8,
    pub tag: u8,
    pub mode: u8,
    pub addr: u8,
    pub flip: u8,
    pub code: u8,
    pub logic: u8,
}

// The lengths of what a run is lent beside its list.
#[derive(Clone, Copy)]
pub struct Lengths {
    pub memory: usize,
    pub registers: usize,
    pub items: usize,
    pub out: usize,
}

// What is wrong with an instruction: why it is refused, and the first byte that is wrong by that.
#[derive(Clone, Copy, Debug, PartialEq, Eq)]
pub struct Fault {
    pub why: Refusal,
    pub byte: u8,
}

impl Fault {
    // The refusal of a list whose instruction `place` it is wrong with.
    pub fn at(self, place: usize) -> Refused
        ensures { result ≡ record { why = self.why; place = place; byte = self.byte } }
    {
        Refused {
            why: self.why,
            place,
            byte: self.byte,
        }
    }
}

// A run that is done: how many instructions there are, and how many of them take an item and give one.
#[derive(Clone, Copy, Debug, PartialEq, Eq)]
pub struct Done {
    pub steps: usize,
    pub taken: usize,
    pub given: usize,
}

// One that is refused: why, by which instruction, and for which of its bytes.
// Place and byte are 0 where no instruction is refused, as document 01 gives them back, so they are no Option.
#[derive(Clone, Copy, Debug, PartialEq, Eq)]
pub struct Refused {
    pub why: Refusal,
    pub place: usize,
    pub byte: u8,
}

// What is lent is refused without an instruction.
impl From<Refusal> for Refused {
    ghost from_gives = { λ why r. r ≡ record { why = why; place = 0; byte = 0 } };

    fn from(why: Refusal) -> Refused {
        Refused {
            why,
            place: 0,
            byte: 0,
        }
    }
}

// The first instruction that has a number, how many before it take an item and give one, and the mode registers before it.
#[derive(Clone, Copy)]
pub struct Tally {
    pub place: usize,
    pub taken: usize,
    pub given: usize,
    pub modes: Modes,
}

// Instruction `k` of a list.
// A list and a number, here and wherever instructions are walked (`8 * k + 8 ≤ length list`): `instruction_at` is of both, and a chunk of 8 would have to be joined to it by a law at each use.
pub fn decode(list: &[u8], k: usize) -> Instruction
    requires { 8 * k + 8 ≤ length list.now }
    ensures { result ≡ instruction_at list.now k }
{
    let at = 8 * k;
    Instruction {
        kind: list[at],
        source: list[at + 1],
        tag: list[at + 2],
        mode: list[at + 3],
        addr: list[at + 4],
        flip: list[at + 5],
        code: list[at + 6],
        logic: list[at + 7],
    }
}

// Not a multiple of `unit`, or over 32,768?
pub fn unfit(unit: usize, size: usize) -> bool
    requires { 0 < unit }
    ensures { result ≡ unfit unit size }
{
    (size % unit != 0) | (size > MOST_BYTES)
}

// What is wrong with what a run is lent: 1 to 4, and 15.
fn run_lent(l: Lengths, m: Modes, list: &[u8]) -> Result<(), Refusal>
    ensures { number_given result ≡ number_of (run_rows l m list.now) }
{
    if l.memory != MEMORY_BYTES {
        return Err(Refusal::MemoryLength);
    }
    if l.registers != REGISTER_BYTES {
        return Err(Refusal::RegistersLength);
    }
    if unfit(8, list.len()) {
        return Err(Refusal::ListLength);
    }
    if unfit(32, l.items) {
        return Err(Refusal::ItemsLength);
    }
    if wrong_modes(m) {
        return Err(Refusal::ModeRegisters);
    }
    Ok(())
}

// What is wrong with what a step is lent.
// Not one with run_lent, nor with what reach and isolation ask: each asks the rows of its own definition (run_rows, step_rows, reach_rows, ask_rows), all of them and in their order.
fn step_lent(l: Lengths, m: Modes, instruction: &[u8]) -> Result<(), Refusal>
    ensures { number_given result ≡ number_of (step_rows l m instruction.now) }
{
    if l.memory != MEMORY_BYTES {
        return Err(Refusal::MemoryLength);
    }
    if instruction.len() != 8 {
        return Err(Refusal::ListLength);
    }
    if unfit(32, l.items) {
        return Err(Refusal::ItemsLength);
    }
    if wrong_modes(m) {
        return Err(Refusal::ModeRegisters);
    }
    Ok(())
}

// Each instruction in turn: the first that has a number refuses the list; what a list without one takes and gives is counted.
fn judge_alone(m: Modes, list: &[u8]) -> Result<Done, Refused>
    ensures { answer_of result ≡ or_else (judged_alone m list.now) (done list.now) }
{
    let n = list.len() / 8;
    let tally = searches::tally(m, list);
    let bad = tally.place;
    if bad < n {
        let fault = searches::fault_at(tally.modes, list, bad).unwrap_err();
        return Err(fault.at(bad));
    }
    Ok(Done {
        steps: n,
        taken: tally.taken,
        given: tally.given,
    })
}

// Each instruction in turn; then 12; then 13. A list that stands is walked once: what all of it takes and gives is there exactly if each instruction
// finds its own, so that only a list that lacks some is searched for the instruction.
fn judge_list(l: Lengths, m: Modes, list: &[u8]) -> Result<Done, Refused>
    requires { length list.now ≤ most_bytes }
    ensures { answer_of result ≡ judged_list l m list.now }
{
    let done = judge_alone(m, list)?;
    if l.items < 32 * done.taken {
        return Err(Refused {
            why: Refusal::ItemsTooFew,
            place: searches::shortage(false, list, l.items),
            byte: 0,
        });
    }
    if l.out < 32 * done.given {
        return Err(Refused {
            why: Refusal::OutTooShort,
            place: searches::shortage(true, list, l.out),
            byte: 0,
        });
    }
    Ok(done)
}

// What a run gives back, by the mode registers at its start.
pub fn judge(l: Lengths, m: Modes, list: &[u8]) -> Result<Done, Refused>
    ensures { answer_of result ≡ judged l m list.now }
{
    run_lent(l, m, list)?;
    judge_list(l, m, list)
}

// What a step gives back: a run's answer for its one instruction, which is exactly 8 bytes, else 3.
pub fn judge_step(l: Lengths, m: Modes, instruction: &[u8]) -> Result<Done, Refused>
    ensures { answer_of result ≡ judged_step l m instruction.now }
{
    step_lent(l, m, instruction)?;
    judge_list(l, m, instruction)
}
