// How many words each instruction of a list reaches, for a run that starts with these registers. docs/TEXT.md, What a store reaches.
#![tactic(auto)]

ghost use Rattle.std.specs.Prelude.{◌≡◌, ◌+◌, ◌*◌, ◌/◌, ◌<◌, ◌≤◌, length};
ghost use Rattle.bits.specs.Bits.{two};
ghost use Rattle.bits.specs.Refusals.{number_given};
ghost use Rattle.bits.specs.Rows.{number_of};
ghost use Rattle.bits.specs.Steps.{put_at};
ghost use Rattle.reach.specs.Reach.{reach_of, reach_by, reach_bytes, answer_bytes, reach_rows, reached_of, reach_answer, reach_out};

use bits::refusals::Refusal;
use judge::modes::settle;
use judge::rows::{fault, stores};
use judge::{Instruction, REGISTER_BYTES, decode, unfit};
use registers::Modes;
use registers::mode_bytes::{modes_of, wrong_modes};

// How many words a store under a mode reaches: 2 to the number of the mode's zero bits.
pub fn reach_of(mode: u8) -> usize
    ensures { result ≡ reach_of mode }
{
    1usize << u8::count_ones(255 - mode)
}

// How many an instruction does, by the mode registers before it. Most store nothing, and only a store is judged.
fn reach_by(m: Modes, i: Instruction) -> usize
    ensures { result ≡ reach_by m i }
{
    if !stores(i) {
        return 0;
    }
    if fault(m, i).is_err() {
        return 0;
    }
    reach_of(settle(i, m).mode)
}

// Two bytes, low byte first, into a buffer.
fn put_two(out: &mut [u8], at: usize, x: usize)
    requires { (at + 2 ≤ length out.old) × (x < 65536) }
    ensures { out.new ≡ put_at at (two x) out.old }
{
    out[at..at + 2].copy_from_slice(&(x as u16).to_le_bytes());
}

// Those of each instruction; the mode registers are carried along as a run would.
fn put_all(m: Modes, list: &[u8], out: &mut [u8])
    requires { answer_bytes list.now ≤ length out.old }
    ensures { out.new ≡ put_at 0 (reach_bytes m list.now (length list.now / 8)) out.old }
{
    let n = list.len() / 8;
    let mut modes = m;
    for k in 0..n {
        let i = decode(list, k);
        put_two(out, 2 * k, reach_by(modes, i));
        modes = settle(i, modes).modes;
    }
}

// What is wrong with what is lent: 2, 3 and 15 in a run's order, and 27.
fn ask_lent(m: Modes, list: &[u8], registers: usize, out: usize) -> Result<(), Refusal>
    ensures { number_given result ≡ number_of (reach_rows registers m list.now out) }
{
    if registers != REGISTER_BYTES {
        return Err(Refusal::RegistersLength);
    }
    if unfit(8, list.len()) {
        return Err(Refusal::ListLength);
    }
    if wrong_modes(m) {
        return Err(Refusal::ModeRegisters);
    }
    if out < 2 * (list.len() / 8) {
        return Err(Refusal::OutputTooShort);
    }
    Ok(())
}

// How many words does each instruction reach? How many bytes were written is answered.
pub fn reach(registers: &[u8], list: &[u8], out: &mut [u8]) -> Result<usize, Refusal>
    ensures answer { reached_of result ≡ reach_answer registers.now list.now (length out.old) }
    ensures bytes { out.new ≡ reach_out registers.now list.now out.old }
{
    let m = modes_of(registers);
    ask_lent(m, list, registers.len(), out.len())?;
    put_all(m, list, out);
    Ok(2 * (list.len() / 8))
}
