// The array module: a run of an instruction list, and a step for an operator's console. Document 01, Instructions and Numbers given back; document 02, Seven.
#![tactic(auto)]

mod acting;

ghost use Rattle.std.specs.Prelude.{◌≡◌};
ghost use Rattle.judge.specs.Answers.{answer_of};
ghost use Rattle.judge.specs.Steps.{Accepted};
ghost use Rattle.module.specs.Left.{left_by};
ghost use Rattle.module.specs.Run.{Lent, Left, step_lengths, ran_all, ran, stepped};

use acting::Acted;
use judge::{Done, Lengths, REGISTER_BYTES, Refused};
use registers::Registers;

// A step that is done, beside the buffers.
#[derive(Clone, Copy)]
pub struct Stepped {
    pub regs: Registers,
    pub done: Done,
}

// The instructions of a list that the judge accepts, one after the other.
fn run_list(mem: &mut [u8], r: Registers, list: &[u8], items: &[u8], out: &mut [u8]) -> Acted
    requires { Accepted
        (step_lengths (record { memory = mem.old; registers = r; list = list.now; items = items.now; out = out.old }))
        r.modes
        list.now }
    ensures { record { mem = mem.exit.now; out = out.new; regs = result.regs; taken = result.taken; given = result.given }
        ≡ ran_all
        (record { memory = mem.entry.now; registers = r; list = list.now; items = items.now; out = out.old })
        r }
{
    let memory: &mut [u8; 8192] = mem.as_mut_array().unwrap();
    let n = list.len() / 8;
    let mut s = r;
    let mut taken: usize = 0;
    let mut given: usize = 0;
    for k in 0..n {
        let i = judge::decode(list, k);
        let settled = judge::modes::settle(i, s.modes);
        let r = registers::with_modes(s, settled.modes);
        let a = acting::act(memory, r, i, settled.mode, items, out, taken, given);
        s = a.regs;
        taken = a.taken;
        given = a.given;
    }
    Acted {
        regs: s,
        taken,
        given,
    }
}

// A run: the whole list is judged before its first instruction acts. Where it is refused, or there is no instruction, it has no steps, and nothing is written, not even the same bytes.
pub fn run(
    mem: &mut [u8],
    regs: &mut [u8],
    list: &[u8],
    items: &[u8],
    out: &mut [u8],
) -> Result<Done, Refused>
    ensures { record { memory = mem.new; registers = regs.new; out = out.new; answer = answer_of result }
        ≡ ran (record { memory = mem.old; registers = regs.old; list = list.now; items = items.now; out = out.old }) }
{
    let lengths = Lengths {
        memory: mem.len(),
        registers: regs.len(),
        items: items.len(),
        out: out.len(),
    };
    let modes = registers::mode_bytes::modes_of(regs);
    let done = judge::judge(lengths, modes, list)?;
    if done.steps != 0 {
        let r = registers::rows::registers_of(regs);
        let left = run_list(mem, r, list, items, out);
        registers::rows::write_registers(regs, left.regs);
    }
    Ok(done)
}

// A step on a register record by value: what `step` does to the record that it is lent.
pub fn advance(
    mem: &mut [u8],
    r: Registers,
    instruction: &[u8],
    items: &[u8],
    out: &mut [u8],
) -> Result<Stepped, Refused>
    ensures { left_by r result mem.new out.new
        ≡ stepped (record { memory = mem.old; registers = r; list = instruction.now; items = items.now; out = out.old }) }
{
    let lengths = Lengths {
        memory: mem.len(),
        registers: REGISTER_BYTES,
        items: items.len(),
        out: out.len(),
    };
    let done = judge::judge_step(lengths, r.modes, instruction)?;
    let left = run_list(mem, r, instruction, items, out);
    Ok(Stepped {
        regs: left.regs,
        done,
    })
}

// A step: an operator's console lends the register record and finds it updated there; a refused step writes nothing to it.
pub fn step(
    mem: &mut [u8],
    r: &mut Registers,
    instruction: &[u8],
    items: &[u8],
    out: &mut [u8],
) -> Result<Done, Refused>
    ensures { record { memory = mem.new; registers = r.new; out = out.new; answer = answer_of result }
        ≡ stepped (record { memory = mem.old; registers = r.old; list = instruction.now; items = items.now; out = out.old }) }
{
    let stepped = advance(mem, *r, instruction, items, out)?;
    *r = stepped.regs;
    Ok(stepped.done)
}
