// What one instruction does: its source item makes one pass, and then goes into the registers, the memory or the out buffer.
ghost use Rattle.std.specs.Prelude.{◌≡◌, true, false, cond, List, ℕ, ◌+◌, ◌*◌, ◌<◌, ◌≤◌, eqb, length};
ghost use Rattle.network.specs.Shifts.{permitted};
ghost use Rattle.registers.specs.declared.Modes.{Modes};
ghost use Rattle.registers.specs.Logic.{logic_of};
ghost use Rattle.registers.specs.Rows.{with_m, with_modes};
ghost use Rattle.judge.specs.Kinds.{memory_bytes, logic, set_m, deliver};
ghost use Rattle.judge.specs.Instructions.{gives, takes};
ghost use Rattle.judge.specs.Modes.{modes_by};
ghost use Rattle.judge.specs.Steps.{settled_by};
ghost use Rattle.module.specs.Act.{held, mem_after, put_part, acted};
ghost use Rattle.module.specs.Ready.{Ready, passed_under};

use judge::Instruction;
use judge::kinds::{DELIVER, LOGIC, M, MASKED_STORE, MEMORY, RESOLVE, SET_M, STORE, X};
use registers::Registers;

// What an act leaves beside the buffers: the registers, and how many items were taken and given.
#[derive(Clone, Copy)]
pub struct Acted {
    pub regs: Registers,
    pub taken: usize,
    pub given: usize,
}

// The item that the module itself holds: of memory, M, X or Y.
fn held_item(mem: &[u8; 8192], r: Registers, i: Instruction, mode: u8) -> [u8; 32]
    requires { i.source < 4 }
    ensures { result ≡ held i.source mode i.addr mem.now r }
{
    match i.source {
        MEMORY => memory::load(mem, mode, i.addr),
        M => r.m,
        X => r.x,
        _ => r.y,
    }
}

// The source item, passed. An outside item is handed to the pass as the part of the lent items that it is. Most instructions move no line: a call of the pass, which has the same test for its other callers, would cost them more than the copy.
fn passed_item(
    mem: &[u8; 8192],
    r: Registers,
    i: Instruction,
    mode: u8,
    items: &[u8],
    taken: usize,
) -> [u8; 32]
    requires { (i.source ≤ 4) × (permitted i.code ≡ true) × (takes i ≡ true → 32 * taken + 32 ≤ length items.now) }
    ensures { result ≡ passed_under mode i mem.now items.now r taken }
{
    if judge::rows::takes(i) {
        return network::pass_part(&items[32 * taken..32 * taken + 32], i.flip, i.code);
    }
    let s = held_item(mem, r, i, mode);
    if i.flip | i.code == 0 {
        return network::items::copied(&s);
    }
    network::pass_item(&s, i.flip, i.code)
}

// The registers after an instruction that passes an item: logic and set M change them.
fn turn(i: Instruction, r: Registers, f: &[u8; 32]) -> Registers
    requires { i.kind ≡ 0 → i.logic < 80 }
    ensures { result ≡ cond (eqb i.kind logic) (logic_of r f.now i.logic) (cond (eqb i.kind set_m) (with_m r f.now) r) }
{
    match i.kind {
        LOGIC => registers::logic(r, f, i.logic),
        SET_M => registers::set_m(r, f),
        _ => r,
    }
}

// The memory after it: store and masked store change it. M is the mask as it is: only the item has passed.
fn keep<'a>(mem: &mut [u8; 8192], i: Instruction, mode: u8, m: &'a [u8; 32], f: &'a [u8; 32])
    ensures { mem.new ≡ mem_after i mode mem.old m.now f.now }
{
    match i.kind {
        STORE => memory::store(mem, mode, i.addr, f),
        MASKED_STORE => memory::store_masked(mem, mode, i.addr, f, m),
        _ => {}
    }
}

// An item put out: the next part of the out buffer takes it.
// Not one with builders' put_item: neither crate stands on the other, and each line has its own definition, `put_part` and `put_at`.
fn put_out(out: &mut [u8], given: usize, x: &[u8; 32])
    requires { 32 * given + 32 ≤ length out.old }
    ensures { out.new ≡ put_part out.old given x.now }
{
    out[32 * given..32 * given + 32].copy_from_slice(x);
}

// The out buffer after it: a deliver puts the passed item out.
#[inline(never)]
fn deliver(out: &mut [u8], i: Instruction, given: usize, f: &[u8; 32])
    requires { gives i ≡ true → 32 * given + 32 ≤ length out.old }
    ensures { out.new ≡ cond (eqb i.kind deliver) (put_part out.old given f.now) out.old }
{
    if i.kind == DELIVER {
        put_out(out, given, f);
    }
}

// What an instruction does that passes no item: a resolve puts out what the resolver says; kind 6 has set its mode register.
fn act_still(r: Registers, i: Instruction, out: &mut [u8], taken: usize, given: usize) -> Acted
    requires { (4 < i.kind) × (i.kind ≤ 6) × (takes i ≡ false) × (gives i ≡ true → 32 * given + 32 ≤ length out.old) × (given ≤ 4096) }
    ensures { (mem items : List ℕ) (m : Modes) → r.modes ≡ modes_by i m →
        record { mem = mem; out = out.new; regs = result.regs; taken = result.taken; given = result.given }
        ≡ acted i items (record { mem = mem; out = out.old; regs = with_modes r m; taken = taken; given = given }) }
{
    if i.kind == RESOLVE {
        let x = registers::resolver::resolve(&r.y);
        put_out(out, given, &x);
        return Acted {
            regs: r,
            taken,
            given: given + 1,
        };
    }
    Acted {
        regs: r,
        taken,
        given,
    }
}

// What an instruction does to a state, and the counts after it. `mode` is that under which it accesses memory, and the record already has the mode registers after it: `judge::modes::settle` says both, before anything else, so that an instruction that names no register pays for one test.
// The counts go in one by one, as `Ready` and `acted` name them: an `Acted` handed in would be taken apart into the same three.
pub fn act(
    mem: &mut [u8; 8192],
    r: Registers,
    i: Instruction,
    mode: u8,
    items: &[u8],
    out: &mut [u8],
    taken: usize,
    given: usize,
) -> Acted
    requires { Ready mem.old items.now out.old i taken given }
    ensures { (m : Modes) → record { mode = mode; modes = r.modes } ≡ settled_by i m →
        record { mem = mem.exit.now; out = out.new; regs = result.regs; taken = result.taken; given = result.given }
        ≡ acted i items.now
        (record { mem = mem.entry.now; out = out.old; regs = with_modes r m; taken = taken; given = given }) }
{
    if i.kind > DELIVER {
        return act_still(r, i, out, taken, given);
    }
    let f = passed_item(mem, r, i, mode, items, taken);
    keep(mem, i, mode, &r.m, &f);
    deliver(out, i, given, &f);
    Acted {
        regs: turn(i, r, &f),
        taken: taken + usize::from(judge::rows::takes(i)),
        given: given + usize::from(judge::rows::gives(i)),
    }
}
