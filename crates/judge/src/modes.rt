// The mode registers in a list: what an instruction makes of them, and the mode that it takes from them. Document 02, Seven.
ghost use Rattle.std.specs.Prelude.{◌≡◌};
ghost use Rattle.judge.specs.Modes.{modes_by, mode_of, unset};
ghost use Rattle.judge.specs.Steps.{settled_by};

use crate::Instruction;
use crate::kinds::{SET_MODE, TAG_A, TAG_B, TAG_GIVEN};
use registers::{ModeRegister, Modes};

// What the mode registers mean to an instruction: the mode under which it accesses memory, and the mode registers after it.
#[derive(Clone, Copy)]
pub struct Settled {
    pub mode: u8,
    pub modes: Modes,
}

// The mode registers after an instruction: kind 6 sets one.
pub(crate) fn modes_by(i: Instruction, m: Modes) -> Modes
    ensures { result ≡ modes_by i m }
{
    if i.kind != SET_MODE {
        return m;
    }
    let register = ModeRegister {
        set: 1,
        mode: i.mode,
    };
    match i.tag {
        TAG_A => Modes { a: register, ..m },
        TAG_B => Modes { b: register, ..m },
        _ => m,
    }
}

// The mode under which an instruction accesses memory.
fn mode_of(m: Modes, i: Instruction) -> u8
    ensures { result ≡ mode_of m i }
{
    match i.tag {
        TAG_A => m.a.mode,
        TAG_B => m.b.mode,
        _ => i.mode,
    }
}

// Both of these. Most instructions name no register.
pub fn settle(i: Instruction, m: Modes) -> Settled
    ensures { result ≡ settled_by i m }
{
    if i.tag <= TAG_GIVEN {
        return Settled {
            mode: i.mode,
            modes: m,
        };
    }
    Settled {
        mode: mode_of(m, i),
        modes: modes_by(i, m),
    }
}

// Is its tag that of a register which is not set?
// The flags are tested as bytes, here and in forms, as `unset` and `moded` word it.
pub fn unset(m: Modes, i: Instruction) -> bool
    ensures { result ≡ unset m i }
{
    ((i.tag == TAG_A) & (m.a.set != 1)) | ((i.tag == TAG_B) & (m.b.set != 1))
}
