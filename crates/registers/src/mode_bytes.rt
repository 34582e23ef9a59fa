// The mode registers as the last four bytes of the register set, whether 15 refuses them and whether one is set. Document 02, Seven and Eight.
ghost use Rattle.std.specs.Prelude.{◌≡◌, get_or};
ghost use Rattle.registers.specs.Modes.{modes_of, wrong_register, wrong_modes, any_set};

use crate::{ModeRegister, Modes};

// Byte `k`, 0 where there is none.
fn byte_or_zero(bytes: &[u8], k: usize) -> u8
    ensures { result ≡ get_or bytes.now k 0 }
{
    bytes.get(k).copied().unwrap_or(0)
}

// The mode registers of a register set of any length: the judge asks for them before it has refused a wrong one.
pub fn modes_of(regs: &[u8]) -> Modes
    ensures { result ≡ modes_of regs.now }
{
    let a = ModeRegister {
        set: byte_or_zero(regs, 96),
        mode: byte_or_zero(regs, 97),
    };
    let b = ModeRegister {
        set: byte_or_zero(regs, 98),
        mode: byte_or_zero(regs, 99),
    };
    Modes { a, b }
}

// A flag over 1, or a nonzero mode with flag 0?
fn wrong_register(r: ModeRegister) -> bool
    ensures { result ≡ wrong_register r }
{
    r.set > 1 || r.set == 0 && r.mode != 0
}

// Does 15 refuse either?
#[tactic(auto, unfolding(crate::specs::Modes::wrong_modes))]
pub fn wrong_modes(m: Modes) -> bool
    ensures { result ≡ wrong_modes m }
{
    wrong_register(m.a) || wrong_register(m.b)
}

// Is either set?
pub fn any_set(m: Modes) -> bool
    ensures { result ≡ any_set m }
{
    m.a.is_set() || m.b.is_set()
}
