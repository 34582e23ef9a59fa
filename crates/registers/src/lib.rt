// The registers of the array module, M, X, Y and the two access mode registers: the logic instruction, setting M and the modes, and the resolver. Document 01, Instructions; document 02, Seven; source 004.
#![tactic(auto)]

mod bytes;
pub mod mode_bytes;
pub mod resolver;
pub mod rows;

ghost use Rattle.std.specs.Prelude.{◌≡◌, ◌<◌, cond, eqb};
ghost use Rattle.registers.specs.Logic.{logic_of};
ghost use Rattle.registers.specs.Rows.{with_m, with_modes};

use bytes::Byte7;

// An access mode register: a flag, 1 where somebody set it, and the mode.
// A flag and no Option: C lends these two bytes (staran_step_5; `staran_registers` in include/staran.h). `mode_if_set` gives the Option.
#[repr(C)]
#[derive(Clone, Copy)]
pub struct ModeRegister {
    pub set: u8,
    pub mode: u8,
}

impl ModeRegister {
    // Has somebody set it?
    pub fn is_set(self) -> bool
        ensures { result ≡ eqb self.set 1 }
    {
        self.set == 1
    }

    // Its mode, where it is set. The two fields stay as C lends them.
    pub fn mode_if_set(self) -> Option<u8>
        ensures { result ≡ cond (eqb self.set 1) (Some self.mode) None }
    {
        if self.is_set() { Some(self.mode) } else { None }
    }
}

// The two of them.
#[repr(C)]
#[derive(Clone, Copy)]
pub struct Modes {
    pub a: ModeRegister,
    pub b: ModeRegister,
}

// The register set: one record of three rows of bytes, and the mode registers. Its layout is C's, 100 bytes one after the other, so that a console in C can lend it.
#[repr(C)]
#[derive(Clone, Copy)]
pub struct Registers {
    pub m: [u8; 32],
    pub x: [u8; 32],
    pub y: [u8; 32],
    pub modes: Modes,
}

// M becomes the item; everything else stays.
pub fn set_m(r: Registers, item: &[u8; 32]) -> Registers
    ensures { result ≡ with_m r item.now }
{
    Registers { m: *item, ..r }
}

// The mode registers become these; everything else stays.
pub fn with_modes(r: Registers, modes: Modes) -> Registers
    ensures { result ≡ with_modes r modes }
{
    Registers { modes, ..r }
}

// The registers after a logic instruction: `item` is what was passed, `byte7` 16 times the choice plus the function. Both new rows are made from the old ones.
// Byte 7 as it stands in a list: it is public, and a `Byte7` would ask its callers for more than the byte.
pub fn logic(r: Registers, item: &[u8; 32], byte7: u8) -> Registers
    requires { byte7 < 80 }
    ensures { result ≡ logic_of r item.now byte7 }
{
    let instruction = Byte7 { value: byte7 };
    let mut x = [0u8; 32];
    let mut y = [0u8; 32];
    for i in 0..32 {
        y[i] = instruction.y_byte(r.y[i], item[i]);
        x[i] = instruction.x_byte(r.x[i], r.y[i], item[i]);
    }
    Registers { x, y, ..r }
}
