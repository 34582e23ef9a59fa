// The memory of 256 words by 256 bits, kept scrambled, chip by chip, in 8,192 lent bytes. Document 01, Memory.
//
// `load`, `store` and `store_masked` are inner functions of the emulator, and `run` is what a user calls.
// `read_all` and `partner`, steps of a load, are handed on to the crate words, which reads eight words at a time.
#![tactic(auto)]

pub mod places;
pub mod reading;
mod spreading;
pub mod writing;

ghost use Rattle.std.specs.Prelude.{◌≡◌, ◌/◌, ◌%◌};
ghost use Rattle.bits.specs.Bits.{bit_of, listed, item};
ghost use Rattle.memory.specs.Access.{read_bit};
ghost use Rattle.memory.specs.Memory.{cell, stored, every};
ghost use Rattle.memory.specs.Groups.{keep_byte};

use spreading::{AS_IT_IS, TURNED_OVER};

// The item that is read under a mode and an address: line P has the bit that it meets.
// Mode and address stay two numbers, here and in all of this crate: each definition of specs/Memory takes them apart, and a caller has them from two places.
pub fn load(mem: &[u8; 8192], mode: u8, addr: u8) -> [u8; 32]
    ensures { result ≡ item (read_bit (cell mem.now) mode addr) }
{
    let bytes = reading::read_all(mem, mode, addr);
    reading::gather(&bytes, mode, addr)
}

// The item goes where its lines point, at the lines whose bit of `mask` is 1; every other bit of the memory stays.
pub fn store_masked(mem: &mut [u8; 8192], mode: u8, addr: u8, item: &[u8; 32], mask: &[u8; 32])
    ensures { mem.new ≡ stored mem.old mode addr (bit_of mask.now) (bit_of item.now) }
{
    let keep = spreading::spread::<TURNED_OVER>(mask, mode, addr);
    put_masked(mem, mode, addr, item, mask, &keep);
}

// The same where what the chips keep is made already. Apart, because the compiler gives all results of one type within a function one place on the stack
// and copies each out of it: together they would need 256 bytes more.
fn put_masked(
    mem: &mut [u8; 8192],
    mode: u8,
    addr: u8,
    item: &[u8; 32],
    mask: &[u8; 32],
    keep: &[u8; 256],
)
    requires { keep.now ≡ listed (λ n. keep_byte (bit_of mask.now) mode addr (n % 32) (n / 32)) 256 }
    ensures { mem.new ≡ stored mem.old mode addr (bit_of mask.now) (bit_of item.now) }
{
    let put = spreading::spread::<AS_IT_IS>(&spreading::masked(item, mask), mode, addr);
    writing::write_all(mem, mode, addr, 32, keep, &put);
}

// The item goes where its lines point: the same at all lines, where what is kept is one byte for a lane.
pub fn store(mem: &mut [u8; 8192], mode: u8, addr: u8, item: &[u8; 32])
    ensures { mem.new ≡ stored mem.old mode addr every (bit_of item.now) }
{
    let put = spreading::spread::<AS_IT_IS>(item, mode, addr);
    let keep = spreading::kept_by_all(mode, addr);
    writing::write_all(mem, mode, addr, 1, &keep, &put);
}
