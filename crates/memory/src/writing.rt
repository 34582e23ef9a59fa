// The loops behind a store: each chip's part of the memory is lent on to the chip writer, eight chips at a time.
ghost use Rattle.std.specs.Prelude.{◌≡◌, ◌+◌, ◌*◌, ◌/◌, ◌%◌, ◌<◌, ◌≤◌, length, get_or, set};
ghost use Rattle.bits.specs.Steps.{written};
ghost use Rattle.memory.specs.Groups.{spot, renewed};

use super::places::{byte_at, group_of};

// The chip writer: of byte `at` of the chip's 32 bytes the bits of `keep` stay, and those of `put` come to them.
// `at` is the byte that the address names, and no place to go on at.
fn write_chip(chip: &mut [u8], at: usize, keep: u8, put: u8)
    requires { at < length chip.old }
    ensures { chip.new ≡ set chip.old at (renewed (get_or chip.old at 0) keep put) }
{
    chip[at] = (chip[at] & keep) | put;
}

// The eight chips of group k: chip t keeps what stands at 32t + j, and takes what stands at 32t + i.
// Not one with reading::read_group: that fills an array and this renews the memory, and they share a loop of eight alone.
fn write_group(
    mem: &mut [u8; 8192],
    k: usize,
    at: usize,
    j: usize,
    keep: &[u8; 256],
    i: usize,
    put: &[u8; 256],
)
    requires { (k < 32) × (at < 32) × (j < 32) × (i < 32) }
    ensures { mem.new ≡ written (λ t. 32 * (8 * k + t) + at) (λ t o. renewed o (get_or keep.now (32 * t + j) 0) (get_or put.now (32 * t + i) 0)) mem.old 8 }
{
    for t in 0..8 {
        let c = 8 * k + t;
        write_chip(
            &mut mem[32 * c..32 * c + 32],
            at,
            keep[32 * t + j],
            put[32 * t + i],
        );
    }
}

// All 256 chips, eight at a time. Of each lane of `keep` the first `n` bytes serve in turn: all 32, or one for a whole lane, which then stays in a register.
pub fn write_all(
    mem: &mut [u8; 8192],
    mode: u8,
    addr: u8,
    n: usize,
    keep: &[u8; 256],
    put: &[u8; 256],
)
    requires { (0 < n) × (n ≤ 32) }
    ensures { mem.new ≡ written (λ k. spot mode addr (k / 8) (k % 8)) (λ k o. renewed o (get_or keep.now (32 * (k % 8) + k / 8 % n) 0) (get_or put.now (32 * (k % 8) + k / 8) 0)) mem.old 256 }
{
    for i in 0..32 {
        let k = group_of(addr, i);
        write_group(mem, k, byte_at(mode, addr, k), i % n, keep, i, put);
    }
}
