// What a store writes into each chip and what it keeps there, a lane of 32 bytes at a time. Chip t of group i's byte stands at 32t + i.
ghost use Rattle.std.specs.Prelude.{◌≡◌, ℕ, ◌*◌, ◌/◌, ◌%◌, ◌<◌, get_or};
ghost use Rattle.std.specs.Int.Bits.{bit_and, bit_xor};
ghost use Rattle.bits.specs.Bits.{bit_of, listed};
ghost use Rattle.memory.specs.Memory.{every};
ghost use Rattle.memory.specs.Groups.{lane_byte, keep_byte};

use super::places::{partner, place_of};
use bits::lanes::spread_lane;

// A lane's digits as they are, or turned over.
// Numbers and no enum: a const parameter of spread_lane, whose clause xors each byte with it.
pub const AS_IT_IS: u8 = 0;

pub const TURNED_OVER: u8 = 255;

// For each chip, what its line would write there; turned over, of a mask, the bits of its byte that stay where the lines of the mask write.
pub fn spread<const TURNED: u8>(item: &[u8; 32], mode: u8, addr: u8) -> [u8; 256]
    ensures { result ≡ listed (λ n. bit_xor (lane_byte (bit_of item.now) mode addr (n % 32) (n / 32)) TURNED) 256 }
{
    let mut out = [0; 256];
    for t in 0..8 {
        let from = 32 * usize::from(t);
        let lane = spread_lane::<TURNED>(item, partner(addr, t), place_of(mode, addr, t));
        out[from..from + 32].copy_from_slice(&lane);
    }
    out
}

// The item's bits at the lines of the mask, and 0 at the others.
// A loop, for the reason that stands at bits::flips::order.
pub fn masked(item: &[u8; 32], mask: &[u8; 32]) -> [u8; 32]
    ensures { result ≡ listed (λ i. bit_and (get_or item.now i 0) (get_or mask.now i 0)) 32 }
{
    let mut out = [0; 32];
    for i in 0..32 {
        out[i] = item[i] & mask[i];
    }
    out
}

// For each chip, the bits of its byte that stay where every line writes. All bytes of a lane are then one, and only the first is made.
#[inline(never)]
pub fn kept_by_all(mode: u8, addr: u8) -> [u8; 256]
    ensures { (t : ℕ) → t < 8 → get_or result (32 * t) 0 ≡ keep_byte every mode addr 0 t }
{
    let mut out = [0; 256];
    for t in 0..8 {
        out[32 * usize::from(t)] = (1u8 << place_of(mode, addr, t)) ^ 255;
    }
    out
}
