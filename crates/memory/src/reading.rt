// The loops behind a load: the byte read of each chip, eight chips at a time, and then the lines' bits, a lane of 32 bytes at a time.
ghost use Rattle.std.specs.Prelude.{◌≡◌, ◌+◌, ◌*◌, ◌/◌, ◌%◌, ◌<◌, get_or};
ghost use Rattle.bits.specs.Bits.{listed, digits_of};
ghost use Rattle.bits.specs.Steps.{written};
ghost use Rattle.memory.specs.Groups.{spot, line_digit};

use super::places::{byte_at, group_of, partner, place_of, spot_from};
use bits::lanes::gather_lane;

// Eight bytes of the memory, 32 apart from `from` on, to the places i, 32 + i, 64 + i and so on.
fn read_group(mem: &[u8; 8192], from: usize, i: usize, out: &mut [u8; 256])
    requires { (from + 224 < 8192) × (i < 32) }
    ensures { out.new ≡ written (λ t. 32 * t + i) (λ t o. get_or mem.now (32 * t + from) 0) out.old 8 }
{
    for t in 0..8 {
        out[32 * t + i] = mem[32 * t + from];
    }
}

// The byte read of each chip: chip t of group i's stands at 32t + i. Two groups a turn, which spares half of the counting.
pub fn read_all(mem: &[u8; 8192], mode: u8, addr: u8) -> [u8; 256]
    ensures { result ≡ listed (λ n. get_or mem.now (spot mode addr (n % 32) (n / 32)) 0) 256 }
{
    let k = group_of(addr, 0);
    let first = 256 * k + byte_at(mode, addr, k);
    let mut out = [0u8; 256];
    for turn in 0..16 {
        let i = 2 * turn;
        read_group(mem, spot_from(first, mode, i), i, &mut out);
        read_group(mem, spot_from(first, mode, i + 1), i + 1, &mut out);
    }
    out
}

// Line 8i + j's bit, from the byte read of the chip that it meets.
#[inline(never)]
pub(crate) fn gather(bytes: &[u8; 256], mode: u8, addr: u8) -> [u8; 32]
    ensures { result ≡ listed (λ i. digits_of (line_digit bytes.now mode addr i) 8) 32 }
{
    let mut out = [0u8; 32];
    for j in 0..8 {
        let t = partner(addr, j);
        let from = 32 * usize::from(t);
        let lane = bytes[from..from + 32].as_array().unwrap();
        out = gather_lane(&out, lane, place_of(mode, addr, t), j);
    }
    out
}
