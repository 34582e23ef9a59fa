// Lanes of an item: lane j is digit j of each of its 32 bytes. A whole lane is moved by one loop over bytes, which a compiler turns into a few wide operations.
ghost use Rattle.std.specs.Prelude.{◌≡◌, ◌+◌, ◌*◌, ◌%◌, ◌^◌, ◌<◌, get_or};
ghost use Rattle.std.specs.Int.Bits.{bit_or, bit_xor};
ghost use Rattle.bits.specs.Bits.{digit, bit_of, listed};

// Digit `j` of `x`, moved to digit `s`. By a branch: it becomes one comparison of a whole lane, and x86-64 has no shift of bytes.
// A digit's number is a u8 below 8, here and in the crate memory: it comes out of a loop's range, which has the bound, and a type for it would be made there and taken apart here.
fn moved_digit(x: u8, j: u8, s: u8) -> u8
    requires { (j < 8) × (s < 8) }
    ensures { result ≡ digit x j * 2 ^ s % 256 }
{
    if (x >> j) % 2 == 0 { 0 } else { 1u8 << s }
}

// Lane `j` of the item, moved to digit `s` of each byte, whose other digits are 0. Then the digits of `TURNED` are turned over in each byte: none by 0, and all by 255,
// which leaves what stays of a byte where that lane is written.
// The loops of this file are no `array::from_fn`, for the reason that stands at flips::order.
pub fn spread_lane<const TURNED: u8>(item: &[u8; 32], j: u8, s: u8) -> [u8; 32]
    requires { (j < 8) × (s < 8) }
    ensures { result ≡ listed (λ i. bit_xor (bit_of item.now (8 * i + j) * 2 ^ s) TURNED) 32 }
{
    let mut out = [0; 32];
    for i in 0..32 {
        out[i] = moved_digit(item[i], j, s) ^ TURNED;
    }
    out
}

// Each byte of `acc` with digit `s` of the byte of `lane` beside it, moved to digit `j`.
pub fn gather_lane(acc: &[u8; 32], lane: &[u8; 32], s: u8, j: u8) -> [u8; 32]
    requires { (s < 8) × (j < 8) }
    ensures { result ≡ listed (λ i. bit_or (get_or acc.now i 0) (digit (get_or lane.now i 0) s * 2 ^ j % 256)) 32 }
{
    let mut out = [0; 32];
    for i in 0..32 {
        out[i] = acc[i] | moved_digit(lane[i], s, j);
    }
    out
}

// The same where digit `j` stays digit `j`. Apart, because the compiler joins each of the two to its caller: by `gather_lane` alone eight words out take 3,832 instructions, not 1,723, and a load 1,270, not 1,112.
pub fn keep_lane(acc: &[u8; 32], lane: &[u8; 32], j: u8) -> [u8; 32]
    requires { j < 8 }
    ensures { result ≡ listed (λ i. bit_or (get_or acc.now i 0) (digit (get_or lane.now i 0) j * 2 ^ j % 256)) 32 }
{
    let mut out = [0; 32];
    for i in 0..32 {
        out[i] = acc[i] | moved_digit(lane[i], j, j);
    }
    out
}
