// Eight neighbouring words in plain order and in the chips. Bit B of word W is location B of chip B xor W: mode 255 reads the
// same byte of each chip for the words 8v to 8v+7, and those 256 bytes hold the eight words turned.
ghost use Rattle.std.specs.Prelude.{◌≡◌, ◌+◌, ◌*◌, ◌/◌, ◌%◌, ◌<◌, length, get_or, set};
ghost use Rattle.std.specs.Int.Bits.{bit_xor};
ghost use Rattle.bits.specs.Steps.{written};
ghost use Rattle.bits.specs.Bits.{listed, digits_of};
ghost use Rattle.memory.specs.Groups.{line_digit};
ghost use Rattle.words.specs.Turned.{turned};

use bits::lanes::keep_lane;

// A word gathered from the bytes read of the chips: under mode 255 line 8i + j's bit is digit j of its byte already, and no digit
// moves.
fn gather_word(bytes: &[u8; 256], addr: u8, out: &mut [u8])
    requires { length out.old ≡ 32 }
    ensures { out.new ≡ listed (λ i. digits_of (line_digit bytes.now 255 addr i) 8) 32 }
{
    let mut word = [0u8; 32];
    for j in 0..8 {
        let from = 32 * usize::from(memory::places::partner(addr, j));
        let lane = bytes[from..from + 32].as_array().unwrap();
        word = keep_lane(&word, lane, j);
    }
    out.copy_from_slice(&word);
}

// Eight rows turned: from the bytes read of the chips to the words, or back, for it is its own inverse.
// Word and rows go to the caller's array: one that a function gives is moved once more, which takes 256 bytes more of the stack that the header gives those who read and write pictures (include/staran.h).
#[inline(always)]
pub fn turned(bytes: &[u8; 256], out: &mut [u8; 256])
    ensures { out.new ≡ turned bytes.now }
{
    for a in 0..8 {
        gather_word(bytes, a as u8, &mut out[32 * a..32 * a + 32]);
    }
}

// The chip writer: byte `at` of the chip's 32 bytes.
fn put_chip(chip: &mut [u8], at: usize, byte: u8)
    requires { at < length chip.old }
    ensures { chip.new ≡ set chip.old at byte }
{
    chip[at] = byte;
}

// Byte i of the eight chips of group k: chip t takes what stands at 32t + i.
fn put_group(mem: &mut [u8; 8192], k: usize, i: usize, bytes: &[u8; 256])
    requires { (k < 32) × (i < 32) }
    ensures { mem.new
        ≡ written (λ t. 32 * (8 * k + t) + i) (λ t o. get_or bytes.now (32 * t + i) 0) mem.old 8 }
{
    for t in 0..8 {
        let c = 8 * k + t;
        put_chip(&mut mem[32 * c..32 * c + 32], i, bytes[32 * t + i]);
    }
}

// The same of the group that mode 255 reads at byte i for the words 8v to 8v+7.
fn put_byte(mem: &mut [u8; 8192], v: usize, i: usize, bytes: &[u8; 256])
    requires { (v < 32) × (i < 32) }
    ensures { mem.new ≡ written (λ t. 32 * (8 * bit_xor v i + t) + i) (λ t o. get_or bytes.now (32 * t + i) 0) mem.old 8 }
{
    put_group(mem, v ^ i, i, bytes);
}

// One byte of all 256 chips: the byte at which mode 255 reads them for the words 8v to 8v+7. Two groups a turn, which spares half of the counting.
// Not memory::writing::write_all with nothing kept: there the place of the byte is reckoned once more in each turn (docs/DESIGN-PASS.md has the counts).
pub fn put_all(mem: &mut [u8; 8192], v: usize, bytes: &[u8; 256])
    requires { v < 32 }
    ensures { mem.new ≡ written (λ n. 32 * (8 * bit_xor v (n / 8) + n % 8) + n / 8)
        (λ n o. get_or bytes.now (32 * (n % 8) + n / 8) 0) mem.old 256 }
{
    for turn in 0..16 {
        let i = 2 * turn;
        put_byte(mem, v, i, bytes);
        put_byte(mem, v, i + 1, bytes);
    }
}
