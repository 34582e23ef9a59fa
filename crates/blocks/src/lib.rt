// One block of 512 bytes on disk: its two sums, the judging of a block that is read, the making of one that is written.
// Document 01, Blocks on disk.
//
// These are inner functions: the length of a block and its place are the caller's to judge.
#![tactic(auto)]

ghost use Rattle.std.specs.Prelude.{◌≡◌, ◌+◌, ◌<◌, ◌≤◌, length, take, drop};
ghost use Rattle.bits.specs.Bits.{two};
ghost use Rattle.bits.specs.Refusals.{number_given};
ghost use Rattle.blocks.specs.Sums.{s1, s2};
ghost use Rattle.blocks.specs.Block.{block_bytes, payload_bytes, two_at, header, block, sums_right, used_right, all_zero, zeros_right, fault};

use bits::refusals::Refusal;

// The bytes of a block, those of its head and of its payload, and those of both, which are summed.
pub const BLOCK_BYTES: usize = 512;

pub const HEAD_BYTES: usize = 12;

pub const PAYLOAD_BYTES: usize = 496;

pub const SUMMED_BYTES: usize = 508;

#[derive(Clone, Copy, PartialEq, Eq)]
struct TwoSums {
    s1: usize,
    s2: usize,
}

// The number in two bytes, low first.
pub fn two_at(s: &[u8], at: usize) -> usize
    requires { at + 1 < length s.now }
    ensures { (result ≡ two_at s.now at) × (result < 65536) }
{
    usize::from(u16::from_le_bytes([s[at], s[at + 1]]))
}

// A number as two bytes, low first.
// A function of its own: its clause joins the cast and to_le_bytes to the definition `two` once, for six uses.
fn two(x: usize) -> [u8; 2]
    requires { x < 65536 }
    ensures { result ≡ two x }
{
    (x as u16).to_le_bytes()
}

// The sums of a block's first 508 bytes. A byte is added to the second sum once for each later turn and its own, which weighs
// it with 508 - i; neither sum is near 2^64, so each has one remainder, at the end.
// A slice of 512, here and below: `seal` is lent the part of a file that the block stands in, and an array would be taken of it by an `as_array` at each door.
fn sums(block: &[u8]) -> TwoSums
    requires { length block.now ≡ block_bytes }
    ensures { (result.s1 ≡ s1 block.now) × (result.s2 ≡ s2 block.now) }
{
    let mut a: usize = 0;
    let mut b: usize = 0;
    for x in &block[..SUMMED_BYTES] {
        a += usize::from(*x);
        b += a;
    }
    TwoSums {
        s1: a % 65535,
        s2: b % 65535,
    }
}

fn sums_right(block: &[u8]) -> bool
    requires { length block.now ≡ block_bytes }
    ensures { result ≡ sums_right block.now }
{
    let stored = TwoSums {
        s1: two_at(block, SUMMED_BYTES),
        s2: two_at(block, SUMMED_BYTES + 2),
    };
    stored == sums(block)
}

fn used_right(place: usize, count: usize, used: usize) -> bool
    requires { place < count }
    ensures { result ≡ used_right place count used }
{
    if place + 1 < count {
        used == PAYLOAD_BYTES
    } else {
        used <= PAYLOAD_BYTES && (count == 1 || 0 < used)
    }
}

fn all_zero(s: &[u8]) -> bool
    ensures { result ≡ all_zero s.now }
{
    s.iter().all(|x| *x == 0)
}

fn zeros_right(block: &[u8], used: usize) -> bool
    requires { (length block.now ≡ block_bytes) × (used ≡ two_at block.now 6) × (used ≤ payload_bytes) }
    ensures { result ≡ zeros_right block.now }
{
    all_zero(&block[8..HEAD_BYTES]) && all_zero(&block[HEAD_BYTES + used..SUMMED_BYTES])
}

// Judges a block that stands at `place` among `count`, where `kind` is asked: refused with 21 to 24, unless it is good at its
// place.
pub fn fault(block: &[u8], kind: usize, place: usize, count: usize) -> Result<(), Refusal>
    requires { (length block.now ≡ block_bytes) × (place < count) }
    ensures { number_given result ≡ fault block.now kind place count }
{
    if !sums_right(block) {
        return Err(Refusal::BlockSums);
    }
    if two_at(block, 0) != kind {
        return Err(Refusal::BlockKind);
    }
    if two_at(block, 2) != place || two_at(block, 4) != count {
        return Err(Refusal::BlockNumber);
    }
    let used = two_at(block, 6);
    if !used_right(place, count, used) || !zeros_right(block, used) {
        return Err(Refusal::BlockForm);
    }
    Ok(())
}

// What stands before the payload: kind, place, number of blocks and bytes used, and four zeros.
// Numbers below 65,536 and no u16, here and in `seal`, which docs/CONTRACTS.md names: its callers hold counts and places, and any kind may be asked.
fn head(kind: usize, place: usize, count: usize, used: usize) -> [u8; 12]
    requires { (kind < 65536) × (place < 65536) × (count < 65536) × (used < 65536) }
    ensures { result ≡ header kind place count used }
{
    let [kind_low, kind_high] = two(kind);
    let [place_low, place_high] = two(place);
    let [count_low, count_high] = two(count);
    let [used_low, used_high] = two(used);
    [
        kind_low, kind_high, place_low, place_high, count_low, count_high, used_low, used_high, 0,
        0, 0, 0,
    ]
}

// Makes a block of a payload that already stands in it, `used` bytes from byte 12 on: header, zeros and sums.
pub fn seal(kind: usize, place: usize, count: usize, used: usize, out: &mut [u8])
    requires { (kind < 65536) × (place < 65536) × (count < 65536) × (used ≤ payload_bytes)
        × (length out.old ≡ block_bytes) }
    ensures { out.new ≡ block kind place count (take used (drop 12 out.old)) }
{
    out[..HEAD_BYTES].copy_from_slice(&head(kind, place, count, used));
    out[HEAD_BYTES + used..SUMMED_BYTES].fill(0);
    let s = sums(out);
    let [s1_low, s1_high] = two(s.s1);
    let [s2_low, s2_high] = two(s.s2);
    out[SUMMED_BYTES..BLOCK_BYTES].copy_from_slice(&[s1_low, s1_high, s2_low, s2_high]);
}
