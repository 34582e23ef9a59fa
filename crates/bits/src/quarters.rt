// An item as its four quarters, 64 lines each. A flip or a shift of all 256 lines is then a few operations on four numbers, with no byte for a line and little stack.
ghost use Rattle.std.specs.Prelude.{◌≡◌, ◌*◌, ◌/◌, ◌%◌, ◌^◌, ◌<◌};
ghost use Rattle.bits.specs.Bits.{bit_of, item};
ghost use Rattle.bits.specs.Quarters.{quarter_of, quarters, line_at};

// Quarter `i` of an item: lines 64i to 64i + 63.
fn quarter_at(lines: &[u8; 32], i: usize) -> u64
    requires { i < 4 }
    ensures { result ≡ quarter_of (bit_of lines.now) i }
{
    let from = 8 * i;
    u64::from_le_bytes(*lines[from..from + 8].as_array().unwrap())
}

// The four quarters of an item.
pub fn quarters_of(lines: &[u8; 32]) -> [u64; 4]
    ensures { result ≡ quarters (bit_of lines.now) }
{
    [
        quarter_at(lines, 0),
        quarter_at(lines, 1),
        quarter_at(lines, 2),
        quarter_at(lines, 3),
    ]
}

// The item that four quarters are of.
// A loop, for the reason that stands at flips::order.
pub fn lines_of(q: [u64; 4]) -> [u8; 32]
    ensures { result ≡ item (line_at q) }
{
    let mut out = [0; 32];
    for i in 0..4 {
        out[8 * i..8 * i + 8].copy_from_slice(&q[i].to_le_bytes());
    }
    out
}
