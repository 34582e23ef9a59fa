// The resolver: is there a responder, which is the smallest, and how many are there. Document 02, Four.
ghost use Rattle.std.specs.Prelude.{◌≡◌, ◌≤◌, cond, ltb};
ghost use Rattle.std.specs.Int.Count.{count_trailing_zeros, ones};
ghost use Rattle.bits.specs.Bits.{bit_of};
ghost use Rattle.registers.specs.Resolver.{smallest, responder_count, activity, resolved};

// What a resolve gives for the smallest responder where there is none: no line has this number.
// A number, because document 02, Four, and `resolved` fix it; before that it is an Option.
const NONE: usize = 256;

// How many digits of a byte stand below its lowest 1: 8 for 0.
// `as`, here and below: what counts digits is a u32, which has no From to usize.
fn below_lowest(x: u8) -> usize
    ensures { (result ≡ count_trailing_zeros 8 x) × (result ≤ 8) }
{
    u8::trailing_zeros(x) as usize
}

// How many digits of a byte are 1.
fn ones_of(x: u8) -> usize
    ensures { (result ≡ ones x) × (result ≤ 8) }
{
    u8::count_ones(x) as usize
}

// The smallest line that is 1, if one is: in the first byte that is not 0.
fn smallest_responder(y: &[u8; 32]) -> Option<usize>
    ensures { let s = smallest (bit_of y.now) in result ≡ cond (ltb s 256) (Some s) None }
{
    for (i, x) in y.iter().enumerate() {
        if *x != 0 {
            return Some(8 * i + below_lowest(*x));
        }
    }
    None
}

// How many lines are 1: the ones of each byte, added up.
// A loop: `sum` was tried three ways (of usize, of u32, against `sum_by`), and its `fits` stays open, for nothing joins the bound of the terms with how many there are.
pub fn count_responders(y: &[u8; 32]) -> usize
    ensures { (result ≡ responder_count (bit_of y.now)) × (result ≤ 256) }
{
    let mut n: usize = 0;
    for x in y {
        n += ones_of(*x);
    }
    n
}

// What a resolve delivers.
pub fn resolve(y: &[u8; 32]) -> [u8; 32]
    ensures { result ≡ resolved (bit_of y.now) }
{
    let smallest = smallest_responder(y);
    let count = count_responders(y);
    let mut out = [0u8; 32];
    out[0] = u8::from(smallest.is_some());
    out[1..3].copy_from_slice(&(smallest.unwrap_or(NONE) as u16).to_le_bytes());
    out[3..5].copy_from_slice(&(count as u16).to_le_bytes());
    out
}
