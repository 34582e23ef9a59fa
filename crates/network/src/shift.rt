// The shift of an item, quarter by quarter: each is joined from the quarter at its own place, its digits moved up, and from the quarter that wraps round to its
// place, its digits moved down. One rule serves all shifts: within quarters, over quarters, and of whole quarters.
ghost use Rattle.std.specs.Prelude.{◌≡◌, ◌-◌, ◌/◌, ◌%◌, ◌^◌, ◌<◌, ◌≤◌, true};
ghost use Rattle.bits.specs.Quarters.{quarters, line_at};
ghost use Rattle.network.specs.Pass.{unshifted};
ghost use Rattle.network.specs.Shifts.{permitted};
ghost use Rattle.network.specs.Turn.{reach, mask};

use bits::mix;

// A shift of 2^`m` modulo 2^`p`.
#[derive(Clone, Copy)]
pub struct Shift {
    p: u8,
    m: u8,
    ghost ordered: { m ≤ p },
    ghost within: { p ≤ 8 },
}

// 2^`e` places, of the 64 of a quarter.
// Not one with `span`: this is at most 64, a u8, and that at least 1, a usize.
fn places(e: u8) -> u8
    ensures { result ≡ reach e }
{
    if e < 6 { 1u8 << e } else { 64 }
}

// A quarter whose `n` low digits are 1.
fn ones(n: u8) -> u64
    requires { (0 < n) × (n ≤ 64) }
    ensures { result ≡ 2 ^ n - 1 }
{
    u64::MAX >> (64 - n)
}

// How many quarters 2^`e` lines take: at least one.
fn span(e: u8) -> usize
    requires { e ≤ 8 }
    ensures { result ≡ 2 ^ (e - 6) }
{
    if e < 6 { 1 } else { 1usize << (e - 6) }
}

impl Shift {
    // The shift that a permitted code gives.
    pub fn of(code: u8) -> Self
        requires { permitted code ≡ true }
        ensures { (result.p ≡ code / 16) × (result.m ≡ code % 16) }
    {
        Shift {
            p: code / 16,
            m: code % 16,
        }
    }

    // The digits of a quarter that get what wraps round: as many ones as `m` has places, in each group of those of `p`.
    fn mask(self) -> u64
        ensures { result ≡ mask self.p self.m }
    {
        u64::MAX / ones(places(self.p)) * ones(places(self.m))
    }

    // The quarter that wraps round to quarter `i`: the one `ahead` places on where `i` is among the first of its block, else the one `back` places back.
    fn wrapped(self, i: usize) -> usize
        requires { i < 4 }
        ensures { (result ≡ unshifted (self.p - 6) (self.m - 6) i) × (result < 4) }
    {
        let back = span(self.m);
        let ahead = span(self.p) - back;
        if i & ahead == 0 { i + ahead } else { i - back }
    }

    // The quarters `q` shifted.
    // A loop, for the reason that stands at bits::flips::order.
    pub fn shifted(self, q: [u64; 4]) -> [u64; 4]
        ensures { result ≡ quarters (λ k. line_at q (unshifted self.p self.m k)) }
    {
        let up = places(self.m);
        let down = places(self.p) - up;
        let which = self.mask();
        let mut out = [0u64; 4];
        for i in 0..4 {
            let k = self.wrapped(i);
            out[i] = mix(q[i] << (up % 64), q[k] >> down, which);
        }
        out
    }
}
