// Flips of an item's quarters. Document 01, Network: "Flip F moves line I to I xor F." Each digit of F below 64 exchanges neighbouring groups of lines within every quarter, and the two above order the quarters.
ghost use Rattle.std.specs.Prelude.{◌≡◌, ◌*◌, ◌<◌};
ghost use Rattle.bits.specs.Quarters.{exchanged, Flips, flipped_quarters};

// The digits of `x` at the places of `m` and those `k` above them change places.
// A shift's amount below 64 is a number: it comes out of a literal.
fn exchange(x: u64, m: u64, k: u64) -> u64
    requires { k < 64 }
    ensures { result ≡ exchanged m k x }
{
    ((x & m) << k) | ((x >> k) & m)
}

// The quarters flipped by `k` where `on` is 1, else as they are. `m` has the places that the flip moves up.
// `on` is a digit of the flip and no bool: the clause multiplies by it.
fn exchange_if(on: u8, q: [u64; 4], m: u64, k: u64) -> [u64; 4]
    requires { (on < 2) × (k < 64) × Flips m k }
    ensures { result ≡ flipped_quarters q (on * k) }
{
    if on == 0 {
        return q;
    }
    [
        exchange(q[0], m, k),
        exchange(q[1], m, k),
        exchange(q[2], m, k),
        exchange(q[3], m, k),
    ]
}

// The quarters in another order: quarter i is quarter i xor `g`.
// A loop, and no `array::from_fn`: tried three times, here and in quarters; its clause says nothing of what the closure holds, so `returns` stays open.
fn order(q: [u64; 4], g: usize) -> [u64; 4]
    requires { g < 4 }
    ensures { result ≡ flipped_quarters q (64 * g) }
{
    let mut out = [0; 4];
    for i in 0..4 {
        out[i] = q[g ^ i];
    }
    out
}

// The quarters flipped by `f`.
pub fn flip_quarters(q: [u64; 4], f: u8) -> [u64; 4]
    ensures { result ≡ flipped_quarters q f }
{
    let ones = exchange_if(f % 2, q, 0x5555555555555555, 1);
    let twos = exchange_if(f / 2 % 2, ones, 0x3333333333333333, 2);
    let fours = exchange_if(f / 4 % 2, twos, 0x0F0F0F0F0F0F0F0F, 4);
    let eights = exchange_if(f / 8 % 2, fours, 0x00FF00FF00FF00FF, 8);
    let sixteens = exchange_if(f / 16 % 2, eights, 0x0000FFFF0000FFFF, 16);
    let halves = exchange_if(f / 32 % 2, sixteens, 0x00000000FFFFFFFF, 32);
    order(halves, (f / 64) as usize)
}
