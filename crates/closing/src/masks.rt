// The items of closing and spreading, from the marks: for each round the mask of the words at which values arrive.
ghost use Rattle.std.specs.Prelude.{◌≡◌, cond, ◌+◌, ◌-◌, ◌*◌, ◌/◌, ◌%◌, ◌^◌, ◌<◌, ◌≤◌, eqb, ltb, length, get_or, take, drop, set};
ghost use Rattle.bits.specs.Bits.{digit, item};
ghost use Rattle.bits.specs.Steps.{put_at};
ghost use Rattle.closing.specs.Closing.{marked, arrivals, closing_item, closing_items, closing_items_length, spreading_item, spreading_items, spreading_items_length};
ghost use Rattle.builders.specs.Lists.{items_of};

use crate::fields::Fields;
use builders::writing;
use registers::resolver::count_responders;

// Is word `w` marked?
fn is_marked(marks: &[u8; 32], w: usize) -> bool
    requires { w < 256 }
    ensures { result ≡ marked marks.now w }
{
    (marks[w / 8] >> (w % 8)) % 2 == 1
}

// Does a value that is `d` from its place move in the round of weight 2^`t`?
fn has_weight(d: usize, t: usize) -> bool
    requires { t < 8 }
    ensures { result ≡ eqb (digit d t) 1 }
{
    (d >> t) % 2 == 1
}

// The rest of `d` modulo 2^`u`.
fn rest(d: usize, u: usize) -> usize
    requires { u ≤ 8 }
    ensures { (result ≡ d % 2 ^ u) × (result ≤ d) }
{
    d % (1usize << u)
}

// One more at line `p` of an item, where there is room for it.
fn add_line(out: &mut [u8; 32], p: usize)
    requires { (p < 256) × (get_or out.old (p / 8) 0 + 2 ^ (p % 8) < 256) }
    ensures { out.new ≡ set out.old (p / 8) (get_or out.old (p / 8) 0 + 2 ^ (p % 8)) }
{
    out[p / 8] += 1 << (p % 8);
}

// The mask of the round of weight 2^`t`: the words at which values arrive, `u` being `t` + 1 in a closing and `t` in a spreading. No two arrive at one, so adding sets a bit.
// A loop over words: what is written and where is by the marks before, which `rank` counts.
fn arrivals(marks: &[u8; 32], t: usize, u: usize) -> [u8; 32]
    requires { (t < 8) × (u ≤ 8) }
    ensures { result ≡ item (arrivals (marked marks.now) t u) }
{
    let mut out = [0u8; 32];
    let mut rank: usize = 0;
    for w in 0..256 {
        if is_marked(marks, w) {
            let d = w - rank;
            if has_weight(d, t) {
                add_line(&mut out, w - rest(d, u));
            }
            rank += 1;
        }
    }
    out
}

// ---- the items of a closing

// The mask of the words from number `count` on.
fn from_count(count: usize) -> [u8; 32]
    requires { count ≤ 256 }
    ensures { result ≡ item (λ p. cond (ltb p count) 0 1) }
{
    let mut out = [0u8; 32];
    for p in count..256 {
        add_line(&mut out, p);
    }
    out
}

// The masks of the eight rounds, lowest weight first.
fn put_closing_masks(items: &mut [u8], marks: &[u8; 32])
    requires { closing_items_length ≤ length items.old }
    ensures { items.new ≡ put_at 0 (items_of (closing_item (marked marks.now)) 8) items.old }
{
    for t in 0..8 {
        writing::put_item(items, t, &arrivals(marks, t, t + 1));
    }
}

// All nine items.
#[inline(never)]
pub fn put_closing_items(items: &mut [u8], marks: &[u8; 32])
    requires { closing_items_length ≤ length items.old }
    ensures { items.new ≡ put_at 0 (closing_items marks.now) items.old }
{
    put_closing_masks(items, marks);
    writing::put_item(items, 8, &from_count(count_responders(marks)));
}

// ---- the items of a spreading

// Item 0, and the masks of the first slice's eight rounds, highest weight first.
fn put_first_masks(items: &mut [u8], marks: &[u8; 32])
    requires { 32 * 9 ≤ length items.old }
    ensures { items.new ≡ put_at 0 (items_of (spreading_item marks.now) 9) items.old }
{
    writing::put_item(items, 0, marks);
    for k in 0..8 {
        writing::put_item(items, 1 + k, &arrivals(marks, 7 - k, 7 - k));
    }
}

// Item number `k` becomes the one eight before it, which is that of the same round of the slice before.
fn repeat_item(items: &mut [u8], k: usize)
    requires { (9 ≤ k) × (32 * k + 32 ≤ length items.old) }
    ensures { items.new ≡ put_at (32 * k) (take 32 (drop (32 * (k - 8)) items.old)) items.old }
{
    items.copy_within(32 * (k - 8)..32 * (k - 8) + 32, 32 * k);
}

// All items for the slices: each behind the first has its masks.
pub fn put_spreading_items(items: &mut [u8], marks: &[u8; 32], f: Fields)
    requires { spreading_items_length f.n ≤ length items.old }
    ensures { items.new ≡ put_at 0 (spreading_items marks.now f.n) items.old }
{
    put_first_masks(items, marks);
    for k in 9..1 + 8 * f.n as usize {
        repeat_item(items, k);
    }
}
