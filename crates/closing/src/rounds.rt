// The instructions of closing and spreading, for fields that no number refuses.
ghost use Rattle.std.specs.Prelude.{◌≡◌, ◌+◌, ◌*◌, ◌<◌, ◌≤◌, length};
ghost use Rattle.bits.specs.Steps.{put_at};
ghost use Rattle.builders.specs.Lists.{encoded, rounds};
ghost use Rattle.closing.specs.Closing.{take_further, store_masked, shift_masked};
ghost use Rattle.closing.specs.Closing.{copy_slice, close_round, clear_slice, closing_list, closing_length};
ghost use Rattle.closing.specs.Closing.{spread_bit, spreading_list, spreading_length};

use crate::fields::Fields;
use builders::instructions::{
    CLEAR_X, TAKE_MARKED, TAKE_Y, UNSAID, logic_at, logic_from, store_at,
};
use builders::writing;
use judge::Instruction;
use judge::kinds::{LOGIC, MASKED_STORE, OUTSIDE, SET_M, TAG_GIVEN, X};

// Byte 7, 16 times the choice plus the function: X takes the source.
const TAKE_X: u8 = 10;

// Byte 6 of a shift of 1 modulo 256; that of 2^t has t more.
const SHIFT: u8 = 16 * 8;

// The flip that mirrors the words.
const MIRROR: u8 = 255;

// ---- single instructions

// M takes the next item.
const TAKE_MASK: Instruction = Instruction {
    kind: SET_M,
    source: OUTSIDE,
    ..UNSAID
};

// X takes bit `g` of the words 2^`t` further, mirrored.
fn take_further(t: u8, g: u8) -> Instruction
    requires { t < 8 }
    ensures { result ≡ take_further t g }
{
    Instruction {
        kind: LOGIC,
        tag: TAG_GIVEN,
        addr: g,
        flip: MIRROR,
        code: SHIFT + t,
        logic: TAKE_X,
        ..UNSAID
    }
}

// X, flipped by `f`, to bit `g` of the words where M is 1.
fn store_masked(f: u8, g: u8) -> Instruction
    ensures { result ≡ store_masked f g }
{
    Instruction {
        kind: MASKED_STORE,
        source: X,
        tag: TAG_GIVEN,
        addr: g,
        flip: f,
        ..UNSAID
    }
}

// Where Y is 1, X takes X of the words 2^`t` before.
fn shift_masked(t: u8) -> Instruction
    requires { t < 8 }
    ensures { result ≡ shift_masked t }
{
    Instruction {
        kind: LOGIC,
        source: X,
        code: SHIFT + t,
        logic: TAKE_MARKED,
        ..UNSAID
    }
}

// ---- closing

// A to S, from the list's first instruction on.
// Loops, and `at` for an instruction's number, in all of this file: builders::writing says why.
fn put_copies(list: &mut [u8], f: Fields)
    requires { closing_length f.n ≤ length list.old }
    ensures { list.new ≡ put_at 0 (encoded (rounds (copy_slice f.a f.s) f.n)) list.old }
{
    for k in 0..f.n {
        let copy = [
            logic_at((f.a + k) as u8, TAKE_X),
            store_at(X, (f.s + k) as u8),
        ];
        writing::put_all(list, 2 * k as usize, &copy);
    }
}

// The round of weight 2^`t`, its mask and each bit of S, from instruction number `at` on.
fn put_close_round(list: &mut [u8], at: usize, t: u8, f: Fields)
    requires { (8 * (at + (1 + 2 * f.n)) ≤ length list.old) × (t < 8) }
    ensures { list.new ≡ put_at (8 * at) (encoded (close_round f.s f.n t)) list.old }
{
    writing::put(list, at, TAKE_MASK);
    for k in 0..f.n {
        let g = (f.s + k) as u8;
        let slice = [take_further(t, g), store_masked(MIRROR, g)];
        writing::put_all(list, at + 1 + 2 * k as usize, &slice);
    }
}

// The eight rounds, lowest weight first, from instruction number `at` on.
fn put_close_rounds(list: &mut [u8], at: usize, f: Fields)
    requires { 8 * (at + 8 * (1 + 2 * f.n)) ≤ length list.old }
    ensures { list.new ≡ put_at (8 * at) (encoded (rounds (close_round f.s f.n) 8)) list.old }
{
    for t in 0..8u8 {
        put_close_round(list, at + t as usize * (1 + 2 * f.n as usize), t, f);
    }
}

// Zero into the words to clear, from instruction number `at` on.
fn put_clears(list: &mut [u8], at: usize, f: Fields)
    requires { 8 * (at + f.n) ≤ length list.old }
    ensures { list.new ≡ put_at (8 * at) (encoded (rounds (clear_slice f.s) f.n)) list.old }
{
    for k in 0..f.n {
        writing::put(list, at + k as usize, store_masked(0, (f.s + k) as u8));
    }
}

// The whole list of a closing.
#[inline(never)]
pub fn put_closing(list: &mut [u8], f: Fields)
    requires { closing_length f.n ≤ length list.old }
    ensures { list.new ≡ put_at 0 (encoded (closing_list f.a f.s f.n)) list.old }
{
    let w = f.n as usize;
    put_copies(list, f);
    put_close_rounds(list, 2 * w, f);
    writing::put_all(list, 8 + 18 * w, &[TAKE_MASK, logic_from(X, CLEAR_X)]);
    put_clears(list, 10 + 18 * w, f);
}

// ---- spreading

// The eighteen instructions of one bit, from bit `h` of S to bit `g` of A: between the first and the last the eight rounds, highest weight first.
fn put_spread_bit(list: &mut [u8], at: usize, g: u8, h: u8)
    requires { 8 * at + 144 ≤ length list.old }
    ensures { list.new ≡ put_at (8 * at) (encoded (spread_bit g h)) list.old }
{
    writing::put(list, at, logic_at(h, TAKE_X));
    for k in 0..8u8 {
        let round = [logic_from(OUTSIDE, TAKE_Y), shift_masked(7 - k)];
        writing::put_all(list, at + 1 + 2 * k as usize, &round);
    }
    writing::put(list, at + 17, store_masked(0, g));
}

// The whole list of a spreading: the marks, and each bit behind them.
pub fn put_spreading(list: &mut [u8], f: Fields)
    requires { spreading_length f.n ≤ length list.old }
    ensures { list.new ≡ put_at 0 (encoded (spreading_list f.a f.s f.n)) list.old }
{
    writing::put(list, 0, TAKE_MASK);
    for k in 0..f.n {
        put_spread_bit(list, 1 + 18 * k as usize, (f.a + k) as u8, (f.s + k) as u8);
    }
}
