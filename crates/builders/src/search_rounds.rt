// The items of a number, and the instructions of the three searches, for fields that no number refuses.
ghost use Rattle.std.specs.Prelude.{◌≡◌, ◌+◌, ◌*◌, ◌^◌, ◌<◌, ◌≤◌, length};
ghost use Rattle.bits.specs.Bits.{digit, item};
ghost use Rattle.bits.specs.Steps.{put_at};
ghost use Rattle.builders.specs.Lists.{encoded};
ghost use Rattle.builders.specs.Field.{Field};
ghost use Rattle.builders.specs.Searches.{is_less, started, decided, search_round, search_list, search_length, number_items, items_length};
ghost use Rattle.builders.specs.Searches.{or_flip, greatest_round, greatest_rounds, greatest_list, greatest_length};

use crate::instructions::{CLEAR_X, TAKE_MARKED, TAKE_Y, UNSAID, logic_at, logic_from};
use crate::writing;
use judge::Instruction;
use judge::kinds::{LOGIC, OUTSIDE, X};

// Byte 7, 16 times the choice plus the function: X everywhere to 1; Y is 1 where it differs from the source; where Y is 1, X to 0, or to what the source is not.
const SET_X: u8 = 15;

const DIFFERS: u8 = 16 + 6;

const UNEQUAL: u8 = 16 * 3;

const BELOW: u8 = 16 * 3 + 5;

// And of greatest: X or the source; X without the source; both registers without it.
const OR: u8 = 14;

const WITHOUT: u8 = 4;

const UNMARK: u8 = 16 * 2 + 4;

// ---- the items

// The item that has bit `k` of the number on every line.
fn bit_item(number: u64, k: u32) -> [u8; 32]
    requires { k < 64 }
    ensures { result ≡ item (λ p. digit number k) }
{
    if (number >> k) % 2 == 0 {
        [0u8; 32]
    } else {
        [255u8; 32]
    }
}

// The items of a number: bit k of it on every line of item k.
pub fn put_number(items: &mut [u8], number: u64, n: u32)
    requires { (n ≤ 64) × (items_length n ≤ length items.old) }
    ensures { items.new ≡ put_at 0 (number_items number n) items.old }
{
    for k in 0..n {
        writing::put_item(items, k as usize, &bit_item(number, k));
    }
}

// ---- equal and less

// A search that compares with a number.
#[derive(Clone, Copy, Debug, PartialEq, Eq)]
pub enum Search {
    Equal,
    Less,
}

impl Search {
    // How X starts.
    fn started(self) -> Instruction
        ensures { result ≡ started (is_less self) }
    {
        match self {
            Search::Equal => logic_from(X, SET_X),
            Search::Less => logic_from(X, CLEAR_X),
        }
    }

    // What X becomes where bit `g` differs.
    fn decided(self, g: u8) -> Instruction
        ensures { result ≡ decided (is_less self) g }
    {
        match self {
            Search::Equal => logic_from(X, UNEQUAL),
            Search::Less => logic_at(g, BELOW),
        }
    }

    // The three instructions of one bit.
    fn round(self, g: u8) -> [Instruction; 3]
        ensures { result ≡ search_round (is_less self) g }
    {
        [
            logic_from(OUTSIDE, TAKE_Y),
            logic_at(g, DIFFERS),
            self.decided(g),
        ]
    }

    // The whole list: those of all bits, lowest first, between its first instruction and its last.
    pub fn put_list(self, list: &mut [u8], a: u32, n: u32)
        requires { Field a n × (search_length n ≤ length list.old) }
        ensures { list.new ≡ put_at 0 (encoded (search_list (is_less self) a n)) list.old }
    {
        writing::put(list, 0, self.started());
        for k in 0..n {
            writing::put_all(list, 1 + 3 * k as usize, &self.round((a + k) as u8));
        }
        writing::put(list, 1 + 3 * n as usize, logic_from(X, TAKE_Y));
    }
}

// ---- greatest

// X or X flipped by 2^`e`.
fn or_flip(e: u32) -> Instruction
    requires { e < 8 }
    ensures { result ≡ or_flip e }
{
    Instruction {
        kind: LOGIC,
        source: X,
        flip: 1 << e,
        logic: OR,
        ..UNSAID
    }
}

// The eleven instructions of one bit, from instruction number `at` on: eight of them bring X to every line.
fn put_greatest_round(list: &mut [u8], at: usize, g: u8)
    requires { 8 * at + 88 ≤ length list.old }
    ensures { list.new ≡ put_at (8 * at) (encoded (greatest_round g)) list.old }
{
    writing::put(list, at, logic_at(g, TAKE_MARKED));
    for e in 0..8 {
        writing::put(list, at + 1 + e as usize, or_flip(e));
    }
    writing::put_all(list, at + 9, &[logic_at(g, WITHOUT), logic_from(X, UNMARK)]);
}

// The whole list of greatest: the rounds of all bits, highest first, behind its first instruction.
pub fn put_greatest(list: &mut [u8], a: u32, n: u32)
    requires { Field a n × (greatest_length n ≤ length list.old) }
    ensures { list.new ≡ put_at 0 (encoded (greatest_list a n)) list.old }
{
    writing::put(list, 0, logic_from(X, CLEAR_X));
    for round in 0..n {
        let g = a + (n - (round + 1));
        put_greatest_round(list, 1 + 11 * round as usize, g as u8);
    }
}
