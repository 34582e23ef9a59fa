// The wired form of a pass. A level swaps lines, or not, as signals say; an item goes through one level after the other.
ghost use Rattle.std.specs.Prelude.{◌≡◌, ◌%◌, ◌^◌, ◌<◌, ◌≤◌};
ghost use Rattle.bits.specs.Bits.{bit_of, byte_of};
ghost use Rattle.network.specs.Shifts.{signal, p_of, m_of};
ghost use Rattle.network.specs.Wired.{significant, level, levelled, wired_item};

use super::tables::Signals;

// The number of the signal that `line` obeys in level `j`: how many significant bits it has modulo 2^`j`.
fn group(line: u8, j: u8) -> u32
    requires { j < 8 }
    ensures { (result ≡ significant (line % 2 ^ j)) × (result ≤ j) }
{
    8 - u8::leading_zeros(line % (1u8 << j))
}

// Number `k` of an item.
// `as`, here and below: it widens a u8 in an index, where `usize::from` was tried and leaves `level_line` to be proved by hand for the same words.
#[tactic(auto, unfolding(bits::specs::Bits::bit_of))]
fn bit_at(lines: &[u8; 32], k: u8) -> u8
    ensures { result ≡ bit_of lines.now k }
{
    (lines[(k / 8) as usize] >> (k % 8)) % 2
}

impl Signals {
    // Signal `k` of level `j`.
    fn at(&self, j: usize, k: usize) -> u8
        requires { (j < 8) × (k ≤ j) }
        ensures { result ≡ signal (p_of self.now.shift) (m_of self.now.shift) j k }
    {
        self.all[j * (j + 1) / 2 + k]
    }

    // The line that `line` is swapped with in level `j`, or itself.
    fn level_line(&self, f: u8, j: u8, line: u8) -> u8
        requires { j < 8 }
        ensures { result ≡ level f (p_of self.now.shift) (m_of self.now.shift) j line }
    {
        let k = group(line, j);
        let g = self.at(j as usize, k as usize);
        if g ^ ((f >> j) % 2) == 0 {
            line
        } else {
            line ^ (1u8 << j)
        }
    }

    // Byte `i` of an item after level `j`.
    fn level_byte<'a>(&'a self, f: u8, j: u8, lines: &'a [u8; 32], i: u8) -> u8
        requires { (j < 8) × (i < 32) }
        ensures { result ≡ byte_of (λ k. bit_of lines.now (level f (p_of self.now.shift) (m_of self.now.shift) j k)) i }
    {
        let mut byte = 0;
        for d in 0..8 {
            byte |= bit_at(lines, self.level_line(f, j, 8 * i + d)) << d;
        }
        byte
    }

    // An item after level `j`, in its own place: a level of the recursion then keeps one item on the stack, as it was before.
    fn level_item(&self, f: u8, j: u8, lines: &mut [u8; 32])
        requires { j < 8 }
        ensures { lines.new ≡ levelled f (p_of self.now.shift) (m_of self.now.shift) j lines.old }
    {
        let before = *lines;
        for i in 0..32 {
            lines[i as usize] = self.level_byte(f, j, &before, i);
        }
    }
}

// An item after a network of `n` levels, in its own place: after one of `n` minus 1, and then one more. No method: tests/stack-bound knows it by its name,
// as the one function that calls itself.
pub fn wired_item(n: u8, signals: &Signals, f: u8, lines: &mut [u8; 32])
    requires { n ≤ 8 }
    ensures { lines.new ≡ wired_item n f (p_of signals.now.shift) (m_of signals.now.shift) lines.old }
{
    if n != 0 {
        wired_item(n - 1, signals, f, lines);
        signals.level_item(f, n - 1, lines);
    }
}
