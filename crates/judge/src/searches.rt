// The searches through a list: for the first instruction that has a number, and for the first that lacks its item or its room.
ghost use Rattle.std.specs.Prelude.{◌≡◌, Bool, ◌+◌, ◌*◌, ◌/◌, ◌≤◌, length};
ghost use Rattle.bits.specs.Search.{first};
ghost use Rattle.judge.specs.declared.Instruction.{Instruction};
ghost use Rattle.judge.specs.Kinds.{most_bytes};
ghost use Rattle.judge.specs.Answers.{fault_given};
ghost use Rattle.judge.specs.Instructions.{instruction_at};
ghost use Rattle.judge.specs.Judge.{lacks, uses, fault_of};
ghost use Rattle.judge.specs.Steps.{tally_of};

use crate::modes::modes_by;
use crate::{Fault, Instruction, Tally, decode, forms, rows};
use registers::Modes;

// What is wrong with instruction `k`, if anything. Only the one that refuses a list is asked this: the quick test passes the others.
pub(crate) fn fault_at(m: Modes, list: &[u8], k: usize) -> Result<(), Fault>
    requires { 8 * k + 8 ≤ length list.now }
    ensures { fault_given result ≡ fault_of m (instruction_at list.now k) }
{
    rows::fault(m, decode(list, k))
}

// The first instruction that has a number, or how many there are, what those before it take and give, and what they make of the mode registers, which are carried along as a run would.
pub fn tally(m: Modes, list: &[u8]) -> Tally
    ensures { result ≡ tally_of m list.now }
{
    let n = list.len() / 8;
    let mut modes = m;
    let mut taken: usize = 0;
    let mut given: usize = 0;
    for k in 0..n {
        if !forms::stands(modes, list, k) {
            return Tally {
                place: k,
                taken,
                given,
                modes,
            };
        }
        let i = decode(list, k);
        modes = modes_by(i, modes);
        taken += usize::from(rows::takes(i));
        given += usize::from(rows::gives(i));
    }
    Tally {
        place: n,
        taken,
        given,
        modes,
    }
}

// The first instruction that wants its room, or its item, and lacks it in a buffer of `have` bytes, or how many there are.
// How many there are for none, as `first` of specs/Search says it: it is called only where there is one.
fn shortage_of<F: Fn(Instruction) -> bool>(wants: F, list: &[u8], have: usize) -> usize
    requires callable { F.IsAlwaysCallable wants }
    requires size { length list.now ≤ most_bytes }
    ensures { (uses : Instruction → Bool) → ((i : Instruction) (w : Bool) → F.post wants i w → w ≡ uses i) →
        result ≡ first (lacks uses list.now have) 0 (length list.now / 8) }
{
    let n = list.len() / 8;
    let mut used: usize = 0;
    for k in 0..n {
        let u = wants(decode(list, k));
        if u & (have < 32 * used + 32) {
            return k;
        }
        used += usize::from(u);
    }
    n
}

// The first instruction that lacks its room, or its item, in a buffer of `have` bytes, or how many there are.
// `room`, and no test of the caller's: so it asks for nothing but the length, and says what it finds without a condition.
pub fn shortage(room: bool, list: &[u8], have: usize) -> usize
    requires { length list.now ≤ most_bytes }
    ensures { result ≡ first (lacks (uses room) list.now have) 0 (length list.now / 8) }
{
    if room {
        shortage_of(|i| rows::gives(i), list, have)
    } else {
        shortage_of(|i| rows::takes(i), list, have)
    }
}
