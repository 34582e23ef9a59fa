// Has an instruction no number? Its bytes are read in the list, kind by kind, and the first that is wrong answers: every instruction of a
// list that stands is asked this, and `rows::fault` makes the number of the one that is refused.
ghost use Rattle.std.specs.Prelude.{◌≡◌, true, false, ◌+◌, ◌*◌, ◌<◌, ◌≤◌, eqb, length};
ghost use Rattle.registers.specs.declared.Modes.{Modes};
ghost use Rattle.judge.specs.Instructions.{instruction_at, stores};
ghost use Rattle.judge.specs.Judge.{fault_of};
ghost use Rattle.judge.specs.Steps.{idle, moded, fits, passes};

use crate::kinds::{
    DELIVER, LOGIC, MASKED_STORE, MEMORY, OUTSIDE, RESOLVE, SET_MODE, STORE, TAG_A, TAG_B,
    TAG_GIVEN,
};
use registers::Modes;

// Are tag, mode and address 0?
// By index, in all of this file: a test reads one to three of the eight bytes where they stand in the list, and no others (docs/DECISIONS.md, One walk, and a quick test).
fn idle(list: &[u8], k: usize) -> bool
    requires { 8 * k + 8 ≤ length list.now }
    ensures { result ≡ idle (instruction_at list.now k) }
{
    let at = 8 * k;
    (list[at + 2] == 0) & (list[at + 3] == 0) & (list[at + 4] == 0)
}

// Rows 7, 8, 9 and 14 where memory is touched: a mode given, or that of a register which is set.
fn mode_fits(m: Modes, list: &[u8], k: usize) -> bool
    requires { 8 * k + 8 ≤ length list.now }
    ensures { result ≡ moded m (instruction_at list.now k) }
{
    let at = 8 * k;
    let tag = list[at + 2];
    match tag {
        TAG_GIVEN => true,
        TAG_A => (list[at + 3] == 0) & (m.a.set == 1),
        TAG_B => (list[at + 3] == 0) & (m.b.set == 1),
        _ => false,
    }
}

// Rows 5 to 9 and 14 for kinds 0, 1 and 4: memory with a mode, or another source with none.
// What is asked of the kind, here and below: which test is called goes by the kind, so that each is called with its own.
fn source_fits(m: Modes, list: &[u8], k: usize) -> bool
    requires k_in_bounds { 8 * k + 8 ≤ length list.now }
    requires k_bound { (instruction_at list.now k).kind ≤ 4 }
    requires k_value { stores (instruction_at list.now k) ≡ false }
    ensures { result ≡ fits m (instruction_at list.now k) }
{
    let at = 8 * k;
    let source = list[at + 1];
    if source == MEMORY {
        return mode_fits(m, list, k);
    }
    !(source > OUTSIDE) & idle(list, k)
}

// Rows 5 to 9 and 14 for kinds 2 and 3: a source that is not memory, and a mode.
fn store_fits(m: Modes, list: &[u8], k: usize) -> bool
    requires k_in_bounds { 8 * k + 8 ≤ length list.now }
    requires k_value { stores (instruction_at list.now k) ≡ true }
    ensures { result ≡ fits m (instruction_at list.now k) }
{
    let source = list[8 * k + 1];
    (source != MEMORY) & !(source > OUTSIDE) & mode_fits(m, list, k)
}

// Rows 5 to 9 and 14 for kind 5: no source and no mode, whatever the mode registers are.
fn resolve_fits(list: &[u8], k: usize) -> bool
    requires k_in_bounds { 8 * k + 8 ≤ length list.now }
    requires k_value { (instruction_at list.now k).kind ≡ 5 }
    ensures { (m : Modes) → result ≡ fits m (instruction_at list.now k) }
{
    (list[8 * k + 1] == 0) & idle(list, k)
}

// The same for kind 6: no source, the tag of a register, and no address.
fn set_fits(list: &[u8], k: usize) -> bool
    requires k_in_bounds { 8 * k + 8 ≤ length list.now }
    requires k_value { (instruction_at list.now k).kind ≡ 6 }
    ensures { (m : Modes) → result ≡ fits m (instruction_at list.now k) }
{
    let at = 8 * k;
    let tag = list[at + 2];
    (list[at + 1] == 0) & ((tag == TAG_A) | (tag == TAG_B)) & (list[at + 4] == 0)
}

// Rows 18, 16 and 17 for kinds up to 4. Most instructions have no shift, which needs no search among the 37.
fn pass_fits(list: &[u8], k: usize) -> bool
    requires k_in_bounds { 8 * k + 8 ≤ length list.now }
    requires k_bound { (instruction_at list.now k).kind ≤ 4 }
    ensures { result ≡ passes (instruction_at list.now k) }
{
    let at = 8 * k;
    let kind = list[at];
    let code = list[at + 6];
    if code == 0 {
        return true;
    }
    if (kind == STORE) | (kind == MASKED_STORE) {
        return false;
    }
    network::codes::is_code(code)
}

// All rows for kinds over 4, which have no move and no function.
fn still_fits(m: Modes, list: &[u8], k: usize) -> bool
    requires k_in_bounds { 8 * k + 8 ≤ length list.now }
    requires bound { 4 < (instruction_at list.now k).kind }
    ensures { result ≡ eqb (fault_of m (instruction_at list.now k)).number 0 }
{
    let at = 8 * k;
    let still = (list[at + 5] == 0) & (list[at + 6] == 0) & (list[at + 7] == 0);
    let kind = list[at];
    match kind {
        RESOLVE => still & resolve_fits(list, k),
        SET_MODE => still & set_fits(list, k),
        _ => false,
    }
}

// All rows for kinds up to 4: the pass, byte 7, then the rest by kind.
fn moving_fits(m: Modes, list: &[u8], k: usize) -> bool
    requires k_in_bounds { 8 * k + 8 ≤ length list.now }
    requires k_bound { (instruction_at list.now k).kind ≤ 4 }
    ensures { result ≡ eqb (fault_of m (instruction_at list.now k)).number 0 }
{
    let at = 8 * k;
    let kind = list[at];
    if !pass_fits(list, k) {
        return false;
    }
    if kind == LOGIC {
        if list[at + 7] / 16 > 4 {
            return false;
        }
        return source_fits(m, list, k);
    }
    if list[at + 7] != 0 {
        return false;
    }
    if (kind == STORE) | (kind == MASKED_STORE) {
        return store_fits(m, list, k);
    }
    source_fits(m, list, k)
}

// All rows. Kinds up to 4 leave the mode registers as they are and are asked apart, so that a list that uses no mode register does not pay for them.
pub fn stands(m: Modes, list: &[u8], k: usize) -> bool
    requires { 8 * k + 8 ≤ length list.now }
    ensures { result ≡ eqb (fault_of m (instruction_at list.now k)).number 0 }
{
    if list[8 * k] > DELIVER {
        return still_fits(m, list, k);
    }
    moving_fits(m, list, k)
}
