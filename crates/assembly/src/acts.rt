// What a line makes, and what that brings. docs/TEXT.md, "Fields by name, and the builders as statements", "A limit".
ghost use Rattle.std.specs.Prelude.{◌≡◌, cond, ◌&&◌, not, eqb, ◌||◌, ◌∷◌, [], ◌+◌, ◌*◌, ◌^◌, ◌<◌, ◌≤◌, ltb, length};
ghost use Rattle.builders.specs.Field.{Field};
ghost use Rattle.bits.specs.Steps.{put_at};
ghost use Rattle.judge.specs.Instructions.{stores};
ghost use Rattle.judge.specs.Modes.{modes_by, mode_of, unset};
ghost use Rattle.reach.specs.Reach.{reach_of};
ghost use Rattle.builders.specs.Lists.{encoded};
ghost use Rattle.builders.specs.Searches.{search_list, number_items, greatest_list};
ghost use Rattle.assembly.specs.Acts.{fields_list, list_of, items_of, named_by, limit_by, modes_by_act, taken_by_act, over_by, searches};
ghost use Rattle.assembly.specs.Steps.{Room, Joined, Buildable, is_difference, is_less, made};

use crate::fields::Fields;
use crate::{Act, Adding, Search, Span};
use builders::searches::{equal_list, greatest_list, less_list};
use builders::sums::{difference_list, sum_list};
use judge::Instruction;
use judge::modes::{settle, unset};
use judge::rows::{stores, takes};
use reach::reach_of;
use registers::Modes;

// The limit behind it.
pub fn limit_by(act: Act, limit: usize) -> usize
    ensures { result ≡ limit_by (made act) limit }
{
    match act {
        Act::Limit(n) => n,
        _ => limit,
    }
}

// The mode registers behind an instruction, and behind a line.
fn modes_after(i: Instruction, m: Modes) -> Modes
    ensures { result ≡ modes_by i m }
{
    settle(i, m).modes
}

pub fn modes_by(act: Act, m: Modes) -> Modes
    ensures { result ≡ modes_by_act (made act) m }
{
    match act {
        Act::One(i) => modes_after(i, m),
        _ => m,
    }
}

// Does an instruction take an item from outside, so far?
pub fn taken_by(act: Act, taken: bool) -> bool
    ensures { result ≡ taken_by_act (made act) taken }
{
    match act {
        Act::One(i) => taken | takes(i),
        _ => taken,
    }
}

// Does an instruction store under a register that is not set, or to more words than `limit`?
fn over_one(limit: usize, m: Modes, i: Instruction) -> bool
    ensures { result ≡ (stores i && (unset m i || ltb limit (reach_of (mode_of m i)))) }
{
    let settled = settle(i, m);
    stores(i) & (unset(m, i) | (limit < reach_of(settled.mode)))
}

fn over_by(limit: usize, m: Modes, act: Act) -> bool
    ensures { result ≡ over_by limit m (made act) }
{
    match act {
        Act::One(i) => over_one(limit, m, i),
        Act::Sum(..) => limit < 256,
        _ => false,
    }
}

// Is there a limit, and does it store beyond it?
pub fn over_limit(limit: usize, m: Modes, act: Act) -> bool
    ensures { result ≡ (not (eqb limit 0) && over_by limit m (made act)) }
{
    !(limit == 0) & over_by(limit, m, act)
}

// Is it `equal` or `less`?
fn searches(act: Act) -> bool
    ensures { result ≡ searches (made act) }
{
    match act {
        Act::Search(..) => true,
        _ => false,
    }
}

// Would an instruction above it take the first of its items?
pub fn out_of_step(taken: bool, act: Act) -> bool
    ensures { result ≡ (searches (made act) && taken) }
{
    searches(act) & taken
}

// The bytes of each statement's list, and of its items: the builders' own lengths, which no contract of a public function of theirs gives.
// `as`, here and below: it widens a u8, and `usize::from` (tried) leaves four answers to be written anew, with a call's clause in each, for the same words.
fn sum_size(adding: Adding, n: u8) -> usize
    ensures { (result ≤ 22456) × (result ≡ 8 * (cond (is_difference adding) 2 1 + 5 * n)) }
{
    let lead = match adding {
        Adding::Sum => 1,
        Adding::Difference => 2,
    };
    8 * (lead + 5 * n as usize)
}

pub fn list_size(act: Act) -> usize
    ensures { (result ≤ 22456) × (result ≡ length (list_of (made act))) }
{
    match act {
        Act::One(_) => 8,
        Act::Sum(adding, a, _, _) => sum_size(adding, a.width),
        Act::Search(_, a, _) => 8 * (2 + 3 * a.width as usize),
        Act::Greatest(a) => 8 * (1 + 11 * a.width as usize),
        _ => 0,
    }
}

pub fn items_size(act: Act) -> usize
    ensures { (result ≤ 8160) × (result ≡ length (items_of (made act))) }
{
    match act {
        Act::Search(_, a, _) => 32 * a.width as usize,
        _ => 0,
    }
}

// The field that it names, if it does, behind those that are named.
pub fn put_name(act: Act, fields: &mut Fields)
    requires { Room (length fields.old.names) (made act) }
    ensures { fields.new ≡ named_by (made act) fields.old }
{
    if let Act::Field(name, span) = act {
        fields.push(name, span);
    }
}

// ---- the list and the items, into buffers of just their lengths

fn put_one(i: Instruction, list: &mut [u8])
    requires { length list.old ≡ 8 }
    ensures { list.new ≡ encoded (i ∷ []) }
{
    builders::writing::put(list, 0, i);
}

// What the builder answers is left, here and below: the clauses say that it refuses nothing, and each of the three is called with its own statement's parts.
fn put_sum(adding: Adding, a: Span, b: u8, s: u8, list: &mut [u8])
    requires { Joined a.start b s a.width × (length list.old ≡ length (fields_list (is_difference adding) a.start b s a.width)) }
    ensures { list.new ≡ fields_list (is_difference adding) a.start b s a.width }
{
    let n = a.width as u32;
    let _built = match adding {
        Adding::Sum => sum_list(a.start as u32, b as u32, s as u32, n, list),
        Adding::Difference => difference_list(a.start as u32, b as u32, s as u32, n, list),
    };
}

fn put_search(search: Search, a: Span, v: u64, list: &mut [u8], items: &mut [u8])
    requires { Field a.start a.width × (v < 2 ^ a.width) × (length list.old ≡ length (encoded (search_list (is_less search) a.start a.width))) × (length items.old ≡ length (number_items v a.width)) }
    ensures { (list.new ≡ encoded (search_list (is_less search) a.start a.width)) × (items.new ≡ number_items v a.width) }
{
    let n = a.width as u32;
    let _built = match search {
        Search::Equal => equal_list(a.start as u32, n, v, list, items),
        Search::Less => less_list(a.start as u32, n, v, list, items),
    };
}

fn put_greatest(a: Span, list: &mut [u8])
    requires { Field a.start a.width × (length list.old ≡ length (encoded (greatest_list a.start a.width))) }
    ensures { list.new ≡ encoded (greatest_list a.start a.width) }
{
    let _built = greatest_list(a.start as u32, a.width as u32, list);
}

fn build(act: Act, list: &mut [u8], items: &mut [u8])
    requires { Buildable (made act) × (length list.old ≡ length (list_of (made act))) × (length items.old ≡ length (items_of (made act))) }
    ensures { (list.new ≡ list_of (made act)) × (items.new ≡ items_of (made act)) }
{
    match act {
        Act::One(i) => put_one(i, list),
        Act::Sum(adding, a, b, s) => put_sum(adding, a, b, s, list),
        Act::Search(search, a, v) => put_search(search, a, v, list, items),
        Act::Greatest(a) => put_greatest(a, list),
        _ => {}
    }
}

// The list from index `at` of its buffer on, and the items from `item` on.
// Both indices are Standing's counts, as the definitions carry them; a writer for each would hold the same.
#[inline(never)]
pub fn place(act: Act, list: &mut [u8], at: usize, items: &mut [u8], item: usize)
    requires { Buildable (made act) × (at + length (list_of (made act)) ≤ length list.old) × (item + length (items_of (made act)) ≤ length items.old) }
    ensures { (list.new ≡ put_at at (list_of (made act)) list.old) × (items.new ≡ put_at item (items_of (made act)) items.old) }
{
    let end = at + list_size(act);
    let last = item + items_size(act);
    build(act, &mut list[at..end], &mut items[item..last]);
}
