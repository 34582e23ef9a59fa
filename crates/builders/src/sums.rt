// The lists that add two fields and that take one off another. Document 01, Sum and difference lists.
ghost use Rattle.std.specs.Prelude.{◌≡◌, ◌<◌, ◌++◌, length};
ghost use Rattle.bits.specs.Refusals.{number_given};
ghost use Rattle.builders.specs.Lists.{encoded};
ghost use Rattle.builders.specs.Building.{built_with};
ghost use Rattle.builders.specs.Results.{built_of};
ghost use Rattle.builders.specs.Sums.{crosses, list_length, bit_rounds, fields_fault, sum_built, difference_built};

use crate::field::{beyond, meets, wrong_width};
use crate::sum_rounds::{READ, READ_TURNED, clear, put_fields, set_y};
use bits::refusals::Refusal;
use judge::Instruction;

// Does a field that starts at `s` overlap one that starts at `a` without having its start?
fn crosses(s: u32, a: u32, n: u32) -> bool
    ensures { result ≡ crosses s a n }
{
    s != a && meets(a, s, n)
}

// The bytes of a list with `lead` instructions before the first bit's.
fn list_length(lead: usize, n: u32) -> usize
    requires { lead < 3 }
    ensures { result ≡ list_length lead n }
{
    8 * (lead + 5 * n as usize)
}

// Fields A, B and S, each of `n` bits from its start on.
#[derive(Clone, Copy)]
struct Fields {
    a: u32,
    b: u32,
    s: u32,
    n: u32,
}

// Why the fields are refused, or the list's buffer of `have` bytes: 30 to 33.
#[tactic(auto, unfolding(crate::specs::Sums::fields_fault))]
fn fields_fault(lead: usize, f: Fields, have: usize) -> Result<(), Refusal>
    requires { lead < 3 }
    ensures { number_given result ≡ fields_fault lead f.a f.b f.s f.n have }
{
    if wrong_width(f.n, 64) {
        return Err(Refusal::Width);
    }
    if beyond(f.a, f.n) || beyond(f.b, f.n) || beyond(f.s, f.n) {
        return Err(Refusal::FieldBeyond);
    }
    if crosses(f.s, f.a, f.n) || crosses(f.s, f.b, f.n) {
        return Err(Refusal::FieldsCross);
    }
    if have < list_length(lead, f.n) {
        return Err(Refusal::ListTooShort);
    }
    Ok(())
}

// The list of `lead` and of the rounds in which B is read with `byte7`.
fn fields_list(
    lead: &[Instruction],
    byte7: u8,
    f: Fields,
    list: &mut [u8],
) -> Result<usize, Refusal>
    requires { length lead.now < 3 }
    ensures { record { answer = built_of result; list = list.new }
        ≡ built_with (fields_fault (length lead.now) f.a f.b f.s f.n (length list.old)) (encoded (lead.now ++ bit_rounds byte7 f.a f.b f.s f.n)) list.old }
{
    fields_fault(lead.len(), f, list.len())?;
    put_fields(list, lead, byte7, f.a, f.b, f.s, f.n);
    Ok(list_length(lead.len(), f.n))
}

// The list that adds field A and field B into field S, each of `n` bits from its start on.
#[tactic(auto, unfolding(crate::specs::Sums::sum_built))]
pub fn sum_list(a: u32, b: u32, s: u32, n: u32, list: &mut [u8]) -> Result<usize, Refusal>
    ensures { record { answer = built_of result; list = list.new } ≡ sum_built a b s n list.old }
{
    fields_list(&[clear()], READ, Fields { a, b, s, n }, list)
}

// The list that takes field B off field A into field S.
#[tactic(auto, unfolding(crate::specs::Sums::difference_built))]
pub fn difference_list(a: u32, b: u32, s: u32, n: u32, list: &mut [u8]) -> Result<usize, Refusal>
    ensures { record { answer = built_of result; list = list.new } ≡ difference_built a b s n list.old }
{
    fields_list(
        &[clear(), set_y()],
        READ_TURNED,
        Fields { a, b, s, n },
        list,
    )
}
