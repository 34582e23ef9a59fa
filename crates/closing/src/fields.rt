// The fields and the marks of a closing or a spreading: what no number refuses, or why.
ghost use Rattle.std.specs.Prelude.{◌≡◌, ◌+◌, ◌≤◌, length, IfOk};
ghost use Rattle.bits.specs.Refusals.{number_given};
ghost use Rattle.closing.specs.Closing.{moving_fault};

use bits::refusals::Refusal;
use builders::Sizes;
use builders::field::{beyond, meets, wrong_width};

// Fields A and S, `n` bits from their starts on.
#[derive(Clone, Copy)]
pub struct Fields {
    pub a: u32,
    pub s: u32,
    pub n: u32,
    pub ghost some: { 1 ≤ n },
    pub ghost width: { n ≤ 32 },
    pub ghost fits_a: { a + n ≤ 256 },
    pub ghost fits_s: { s + n ≤ 256 },
}

// Both, by the sizes of what is lent and of what is needed; or else 35, 30, 31, 32, 33.
#[tactic(auto, unfolding(crate::specs::Closing::moving_fault))]
pub fn judged<'a>(
    a: u32,
    s: u32,
    n: u32,
    marks: &'a [u8],
    lent: Sizes,
    need: Sizes,
) -> Result<(Fields, &'a [u8; 32]), Refusal>
    ensures number { number_given result ≡ moving_fault a s n (length marks.now) lent.list lent.items need.list need.items }
    ensures given { IfOk result (λ x. (x.0.a ≡ a) × (x.0.s ≡ s) × (x.0.n ≡ n) × (x.1.now ≡ marks.now)) }
{
    let Some(marks) = marks.as_array() else {
        return Err(Refusal::MarksLength);
    };
    if wrong_width(n, 32) {
        return Err(Refusal::Width);
    }
    if beyond(a, n) || beyond(s, n) {
        return Err(Refusal::FieldBeyond);
    }
    if meets(a, s, n) {
        return Err(Refusal::FieldsCross);
    }
    if lent.lacks(need) {
        return Err(Refusal::ListTooShort);
    }
    Ok((Fields { a, s, n }, marks))
}
