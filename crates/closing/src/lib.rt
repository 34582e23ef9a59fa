// Builders of the lists that close up a field of the marked words, and that spread it back, with their items. Document 02, Five.
#![tactic(auto)]

mod fields;
mod masks;
mod rounds;

ghost use Rattle.std.specs.Prelude.{◌≡◌};
ghost use Rattle.builders.specs.Results.{built_two_of};
ghost use Rattle.closing.specs.Closing.{closing_length, closing_items_length, spreading_length, spreading_items_length, closing_built, spreading_built};

use bits::refusals::Refusal;
use builders::Sizes;
use fields::judged;

// The sizes of a closing's list and of its items, for every marks.
fn closing_sizes(n: u32) -> Sizes
    ensures { (result.list ≡ closing_length n) × (result.items ≡ closing_items_length) }
{
    Sizes {
        list: 8 * (10 + 19 * n as usize),
        items: 32 * 9,
    }
}

// And of a spreading's.
fn spreading_sizes(n: u32) -> Sizes
    ensures { (result.list ≡ spreading_length n) × (result.items ≡ spreading_items_length n) }
{
    Sizes {
        list: 8 * (1 + 18 * n as usize),
        items: 32 * (1 + 8 * n as usize),
    }
}

// The list that puts field A of the marked words, `n` bits from `a` on, into field S, from `s` on, of words 0, 1, 2 and so on, and zero into S of all others.
pub fn closing_list(
    a: u32,
    s: u32,
    n: u32,
    marks: &[u8],
    list: &mut [u8],
    items: &mut [u8],
) -> Result<Sizes, Refusal>
    ensures { record { answer = built_two_of result; list = list.new; items = items.new }
        ≡ closing_built a s n marks.now list.old items.old }
{
    let lent = Sizes {
        list: list.len(),
        items: items.len(),
    };
    let sizes = closing_sizes(n);
    let (f, marks) = judged(a, s, n, marks, lent, sizes)?;
    rounds::put_closing(list, f);
    masks::put_closing_items(items, marks);
    Ok(closing_sizes(n))
}

// The list that spreads S of words 0, 1, 2 and so on back into A of the marked words, and leaves A of the others.
// Not one with closing_list: the judging is one call for both, and the sizes, the list and the items are each one's own.
pub fn spreading_list(
    a: u32,
    s: u32,
    n: u32,
    marks: &[u8],
    list: &mut [u8],
    items: &mut [u8],
) -> Result<Sizes, Refusal>
    ensures { record { answer = built_two_of result; list = list.new; items = items.new }
        ≡ spreading_built a s n marks.now list.old items.old }
{
    let lent = Sizes {
        list: list.len(),
        items: items.len(),
    };
    let sizes = spreading_sizes(n);
    let (f, marks) = judged(a, s, n, marks, lent, sizes)?;
    rounds::put_spreading(list, f);
    masks::put_spreading_items(items, marks, f);
    Ok(sizes)
}
