// The lists that mark the words whose field equals a number, is less than it, or is the greatest of the marked. Document 02, One.
ghost use Rattle.std.specs.Prelude.{◌≡◌};
ghost use Rattle.bits.specs.Refusals.{number_given};
ghost use Rattle.builders.specs.Results.{built_of, built_two_of};
ghost use Rattle.builders.specs.Searches.{is_less, too_large, search_length, items_length, greatest_length, search_fault, greatest_fault, search_built, equal_built, less_built, greatest_built};

use crate::Sizes;
use crate::field::{beyond, wrong_width};
use crate::search_rounds::{Search, put_greatest, put_number};
use bits::refusals::Refusal;

// Has the number more than `n` bits? For a width of 64 and more no number has.
fn too_large(number: u64, n: u32) -> bool
    ensures { result ≡ too_large number n }
{
    n < 64 && number >> n > 0
}

// The sizes of a list for equal or less, and of its items.
// `as`, here and in all loops that write rounds: u32 has no From to usize.
fn search_sizes(n: u32) -> Sizes
    ensures { (result.list ≡ search_length n) × (result.items ≡ items_length n) }
{
    Sizes {
        list: 8 * (2 + 3 * n as usize),
        items: 32 * n as usize,
    }
}

// The bytes of a list for greatest.
fn greatest_length(n: u32) -> usize
    ensures { result ≡ greatest_length n }
{
    8 * (1 + 11 * n as usize)
}

// Why equal or less is refused, by the sizes of both buffers: 30, 31, 34, 33.
#[tactic(auto, unfolding(crate::specs::Searches::search_fault))]
fn search_fault(a: u32, n: u32, number: u64, lent: Sizes) -> Result<(), Refusal>
    ensures { number_given result ≡ search_fault a n number lent.list lent.items }
{
    if wrong_width(n, 64) {
        return Err(Refusal::Width);
    }
    if beyond(a, n) {
        return Err(Refusal::FieldBeyond);
    }
    if too_large(number, n) {
        return Err(Refusal::NumberTooLarge);
    }
    if lent.lacks(search_sizes(n)) {
        return Err(Refusal::ListTooShort);
    }
    Ok(())
}

// And greatest: 30, 31, 33.
// The first two rows are search_fault's too: another number stands between them and the last, so each says its own.
#[tactic(auto, unfolding(crate::specs::Searches::greatest_fault))]
fn greatest_fault(a: u32, n: u32, list: usize) -> Result<(), Refusal>
    ensures { number_given result ≡ greatest_fault a n list }
{
    if wrong_width(n, 64) {
        return Err(Refusal::Width);
    }
    if beyond(a, n) {
        return Err(Refusal::FieldBeyond);
    }
    if list < greatest_length(n) {
        return Err(Refusal::ListTooShort);
    }
    Ok(())
}

// Either search, with its items.
fn search_list(
    search: Search,
    start: u32,
    n: u32,
    number: u64,
    list: &mut [u8],
    items: &mut [u8],
) -> Result<Sizes, Refusal>
    ensures { record { answer = built_two_of result; list = list.new; items = items.new }
        ≡ search_built (is_less search) start n number list.old items.old }
{
    let lent = Sizes {
        list: list.len(),
        items: items.len(),
    };
    search_fault(start, n, number, lent)?;
    search.put_list(list, start, n);
    put_number(items, number, n);
    Ok(search_sizes(n))
}

// The list that marks the words whose field, of `n` bits from `start` on, equals `number`.
pub fn equal_list(
    start: u32,
    n: u32,
    number: u64,
    list: &mut [u8],
    items: &mut [u8],
) -> Result<Sizes, Refusal>
    ensures { record { answer = built_two_of result; list = list.new; items = items.new }
        ≡ equal_built start n number list.old items.old }
{
    search_list(Search::Equal, start, n, number, list, items)
}

// The list that marks those whose field is less.
pub fn less_list(
    start: u32,
    n: u32,
    number: u64,
    list: &mut [u8],
    items: &mut [u8],
) -> Result<Sizes, Refusal>
    ensures { record { answer = built_two_of result; list = list.new; items = items.new }
        ≡ less_built start n number list.old items.old }
{
    search_list(Search::Less, start, n, number, list, items)
}

// The list that keeps the marks of the words with the greatest field among the marked.
pub fn greatest_list(start: u32, n: u32, list: &mut [u8]) -> Result<usize, Refusal>
    ensures { record { answer = built_of result; list = list.new } ≡ greatest_built start n list.old }
{
    greatest_fault(start, n, list.len())?;
    put_greatest(list, start, n);
    Ok(greatest_length(n))
}
