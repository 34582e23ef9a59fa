// Answers as 32-bit numbers: the entries' own, each small enough. Neither a Result nor an array is this crate's, so no From can stand between them.
ghost use Rattle.std.specs.Prelude.{◌≡◌, [], ◌∷◌, ◌≤◌};
ghost use Rattle.network.specs.Answer.{passed_of};
ghost use Rattle.judge.specs.Answers.{answer_of};
ghost use Rattle.builders.specs.Results.{built_of, built_two_of};
ghost use Rattle.isolation.specs.Isolation.{isolation_given};
ghost use Rattle.contents.specs.Moved.{moved_of};
ghost use Rattle.assembly.specs.Results.{assembled_of};
ghost use Rattle.library.specs.Left.{six, five, three};

use bits::refusals::Refusal;
use builders::Sizes;
use judge::Done;

// Number, place, byte, steps, taken, given.
pub fn six(a: Result<Done, judge::Refused>) -> [u32; 6]
    requires { ((answer_of a).place ≤ 4096) × ((answer_of a).steps ≤ 4096) × ((answer_of a).taken ≤ 4096) × ((answer_of a).given ≤ 4096) }
    ensures { result ≡ six (answer_of a) }
{
    match a {
        Ok(done) => [
            0,
            0,
            0,
            done.steps as u32,
            done.taken as u32,
            done.given as u32,
        ],
        Err(refused) => [
            u32::from(refused.why.number()),
            refused.place as u32,
            u32::from(refused.byte),
            0,
            0,
            0,
        ],
    }
}

// The same six, put into the lent array: `staran_step_5` hands its own on to here.
pub fn put_six(a: Result<Done, judge::Refused>, answer: &mut [u32; 6])
    requires { ((answer_of a).place ≤ 4096) × ((answer_of a).steps ≤ 4096) × ((answer_of a).taken ≤ 4096) × ((answer_of a).given ≤ 4096) }
    ensures { answer.new ≡ six (answer_of a) }
{
    *answer = six(a);
}

// The item that a pass gives, of zeros where it is refused, and its number.
pub fn put_pass(a: Result<[u8; 32], Refusal>, passed: &mut [u8; 32], answer: &mut [u32; 1])
    ensures item { passed.new ≡ (passed_of a).item }
    ensures number { answer.new ≡ (passed_of a).number ∷ [] }
{
    match a {
        Ok(item) => {
            *passed = item;
            *answer = [0];
        }
        Err(why) => {
            *passed = [0; 32];
            *answer = [u32::from(why.number())];
        }
    }
}

// Number, line, column, bytes of the list, bytes of the items.
pub fn five(a: Result<Sizes, text::Refused>) -> [u32; 5]
    requires { ((assembled_of a).line ≤ 1048577) × ((assembled_of a).column ≤ 1048577) × ((assembled_of a).list ≤ 32768) × ((assembled_of a).items ≤ 32768) }
    ensures { result ≡ five (assembled_of a) }
{
    match a {
        Ok(sizes) => [0, 0, 0, sizes.list as u32, sizes.items as u32],
        Err(refused) => [
            u32::from(refused.why.number()),
            refused.line as u32,
            refused.column as u32,
            0,
            0,
        ],
    }
}

// Number, place, bytes put out.
pub fn three(a: Result<usize, contents::Refused>) -> [u32; 3]
    requires { ((moved_of a).place ≤ 67) × ((moved_of a).bytes ≤ 34304) }
    ensures { result ≡ three (moved_of a) }
{
    match a {
        Ok(bytes) => [0, 0, bytes as u32],
        Err(refused) => [u32::from(refused.why.number()), refused.place as u32, 0],
    }
}

// Number, and the count of what was put out.
pub fn number_and_count(a: Result<usize, Refusal>) -> [u32; 2]
    requires { (built_of a).count ≤ 786432 }
    ensures { result ≡ (built_of a).number ∷ (built_of a).count ∷ [] }
{
    match a {
        Ok(count) => [0, count as u32],
        Err(why) => [u32::from(why.number()), 0],
    }
}

// Number, and the counts of the bytes of a list and of its items.
pub fn two_counts(a: Result<Sizes, Refusal>) -> [u32; 3]
    requires { ((built_two_of a).list ≤ 4944) × ((built_two_of a).items ≤ 8224) }
    ensures { result ≡ (built_two_of a).number ∷ (built_two_of a).list ∷ (built_two_of a).items ∷ [] }
{
    match a {
        Ok(sizes) => [0, sizes.list as u32, sizes.items as u32],
        Err(why) => [u32::from(why.number()), 0, 0],
    }
}

// Number and place.
pub fn number_and_place(a: Result<(), isolation::Refused>) -> [u32; 2]
    requires { (isolation_given a).place ≤ 4096 }
    ensures { result ≡ (isolation_given a).number ∷ (isolation_given a).place ∷ [] }
{
    match a {
        Ok(()) => [0, 0],
        Err(refused) => [u32::from(refused.why.number()), refused.place as u32],
    }
}
