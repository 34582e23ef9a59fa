// Builders of lists of instructions: the sum and the difference of two fields, and searches over a field; what every builder stands on. Document 01, Sum and difference lists; document 02, One.
#![tactic(auto)]

pub mod field;
pub mod instructions;
mod search_rounds;
pub mod searches;
mod sum_rounds;
pub mod sums;
pub mod writing;

ghost use Rattle.std.specs.Prelude.{◌≡◌, ◌||◌, ltb};

// How many bytes a builder of a list with its items has written to each.
#[derive(Clone, Copy, Debug, PartialEq, Eq)]
pub struct Sizes {
    pub list: usize,
    pub items: usize,
}

impl Sizes {
    // Is either less than it needs to be?
    pub fn lacks(self, need: Sizes) -> bool
        ensures { result ≡ (ltb self.list need.list || ltb self.items need.items) }
    {
        self.list < need.list || self.items < need.items
    }
}
