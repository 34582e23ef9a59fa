// Items of 32 bytes: the leaves that take bits out of them, put bits into them and copy them; a byte put into a buffer; and why a call is refused.
#![tactic(auto)]

pub mod buffers;
pub mod copies;
pub mod flips;
pub mod lanes;
pub mod mixing;
pub mod quarters;
pub mod refusals;

pub use mixing::mix;
