// The kinds of instructions, their sources and mode tags, under the documents' names.
// Numbers and no enum: a list is lent, any byte may stand in it, `decode` keeps each as it is, and the rows of specs/Judge speak of bytes.
pub const LOGIC: u8 = 0;

pub const SET_M: u8 = 1;

pub const STORE: u8 = 2;

pub const MASKED_STORE: u8 = 3;

pub const DELIVER: u8 = 4;

pub const RESOLVE: u8 = 5;

pub const SET_MODE: u8 = 6;

pub const MEMORY: u8 = 0;

pub const M: u8 = 1;

pub const X: u8 = 2;

pub const OUTSIDE: u8 = 4;

pub const TAG_GIVEN: u8 = 1;

pub const TAG_A: u8 = 2;

pub const TAG_B: u8 = 3;
