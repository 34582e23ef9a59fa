// The words of the text, as numbers (specs/Tables.antt): the codes of a word's characters as the digits of a number to the base 256.

// The instructions' names by kind, 0 to 6, and at 7 the name of the form in bytes.
// logic, setm, store, mstore, deliver, resolve, set, bytes
pub const HEADS: [u64; 8] = [
    0x6c6f676963,
    0x7365746d,
    0x73746f7265,
    0x6d73746f7265,
    0x64656c69766572,
    0x7265736f6c7665,
    0x736574,
    0x6279746573,
];

// Byte 7 / 16: X; Y; both; X where Y is 1; X where the old Y is 1, and Y everywhere.
// x, y, both, x-if-y, x-if-y+y
pub const CHOICES: [u64; 5] = [0x78, 0x79, 0x626f7468, 0x782d69662d79, 0x782d69662d792b79];

// Byte 7 % 16: the functions of the old bit r and the passed bit f. clear: r and not f. not: not r. loadnot: not f. ornot: r or not f.
// zero, nor, 2, not, clear, loadnot, xor, nand, and, xnor, load, 11, keep, ornot, or, one
pub const FUNCTIONS: [u64; 16] = [
    0x7a65726f,
    0x6e6f72,
    0x32,
    0x6e6f74,
    0x636c656172,
    0x6c6f61646e6f74,
    0x786f72,
    0x6e616e64,
    0x616e64,
    0x786e6f72,
    0x6c6f6164,
    0x3131,
    0x6b656570,
    0x6f726e6f74,
    0x6f72,
    0x6f6e65,
];

// Byte 1: no word for memory, which is named by its place; M; X; Y; outside.
// (none), m, x, y, outside
pub const SOURCES: [u64; 5] = [0, 0x6d, 0x78, 0x79, 0x6f757473696465];

// The mode registers by their tags, 2 and 3.
// (none), (none), a, b
pub const MODE_REGISTERS: [u64; 4] = [0, 0, 0x61, 0x62];

// Mode 0; mode 255; any other mode, or that of a register.
// slice, word, mode
pub const PLACES: [u64; 3] = [0x736c696365, 0x776f7264, 0x6d6f6465];

// 2^0 to 2^8.
// 1, 2, 4, 8, 16, 32, 64, 128, 256
pub const POWERS: [u64; 9] = [
    0x31, 0x32, 0x34, 0x38, 0x3136, 0x3332, 0x3634, 0x313238, 0x323536,
];

// address
pub const ADDRESS: u64 = 0x61646472657373;

// from
pub const FROM: u64 = 0x66726f6d;

// flip
pub const FLIP: u64 = 0x666c6970;

// shift
pub const SHIFT: u64 = 0x7368696674;

// mod
pub const MOD: u64 = 0x6d6f64;

// ;
pub const COMMENT: u64 = 0x3b;

// reaches
pub const REACHES: u64 = 0x72656163686573;

// word
pub const WORD: u64 = 0x776f7264;

// words
pub const WORDS: u64 = 0x776f726473;

// slice
pub const SLICE: u64 = 0x736c696365;

// mode
pub const MODE: u64 = 0x6d6f6465;

// bytes
pub const BYTES: u64 = 0x6279746573;

// ?
pub const UNKNOWN: u64 = 0x3f;

// refused
pub const REFUSED: u64 = 0x72656675736564;

// byte
pub const BYTE: u64 = 0x62797465;
