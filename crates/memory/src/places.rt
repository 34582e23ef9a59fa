// Where eight neighbouring lines meet their eight neighbouring chips: one group of chips, one byte of each, and a bit of that byte.
ghost use Rattle.std.specs.Prelude.{◌≡◌, ◌%◌, ◌<◌};
ghost use Rattle.std.specs.Int.Bits.{bit_xor};
ghost use Rattle.memory.specs.Groups.{group_of, byte_at, place_of, spot_from};

// The group of chips that the lines 8i to 8i+7 meet.
// Groups, bytes and chips are numbers with a bound, here and in the loops: each comes out of a range that has the bound, and the definitions add and xor them.
pub(crate) fn group_of(addr: u8, i: usize) -> usize
    requires { i < 32 }
    ensures { (result ≡ group_of addr i) × (result < 32) }
{
    usize::from(addr / 8) ^ i
}

// The byte at which the chips of group k are read.
pub(crate) fn byte_at(mode: u8, addr: u8, k: usize) -> usize
    requires { k < 32 }
    ensures { (result ≡ byte_at mode addr k) × (result < 32) }
{
    usize::from(addr / 8) ^ (usize::from(mode / 8) & k)
}

// The bit of that byte for chip t of the group.
pub(crate) fn place_of(mode: u8, addr: u8, t: u8) -> u8
    requires { t < 8 }
    ensures { (result ≡ place_of mode addr t) × (result < 8) }
{
    (addr % 8) ^ ((mode % 8) & t)
}

// The line among eight that meets chip t of its group, or the chip that line t meets.
pub fn partner(addr: u8, t: u8) -> u8
    requires { t < 8 }
    ensures { (result ≡ bit_xor (addr % 8) t) × (result < 8) }
{
    (addr % 8) ^ t
}

// Where chip 0 of the group that the lines 8i to 8i+7 meet is read, from where that of lines 0 to 7 is. The group differs by i, the byte by the digits of i that the mode has; the two share no digit, so one xor serves both.
pub(crate) fn spot_from(first: usize, mode: u8, i: usize) -> usize
    requires { i < 32 }
    ensures { result ≡ spot_from first mode i }
{
    first ^ ((257 * i) & (7936 + usize::from(mode / 8)))
}
