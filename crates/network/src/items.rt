// An item as it is.
ghost use Rattle.std.specs.Prelude.{◌≡◌};
ghost use Rattle.bits.specs.Bits.{bit_of, item};

use bits::copies::item_of;

// The item as it is: what its own bits make. Not `*lines`: that its bytes are below 256, a proof learns of a value that a call gives and not of one behind a reference.
pub fn copied(lines: &[u8; 32]) -> [u8; 32]
    ensures { result ≡ item (bit_of lines.now) }
{
    item_of(lines)
}
