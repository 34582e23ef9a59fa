// Bytes copied: a part of one buffer to a part of another, and an item out of a part.
ghost use Rattle.std.specs.Prelude.{◌≡◌, length};

// All of one slice into another of the same length, byte by byte: where the compiler does not know the length, `copy_from_slice` calls C's memmove. The library for C would need that name besides memcpy and memset, and the call takes 72 bytes of the stack that the header gives those who read and write (include/staran.h).
#[inline(never)]
pub fn copy(src: &[u8], dst: &mut [u8])
    requires { length src.now ≡ length dst.old }
    ensures { dst.new ≡ src.now }
{
    for i in 0..src.len() {
        dst[i] = src[i];
    }
}

// The item that is a part of 32 bytes.
// A function of its own: that an item's bytes are below 256, a proof learns of a value that a call gives, and not of one behind a reference (network::items).
pub fn item_of(part: &[u8]) -> [u8; 32]
    requires { length part.now ≡ 32 }
    ensures { result ≡ part.now }
{
    let mut out = [0; 32];
    out.copy_from_slice(part);
    out
}
