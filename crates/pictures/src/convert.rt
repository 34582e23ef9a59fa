// A file of blocks with a picture of one kind made one of the other. Document 02, Eight.
//
// The words, M, X and Y stand at the same places in both, so the blocks are copied whole and sealed anew; the mode registers
// are put behind, or left out. No second memory is needed.
ghost use Rattle.std.specs.Prelude.{◌≡◌};
ghost use Rattle.contents.specs.Moved.{moved_of};
ghost use Rattle.pictures.specs.Conversion.{to_new, to_old};

use super::{BLOCKS, FILE, modes_in};
use bits::copies::copy;
use bits::refusals::Refusal;
use contents::{Kind, MODES_PICTURE_BYTES, PICTURE_BYTES, Refused};
use registers::mode_bytes::{any_set, wrong_modes};

// Old to new: a picture of kind 1 as one of kind 4, both mode registers unset. Output past the blocks stays.
pub fn to_new(bytes: &[u8], out: &mut [u8]) -> Result<usize, Refused>
    ensures { record { answer = moved_of result; buffer = out.new } ≡ to_new bytes.now out.old }
{
    contents::judge_file(Kind::Picture as usize, bytes)?;
    if out.len() < FILE {
        return Err(Refusal::OutputTooShort.into());
    }
    copy(bytes, &mut out[..FILE]);
    let unset = [0u8; 4];
    contents::put_part(&unset, PICTURE_BYTES, out);
    let kind = Kind::ModesPicture as usize;
    contents::seal_all(kind, MODES_PICTURE_BYTES, BLOCKS, out);
    Ok(FILE)
}

// New to old: a picture of kind 4 neither of whose mode registers is set as one of kind 1.
pub fn to_old(bytes: &[u8], out: &mut [u8]) -> Result<usize, Refused>
    ensures { record { answer = moved_of result; buffer = out.new } ≡ to_old bytes.now out.old }
{
    contents::judge_file(Kind::ModesPicture as usize, bytes)?;
    let modes = modes_in(bytes);
    if wrong_modes(modes) {
        return Err(Refusal::ModeRegisters.into());
    }
    if any_set(modes) {
        return Err(Refusal::ModeSet.into());
    }
    if out.len() < FILE {
        return Err(Refusal::OutputTooShort.into());
    }
    copy(bytes, &mut out[..FILE]);
    contents::seal_all(Kind::Picture as usize, PICTURE_BYTES, BLOCKS, out);
    Ok(FILE)
}
