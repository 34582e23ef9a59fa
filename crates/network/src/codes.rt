// The search through the 37 codes: which byte 6 is permitted, which shift it is, and why one that is not found is refused.
ghost use Rattle.std.specs.Prelude.{◌≡◌, false};
ghost use Rattle.bits.specs.Refusals.{number_of_refusal};
ghost use Rattle.bits.specs.Rows.{number_of};
ghost use Rattle.network.specs.Shifts.{found, permitted};
ghost use Rattle.network.specs.Unlisted.{code_rows};

use super::tables::code_table;
use bits::refusals::Refusal;

// The number of the shift that `code`, a byte 6, gives: where it stands among the 37 codes, if it does.
pub fn find(code: u8) -> Option<usize>
    ensures { result ≡ found code }
{
    code_table().iter().position(|c| *c == code)
}

// Whether `code` is one of the 37: what the judge of an instruction asks.
pub fn is_code(code: u8) -> bool
    ensures { result ≡ permitted code }
{
    find(code).is_some()
}

// Why a `code` that the search did not find is refused: 16 for a group over 256 lines, else 17, for m is not below p.
pub fn unlisted(code: u8) -> Refusal
    requires { permitted code ≡ false }
    ensures { number_of_refusal result ≡ number_of (code_rows code) }
{
    if code / 16 > 8 {
        Refusal::GroupTooWide
    } else {
        Refusal::ShiftNotBelow
    }
}
