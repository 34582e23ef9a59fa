// The flip network, in its arithmetic and its wired form.
#![tactic(auto)]

pub mod codes;
pub mod items;
mod shift;
mod tables;
mod wires;

ghost use Rattle.std.specs.Prelude.{◌≡◌, true, length};
ghost use Rattle.network.specs.Shifts.{permitted};
ghost use Rattle.network.specs.Answer.{passed_item, passed_of, answer};

use bits::flips::flip_quarters;
use bits::quarters::{lines_of, quarters_of};
use bits::refusals::Refusal;
use shift::Shift;
use tables::Signals;

// The item passed, for a caller that has judged `code`: its quarters, flipped and then shifted. Where nothing is flipped or shifted, it is a copy.
// `permitted code`, here and below, is what the judge has found of a byte: a type for a code would ask callers of these public functions for more than the byte.
pub fn pass_item(lines: &[u8; 32], flip: u8, code: u8) -> [u8; 32]
    requires { permitted code ≡ true }
    ensures { result ≡ passed_item lines.now flip code }
{
    if flip | code == 0 {
        return items::copied(lines);
    }
    let flipped = flip_quarters(quarters_of(lines), flip);
    if code == 0 {
        return lines_of(flipped);
    }
    lines_of(Shift::of(code).shifted(flipped))
}

// The same pass of a part of a buffer.
// Apart, with its length asked: it is a public function of a part of a buffer, and the one that asks `length part`.
pub fn pass_part(part: &[u8], flip: u8, code: u8) -> [u8; 32]
    requires { (length part.now ≡ 32) × (permitted code ≡ true) }
    ensures { result ≡ passed_item part.now flip code }
{
    let lines = bits::copies::item_of(part);
    pass_item(&lines, flip, code)
}

// A pass in arithmetic form, called by itself: the passed item, or why byte 6 is refused, 16 or 17.
pub fn pass(lines: &[u8; 32], flip: u8, code: u8) -> Result<[u8; 32], Refusal>
    ensures { passed_of result ≡ answer lines.now flip code }
{
    if !codes::is_code(code) {
        return Err(codes::unlisted(code));
    }
    Ok(pass_item(lines, flip, code))
}

// A pass in wired form, called by itself: the same contract. The shift's signals are taken out once, and the levels work
// on the item that is given back.
pub fn wired_pass(lines: &[u8; 32], flip: u8, code: u8) -> Result<[u8; 32], Refusal>
    ensures { passed_of result ≡ answer lines.now flip code }
{
    let Some(s) = codes::find(code) else {
        return Err(codes::unlisted(code));
    };
    let signals = Signals::of(s);
    let mut out = *lines;
    wires::wired_item(8, &signals, flip, &mut out);
    Ok(out)
}
