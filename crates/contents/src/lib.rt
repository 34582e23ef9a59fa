// Files of blocks: the judging of a file, and reading and writing of lists and items. Document 01, Blocks on disk;
// document 02, Eight; docs/FORMAT.md has the layout.
//
// The public entries take any bytes, any lengths and any kind asked: `read_content` and `write_content`; those of pictures are
// in pictures. The other functions are inner ones.
#![tactic(auto)]

ghost use Rattle.std.specs.Prelude.{◌≡◌, ◌+◌, ◌*◌, ◌/◌, ◌^◌, ◌<◌, ◌≤◌, max, min, length};
ghost use Rattle.blocks.specs.Block.{block_bytes, payload_bytes};
ghost use Rattle.contents.specs.File.{most_content, block_count, blocks_of};
ghost use Rattle.contents.specs.File.{is_picture, length_right, size_fits, file_judged};
ghost use Rattle.contents.specs.Moved.{moved_of};
ghost use Rattle.contents.specs.Kinds.{number_of_kind, KindOf};
ghost use Rattle.contents.specs.Content.{over, content_read, content_written};
ghost use Rattle.contents.specs.Payloads.{payload_at, payloads, laid};

use bits::copies::copy;
use bits::refusals::Refusal;
use blocks::{BLOCK_BYTES, HEAD_BYTES, PAYLOAD_BYTES};

// The sizes of what the kinds hold.
pub const PICTURE_BYTES: usize = 8288;

pub const MODES_PICTURE_BYTES: usize = 8292;

const MOST_CONTENT: usize = 32768;

const MOST_FILE: usize = 34304;

// The kinds of content. A picture of the one kind has the mode registers too.
#[derive(Clone, Copy, Debug, PartialEq, Eq)]
pub enum Kind {
    Picture = 1,
    List = 2,
    Items = 3,
    ModesPicture = 4,
}

impl Kind {
    // Its number in the head of a block.
    // No From for usize: it would be this line under a name that does not say what it is.
    pub fn number(self) -> usize
        ensures { result ≡ number_of_kind self }
    {
        self as usize
    }

    // Is this the size of a content of this kind?
    fn size_fits(self, size: usize) -> bool
        ensures { result ≡ size_fits (number_of_kind self) size }
    {
        match self {
            Kind::Picture => size == PICTURE_BYTES,
            Kind::ModesPicture => size == MODES_PICTURE_BYTES,
            Kind::List => size % 8 == 0 && size <= MOST_CONTENT,
            Kind::Items => size % 32 == 0 && size <= MOST_CONTENT,
        }
    }
}

// The kind that has a number: refused with 22 where none has it.
impl TryFrom<usize> for Kind {
    type Error = Refusal;

    ghost try_from_gives = { KindOf };

    fn try_from(number: usize) -> Result<Kind, Refusal> {
        match number {
            1 => Ok(Kind::Picture),
            2 => Ok(Kind::List),
            3 => Ok(Kind::Items),
            4 => Ok(Kind::ModesPicture),
            _ => Err(Refusal::BlockKind),
        }
    }
}

// Why a file, a content or a target is refused, and the place of the block for 21 to 24, else 0.
// No Option: the answer has a 0 there (`moved_of`).
#[derive(Clone, Copy, Debug, PartialEq, Eq)]
pub struct Refused {
    pub why: Refusal,
    pub place: usize,
}

impl From<Refusal> for Refused {
    ghost from_gives = { λ why refused. refused ≡ record { why = why; place = 0 } };

    fn from(why: Refusal) -> Refused {
        Refused { why, place: 0 }
    }
}

fn length_right(n: usize) -> bool
    ensures { result ≡ length_right n }
{
    0 < n && n % BLOCK_BYTES == 0 && n <= MOST_FILE
}

// Is this the number of a kind of picture?
// A number, as in each public entry here and in pictures: docs/CONTRACTS.md names them, C hands on any, and a `Kind` would ask more of callers.
pub fn is_picture(kind: usize) -> bool
    ensures { result ≡ is_picture kind }
{
    matches!(Kind::try_from(kind), Ok(Kind::Picture | Kind::ModesPicture))
}

// A file judged by itself, before any target is looked at: its refusal, or the size of its content.
pub fn judge_file(kind: usize, bytes: &[u8]) -> Result<usize, Refused>
    ensures { moved_of result ≡ file_judged kind bytes.now }
{
    let asked = Kind::try_from(kind)?;
    if !length_right(bytes.len()) {
        return Err(Refusal::FileLength.into());
    }
    let (all, _) = bytes.as_chunks::<BLOCK_BYTES>();
    let count = all.len();
    let mut size: usize = 0;
    for (place, block) in all.iter().enumerate() {
        if let Err(why) = blocks::fault(block, kind, place, count) {
            return Err(Refused { why, place });
        }
        size += blocks::two_at(block, 6);
    }
    if !asked.size_fits(size) {
        return Err(Refusal::ContentSize.into());
    }
    Ok(size)
}

// What block i has of a part of a content: where it stands in the file and in the part, and how many bytes it is.
// No Range: two places go with one length.
#[derive(Clone, Copy)]
struct Piece {
    in_file: usize,
    in_part: usize,
    bytes: usize,
}

// The piece of a part, which goes from number `at` up to `end` of its content, that block i's payload has.
fn piece_in(i: usize, at: usize, end: usize) -> Piece
    requires { (at < payload_bytes * i + payload_bytes) × (at ≤ end) × (payload_bytes * i ≤ end) × (block_bytes * block_count end < 2 ^ 64) }
    ensures begins { at + result.in_part ≡ max at (payload_bytes * i) }
    ensures stands { result.in_file ≡ payload_at (at + result.in_part) }
    ensures ends { at + result.in_part + result.bytes ≡ min end (payload_bytes * i + payload_bytes) }
{
    let first = PAYLOAD_BYTES * i;
    let from = at.max(first);
    Piece {
        in_file: BLOCK_BYTES * i + HEAD_BYTES + (from - first),
        in_part: from - at,
        bytes: end.min(first + PAYLOAD_BYTES) - from,
    }
}

// A part of a content, from number `at` on, out of the payloads that it stands in, piece by piece.
// The blocks end by an addition, here and in put_part: `div_ceil` takes some twelve instructions more, for each eight words of a picture.
// `at` is a number of the content, as in the definition `payloads`, and no place to go on at. Not one with put_part, which copies the other way: what they share is piece_in.
#[inline(never)]
pub fn part_of(bytes: &[u8], at: usize, part: &mut [u8])
    requires { block_bytes * block_count (at + length part.old) ≤ length bytes.now }
    ensures { part.new ≡ payloads bytes.now at (length part.old) }
{
    let end = at + part.len();
    for i in at / PAYLOAD_BYTES..(end + PAYLOAD_BYTES - 1) / PAYLOAD_BYTES {
        let p = piece_in(i, at, end);
        copy(
            &bytes[p.in_file..p.in_file + p.bytes],
            &mut part[p.in_part..p.in_part + p.bytes],
        );
    }
}

// Reads the blocks of a list or of items into a target, whose bytes past the content stay.
pub fn read_content(kind: usize, bytes: &[u8], target: &mut [u8]) -> Result<usize, Refused>
    ensures { record { answer = moved_of result; buffer = target.new }
        ≡ content_read kind bytes.now target.old }
{
    let size = judge_file(kind, bytes)?;
    if is_picture(kind) || target.len() < size {
        return Err(Refusal::LentLength.into());
    }
    part_of(bytes, 0, &mut target[..size]);
    Ok(size)
}

// A part of a content, from number `at` on, into the payloads that it is to stand in, piece by piece.
#[inline(never)]
pub fn put_part(part: &[u8], at: usize, out: &mut [u8])
    requires { block_bytes * block_count (at + length part.now) ≤ length out.old }
    ensures { out.new ≡ laid part.now at out.old }
{
    let end = at + part.len();
    for i in at / PAYLOAD_BYTES..(end + PAYLOAD_BYTES - 1) / PAYLOAD_BYTES {
        let p = piece_in(i, at, end);
        copy(
            &part[p.in_part..p.in_part + p.bytes],
            &mut out[p.in_file..p.in_file + p.bytes],
        );
    }
}

// Makes the blocks of a content of `size` bytes that stands in their payloads already.
pub fn seal_all(kind: usize, size: usize, count: usize, out: &mut [u8])
    requires { (kind < 65536) × (count < 65536) × (count ≡ block_count size)
        × (block_bytes * count ≤ length out.old) }
    ensures { out.new ≡ over (blocks_of kind (payloads out.old 0 size)) out.old }
{
    for i in 0..count {
        let used = PAYLOAD_BYTES.min(size - PAYLOAD_BYTES * i);
        let from = BLOCK_BYTES * i;
        blocks::seal(kind, i, count, used, &mut out[from..from + BLOCK_BYTES]);
    }
}

// How many blocks a content of `size` bytes takes.
fn block_count(size: usize) -> usize
    requires { size ≤ most_content }
    ensures { result ≡ block_count size }
{
    size.div_ceil(PAYLOAD_BYTES).max(1)
}

// Writes a list or items as blocks to the start of an output, whose bytes past the blocks stay.
pub fn write_content(kind: usize, content: &[u8], out: &mut [u8]) -> Result<usize, Refused>
    ensures { record { answer = moved_of result; buffer = out.new }
        ≡ content_written kind content.now out.old }
{
    let size = content.len();
    let asked = Kind::try_from(kind)?;
    if is_picture(kind) || !asked.size_fits(size) {
        return Err(Refusal::LentLength.into());
    }
    let count = block_count(size);
    if out.len() < BLOCK_BYTES * count {
        return Err(Refusal::OutputTooShort.into());
    }
    put_part(content, 0, out);
    seal_all(kind, size, count, out);
    Ok(BLOCK_BYTES * count)
}
