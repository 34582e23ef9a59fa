// Pictures on disk, read and written, and converted from one kind to the other. Document 01, Blocks on disk; document 02, Eight;
// docs/FORMAT.md has the layout.
//
// The public entries take any bytes, any lengths and any kind asked: `read_picture`, `write_picture` and those of `convert`;
// those of lists and items are in contents. Between the blocks and the scrambled memory a picture's words stand on the stack
// eight at a time, 256 bytes: those that one reading of the chips gives.
#![tactic(auto)]

pub mod convert;

ghost use Rattle.std.specs.Prelude.{◌≡◌, true, ℕ, ◌+◌, ◌≤◌, length, drop};
ghost use Rattle.registers.specs.Modes.{wrong_modes};
ghost use Rattle.contents.specs.File.{modes_picture_kind, modes_picture_bytes, is_picture, done, content_of, file_judged, blocks_of};
ghost use Rattle.contents.specs.Content.{over};
ghost use Rattle.contents.specs.Moved.{moved_of};
ghost use Rattle.pictures.specs.Picture.{picture_words, picture_registers, picture_file, picture_of, scrambled};
ghost use Rattle.pictures.specs.Picture.{content_modes, picture_fits, picture_read, picture_written};

use bits::refusals::Refusal;
use contents::{Kind, PICTURE_BYTES, Refused};
use registers::mode_bytes::{modes_of, wrong_modes};
use registers::{ModeRegister, Modes};

// The bytes of the words, which are a memory's; of the registers behind them, by the kind; and of the 17 blocks of a picture.
const WORDS: usize = 8192;

const REGISTERS: usize = 96;

const WITH_MODES: usize = 100;

pub(crate) const BLOCKS: usize = 17;

pub(crate) const FILE: usize = 8704;

// The bytes of the registers in a picture of this kind.
// Any number, for the reason that stands at contents::is_picture.
pub fn registers_bytes(kind: usize) -> usize
    ensures { result ≡ picture_registers kind }
{
    if kind == Kind::ModesPicture as usize {
        WITH_MODES
    } else {
        REGISTERS
    }
}

fn picture_fits(kind: usize, memory: usize, registers: usize) -> bool
    ensures { result ≡ picture_fits kind memory registers }
{
    contents::is_picture(kind) && memory == WORDS && registers == registers_bytes(kind)
}

// The mode registers of a picture of kind 4 that stands.
pub(crate) fn modes_in(bytes: &[u8]) -> Modes
    requires { file_judged modes_picture_kind bytes.now ≡ done modes_picture_bytes }
    ensures { result ≡ content_modes (content_of bytes.now) }
{
    let mut last = [0u8; 4];
    contents::part_of(bytes, PICTURE_BYTES, &mut last);
    Modes {
        a: ModeRegister {
            set: last[0],
            mode: last[1],
        },
        b: ModeRegister {
            set: last[2],
            mode: last[3],
        },
    }
}

// Are the mode registers of a picture that stands refused with 15? One of kind 1 has none.
fn flags_wrong(kind: usize, bytes: &[u8]) -> bool
    requires { (is_picture kind ≡ true) × ((file_judged kind bytes.now).number ≡ 0) }
    ensures { result ≡ wrong_modes (content_modes (content_of bytes.now)) }
{
    kind == Kind::ModesPicture as usize && wrong_modes(modes_in(bytes))
}

// The content of a picture that stands, into the memory and the registers.
fn unload_picture(bytes: &[u8], memory: &mut [u8; WORDS], registers: &mut [u8])
    requires { (kind : ℕ) × (file_judged kind bytes.now ≡ done (picture_words + length registers.old)) }
    ensures { (memory.new ≡ scrambled (content_of bytes.now))
        × (registers.new ≡ drop picture_words (content_of bytes.now)) }
{
    for v in 0..32 {
        let mut words = [0u8; 256];
        contents::part_of(bytes, 256 * v, &mut words);
        words::words_in(memory, v, &words);
    }
    contents::part_of(bytes, WORDS, registers);
}

// Reads a picture. Every block is judged, both lengths and the mode registers before a target is touched.
pub fn read_picture(
    kind: usize,
    bytes: &[u8],
    memory: &mut [u8],
    registers: &mut [u8],
) -> Result<usize, Refused>
    ensures { record { answer = moved_of result; memory = memory.new; registers = registers.new }
        ≡ picture_read kind bytes.now memory.old registers.old }
{
    let size = contents::judge_file(kind, bytes)?;
    if !picture_fits(kind, memory.len(), registers.len()) {
        return Err(Refusal::LentLength.into());
    }
    if flags_wrong(kind, bytes) {
        return Err(Refusal::ModeRegisters.into());
    }
    unload_picture(bytes, memory.as_mut_array().unwrap(), registers);
    Ok(size)
}

// The blocks of a picture, to the start of the output.
fn put_picture(kind: usize, memory: &[u8; WORDS], registers: &[u8], out: &mut [u8])
    requires { (picture_fits kind (length memory.now) (length registers.now) ≡ true) × (picture_file ≤ length out.old) }
    ensures { out.new
        ≡ over (blocks_of kind (picture_of memory.now registers.now)) out.old }
{
    for v in 0..32 {
        let words = words::words_out(memory, v);
        contents::put_part(&words, 256 * v, out);
    }
    contents::put_part(registers, WORDS, out);
    contents::seal_all(kind, WORDS + registers.len(), BLOCKS, out);
}

// Writes a picture to the start of an output, whose bytes past the blocks stay.
pub fn write_picture(
    kind: usize,
    memory: &[u8],
    registers: &[u8],
    out: &mut [u8],
) -> Result<usize, Refused>
    ensures { record { answer = moved_of result; buffer = out.new }
        ≡ picture_written kind memory.now registers.now out.old }
{
    Kind::try_from(kind)?;
    if !picture_fits(kind, memory.len(), registers.len()) {
        return Err(Refusal::LentLength.into());
    }
    if wrong_modes(modes_of(registers)) {
        return Err(Refusal::ModeRegisters.into());
    }
    if out.len() < FILE {
        return Err(Refusal::OutputTooShort.into());
    }
    put_picture(kind, memory.as_array().unwrap(), registers, out);
    Ok(FILE)
}
