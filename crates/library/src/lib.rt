// The library for C, as crates call it: the public entries under C names, with their answers in a lent array of 32-bit numbers. include/staran.h says each contract in words.
//
// `library_c` exports each function under its name. No function asks anything of its bytes and lengths.
#![tactic(auto)]

// One function for each C name, even where two bodies differ in one name: each name has its own clause (specs/Left), and library_c exports it.
mod answers;

ghost use Rattle.std.specs.Prelude.{◌≡◌};
ghost use Rattle.library.specs.Left.{run_left, step_left, pass_left, sum_left, difference_left, equal_left, less_left, greatest_left, closing_left, spreading_left, isolated_left, reach_left, show_left, make_left, read_left, write_left, read_picture_left, write_picture_left, to_new_left, to_old_left, version};

use registers::Registers;

// A run of an instruction list. The 4 is the version since which the answer has six numbers: a program compiled for five does not link.
pub fn staran_run_4(
    memory: &mut [u8],
    registers: &mut [u8],
    list: &[u8],
    items: &[u8],
    out: &mut [u8],
    answer: &mut [u32; 6],
)
    ensures { record { memory = memory.exit.now; registers = registers.new; out = out.new; answer = answer.new }
        ≡ run_left (record { memory = memory.entry.now; registers = registers.old; list = list.now; items = items.now; out = out.old }) }
{
    let a = module::run(memory, registers, list, items, out);
    *answer = answers::six(a);
}

// A step: an operator's console lends the register record and finds it updated there. The 5 is the version since which the record has 100 bytes: a program compiled for 96 does not link.
pub fn staran_step_5(
    memory: &mut [u8],
    registers: &mut Registers,
    instruction: &[u8],
    items: &[u8],
    out: &mut [u8],
    answer: &mut [u32; 6],
)
    ensures { record { memory = memory.exit.now; registers = registers.new; out = out.new; answer = answer.new }
        ≡ step_left (record { memory = memory.entry.now; registers = registers.old; list = instruction.now; items = items.now; out = out.old }) }
{
    let a = module::step(memory, registers, instruction, items, out);
    answers::put_six(a, answer);
}

// A pass of the network in arithmetic form.
pub fn staran_pass<'a>(
    item: &'a [u8; 32],
    flip: u8,
    code: u8,
    passed: &'a mut [u8; 32],
    answer: &'a mut [u32; 1],
)
    ensures { record { passed = passed.exit.now; answer = answer.new } ≡ pass_left item.now flip code }
{
    answers::put_pass(network::pass(item, flip, code), passed, answer);
}

// The same pass in wired form.
pub fn staran_wired_pass<'a>(
    item: &'a [u8; 32],
    flip: u8,
    code: u8,
    passed: &'a mut [u8; 32],
    answer: &'a mut [u32; 1],
)
    ensures { record { passed = passed.exit.now; answer = answer.new } ≡ pass_left item.now flip code }
{
    answers::put_pass(network::wired_pass(item, flip, code), passed, answer);
}

// The list that adds two fields.
pub fn staran_sum_list(a: u32, b: u32, s: u32, n: u32, list: &mut [u8], answer: &mut [u32; 2])
    ensures { record { buffer = list.new; answer = answer.new } ≡ sum_left a b s n list.old }
{
    let r = builders::sums::sum_list(a, b, s, n, list);
    *answer = answers::number_and_count(r);
}

// The list that takes a field off another.
pub fn staran_difference_list(
    a: u32,
    b: u32,
    s: u32,
    n: u32,
    list: &mut [u8],
    answer: &mut [u32; 2],
)
    ensures { record { buffer = list.new; answer = answer.new } ≡ difference_left a b s n list.old }
{
    let r = builders::sums::difference_list(a, b, s, n, list);
    *answer = answers::number_and_count(r);
}

// The list that marks the words whose field equals a number, with its items.
pub fn staran_equal_list(
    start: u32,
    n: u32,
    number: u64,
    list: &mut [u8],
    items: &mut [u8],
    answer: &mut [u32; 3],
)
    ensures { record { list = list.exit.now; items = items.new; answer = answer.new }
        ≡ equal_left start n number list.entry.now items.old }
{
    let r = builders::searches::equal_list(start, n, number, list, items);
    *answer = answers::two_counts(r);
}

// The list that marks those whose field is less than it, with its items.
pub fn staran_less_list(
    start: u32,
    n: u32,
    number: u64,
    list: &mut [u8],
    items: &mut [u8],
    answer: &mut [u32; 3],
)
    ensures { record { list = list.exit.now; items = items.new; answer = answer.new }
        ≡ less_left start n number list.entry.now items.old }
{
    let r = builders::searches::less_list(start, n, number, list, items);
    *answer = answers::two_counts(r);
}

// The list that keeps the marks of the words with the greatest field among the marked.
pub fn staran_greatest_list(start: u32, n: u32, list: &mut [u8], answer: &mut [u32; 2])
    ensures { record { buffer = list.new; answer = answer.new } ≡ greatest_left start n list.old }
{
    let r = builders::searches::greatest_list(start, n, list);
    *answer = answers::number_and_count(r);
}

// The list that closes up a field of the marked words, with its items.
pub fn staran_closing_list(
    a: u32,
    s: u32,
    n: u32,
    marks: &[u8],
    list: &mut [u8],
    items: &mut [u8],
    answer: &mut [u32; 3],
)
    ensures { record { list = list.exit.now; items = items.new; answer = answer.new }
        ≡ closing_left a s n marks.now list.entry.now items.old }
{
    let r = closing::closing_list(a, s, n, marks, list, items);
    *answer = answers::two_counts(r);
}

// The list that spreads it back, with its items.
pub fn staran_spreading_list(
    a: u32,
    s: u32,
    n: u32,
    marks: &[u8],
    list: &mut [u8],
    items: &mut [u8],
    answer: &mut [u32; 3],
)
    ensures { record { list = list.exit.now; items = items.new; answer = answer.new }
        ≡ spreading_left a s n marks.now list.entry.now items.old }
{
    let r = closing::spreading_list(a, s, n, marks, list, items);
    *answer = answers::two_counts(r);
}

// Whether a list is one in which no station can disturb another, for a run that starts with these registers.
pub fn staran_isolated(list: &[u8], registers: &[u8], answer: &mut [u32; 2])
    ensures { answer.new ≡ isolated_left list.now registers.now }
{
    let a = isolation::isolated(list, registers);
    *answer = answers::number_and_place(a);
}

// How many words each instruction of a list reaches, for a run that starts with these registers: two bytes each.
pub fn staran_reach(registers: &[u8], list: &[u8], out: &mut [u8], answer: &mut [u32; 2])
    ensures { record { buffer = out.new; answer = answer.new }
        ≡ reach_left registers.now list.now out.old }
{
    let r = reach::reach(registers, list, out);
    *answer = answers::number_and_count(r);
}

// The text of a list.
pub fn staran_show(list: &[u8], text: &mut [u8], answer: &mut [u32; 2])
    ensures { record { buffer = text.new; answer = answer.new }
        ≡ show_left list.now text.old }
{
    let r = text::showing::show(list, text);
    *answer = answers::number_and_count(r);
}

// The list of a text, with its items.
pub fn staran_make(text: &[u8], list: &mut [u8], items: &mut [u8], answer: &mut [u32; 5])
    ensures { record { list = list.exit.now; items = items.new; answer = answer.new }
        ≡ make_left text.now list.entry.now items.old }
{
    let r = assembly::assemble(text, list, items);
    *answer = answers::five(r);
}

// Reads the blocks of a list or of items.
pub fn staran_read_content(kind: usize, bytes: &[u8], target: &mut [u8], answer: &mut [u32; 3])
    ensures { record { buffer = target.new; answer = answer.new }
        ≡ read_left kind bytes.now target.old }
{
    let r = contents::read_content(kind, bytes, target);
    *answer = answers::three(r);
}

// Writes a list or items as blocks.
pub fn staran_write_content(kind: usize, content: &[u8], out: &mut [u8], answer: &mut [u32; 3])
    ensures { record { buffer = out.new; answer = answer.new }
        ≡ write_left kind content.now out.old }
{
    let r = contents::write_content(kind, content, out);
    *answer = answers::three(r);
}

// Reads a picture into a memory and registers.
pub fn staran_read_picture(
    kind: usize,
    bytes: &[u8],
    memory: &mut [u8],
    registers: &mut [u8],
    answer: &mut [u32; 3],
)
    ensures { record { memory = memory.exit.now; registers = registers.new; answer = answer.new }
        ≡ read_picture_left kind bytes.now memory.entry.now registers.old }
{
    let r = pictures::read_picture(kind, bytes, memory, registers);
    *answer = answers::three(r);
}

// Writes a memory and registers as a picture.
pub fn staran_write_picture(
    kind: usize,
    memory: &[u8],
    registers: &[u8],
    out: &mut [u8],
    answer: &mut [u32; 3],
)
    ensures { record { buffer = out.new; answer = answer.new }
        ≡ write_picture_left kind memory.now registers.now out.old }
{
    let r = pictures::write_picture(kind, memory, registers, out);
    *answer = answers::three(r);
}

// A file with a picture of kind 1 made one of kind 4.
pub fn staran_picture_to_new(bytes: &[u8], out: &mut [u8], answer: &mut [u32; 3])
    ensures { record { buffer = out.new; answer = answer.new }
        ≡ to_new_left bytes.now out.old }
{
    let r = pictures::convert::to_new(bytes, out);
    *answer = answers::three(r);
}

// A file with a picture of kind 4 made one of kind 1.
pub fn staran_picture_to_old(bytes: &[u8], out: &mut [u8], answer: &mut [u32; 3])
    ensures { record { buffer = out.new; answer = answer.new }
        ≡ to_old_left bytes.now out.old }
{
    let r = pictures::convert::to_old(bytes, out);
    *answer = answers::three(r);
}

// The version of the library that is linked, to be held to the header's.
pub fn staran_version() -> u32
    ensures { result ≡ version 5 4 }
{
    327684
}
