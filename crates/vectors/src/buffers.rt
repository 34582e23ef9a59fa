// How a case's buffers are filled, shaped, formatted and patched, and the digest of one.
ghost use Rattle.std.specs.Prelude.{◌<◌, ◌≤◌};

// The next number of the generator.
fn next(x: u32) -> u32 {
    let a = x ^ (x << 13);
    let b = a ^ (a >> 17);
    b ^ (b << 5)
}

// The buffer filled from the generator at `x`; answers the generator's number afterwards.
pub(crate) fn fill(buffer: &mut [u8], x: u32) -> u32 {
    let mut now = x;
    for byte in buffer {
        now = next(now);
        *byte = (now % 256) as u8;
    }
    now
}

// How a list is made good.
#[derive(Clone, Copy, PartialEq)]
pub(crate) enum Shape {
    // The first six kinds of instruction, each as often.
    Even,
    // The same, but a deliver or resolve in eight of 256.
    Rare,
    // All seven kinds, and modes of the mode registers.
    Modes,
}

// The shape of this number; 0 leaves a list as it is.
pub(crate) fn shape_of(number: u8) -> Option<Shape> {
    match number {
        0 => None,
        1 => Some(Shape::Even),
        3 => Some(Shape::Modes),
        _ => Some(Shape::Rare),
    }
}

// A good instruction's sixth byte: 0, or a size of at most 8 and a place below it.
fn sized(x: u8) -> u8 {
    let size = x % 9;
    if size == 0 {
        0
    } else {
        16 * size + (x / 16 % size) % 16
    }
}

// A good instruction's kind.
fn kind_of(kind: u8, rare: u8, shape: Shape) -> u8 {
    match shape {
        Shape::Even => kind % 6,
        Shape::Modes => kind % 7,
        Shape::Rare if rare < 248 => kind % 4,
        Shape::Rare => 4 + kind % 2,
    }
}

// A good instruction's mode tag: 1, or also that of a mode register.
fn tag_of(tag: u8, shape: Shape) -> u8 {
    match shape {
        Shape::Modes => 1 + tag % 3,
        Shape::Even | Shape::Rare => 1,
    }
}

// An instruction made good from eight bytes that may be anything. A mode is given with tag 1 alone.
fn shaped(r: [u8; 8], shape: Shape) -> [u8; 8] {
    let [r0, r1, r2, r3, r4, r5, r6, r7] = r;
    let kind = kind_of(r0, r2, shape);
    if kind == 6 {
        return [6, 0, 2 + r2 % 2, r3, 0, 0, 0, 0];
    }
    let stores = kind == 2 || kind == 3;
    let reads = kind == 0 || kind == 1 || kind == 4;
    let place = if stores { 1 + r1 % 4 } else { r1 % 5 };
    let mut b = [kind, 0, 0, 0, 0, 0, 0, 0];
    if stores || reads {
        b[1] = place;
    }
    if stores || (reads && place == 0) {
        b[2] = tag_of(r2, shape);
        b[3] = if b[2] == 1 { r3 } else { 0 };
        b[4] = r4;
    }
    if kind != 5 {
        b[5] = r5;
    }
    if reads {
        b[6] = sized(r6);
    }
    if kind == 0 {
        b[7] = 16 * ((r7 / 16) % 5) + r7 % 16;
    }
    b
}

// Every whole instruction of a list made good.
pub(crate) fn make_good(list: &mut [u8], shape: Shape) {
    let (instructions, _) = list.as_chunks_mut::<8>();
    for instruction in instructions {
        *instruction = shaped(*instruction, shape);
    }
}

// The number `x` put at `at` of a block, low byte first.
// Of this crate, here and below, and not of blocks: a case is made without what it tries.
fn two(block: &mut [u8; 512], at: usize, x: usize)
    requires { at < 511 }
{
    let [low, high] = ((x % 65536) as u16).to_le_bytes();
    block[at] = low;
    block[at + 1] = high;
}

// The sums of a block put at its end.
fn seal_block(block: &mut [u8; 512]) {
    let mut s1: usize = 0;
    let mut s2: usize = 0;
    for x in &block[..508] {
        s1 = (s1 + usize::from(*x)) % 65535;
        s2 = (s2 + s1) % 65535;
    }
    two(block, 508, s1);
    two(block, 510, s2);
}

// The file's block of this number sealed, where it has one among its first hundred.
pub(crate) fn seal(file: &mut [u8], number: usize) {
    let (blocks, _) = file.as_chunks_mut::<512>();
    match blocks.get_mut(number) {
        Some(block) if number < 100 => seal_block(block),
        _ => {}
    }
}

// A block made good: its numbers, and zeros in those of the next four bytes and of its payload that it does not use.
fn format_block(block: &mut [u8; 512], kind: usize, number: usize, count: usize, used: usize) {
    two(block, 0, kind);
    two(block, 2, number);
    two(block, 4, count);
    two(block, 6, used);
    block[8..12].fill(0);
    block[12 + used.min(496)..508].fill(0);
    seal_block(block);
}

// Every whole block of a file made good, the last using `used` bytes: all before the last are full.
pub(crate) fn format(file: &mut [u8], kind: usize, used: usize) {
    let (blocks, _) = file.as_chunks_mut::<512>();
    let count = blocks.len();
    for (n, block) in blocks.iter_mut().enumerate() {
        let used = if n + 1 == count { used } else { 496 };
        format_block(block, kind, n, count, used);
    }
}

// As many of the bytes as there is room for, put into the buffer at `to`.
// Byte by byte: copy_from_slice asks that both are of one length, which would have to be made first.
pub(crate) fn patch(buffer: &mut [u8], to: usize, bytes: &[u8]) {
    if let Some(place) = buffer.get_mut(to..) {
        for (x, y) in place.iter_mut().zip(bytes) {
            *x = *y;
        }
    }
}

// The buffer's bytes behind its first `every` made to repeat those, again and again.
pub(crate) fn repeat(buffer: &mut [u8], every: usize) {
    for i in every..buffer.len() {
        buffer[i] = buffer[i - every];
    }
}

// Two remainders to primes, under which a single changed byte shows.
pub(crate) fn digest(buffer: &[u8]) -> u32 {
    let mut d1: u32 = 1;
    let mut d2: u32 = 1;
    for x in buffer {
        d1 = (d1 * 251 + u32::from(*x)) % 65521;
        d2 = (d2 * 263 + u32::from(*x)) % 65519;
    }
    65536 * d1 + d2
}
