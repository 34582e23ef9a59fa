// The room in which all buffers of a case stand one behind the other, buffer 0 first, however many there are: where each is, and the six that calls are made on.
ghost use Rattle.std.specs.Prelude.{◌<◌, ◌≤◌};

use super::records::length_of;

// The room's length: the longest buffers of the protocol together, and more.
pub(crate) const ROOM: usize = 131072;

// How many bytes stand behind it: as many as the longest of buffers 2 to 5 have together. The two before them always have room.
const SPARE: usize = 109200;

// Both.
pub(crate) const WHOLE: usize = ROOM + SPARE;

// The six buffers of a case: each is lent just the bytes that it has, and at most the longest that the protocol gives it.
#[derive(Drop)]
pub(crate) struct Buffers<'a> {
    pub(crate) memory: &'a mut [u8],
    pub(crate) registers: &'a mut [u8],
    pub(crate) list: &'a mut [u8],
    pub(crate) items: &'a mut [u8],
    pub(crate) out: &'a mut [u8],
    pub(crate) file: &'a mut [u8],
}

// Where buffer `k`, which starts at `s`, ends, within the room.
pub(crate) fn end_of(record: &[u8], k: usize, s: usize) -> usize
    requires { s ≤ 131072 }
    ensures { (s ≤ result) × (result ≤ 131072) }
{
    (s + length_of(record, k)).min(ROOM)
}

// Where buffer `k` starts.
pub(crate) fn start_of(record: &[u8], k: usize) -> usize
    ensures { result ≤ 131072 }
{
    let mut s: usize = 0;
    for j in 0..k {
        s = end_of(record, j, s);
    }
    s
}

// At most `most` bytes of buffer `k` off the front of what is left, and what stands behind it. What of them has no room is zeros, and its own.
fn cut<'a>(
    record: &[u8],
    k: usize,
    most: usize,
    left: &'a mut [u8],
) -> (&'a mut [u8], &'a mut [u8]) {
    let length = length_of(record, k);
    let lent = length.min(most);
    let all = left.len();
    let inside = length.min(all.saturating_sub(SPARE));
    let (whole, behind) = left.split_at_mut(inside.max(lent).min(all));
    let here = whole.len();
    let (buffer, _) = whole.split_at_mut(lent.min(here));
    if let Some(outside) = buffer.get_mut(inside..) {
        outside.fill(0);
    }
    (buffer, behind)
}

// All six.
pub(crate) fn buffers_in<'a>(record: &[u8], room: &'a mut [u8]) -> Buffers<'a> {
    let (memory, room) = cut(record, 0, 8200, room);
    let (registers, room) = cut(record, 1, 104, room);
    let (list, room) = cut(record, 2, 33000, room);
    let (items, room) = cut(record, 3, 33000, room);
    let (out, room) = cut(record, 4, 8200, room);
    let (file, _) = cut(record, 5, 35000, room);
    Buffers {
        memory,
        registers,
        list,
        items,
        out,
        file,
    }
}
