// What is asked of one field, by its start and its width: for every builder.
ghost use Rattle.std.specs.Prelude.{◌≡◌, ◌&&◌, ◌||◌, ◌+◌, ltb};
ghost use Rattle.builders.specs.Field.{beyond};

// Is the width not 1 to `most`?
pub fn wrong_width(n: u32, most: u32) -> bool
    ensures { result ≡ (ltb n 1 || ltb most n) }
{
    n < 1 || n > most
}

// Does a field that starts at `a` end beyond bit 255? Added as 64-bit numbers, so that nothing wraps round.
pub fn beyond(a: u32, n: u32) -> bool
    ensures { result ≡ beyond a n }
{
    u64::from(a) + u64::from(n) > 256
}

// Do two fields of one width have a bit in common? Added as 64-bit numbers too.
pub fn meets(a: u32, s: u32, n: u32) -> bool
    ensures { result ≡ (ltb s (a + n) && ltb a (s + n)) }
{
    u64::from(s) < u64::from(a) + u64::from(n) && u64::from(a) < u64::from(s) + u64::from(n)
}
