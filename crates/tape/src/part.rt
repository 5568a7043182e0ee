// Parts of lent tapes.
ghost use Rattle.std.specs.Prelude.{◌≡◌, ◌+◌, ◌*◌, min};
ghost use Rattle.format.specs.Stands.{part};
ghost use Rattle.tape.specs.Pick.{pick};

// The index `count` bytes behind `start`; the largest number, which is past every slice, where there is no such index.
pub fn behind(start: usize, count: usize) -> usize
    ensures { result ≡ min (start + count) 18446744073709551615 }
{
    start.saturating_add(count)
}

// The same `count` values of 8 bytes behind it.
pub fn values_behind(start: usize, count: usize) -> usize
    ensures { result ≡ min (start + 8 * count) 18446744073709551615 }
{
    start.saturating_add(count.saturating_mul(8))
}

// The `len` bytes from `start` on of one of two tapes, of the call's or else of the definition's, as far as it reaches.
pub fn part<'a>(
    definition: &'a [u8],
    call: &'a [u8],
    of_call: bool,
    start: usize,
    len: usize,
) -> &'a [u8]
    ensures { result.now ≡ part (pick of_call call.now definition.now) start len }
{
    if of_call {
        part_of(call, start, len)
    } else {
        part_of(definition, start, len)
    }
}

// The `len` bytes from `start` on, as far as the slice reaches.
pub fn part_of(s: &[u8], start: usize, len: usize) -> &[u8]
    ensures { result.now ≡ part s.now start len }
{
    let start = start.min(s.len());
    let len = len.min(s.len() - start);
    &s[start..start + len]
}
