// A work area: where an answer's entries are appended, and the tape that is made of it.
//
// An area at base b of a slice is 12,288 bytes: 1,024 codes at b, 1,024 values of 8 bytes at b + 1024, and 3,072 bytes of text at
// b + 9216. Several areas may stand in one slice; what a function here writes stays within the area at the base it is given.
// When an area has no room for what is to be appended, or its slice is too short for it, the writer says so from then on, and
// nothing more is written: the walk goes on, since a refusal that it meets later comes first.
#![tactic(auto)]

ghost use Rattle.std.specs.Prelude.{◌≡◌, ◌+◌, ◌*◌, ◌<◌, ◌≤◌, [], length};
ghost use Rattle.std.proofs.lemmas.List.Edits.{sets};
ghost use Rattle.format.specs.Entry.{le};
ghost use Rattle.format.specs.Stands.{part};
ghost use Rattle.definition.specs.Substitute.{in_file, generated};
ghost use Rattle.buffer.specs.Buffer.{Decides};
ghost use Rattle.area.specs.Area.{area_in, empty_at, overflow_of, grown, headed, RoomFor, append_in, put_in, put_text_in, append_out_in, patch_in, finished_in};

use buffer::message::Message;

// How long an area is.
pub const AREA_SIZE: usize = 12288;

// A writer's state: its area's base, how many entries and text bytes stand there, and whether they were too many. It stands beside its
// slice, as `s, out`, and does not hold it: a walk's cursor holds both, and a struct with a `&mut` in a struct with one would not tell
// whoever lent the slice what it holds in the end.
#[derive(Clone, Copy, Debug, PartialEq, Eq)]
pub struct Writer {
    pub base: usize,
    pub n: usize,
    pub t: usize,
    pub overflowed: bool,
}

// The writer of an area with nothing in it.
pub fn empty(base: usize) -> Writer
    ensures { result ≡ empty_at base }
{
    Writer {
        base,
        n: 0,
        t: 0,
        overflowed: false,
    }
}

// The writer whose entries were too many.
fn overflow(out: Writer) -> Writer
    ensures { result ≡ overflow_of out }
{
    Writer {
        overflowed: true,
        ..out
    }
}

// Whether an area at `base` ends within `size` bytes.
fn has_area(size: usize, base: usize) -> bool
    ensures { Decides (base + 12288 ≤ size) result }
{
    AREA_SIZE <= size && base <= size - AREA_SIZE
}

// Whether the area stands within `size` bytes, and has room for `entries` more entries with `bytes` bytes of text.
fn has_room(size: usize, out: Writer, entries: usize, bytes: usize) -> bool
    ensures { Decides (RoomFor size out entries bytes) result }
{
    !out.overflowed
        && out.n <= 1024
        && entries <= 1024 - out.n
        && out.t <= 3072
        && bytes <= 3072 - out.t
        && has_area(size, out.base)
}

// Writes the codes and values of entries whose text, of `bytes` bytes, stands there already. Room is asked for, here and below, and is no
// part of a writer: how much is wanted is another each time.
fn write_heads(s: &mut [u8], out: Writer, codes: &[u8], values: &[u8], bytes: usize) -> Writer
    requires { RoomFor (length s.old) out (length codes.now) bytes }
    ensures { area_in result s.new ≡ area_in (grown out (length codes.now) bytes) (headed s.old out codes.now values.now) }
{
    let base = out.base;
    let n = out.n;
    buffer::write(s, base + n, codes);
    buffer::write(s, base + 1024 + 8 * n, values);
    Writer {
        base,
        n: n + codes.len(),
        t: out.t + bytes,
        overflowed: false,
    }
}

// Writes a run for which there is room.
#[tactic(auto, using(crate::proofs::Room::append_room), unfolding(crate::specs::Area::grow_in))]
fn write_run(s: &mut [u8], out: Writer, codes: &[u8], values: &[u8], text: &[u8]) -> Writer
    requires { RoomFor (length s.old) out (length codes.now) (length text.now) × (length values.now ≡ 8 * length codes.now) }
    ensures { area_in result s.new ≡ append_in codes.now values.now text.now (area_in out s.old) }
{
    buffer::write(s, out.base + 9216 + out.t, text);
    write_heads(s, out, codes, values, text.len())
}

// Whether there is room for a run whose parts have these lengths, and it has 8 bytes for each value.
fn has_run_room(size: usize, out: Writer, codes: usize, values: usize, text: usize) -> bool
    ensures { Decides (RoomFor size out codes text × (values ≡ 8 * codes)) result }
{
    has_room(size, out, codes, text) && values == 8 * codes
}

// Appends a run of entries, given as the three parts of a tape that spell it.
#[tactic(auto, using(crate::proofs::Room::append_full), unfolding(crate::specs::Area::overflow_in))]
pub fn append_run(s: &mut [u8], out: Writer, codes: &[u8], values: &[u8], text: &[u8]) -> Writer
    ensures { area_in result s.new ≡ append_in codes.now values.now text.now (area_in out s.old) }
{
    if has_run_room(s.len(), out, codes.len(), values.len(), text.len()) {
        write_run(s, out, codes, values, text)
    } else {
        overflow(out)
    }
}

// Appends an entry without text. Its code and its value are two parameters, here and wherever one is written, since they stand in two
// sections; what reads an entry and wants more of it has a `Head` (grammar, profile).
#[tactic(auto, unfolding(crate::specs::Area::put_in))]
pub fn put(s: &mut [u8], out: Writer, code: u8, value: u64) -> Writer
    ensures { area_in result s.new ≡ put_in code value (area_in out s.old) }
{
    append_run(s, out, &[code], &buffer::value_bytes(value), b"")
}

// Appends an entry with text; its value is the text's length.
#[tactic(auto, unfolding(crate::specs::Area::put_text_in))]
pub fn put_text(s: &mut [u8], out: Writer, code: u8, text: &[u8]) -> Writer
    ensures { area_in result s.new ≡ put_text_in code text.now (area_in out s.old) }
{
    append_run(
        s,
        out,
        &[code],
        &buffer::value_bytes(text.len() as u64),
        text,
    )
}

// How many bytes a generated name has for its file: none in file 0.
#[tactic(auto, using(crate::proofs::Generated::length_in_file, crate::proofs::Generated::length_file_0, buffer::proofs::Decimals::at_most_10_digits))]
fn file_length(file: u16) -> usize
    ensures { result ≡ length (in_file file []) }
{
    if file == 0 {
        return 0;
    }
    1 + buffer::digit_count(file as u32)
}

// How many bytes a generated name has.
#[tactic(auto, using(crate::proofs::Generated::length_generated, crate::proofs::Generated::file_short, buffer::proofs::Decimals::at_most_10_digits))]
fn generated_length(name: &[u8], start: u32, file: u16) -> usize
    ensures { result ≡ length (generated name.now start file) }
{
    name.len() + 1 + buffer::digit_count(start) + file_length(file)
}

// Writes `name`, `$`, `start` and, in a file above 0, `#` and `file` at the front of `text`, as far as it reaches.
#[tactic(auto, using(crate::proofs::Generated::file_0_written, crate::proofs::Generated::in_file_written))]
fn write_generated(text: &mut [u8], name: &[u8], start: u32, file: u16)
    ensures { text.new ≡ sets text.old 0 (generated name.now start file) }
{
    let mut written = Message::new(text);
    written.put(name);
    written.put(b"$");
    written.put_number(start);
    if file > 0 {
        written.put(b"#");
        written.put_number(file as u32);
    }
}

// Appends an entry with a generated name of `bytes` bytes, for which there is room.
#[tactic(auto, using(crate::proofs::Generated::put_text_room, buffer::proofs::Lent::sets_lent_to))]
fn generate(
    s: &mut [u8],
    out: Writer,
    code: u8,
    name: &[u8],
    start: u32,
    file: u16,
    bytes: usize,
) -> Writer
    requires { RoomFor (length s.old) out 1 bytes × (bytes ≡ length (generated name.now start file)) }
    ensures { area_in result s.new ≡ put_text_in code (generated name.now start file) (area_in out s.old) }
{
    let from = out.base + 9216 + out.t;
    let end = from + bytes;
    write_generated(&mut s[from..end], name, start, file);
    write_heads(s, out, &[code], &buffer::value_bytes(bytes as u64), bytes)
}

// Appends an entry whose text is the name that a binder gets in the call at `start` of a file.
#[tactic(auto, using(crate::proofs::Generated::put_text_full), unfolding(crate::specs::Area::overflow_in))]
pub fn put_generated(
    s: &mut [u8],
    out: Writer,
    code: u8,
    name: &[u8],
    start: u32,
    file: u16,
) -> Writer
    ensures { area_in result s.new ≡ put_text_in code (generated name.now start file) (area_in out s.old) }
{
    let bytes = generated_length(name, start, file);
    if has_room(s.len(), out, 1, bytes) {
        generate(s, out, code, name, start, file, bytes)
    } else {
        overflow(out)
    }
}

// The `count` bytes of `s` from `from` on.
fn section(s: &[u8], from: usize, count: usize) -> &[u8]
    requires { from + count ≤ length s.now }
    ensures { result.now ≡ part s.now from count }
{
    &s[from..from + count]
}

// Appends all that an area holds, one of another slice.
#[tactic(auto, using(crate::proofs::Room::append_out_whole))]
fn append_whole(s: &mut [u8], out: Writer, from: &[u8], other: Writer) -> Writer
    requires { RoomFor (length from.now) other 0 0 }
    ensures { area_in result s.new ≡ append_out_in (area_in other from.now) (area_in out s.old) }
{
    let base = other.base;
    append_run(
        s,
        out,
        section(from, base, other.n),
        section(from, base + 1024, 8 * other.n),
        section(from, base + 9216, other.t),
    )
}

// Appends all that was written to another area, one of another slice.
#[tactic(auto, using(crate::proofs::Room::append_out_none), unfolding(crate::specs::Area::overflow_in))]
pub fn append_out(s: &mut [u8], out: Writer, from: &[u8], other: Writer) -> Writer
    ensures { area_in result s.new ≡ append_out_in (area_in other from.now) (area_in out s.old) }
{
    if has_room(from.len(), other, 0, 0) {
        append_whole(s, out, from, other)
    } else {
        overflow(out)
    }
}

// Adds to the value of an entry that the area holds.
#[tactic(auto, using(crate::proofs::Patch::patch_there))]
fn add_value(s: &mut [u8], out: Writer, index: usize, added: u64)
    requires { RoomFor (length s.old) out 0 0 × (index < out.n) }
    ensures { area_in out s.new ≡ patch_in index added (area_in out s.old) }
{
    let at = out.base + 1024 + 8 * index;
    let value = buffer::read_value(s, at).wrapping_add(added);
    buffer::write(s, at, &buffer::value_bytes(value));
}

// Adds to the value of the entry at `index`: a list's count, when items are put behind it.
#[tactic(auto, using(crate::proofs::Patch::patch_none))]
pub fn patch_count(s: &mut [u8], out: Writer, index: usize, added: u64)
    ensures { area_in out s.new ≡ patch_in index added (area_in out s.old) }
{
    if index < out.n && has_room(s.len(), out, 0, 0) {
        add_value(s, out, index, added);
    }
}

// Writes the two sizes of a tape.
fn write_sizes(res: &mut [u8], n: usize, t: usize)
    ensures { res.new ≡ sets (sets res.old 0 (le 4 n)) 4 (le 4 t) }
{
    buffer::write_size(res, 0, n);
    buffer::write_size(res, 4, t);
}

// Writes the tape of what an area holds, and zeros behind it.
#[tactic(auto, using(crate::proofs::Tape::tape_written))]
fn write_tape(s: &[u8], out: Writer, res: &mut [u8])
    requires { RoomFor (length s.now) out 0 0 }
    ensures { res.new ≡ finished_in (area_in out s.now) res.old }
{
    let base = out.base;
    let n = out.n;
    let t = out.t;
    write_sizes(res, n, t);
    buffer::write(res, 8, section(s, base, n));
    buffer::write(res, 8 + n, section(s, base + 1024, 8 * n));
    buffer::write(res, 8 + 9 * n, section(s, base + 9216, t));
    buffer::zero_from(res, 8 + 9 * n + t);
}

// Writes the tape of the entries, and zeros behind it; zeros alone where they were too many.
#[tactic(auto, using(crate::proofs::Tape::none_written))]
pub fn finish(s: &[u8], out: Writer, res: &mut [u8])
    ensures { res.new ≡ finished_in (area_in out s.now) res.old }
{
    if has_room(s.len(), out, 0, 0) {
        write_tape(s, out, res);
    } else {
        buffer::zero(res);
    }
}
