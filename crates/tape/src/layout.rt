// Where the three sections of a tape or of a work area start, and the readers over them.
ghost use Rattle.std.specs.Prelude.{◌≡◌, ◌+◌, ◌*◌, ◌≤◌, ◌<◌, length};
ghost use Rattle.tape.specs.Layouts.{code_at, tape_layout, area_layout, value_at, holds, text_behind};

use buffer::held_value;

// Where codes, values and text start in a slice, and how many entries and text bytes there are.
#[derive(Clone, Copy, Debug, PartialEq, Eq)]
pub struct Layout {
    pub codes: usize,
    pub values: usize,
    pub text: usize,
    pub entries: usize,
    pub size: usize,
}

// A slice, and where the sections of the tape in it start. A tape may be shorter than its layout says; `holds` tells. No equality is
// derived, since it would be one of the slices, which may hold more than the tape: whether two tapes are equal is asked of their entries,
// by `judge` but for generated names, and by `merge` but for spans.
#[derive(Clone, Copy, Debug)]
pub struct Tape<'a> {
    pub bytes: &'a [u8],
    pub layout: Layout,
}

impl Tape<'_> {
    // Whether the slice has room for the codes and values of the layout, 1,024 entries at the most.
    pub fn holds(&self) -> bool
        ensures { result ≡ holds self.now.bytes.now self.now.layout }
    {
        let len = self.bytes.len();
        let l = &self.layout;
        l.entries <= 1024
            && l.codes <= len
            && l.values <= len
            && l.entries <= len - l.codes
            && 8 * l.entries <= len - l.values
    }

    pub fn code_at(&self, at: usize) -> u8
        requires { self.now.layout.codes + at < length self.now.bytes.now }
        ensures { result ≡ code_at self.now.bytes.now self.now.layout at }
    {
        self.bytes[self.layout.codes + at]
    }

    pub fn value_at(&self, at: usize) -> u64
        requires { self.now.layout.values + 8 * at + 8 ≤ length self.now.bytes.now }
        ensures { result ≡ value_at self.now.bytes.now self.now.layout at }
    {
        held_value(self.bytes, self.layout.values + 8 * at)
    }
}

// An entry, and the offset of its text.
#[derive(Clone, Copy, Debug, PartialEq, Eq)]
pub struct Place {
    pub at: usize,
    pub text: usize,
}

impl Place {
    // The first entry, in front of all text.
    pub const START: Place = Place { at: 0, text: 0 };
}

// A tape of `entries` entries and `size` text bytes.
pub fn of_tape(entries: usize, size: usize) -> Layout
    requires { entries ≤ 1024 }
    ensures { result ≡ tape_layout entries size }
{
    Layout {
        codes: 8,
        values: 8 + entries,
        text: 8 + 9 * entries,
        entries,
        size,
    }
}

// The work area at `base`: 1,024 codes, 8,192 bytes of values, then the text. A base past every buffer holds nothing: its layout is empty
// and no None, as the definition has it, so that nothing is asked of a caller.
pub fn of_area(base: usize, entries: usize, size: usize) -> Layout
    ensures { result ≡ area_layout base entries size }
{
    if base <= 0x10000 {
        Layout {
            codes: base,
            values: base + 1024,
            text: base + 9216,
            entries,
            size,
        }
    } else {
        Layout {
            codes: 0,
            values: 0,
            text: 0,
            entries: 0,
            size: 0,
        }
    }
}

// The text offset behind `width` bytes, as far as there is text.
pub fn text_behind(size: usize, text: usize, width: u64) -> usize
    requires { text ≤ size }
    ensures { (result ≡ text_behind size text width) × (result ≤ size) }
{
    text + width.min((size - text) as u64) as usize
}
