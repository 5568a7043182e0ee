// The cursor of a walk that writes.
ghost use Rattle.std.specs.Prelude.{◌≡◌};
ghost use Rattle.area.specs.Area.{area_in, append_in, put_in, put_text_in, append_out_in, patch_in, empty_at};
ghost use Rattle.tape.specs.Layouts.{area_layout};
ghost use Rattle.definition.specs.Substitute.{generated};
ghost use Rattle.walk_state.specs.Writing.{Makes, area_at, state, state_at};

use area::Writer;
use tape::layout::{Place, Tape, of_area};

// The next place of the body or the condition that is walked, the slice that the output is in and its writer there, and what was
// charged. It is lent from node to node. A walk that is refused leaves in it what was charged until then. It derives neither Debug nor
// equality, since what it holds is a lent slice.
#[derive(Drop)]
pub struct Cursor<'a> {
    pub place: Place,
    pub bytes: &'a mut [u8],
    pub out: Writer,
    pub charged: u32,
}

impl<'a> Cursor<'a> {
    // A walk at the start of a tape, whose output goes to the area at the start of a slice.
    pub fn new(bytes: &'a mut [u8]) -> Cursor<'a>
        ensures same_slice { result.bytes.ghost_name ≡ bytes.entry.ghost_name }
        ensures unchanged { result.bytes.now ≡ bytes.old }
        ensures started { state_at result ≡ state (record { at = 0; text = 0 }) (empty_at 0) 0 }
    {
        Cursor {
            place: Place::START,
            bytes,
            out: area::empty(0),
            charged: 0,
        }
    }

    // Back to the start, with nothing written and nothing charged.
    pub fn restart(&mut self)
        ensures same_slice { self.new.bytes.ghost_name ≡ self.old.bytes.ghost_name }
        ensures unchanged { self.new.bytes.now ≡ self.old.bytes.now }
        ensures started { state_at self.new ≡ state (record { at = 0; text = 0 }) (empty_at 0) 0 }
    {
        self.place = Place::START;
        self.out = area::empty(0);
        self.charged = 0;
    }

    // What the area holds, as a tape.
    pub fn written(&self) -> Tape<'_>
        ensures its_bytes { result.bytes.now ≡ self.now.bytes.now }
        ensures its_layout { result.layout ≡ area_layout self.now.out.base self.now.out.n self.now.out.t }
    {
        Tape {
            bytes: self.bytes,
            layout: of_area(self.out.base, self.out.n, self.out.t),
        }
    }

    // Appends a run of entries, given as the three parts of a tape that spell it.
    pub fn append(&mut self, codes: &[u8], values: &[u8], text: &[u8])
        ensures { Makes self.old self.new (append_in codes.now values.now text.now (area_at self.old)) }
    {
        let out = self.out;
        self.out = area::append_run(self.bytes, out, codes, values, text);
    }

    // Appends an entry without text.
    pub fn put(&mut self, code: u8, value: u64)
        ensures { Makes self.old self.new (put_in code value (area_at self.old)) }
    {
        let out = self.out;
        self.out = area::put(self.bytes, out, code, value);
    }

    // Appends an entry with text; its value is the text's length.
    pub fn put_text(&mut self, code: u8, text: &[u8])
        ensures { Makes self.old self.new (put_text_in code text.now (area_at self.old)) }
    {
        let out = self.out;
        self.out = area::put_text(self.bytes, out, code, text);
    }

    // Appends an entry whose text is the name that a binder gets in the call at `start` of a file.
    pub fn put_generated(&mut self, code: u8, name: &[u8], start: u32, file: u16)
        ensures { Makes self.old self.new (put_text_in code (generated name.now start file) (area_at self.old)) }
    {
        let out = self.out;
        self.out = area::put_generated(self.bytes, out, code, name, start, file);
    }

    // Appends all that another walk wrote, behind what a writer of this slice has.
    pub fn append_out(&mut self, out: Writer, other: &Cursor)
        ensures { Makes self.old self.new (append_out_in (area_at other.now) (area_in out self.old.bytes.now)) }
    {
        self.out = area::append_out(self.bytes, out, other.bytes, other.out);
    }

    // Adds to the value of the entry at `index`: a list's count, when items are put behind it.
    pub fn patch_count(&mut self, index: usize, added: u64)
        ensures { Makes self.old self.new (patch_in index added (area_at self.old)) }
    {
        area::patch_count(self.bytes, self.out, index, added);
    }
}
