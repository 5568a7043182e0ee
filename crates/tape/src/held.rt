// A tape that holds its layout, so that each entry of the layout can be read.
ghost use Rattle.std.specs.Prelude.{◌≡◌, ◌<◌, is_some, IfSome};
ghost use Rattle.format.specs.Stands.{part};
ghost use Rattle.tape.specs.Layouts.{Held, holds, code_at, value_at};

use crate::layout::Tape;

// A tape of which `holds` was true. No equality is derived, as of no tape.
#[derive(Clone, Copy, Debug)]
pub struct HeldTape<'a> {
    pub tape: Tape<'a>,
    pub ghost held: { Held tape.bytes.now tape.layout },
}

impl<'a> Tape<'a> {
    // The same tape, where it holds its layout.
    #[tactic(auto, using(crate::proofs::Holding::held))]
    pub fn held(&self) -> Option<HeldTape<'a>>
        ensures exactly { is_some result ≡ holds self.now.bytes.now self.now.layout }
        ensures same { IfSome result (λ h. h.tape ≡ self.now) }
    {
        if self.holds() {
            Some(HeldTape { tape: *self })
        } else {
            None
        }
    }
}

impl<'a> HeldTape<'a> {
    // How many entries the layout has.
    pub fn entries(&self) -> usize
        ensures { result ≡ self.now.tape.layout.entries }
    {
        self.tape.layout.entries
    }

    pub fn codes(&self) -> &'a [u8]
        ensures { result.now ≡ part self.now.tape.bytes.now self.now.tape.layout.codes self.now.tape.layout.entries }
    {
        let start = self.tape.layout.codes;
        &self.tape.bytes[start..start + self.tape.layout.entries]
    }

    // Code, value and text of an entry stand in three sections of the slice, so a loop over entries counts an index, which they share.
    pub fn code_at(&self, at: usize) -> u8
        requires { at < self.now.tape.layout.entries }
        ensures { result ≡ code_at self.now.tape.bytes.now self.now.tape.layout at }
    {
        self.tape.code_at(at)
    }

    pub fn value_at(&self, at: usize) -> u64
        requires { at < self.now.tape.layout.entries }
        ensures { result ≡ value_at self.now.tape.bytes.now self.now.tape.layout at }
    {
        self.tape.value_at(at)
    }
}
