// The entries of the rewritten tape, put one behind the other.
ghost use Rattle.std.specs.Prelude.{◌≤◌};

use arrayvec::ArrayVec;
use buffer::{value_bytes, write};
use grammar::code;

// A right side that is still to come: the entry where it begins, and the span of its Or.
#[derive(Clone, Copy, Debug, PartialEq, Eq, Default)]
pub struct Side {
    pub at: usize,
    pub span: u64,
}

// The codes and values of a tape of `n` entries, as far as they are put into its buffer, and the entry that comes next. It holds a slice
// that is lent to be written, so it is neither copied nor compared.
#[derive(Drop)]
pub struct Rewriting<'a> {
    pub out: &'a mut [u8],
    pub n: usize,
    pub next: usize,
    pub ghost small: { n ≤ 1024 },
}

impl Rewriting<'_> {
    ghost use Rattle.std.specs.Prelude.{[], ◌∷◌, ◌≤◌};
    ghost use Rattle.format.specs.Entry.{entry};
    ghost use Rattle.de_morgan.specs.Rewritten.{heads_of, EntriesPut, SideBegun};

    // Puts the next entry's code and value.
    #[tactic(auto, unfolding(crate::specs::Rewritten::put_heads))]
    fn put(&mut self, code: u8, value: u64)
        requires { self.old.next ≤ 4099 }
        ensures { EntriesPut (entry code value ∷ []) self.old self.new }
    {
        write(self.out, 8 + self.next, &[code]);
        write(self.out, 8 + self.n + 8 * self.next, &value_bytes(value));
        self.next += 1;
    }

    // Puts what an entry becomes.
    #[tactic(auto, unfolding(crate::specs::Rewritten::heads_of))]
    pub fn put_entry(&mut self, code: u8, value: u64)
        requires { self.old.next ≤ 4097 }
        ensures { EntriesPut (heads_of code value) self.old self.new }
    {
        if code != code::OR {
            self.put(code, value);
            return;
        }
        self.put(code::NOT, value);
        self.put(code::AND, value);
        self.put(code::NOT, value);
    }

    // Puts the negation in front of entry `at`, if the nearest right side begins there. The nearest is the last that waits: they begin in
    // that order, and at most one at an entry.
    pub fn begin_side<const N: usize>(&mut self, sides: &mut ArrayVec<Side, N>, at: usize)
        requires { self.old.next ≤ 4096 }
        ensures { SideBegun at sides.old.items sides.new.items self.old self.new }
    {
        let Some(&side) = sides.as_slice().last() else {
            return;
        };
        if side.at == at {
            sides.pop();
            self.put(code::NOT, side.span);
        }
    }
}
