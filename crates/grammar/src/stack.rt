// What is still to come behind an entry, in eight bytes: a scan keeps a stack of these, the next on top.
ghost use Rattle.std.specs.Prelude.{◌≡◌, ◌+◌, ◌≤◌, ◌<◌, drop};
ghost use Rattle.arrayvec.specs.ArrayVec.{array_vec_len};
ghost use Rattle.grammar.specs.Stack.{stack_of};

use crate::codes::{EACH, is_each};
use arrayvec::ArrayVec;

// The sorts of `word`, the first in its lowest two octal digits, and the last of them `more` times more; all below `nesting` nodes and
// `calls` calls.
#[derive(Clone, Copy, Debug, Default, PartialEq, Eq)]
pub struct Cell {
    pub word: u32,
    pub more: u16,
    pub nesting: u8,
    pub calls: u8,
}

impl Cell {
    ghost use Rattle.std.specs.Prelude.{◌≡◌, ◌≤◌, ◌<◌, drop};
    ghost use Rattle.grammar.specs.Grammar.{sorts_of};
    ghost use Rattle.grammar.specs.Waits.{waits, counted};
    ghost use Rattle.grammar.specs.Words.{follows_of};
    ghost use Rattle.grammar.specs.Stack.{cell, waits_of, waits_by, waits_left};

    // A tree of a sort.
    pub fn of(sort: u64) -> Cell
        requires { sort < 32 }
        ensures { result ≡ cell sort 0 0 0 }
    {
        Cell {
            word: sort as u32,
            more: 0,
            nesting: 0,
            calls: 0,
        }
    }

    // What follows an entry with this value, below `nesting` nodes and `calls` calls.
    #[tactic(auto, using(crate::proofs::Cells::counted_each, crate::proofs::Cells::follow_each), unfolding(crate::specs::Words::follows_of, crate::specs::Stack::waits_of))]
    pub(crate) fn following(follows: u32, value: u64, nesting: u8, calls: u8) -> Option<Cell>
        requires { counted (follows_of follows) value ≤ 65536 }
        ensures { waits_by result ≡ waits nesting calls (sorts_of (follows_of follows) value) }
    {
        if follows == 0 {
            return None;
        }
        if !is_each(u64::from(follows)) {
            return Some(Cell {
                word: follows,
                more: 0,
                nesting,
                calls,
            });
        }
        if value == 0 {
            return None;
        }
        Some(Cell {
            word: follows - EACH,
            more: (value - 1) as u16,
            nesting,
            calls,
        })
    }

    // Takes its first sort off: the others are left, or the last one once less, or nothing, which is false.
    #[tactic(auto, using(crate::proofs::Cells::rest_word, crate::proofs::Cells::rest_more, crate::proofs::Cells::rest_none))]
    fn drop_first(&mut self) -> bool
        ensures { waits_left result self.new ≡ drop 1 (waits_of self.old) }
    {
        if 64 <= self.word {
            self.word /= 64;
            return true;
        }
        if 0 < self.more {
            self.more -= 1;
            return true;
        }
        false
    }
}

// Takes the first sort off the top of a stack.
#[tactic(auto, using(crate::proofs::Cells::dropped, crate::proofs::Cells::used_up))]
pub(crate) fn drop_first<const N: usize>(stack: &mut ArrayVec<Cell, N>)
    requires { 0 < array_vec_len stack.old }
    ensures stack { stack_of stack.new.items ≡ drop 1 (stack_of stack.old.items) }
    ensures least { array_vec_len stack.old ≤ array_vec_len stack.new + 1 }
    ensures most { array_vec_len stack.new ≤ array_vec_len stack.old }
{
    let last = stack.len() - 1;
    let Some(top) = stack.get_mut(last) else {
        return;
    };
    if !top.drop_first() {
        stack.pop();
    }
}
