// What one entry does to a scan.
ghost use Rattle.std.specs.Prelude.{◌≡◌, ◌&&◌, ◌||◌, ◌++◌, ◌+◌, ◌≤◌, ◌<◌, min, not, eqb, ltb, drop};
ghost use Rattle.arrayvec.specs.ArrayVec.{array_vec_len};
ghost use Rattle.grammar.specs.Stack.{stack_of, wait_of, waits_by};
ghost use Rattle.grammar.specs.Waits.{accepts, below, counted, exceeds, is_limited, longest_in, passes, valued};
ghost use Rattle.grammar.specs.Words.{calls_of, follows_of, longest_of, nesting_of, width_of};

use crate::codes::{in_sort, is_each};
use crate::rules::{CodeRule, NodeRule, SortRule, TextRule};
use crate::stack::{Cell, drop_first};
use arrayvec::ArrayVec;
use std::num::NonZeroU64;

// An entry's code and value and the length of its text, with what a table says of it at a place of a sort: of the sort and of the code, and
// the word of what follows.
#[derive(Clone, Copy, Debug, PartialEq, Eq)]
pub struct Head {
    pub code: u8,
    pub value: u64,
    pub text: u64,
    pub sort: SortRule,
    pub row: CodeRule,
    pub follows: u32,
}

// How many bytes of text an entry takes, as `kind::text_width` has it by the code: here by its rule, which a scan has at hand.
#[tactic(auto, unfolding(format::specs::Tape::text_width))]
pub fn width_of(row: CodeRule, value: u64) -> u64
    ensures { result ≡ width_of row value }
{
    match row.text {
        TextRule::NoText => 0,
        TextRule::Short | TextRule::Long | TextRule::Name => value,
    }
}

// How many entries come behind one by its count.
#[tactic(auto, unfolding(crate::specs::Words::follows_of))]
fn count_of(follows: u32, value: u64) -> u64
    ensures { result ≡ counted (follows_of follows) value }
{
    if is_each(u64::from(follows)) {
        value
    } else {
        0
    }
}

// Whether a value is one of the first `values` numbers, or may be any.
fn is_valued(values: u8, value: u64) -> bool
    ensures { result ≡ valued values value }
{
    (values == 0) | (value < u64::from(values))
}

// Whether an entry may stand at its place, with `left` entries behind it and `room` bytes of text left. Most entries bring nothing.
#[tactic(auto, unfolding(crate::specs::Words::follows_of))]
pub fn accepts(left: usize, room: usize, e: Head) -> bool
    ensures { result ≡ accepts left room e }
{
    in_sort(e.sort, e.code)
        && is_valued(e.row.values, e.value)
        && e.text <= room as u64
        && (e.follows == 0 || count_of(e.follows, e.value) <= left as u64)
}

// The longest text: `longest` for a name.
fn longest_of(longest: u64, row: CodeRule) -> u64
    ensures { result ≡ longest_of longest row }
{
    match row.text {
        TextRule::Name => longest,
        TextRule::Long => 255,
        TextRule::NoText | TextRule::Short => 64,
    }
}

// Whether a figure is passed by adding to it. Most entries add nothing.
fn passes(most: u8, n: u8, more: u8) -> bool
    ensures { result ≡ passes most n more }
{
    more != 0 && u16::from(most) < u16::from(n) + u16::from(more)
}

// Whether an entry is a count of more than 16 in a short list.
fn too_many(e: Head) -> bool
    ensures { result ≡ (e.sort.few && ltb 16 e.value) }
{
    e.sort.few & (16 < e.value)
}

// Whether a text is longer than an input's may be; `longest`, the longest of a name, is None where that is not asked.
fn exceeds_text(longest: Option<NonZeroU64>, e: Head) -> bool
    ensures { result ≡ (is_limited (longest_in longest) && ltb (longest_of (longest_in longest) e.row) e.text) }
{
    match longest {
        Some(names) => e.text != 0 && longest_of(names.get(), e.row) < e.text,
        None => false,
    }
}

// Whether it passes a figure of an input.
fn exceeds_input(longest: Option<NonZeroU64>, e: Head) -> bool
    ensures { result ≡ (is_limited (longest_in longest) && (e.sort.few && ltb 16 e.value) || is_limited (longest_in longest) && ltb (longest_of (longest_in longest) e.row) e.text) }
{
    longest.is_some() && (too_many(e) || exceeds_text(longest, e))
}

// Whether an entry is neither a call nor a short list's.
fn is_usual(e: Head) -> bool
    ensures { result ≡ (eqb (calls_of e.row) 0 && not e.sort.few) }
{
    !e.row.is_call & !e.sort.few
}

// How much an entry counts in nesting. `longest` is as in `exceeds`.
fn nesting_of(longest: Option<NonZeroU64>, row: CodeRule) -> u8
    ensures { result ≡ nesting_of (is_limited (longest_in longest)) row }
{
    match (row.nodes, longest) {
        (NodeRule::NoNode, _) | (NodeRule::TwoInInput, None) => 0,
        (NodeRule::One, _) | (NodeRule::Rewritten, None) => 1,
        (NodeRule::TwoInInput, Some(_)) => 2,
        (NodeRule::Rewritten, Some(_)) => 3,
    }
}

// And among calls.
fn calls_of(row: CodeRule) -> u8
    ensures { result ≡ calls_of row }
{
    u8::from(row.is_call)
}

// Whether an entry that a cell waited for passes a largest figure. `longest` is the longest text of a name, or None where the figures of
// an input are not asked for.
pub fn exceeds(longest: Option<NonZeroU64>, c: Cell, e: Head) -> bool
    ensures { result ≡ exceeds (longest_in longest) (wait_of c) e }
{
    let row = e.row;
    let nesting = nesting_of(longest, row);
    if passes(64, c.nesting, nesting) {
        return true;
    }
    if is_usual(e) {
        return exceeds_text(longest, e);
    }
    passes(4, c.calls, calls_of(row)) || exceeds_input(longest, e)
}

// A figure with more on it, up to the most that has to be told apart. The sum is of 16 bits: with `saturating_add` an acceptance takes 17
// in 1,000 more instructions.
fn raised(n: u8, more: u8, most: u8) -> u8
    ensures { result ≡ min (n + more) most }
{
    (u16::from(n) + u16::from(more)).min(u16::from(most)) as u8
}

// The cell of what follows an entry that a cell waited for. `longest` is as in `exceeds`. That what follows is no more than a cell counts
// is asked here and below, and is no part of a `Head`: any head may be asked whether it `accepts`, which says it.
fn brought(c: Cell, e: Head, longest: Option<NonZeroU64>) -> Option<Cell>
    requires { counted (follows_of e.follows) e.value ≤ 65536 }
    ensures { waits_by result ≡ below (longest_in longest) (wait_of c) e }
{
    let row = e.row;
    let nesting = raised(c.nesting, nesting_of(longest, row), 64);
    let calls = raised(c.calls, calls_of(row), 4);
    Cell::following(e.follows, e.value, nesting, calls)
}

// Takes an entry that the cell on top, `c`, waited for first: its sort is no more to come, and what follows it comes next. Most entries
// bring nothing. It is a part of the scan's loop, which knows whether `longest` is there.
#[tactic(auto, using(crate::proofs::Cells::pushed), unfolding(crate::specs::Words::follows_of))]
#[inline(always)]
pub fn advance<const N: usize>(
    stack: &mut ArrayVec<Cell, N>,
    c: Cell,
    e: Head,
    longest: Option<NonZeroU64>,
)
    requires { (0 < array_vec_len stack.old) × (array_vec_len stack.old < N) × (counted (follows_of e.follows) e.value ≤ 65536) }
    ensures stack { stack_of stack.new.items ≡ below (longest_in longest) (wait_of c) e ++ drop 1 (stack_of stack.old.items) }
    ensures least { array_vec_len stack.old ≤ array_vec_len stack.new + 1 }
    ensures most { array_vec_len stack.new ≤ array_vec_len stack.old + 1 }
{
    drop_first(stack);
    if e.follows != 0
        && let Some(cell) = brought(c, e, longest)
    {
        stack.push(cell);
    }
}
