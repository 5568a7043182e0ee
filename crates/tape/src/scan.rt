// A scan over the entries of a sort: whether they are such entries, where they end, and whether they pass a largest figure.
ghost use Rattle.std.specs.Prelude.{◌≡◌, ◌+◌, ◌*◌, ◌≤◌, ◌<◌, ◌&&◌, leb, ltb, length, Some};
ghost use Rattle.format.specs.Stands.{part};
ghost use Rattle.arrayvec.specs.ArrayVec.{array_vec_len};
ghost use Rattle.grammar.specs.Waits.{longest_in};
ghost use Rattle.grammar.specs.Words.{rules};
ghost use Rattle.tape.specs.Layouts.{head_at};
ghost use Rattle.tape.specs.Scan.{scan_at, scan_from, skip_at, starts, text_passes, too_deep, too_deep_in};
ghost use Rattle.tape.specs.Turn.{CanTurn, Starts, Turned};

use crate::ends::end_of;
use crate::flat::is_flat;
use crate::layout::{Layout, Place, Tape};
use crate::part::behind;
use crate::utf8::well_formed;
use arrayvec::ArrayVec;
use grammar::codes::{follows_in, table};
use grammar::count::{counts, due_of, has_pairs};
use grammar::entry::{Head, accepts, advance, exceeds, width_of};
use grammar::rules::{Grammar, row_at, sort_at};
use grammar::stack::Cell;
use std::num::NonZeroU64;

// The entry at a place, where one of the sort `wanted` is due.
fn head_at(grammar: Grammar, tape: &Tape, wanted: u64, at: usize) -> Head
    requires { (tape.now.layout.codes + at < length tape.now.bytes.now) × (tape.now.layout.values + 8 * at + 8 ≤ length tape.now.bytes.now) }
    ensures { result ≡ head_at (rules grammar.entry) tape.now.bytes.now tape.now.layout wanted at }
{
    let code = tape.code_at(at);
    let value = tape.value_at(at);
    let sort = sort_at(grammar, wanted);
    let row = row_at(grammar, code);
    let follows = follows_in(sort, row);
    Head {
        code,
        value,
        text: width_of(row, value),
        sort,
        row,
        follows,
    }
}

// Whether a text may stand on an input: it is well-formed. Where no figures are asked for, it is not looked at. Every
// entry is asked, and most have none, so that this is part of the loop.
#[tactic(auto, using(crate::proofs::Turns::nothing_passes))]
#[inline(always)]
fn text_passes(tape: &Tape, text: usize, len: usize, longest: Option<NonZeroU64>) -> bool
    ensures { result ≡ text_passes (longest_in longest) (part tape.now.bytes.now (tape.now.layout.text + text) len) }
{
    len == 0 || longest.is_none() || well_formed(tape.bytes, behind(tape.layout.text, text), len)
}

// Takes the entry at a place, for which `cell`, the top of the stack, waits first: takes that sort off, and puts there what the entry
// brings.
#[tactic(auto, using(crate::proofs::Turns::let_in))]
#[inline(always)]
fn take_entry<const N: usize>(
    stack: &mut ArrayVec<Cell, N>,
    grammar: Grammar,
    tape: &Tape,
    cell: Cell,
    at: usize,
    text: usize,
    longest: Option<NonZeroU64>,
) -> Option<(usize, bool)>
    requires { CanTurn cell stack.old.items tape.now.bytes.now tape.now.layout at text × (array_vec_len stack.old < N) }
    ensures turned { Turned (rules grammar.entry) (longest_in longest) tape.now.bytes.now tape.now.layout stack.old.items at text result stack.new.items }
    ensures most { array_vec_len stack.new ≤ array_vec_len stack.old + 1 }
{
    let e = head_at(grammar, tape, u64::from(cell.word % 64), at);
    if !accepts(tape.layout.entries - at - 1, tape.layout.size - text, e) {
        return None;
    }
    if !text_passes(tape, text, e.text as usize, longest) {
        return None;
    }
    let over = exceeds(longest, cell, e);
    advance(stack, cell, e, longest);
    Some((text + e.text as usize, over))
}

// The scan with a stack of N cells. An entry brings one cell more at the most, so it has a cell more than the tape has entries. Table, tape
// and `longest` are no struct with methods, with which a scan took 5 to 8 in 100 instructions more.
#[tactic(auto, using(crate::proofs::Turns::went_on, crate::proofs::Turns::stopped, crate::proofs::Turns::run_out, crate::proofs::Turns::ended, crate::proofs::Turns::first_waits))]
#[inline(always)]
fn scan_with<const N: usize>(
    grammar: Grammar,
    tape: &Tape,
    from: Place,
    sort: u64,
    longest: Option<NonZeroU64>,
) -> Option<(Place, bool)>
    requires { Starts tape.now.bytes.now tape.now.layout from sort × (tape.now.layout.entries < N) × (N ≤ 1025) }
    ensures { result ≡ scan_from (rules grammar.entry) tape.now.bytes.now tape.now.layout from sort (longest_in longest) }
{
    let mut stack: ArrayVec<Cell, N> = ArrayVec::new();
    stack.push(Cell::of(sort));
    let mut at = from.at;
    let mut text = from.text;
    let mut over = false;
    // no `for`: what the entries bring ends the loop, and the place where it ends is a part of the answer
    while let Some(&cell) = stack.as_slice().last() {
        if at == tape.layout.entries {
            return None;
        }
        let (behind, more) = take_entry(&mut stack, grammar, tape, cell, at, text, longest)?;
        text = behind;
        over |= more;
        at += 1;
    }
    Some((Place { at, text }, over))
}

// The stack is cleared before each scan, so it is a short one where that is enough.
#[inline(always)]
fn scan_held(
    grammar: Grammar,
    tape: &Tape,
    from: Place,
    sort: u64,
    longest: Option<NonZeroU64>,
) -> Option<(Place, bool)>
    requires { Starts tape.now.bytes.now tape.now.layout from sort }
    ensures { result ≡ scan_from (rules grammar.entry) tape.now.bytes.now tape.now.layout from sort (longest_in longest) }
{
    if tape.layout.entries < 128 {
        scan_with::<128>(grammar, tape, from, sort, longest)
    } else if tape.layout.entries < 512 {
        scan_with::<512>(grammar, tape, from, sort, longest)
    } else {
        scan_with::<1025>(grammar, tape, from, sort, longest)
    }
}

// The scan of a result, and that of an input: each is a function by itself, and the loop with all of its turn a part of it, so that the
// compiler leaves out of the one what an input alone is asked. As one they take 7 in 100 instructions more.
#[inline(never)]
fn scan_result(grammar: Grammar, tape: &Tape, from: Place, sort: u64) -> Option<(Place, bool)>
    requires { Starts tape.now.bytes.now tape.now.layout from sort }
    ensures { result ≡ scan_from (rules grammar.entry) tape.now.bytes.now tape.now.layout from sort 0 }
{
    scan_held(grammar, tape, from, sort, None)
}

#[inline(never)]
fn scan_input(
    grammar: Grammar,
    tape: &Tape,
    from: Place,
    sort: u64,
    names: NonZeroU64,
) -> Option<(Place, bool)>
    requires { Starts tape.now.bytes.now tape.now.layout from sort }
    ensures { result ≡ scan_from (rules grammar.entry) tape.now.bytes.now tape.now.layout from sort (longest_in (Some names)) }
{
    scan_held(grammar, tape, from, sort, Some(names))
}

// Whether a place is in a layout, and a table has room for the sort.
fn is_place(layout: &Layout, from: Place, sort: u64) -> bool
    ensures { result ≡ (leb from.at layout.now.entries && (leb from.text layout.now.size && ltb sort 32)) }
{
    (from.at <= layout.entries) & (from.text <= layout.size) & (sort < 32)
}

// Whether the slice holds the layout besides. What is asked of a scan is all three as one fact, so it takes no `HeldTape`.
fn starts(tape: &Tape, from: Place, sort: u64) -> bool
    ensures { result ≡ starts tape.now.bytes.now tape.now.layout from sort }
{
    tape.holds() & is_place(&tape.layout, from, sort)
}

// The entries of a sort from a place on, by any table. `longest` is the longest text of a name, or None where the figures of an
// input are not asked for, nor its texts tested.
pub fn scan(
    grammar: Grammar,
    tape: &Tape,
    from: Place,
    sort: u64,
    longest: Option<NonZeroU64>,
) -> Option<(Place, bool)>
    ensures { result ≡ scan_at (rules grammar.entry) tape.now.bytes.now tape.now.layout from sort (longest_in longest) }
{
    if starts(tape, from, sort) {
        match longest {
            Some(names) => scan_input(grammar, tape, from, sort, names),
            None => scan_result(grammar, tape, from, sort),
        }
    } else {
        None
    }
}

// Whether the tree of a sort at the start of a layout passes a largest figure of a result, by any table: nesting, or calls inside the
// arguments of others.
pub fn too_deep_in(grammar: Grammar, tape: &Tape, sort: u64) -> bool
    ensures { result ≡ too_deep_in (rules grammar.entry) tape.now.bytes.now tape.now.layout sort }
{
    let found = scan(grammar, tape, Place::START, sort, None);
    matches!(found, Some((_, true)))
}

// The place behind the subtree of a sort of document 01, which stands at a place: by counting, and what stands there is not looked at.
pub fn skip(tape: &Tape, from: Place, sort: u64) -> Option<Place>
    ensures { result ≡ skip_at tape.now.bytes.now tape.now.layout from sort }
{
    let held = tape.held()?;
    if !is_place(&tape.layout, from, sort) {
        return None;
    }
    let counts = counts();
    end_of(&counts, &held, from, due_of(sort), has_pairs(sort))
}

// `too_deep_in` by the table of document 01. A small tree is not measured.
#[tactic(auto, using(crate::proofs::SmallTrees::flat_shallow))]
pub fn too_deep(tape: &Tape, sort: u64) -> bool
    ensures { result ≡ too_deep tape.now.bytes.now tape.now.layout sort }
{
    if is_flat(tape) {
        return false;
    }
    too_deep_in(table(), tape, sort)
}
