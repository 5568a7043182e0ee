// A tape without Or: document 02, point 12, takes every `a or b` as the negation of the conjunction of the two negations, the four new
// entries with the old one's span.
//
// On the tape an entry 2 becomes 3, 1, 3 in front of its left side, and a 3 comes in front of its right one; every other entry stays,
// and the text as it is. The tape has three entries more for each Or.
#![tactic(auto)]

ghost use Rattle.std.specs.Prelude.{◌≡◌, ◌&&◌, [], ◌≤◌, ◌<◌, eqb};
ghost use Rattle.arrayvec.specs.ArrayVec.{array_vec_len};
ghost use Rattle.format.specs.Macro.{tally};
ghost use Rattle.tape.specs.Ors.{coded, ors_from, ors_in};
ghost use Rattle.tape.specs.Scan.{skip_at};
ghost use Rattle.de_morgan.specs.Rewritten.{right_of, heads_from, put_heads, tape_in, rewritten_in, rewritten_layout, SideAdded};

use crate::rewriting::{Rewriting, Side};
use arrayvec::ArrayVec;
use buffer::{write, write_size};
use grammar::code;
use grammar::codes::CONDITION;
use grammar::kind::text_width;
use tape::held::HeldTape;
use tape::layout::{Layout, Place, Tape, of_tape, text_behind};
use tape::ors::count_held;
use tape::part::part_of;
use tape::scan::skip;

mod rewriting;

// Where the right side of an Or begins whose left side stands at a place. At most 21 Ors stand on a path, since each weighs 3 in the
// nesting, and so each entry is skipped 21 times at the most. Where no such side is, the definition has 0, at which none begins any more.
fn right_side(tape: &Tape, left: Place) -> usize
    ensures { result ≡ right_of (skip_at tape.now.bytes.now tape.now.layout left 1) }
{
    skip(tape, left, CONDITION).map_or(0, |p| p.at)
}

// Adds the right side that an entry brings, if it is an Or. Its left side stands at `next`.
fn add_side<const N: usize>(
    sides: &mut ArrayVec<Side, N>,
    tape: &Tape,
    code: u8,
    value: u64,
    next: Place,
)
    requires { code ≡ 2 → array_vec_len sides.old < N }
    ensures { SideAdded tape.now.bytes.now tape.now.layout code value next sides.old.items sides.new.items }
{
    if code == code::OR {
        sides.push(Side {
            at: right_side(tape, next),
            span: value,
        });
    }
}

// Puts codes and values of what the entries of a layout become. Each Or becomes four entries, so 1,024 entries come of 256 Ors at the most.
// `n` is a number here, as `rewrite` has found and tested it; what puts the entries holds that it is small.
#[tactic(auto, using(crate::proofs::Among::or_left), unfolding(crate::specs::Rewritten::heads_from, crate::specs::Rewritten::put_heads))]
fn put_all(out: &mut [u8], n: usize, held: &HeldTape)
    requires { (n ≤ 1024) × (ors_from held.now.tape.bytes.now held.now.tape.layout 0 ≤ 256) }
    ensures { out.new ≡ put_heads n 0 (heads_from held.now.tape.bytes.now held.now.tape.layout held.now.tape.layout.entries 0 0 []) out.old }
{
    let tape = &held.tape;
    let mut rewriting = Rewriting { out, n, next: 0 };
    let mut sides = ArrayVec::<Side, 256>::new();
    let mut text = 0;
    // an index, which is what code, value and text of an entry share
    for at in 0..tape.layout.entries {
        rewriting.begin_side(&mut sides, at);
        let code = held.code_at(at);
        let value = held.value_at(at);
        text = text_behind(tape.layout.size, text, text_width(code, value));
        rewriting.put_entry(code, value);
        add_side(&mut sides, tape, code, value, Place { at: at + 1, text });
    }
}

// Writes sizes, codes and values, and the text.
fn write_tape(out: &mut [u8], n: usize, held: &HeldTape)
    requires { (n ≤ 1024) × (ors_from held.now.tape.bytes.now held.now.tape.layout 0 ≤ 256) }
    ensures { out.new ≡ tape_in held.now.tape.bytes.now held.now.tape.layout n out.old }
{
    let tape = &held.tape;
    write_size(out, 0, n);
    write_size(out, 4, tape.layout.size);
    put_all(out, n, held);
    write(
        out,
        8 + 9 * n,
        part_of(tape.bytes, tape.layout.text, tape.layout.size),
    );
}

// Writes the rewritten tape at the front of `out`, as far as it reaches, and answers its layout. Where the slice does not hold the
// layout, or the tape would have more than 1,024 entries, both of which acceptance rules out, nothing is written, and the layout has no
// entry: it is no None, as the definition has it, so that nothing is asked of a caller.
#[tactic(auto, using(tape::proofs::Counting::ors_most))]
pub fn rewrite(tape: &Tape, out: &mut [u8]) -> Layout
    ensures layout { result ≡ rewritten_layout tape.now.bytes.now tape.now.layout }
    ensures bytes { out.new ≡ rewritten_in tape.now.bytes.now tape.now.layout out.old }
{
    let Some(held) = tape.held() else {
        return of_tape(0, 0);
    };
    let n = tape.layout.entries + 3 * count_held(&held);
    if 1024 < n {
        return of_tape(0, 0);
    }
    write_tape(out, n, &held);
    of_tape(n, tape.layout.size)
}

// The same, and the tape that was written.
pub fn rewritten_in<'a>(tape: &Tape, out: &'a mut [u8]) -> Tape<'a>
    ensures layout { result.layout ≡ rewritten_layout tape.now.bytes.now tape.now.layout }
    ensures bytes { result.bytes.now ≡ rewritten_in tape.now.bytes.now tape.now.layout out.old }
{
    let layout = rewrite(tape, out);
    Tape { bytes: out, layout }
}

// Whether no code is a 2. Each is looked at, found or not, so that the compiler takes many at once. It is no count of Ors that is 0, which
// `tape::ors::count_ors` has: over 1,024 codes a count takes 1,008 instructions, and this 342.
#[tactic(auto, using(crate::proofs::Among::none_step, crate::proofs::Among::none_end))]
fn none_among(codes: &[u8]) -> bool
    ensures { result ≡ eqb (tally 2 (coded codes.now)) 0 }
{
    let mut found = false;
    for &code in codes {
        found |= code == code::OR;
    }
    !found
}

// Whether no entry of a layout is an Or.
pub fn none_on(tape: &Tape) -> bool
    ensures { result ≡ eqb (ors_in tape.now.bytes.now tape.now.layout) 0 }
{
    tape.held().is_none_or(|held| none_among(held.codes()))
}

// Whether no Or stands on either of two tapes, so that each is its own rewriting.
pub fn without_or(s: &Tape, t: &Tape) -> bool
    ensures { result ≡ (eqb (ors_in s.now.bytes.now s.now.layout) 0 && eqb (ors_in t.now.bytes.now t.now.layout) 0) }
{
    none_on(s) && none_on(t)
}
