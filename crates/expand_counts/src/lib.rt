// The calls of a condition that expansion enters, counted for the definitions that they name. One loop over the entries: a call is a
// 54 that stands in no field and in no array of an operand. Those are passed over; of all else nothing but the code and the length of
// its text is looked at.
#![tactic(auto)]

ghost use Rattle.std.specs.Prelude.{◌≡◌, ◌+◌, ◌≤◌};
ghost use Rattle.format.specs.Tape.{text_width};
ghost use Rattle.tape.specs.Flat.{sum_in, weight_of};
ghost use Rattle.registry.specs.Places.{key_of, origin};
ghost use Rattle.expand_counts.specs.Counting.{name_behind_at, is_named, raised_at, passing, few, rest_of_term, over_at, brought_by, passed_at, counted_at, count_from, counted_in};

use grammar::code;
use grammar::codes::TERM;
use grammar::kind::text_width;
use nodes::{expect, name_at, named};
use registry::{Index, Row, key_of};
use tape::held::HeldTape;
use tape::layout::{Place, Tape};
use tape::ors::count_in;
use tape::scan::skip;

// What is passed over: so many entries, whatever they are, and then so many items, which are names and terms.
#[derive(Clone, Copy, Debug, PartialEq, Eq)]
pub struct Passing {
    pub over: usize,
    pub items: usize,
}

// The name in the entry behind the one at a place, which has no text: a call's, or a definition's. The place may be any.
#[tactic(auto, using(crate::proofs::Steps::name_outside, crate::proofs::Steps::name_missing, crate::proofs::Steps::name_read))]
fn name_behind<'a>(tape: &Tape<'a>, p: Place) -> &'a [u8]
    ensures { result.now ≡ name_behind_at tape.now.bytes.now tape.now.layout p }
{
    // no slice has so many entries
    if tape.bytes.len() <= p.at {
        return &tape.bytes[0..0];
    }
    let q = Place {
        at: p.at + 1,
        text: p.text,
    };
    let Some((size, _)) = expect(tape, q, code::TEXT) else {
        return &tape.bytes[0..0];
    };
    name_at(tape, named(p, size))
}

// Whether the definition of a row has the name, of which the key is given.
#[tactic(auto, using(crate::proofs::Steps::named_otherwise, crate::proofs::Steps::named_by))]
fn is_named(reg: &Tape, row: &Row, key: u32, name: &[u8]) -> bool
    requires { key ≡ key_of name.now }
    ensures { result ≡ is_named reg.now.bytes.now reg.now.layout row.now name.now }
{
    row.key == key && name_behind(reg, row.place) == name
}

// One call more for each definition of the name, as far as there are counts. A count that would pass 4,294,967,295 stays there. Of what
// a `zip` with `iter_mut` writes a proof would learn nothing.
#[tactic(auto, using(crate::proofs::Steps::count_turn, crate::proofs::Steps::count_passed, crate::proofs::Steps::count_done, crate::proofs::Steps::rows_cut), unfolding(definition::specs::Counts::ceiling))]
fn count_name(index: &Index, name: &[u8], counts: &mut [u32])
    ensures { counts.new ≡ raised_at index.now.tape.bytes.now index.now.tape.layout index.now.rows.now name.now counts.old }
{
    let key = key_of(name);
    let rows = &index.rows[..index.rows.len().min(counts.len())];
    for (i, row) in rows.iter().enumerate() {
        if is_named(&index.tape, row, key, name) {
            counts[i] = counts[i].saturating_add(1);
        }
    }
}

// A list's count. An accepted tape has 1,024 entries at the most, and so no list of more items.
#[tactic(auto, using(crate::proofs::Steps::few_small, crate::proofs::Steps::few_large))]
fn few(value: u64) -> usize
    ensures { (result ≡ few value) × (result ≤ 1024) }
{
    if value <= 1024 { value as usize } else { 0 }
}

// The entries of a term behind its first.
#[tactic(auto, unfolding(crate::specs::Counting::rest_of_term))]
fn rest_of_term(tape: &Tape, p: Place) -> usize
    ensures { result ≡ rest_of_term tape.now.bytes.now tape.now.layout p }
{
    let Some(q) = skip(tape, p, TERM) else {
        return 0;
    };
    q.at.saturating_sub(p.at).saturating_sub(1)
}

// How many entries behind this one say nothing, whatever they are. `items` is 0 where the entry stands open.
#[tactic(auto, unfolding(crate::specs::Counting::over_at))]
fn over_at(tape: &Tape, p: Place, items: usize, code: u8, value: u64) -> usize
    ensures { result ≡ over_at tape.now.bytes.now tape.now.layout p items code value }
{
    let open = items == 0;
    match code {
        code::PREDICATE => 1,
        code::ENTITY => 2,
        code::CONTEXT_FIELD => few(value),
        code::SCOPE_FIELD => few(value),
        code::AGG => { if open { 0 } else { rest_of_term(tape, p) } }
        code::SUM => 2,
        code::COUNT => 1,
        code::LIST => { if open { 0 } else { few(value) } }
        code::CALLED => 2,
        _ => 0,
    }
}

// How many items follow.
#[tactic(auto, unfolding(crate::specs::Counting::brought_by))]
fn brought_by(items: usize, code: u8, value: u64) -> usize
    ensures { (result ≡ brought_by items code value) × (result ≤ 2048) }
{
    let open = items == 0;
    match code {
        code::PREDICATE => 3,
        code::ARRAY => few(value),
        code::ARITH => { if open { 0 } else { 2 } }
        code::LIST => { if open { 2 * few(value) } else { 0 } }
        _ => 0,
    }
}

// What is passed over behind an entry.
#[tactic(auto, unfolding(crate::specs::Counting::passed_at))]
fn pass(tape: &Tape, p: Place, w: Passing, code: u8, value: u64) -> Passing
    requires { w.items ≤ 4194304 }
    ensures { (result ≡ passed_at tape.now.bytes.now tape.now.layout p w code value) × (result.items ≤ w.items + 2048) }
{
    if let Some(over) = w.over.checked_sub(1) {
        return Passing { over, ..w };
    }
    Passing {
        over: over_at(tape, p, w.items, code, value),
        items: w.items.saturating_sub(1) + brought_by(w.items, code, value),
    }
}

// A 54 that is not passed over is counted.
#[tactic(auto, unfolding(crate::specs::Counting::counted_at))]
fn count_entry(index: &Index, tape: &Tape, p: Place, w: Passing, code: u8, counts: &mut [u32])
    ensures { counts.new ≡ counted_at index.now.tape.bytes.now index.now.tape.layout index.now.rows.now tape.now.bytes.now tape.now.layout p w code counts.old }
{
    if code == code::CALLED && w.over == 0 {
        count_name(index, name_behind(tape, p), counts);
    }
}

// The calls among the entries, up to a text that runs past the end. Code, value and text of an entry stand in three sections, so an
// index is what they share.
#[tactic(auto, using(crate::proofs::Steps::entries_start, crate::proofs::Steps::entry_taken, crate::proofs::Steps::entry_long, crate::proofs::Steps::entries_done))]
fn count_entries(index: &Index, held: &HeldTape, counts: &mut [u32])
    ensures { counts.new ≡ count_from index.now.tape.bytes.now index.now.tape.layout index.now.rows.now held.now.tape.bytes.now held.now.tape.layout held.now.tape.layout.entries origin (passing 0 0) counts.old }
{
    let tape = &held.tape;
    let size = tape.layout.size;
    let mut text: usize = 0;
    let mut w = Passing { over: 0, items: 0 };
    for at in 0..tape.layout.entries {
        let code = held.code_at(at);
        let value = held.value_at(at);
        let width = text_width(code, value);
        if ((size - text) as u64) < width {
            return;
        }
        let p = Place { at, text };
        text += width as usize;
        count_entry(index, tape, p, w, code, counts);
        w = pass(tape, p, w, code, value);
    }
}

// How many entries are a call. Where none is, nothing else is looked at.
fn calls_in(held: &HeldTape) -> usize
    ensures { result ≡ sum_in (weight_of 54) held.now.tape.bytes.now held.now.tape.layout }
{
    count_in(held.codes(), code::CALLED)
}

// The calls of a condition that expansion enters, each counted for the definitions of its name.
#[tactic(auto, using(crate::proofs::Steps::counted_held, crate::proofs::Steps::counted_not_held, crate::proofs::Steps::counted_none))]
pub fn count_calls(index: &Index, cond: &Tape, counts: &mut [u32])
    ensures { counts.new ≡ counted_in index.now.tape.bytes.now index.now.tape.layout index.now.rows.now cond.now.bytes.now cond.now.layout counts.old }
{
    let Some(held) = cond.held() else {
        return;
    };
    if calls_in(&held) != 0 {
        count_entries(index, &held, counts);
    }
}
