// `Registry::build` of macros/mod.rs: a reserved name is 10, a name that was defined before is 11, definition by definition, 10 first.
// The places of the definitions are found once, and a name is looked for among them: no body is scanned again.
#![tactic(auto)]

ghost use Rattle.std.specs.Prelude.{◌≡◌, [], ◌∷◌, ◌+◌, ◌*◌, ◌≤◌, length, take};
ghost use Rattle.format.specs.Tape.{is_text, text_width};
ghost use Rattle.definition.specs.Answers.{registry_answer};
ghost use Rattle.definition.specs.Check.{contains};
ghost use Rattle.definition.specs.Registry.{reserved_names};
ghost use Rattle.tape.specs.Layouts.{value_at};
ghost use Rattle.answer.specs.Matches.{answer_with};
ghost use Rattle.definition.specs.Counts.{fresh_counts};
ghost use Rattle.registry.specs.Places.{origin, key_of, key_at, rows_from, index_at, check_at, build_at};

use crate::counts::{Counts, fresh};
use crate::rows::first_named;
pub use crate::rows::{Index, Row};
use answer::{Answer, answer_tape};
use buffer::read_value;
use grammar::code;
use grammar::codes::DEFINITIONS;
use grammar::kind::is_text;
use messages::{Reason, Refused, refuse};
pub use nodes::Definition;
use nodes::{name_at, named, read_heading};
use tape::held::HeldTape;
use tape::layout::{Place, Tape};

pub mod counts;
pub mod rows;

// What the operation returns: its answer, and the state of a registry just built.
#[derive(Clone, Copy, Debug, PartialEq, Eq)]
pub struct Registered {
    pub answer: Answer,
    pub counts: Counts,
}

// The key of a name. Equal names have equal keys, so that texts are compared only where keys are equal.
#[tactic(auto, using(crate::proofs::Steps::key_turn, crate::proofs::Steps::key_end), unfolding(crate::specs::Places::key_of))]
pub fn key_of(name: &[u8]) -> u32
    ensures { result ≡ key_of name.now }
{
    let mut h: u32 = 0;
    for &b in name {
        h = h.wrapping_mul(16777619).wrapping_add(b as u32);
    }
    h
}

// The key of the name of the definition at a place. The name stands in the entry behind the 60, which has no text. The tape holds that
// entry, so that its value alone is read; `name_behind` of expand_counts, which asks for any place, looks for the entry and its code.
#[tactic(auto, unfolding(crate::specs::Places::key_at))]
fn key_at(tape: &Tape, p: Place) -> u32
    requires { tape.now.layout.values + 8 * (p.at + 1) ≤ length tape.now.bytes.now }
    ensures { result ≡ key_at tape.now.bytes.now tape.now.layout p }
{
    let start = tape.layout.values;
    let size = read_value(tape.bytes, start + 8 * (p.at + 1));
    key_of(name_at(tape, named(p, size)))
}

// How many bytes of text an entry takes. Few entries have text, and only their values are read.
#[tactic(auto, unfolding(format::specs::Tape::text_width))]
fn width_at(tape: &Tape, at: usize, code: u8) -> u64
    requires { tape.now.layout.values + 8 * at + 8 ≤ length tape.now.bytes.now }
    ensures { result ≡ text_width (is_text code) (value_at tape.now.bytes.now tape.now.layout at) }
{
    if is_text(code) { tape.value_at(at) } else { 0 }
}

// Writes the rows of the entries with the code 60 to a table, as many as it holds, and answers how many there are. A 60 stands nowhere but
// where a definition begins. `n` counts the rows of a lent table: a vector of them would be copied, 6 KB, wherever the index is moved.
#[tactic(auto, using(crate::proofs::Steps::index_start, crate::proofs::Steps::index_noted, crate::proofs::Steps::index_full, crate::proofs::Steps::index_other))]
fn index_from(held: &HeldTape, rows: &mut [Row]) -> usize
    ensures written { take result rows.new ≡ take (length rows.old) (rows_from held.now.tape.bytes.now held.now.tape.layout held.now.tape.layout.entries origin) }
    ensures inside { result ≤ length rows.old }
{
    let tape = &held.tape;
    let size = tape.layout.size;
    let mut n: usize = 0;
    let mut text: usize = 0;
    // an index, which is what code, value and text of an entry share
    for at in 0..tape.layout.entries {
        let place = Place { at, text };
        let code = held.code_at(at);
        let width = width_at(tape, at, code);
        if ((size - text) as u64) < width {
            return n;
        }
        text += width as usize;
        if code == code::DEFINITION && n < rows.len() {
            let key = key_at(tape, place);
            rows[n] = Row { place, key };
            n += 1;
        }
    }
    n
}

// Writes the rows of a registry's definitions to a table, as many as it holds, and answers how many there are. A 60 stands nowhere else.
#[tactic(auto, unfolding(crate::specs::Places::index_at))]
pub fn index(tape: &Tape, rows: &mut [Row]) -> usize
    ensures rows { take result rows.new ≡ index_at tape.now.bytes.now tape.now.layout (length rows.old) }
    ensures inside { result ≤ length rows.old }
{
    match tape.held() {
        Some(held) => index_from(&held, rows),
        None => 0,
    }
}

// Whether a name is one of four. One table with `contains` was slower. It is a part of its caller, where the four have lengths that are
// known: a name is compared only with those that are as long.
#[tactic(auto, using(nodes::proofs::Texts::equal_texts), unfolding(definition::specs::Check::contains))]
#[inline(always)]
fn is_one_of(a: &[u8], b: &[u8], c: &[u8], d: &[u8], name: &[u8]) -> bool
    ensures { result ≡ contains (a.now ∷ b.now ∷ c.now ∷ d.now ∷ []) name.now }
{
    a == name || b == name || c == name || d == name
}

// Whether a name is one of the Rust's RESERVED_MACRO_NAMES.
fn is_reserved(name: &[u8]) -> bool
    ensures { result ≡ contains reserved_names name.now }
{
    is_one_of(b"decimal", b"datetime", b"duration", b"ip", name)
        | is_one_of(b"let", b"in", b"where", b"for", name)
        | is_one_of(b"sum", b"count", b"tp", b"formerly", name)
        | is_one_of(b"previous", b"since", b"true", b"false", name)
}

// The name of the definition at a place, against the reserved names and those of the rows before it.
#[tactic(auto, using(crate::proofs::Steps::name_unread), unfolding(crate::specs::Places::check_at))]
fn check_name(tape: &Tape, seen: &[Row], p: Place) -> Result<(), Refused>
    ensures { result ≡ check_at tape.now.bytes.now tape.now.layout seen.now p }
{
    let (h, _) = read_heading(tape, p, code::DEFINITION)?;
    let span = h.span;
    let name = name_at(tape, h.name);
    if is_reserved(name) {
        return Err(refuse(span, Reason::Reserved(h.name)));
    }
    match first_named(tape, seen, name) {
        Some(first) => Err(refuse(span, Reason::Duplicate(h.name, first.heading.span))),
        None => Ok(()),
    }
}

// The names of a registry. A table of its own, for as many definitions as a registry can have: the index is lent it (`Index::new`).
fn check_registry(tape: &Tape) -> Result<(), Refused>
    ensures { result ≡ build_at tape.now.bytes.now tape.now.layout (index_at tape.now.bytes.now tape.now.layout 255) }
{
    Index::new(tape, &mut [Row::EMPTY; 255]).check_names()
}

// 1 for a message buffer below 2,048 bytes, then the tape, then the names.
fn answer_names(registry: &[u8], message: &mut [u8]) -> Answer
    ensures { answer_with result [] [] message.new ≡ registry_answer (length message.old) registry.now }
{
    answer_tape(registry, DEFINITIONS, message, check_registry)
}

// The operation. Every count is 0, whatever the answer.
pub fn build(registry: &[u8], message: &mut [u8]) -> Registered
    ensures { (answer_with result.answer [] [] message.new ≡ registry_answer (length message.old) registry.now) × (result.counts.of ≡ fresh_counts) }
{
    let answer = answer_names(registry, message);
    let counts = fresh();
    Registered { answer, counts }
}
