// Whether two definitions agree in everything but spans: entry by entry on their tapes, with 0 for each span.
ghost use Rattle.std.specs.Prelude.{◌≡◌};
ghost use Rattle.definition.specs.Merge.{is_spanned, unless_span};
ghost use Rattle.merge.specs.Agree.{same_head, text_at, alike_at, same_from, agree_at, compare_at};

use grammar::code;
use grammar::codes::DEFINITION;
use grammar::kind::text_width;
use nodes::{entry, name_at, named, read_heading};
use registry::{Definition, Index};
use tape::layout::{Place, Tape};
use tape::scan::skip;

// What a definition of the second registry is to the first: a new one, or one that agrees with the first's, each with the place behind
// it; or one that differs, with its span. Not a Result: a new and a known definition both go on, and of one that differs the refusal is
// made where it is handed on, so that what is compared knows nothing of refusals.
#[derive(Clone, Copy, Debug, PartialEq, Eq)]
pub enum Compared {
    New(Place),
    Known(Place),
    Differs(u64),
}

// Whether the value of an entry is a span. Not by grammar's `kind_of`: there a method call of a provider's tape has a span too, and the
// definition of an agreement has no such code.
#[tactic(auto, unfolding(definition::specs::Merge::is_spanned, format::specs::Macro::is_code))]
fn is_spanned(code: u8) -> bool
    ensures { result ≡ is_spanned code }
{
    matches!(
        code,
        code::AND..=code::REFINE | code::SUM..=code::AGG_CALL | code::SPAN | code::CALLED | code::DEFINITION
    )
}

#[tactic(auto, unfolding(definition::specs::Merge::unless_span))]
fn unless_span(code: u8, value: u64) -> u64
    ensures { result ≡ unless_span (is_spanned code) value }
{
    if is_spanned(code) { 0 } else { value }
}

// Whether two entries have one code and, unless it is a span, one value.
#[tactic(auto, unfolding(crate::specs::Agree::same_head))]
fn same_head(code: u8, value: u64, other: u8, count: u64) -> bool
    ensures { result ≡ same_head code value other count }
{
    code == other && unless_span(code, value) == unless_span(other, count)
}

// The text of an entry that stands at a place.
#[tactic(auto, unfolding(crate::specs::Agree::text_at))]
fn text_at<'a>(tape: &Tape<'a>, p: Place, code: u8, value: u64) -> &'a [u8]
    ensures { result.now ≡ text_at tape.now.bytes.now tape.now.layout p code value }
{
    name_at(tape, named(p, text_width(code, value)))
}

// The entries at two places of two tapes.
#[tactic(auto, using(nodes::proofs::Texts::equal_texts), unfolding(crate::specs::Agree::alike_at))]
fn compare_entries(s: &Tape, p: Place, t: &Tape, q: Place) -> Option<(Place, Place)>
    ensures { result ≡ alike_at s.now.bytes.now s.now.layout p t.now.bytes.now t.now.layout q }
{
    let (code, value, next) = entry(s, p)?;
    let (other, count, behind) = entry(t, q)?;
    let alike = same_head(code, value, other, count)
        && text_at(s, p, code, value) == text_at(t, q, other, count);
    if alike { Some((next, behind)) } else { None }
}

// Whether the `n` entries from one place on agree with those from the other on.
#[tactic(auto, using(crate::proofs::Steps::same_next, crate::proofs::Steps::same_differ, crate::proofs::Steps::same_done))]
fn same_entries(s: &Tape, from: Place, t: &Tape, other: Place, n: usize) -> bool
    ensures { result ≡ same_from s.now.bytes.now s.now.layout t.now.bytes.now t.now.layout n from other }
{
    let mut p = from;
    let mut q = other;
    for _ in 0..n {
        let Some((next, behind)) = compare_entries(s, p, t, q) else {
            return false;
        };
        p = next;
        q = behind;
    }
    true
}

// Whether two definitions of one name agree: what stands behind their headings up to their ends. The headings themselves are a span, the
// name, and the number of parameters.
#[tactic(auto, unfolding(crate::specs::Agree::agree_at))]
fn agree(s: &Tape, known: Definition, t: &Tape, given: Definition) -> bool
    ensures { result ≡ agree_at s.now.bytes.now s.now.layout known t.now.bytes.now t.now.layout given }
{
    let n = known.end.saturating_sub(known.params.at);
    known.heading.count == given.heading.count
        && n == given.end.saturating_sub(given.params.at)
        && same_entries(s, known.params, t, given.params, n)
}

// The definition at a place of the second registry, against those of the first. An accepted tape has a definition there.
#[tactic(auto, unfolding(crate::specs::Agree::compare_at))]
pub fn compare(first: &Index, t: &Tape, p: Place) -> Compared
    ensures { result ≡ compare_at first.now.tape.bytes.now first.now.tape.layout first.now.rows.now t.now.bytes.now t.now.layout p }
{
    let Ok((heading, params)) = read_heading(t, p, code::DEFINITION) else {
        return Compared::Differs(0);
    };
    let Some(next) = skip(t, p, DEFINITION) else {
        return Compared::Differs(0);
    };
    let given = Definition {
        heading,
        params,
        end: next.at,
    };
    match first.get(name_at(t, heading.name)) {
        None => Compared::New(next),
        Some(known) => {
            if agree(&first.tape, known, t, given) {
                Compared::Known(next)
            } else {
                Compared::Differs(heading.span)
            }
        }
    }
}
