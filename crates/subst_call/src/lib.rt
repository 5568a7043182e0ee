// The front of a substitution: which macro is called, its arguments counted, its body charged, the body walked, the result measured.
// Expansion comes here too, with a call that stands in its work buffer. The cursor stands beside the substitution, which could not hold it:
// a struct that holds a `&mut`, nested in another, does not tell the lender its final value. The limit and the file number stand beside
// each other as C hands them in, until a `Substitution` has both.
#![tactic(auto)]

ghost use Rattle.std.specs.Prelude.{◌≡◌};
ghost use Rattle.walk_state.specs.Writing.{Walks, progress, state_at, going_at, came_to};
ghost use Rattle.subst_state.specs.Maps.{maps_at};
ghost use Rattle.subst_places.specs.Parameters.{tapes_of};
ghost use Rattle.subst_call.specs.Front.{macro_from, macro_at, wrong_count, charge_body_in, refuse_too_large_in, temporal_condition_in, temporal_value_in, substitute_body_in, call_in, tapes_in};

use grammar::code;
use grammar::codes::{CONDITION, TERM};
use message_parts::names::Params;
use messages::{Reason, Refused, refuse};
use nodes::{BodyNode, Definition, Heading, Refusal, past_params, read_body, read_heading};
use subst_state::maps::{Argument, Substitution, find_arguments};
use subst_walk::{subst_temporal_condition, subst_temporal_term};
use tape::layout::{Place, Tape};
use tape::scan::too_deep;
use tape::text::size;
use walk_state::writing::Cursor;

// A macro: its definition, and the kind and the place of its body.
#[derive(Clone, Copy, Debug, PartialEq, Eq)]
pub struct Macro {
    pub definition: Definition,
    pub kind: BodyNode,
    pub body: Place,
}

// The macro of a definition that was found: by the registry's index, in an expansion.
pub fn macro_from(tape: &Tape, definition: Definition) -> Option<Macro>
    ensures { result ≡ macro_from tape.now.bytes.now tape.now.layout definition.heading definition.params definition.end }
{
    let next = past_params(tape, definition.params, definition.heading.count)?;
    let (kind, body) = read_body(tape, next).ok()?;
    Some(Macro {
        definition,
        kind,
        body,
    })
}

// The definition that stands at a place, and behind which nothing stands.
#[tactic(auto, unfolding(crate::specs::Front::macro_at))]
fn read_macro(tape: &Tape, p: Place) -> Option<Macro>
    ensures { result ≡ macro_at tape.now.bytes.now tape.now.layout p }
{
    let (heading, params) = read_heading(tape, p, code::DEFINITION).ok()?;
    let end = tape.layout.entries;
    macro_from(
        tape,
        Definition {
            heading,
            params,
            end,
        },
    )
}

// 34 has the definition's name and the call's span.
pub fn wrong_count(def: Heading, call: Heading) -> Refused
    ensures { result ≡ wrong_count def call }
{
    refuse(
        call.span,
        Reason::ArgumentCount(def.name, def.count, call.count),
    )
}

// The size of the body, which stands up to `end`, is charged.
#[tactic(auto, unfolding(crate::specs::Front::charge_body_in))]
fn charge_body(s: &Substitution, c: &mut Cursor, end: usize) -> Result<(), Refused>
    ensures { Walks c.old c.new result (progress (charge_body_in s.now.definition.bytes.now (maps_at s.now) end (state_at c.old)) c.old.bytes.now) }
{
    let nodes = size(&s.definition, c.place.at, end);
    s.charge_nodes(c, nodes)
}

// 3, if what was written is over a largest figure.
#[tactic(auto, unfolding(crate::specs::Front::refuse_too_large_in))]
pub fn refuse_too_large(span: u64, sort: u64, c: &Cursor) -> Result<(), Refused>
    ensures { came_to result c.now ≡ refuse_too_large_in span sort (going_at c.now) }
{
    if c.out.overflowed || too_deep(&c.written(), sort) {
        return Err(refuse(span, Reason::WithoutMessage(numbers::TOO_LARGE)));
    }
    Ok(())
}

#[tactic(auto, using(crate::proofs::Measured::hands_on), unfolding(crate::specs::Front::temporal_condition_in))]
fn substitute_temporal_condition(s: &Substitution, c: &mut Cursor) -> Result<(), Refused>
    ensures { Walks c.old c.new result (temporal_condition_in (tapes_of s.now) (going_at c.old)) }
{
    subst_temporal_condition(64, s, c)?;
    refuse_too_large(s.call_span, CONDITION, c)
}

// A value body's terms outside aggregates have the call's span.
#[tactic(auto, using(crate::proofs::Measured::hands_on), unfolding(crate::specs::Front::temporal_value_in))]
fn substitute_temporal_value(s: &Substitution, c: &mut Cursor) -> Result<(), Refused>
    ensures { Walks c.old c.new result (temporal_value_in (tapes_of s.now) (going_at c.old)) }
{
    subst_temporal_term(64, s, c, s.call_span)?;
    refuse_too_large(s.call_span, TERM, c)
}

#[tactic(auto, using(crate::proofs::Measured::condition_hands_on, crate::proofs::Measured::value_hands_on), unfolding(crate::specs::Front::substitute_body_in, nodes::specs::Node::span_of, nodes::specs::Node::refusal_of))]
fn substitute_body(
    s: &Substitution,
    c: &mut Cursor,
    kind: BodyNode,
    end: usize,
) -> Result<(), Refused>
    ensures { Walks c.old c.new result (substitute_body_in (tapes_of s.now) kind end (state_at c.old) c.old.bytes.now) }
{
    match kind {
        // no call gets here with a Cedar macro
        BodyNode::Cedar => Err(Refusal::MALFORMED.into()),
        BodyNode::Condition => {
            charge_body(s, c, end)?;
            substitute_temporal_condition(s, c)
        }
        BodyNode::Value => {
            charge_body(s, c, end)?;
            substitute_temporal_value(s, c)
        }
    }
}

// What one call of a macro becomes, appended to the cursor's area: the body's charge, the walk, and 3. `head` is the call's head, and
// its arguments stand from `first` on; there are as many as the macro has parameters, sixteen at the most.
#[tactic(auto, unfolding(crate::specs::Front::call_in))]
pub fn substitute_call<'a>(
    definition: &Tape<'a>,
    call: &Tape<'a>,
    limit: u32,
    file: u16,
    called: Macro,
    head: Heading,
    first: Place,
    c: &mut Cursor,
) -> Result<(), Refused>
    ensures { Walks c.old c.new result (call_in definition.now.bytes.now definition.now.layout call.now.bytes.now call.now.layout limit file called head first c.old.charged c.old.out c.old.bytes.now) }
{
    let found = called.definition;
    let mut args = [Argument::NONE; 16];
    find_arguments(call, first, head.count, &mut args);
    let s = Substitution {
        definition: *definition,
        call: *call,
        args: &args,
        params: Params {
            place: found.params,
            count: found.heading.count,
        },
        macro_name: found.heading.name,
        call_span: head.span,
        limit,
        file,
    };
    c.place = called.body;
    substitute_body(&s, c, called.kind, found.end)
}

// Cedar is 31, another number of arguments 34; then the call, whose outcome is written to the area at the start of the slice.
#[tactic(auto, unfolding(crate::specs::Front::tapes_in, crate::specs::Front::counted_in, nodes::specs::Node::heading_at, nodes::specs::Node::span_of, nodes::specs::Node::refusal_of))]
pub fn substitute_tapes<'a>(
    definition: &Tape<'a>,
    call: &Tape<'a>,
    limit: u32,
    file: u16,
    c: &mut Cursor,
) -> Result<(), Refused>
    ensures { Walks c.old c.new result (tapes_in definition.now.bytes.now definition.now.layout call.now.bytes.now call.now.layout limit file c.old.bytes.now) }
{
    c.restart();
    let origin = Place::START;
    let called = read_macro(definition, origin).ok_or(Refusal::MALFORMED)?;
    let (head, first) = read_heading(call, origin, code::CALLED)?;
    if matches!(called.kind, BodyNode::Cedar) {
        return Err(refuse(head.span, Reason::CedarInCondition(head.name)));
    }
    let heading = called.definition.heading;
    if heading.count != head.count {
        return Err(wrong_count(heading, head));
    }
    substitute_call(definition, call, limit, file, called, head, first, c)
}
