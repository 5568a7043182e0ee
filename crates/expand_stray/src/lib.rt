// Stray sigils: the parts of a condition that expansion looks at and leaves as they are. A within, a slot and a term have a check here
// and one in a body (`check_parts`, `check_walk`): each row of their matches answers otherwise, so what is common are the readers of
// `nodes` and the walks of a binder and of a list.
#![tactic(auto)]

ghost use Rattle.std.specs.Prelude.{◌≡◌, Ok};
ghost use Rattle.expand_stray.specs.Concrete.{concrete_within_in, concrete_slot_in, concrete_binder_in, concrete_binders_in, concrete_term_in, concrete_field_in, concrete_fields_in};

use grammar::codes::TERM;
use messages::{Reason, Refused, refuse};
use nodes::{Sigil, SlotNode, TermNode, WithinNode, read_slot, read_term, read_within};
use tape::layout::{Place, Tape};
use walk_state::reading::{along, binder, past_all, past_name};

#[tactic(auto, unfolding(crate::specs::Concrete::concrete_within_in, walk_state::specs::Reading::refused_in, walk_state::specs::Reading::without_message_of))]
pub fn check_concrete_within(tape: &Tape, span: u64, p: Place) -> Result<Place, Refused>
    ensures { result ≡ concrete_within_in tape.now.bytes.now tape.now.layout span (Ok p) }
{
    let (node, next) = read_within(tape, p)?;
    match node {
        WithinNode::Concrete => Ok(next),
        WithinNode::ParamRef(name) => Err(refuse(span, Reason::StrayWithin(name))),
    }
}

#[tactic(auto, unfolding(crate::specs::Concrete::concrete_slot_in, walk_state::specs::Reading::refused_in, walk_state::specs::Reading::without_message_of))]
pub fn check_concrete_slot(tape: &Tape, span: u64, p: Place) -> Result<Place, Refused>
    ensures { result ≡ concrete_slot_in tape.now.bytes.now tape.now.layout span (Ok p) }
{
    let (node, next) = read_slot(tape, p)?;
    match node {
        SlotNode::Name(_) => Ok(next),
        SlotNode::ParamRef(name) => Err(refuse(span, Reason::StraySlot(Sigil::Param, name))),
        SlotNode::BinderRef(name) => Err(refuse(span, Reason::StraySlot(Sigil::Binder, name))),
    }
}

// A slot and its type.
#[tactic(auto, unfolding(crate::specs::Concrete::concrete_binder_in))]
pub fn check_concrete_binder(tape: &Tape, span: u64, p: Place) -> Result<Place, Refused>
    ensures { result ≡ concrete_binder_in tape.now.bytes.now tape.now.layout span (Ok p) }
{
    binder(tape, p, |q| check_concrete_slot(tape, span, q))
}

// A list of slots with types.
pub fn check_concrete_binders(tape: &Tape, span: u64, p: Place) -> Result<Place, Refused>
    ensures { result ≡ concrete_binders_in tape.now.bytes.now tape.now.layout span (Ok p) }
{
    along(tape, p, |q| check_concrete_binder(tape, span, q))
}

// Only arrays are entered: aggregates and arithmetic are passed whole. An array's items are a loop, as in the check of a body: `along`
// reads the list's entry first, and a function that calls itself would need a contract and measures for its closure.
#[tactic(auto, using(walk_state::proofs::Items::item_passed, walk_state::proofs::Items::item_refused, walk_state::proofs::Items::items_passed), unfolding(crate::specs::Concrete::concrete_term_in, crate::specs::Concrete::concrete_node_in, walk_state::specs::Reading::passed_in, walk_state::specs::Reading::refused_in, walk_state::specs::Reading::without_message_of, nodes::specs::Node::span_of))]
fn check_concrete_term(nesting: usize, tape: &Tape, span: u64, p: Place) -> Result<Place, Refused>
    ensures { result ≡ concrete_term_in tape.now.bytes.now tape.now.layout nesting span (Ok p) }
{
    let n = nesting.checked_sub(1).ok_or(Refused::TOO_DEEP)?;
    let (node, next) = read_term(tape, p)?;
    match node {
        TermNode::ParamRef(name) => Err(refuse(span, Reason::StrayField(Sigil::Param, name))),
        TermNode::BinderRef(name) => Err(refuse(span, Reason::StrayField(Sigil::Binder, name))),
        TermNode::Array(count) => {
            let mut q = next;
            for _ in 0..count {
                q = check_concrete_term(n, tape, span, q)?;
            }
            Ok(q)
        }
        TermNode::Agg | TermNode::Arith => past_all(tape, p, TERM),
        TermNode::Var(_) | TermNode::Plain => Ok(next),
    }
}

// A list of fields.
pub fn check_concrete_fields(
    nesting: usize,
    tape: &Tape,
    span: u64,
    p: Place,
) -> Result<Place, Refused>
    ensures { result ≡ concrete_fields_in tape.now.bytes.now tape.now.layout nesting span (Ok p) }
{
    along(tape, p, |q| check_concrete_field(nesting, tape, span, q))
}

// A field's term.
#[tactic(auto, using(crate::proofs::Terms::field_refused))]
fn check_concrete_field(nesting: usize, tape: &Tape, span: u64, p: Place) -> Result<Place, Refused>
    ensures { result ≡ concrete_field_in tape.now.bytes.now tape.now.layout nesting span (Ok p) }
{
    check_concrete_term(nesting, tape, span, past_name(tape, p)?)
}
