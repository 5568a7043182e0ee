// The walk of the body check over a body: functions that call one another, with nesting that falls. Each starts at a place, and ends
// behind what it walked or at the first refusal.
#![tactic(auto)]

ghost use Rattle.std.specs.Prelude.{◌≡◌, Ok};
ghost use Rattle.check_parts.specs.Names.{declaration};
ghost use Rattle.check_walk.specs.Walk.{fields_in, since_in, walkers};

use check_parts::{Declared, plain_ident_in_body};
use grammar::code;
use messages::{Reason, Refused, refuse};
use nodes::{
    AggNode, ConditionNode, Refusal, TermNode, expect, read_agg, read_condition, read_term,
};
use tape::layout::Place;
use walk_state::reading::{behind, past_name};

// A value body's terms have the span 0..0 outside aggregates, sides of arithmetic included.
pub fn check_temporal_value_body(nesting: usize, d: &Declared, p: Place) -> Result<Place, Refused>
    ensures { result ≡ (walkers d.now.tape.bytes.now (declaration d.now) nesting).term 0 (Ok p) }
{
    check_temporal_term(nesting, d, 0, p)
}

// A call's arguments are not looked at.
#[cycle(walk)]
#[tactic(auto, using(crate::proofs::Walking::condition_handed_on, crate::proofs::Walking::term_handed_on, crate::proofs::Walking::fields_handed_on), unfolding(crate::specs::Walk::walkers, crate::specs::Walk::condition_node_in, walk_state::specs::Reading::refused_in, walk_state::specs::Reading::without_message_of, nodes::specs::Node::span_of))]
pub fn check_temporal_condition_body(
    nesting: usize,
    d: &Declared,
    p: Place,
) -> Result<Place, Refused>
    ensures { result ≡ (walkers d.now.tape.bytes.now (declaration d.now) nesting).condition (Ok p) }
{
    let n = nesting.checked_sub(1).ok_or(Refused::TOO_DEEP)?;
    let (node, next) = read_condition(&d.tape, p)?;
    match node {
        ConditionNode::And(_) | ConditionNode::Or(_) => {
            let right = check_temporal_condition_body(n, d, next)?;
            check_temporal_condition_body(n, d, right)
        }
        ConditionNode::Not(_) => check_temporal_condition_body(n, d, next),
        ConditionNode::Formerly(span) | ConditionNode::Previous(span) => {
            let inner = d.check_within_in_body(span, next)?;
            check_temporal_condition_body(n, d, inner)
        }
        ConditionNode::Since(span) => since(n, d, span, next),
        ConditionNode::Predicate(span) => fields(n, d, span, next),
        ConditionNode::Comparison(span) => {
            let right = check_temporal_term(n, d, span, next)?;
            check_temporal_term(n, d, span, right)
        }
        ConditionNode::Tp(span) => d.check_binder_slot(span, next),
        ConditionNode::Exists(span) => {
            let inner = d.check_binder(span, next)?;
            check_temporal_condition_body(n, d, inner)
        }
        ConditionNode::SigilRef(span, kind, name) => d.check_sigil_ref(span, kind, name, next),
        ConditionNode::Refine(span, _) => {
            let own = check_temporal_condition_body(n, d, next)?;
            fields(n, d, span, own)
        }
        ConditionNode::Call(span) => Err(refuse(span, Reason::MacroInMacro)),
    }
}

// The tape has left, within, right. A refusal of the within comes before one of the left side.
#[cycle(walk)]
#[tactic(auto, using(crate::proofs::Walking::condition_handed_on), unfolding(crate::specs::Walk::since_in, walk_state::specs::Reading::and_then_in, check_parts::specs::Names::within_in))]
fn since(nesting: usize, d: &Declared, span: u64, next: Place) -> Result<Place, Refused>
    ensures { result ≡ since_in d.now.tape.bytes.now (declaration d.now) (walkers d.now.tape.bytes.now (declaration d.now) nesting) span next }
{
    let left = check_temporal_condition_body(nesting, d, next);
    let right = d.check_within_in_body(span, behind(&d.tape, next, &left)?)?;
    left?;
    check_temporal_condition_body(nesting, d, right)
}

// A list of fields. It has a loop of its own: as a part of the cycle a closure for `along` would need a contract and measures.
#[cycle(walk)]
#[tactic(auto, using(crate::proofs::Walking::term_handed_on, walk_state::proofs::Items::item_passed, walk_state::proofs::Items::item_refused, walk_state::proofs::Items::items_passed), unfolding(crate::specs::Walk::fields_in, walk_state::specs::Reading::refused_in, nodes::specs::Node::span_of, nodes::specs::Node::refusal_of))]
fn fields(nesting: usize, d: &Declared, span: u64, p: Place) -> Result<Place, Refused>
    ensures { result ≡ fields_in d.now.tape.bytes.now (declaration d.now) (walkers d.now.tape.bytes.now (declaration d.now) nesting) span (Ok p) }
{
    let (count, first) = expect(&d.tape, p, code::LIST).ok_or(Refusal::MALFORMED)?;
    let mut q = first;
    for _ in 0..count {
        q = check_temporal_term(nesting, d, span, past_name(&d.tape, q)?)?;
    }
    Ok(q)
}

#[cycle(walk)]
#[tactic(auto, using(crate::proofs::Walking::condition_handed_on), unfolding(crate::specs::Walk::walkers, crate::specs::Walk::agg_node_in, check_parts::specs::Names::binders_in, walk_state::specs::Reading::refused_in, walk_state::specs::Reading::without_message_of, nodes::specs::Node::span_of))]
fn check_temporal_agg_body(nesting: usize, d: &Declared, p: Place) -> Result<Place, Refused>
    ensures { result ≡ (walkers d.now.tape.bytes.now (declaration d.now) nesting).agg (Ok p) }
{
    let n = nesting.checked_sub(1).ok_or(Refused::TOO_DEEP)?;
    let (node, next) = read_agg(&d.tape, p)?;
    match node {
        AggNode::Sum(span) => {
            let bound = d.check_binder_slot(span, next)?;
            let inner = d.check_binders(span, bound)?;
            check_temporal_condition_body(n, d, inner)
        }
        AggNode::Count(span) => {
            let inner = d.check_binders(span, next)?;
            check_temporal_condition_body(n, d, inner)
        }
        AggNode::Call(span) => Err(refuse(span, Reason::MacroInMacro)),
    }
}

// An array's items are a loop, as a list of fields is.
#[cycle(walk)]
#[tactic(auto, using(crate::proofs::Walking::term_handed_on, walk_state::proofs::Items::item_passed, walk_state::proofs::Items::item_refused, walk_state::proofs::Items::items_passed), unfolding(crate::specs::Walk::walkers, crate::specs::Walk::term_node_in, walk_state::specs::Reading::refused_in, walk_state::specs::Reading::without_message_of, nodes::specs::Node::span_of))]
fn check_temporal_term(nesting: usize, d: &Declared, span: u64, p: Place) -> Result<Place, Refused>
    ensures { result ≡ (walkers d.now.tape.bytes.now (declaration d.now) nesting).term span (Ok p) }
{
    let n = nesting.checked_sub(1).ok_or(Refused::TOO_DEEP)?;
    let (node, next) = read_term(&d.tape, p)?;
    match node {
        TermNode::ParamRef(name) => d.check_param(span, name, next),
        TermNode::Array(count) => {
            let mut q = next;
            for _ in 0..count {
                q = check_temporal_term(n, d, span, q)?;
            }
            Ok(q)
        }
        TermNode::Agg => check_temporal_agg_body(n, d, next),
        TermNode::Arith => {
            let right = check_temporal_term(n, d, span, next)?;
            check_temporal_term(n, d, span, right)
        }
        TermNode::Var(name) => plain_ident_in_body(name, span),
        TermNode::Plain | TermNode::BinderRef(_) => Ok(next),
    }
}
