// The walk over a body: its own entries are copied, and a sigil becomes what the call gives for it. `nesting` is what is left
// of it where a node is read, and `n` what is left below the node. When the output is full the walk goes on, since a refusal that it
// meets later comes first.
#![tactic(auto)]

ghost use Rattle.walk_state.specs.Writing.{Walks, state_at, going_at};
ghost use Rattle.subst_places.specs.Parameters.{tapes_of, items_in};
ghost use Rattle.subst_walk.specs.Walkers.{walkers, condition_node_in, agg_node_in, term_node_in, both_in, inner_in, formerly_in, since_in, predicate_in, field_in, sides_in, tp_in, exists_in, inject_in, refine_in};

use grammar::code;
use messages::{Reason, Refused, refuse};
use nodes::{
    AggNode, ConditionNode, Refusal, TermNode, expect, read_agg, read_condition, read_term,
};
use subst_places::places::{
    param_term, put_within, since_within, subst_binder, subst_binder_slot, subst_binders,
    subst_sigil_ref, subst_within,
};
use subst_places::refine::{fold_refine, shape_of};
use subst_state::maps::Substitution;
use tape::layout::Place;
use walk_state::writing::Cursor;

#[tactic(auto, using(crate::proofs::Walking::one_down_condition), unfolding(crate::specs::Walkers::walkers, nodes::specs::Node::span_of))]
#[cycle(walk)]
pub fn subst_temporal_condition(
    nesting: usize,
    s: &Substitution,
    c: &mut Cursor,
) -> Result<(), Refused>
    ensures { Walks c.old c.new result ((walkers (tapes_of s.now) nesting).condition (going_at c.old)) }
{
    let n = nesting.checked_sub(1).ok_or(Refused::TOO_DEEP)?;
    let (node, next) = read_condition(&s.definition, c.place)?;
    condition(n, s, c, node, next)
}

#[tactic(auto, unfolding(crate::specs::Walkers::condition_node_in))]
#[cycle(walk)]
fn condition(
    n: usize,
    s: &Substitution,
    c: &mut Cursor,
    node: ConditionNode,
    next: Place,
) -> Result<(), Refused>
    ensures { Walks c.old c.new result (condition_node_in (tapes_of s.now) (walkers (tapes_of s.now) n) node (state_at c.old) next c.old.bytes.now) }
{
    match node {
        ConditionNode::And(_) | ConditionNode::Or(_) => both(n, s, c, next),
        ConditionNode::Not(_) => inner(n, s, c, next),
        ConditionNode::Formerly(span) | ConditionNode::Previous(span) => {
            formerly(n, s, c, span, next)
        }
        ConditionNode::Since(span) => since(n, s, c, span, next),
        ConditionNode::Predicate(span) => predicate(n, s, c, span, next),
        ConditionNode::Comparison(span) => sides(n, s, c, span, next),
        ConditionNode::Tp(span) => tp(s, c, span, next),
        ConditionNode::Exists(span) => exists(n, s, c, span, next),
        ConditionNode::Refine(span, own) => refine(n, s, c, span, own, next),
        ConditionNode::SigilRef(span, sigil, name) => {
            subst_sigil_ref(s, c, span, sigil, name, next)
        }
        ConditionNode::Call(span) => Err(refuse(
            span,
            Reason::WithoutMessage(numbers::CALL_MET_IN_BODY),
        )),
    }
}

// The two conditions of an And or an Or.
#[tactic(auto, using(crate::proofs::Walking::hands_on_condition), unfolding(crate::specs::Walkers::both_in))]
#[cycle(walk)]
fn both(n: usize, s: &Substitution, c: &mut Cursor, next: Place) -> Result<(), Refused>
    ensures { Walks c.old c.new result (both_in (tapes_of s.now) (walkers (tapes_of s.now) n) (state_at c.old) next c.old.bytes.now) }
{
    s.copy_own(c, next);
    subst_temporal_condition(n, s, c)?;
    subst_temporal_condition(n, s, c)
}

#[tactic(auto, unfolding(crate::specs::Walkers::inner_in))]
#[cycle(walk)]
fn inner(n: usize, s: &Substitution, c: &mut Cursor, next: Place) -> Result<(), Refused>
    ensures { Walks c.old c.new result (inner_in (tapes_of s.now) (walkers (tapes_of s.now) n) (state_at c.old) next c.old.bytes.now) }
{
    s.copy_own(c, next);
    subst_temporal_condition(n, s, c)
}

// Formerly and Previous: the within, then the condition.
#[tactic(auto, using(crate::proofs::Walking::hands_on_condition), unfolding(crate::specs::Walkers::formerly_in))]
#[cycle(walk)]
fn formerly(
    n: usize,
    s: &Substitution,
    c: &mut Cursor,
    span: u64,
    next: Place,
) -> Result<(), Refused>
    ensures { Walks c.old c.new result (formerly_in (tapes_of s.now) (walkers (tapes_of s.now) n) span (state_at c.old) next c.old.bytes.now) }
{
    let charged = c.charged;
    s.copy_own(c, next);
    let found = subst_within(s, span, next);
    put_within(s, c, found, charged, Ok(()))?;
    subst_temporal_condition(n, s, c)
}

// The tape has left, within, right. A refusal of the within comes before one of the left side, with what was charged before both.
#[tactic(auto, using(crate::proofs::Walking::hands_on_condition), unfolding(crate::specs::Walkers::since_in))]
#[cycle(walk)]
fn since(n: usize, s: &Substitution, c: &mut Cursor, span: u64, left: Place) -> Result<(), Refused>
    ensures { Walks c.old c.new result (since_in (tapes_of s.now) (walkers (tapes_of s.now) n) span (state_at c.old) left c.old.bytes.now) }
{
    let charged = c.charged;
    s.copy_own(c, left);
    let walked = subst_temporal_condition(n, s, c);
    let found = since_within(s, span, left, &walked, c);
    put_within(s, c, found, charged, walked)?;
    subst_temporal_condition(n, s, c)
}

#[tactic(auto, unfolding(crate::specs::Walkers::predicate_in, nodes::specs::Node::span_of, nodes::specs::Node::refusal_of))]
#[cycle(walk)]
fn predicate(
    n: usize,
    s: &Substitution,
    c: &mut Cursor,
    span: u64,
    next: Place,
) -> Result<(), Refused>
    ensures { Walks c.old c.new result (predicate_in (tapes_of s.now) (walkers (tapes_of s.now) n) span (state_at c.old) next c.old.bytes.now) }
{
    let (count, first) = expect(&s.definition, next, code::LIST).ok_or(Refusal::MALFORMED)?;
    s.copy_own(c, first);
    fields(n, s, c, span, count)
}

// The fields one after the other, in a loop of their own (`subst_places::places::binders`): as a part of the cycle a closure for a field
// would need a contract and measures.
#[tactic(auto, using(subst_places::proofs::Items::item_passed, subst_places::proofs::Items::turn_refused, subst_places::proofs::Items::items_passed))]
#[cycle(walk)]
fn fields(n: usize, s: &Substitution, c: &mut Cursor, span: u64, count: u64) -> Result<(), Refused>
    ensures { Walks c.old c.new result (items_in (field_in (tapes_of s.now) (walkers (tapes_of s.now) n) span) count (going_at c.old)) }
{
    for _ in 0..count {
        field(n, s, c, span)?;
    }
    Ok(())
}

// A name and a term.
#[tactic(auto, unfolding(crate::specs::Walkers::field_in, nodes::specs::Node::span_of, nodes::specs::Node::refusal_of))]
#[cycle(walk)]
fn field(n: usize, s: &Substitution, c: &mut Cursor, span: u64) -> Result<(), Refused>
    ensures { Walks c.old c.new result (field_in (tapes_of s.now) (walkers (tapes_of s.now) n) span (going_at c.old)) }
{
    let (_, value) = expect(&s.definition, c.place, code::TEXT).ok_or(Refusal::MALFORMED)?;
    s.copy_own(c, value);
    subst_temporal_term(n, s, c, span)
}

// A comparison's two terms, and those of arithmetic, with the span that messages show.
#[tactic(auto, using(crate::proofs::Walking::hands_on_term), unfolding(crate::specs::Walkers::sides_in))]
#[cycle(walk)]
fn sides(n: usize, s: &Substitution, c: &mut Cursor, span: u64, next: Place) -> Result<(), Refused>
    ensures { Walks c.old c.new result (sides_in (tapes_of s.now) (walkers (tapes_of s.now) n) span (state_at c.old) next c.old.bytes.now) }
{
    s.copy_own(c, next);
    subst_temporal_term(n, s, c, span)?;
    subst_temporal_term(n, s, c, span)
}

#[tactic(auto, unfolding(crate::specs::Walkers::tp_in))]
fn tp(s: &Substitution, c: &mut Cursor, span: u64, next: Place) -> Result<(), Refused>
    ensures { Walks c.old c.new result (tp_in (tapes_of s.now) span (state_at c.old) next c.old.bytes.now) }
{
    s.copy_own(c, next);
    subst_binder_slot(s, c, span)
}

#[tactic(auto, using(crate::proofs::Walking::hands_on_condition), unfolding(crate::specs::Walkers::exists_in))]
#[cycle(walk)]
fn exists(n: usize, s: &Substitution, c: &mut Cursor, span: u64, next: Place) -> Result<(), Refused>
    ensures { Walks c.old c.new result (exists_in (tapes_of s.now) (walkers (tapes_of s.now) n) span (state_at c.old) next c.old.bytes.now) }
{
    s.copy_own(c, next);
    subst_binder(s, c, span)?;
    subst_temporal_condition(n, s, c)
}

// Base, fields, then the fold: the fields stand behind the base's own, and the base's count grows.
#[tactic(auto, unfolding(crate::specs::Walkers::refine_in, crate::specs::Walkers::inject_in))]
#[cycle(walk)]
fn refine(
    n: usize,
    s: &Substitution,
    c: &mut Cursor,
    span: u64,
    own: u64,
    next: Place,
) -> Result<(), Refused>
    ensures { Walks c.old c.new result (refine_in (tapes_of s.now) (walkers (tapes_of s.now) n) span own (state_at c.old) next c.old.bytes.now) }
{
    let shape = shape_of(s, next);
    let base = c.out.n;
    c.place = next;
    subst_temporal_condition(n, s, c)?;
    inject(n, s, c, span, base, own, shape)
}

// The fields behind a base that was written at entry `base`, and their fold.
#[tactic(auto, unfolding(crate::specs::Walkers::inject_in, subst_places::specs::Refines::fold_in, nodes::specs::Node::span_of, nodes::specs::Node::refusal_of))]
#[cycle(walk)]
fn inject(
    n: usize,
    s: &Substitution,
    c: &mut Cursor,
    span: u64,
    base: usize,
    own: u64,
    shape: u8,
) -> Result<(), Refused>
    ensures { Walks c.old c.new result (inject_in (tapes_of s.now) (walkers (tapes_of s.now) n) span base own shape (going_at c.old)) }
{
    let (count, first) = expect(&s.definition, c.place, code::LIST).ok_or(Refusal::MALFORMED)?;
    c.place = first;
    fields(n, s, c, span, count)?;
    fold_refine(c, base, count, own, shape)
}

#[tactic(auto, using(crate::proofs::Walking::one_down_agg), unfolding(crate::specs::Walkers::walkers, crate::specs::Walkers::on_agg, nodes::specs::Node::agg_at, nodes::specs::Node::span_of, nodes::specs::Node::refusal_of))]
#[cycle(walk)]
fn subst_temporal_agg(nesting: usize, s: &Substitution, c: &mut Cursor) -> Result<(), Refused>
    ensures { Walks c.old c.new result ((walkers (tapes_of s.now) nesting).agg (going_at c.old)) }
{
    let n = nesting.checked_sub(1).ok_or(Refused::TOO_DEEP)?;
    let (node, next) = read_agg(&s.definition, c.place)?;
    agg(n, s, c, node, next)
}

#[tactic(auto, using(crate::proofs::Walking::hands_on_condition, crate::proofs::Walking::hands_on_binders), unfolding(crate::specs::Walkers::agg_node_in))]
#[cycle(walk)]
fn agg(
    n: usize,
    s: &Substitution,
    c: &mut Cursor,
    node: AggNode,
    next: Place,
) -> Result<(), Refused>
    ensures { Walks c.old c.new result (agg_node_in (tapes_of s.now) (walkers (tapes_of s.now) n) node (state_at c.old) next c.old.bytes.now) }
{
    match node {
        AggNode::Sum(span) => {
            s.copy_own(c, next);
            subst_binder_slot(s, c, span)?;
            subst_binders(s, c, span)?;
            subst_temporal_condition(n, s, c)
        }
        AggNode::Count(span) => {
            s.copy_own(c, next);
            subst_binders(s, c, span)?;
            subst_temporal_condition(n, s, c)
        }
        AggNode::Call(span) => Err(refuse(span, Reason::WithoutMessage(numbers::CALL_MET_IN_BODY))),
    }
}

#[tactic(auto, using(crate::proofs::Walking::one_down_term), unfolding(crate::specs::Walkers::walkers, nodes::specs::Node::span_of))]
#[cycle(walk)]
pub fn subst_temporal_term(
    nesting: usize,
    s: &Substitution,
    c: &mut Cursor,
    span: u64,
) -> Result<(), Refused>
    ensures { Walks c.old c.new result ((walkers (tapes_of s.now) nesting).term span (going_at c.old)) }
{
    let n = nesting.checked_sub(1).ok_or(Refused::TOO_DEEP)?;
    let (node, next) = read_term(&s.definition, c.place)?;
    term(n, s, c, span, node, next)
}

#[tactic(auto, unfolding(crate::specs::Walkers::term_node_in))]
#[cycle(walk)]
fn term(
    n: usize,
    s: &Substitution,
    c: &mut Cursor,
    span: u64,
    node: TermNode,
    next: Place,
) -> Result<(), Refused>
    ensures { Walks c.old c.new result (term_node_in (tapes_of s.now) (walkers (tapes_of s.now) n) span node (state_at c.old) next c.old.bytes.now) }
{
    match node {
        TermNode::ParamRef(name) => param_term(s, c, span, name, next),
        TermNode::BinderRef(name) => {
            s.gensym_for(c, code::VAR, name, next);
            Ok(())
        }
        TermNode::Array(count) => {
            s.copy_own(c, next);
            terms(n, s, c, span, count)
        }
        TermNode::Agg => {
            s.copy_own(c, next);
            subst_temporal_agg(n, s, c)
        }
        TermNode::Arith => sides(n, s, c, span, next),
        TermNode::Var(_) | TermNode::Plain => {
            s.copy_own(c, next);
            Ok(())
        }
    }
}

// The items of an array, in a loop of their own as the fields.
#[tactic(auto, using(subst_places::proofs::Items::item_passed, subst_places::proofs::Items::turn_refused, subst_places::proofs::Items::items_passed))]
#[cycle(walk)]
fn terms(n: usize, s: &Substitution, c: &mut Cursor, span: u64, count: u64) -> Result<(), Refused>
    ensures { Walks c.old c.new result (items_in ((walkers (tapes_of s.now) n).term span) count (going_at c.old)) }
{
    for _ in 0..count {
        subst_temporal_term(n, s, c, span)?;
    }
    Ok(())
}
