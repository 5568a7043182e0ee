// The walk over a condition: what has no macro in it is copied, and a call becomes what its macro makes of it. `nesting` is what is left
// of it where a node is read, and `n` what is left below the node. The functions stand in the Rust's order and have the Rust's names
// without their `temporal_`, each with its helpers behind it. `x`, `c` and `res` stand side by side: a struct that holds a `&mut`, nested
// in another, does not tell the lender its final value.
#![tactic(auto)]

ghost use Rattle.std.specs.Prelude.{◌≡◌, Ok};
ghost use Rattle.walk_state.specs.Writing as one;
ghost use Rattle.expand_calls.specs.Output.{reads_of, going_at, Expands};
ghost use Rattle.expand_stray.specs.Concrete.{concrete_within_in, concrete_slot_in, concrete_binders_in};
ghost use Rattle.walk_state.specs.Reading.{behind_in};
ghost use Rattle.expand_walk.specs.Walkers.{walkers, stray_in, condition_node_in, both_in, inner_in, since_in, refine_in, operand_node_in, stray_term_in, sides_in, to_condition_in, to_value_in, called_in, items_in, arg_in, condition_arg_in};

use expand_calls::output::{Expansion, copy_own_after, past_all, refold};
use expand_calls::{calls_value, condition_macro, level_above, outcome, value_macro};
use expand_stray::{
    check_concrete_binder, check_concrete_binders, check_concrete_fields, check_concrete_slot,
    check_concrete_within,
};
use grammar::code;
use grammar::codes::{ARGUMENT, TERM};
use messages::{Reason, Refused, refuse};
use nodes::{
    AggNode, ArgNode, ConditionNode, Heading, Refusal, Sigil, TermNode, expect, read_agg,
    read_argument, read_condition, read_heading, read_term,
};
use subst_call::{Macro, wrong_count};
use subst_state::run::copy_to;
use tape::layout::{Place, Tape};
use walk_state::reading::behind;
use walk_state::writing::Cursor;

// The Rust's `expand_temporal_condition`.
#[cycle(walk)]
#[tactic(auto, using(crate::proofs::Walking::down_condition), unfolding(crate::specs::Walkers::walkers, nodes::specs::Node::span_of))]
pub fn expand_condition(
    nesting: usize,
    x: &Expansion,
    c: &mut Cursor,
    res: &mut [u8],
) -> Result<(), Refused>
    ensures { Expands c.old c.new result res.new ((walkers (reads_of x.now) nesting).condition (going_at c.old res.old)) }
{
    let n = nesting.checked_sub(1).ok_or(Refused::TOO_DEEP)?;
    let (node, next) = read_condition(&x.condition, c.place)?;
    condition(n, x, c, res, node, next)
}

// The condition whose own entries end at `next`.
#[cycle(walk)]
#[tactic(auto, using(crate::proofs::Walking::fields_at), unfolding(crate::specs::Walkers::condition_node_in, crate::specs::Walkers::stray_in, expand_calls::specs::Output::copy_own_in, walk_state::specs::Reading::refused_in))]
fn condition(
    n: usize,
    x: &Expansion,
    c: &mut Cursor,
    res: &mut [u8],
    node: ConditionNode,
    next: Place,
) -> Result<(), Refused>
    ensures { Expands c.old c.new result res.new (condition_node_in (reads_of x.now) (walkers (reads_of x.now) n) node (one.state_at c.old) next c.old.bytes.now res.old) }
{
    let found = check_stray(n, &x.condition, node, next);
    match node {
        ConditionNode::And(_) | ConditionNode::Or(_) => both(n, x, c, res, next),
        ConditionNode::Not(_)
        | ConditionNode::Formerly(_)
        | ConditionNode::Previous(_)
        | ConditionNode::Exists(_) => inner(n, x, c, res, found),
        ConditionNode::Since(span) => since(n, x, c, res, span, next),
        ConditionNode::Predicate(_) | ConditionNode::Tp(_) | ConditionNode::SigilRef(_, _, _) => {
            copy_to(&x.condition, c, found?);
            Ok(())
        }
        ConditionNode::Comparison(_) => sides(n, x, c, res, next),
        ConditionNode::Call(_) => expand_call_to_condition(n, x, c, res, next),
        ConditionNode::Refine(_, own) => refine(n, x, c, res, own, next),
    }
}

// What is looked at of a condition before it is walked, and where it ends: a within, a binder, a slot or the fields of a predicate. A
// stray sigil is refused. A Since looks for its within behind its left side.
#[tactic(auto, unfolding(crate::specs::Walkers::stray_in, walk_state::specs::Reading::refused_in))]
fn check_stray(n: usize, cond: &Tape, node: ConditionNode, next: Place) -> Result<Place, Refused>
    ensures { result ≡ stray_in cond.now.bytes.now cond.now.layout n node next }
{
    match node {
        ConditionNode::Formerly(span) | ConditionNode::Previous(span) => {
            check_concrete_within(cond, span, next)
        }
        ConditionNode::Predicate(span) => check_concrete_fields(n, cond, span, next),
        ConditionNode::Tp(span) => check_concrete_slot(cond, span, next),
        ConditionNode::Exists(span) => check_concrete_binder(cond, span, next),
        ConditionNode::SigilRef(span, sigil, name) => {
            Err(refuse(span, Reason::StrayCondition(sigil, name)))
        }
        ConditionNode::And(_)
        | ConditionNode::Or(_)
        | ConditionNode::Not(_)
        | ConditionNode::Since(_)
        | ConditionNode::Comparison(_)
        | ConditionNode::Call(_)
        | ConditionNode::Refine(_, _) => Ok(next),
    }
}

// The two conditions of an And or an Or.
#[cycle(walk)]
#[tactic(auto, using(crate::proofs::Walking::hands_on_condition), unfolding(crate::specs::Walkers::both_in, expand_calls::specs::Output::copy_own_in))]
fn both(n: usize, x: &Expansion, c: &mut Cursor, res: &mut [u8], next: Place) -> Result<(), Refused>
    ensures { Expands c.old c.new result res.new (both_in (reads_of x.now) (walkers (reads_of x.now) n) (one.state_at c.old) next c.old.bytes.now res.old) }
{
    copy_to(&x.condition, c, next);
    expand_condition(n, x, c, res)?;
    expand_condition(n, x, c, res)
}

// The one condition behind what was looked at.
#[cycle(walk)]
#[tactic(auto, using(crate::proofs::Walking::hands_on_condition), unfolding(crate::specs::Walkers::inner_in, expand_calls::specs::Output::copy_own_in))]
fn inner(
    n: usize,
    x: &Expansion,
    c: &mut Cursor,
    res: &mut [u8],
    found: Result<Place, Refused>,
) -> Result<(), Refused>
    ensures { Expands c.old c.new result res.new (inner_in (reads_of x.now) (walkers (reads_of x.now) n) (one.state_at c.old) found c.old.bytes.now res.old) }
{
    copy_to(&x.condition, c, found?);
    expand_condition(n, x, c, res)
}

// The tape has left, within, right. A refusal of the within comes before one of the left side, with what was charged before both.
#[cycle(walk)]
#[tactic(auto, using(crate::proofs::Walking::hands_on_condition), unfolding(crate::specs::Walkers::since_in, expand_calls::specs::Output::copy_own_in))]
fn since(
    n: usize,
    x: &Expansion,
    c: &mut Cursor,
    res: &mut [u8],
    span: u64,
    left: Place,
) -> Result<(), Refused>
    ensures { Expands c.old c.new result res.new (since_in (reads_of x.now) (walkers (reads_of x.now) n) span (one.state_at c.old) left c.old.bytes.now res.old) }
{
    let charged = c.charged;
    copy_to(&x.condition, c, left);
    let walked = expand_condition(n, x, c, res);
    let found = within_behind(&x.condition, span, left, &walked, c);
    copy_own_after(&x.condition, c, found, charged, walked)?;
    expand_condition(n, x, c, res)
}

// The within of a Since, behind its left side.
#[tactic(auto, unfolding(expand_stray::specs::Concrete::concrete_within_in, walk_state::specs::Reading::behind_in, walk_state::specs::Reading::passed_in))]
fn within_behind(
    cond: &Tape,
    span: u64,
    left: Place,
    walked: &Result<(), Refused>,
    c: &Cursor,
) -> Result<Place, Refused>
    ensures { result ≡ concrete_within_in cond.now.bytes.now cond.now.layout span (behind_in cond.now.bytes.now cond.now.layout left (one.place_of (one.came_to walked.now c.now).walk)) }
{
    let p = behind(cond, left, &walked.and(Ok(c.place)))?;
    check_concrete_within(cond, span, p)
}

// The two sides of a comparison or of arithmetic.
#[cycle(walk)]
#[tactic(auto, using(crate::proofs::Walking::hands_on_operand), unfolding(crate::specs::Walkers::sides_in, expand_calls::specs::Output::copy_own_in))]
fn sides(
    n: usize,
    x: &Expansion,
    c: &mut Cursor,
    res: &mut [u8],
    next: Place,
) -> Result<(), Refused>
    ensures { Expands c.old c.new result res.new (sides_in (reads_of x.now) (walkers (reads_of x.now) n) (one.state_at c.old) next c.old.bytes.now res.old) }
{
    copy_to(&x.condition, c, next);
    expand_operand(n, x, c, res)?;
    expand_operand(n, x, c, res)
}

// The base, then the fold.
#[cycle(walk)]
#[tactic(auto, unfolding(crate::specs::Walkers::refine_in, expand_calls::specs::Output::refold_in))]
fn refine(
    n: usize,
    x: &Expansion,
    c: &mut Cursor,
    res: &mut [u8],
    own: u64,
    next: Place,
) -> Result<(), Refused>
    ensures { Expands c.old c.new result res.new (refine_in (reads_of x.now) (walkers (reads_of x.now) n) own (one.state_at c.old) next c.old.bytes.now res.old) }
{
    let base = c.out.n;
    c.place = next;
    expand_condition(n, x, c, res)?;
    refold(&x.condition, c, res, own, base, next)
}

// The Rust's `expand_temporal_agg`: the aggregate behind a 30, which stands at `p`. A call takes the whole term's place.
#[cycle(walk)]
#[tactic(auto, using(crate::proofs::Walking::down_agg), unfolding(crate::specs::Walkers::walkers, crate::specs::Walkers::agg_node_in, nodes::specs::Node::agg_at, nodes::specs::Node::span_of, nodes::specs::Node::refusal_of))]
fn expand_agg(
    nesting: usize,
    x: &Expansion,
    c: &mut Cursor,
    res: &mut [u8],
    p: Place,
) -> Result<(), Refused>
    ensures { Expands c.old c.new result res.new ((walkers (reads_of x.now) nesting).agg (one.state_at c.old) p c.old.bytes.now res.old) }
{
    let n = nesting.checked_sub(1).ok_or(Refused::TOO_DEEP)?;
    let (node, next) = read_agg(&x.condition, p)?;
    match node {
        AggNode::Sum(span) => {
            let found = check_sum(&x.condition, span, next);
            inner(n, x, c, res, found)
        }
        AggNode::Count(span) => {
            let found = check_concrete_binders(&x.condition, span, next);
            inner(n, x, c, res, found)
        }
        AggNode::Call(_) => expand_call_to_value(n, x, c, res, next),
    }
}

// The slot of a sum and its list of binders.
#[tactic(auto, unfolding(expand_stray::specs::Concrete::concrete_binders_in))]
fn check_sum(cond: &Tape, span: u64, p: Place) -> Result<Place, Refused>
    ensures { result ≡ concrete_binders_in cond.now.bytes.now cond.now.layout span (concrete_slot_in cond.now.bytes.now cond.now.layout span (Ok p)) }
{
    let slot = check_concrete_slot(cond, span, p)?;
    check_concrete_binders(cond, span, slot)
}

// The Rust's `expand_temporal_operand`.
#[cycle(walk)]
#[tactic(auto, using(crate::proofs::Walking::down_operand), unfolding(crate::specs::Walkers::walkers, nodes::specs::Node::span_of))]
fn expand_operand(
    nesting: usize,
    x: &Expansion,
    c: &mut Cursor,
    res: &mut [u8],
) -> Result<(), Refused>
    ensures { Expands c.old c.new result res.new ((walkers (reads_of x.now) nesting).operand (going_at c.old res.old)) }
{
    let n = nesting.checked_sub(1).ok_or(Refused::TOO_DEEP)?;
    let (node, next) = read_term(&x.condition, c.place)?;
    operand(n, x, c, res, node, next)
}

// Of a term only aggregates, arithmetic and calls are entered.
#[cycle(walk)]
#[tactic(auto, unfolding(crate::specs::Walkers::operand_node_in, crate::specs::Walkers::stray_term_in, expand_calls::specs::Output::copy_own_in, walk_state::specs::Reading::refused_in))]
fn operand(
    n: usize,
    x: &Expansion,
    c: &mut Cursor,
    res: &mut [u8],
    node: TermNode,
    next: Place,
) -> Result<(), Refused>
    ensures { Expands c.old c.new result res.new (operand_node_in (reads_of x.now) (walkers (reads_of x.now) n) node (one.state_at c.old) next c.old.bytes.now res.old) }
{
    match node {
        TermNode::Agg => expand_agg(n, x, c, res, next),
        TermNode::Arith => sides(n, x, c, res, next),
        TermNode::ParamRef(_)
        | TermNode::BinderRef(_)
        | TermNode::Array(_)
        | TermNode::Var(_)
        | TermNode::Plain => {
            let end = check_stray_term(&x.condition, node, c.place, next)?;
            copy_to(&x.condition, c, end);
            Ok(())
        }
    }
}

// Where a term ends that stands at `p` and is not walked. A stray sigil is refused, and an array is passed whole.
#[tactic(auto, unfolding(crate::specs::Walkers::stray_term_in, walk_state::specs::Reading::refused_in))]
fn check_stray_term(cond: &Tape, node: TermNode, p: Place, next: Place) -> Result<Place, Refused>
    ensures { result ≡ stray_term_in cond.now.bytes.now cond.now.layout node p next }
{
    match node {
        TermNode::ParamRef(name) => Err(refuse(0, Reason::StrayOperand(Sigil::Param, name))),
        TermNode::BinderRef(name) => Err(refuse(0, Reason::StrayOperand(Sigil::Binder, name))),
        TermNode::Array(_) => past_all(cond, p, TERM),
        TermNode::Agg | TermNode::Arith | TermNode::Var(_) | TermNode::Plain => Ok(next),
    }
}

// The Rust's `expand_temporal_call_to_condition`: the outcome takes the place of the 11, with spans of its own. This and
// `expand_call_to_value` are three lines each over `called`; one function would be told which macro to ask for, for as many.
#[cycle(walk)]
#[tactic(auto, unfolding(crate::specs::Walkers::to_condition_in, nodes::specs::Node::heading_at, nodes::specs::Node::span_of, nodes::specs::Node::refusal_of))]
fn expand_call_to_condition(
    n: usize,
    x: &Expansion,
    c: &mut Cursor,
    res: &mut [u8],
    p: Place,
) -> Result<(), Refused>
    ensures { Expands c.old c.new result res.new (to_condition_in (reads_of x.now) (walkers (reads_of x.now) n) (one.state_at c.old) p c.old.bytes.now res.old) }
{
    let (call, first) = read_heading(&x.condition, p, code::CALLED)?;
    let def = condition_macro(x, call)?;
    called(n, x, c, res, def, call, p, first)
}

// A call of a macro of the right kind: 34; the call with its arguments at the next level; what it becomes.
#[cycle(walk)]
#[tactic(auto, using(crate::proofs::Walking::outcome_hands_on), unfolding(crate::specs::Walkers::called_in, expand_calls::specs::Output::copy_own_in))]
fn called(
    n: usize,
    x: &Expansion,
    c: &mut Cursor,
    res: &mut [u8],
    def: Macro,
    call: Heading,
    p: Place,
    first: Place,
) -> Result<(), Refused>
    ensures { Expands c.old c.new result res.new (called_in (reads_of x.now) (walkers (reads_of x.now) n) def call (one.state_at c.old) p first c.old.bytes.now res.old) }
{
    let heading = def.definition.heading;
    if heading.count != call.count {
        return Err(wrong_count(heading, call));
    }
    let out = c.out;
    c.place = p;
    c.out = level_above(out);
    copy_to(&x.condition, c, first);
    expand_call_args(n, x, c, res, call.count)?;
    outcome(x, c, res, def, call, out)
}

// The Rust's `expand_temporal_call_args`, with a loop of its own (`subst_places::places::binders`): as a part of the cycle a closure for
// an argument would need a contract and measures.
#[cycle(walk)]
#[tactic(auto, using(crate::proofs::Walking::item_passed, crate::proofs::Walking::turn_refused, crate::proofs::Walking::items_passed))]
fn expand_call_args(
    n: usize,
    x: &Expansion,
    c: &mut Cursor,
    res: &mut [u8],
    count: u64,
) -> Result<(), Refused>
    ensures { Expands c.old c.new result res.new (items_in (arg_in (reads_of x.now) (walkers (reads_of x.now) n)) count (going_at c.old res.old)) }
{
    for _ in 0..count {
        arg(n, x, c, res)?;
    }
    Ok(())
}

#[cycle(walk)]
#[tactic(auto, using(crate::proofs::Walking::hands_on_operand), unfolding(crate::specs::Walkers::arg_in, expand_calls::specs::Output::copy_own_in, nodes::specs::Node::argument_at, nodes::specs::Node::span_of, nodes::specs::Node::refusal_of))]
fn arg(n: usize, x: &Expansion, c: &mut Cursor, res: &mut [u8]) -> Result<(), Refused>
    ensures { Expands c.old c.new result res.new (arg_in (reads_of x.now) (walkers (reads_of x.now) n) (going_at c.old res.old)) }
{
    let (kind, next) = read_argument(&x.condition, c.place)?;
    match kind {
        ArgNode::Condition => cond_arg(n, x, c, res, next),
        ArgNode::Term => {
            copy_to(&x.condition, c, next);
            expand_operand(n, x, c, res)
        }
        ArgNode::Within => {
            let end = past_all(&x.condition, c.place, ARGUMENT)?;
            copy_to(&x.condition, c, end);
            Ok(())
        }
    }
}

// The argument that is a condition: a bare call of a value macro becomes a term, and any other stays a condition.
#[cycle(walk)]
#[tactic(auto, unfolding(crate::specs::Walkers::condition_arg_in))]
fn cond_arg(
    n: usize,
    x: &Expansion,
    c: &mut Cursor,
    res: &mut [u8],
    p: Place,
) -> Result<(), Refused>
    ensures { Expands c.old c.new result res.new (condition_arg_in (reads_of x.now) (walkers (reads_of x.now) n) (one.state_at c.old) p c.old.bytes.now res.old) }
{
    if calls_value(x, p) {
        return value_arg(n, x, c, res, p);
    }
    inner(n, x, c, res, Ok(p))
}

// The bare call at a place, as a term.
#[cycle(walk)]
#[tactic(auto, using(crate::proofs::Walking::down_value), unfolding(crate::specs::Walkers::walkers, crate::specs::Walkers::value_arg_in, nodes::specs::Node::span_of, nodes::specs::Node::refusal_of))]
fn value_arg(
    nesting: usize,
    x: &Expansion,
    c: &mut Cursor,
    res: &mut [u8],
    p: Place,
) -> Result<(), Refused>
    ensures { Expands c.old c.new result res.new ((walkers (reads_of x.now) nesting).value_arg (one.state_at c.old) p c.old.bytes.now res.old) }
{
    let n = nesting.checked_sub(1).ok_or(Refused::TOO_DEEP)?;
    let (_, call) = expect(&x.condition, p, code::CALL).ok_or(Refusal::MALFORMED)?;
    c.put(code::ARG_TERM, 0);
    c.place = p;
    expand_call_to_value(n, x, c, res, call)
}

// The Rust's `expand_temporal_call_to_value`.
#[cycle(walk)]
#[tactic(auto, unfolding(crate::specs::Walkers::to_value_in, nodes::specs::Node::heading_at, nodes::specs::Node::span_of, nodes::specs::Node::refusal_of))]
fn expand_call_to_value(
    n: usize,
    x: &Expansion,
    c: &mut Cursor,
    res: &mut [u8],
    p: Place,
) -> Result<(), Refused>
    ensures { Expands c.old c.new result res.new (to_value_in (reads_of x.now) (walkers (reads_of x.now) n) (one.state_at c.old) p c.old.bytes.now res.old) }
{
    let (call, first) = read_heading(&x.condition, p, code::CALLED)?;
    let def = value_macro(x, call)?;
    called(n, x, c, res, def, call, p, first)
}
