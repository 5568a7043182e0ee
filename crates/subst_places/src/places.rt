// The four places of a parameter, and of a binder's name: what a `?` or a `$` becomes there.
ghost use Rattle.std.specs.Prelude.{◌≡◌};
ghost use Rattle.walk_state.specs.Writing.{Walks, state_at, going_at, came_to};
ghost use Rattle.subst_state.specs.Maps.{maps_at};
ghost use Rattle.subst_places.specs.Parameters.{tapes_of, items_in, has_root, is_interval, unbound_at, param_in, sigil_ref_in, param_term_in, param_within_in, within_in, since_within_in, put_within_in, param_slot_in, binder_slot_in, binder_in, binders_in};

use grammar::code;
use messages::{Reason, Refused, refuse};
use nodes::{
    Name, Refusal, Sigil, SlotNode, WithinNode, expect, past_type, read_slot, read_within,
};
use subst_state::maps::{Argument, Substitution};
use subst_state::run::text_between;
use tape::layout::Place;
use walk_state::reading::behind;
use walk_state::writing::Cursor;

// Whether the root of an argument is of a code from `low` to `high`.
fn has_root(arg: Argument, low: u8, high: u8) -> bool
    ensures { result ≡ has_root arg low high }
{
    low <= arg.root && arg.root <= high
}

// Whether an argument is an interval: 48 to 51, or 64.
fn is_interval(arg: Argument) -> bool
    ensures { result ≡ is_interval arg }
{
    has_root(arg, code::SECONDS, code::DAYS) | has_root(arg, code::WEEKS, code::WEEKS)
}

// What a place says where the search finds no parameter. Each of the four places asks by `let .. else`, since document 01 names that form
// for the parameter search in each of them.
fn unbound(s: &Substitution, span: u64, name: Name) -> Refused
    ensures { result ≡ unbound_at (maps_at s.now) span name }
{
    refuse(span, Reason::Unbound(s.macro_name, name))
}

// ---- a condition place

// A `?` where the root of an argument is of a code from `low` to `high`; of any other argument, `other` is said.
#[tactic(auto, unfolding(crate::specs::Parameters::param_in))]
fn param(
    s: &Substitution,
    c: &mut Cursor,
    low: u8,
    high: u8,
    other: Reason,
    span: u64,
    name: Name,
    next: Place,
) -> Result<(), Refused>
    ensures { Walks c.old c.new result (param_in (tapes_of s.now) low high other span name (state_at c.old) next c.old.bytes.now) }
{
    let Some(arg) = s.arg_for(name) else {
        return Err(unbound(s, span, name));
    };
    if has_root(arg, low, high) {
        return s.charge_paste(c, arg, next);
    }
    Err(refuse(span, other))
}

#[tactic(auto, unfolding(crate::specs::Parameters::sigil_ref_in, crate::specs::Parameters::param_condition_in, crate::specs::Parameters::param_in))]
pub fn subst_sigil_ref(
    s: &Substitution,
    c: &mut Cursor,
    span: u64,
    sigil: Sigil,
    name: Name,
    next: Place,
) -> Result<(), Refused>
    ensures { Walks c.old c.new result (sigil_ref_in (tapes_of s.now) span sigil name (state_at c.old) next c.old.bytes.now) }
{
    match sigil {
        Sigil::Param => {
            let other = Reason::NotACondition(s.macro_name, name);
            param(s, c, code::AND, code::REFINE, other, span, name, next)
        }
        Sigil::Binder => Err(refuse(span, Reason::BinderAsCondition(name))),
    }
}

// ---- a within place

// Withins, slots and binders are read here as the body check reads them (`check_parts`), and what each becomes is written: of a check
// only the place behind is left, so that the reads are all that the two have in common, and those are functions of `nodes`.

// What a within becomes: its own entry, or the interval that the call gives, with the place behind it.
#[derive(Clone, Copy, Debug, PartialEq, Eq)]
pub enum Interval {
    Own(Place),
    Given(Argument, Place),
}

// Nothing is charged or written here, so that a Since can ask for its within where its left side was refused.
#[tactic(auto, unfolding(crate::specs::Parameters::within_in, nodes::specs::Node::within_at, nodes::specs::Node::span_of, nodes::specs::Node::refusal_of))]
pub fn subst_within(s: &Substitution, span: u64, p: Place) -> Result<Interval, Refused>
    ensures { result ≡ within_in s.now.definition.bytes.now s.now.args.now (maps_at s.now) span p }
{
    let (node, next) = read_within(&s.definition, p)?;
    match node {
        WithinNode::Concrete => Ok(Interval::Own(next)),
        WithinNode::ParamRef(name) => param_within(s, span, name, next),
    }
}

#[tactic(auto, unfolding(crate::specs::Parameters::param_within_in))]
fn param_within(s: &Substitution, span: u64, name: Name, next: Place) -> Result<Interval, Refused>
    ensures { result ≡ param_within_in s.now.definition.bytes.now s.now.args.now (maps_at s.now) span name next }
{
    let Some(arg) = s.arg_for(name) else {
        return Err(unbound(s, span, name));
    };
    if is_interval(arg) {
        return Ok(Interval::Given(arg, next));
    }
    Err(refuse(span, Reason::NotAnInterval(s.macro_name, name)))
}

// What the within of a Since becomes. It stands behind the left side, which was walked.
#[tactic(auto, using(crate::proofs::Behind::since_as_read, crate::proofs::Behind::read, crate::proofs::Behind::unread))]
pub fn since_within(
    s: &Substitution,
    span: u64,
    left: Place,
    walked: &Result<(), Refused>,
    c: &Cursor,
) -> Result<Interval, Refused>
    ensures { result ≡ since_within_in s.now.definition.bytes.now s.now.args.now (maps_at s.now) span left (came_to walked.now c.now).walk }
{
    let p = behind(&s.definition, left, &walked.and(Ok(c.place)))?;
    subst_within(s, span, p)
}

// Appends what a within became, behind a walk. A refusal of the within comes before one of the walk, with what was charged before it.
#[tactic(auto, unfolding(crate::specs::Parameters::put_within_in, subst_state::specs::Output::paste_in))]
pub fn put_within(
    s: &Substitution,
    c: &mut Cursor,
    found: Result<Interval, Refused>,
    charged: u32,
    walked: Result<(), Refused>,
) -> Result<(), Refused>
    ensures { Walks c.old c.new result (put_within_in s.now.definition.bytes.now s.now.call.bytes.now (maps_at s.now) found charged (came_to walked c.old)) }
{
    match found {
        Ok(Interval::Own(next)) => {
            walked?;
            s.copy_own(c, next);
            Ok(())
        }
        Ok(Interval::Given(arg, next)) => {
            walked?;
            s.paste(c, arg, next);
            Ok(())
        }
        Err(r) => {
            c.charged = charged;
            Err(r)
        }
    }
}

// ---- a term place

#[tactic(auto, unfolding(crate::specs::Parameters::param_term_in, crate::specs::Parameters::param_in))]
pub fn param_term(
    s: &Substitution,
    c: &mut Cursor,
    span: u64,
    name: Name,
    next: Place,
) -> Result<(), Refused>
    ensures { Walks c.old c.new result (param_term_in (tapes_of s.now) span name (state_at c.old) next c.old.bytes.now) }
{
    let other = Reason::NotATerm(s.macro_name, name);
    param(
        s,
        c,
        code::ENTITY,
        code::BINDER_REF,
        other,
        span,
        name,
        next,
    )
}

// ---- a slot

// 41 has the span of the condition or aggregate that the slot is in, 46 the call's.
#[tactic(auto, unfolding(crate::specs::Parameters::param_slot_in))]
fn param_slot(
    s: &Substitution,
    c: &mut Cursor,
    span: u64,
    name: Name,
    next: Place,
) -> Result<(), Refused>
    ensures { Walks c.old c.new result (param_slot_in (tapes_of s.now) span name (state_at c.old) next c.old.bytes.now) }
{
    let Some(arg) = s.arg_for(name) else {
        return Err(unbound(s, span, name));
    };
    if has_root(arg, code::VAR, code::VAR) {
        c.put_text(
            code::SLOT_NAME,
            text_between(&s.definition, &s.call, true, arg.from, arg.to),
        );
        c.place = next;
        return Ok(());
    }
    Err(refuse(s.call_span, Reason::NotAnIdentifier(s.macro_name, name)))
}

#[tactic(auto, unfolding(crate::specs::Parameters::binder_slot_in, nodes::specs::Node::slot_at, nodes::specs::Node::span_of, nodes::specs::Node::refusal_of))]
pub fn subst_binder_slot(s: &Substitution, c: &mut Cursor, span: u64) -> Result<(), Refused>
    ensures { Walks c.old c.new result (binder_slot_in (tapes_of s.now) span (going_at c.old)) }
{
    let (node, next) = read_slot(&s.definition, c.place)?;
    match node {
        SlotNode::Name(_) => s.copy_own(c, next),
        SlotNode::ParamRef(name) => return param_slot(s, c, span, name, next),
        SlotNode::BinderRef(name) => s.gensym_for(c, code::SLOT_NAME, name, next),
    }
    Ok(())
}

// A slot and its type.
#[tactic(auto, unfolding(crate::specs::Parameters::binder_in, nodes::specs::Node::span_of, nodes::specs::Node::refusal_of))]
pub fn subst_binder(s: &Substitution, c: &mut Cursor, span: u64) -> Result<(), Refused>
    ensures { Walks c.old c.new result (binder_in (tapes_of s.now) span (going_at c.old)) }
{
    subst_binder_slot(s, c, span)?;
    let next = past_type(&s.definition, c.place).ok_or(Refusal::MALFORMED)?;
    s.copy_own(c, next);
    Ok(())
}

// A list of slots and their types.
#[tactic(auto, unfolding(crate::specs::Parameters::binders_in, nodes::specs::Node::span_of, nodes::specs::Node::refusal_of))]
pub fn subst_binders(s: &Substitution, c: &mut Cursor, span: u64) -> Result<(), Refused>
    ensures { Walks c.old c.new result (binders_in (tapes_of s.now) span (going_at c.old)) }
{
    let (count, first) = expect(&s.definition, c.place, code::LIST).ok_or(Refusal::MALFORMED)?;
    s.copy_own(c, first);
    binders(s, c, span, count)
}

// A loop over items stands in each walk that writes: here, in `subst_walk`, `expand_walk` and `merge`. One function that takes a closure
// for an item, as `walk_state::reading::along` does, was tried: what a closure promises that writes to a lent cursor is a relation that
// has to be written beside it, which is longer than the loop.
#[tactic(auto, using(crate::proofs::Items::item_passed, crate::proofs::Items::turn_refused, crate::proofs::Items::items_passed))]
fn binders(s: &Substitution, c: &mut Cursor, span: u64, count: u64) -> Result<(), Refused>
    ensures { Walks c.old c.new result (items_in (binder_in (tapes_of s.now) span) count (going_at c.old)) }
{
    for _ in 0..count {
        subst_binder(s, c, span)?;
    }
    Ok(())
}
