// A call in a condition (document 01, module 7): which macro it names, and what it becomes once its arguments are expanded.
#![tactic(auto)]

ghost use Rattle.std.specs.Prelude.{◌≡◌};
ghost use Rattle.walk_state.specs.Writing as one;
ghost use Rattle.expand_calls.specs.Output.{reads_of, going_at, Expands};
ghost use Rattle.expand_calls.specs.Calls.{resolve_in, condition_macro_in, value_macro_in, calls_value_in, above, apply_in, outcome_in};

use crate::output::Expansion;
use answer::WORK_SIZE;
use area::{AREA_SIZE, Writer, empty};
use grammar::code;
use grammar::codes::CALL;
use messages::{Reason, Refused, refuse};
use nodes::{BodyNode, Heading, expect, name_at, read_heading};
use subst_call::{Macro, macro_from, refuse_too_large, substitute_call};
use tape::layout::Place;
use walk_state::writing::Cursor;

pub mod output;

// The macro that a call names.
#[tactic(auto, unfolding(crate::specs::Calls::resolve_in))]
fn resolve(x: &Expansion, call: Heading) -> Option<Macro>
    ensures { result ≡ resolve_in (reads_of x.now) call }
{
    let name = name_at(&x.condition, call.name);
    let found = x.registry.get(name)?;
    macro_from(&x.registry.tape, found)
}

// 30, 31 or 32, unless the call names a condition macro. It stands beside `value_macro`, since their refusals are others: 32 or 33, and
// 31 in other words.
#[tactic(auto, unfolding(crate::specs::Calls::condition_macro_in))]
pub fn condition_macro(x: &Expansion, call: Heading) -> Result<Macro, Refused>
    ensures { result ≡ condition_macro_in (reads_of x.now) call }
{
    let name = call.name;
    let Some(def) = resolve(x, call) else {
        return Err(refuse(call.span, Reason::UnknownMacro(name)));
    };
    match def.kind {
        BodyNode::Condition => Ok(def),
        BodyNode::Cedar => Err(refuse(call.span, Reason::CedarInCondition(name))),
        BodyNode::Value => Err(refuse(call.span, Reason::ValueAsCondition(name))),
    }
}

// 30, 31 or 33, unless the call names a value macro.
#[tactic(auto, unfolding(crate::specs::Calls::value_macro_in))]
pub fn value_macro(x: &Expansion, call: Heading) -> Result<Macro, Refused>
    ensures { result ≡ value_macro_in (reads_of x.now) call }
{
    let name = call.name;
    let Some(def) = resolve(x, call) else {
        return Err(refuse(call.span, Reason::UnknownMacro(name)));
    };
    match def.kind {
        BodyNode::Value => Ok(def),
        BodyNode::Cedar => Err(refuse(call.span, Reason::CedarInValue(name))),
        BodyNode::Condition => Err(refuse(call.span, Reason::ConditionAsValue(name))),
    }
}

// Whether the condition at a place is a bare call of a value macro.
#[tactic(auto, unfolding(crate::specs::Calls::calls_value_in))]
pub fn calls_value(x: &Expansion, p: Place) -> bool
    ensures { result ≡ calls_value_in (reads_of x.now) p }
{
    let Some((_, call)) = expect(&x.condition, p, code::CALL) else {
        return false;
    };
    let Ok((head, _)) = read_heading(&x.condition, call, code::CALLED) else {
        return false;
    };
    let Some(def) = resolve(x, head) else {
        return false;
    };
    matches!(def.kind, BodyNode::Value)
}

// The area of the next level, with nothing in it. Calls nest in one another four deep at the most, so the work buffer has it. A base
// behind every buffer stays as it is, so that the sum has an answer for every writer.
#[tactic(auto, unfolding(crate::specs::Calls::above))]
pub fn level_above(out: Writer) -> Writer
    ensures { result ≡ above out }
{
    if out.base <= WORK_SIZE {
        return empty(out.base + AREA_SIZE);
    }
    empty(out.base)
}

// The substitution of the call that stands in the cursor's area, into the area at the start of the slice that `made` has. Its arguments
// stand behind its 54, its name and its list.
#[tactic(auto, unfolding(crate::specs::Calls::apply_in))]
fn apply(
    x: &Expansion,
    c: &Cursor,
    def: Macro,
    call: Heading,
    made: &mut Cursor,
) -> Result<(), Refused>
    ensures { one.Walks made.old made.new result (apply_in x.now.registry.tape.bytes.now x.now.registry.tape.layout x.now.limit x.now.file c.now.bytes.now def call (one.state_at c.now) made.old.bytes.now) }
{
    let first = Place {
        at: 3,
        text: call.name.size,
    };
    made.restart();
    made.charged = c.charged;
    substitute_call(
        &x.registry.tape,
        &c.written(),
        x.limit,
        x.file,
        def,
        call,
        first,
        made,
    )
}

// A call whose arguments are expanded, at the level above `out`: 3 if it is too large; then the substitution, whose outcome is
// appended behind what its level holds already. That level is told by its writer alone, since the cursor has the slice of both.
#[tactic(auto, unfolding(crate::specs::Calls::outcome_in, crate::specs::Calls::into_in))]
pub fn outcome(
    x: &Expansion,
    c: &mut Cursor,
    res: &mut [u8],
    def: Macro,
    call: Heading,
    out: Writer,
) -> Result<(), Refused>
    ensures { Expands c.old c.new result res.new (outcome_in x.now.registry.tape.bytes.now x.now.registry.tape.layout x.now.limit x.now.file def call out (going_at c.old res.old)) }
{
    refuse_too_large(call.span, CALL, c)?;
    let mut made = Cursor::new(res);
    let applied = apply(x, c, def, call, &mut made);
    c.charged = made.charged;
    applied?;
    c.append_out(out, &made);
    Ok(())
}
