// The messages of document 01's refusals, written from the refusal and the tapes that spell its names.
#![tactic(auto)]

ghost use Rattle.std.specs.Prelude.{◌≡◌, length};
ghost use Rattle.buffer.specs.Buffer.{message_in};
ghost use Rattle.buffer.specs.Message.{Puts};
ghost use Rattle.messages.specs.Reason.{number_of, refused_at, message_of};
ghost use Rattle.messages.specs.Write.{filled};

use buffer::message::Message;
use buffer::zero_from;
use message_calls::body::{
    duplicate_definition, macro_in_macro, plain_identifier, reserved_name, undeclared_parameter,
};
use message_calls::call::{
    argument_count, budget_exceeded, cedar_in_condition, cedar_in_value, condition_as_value,
    unknown_macro, value_as_condition,
};
use message_parts::names::Params;
use message_places::parameter::{
    binder_as_condition, not_a_condition, not_a_predicate, not_a_term, not_an_identifier,
    not_an_interval, unbound_parameter,
};
use message_places::stray::{
    stray_condition, stray_field, stray_operand, stray_slot, stray_within,
};
use nodes::{Name, Refusal, Sigil, Span, span_of};
use tape::layout::Tape;

// Why an input is refused. A name is one of the definition's tape (a registry's too), or of the call's (a condition's too).
#[derive(Clone, Copy, Debug, PartialEq, Eq)]
pub enum Reason {
    // 1, 2, 3 and all from 48 up say nothing: the number. There is no case for each: what a read of a node refuses has its number, in the
    // form that document 01 names, and is handed on as it is, so that a case for 2, 3, 48 or 51 would stand beside this one and not in
    // its place.
    WithoutMessage(u32),
    // 10, 11: the definition's name; the span of the one before
    Reserved(Name),
    Duplicate(Name, u64),
    // 20: the name; the parameters, whose names the message lists
    Undeclared(Name, Params),
    // 21, 22
    PlainIdentifier(Name),
    MacroInMacro,
    // 30 to 33: the call's name
    UnknownMacro(Name),
    CedarInCondition(Name),
    CedarInValue(Name),
    ValueAsCondition(Name),
    ConditionAsValue(Name),
    // 34: the definition's name; how many arguments it wants, and has
    ArgumentCount(Name, u64, u64),
    // 35: the limit
    Budget(u32),
    // 36 to 40: a name of the call's tape
    StrayCondition(Sigil, Name),
    StrayWithin(Name),
    StraySlot(Sigil, Name),
    StrayField(Sigil, Name),
    StrayOperand(Sigil, Name),
    // 41 to 46: the macro's name and the parameter's; 43: the binder's alone
    Unbound(Name, Name),
    NotACondition(Name, Name),
    BinderAsCondition(Name),
    NotAnInterval(Name, Name),
    NotATerm(Name, Name),
    NotAnIdentifier(Name, Name),
    // 47: the code of the condition that is refined
    NotAPredicate(u8),
}

// A refusal: its span, and the reason, which says its number and its message.
#[derive(Clone, Copy, Debug, PartialEq, Eq)]
pub struct Refused {
    pub span: Span,
    pub reason: Reason,
}

impl Refused {
    // No nesting is left, which no accepted tape shows. The constant is the name of its 3.
    pub const TOO_DEEP: Refused = Refused {
        span: Span { start: 0, end: 0 },
        reason: Reason::WithoutMessage(3),
    };
}

// What does not stand where it is asked for has no message.
impl From<Refusal> for Refused {
    ghost use Rattle.std.specs.Prelude.{◌≡◌};
    ghost use Rattle.messages.specs.Reason.{without_message};

    ghost from_gives = { λ f r. r ≡ without_message f };

    fn from(f: Refusal) -> Refused {
        Refused {
            span: f.span,
            reason: Reason::WithoutMessage(f.number),
        }
    }
}

pub fn refuse(span: u64, reason: Reason) -> Refused
    ensures { result ≡ refused_at span reason }
{
    Refused {
        span: span_of(span),
        reason,
    }
}

// Document 01's number.
pub fn number(reason: Reason) -> u32
    ensures { result ≡ number_of reason }
{
    match reason {
        Reason::WithoutMessage(n) => n,
        Reason::Reserved(_) => 10,
        Reason::Duplicate(_, _) => 11,
        Reason::Undeclared(_, _) => 20,
        Reason::PlainIdentifier(_) => 21,
        Reason::MacroInMacro => 22,
        Reason::UnknownMacro(_) => 30,
        Reason::CedarInCondition(_) => 31,
        Reason::CedarInValue(_) => 31,
        Reason::ValueAsCondition(_) => 32,
        Reason::ConditionAsValue(_) => 33,
        Reason::ArgumentCount(_, _, _) => 34,
        Reason::Budget(_) => 35,
        Reason::StrayCondition(_, _) => 36,
        Reason::StrayWithin(_) => 37,
        Reason::StraySlot(_, _) => 38,
        Reason::StrayField(_, _) => 39,
        Reason::StrayOperand(_, _) => 40,
        Reason::Unbound(_, _) => 41,
        Reason::NotACondition(_, _) => 42,
        Reason::BinderAsCondition(_) => 43,
        Reason::NotAnInterval(_, _) => 44,
        Reason::NotATerm(_, _) => 45,
        Reason::NotAnIdentifier(_, _) => 46,
        Reason::NotAPredicate(_) => 47,
    }
}

// Writes the message of a refusal and zeros behind it, as far as the buffer reaches, and answers the message's length.
#[tactic(auto, using(crate::proofs::Filling::fills))]
pub fn write(definition: &Tape, call: &Tape, reason: Reason, message: &mut [u8]) -> usize
    ensures { message_in message.new result ≡ filled (length message.old) (message_of definition.now.bytes.now definition.now.layout call.now.bytes.now call.now.layout reason) }
{
    let mut said = Message::new(message);
    say(&mut said, definition, call, reason);
    let end = said.len;
    zero_from(message, end);
    end
}

// The message alone. Behind an empty piece a message ends within its buffer too, as behind every other.
#[tactic(auto, unfolding(crate::specs::Reason::message_of))]
fn say(m: &mut Message, definition: &Tape, call: &Tape, reason: Reason)
    ensures { Puts (message_of definition.now.bytes.now definition.now.layout call.now.bytes.now call.now.layout reason) m.old m.new }
{
    match reason {
        Reason::WithoutMessage(_) => m.put(b""),
        Reason::Reserved(n) => reserved_name(m, definition, n),
        Reason::Duplicate(n, span) => duplicate_definition(m, definition, n, span),
        Reason::Undeclared(n, params) => undeclared_parameter(m, definition, n, params),
        Reason::PlainIdentifier(n) => plain_identifier(m, definition, n),
        Reason::MacroInMacro => macro_in_macro(m),
        Reason::UnknownMacro(n) => unknown_macro(m, call, n),
        Reason::CedarInCondition(n) => cedar_in_condition(m, call, n),
        Reason::CedarInValue(n) => cedar_in_value(m, call, n),
        Reason::ValueAsCondition(n) => value_as_condition(m, call, n),
        Reason::ConditionAsValue(n) => condition_as_value(m, call, n),
        Reason::ArgumentCount(n, wanted, got) => argument_count(m, definition, n, wanted, got),
        Reason::Budget(limit) => budget_exceeded(m, limit),
        Reason::StrayCondition(g, n) => stray_condition(m, g, call, n),
        Reason::StrayWithin(n) => stray_within(m, call, n),
        Reason::StraySlot(g, n) => stray_slot(m, g, call, n),
        Reason::StrayField(g, n) => stray_field(m, g, call, n),
        Reason::StrayOperand(g, n) => stray_operand(m, g, call, n),
        Reason::Unbound(f, n) => unbound_parameter(m, definition, f, n),
        Reason::NotACondition(f, n) => not_a_condition(m, definition, f, n),
        Reason::BinderAsCondition(n) => binder_as_condition(m, definition, n),
        Reason::NotAnInterval(f, n) => not_an_interval(m, definition, f, n),
        Reason::NotATerm(f, n) => not_a_term(m, definition, f, n),
        Reason::NotAnIdentifier(f, n) => not_an_identifier(m, definition, f, n),
        Reason::NotAPredicate(code) => not_a_predicate(m, code),
    }
}
