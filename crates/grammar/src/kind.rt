// What the value of an entry is, by its code.
ghost use Rattle.std.specs.Prelude.{◌≡◌};
ghost use Rattle.format.specs.Limits.{is_node};
ghost use Rattle.format.specs.Tape.{is_text, text_width};
ghost use Rattle.grammar.specs.Kind.{kind_of};

use crate::{argument, code};

#[derive(Clone, Copy, Debug, PartialEq, Eq)]
enum ValueKind {
    Text,
    Span,
    Count,
    Plain,
}

// Document 01: "An entry with text has its length as value". One match with ranges is a form that it names.
#[tactic(auto, unfolding(format::specs::Tape::is_text, format::specs::Macro::is_code, crate::specs::Kind::is_span, crate::specs::Kind::is_count, crate::specs::Kind::kind_of))]
fn kind_of(code: u8) -> ValueKind
    ensures { result ≡ kind_of code }
{
    match code {
        code::DECIMAL..=code::STRING
        | code::VAR
        | code::PARAM_REF..=code::BINDER_REF
        | code::TEXT
        | code::SLOT_NAME..=code::SLOT_BINDER
        | code::WITHIN_PARAM
        | code::SIGIL_PARAM..=code::SIGIL_BINDER
        | argument::STRING
        | argument::DECIMAL => ValueKind::Text,
        code::AND..=code::REFINE
        | code::SUM..=code::AGG_CALL
        | code::SPAN
        | code::CALLED
        | code::DEFINITION
        | argument::METHOD_CALL => ValueKind::Span,
        code::CONTEXT_FIELD..=code::SCOPE_FIELD
        | code::ARRAY
        | code::LIST
        | code::TYPE_NAMED
        | argument::FIELD
        | argument::SET => ValueKind::Count,
        _ => ValueKind::Plain,
    }
}

// How many bytes of text an entry takes.
#[tactic(auto, unfolding(crate::specs::Kind::kind_of, format::specs::Tape::text_width))]
pub fn text_width(code: u8, value: u64) -> u64
    ensures { result ≡ text_width (is_text code) value }
{
    match kind_of(code) {
        ValueKind::Text => value,
        ValueKind::Span | ValueKind::Count | ValueKind::Plain => 0,
    }
}

// Whether an entry has text. The codes stand one by one, so that the compiler makes one test of a set of them.
#[tactic(auto, unfolding(format::specs::Tape::is_text, format::specs::Macro::is_code))]
pub fn is_text(code: u8) -> bool
    ensures { result ≡ is_text code }
{
    match code {
        code::DECIMAL => true,
        code::STRING => true,
        code::VAR => true,
        code::PARAM_REF => true,
        code::BINDER_REF => true,
        code::TEXT => true,
        code::SLOT_NAME => true,
        code::SLOT_PARAM => true,
        code::SLOT_BINDER => true,
        code::WITHIN_PARAM => true,
        code::SIGIL_PARAM => true,
        code::SIGIL_BINDER => true,
        argument::STRING => true,
        argument::DECIMAL => true,
        _ => false,
    }
}

// Whether an entry is a condition, a term or an aggregate.
#[tactic(auto, unfolding(format::specs::Limits::is_node))]
pub fn is_node(code: u8) -> bool
    ensures { result ≡ is_node code }
{
    matches!(code, code::AND..=code::REFINE | code::ENTITY..=code::AGG_CALL)
}
