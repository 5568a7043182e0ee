// The nodes of a tape, read: what stands at a place, with the next place, or a refusal; headings, and the text of names. "Next" is
// behind the node's own entries: behind the whole of a term that has no terms or conditions in it, and else where its first part
// stands. Where nothing fits, which no accepted tape shows, the refusal is 2. A match on the code has a row a code, as document 01's
// table has.
#![tactic(auto)]

ghost use Rattle.std.specs.Prelude.{◌≡◌, ◌+◌, ◌≤◌, ◌<◌};
ghost use Rattle.tape.specs.Layouts.{onward};
ghost use Rattle.nodes.specs.Node.{span_of, has_entry, has_text, entry_at, expect_at, past_entry_at, past_param_at, past_texts_at, past_heading_at, past_type_at, condition_at, predicate_at, comparison_at, refine_at, sigil_at, named, term_at, path_at, agg_at, slot_at, within_at, heading_at, argument_at, param_at, past_params_at, body_at, name_at};

use grammar::code;
use grammar::kind::text_width;
use tape::layout::{Layout, Place, Tape};

#[derive(Clone, Copy, Debug, PartialEq, Eq)]
pub struct Span {
    pub start: u32,
    pub end: u32,
}

// Why no node was read. Document 01 names the form: a refusal with a number and, nested in it, a span.
#[derive(Clone, Copy, Debug, PartialEq, Eq)]
pub struct Refusal {
    pub number: u32,
    pub span: Span,
}

impl Refusal {
    // No node of the sort that was asked for stands there, which no accepted tape shows.
    pub const MALFORMED: Refusal = Refusal {
        number: 2,
        span: Span { start: 0, end: 0 },
    };
}

// Where a name stands in a tape's text.
#[derive(Clone, Copy, Debug, PartialEq, Eq)]
pub struct Name {
    pub text: usize,
    pub size: usize,
}

#[derive(Clone, Copy, Debug, PartialEq, Eq)]
pub enum Sigil {
    Param,
    Binder,
}

#[derive(Clone, Copy, Debug, PartialEq, Eq)]
pub enum ConditionNode {
    And(u64),
    Or(u64),
    Not(u64),
    Formerly(u64),
    Previous(u64),
    Since(u64),
    // next: the list of its fields
    Predicate(u64),
    // next: its left side
    Comparison(u64),
    Exists(u64),
    Tp(u64),
    // next: the 54
    Call(u64),
    SigilRef(u64, Sigil, Name),
    // its own span too; next: the base
    Refine(u64, u64),
}

#[derive(Clone, Copy, Debug, PartialEq, Eq)]
pub enum TermNode {
    // a literal, a field's path or a wildcard: no name of a variable and no term in it
    Plain,
    Var(Name),
    Array(u64),
    Agg,
    Arith,
    ParamRef(Name),
    BinderRef(Name),
}

#[derive(Clone, Copy, Debug, PartialEq, Eq)]
pub enum AggNode {
    Sum(u64),
    Count(u64),
    Call(u64),
}

#[derive(Clone, Copy, Debug, PartialEq, Eq)]
pub enum SlotNode {
    Name(Name),
    ParamRef(Name),
    BinderRef(Name),
}

#[derive(Clone, Copy, Debug, PartialEq, Eq)]
pub enum WithinNode {
    Concrete,
    ParamRef(Name),
}

// The head of a call or of a definition: its span, its name, and how many arguments or parameters follow.
#[derive(Clone, Copy, Debug, PartialEq, Eq)]
pub struct Heading {
    pub span: u64,
    pub name: Name,
    pub count: u64,
}

#[derive(Clone, Copy, Debug, PartialEq, Eq)]
pub enum ArgNode {
    Condition,
    Term,
    Within,
}

#[derive(Clone, Copy, Debug, PartialEq, Eq)]
pub enum BodyNode {
    Cedar,
    Condition,
    Value,
}

// A span's two numbers: start + 2^32 × end.
#[tactic(auto, unfolding(crate::specs::Node::span_of))]
pub fn span_of(value: u64) -> Span
    ensures { result ≡ span_of value }
{
    Span {
        start: (value % 0x1_0000_0000) as u32,
        end: (value / 0x1_0000_0000) as u32,
    }
}

// Whether the slice holds entry `at` of a layout. No slice is read here or in `has_text`: both compare numbers, so that a length and a
// layout are enough. Both, and `name_at`, are chains of returns for speed: as one expression each, with `saturating_sub` and `get`, a use
// of one of 16 parameters takes 19 in 100 more instructions.
#[tactic(auto, unfolding(crate::specs::Node::has_entry))]
fn has_entry(len: usize, l: Layout, at: usize) -> bool
    ensures { result ≡ has_entry len l at }
{
    if len <= l.codes {
        return false;
    }
    if len - l.codes <= at {
        return false;
    }
    if len < l.values {
        return false;
    }
    at < (len - l.values) / 8
}

// Whether the slice holds a text of this size at a place.
#[tactic(auto, unfolding(crate::specs::Node::has_text))]
fn has_text(len: usize, l: Layout, p: Place, size: u64) -> bool
    ensures { result ≡ has_text len l p size }
{
    if len < l.text {
        return false;
    }
    let room = len - l.text;
    if room < p.text {
        return false;
    }
    size <= (room - p.text) as u64
}

// The place behind an entry with this much text.
fn onward(p: Place, size: u64) -> Place
    requires { (p.at < 0xFFFFFFFFFFFFFFFF) × (p.text + size ≤ 0xFFFFFFFFFFFFFFFF) }
    ensures { result ≡ onward p size }
{
    Place {
        at: p.at + 1,
        text: p.text + size as usize,
    }
}

// The entry at a place, with the next place, if the slice holds its code, its value and its text.
#[tactic(auto, using(crate::proofs::Held::entry_held, crate::proofs::Held::text_held), unfolding(crate::specs::Node::entry_at))]
pub fn entry(tape: &Tape, p: Place) -> Option<(u8, u64, Place)>
    ensures { result ≡ entry_at tape.now.bytes.now tape.now.layout p }
{
    let at = p.at;
    if !has_entry(tape.bytes.len(), tape.layout, at) {
        return None;
    }
    let code = tape.code_at(at);
    let value = tape.value_at(at);
    let size = text_width(code, value);
    if !has_text(tape.bytes.len(), tape.layout, p, size) {
        return None;
    }
    Some((code, value, onward(p, size)))
}

// The entry at a place, if it has this code. The code is looked at first, since a caller's is known and so is whether it has text.
#[tactic(auto, using(crate::proofs::Held::entry_held, crate::proofs::Held::text_held, crate::proofs::Held::expect_none, crate::proofs::Held::expect_other, crate::proofs::Held::expect_past, crate::proofs::Held::expect_value))]
pub fn expect(tape: &Tape, p: Place, code: u8) -> Option<(u64, Place)>
    ensures { result ≡ expect_at tape.now.bytes.now tape.now.layout p code }
{
    let at = p.at;
    if !has_entry(tape.bytes.len(), tape.layout, at) || tape.code_at(at) != code {
        return None;
    }
    let value = tape.value_at(at);
    let size = text_width(code, value);
    if !has_text(tape.bytes.len(), tape.layout, p, size) {
        return None;
    }
    Some((value, onward(p, size)))
}

// The place behind an entry with this code.
fn past(tape: &Tape, p: Place, code: u8) -> Option<Place>
    ensures { result ≡ past_entry_at tape.now.bytes.now tape.now.layout code p }
{
    let (_, next) = expect(tape, p, code)?;
    Some(next)
}

// The place behind `count` texts.
fn past_texts(tape: &Tape, p: Place, count: u64) -> Option<Place>
    ensures { result ≡ past_texts_at tape.now.bytes.now tape.now.layout p count }
{
    (0..count).try_fold(p, |q, _| past(tape, q, code::TEXT))
}

// The place of a predicate's fields: behind its own span, its namespace, action and kind.
#[tactic(auto, unfolding(crate::specs::Node::past_heading_at))]
fn past_heading(tape: &Tape, p: Place) -> Option<Place>
    ensures { result ≡ past_heading_at tape.now.bytes.now tape.now.layout p }
{
    let (_, list) = expect(tape, p, code::SPAN)?;
    let (count, texts) = expect(tape, list, code::LIST)?;
    let action = past_texts(tape, texts, count)?;
    past_texts(tape, action, 2)
}

// The place behind a binder's type.
#[tactic(auto, unfolding(crate::specs::Node::past_type_at))]
pub fn past_type(tape: &Tape, p: Place) -> Option<Place>
    ensures { result ≡ past_type_at tape.now.bytes.now tape.now.layout p }
{
    let (code, value, next) = entry(tape, p)?;
    match code {
        code::TYPE_TIMEPOINT => Some(next),
        code::TYPE_NAMED => past_texts(tape, next, value),
        _ => None,
    }
}

#[tactic(auto, unfolding(crate::specs::Node::condition_at, crate::specs::Node::refusal_of, crate::specs::Node::span_of))]
pub fn read_condition(tape: &Tape, p: Place) -> Result<(ConditionNode, Place), Refusal>
    ensures { result ≡ condition_at tape.now.bytes.now tape.now.layout p }
{
    let (code, value, next) = entry(tape, p).ok_or(Refusal::MALFORMED)?;
    match code {
        code::AND => Ok((ConditionNode::And(value), next)),
        code::OR => Ok((ConditionNode::Or(value), next)),
        code::NOT => Ok((ConditionNode::Not(value), next)),
        code::FORMERLY => Ok((ConditionNode::Formerly(value), next)),
        code::PREVIOUS => Ok((ConditionNode::Previous(value), next)),
        code::SINCE => Ok((ConditionNode::Since(value), next)),
        code::PREDICATE => read_predicate(tape, next, value),
        code::COMPARISON => read_comparison(tape, next, value),
        code::EXISTS => Ok((ConditionNode::Exists(value), next)),
        code::TP => Ok((ConditionNode::Tp(value), next)),
        code::CALL => Ok((ConditionNode::Call(value), next)),
        code::SIGIL_REF => read_sigil(tape, next, value),
        code::REFINE => read_refine(tape, next, value),
        _ => Err(Refusal::MALFORMED),
    }
}

#[tactic(auto, unfolding(crate::specs::Node::predicate_at, crate::specs::Node::refusal_of, crate::specs::Node::span_of))]
fn read_predicate(tape: &Tape, p: Place, span: u64) -> Result<(ConditionNode, Place), Refusal>
    ensures { result ≡ predicate_at tape.now.bytes.now tape.now.layout p span }
{
    let next = past_heading(tape, p).ok_or(Refusal::MALFORMED)?;
    Ok((ConditionNode::Predicate(span), next))
}

#[tactic(auto, unfolding(crate::specs::Node::comparison_at, crate::specs::Node::refusal_of, crate::specs::Node::span_of))]
fn read_comparison(tape: &Tape, p: Place, span: u64) -> Result<(ConditionNode, Place), Refusal>
    ensures { result ≡ comparison_at tape.now.bytes.now tape.now.layout p span }
{
    let (_, next) = expect(tape, p, code::OPERATOR).ok_or(Refusal::MALFORMED)?;
    Ok((ConditionNode::Comparison(span), next))
}

#[tactic(auto, unfolding(crate::specs::Node::refine_at, crate::specs::Node::refusal_of, crate::specs::Node::span_of))]
fn read_refine(tape: &Tape, p: Place, span: u64) -> Result<(ConditionNode, Place), Refusal>
    ensures { result ≡ refine_at tape.now.bytes.now tape.now.layout p span }
{
    let (own, next) = expect(tape, p, code::SPAN).ok_or(Refusal::MALFORMED)?;
    Ok((ConditionNode::Refine(span, own), next))
}

#[tactic(auto, unfolding(crate::specs::Node::sigil_at, crate::specs::Node::refusal_of, crate::specs::Node::span_of))]
fn read_sigil(tape: &Tape, p: Place, span: u64) -> Result<(ConditionNode, Place), Refusal>
    ensures { result ≡ sigil_at tape.now.bytes.now tape.now.layout p span }
{
    let (code, value, next) = entry(tape, p).ok_or(Refusal::MALFORMED)?;
    let name = named(p, value);
    match code {
        code::SIGIL_PARAM => Ok((ConditionNode::SigilRef(span, Sigil::Param, name), next)),
        code::SIGIL_BINDER => Ok((ConditionNode::SigilRef(span, Sigil::Binder, name), next)),
        _ => Err(Refusal::MALFORMED),
    }
}

// The name of the entry with text at a place, whose text has this size.
pub fn named(p: Place, size: u64) -> Name
    ensures { result ≡ named p size }
{
    Name {
        text: p.text,
        size: size as usize,
    }
}

#[tactic(auto, unfolding(crate::specs::Node::term_at, crate::specs::Node::refusal_of, crate::specs::Node::span_of))]
pub fn read_term(tape: &Tape, p: Place) -> Result<(TermNode, Place), Refusal>
    ensures { result ≡ term_at tape.now.bytes.now tape.now.layout p }
{
    let (code, value, next) = entry(tape, p).ok_or(Refusal::MALFORMED)?;
    let name = named(p, value);
    match code {
        code::ENTITY => read_path(tape, next, 2),
        code::INTEGER | code::DECIMAL | code::STRING | code::BOOL | code::WILDCARD => Ok((
            TermNode::Plain,
            next,
        )),
        code::CONTEXT_FIELD | code::SCOPE_FIELD => read_path(tape, next, value),
        code::VAR => Ok((TermNode::Var(name), next)),
        code::ARRAY => Ok((TermNode::Array(value), next)),
        code::AGG => Ok((TermNode::Agg, next)),
        code::ARITH => Ok((TermNode::Arith, next)),
        code::PARAM_REF => Ok((TermNode::ParamRef(name), next)),
        code::BINDER_REF => Ok((TermNode::BinderRef(name), next)),
        _ => Err(Refusal::MALFORMED),
    }
}

// A term of `count` texts.
#[tactic(auto, unfolding(crate::specs::Node::path_at, crate::specs::Node::refusal_of, crate::specs::Node::span_of))]
fn read_path(tape: &Tape, p: Place, count: u64) -> Result<(TermNode, Place), Refusal>
    ensures { result ≡ path_at tape.now.bytes.now tape.now.layout p count }
{
    let next = past_texts(tape, p, count).ok_or(Refusal::MALFORMED)?;
    Ok((TermNode::Plain, next))
}

#[tactic(auto, unfolding(crate::specs::Node::agg_at, crate::specs::Node::refusal_of, crate::specs::Node::span_of))]
pub fn read_agg(tape: &Tape, p: Place) -> Result<(AggNode, Place), Refusal>
    ensures { result ≡ agg_at tape.now.bytes.now tape.now.layout p }
{
    let (code, value, next) = entry(tape, p).ok_or(Refusal::MALFORMED)?;
    match code {
        code::SUM => Ok((AggNode::Sum(value), next)),
        code::COUNT => Ok((AggNode::Count(value), next)),
        code::AGG_CALL => Ok((AggNode::Call(value), next)),
        _ => Err(Refusal::MALFORMED),
    }
}

#[tactic(auto, unfolding(crate::specs::Node::slot_at, crate::specs::Node::refusal_of, crate::specs::Node::span_of))]
pub fn read_slot(tape: &Tape, p: Place) -> Result<(SlotNode, Place), Refusal>
    ensures { result ≡ slot_at tape.now.bytes.now tape.now.layout p }
{
    let (code, value, next) = entry(tape, p).ok_or(Refusal::MALFORMED)?;
    let name = named(p, value);
    match code {
        code::SLOT_NAME => Ok((SlotNode::Name(name), next)),
        code::SLOT_PARAM => Ok((SlotNode::ParamRef(name), next)),
        code::SLOT_BINDER => Ok((SlotNode::BinderRef(name), next)),
        _ => Err(Refusal::MALFORMED),
    }
}

#[tactic(auto, unfolding(crate::specs::Node::within_at, crate::specs::Node::refusal_of, crate::specs::Node::span_of))]
pub fn read_within(tape: &Tape, p: Place) -> Result<(WithinNode, Place), Refusal>
    ensures { result ≡ within_at tape.now.bytes.now tape.now.layout p }
{
    let (code, value, next) = entry(tape, p).ok_or(Refusal::MALFORMED)?;
    let name = named(p, value);
    match code {
        code::SECONDS | code::MINUTES | code::HOURS | code::DAYS | code::WEEKS => Ok((
            WithinNode::Concrete,
            next,
        )),
        code::WITHIN_PARAM => Ok((WithinNode::ParamRef(name), next)),
        _ => Err(Refusal::MALFORMED),
    }
}

// A call (54) or a definition (60): its name and its list's count. A part of its callers: the names of a registry ask for one at each
// definition, and by a call, with a refusal's room in its answer, that takes a fifth of their time.
#[tactic(auto, unfolding(crate::specs::Node::heading_at, crate::specs::Node::refusal_of, crate::specs::Node::span_of))]
#[inline(always)]
pub fn read_heading(tape: &Tape, p: Place, code: u8) -> Result<(Heading, Place), Refusal>
    ensures { result ≡ heading_at tape.now.bytes.now tape.now.layout p code }
{
    let (span, name) = expect(tape, p, code).ok_or(Refusal::MALFORMED)?;
    let (size, list) = expect(tape, name, code::TEXT).ok_or(Refusal::MALFORMED)?;
    let (count, next) = expect(tape, list, code::LIST).ok_or(Refusal::MALFORMED)?;
    Ok((
        Heading {
            span,
            name: named(name, size),
            count,
        },
        next,
    ))
}

#[tactic(auto, unfolding(crate::specs::Node::argument_at, crate::specs::Node::refusal_of, crate::specs::Node::span_of))]
pub fn read_argument(tape: &Tape, p: Place) -> Result<(ArgNode, Place), Refusal>
    ensures { result ≡ argument_at tape.now.bytes.now tape.now.layout p }
{
    let (code, _, next) = entry(tape, p).ok_or(Refusal::MALFORMED)?;
    match code {
        code::ARG_CONDITION => Ok((ArgNode::Condition, next)),
        code::ARG_TERM => Ok((ArgNode::Term, next)),
        code::ARG_WITHIN => Ok((ArgNode::Within, next)),
        _ => Err(Refusal::MALFORMED),
    }
}

#[tactic(auto, unfolding(crate::specs::Node::param_at))]
pub fn read_param(tape: &Tape, p: Place) -> Option<(Name, Place)>
    ensures { result ≡ param_at tape.now.bytes.now tape.now.layout p }
{
    let (_, at) = expect(tape, p, code::SPAN)?;
    let (size, next) = expect(tape, at, code::TEXT)?;
    Some((named(at, size), next))
}

// The place behind a parameter: its span and its name.
fn past_param(tape: &Tape, p: Place) -> Option<Place>
    ensures { result ≡ past_param_at tape.now.bytes.now tape.now.layout p }
{
    let name = past(tape, p, code::SPAN)?;
    past(tape, name, code::TEXT)
}

// The place behind `count` parameters.
pub fn past_params(tape: &Tape, p: Place, count: u64) -> Option<Place>
    ensures { result ≡ past_params_at tape.now.bytes.now tape.now.layout p count }
{
    (0..count).try_fold(p, |q, _| past_param(tape, q))
}

#[tactic(auto, unfolding(crate::specs::Node::body_at, crate::specs::Node::refusal_of, crate::specs::Node::span_of))]
pub fn read_body(tape: &Tape, p: Place) -> Result<(BodyNode, Place), Refusal>
    ensures { result ≡ body_at tape.now.bytes.now tape.now.layout p }
{
    let (code, _, next) = entry(tape, p).ok_or(Refusal::MALFORMED)?;
    match code {
        code::BODY_CEDAR => Ok((BodyNode::Cedar, next)),
        code::BODY_CONDITION => Ok((BodyNode::Condition, next)),
        code::BODY_VALUE => Ok((BodyNode::Value, next)),
        _ => Err(Refusal::MALFORMED),
    }
}

// The text that spells a name, or nothing where it runs past the slice's end. A chain of returns for speed (`has_entry`).
#[tactic(auto, unfolding(crate::specs::Node::name_at))]
pub fn name_at<'a>(tape: &Tape<'a>, name: Name) -> &'a [u8]
    ensures { result.now ≡ name_at tape.now.bytes.now tape.now.layout name }
{
    let len = tape.bytes.len();
    let text = tape.layout.text;
    if len < text {
        return &tape.bytes[0..0];
    }
    let room = len - text;
    let from = name.text;
    let size = name.size;
    if room < from {
        return &tape.bytes[0..0];
    }
    if room - from < size {
        return &tape.bytes[0..0];
    }
    let start = text + from;
    &tape.bytes[start..start + size]
}

// A definition that was found, its body unread: its heading, the place behind it, where the parameters stand, and the entry where it ends.
#[derive(Clone, Copy, Debug, PartialEq, Eq)]
pub struct Definition {
    pub heading: Heading,
    pub params: Place,
    pub end: usize,
}
