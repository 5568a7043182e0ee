// The body check of macros/mod.rs (document 01, module 4): the first refusal of a definition's body.
#![tactic(auto)]

ghost use Rattle.std.specs.Prelude.{[], ◌≡◌, length};
ghost use Rattle.answer.specs.Matches.{answer_with};
ghost use Rattle.definition.specs.Answers.{check_answer};
ghost use Rattle.check_parts.specs.Names.{declaration};
ghost use Rattle.check_body.specs.Definition.{body_in, def_in, verdict_of};

use answer::{Answer, answer_tape};
use check_parts::Declared;
use check_walk::{check_temporal_condition_body, check_temporal_value_body};
use grammar::code;
use grammar::codes::DEFINITION;
use message_parts::names::Params;
use messages::Refused;
use nodes::{BodyNode, Refusal, past_params, read_body, read_heading};
use tape::layout::{Place, Tape};

// A Cedar body passes unread.
#[tactic(auto, unfolding(crate::specs::Definition::body_in))]
fn check_body(d: &Declared, node: BodyNode, next: Place) -> Result<Place, Refused>
    ensures { result ≡ body_in d.now.tape.bytes.now (declaration d.now) node next }
{
    match node {
        BodyNode::Cedar => Ok(next),
        BodyNode::Condition => check_temporal_condition_body(64, d, next),
        BodyNode::Value => check_temporal_value_body(64, d, next),
    }
}

// The definition that stands at a place: of a tape of its own, or of a registry's.
#[tactic(auto, unfolding(crate::specs::Definition::def_in, nodes::specs::Node::heading_at, walk_state::specs::Reading::refused_in, walk_state::specs::Reading::without_message_of, nodes::specs::Node::span_of, nodes::specs::Node::refusal_of))]
pub fn check_def(tape: &Tape, p: Place) -> Result<Place, Refused>
    ensures { result ≡ def_in tape.now.bytes.now tape.now.layout p }
{
    let (heading, params) = read_heading(tape, p, code::DEFINITION)?;
    let body = past_params(tape, params, heading.count).ok_or(Refusal::MALFORMED)?;
    let (node, next) = read_body(tape, body)?;
    let d = Declared {
        tape: *tape,
        params: Params {
            place: params,
            count: heading.count,
        },
    };
    check_body(&d, node, next)
}

// What a check found, without the place behind it.
pub fn verdict_of(found: Result<Place, Refused>) -> Result<(), Refused>
    ensures { result ≡ verdict_of found }
{
    found?;
    Ok(())
}

// The verdict on the definition at a place.
pub fn verdict(tape: &Tape, p: Place) -> Result<(), Refused>
    ensures { result ≡ verdict_of (def_in tape.now.bytes.now tape.now.layout p) }
{
    verdict_of(check_def(tape, p))
}

// The operation: the answer and every byte of the message buffer are what the definition says, for every slice and every buffer.
pub fn check(definition: &[u8], message: &mut [u8]) -> Answer
    ensures { answer_with result [] [] message.new ≡ check_answer (length message.old) definition.now }
{
    answer_tape(definition, DEFINITION, message, |tape| {
        verdict(tape, Place::START)
    })
}
