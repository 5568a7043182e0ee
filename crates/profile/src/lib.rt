// The rules for the battery head as an operation (document 02, point 10): an expanded condition holds no aggregate, at most 16 nodes, and
// only intervals from 0 to one day. The entries are looked at in their order, once, and the first broken rule is answered.
#![tactic(auto)]

ghost use Rattle.std.specs.Prelude.{[], ◌≡◌, ◌<◌, reverse, replicate};
ghost use Rattle.std.proofs.Math.Option.{some};
ghost use Rattle.definition.specs.Outcome.{refusal};
ghost use Rattle.definition.specs.Profile.{profile_answer};
ghost use Rattle.de_morgan.specs.Rewritten.{rewritten_in, rewritten_layout};
ghost use Rattle.answer.specs.Matches.{answer_with};
ghost use Rattle.profile.specs.Entries.{args_at, head_at, broken_rule, profile_all, profile_in, profiled};
ghost use Rattle.profile.specs.Spans.{spans_in};

use crate::around::{Around, Head, nearest, pass_entry};
use crate::rules::{Rule, broken_by, counted};
use answer::{Answer, RESULT_SIZE};
use arrayvec::ArrayVec;
use de_morgan::{none_on, rewritten_in};
use grammar::codes::CONDITION;
use nodes::span_of;
use tape::accept::accept_named;
use tape::held::HeldTape;
use tape::layout::Tape;

mod around;
mod rules;

// A number with a span, no message, nothing charged.
#[tactic(auto, unfolding(answer::specs::Matches::ended, definition::specs::Answers::open_answers, definition::specs::Outcome::open_outcome, nodes::specs::Node::span_of))]
fn end(number: u32, span: u64) -> Answer
    ensures { answer_with result [] [] [] ≡ profiled (some (refusal number span [])) }
{
    Answer {
        number,
        span: span_of(span),
        message_length: 0,
        charged: 0,
    }
}

// How many arguments a call has, if its 11 is entry `at`: the value of its 41, the third entry behind.
#[tactic(auto, unfolding(crate::specs::Entries::args_at))]
fn args_at(held: &HeldTape, at: usize) -> u64
    requires { at < held.now.tape.layout.entries }
    ensures { result ≡ args_at held.now.tape.bytes.now held.now.tape.layout at }
{
    if at + 3 < held.entries() {
        held.value_at(at + 3)
    } else {
        0
    }
}

fn head_at(held: &HeldTape, at: usize) -> Head
    requires { at < held.now.tape.layout.entries }
    ensures { result ≡ head_at held.now.tape.bytes.now held.now.tape.layout at }
{
    Head {
        code: held.code_at(at),
        value: held.value_at(at),
        args: args_at(held, at),
    }
}

// The refusal of a broken rule: an interval's has the span of the nearest condition around it.
#[tactic(auto, unfolding(crate::specs::Entries::broken_rule))]
fn refuse(rule: Rule, around: &[Around]) -> Answer
    ensures { answer_with result [] [] [] ≡ profiled (broken_rule rule (spans_in (reverse around.now))) }
{
    match rule {
        Rule::NoAggregate => end(numbers::AGGREGATE, 0),
        Rule::SixteenNodes => end(numbers::TOO_MANY_NODES, 0),
        Rule::WithinDay => end(numbers::TOO_LONG_INTERVAL, nearest(around)),
    }
}

// The entries of a layout in their order. One item is to come at first, the whole, and each of the 16 nodes adds a condition at the most.
#[tactic(auto, using(crate::proofs::Turns::room, crate::proofs::Turns::stopped, crate::proofs::Turns::went_on, crate::proofs::Turns::ended_well))]
fn profile_entries(held: &HeldTape) -> Answer
    ensures { answer_with result [] [] [] ≡ profiled (profile_all held.now.tape.bytes.now held.now.tape.layout) }
{
    let mut nodes: u64 = 0;
    let mut around = ArrayVec::<Around, 17>::new();
    around.push(Around::default());
    // an index, which is what code, value and text of an entry share
    for at in 0..held.entries() {
        let e = head_at(held, at);
        if let Some(rule) = broken_by(nodes, e) {
            return refuse(rule, around.as_slice());
        }
        pass_entry(&mut around, e);
        nodes = counted(nodes, e.code);
    }
    end(numbers::OK, 0)
}

// What stands at a layout. Where the slice does not hold it, which acceptance rules out, there is nothing to refuse.
#[tactic(auto, using(crate::proofs::Turns::not_held, crate::proofs::Turns::all_held))]
fn profile_in(tape: &Tape) -> Answer
    ensures { answer_with result [] [] [] ≡ profiled (profile_in tape.now.bytes.now tape.now.layout) }
{
    let Some(held) = tape.held() else {
        return end(numbers::OK, 0);
    };
    profile_entries(&held)
}

// The same of the rewritten tape, for which there is room here: most tapes have no Or. One function that is handed a closure for all
// operations was tried; where closures nest, what each promises has to be written beside it, which is longer than these lines.
fn profile_rewritten(tape: &Tape) -> Answer
    ensures { answer_with result [] [] [] ≡ profiled (profile_in (rewritten_in tape.now.bytes.now tape.now.layout (replicate 12296 0)) (rewritten_layout tape.now.bytes.now tape.now.layout)) }
{
    profile_in(&rewritten_in(tape, &mut [0u8; RESULT_SIZE]))
}

// The operation. It has no buffers. Names of a variable or a binder may have 81 bytes here, as generated ones do.
pub fn profile(condition: &[u8]) -> Answer
    ensures { answer_with result [] [] [] ≡ profile_answer condition.now }
{
    match accept_named(81, condition, CONDITION) {
        Ok(layout) => {
            let tape = Tape {
                bytes: condition,
                layout,
            };
            if none_on(&tape) {
                profile_in(&tape)
            } else {
                profile_rewritten(&tape)
            }
        }
        Err(fault) => end(fault.number(), 0),
    }
}
