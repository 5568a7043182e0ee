// Two registries joined into one (document 02, point 7): the first one's definitions in order, then those of the second whose names the
// first lacks. A name that both have is kept once, as the first has it, if the two agree in everything but spans; 51 if they do not.
#![tactic(auto)]

ghost use Rattle.std.specs.Prelude.{[], ◌≡◌, length, replicate};
ghost use Rattle.definition.specs.Merge.{merge_answer};
ghost use Rattle.answer.specs.Matches.{answer_with};
ghost use Rattle.de_morgan.specs.Rewritten.{rewritten_in, rewritten_layout};
ghost use Rattle.merge.specs.Ends.{AnswersMerging, EndsMerge};

use crate::join::{Refusing, merge_named};
use answer::tapes::accept_two;
use answer::{Answer, RESULT_SIZE, long_without_work, number_alone, refuse, refuse_without_work};
use area::{AREA_SIZE, Writer, finish};
use de_morgan::{rewritten_in, without_or};
use grammar::codes::DEFINITIONS;
use tape::layout::Tape;

mod agree;
mod join;

// The answer of what a merge came to, whose registry stands in an area.
fn answer_merging(
    first: &Tape,
    second: &Tape,
    m: Result<Writer, Refusing>,
    area: &[u8],
    res: &mut [u8],
    message: &mut [u8],
) -> Answer
    ensures { AnswersMerging first.now.bytes.now first.now.layout second.now.bytes.now second.now.layout m area.now (length res.old) (length message.old) (answer_with result res.new [] message.new) }
{
    match m {
        Ok(out) => {
            finish(area, out, res);
            number_alone(numbers::OK, 0, &mut [], &mut [], message)
        }
        Err(Refusing::First(f)) => refuse(first, first, f, 0, res, &mut [], message),
        Err(Refusing::Second(f)) => refuse(second, second, f, 0, res, &mut [], message),
    }
}

// The merge of two tapes, with room for the area of the joined registry.
#[tactic(auto, using(crate::proofs::Answering::ends_merge))]
fn merge_in(first: &Tape, second: &Tape, res: &mut [u8], message: &mut [u8]) -> Answer
    ensures { EndsMerge first.now.bytes.now first.now.layout second.now.bytes.now second.now.layout (length res.old) (length message.old) (answer_with result res.new [] message.new) }
{
    let mut area = [0u8; AREA_SIZE];
    let m = merge_named(first, second, &mut area);
    answer_merging(first, second, m, &area, res, message)
}

// The same over the rewritten tapes, for which there is room here: most tapes have no Or, and only those with one pay for it. Tried with a
// closure, which writes to lent buffers: the caller's goal stays open.
fn merge_rewritten(first: &Tape, second: &Tape, res: &mut [u8], message: &mut [u8]) -> Answer
    ensures { EndsMerge (rewritten_in first.now.bytes.now first.now.layout (replicate 12296 0)) (rewritten_layout first.now.bytes.now first.now.layout) (rewritten_in second.now.bytes.now second.now.layout (replicate 12296 0)) (rewritten_layout second.now.bytes.now second.now.layout) (length res.old) (length message.old) (answer_with result res.new [] message.new) }
{
    let mut one = [0u8; RESULT_SIZE];
    let mut other = [0u8; RESULT_SIZE];
    let first = rewritten_in(first, &mut one);
    let second = rewritten_in(second, &mut other);
    merge_in(&first, &second, res, message)
}

// The operation: the answer and every byte of the two buffers are what the definition says, for every input and every buffer.
#[tactic(auto, using(format::proofs::Accepted::bytes_all, crate::proofs::Operation::short, crate::proofs::Operation::refused, crate::proofs::Operation::given_or, crate::proofs::Operation::given))]
pub fn merge(first: &[u8], second: &[u8], res: &mut [u8], message: &mut [u8]) -> Answer
    ensures { answer_with result res.new [] message.new ≡ merge_answer (length res.old) (length message.old) first.now second.now }
{
    if !long_without_work(res.len(), message.len()) {
        return refuse_without_work(numbers::SHORT_BUFFER, res, message);
    }
    match accept_two(first, DEFINITIONS, second, DEFINITIONS) {
        Err(fault) => refuse_without_work(fault.number(), res, message),
        Ok((d, e)) => {
            let first = Tape {
                bytes: first,
                layout: d,
            };
            let second = Tape {
                bytes: second,
                layout: e,
            };
            if without_or(&first, &second) {
                merge_in(&first, &second, res, message)
            } else {
                merge_rewritten(&first, &second, res, message)
            }
        }
    }
}
