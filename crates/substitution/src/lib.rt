// The substitution of macros/mod.rs (document 01, module 6): one definition and one call.
#![tactic(auto)]

ghost use Rattle.std.specs.Prelude.{◌≡◌, length, replicate};
ghost use Rattle.answer.specs.Matches.{answer_with, buffers};
ghost use Rattle.de_morgan.specs.Rewritten.{rewritten_in, rewritten_layout};
ghost use Rattle.definition.specs.Answers.{substitute_answer};
ghost use Rattle.substitution.specs.Substituted.{AnswersSubstitution};

use answer::tapes::accept_two;
use answer::{Answer, RESULT_SIZE, answer_walk, long_buffers, number_alone};
use de_morgan::{rewritten_in, without_or};
use grammar::codes::{CALL, DEFINITION};
use subst_call::substitute_tapes;
use tape::layout::Tape;
use walk_state::writing::Cursor;

// The walk over two tapes, and its answer.
#[tactic(auto, unfolding(crate::specs::Substituted::AnswersSubstitution))]
fn substitute_in<'a>(
    definition: &Tape<'a>,
    call: &Tape<'a>,
    limit: u32,
    file: u16,
    res: &mut [u8],
    work: &mut [u8],
    message: &mut [u8],
) -> Answer
    ensures { AnswersSubstitution definition.now.bytes.now definition.now.layout call.now.bytes.now call.now.layout limit file work.old (buffers (length res.old) (length work.old) (length message.old)) (answer_with result res.new work.new message.new) }
{
    let mut c = Cursor::new(work);
    let walked = substitute_tapes(definition, call, limit, file, &mut c);
    answer_walk(definition, call, walked, &mut c, res, message)
}

// The same over the rewritten tapes, for which there is room here: most tapes have no Or, and only those with one pay for it. Tried with a
// closure, which writes to lent buffers: the caller's goal stays open.
fn substitute_rewritten(
    definition: &Tape,
    call: &Tape,
    limit: u32,
    file: u16,
    res: &mut [u8],
    work: &mut [u8],
    message: &mut [u8],
) -> Answer
    ensures { AnswersSubstitution (rewritten_in definition.now.bytes.now definition.now.layout (replicate 12296 0)) (rewritten_layout definition.now.bytes.now definition.now.layout) (rewritten_in call.now.bytes.now call.now.layout (replicate 12296 0)) (rewritten_layout call.now.bytes.now call.now.layout) limit file work.old (buffers (length res.old) (length work.old) (length message.old)) (answer_with result res.new work.new message.new) }
{
    let mut first = [0u8; RESULT_SIZE];
    let mut second = [0u8; RESULT_SIZE];
    let definition = rewritten_in(definition, &mut first);
    let call = rewritten_in(call, &mut second);
    substitute_in(&definition, &call, limit, file, res, work, message)
}

// The operation: the answer and every byte of the three buffers are what the definition says, for every input and every buffer. Its
// parameters, the limit and the file number among them, are those of `include/neukolja.h`.
#[tactic(auto, using(format::proofs::Accepted::bytes_all, crate::proofs::Operation::short, crate::proofs::Operation::refused, crate::proofs::Operation::substituted, crate::proofs::Operation::substituted_rewritten), unfolding(definition::specs::Answers::number_alone))]
pub fn substitute<'a>(
    definition: &'a [u8],
    call: &'a [u8],
    limit: u32,
    file: u16,
    res: &mut [u8],
    work: &mut [u8],
    message: &mut [u8],
) -> Answer
    ensures { answer_with result res.new work.new message.new ≡ substitute_answer (buffers (length res.old) (length work.old) (length message.old)) limit file definition.now call.now }
{
    if !long_buffers(res.len(), work.len(), message.len()) {
        return number_alone(numbers::SHORT_BUFFER, 0, res, work, message);
    }
    match accept_two(definition, DEFINITION, call, CALL) {
        Err(fault) => number_alone(fault.number(), 0, res, work, message),
        Ok((d, c)) => {
            let definition = Tape {
                bytes: definition,
                layout: d,
            };
            let call = Tape {
                bytes: call,
                layout: c,
            };
            if without_or(&definition, &call) {
                substitute_in(&definition, &call, limit, file, res, work, message)
            } else {
                substitute_rewritten(&definition, &call, limit, file, res, work, message)
            }
        }
    }
}
