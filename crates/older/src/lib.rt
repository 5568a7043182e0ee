// The older tape as an operation (document 02, point 8): a tape of any root of document 01, or of a lone term, for heads that know no
// weeks.
#![tactic(auto)]

ghost use Rattle.std.specs.Prelude.{[], ◌≡◌, length, replicate};
ghost use Rattle.format.specs.Older.{kind_of, first_code};
ghost use Rattle.definition.specs.Older.{older_answer};
ghost use Rattle.de_morgan.specs.Rewritten.{rewritten_in, rewritten_layout};
ghost use Rattle.answer.specs.Matches.{answer_with};
ghost use Rattle.older.specs.Roots.{sort_of, AnswersOlder};

use answer::{Answer, RESULT_SIZE, long_result, refuse_result, result_written};
use de_morgan::{none_on, rewritten_in};
use grammar::code;
use grammar::codes::{CALL, CONDITION, DEFINITION, DEFINITIONS, TERM};
use tape::accept::accept;
use tape::layout::Tape;
use weeks::write_older;

// The code of the first entry, which stands behind the two sizes; 0, which is no code, in a slice that ends there.
#[tactic(auto, using(crate::proofs::Roots::first_there))]
fn first_code(bytes: &[u8]) -> u8
    ensures { result ≡ first_code bytes.now }
{
    bytes.get(8).copied().unwrap_or(0)
}

// The sort of the root that a first code tells; 0, of which no code is, where it tells none.
#[tactic(auto, unfolding(format::specs::Older::kind_of))]
fn root_sort(code: u8) -> u64
    ensures { result ≡ sort_of (kind_of code) }
{
    match code {
        code::AND..=code::REFINE => CONDITION,
        code::ENTITY..=code::BINDER_REF => TERM,
        code::LIST => DEFINITIONS,
        code::CALLED => CALL,
        code::DEFINITION => DEFINITION,
        _ => 0,
    }
}

// The older tape of what stands at a layout, and zeros behind it; 52 if an amount leaves the range.
#[tactic(auto, using(crate::proofs::Operation::in_written, crate::proofs::Operation::in_refused))]
fn older_in(tape: &Tape, res: &mut [u8]) -> Answer
    ensures { AnswersOlder tape.now.bytes.now tape.now.layout (length res.old) (answer_with result res.new [] []) }
{
    if write_older(tape, res) {
        result_written()
    } else {
        refuse_result(numbers::OUT_OF_RANGE, res)
    }
}

// The same of the rewritten tape, for which there is room here: most tapes have no Or, and only those with one pay for it. Tried with a
// closure, which writes to a lent buffer: the caller's goal stays open.
fn older_rewritten(tape: &Tape, res: &mut [u8]) -> Answer
    ensures { AnswersOlder (rewritten_in tape.now.bytes.now tape.now.layout (replicate 12296 0)) (rewritten_layout tape.now.bytes.now tape.now.layout) (length res.old) (answer_with result res.new [] []) }
{
    older_in(&rewritten_in(tape, &mut [0u8; RESULT_SIZE]), res)
}

// The operation: the answer and every byte of the result buffer are what the definition says, for every slice and every buffer.
#[tactic(auto, using(format::proofs::Accepted::bytes_all, crate::proofs::Operation::short, crate::proofs::Operation::refused, crate::proofs::Operation::given, crate::proofs::Operation::sort_told))]
pub fn older(bytes: &[u8], res: &mut [u8]) -> Answer
    ensures { answer_with result res.new [] [] ≡ older_answer (length res.old) bytes.now }
{
    if !long_result(res.len()) {
        return refuse_result(numbers::SHORT_BUFFER, res);
    }
    match accept(bytes, root_sort(first_code(bytes))) {
        Ok(layout) => {
            let tape = Tape { bytes, layout };
            let plain = none_on(&tape);
            if plain {
                older_in(&tape, res)
            } else {
                older_rewritten(&tape, res)
            }
        }
        Err(fault) => refuse_result(fault.number(), res),
    }
}
