// Judging the other supplier's result (document 02, point 3): an expansion of our own, and whether the supplied tape is its result but
// for names that it generated.
#![tactic(auto)]

ghost use Rattle.std.specs.Prelude.{◌≡◌, length};
ghost use Rattle.answer.specs.Matches.{answer_with, buffers};
ghost use Rattle.judge_names.specs.Compared.{equal_in};
ghost use Rattle.definition.specs.Judge.{longest_name, judge_answer};

use answer::tapes::accept_two;
use answer::{Answer, long_buffers, number_alone};
use expansion::expand_lent;
use grammar::codes::{CONDITION, DEFINITIONS};
use judge_names::Protected;
use judge_names::result::is_equal;
use tape::accept::accept_named;
use tape::layout::{Layout, Tape};

// The longest name of the supplied tape: a binder of 64 bytes, `$` and ten digits, and in a file above 0 `#` and five digits more.
#[tactic(auto, using(crate::proofs::Own::longest_above), unfolding(definition::specs::Judge::longest_name))]
fn longest_name(file: u16) -> u64
    ensures { result ≡ longest_name file }
{
    if file == 0 { 75 } else { 81 }
}

// Whether the supplied tape is the result that the expansion has left, but for names that it generated. It takes the slices that the
// operation is lent, so that its promise speaks of them: of a tape made there a proof would have to find each field again.
fn is_ours(
    registry: &[u8],
    d: Layout,
    input: &[u8],
    c: Layout,
    supplied: &[u8],
    m: Layout,
    res: &[u8],
) -> bool
    ensures { result ≡ equal_in registry.now d input.now c supplied.now m res.now }
{
    let protected = Protected {
        registry: Tape {
            bytes: registry,
            layout: d,
        },
        condition: Tape {
            bytes: input,
            layout: c,
        },
    };
    let supplied = Tape {
        bytes: supplied,
        layout: m,
    };
    is_equal(&protected, &supplied, res)
}

// The operation on a registry, a condition, `input`, and the supplier's result: the answer and every byte of the three buffers are what
// the definition says, for every input and all buffers. Its parameters, the limit and the file number among them, are those of
// `include/neukolja.h`.
#[tactic(auto, using(format::proofs::Accepted::bytes_all, crate::proofs::Operation::short, crate::proofs::Operation::refused), unfolding(definition::specs::Answers::number_alone))]
pub fn judge<'a>(
    registry: &'a [u8],
    input: &'a [u8],
    supplied: &'a [u8],
    limit: u32,
    file: u16,
    res: &mut [u8],
    work: &mut [u8],
    message: &mut [u8],
) -> Answer
    ensures { answer_with result res.new work.new message.new ≡ judge_answer (buffers (length res.old) (length work.old) (length message.old)) limit file registry.now input.now supplied.now }
{
    if !long_buffers(res.len(), work.len(), message.len()) {
        return number_alone(numbers::SHORT_BUFFER, 0, res, work, message);
    }
    let (d, c) = match accept_two(registry, DEFINITIONS, input, CONDITION) {
        Ok(layouts) => layouts,
        Err(fault) => return number_alone(fault.number(), 0, res, work, message),
    };
    let m = match accept_named(longest_name(file), supplied, CONDITION) {
        Ok(layout) => layout,
        Err(fault) => return number_alone(fault.number(), 0, res, work, message),
    };
    let answer = expand_lent(registry, input, limit, file, res, work, message, &mut []);
    if answer.number != numbers::OK {
        return answer;
    }
    if is_ours(registry, d, input, c, supplied, m, res) {
        return answer;
    }
    // what the expansion has charged stays
    number_alone(numbers::NOT_EQUAL, answer.charged, res, work, message)
}
