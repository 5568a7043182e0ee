// What an operation returns, and how it ends: the result and zeros behind it, or zeros; zeros in the work buffer; the message and zeros
// behind it. An operation has only the buffers it needs, and one that it has not is empty here. `message` is the buffer that C lends:
// the answer says how long the message in it is, and nothing stands beside it.
#![tactic(auto)]

ghost use Rattle.std.specs.Prelude.{[], ◌≡◌, ◌&&◌, leb, length};
ghost use Rattle.std.specs.Fn.{FnReturnsAt};
ghost use Rattle.definition.specs.Outcome.{refusal, Outcome};
ghost use Rattle.definition.specs.Answers.{long_buffers, message_alone, number_alone, without_work};
ghost use Rattle.definition.specs.Older.{result_alone};
ghost use Rattle.walk_state.specs.Writing.{came_to};
ghost use Rattle.answer.specs.Matches.{answer_with, buffers, ended, AnswersRefusal, AnswersVerdict, AnswersTape, AnswersOutcome};

use area::finish;
use buffer::zero;
use messages::Refused;
use nodes::Span;
use std::fmt;
use tape::accept::accept;
use tape::layout::Tape;
use walk_state::writing::Cursor;

pub mod tapes;

#[derive(Clone, Copy, Debug, PartialEq, Eq)]
pub struct Answer {
    pub number: u32,
    pub span: Span,
    pub message_length: usize,
    pub charged: u32,
}

// As the programs print it: number, start, end and charged.
impl fmt::Display for Answer {
    ghost use Rattle.std.specs.Prelude.{Some};
    ghost use Rattle.answer.specs.Text.{answer_text};

    ghost output = { λ r. Some (answer_text r) };

    fn fmt<W: fmt::Write>(&self, f: &mut fmt::Formatter<W>) -> fmt::Result {
        let number = self.number;
        let Span { start, end } = self.span;
        let charged = self.charged;
        write!(f, "{number} {start} {end} {charged}")
    }
}

// How long each buffer is at the least, under the names of `include/neukolja.h` (document 01). No tape is longer than the result's.
pub const RESULT_SIZE: usize = 12296;

pub const WORK_SIZE: usize = 65536;

pub const MESSAGE_SIZE: usize = 2048;

// Whether the three buffers are as long as document 01 asks.
#[tactic(auto, unfolding(definition::specs::Answers::long_buffers))]
pub fn long_buffers(res: usize, work: usize, message: usize) -> bool
    ensures { result ≡ long_buffers (buffers res work message) }
{
    RESULT_SIZE <= res && WORK_SIZE <= work && MESSAGE_SIZE <= message
}

// The same of an operation that has a result and a message buffer.
pub fn long_without_work(res: usize, message: usize) -> bool
    ensures { result ≡ (leb 12296 res && leb 2048 message) }
{
    RESULT_SIZE <= res && MESSAGE_SIZE <= message
}

// And of one that has a result buffer alone.
pub fn long_result(len: usize) -> bool
    ensures { result ≡ leb 12296 len }
{
    RESULT_SIZE <= len
}

// A number with the span 0..0 and no message, zeros in every buffer: success, and what comes before a walk.
#[tactic(auto, unfolding(crate::specs::Matches::ended, definition::specs::Answers::open_answers, definition::specs::Outcome::open_outcome))]
pub fn number_alone(
    number: u32,
    charged: u32,
    res: &mut [u8],
    work: &mut [u8],
    message: &mut [u8],
) -> Answer
    ensures { answer_with result res.new work.new message.new ≡ ended (buffers (length res.old) (length work.old) (length message.old)) (Outcome.refused (refusal number 0 []) charged) }
{
    zero(res);
    zero(work);
    zero(message);
    Answer {
        number,
        span: Span { start: 0, end: 0 },
        message_length: 0,
        charged,
    }
}

// A refusal of a walk. The names of its message stand on the definition's tape and the call's, the two that document 01 has lent.
pub fn refuse<'a>(
    definition: &Tape<'a>,
    call: &Tape<'a>,
    refused: Refused,
    charged: u32,
    res: &mut [u8],
    work: &mut [u8],
    message: &mut [u8],
) -> Answer
    ensures { AnswersRefusal definition.now.bytes.now definition.now.layout call.now.bytes.now call.now.layout refused charged (buffers (length res.old) (length work.old) (length message.old)) (answer_with result res.new work.new message.new) }
{
    let span = refused.span;
    let reason = refused.reason;
    let number = messages::number(reason);
    let message_length = messages::write(definition, call, reason, message);
    number_alone(number, charged, res, work, &mut []);
    Answer {
        number,
        span,
        message_length,
        charged,
    }
}

// A refusal that comes before a walk, of an operation that has a message buffer alone. It and the three behind it say each of its own
// buffers alone; one function would ask every caller for empty ones.
#[tactic(auto, using(crate::proofs::Ends::message_alone_lem), unfolding(definition::specs::Answers::number_alone))]
pub fn refuse_number(number: u32, message: &mut [u8]) -> Answer
    ensures { answer_with result [] [] message.new ≡ ended (message_alone (length message.old)) (number_alone number) }
{
    number_alone(number, 0, &mut [], &mut [], message)
}

// The same of one that has a result and a message buffer.
#[tactic(auto, using(crate::proofs::Ends::without_work_lem), unfolding(definition::specs::Answers::number_alone, crate::specs::Matches::ended))]
pub fn refuse_without_work(number: u32, res: &mut [u8], message: &mut [u8]) -> Answer
    ensures { answer_with result res.new [] message.new ≡ ended (without_work (length res.old) (length message.old)) (number_alone number) }
{
    number_alone(number, 0, res, &mut [], message)
}

// And of one that has a result buffer alone.
#[tactic(auto, using(crate::proofs::Ends::result_alone_lem), unfolding(definition::specs::Answers::number_alone))]
pub fn refuse_result(number: u32, res: &mut [u8]) -> Answer
    ensures { answer_with result res.new [] [] ≡ ended (result_alone (length res.old)) (number_alone number) }
{
    number_alone(number, 0, res, &mut [], &mut [])
}

// Success of such an operation, which has written its result and charges nothing.
#[tactic(auto, using(crate::proofs::Ends::no_buffers_lem), unfolding(definition::specs::Answers::number_alone))]
pub fn result_written() -> Answer
    ensures { answer_with result [] [] [] ≡ ended (result_alone 0) (number_alone 0) }
{
    number_alone(numbers::OK, 0, &mut [], &mut [], &mut [])
}

// The answer of a verdict, of an operation that has one tape and a message buffer alone, and charges nothing.
pub fn answer_verdict(tape: &Tape, verdict: Result<(), Refused>, message: &mut [u8]) -> Answer
    ensures { AnswersVerdict tape.now.bytes.now tape.now.layout verdict (message_alone (length message.old)) (answer_with result [] [] message.new) }
{
    match verdict {
        Ok(()) => number_alone(numbers::OK, 0, &mut [], &mut [], message),
        Err(r) => refuse(tape, tape, r, 0, &mut [], &mut [], message),
    }
}

// The answer of such an operation: 1 for a short buffer, then the refusal of the tape, then the verdict that is found on it.
#[tactic(auto, using(crate::specs::Matches::short_message))]
pub fn answer_tape<F>(bytes: &[u8], sort: u64, message: &mut [u8], judge: F) -> Answer
where
    F: Fn(&Tape) -> Result<(), Refused>,
    requires { F.IsAlwaysCallable judge }
    ensures { AnswersTape bytes.now sort (FnReturnsAt F.Fn judge) (length message.old) (answer_with result [] [] message.new) }
{
    if message.len() < MESSAGE_SIZE {
        return refuse_number(numbers::SHORT_BUFFER, message);
    }
    match accept(bytes, sort) {
        Ok(layout) => {
            let tape = Tape { bytes, layout };
            let verdict = judge(&tape);
            answer_verdict(&tape, verdict, message)
        }
        Err(fault) => refuse_number(fault.number(), message),
    }
}

// The answer of a walk whose output stands in the work buffer, which the cursor has.
pub fn answer_walk<'a>(
    definition: &Tape<'a>,
    call: &Tape<'a>,
    walked: Result<(), Refused>,
    cursor: &mut Cursor,
    res: &mut [u8],
    message: &mut [u8],
) -> Answer
    ensures same_slice { cursor.new.bytes.ghost_name ≡ cursor.old.bytes.ghost_name }
    ensures same_length { length cursor.new.bytes.now ≡ length cursor.old.bytes.now }
    ensures answers { AnswersOutcome definition.now.bytes.now definition.now.layout call.now.bytes.now call.now.layout (came_to walked cursor.old).walk cursor.old.bytes.now (buffers (length res.old) (length cursor.old.bytes.now) (length message.old)) (answer_with result res.new cursor.new.bytes.now message.new) }
{
    let out = cursor.out;
    let charged = cursor.charged;
    let work = &mut *cursor.bytes;
    match walked {
        Ok(()) => {
            finish(work, out, res);
            number_alone(numbers::OK, charged, &mut [], work, message)
        }
        Err(r) => refuse(definition, call, r, charged, res, work, message),
    }
}
