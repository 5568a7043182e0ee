// Document 02, point 1: the body check of every definition of a registry, and of one of them by its index. The body check's own walk runs
// on the registry's tape, at the places that its index has.
#![tactic(auto)]

ghost use Rattle.std.specs.Prelude.{◌≡◌, [], length};
ghost use Rattle.format.specs.Entry.{le};
ghost use Rattle.definition.specs.Library.{library_answer, check_at_answer};
ghost use Rattle.buffer.specs.Message.{Puts, so_far};
ghost use Rattle.answer.specs.Matches.{answer_with};
ghost use Rattle.check_library.specs.Rows.{verdict_at, row_of, put_in, put_from, checked_in, listing, listed_in, AnswersList};

use answer::{Answer, answer_tape, long_without_work, number_alone, refuse, refuse_without_work};
use buffer::message::Message;
use buffer::{value_bytes, zero_from};
use check_body::verdict;
use grammar::codes::DEFINITIONS;
use messages::Refused;
use registry::{Index, Row};
use tape::accept::accept;
use tape::layout::Tape;

// ------------------------------------------------------------------ the check of a row

// The definition at row i of an index. Past the end nothing is refused.
#[tactic(auto, using(crate::proofs::Steps::row_past, crate::proofs::Steps::row_checked))]
fn check_row(index: &Index, i: usize) -> Result<(), Refused>
    ensures { result ≡ verdict_at index.now.tape.bytes.now index.now.tape.layout index.now.rows.now i }
{
    match index.rows.get(i) {
        Some(row) => verdict(&index.tape, row.place),
        None => Ok(()),
    }
}

// ------------------------------------------------------------------ the list

// Writes a number behind a list, as far as the buffer reaches.
#[tactic(auto, unfolding(format::specs::Entry::le))]
fn put_four(list: &mut Message, n: usize)
    ensures { Puts (le 4 n) list.old list.new }
{
    let bytes = value_bytes(n as u64);
    list.put(&bytes[0..4]);
}

// The same for a refused definition: index, number, start and end.
#[tactic(auto, using(crate::proofs::Steps::row_put))]
fn put_refused(list: &mut Message, i: usize, refused: Refused)
    ensures { Puts (row_of i refused) list.old list.new }
{
    let number = messages::number(refused.reason);
    put_four(list, i);
    put_four(list, number as usize);
    put_four(list, refused.span.start as usize);
    put_four(list, refused.span.end as usize);
}

// A definition that passes is not listed.
#[tactic(auto, unfolding(crate::specs::Rows::put_in))]
fn put_verdict(list: &mut Message, i: usize, verdict: Result<(), Refused>)
    ensures same_slice { list.new.bytes.ghost_name ≡ list.old.bytes.ghost_name }
    ensures written { so_far list.new ≡ put_in i verdict (so_far list.old) }
{
    if let Err(refused) = verdict {
        put_refused(list, i, refused);
    }
}

// The refused definitions of an index.
#[tactic(auto, using(crate::proofs::Steps::put_turn, crate::proofs::Steps::put_end))]
fn put_list(index: &Index, list: &mut Message)
    ensures same_slice { list.new.bytes.ghost_name ≡ list.old.bytes.ghost_name }
    ensures written { so_far list.new ≡ put_from index.now.tape.bytes.now index.now.tape.layout 0 index.now.rows.now (so_far list.old) }
{
    for (i, row) in index.rows.iter().enumerate() {
        put_verdict(list, i, verdict(&index.tape, row.place));
    }
}

// 10 and 11, or the list and zeros behind it. The registry, which has 255 definitions at the most, is indexed once, in a table that stands
// here: there is no heap, and a vector of the index's own would be copied with it.
#[tactic(auto, using(crate::proofs::Steps::not_listed))]
fn list_registry(tape: &Tape, list: &mut [u8]) -> Result<(), Refused>
    ensures { listing result list.new ≡ listed_in tape.now.bytes.now tape.now.layout 255 list.old }
{
    let mut table = [Row::EMPTY; 255];
    let index = Index::new(tape, &mut table);
    index.check_names()?;
    let mut rows = Message::new(list);
    put_list(&index, &mut rows);
    let end = rows.len;
    zero_from(list, end);
    Ok(())
}

// The list and the answer of an accepted registry.
fn answer_list(tape: &Tape, res: &mut [u8], message: &mut [u8]) -> Answer
    ensures { AnswersList tape.now.bytes.now tape.now.layout res.old (length message.old) (answer_with result res.new [] message.new) }
{
    match list_registry(tape, res) {
        Ok(()) => number_alone(numbers::OK, 0, &mut [], &mut [], message),
        Err(r) => refuse(tape, tape, r, 0, res, &mut [], message),
    }
}

// The operation: 1 for buffers that are too short, then the tape, then 10 and 11; else 0, and the list of the refused definitions. The
// answer and every byte of both buffers are what the definition says, for every slice and all buffers.
#[tactic(auto, using(crate::proofs::Operation::library_short, crate::proofs::Operation::library_refused))]
pub fn check_library(registry: &[u8], res: &mut [u8], message: &mut [u8]) -> Answer
    ensures { answer_with result res.new [] message.new ≡ library_answer (length res.old) (length message.old) registry.now }
{
    if !long_without_work(res.len(), message.len()) {
        return refuse_without_work(numbers::SHORT_BUFFER, res, message);
    }
    match accept(registry, DEFINITIONS) {
        Err(fault) => refuse_without_work(fault.number(), res, message),
        Ok(layout) => {
            let tape = Tape {
                bytes: registry,
                layout,
            };
            answer_list(&tape, res, message)
        }
    }
}

// ------------------------------------------------------------------ one definition

// 10 and 11, or the check of the definition at an index, in a table as above.
#[tactic(auto, using(crate::proofs::Steps::named_checked, crate::proofs::Steps::named_refused))]
fn check_registry(tape: &Tape, i: usize) -> Result<(), Refused>
    ensures { result ≡ checked_in tape.now.bytes.now tape.now.layout 255 i }
{
    let mut table = [Row::EMPTY; 255];
    let index = Index::new(tape, &mut table);
    index.check_names()?;
    check_row(&index, i)
}

// The operation: after the same refusals what the check of that definition alone returns, its message too; past the end 0.
pub fn check_at(registry: &[u8], index: u32, message: &mut [u8]) -> Answer
    ensures { answer_with result [] [] message.new ≡ check_at_answer (length message.old) registry.now index }
{
    answer_tape(registry, DEFINITIONS, message, |tape| {
        check_registry(tape, index as usize)
    })
}
