// Provider tapes (document 02, point 11): their acceptance; a lone argument turned into a term, and such a term turned back.
#![tactic(auto)]

ghost use Rattle.std.specs.Prelude.{[], map, ◌≡◌, length};
ghost use Rattle.std.proofs.lemmas.List.Edits.{sets};
ghost use Rattle.definition.specs.Provider.{provider_answer, argument_to_term_answer, term_to_argument_answer};
ghost use Rattle.grammar.specs.Words.{provider_grammar};
ghost use Rattle.tape.specs.Accept.{accept_by};
ghost use Rattle.answer.specs.Matches.{answer_with};
ghost use Rattle.provider.specs.Turned.{term_code, argument_code, turned_code, turned_or_0, any_lost, lost_number, turned_on, AnswersTurned};

use answer::{Answer, long_result, refuse_result, result_written};
use buffer::{write, write_each, zero_from};
use grammar::codes::TERM;
use grammar::provider::{ARGUMENT, ROOT, table};
use grammar::{argument, code};
use tape::accept::{accept, accept_by};
use tape::header::Fault;
use tape::layout::{Layout, Tape};
use tape::part::part_of;

// Which of the two a tape's codes become.
// An enum and no closure: the contract maps a function over the codes, and what a closure promises is a relation.
#[derive(Clone, Copy, Debug, PartialEq, Eq)]
enum Way {
    ToTerm,
    ToArgument,
}

impl Way {
    // The number of the answer where a code becomes none.
    fn number(self) -> u32
        ensures { result ≡ lost_number self }
    {
        match self {
            Way::ToTerm => numbers::HAS_A_FIELD,
            Way::ToArgument => numbers::NOT_AN_ARGUMENT,
        }
    }
}

// The code of the term that an argument of a code becomes, if there is one.
fn term_code(code: u8) -> Option<u8>
    ensures { result ≡ term_code code }
{
    match code {
        argument::STRING => Some(code::STRING),
        argument::INTEGER => Some(code::INTEGER),
        argument::DECIMAL => Some(code::DECIMAL),
        argument::BOOL => Some(code::BOOL),
        argument::SET => Some(code::ARRAY),
        _ => None,
    }
}

// And back.
fn argument_code(code: u8) -> Option<u8>
    ensures { result ≡ argument_code code }
{
    match code {
        code::INTEGER => Some(argument::INTEGER),
        code::DECIMAL => Some(argument::DECIMAL),
        code::STRING => Some(argument::STRING),
        code::BOOL => Some(argument::BOOL),
        code::ARRAY => Some(argument::SET),
        _ => None,
    }
}

// The one or the other.
fn turned_code(way: Way, code: u8) -> Option<u8>
    ensures { result ≡ turned_code way code }
{
    match way {
        Way::ToTerm => term_code(code),
        Way::ToArgument => argument_code(code),
    }
}

// Whether one of the codes becomes none.
fn any_lost(way: Way, codes: &[u8]) -> bool
    ensures { result ≡ any_lost way codes.now }
{
    codes.iter().any(|&code| turned_code(way, code).is_none())
}

// Writes the tape with its codes turned, where they stand behind the two sizes, every value and the text as they are, and zeros behind it.
fn write_turned(way: Way, bytes: &[u8], codes: &[u8], res: &mut [u8])
    ensures { res.new ≡ turned_on res.old bytes.now (map (turned_or_0 way) codes.now) }
{
    write(res, 0, bytes);
    zero_from(res, bytes.len());
    write_each(res, 8, codes, |code| turned_code(way, code).unwrap_or(0));
}

// The answer of a tape turned; or a number, where one of its codes becomes none.
#[tactic(auto, using(crate::proofs::Operation::in_lost, crate::proofs::Operation::in_turned))]
fn turn(way: Way, tape: &Tape, res: &mut [u8]) -> Answer
    ensures { AnswersTurned way tape.now.bytes.now tape.now.layout (length res.old) (answer_with result res.new [] []) }
{
    let codes = part_of(tape.bytes, tape.layout.codes, tape.layout.entries);
    if any_lost(way, codes) {
        return refuse_result(way.number(), res);
    }
    write_turned(way, tape.bytes, codes, res);
    result_written()
}

// The acceptance of a provider tape whose root is of a sort. The longest text has 64 bytes, or 255.
fn accept_provider(bytes: &[u8], sort: u64) -> Result<Layout, Fault>
    ensures { result ≡ accept_by provider_grammar 64 bytes.now sort }
{
    accept_by(table(), 64, bytes, sort)
}

// The operation without buffers: whether the tape is one of a provider call or of a lone argument.
pub fn provider(bytes: &[u8]) -> Answer
    ensures { answer_with result [] [] [] ≡ provider_answer bytes.now }
{
    match accept_provider(bytes, ROOT) {
        Ok(_) => result_written(),
        Err(fault) => refuse_result(fault.number(), &mut []),
    }
}

// The operation: the answer and every byte of the result buffer are what the definition says, for every slice and every buffer.
#[tactic(auto, using(format::proofs::Accepted::bytes_all, crate::proofs::Operation::argument_short, crate::proofs::Operation::argument_given, crate::proofs::Operation::argument_refused))]
pub fn argument_to_term(bytes: &[u8], res: &mut [u8]) -> Answer
    ensures { answer_with result res.new [] [] ≡ argument_to_term_answer (length res.old) bytes.now }
{
    if !long_result(res.len()) {
        return refuse_result(numbers::SHORT_BUFFER, res);
    }
    match accept_provider(bytes, ARGUMENT) {
        Ok(layout) => turn(Way::ToTerm, &Tape { bytes, layout }, res),
        Err(fault) => refuse_result(fault.number(), res),
    }
}

// And back. A term that holds an Or holds an aggregate, which no argument becomes: it need not be rewritten, and acceptance has decided
// the figures of its rewriting.
#[tactic(auto, using(format::proofs::Accepted::bytes_all, crate::proofs::Operation::term_short, crate::proofs::Operation::term_given, crate::proofs::Operation::term_refused))]
pub fn term_to_argument(bytes: &[u8], res: &mut [u8]) -> Answer
    ensures { answer_with result res.new [] [] ≡ term_to_argument_answer (length res.old) bytes.now }
{
    if !long_result(res.len()) {
        return refuse_result(numbers::SHORT_BUFFER, res);
    }
    match accept(bytes, TERM) {
        Ok(layout) => turn(Way::ToArgument, &Tape { bytes, layout }, res),
        Err(fault) => refuse_result(fault.number(), res),
    }
}
