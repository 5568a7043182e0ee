// A vector run through its operation, and compared with what is expected.
use crate::list::Vector;
use crate::operation::Operation;
use answer::{Answer, refuse_number};
use buffer::{read_size, read_value};
use preview::Previewed;

// The buffers that an operation is lent, full of bytes that are not zero. Slices that are lent to be written have neither Debug nor
// equality.
#[derive(Drop)]
struct Buffers<'a> {
    result: &'a mut [u8],
    work: &'a mut [u8],
    message: &'a mut [u8],
}

// The five numbers of an answer, each beside the eight bytes that the list has for it: no equality of two values.
fn tells_answer(r: Answer, numbers: &[u8]) -> bool {
    let span = r.span;
    r.number as u64 == read_value(numbers, 0)
        && span.start as u64 == read_value(numbers, 8)
        && span.end as u64 == read_value(numbers, 16)
        && r.message_length as u64 == read_value(numbers, 24)
        && r.charged as u64 == read_value(numbers, 32)
}

// All seven.
fn tells(r: Previewed, numbers: &[u8]) -> bool {
    tells_answer(r.answer, numbers)
        && r.entries as u64 == read_value(numbers, 40)
        && r.text as u64 == read_value(numbers, 48)
}

// Whether the buffer holds the bytes, and zeros behind them.
fn holds(buffer: &[u8], head: &[u8]) -> bool {
    let Some((front, behind)) = buffer.split_at_checked(head.len()) else {
        return false;
    };
    front == head && behind.iter().all(|b| *b == 0)
}

// Counts as a list has them, four bytes each, and zeros behind the last.
fn counts_of(given: &[u8]) -> [u32; 255] {
    let mut counts = [0u32; 255];
    for (i, n) in counts.iter_mut().enumerate() {
        *n = read_size(given, 4 * i);
    }
    counts
}

// Whether the counts are those that a list has.
fn same_counts(counts: &[u32; 255], expected: &[u8]) -> bool {
    *counts == counts_of(expected)
}

// A registry's answer; the counts that it hands out are put in the place of those given.
fn build(registry: &[u8], message: &mut [u8], counts: &mut [u32; 255]) -> Answer {
    let built = registry::build(registry, message);
    let fresh = built.counts.of; // the check wants an array in a variable before it is stored
    *counts = fresh;
    built.answer
}

fn run_substitute(v: &Vector, buffers: &mut Buffers) -> Answer {
    substitution::substitute(
        v.first,
        v.second,
        v.limit,
        v.file,
        buffers.result,
        buffers.work,
        buffers.message,
    )
}

fn run_expand(v: &Vector, buffers: &mut Buffers, counts: &mut [u32; 255]) -> Answer {
    expansion::expand_lent(
        v.first,
        v.second,
        v.limit,
        v.file,
        buffers.result,
        buffers.work,
        buffers.message,
        counts,
    )
}

fn run_preview(v: &Vector, buffers: &mut Buffers) -> Previewed {
    preview::preview(
        v.first,
        v.second,
        v.limit,
        v.file,
        buffers.work,
        buffers.message,
    )
}

fn run_judge(v: &Vector, buffers: &mut Buffers) -> Answer {
    judge::judge(
        v.first,
        v.second,
        v.third,
        v.limit,
        v.file,
        buffers.result,
        buffers.work,
        buffers.message,
    )
}

// An answer that has no sizes of a result beside it.
fn without_sizes(answer: Answer) -> Previewed {
    Previewed {
        answer,
        entries: 0,
        text: 0,
    }
}

// What the vector's operation answers. Of all but a preview, no sizes of a result stand beside the answer.
fn run(v: &Vector, buffers: &mut Buffers, counts: &mut [u32; 255]) -> Previewed {
    let tape = v.first;
    let Some(operation) = v.kind.operation() else {
        // A number that no operation answers: no list of `differential record` expects it.
        return without_sizes(refuse_number(0xFFFF_FFFF, buffers.message));
    };
    without_sizes(match operation {
        Operation::Check => check_body::check(tape, buffers.message),
        Operation::Registry => build(tape, buffers.message, counts),
        Operation::Substitute => run_substitute(v, buffers),
        Operation::Expand => run_expand(v, buffers, counts),
        Operation::Preview => return run_preview(v, buffers),
        Operation::CheckLibrary => {
            check_library::check_library(tape, buffers.result, buffers.message)
        }
        Operation::CheckAt => check_library::check_at(tape, v.index, buffers.message),
        Operation::Judge => run_judge(v, buffers),
        Operation::Merge => merge::merge(tape, v.second, buffers.result, buffers.message),
        Operation::Older => older::older(tape, buffers.result),
        Operation::Profile => profile::profile(tape),
        Operation::Provider => provider::provider(tape),
        Operation::ArgumentToTerm => provider::argument_to_term(tape, buffers.result),
        Operation::TermToArgument => provider::term_to_argument(tape, buffers.result),
    })
}

// The answer and the counts.
fn answers(v: &Vector, buffers: &mut Buffers) -> bool {
    let mut counts = counts_of(v.given);
    let r = run(v, buffers, &mut counts);
    tells(r, v.numbers) && same_counts(&counts, v.counted)
}

fn on_buffers(v: &Vector, buffers: &mut Buffers) -> bool {
    answers(v, buffers)
        && holds(buffers.result, v.result)
        && holds(buffers.work, b"")
        && holds(buffers.message, v.message)
}

// An operation is lent no bytes of a buffer that it has not.
pub fn comes_out(v: &Vector) -> bool {
    let mut result = [0xA5; 16384];
    let mut work = [0xA5; 69632];
    let mut message = [0xA5; 4096];
    let Some(result) = result.get_mut(..v.sizes.result) else {
        return false;
    };
    let Some(work) = work.get_mut(..v.sizes.work) else {
        return false;
    };
    let Some(message) = message.get_mut(..v.sizes.message) else {
        return false;
    };
    let mut buffers = Buffers {
        result,
        work,
        message,
    };
    on_buffers(v, &mut buffers)
}
