// The expansion of macros/mod.rs (document 01, module 7): a condition, and the registry of the macros that it calls.
#![tactic(auto)]

ghost use Rattle.std.specs.Prelude.{◌≡◌, length, replicate};
ghost use Rattle.answer.specs.Matches.{answer_with, buffers};
ghost use Rattle.de_morgan.specs.Rewritten.{rewritten_in, rewritten_layout};
ghost use Rattle.definition.specs.Answers.{expand_answer};
ghost use Rattle.registry.specs.Places.{index_at};
ghost use Rattle.expand_counts.specs.Counting.{counted_in};
ghost use Rattle.definition.specs.Counts.{expand_counts};
ghost use Rattle.expand_calls.specs.Output.{Expands, reads_of, came_to};
ghost use Rattle.expansion.specs.Expansion.{EndsExpansion, after_walk, whole_in, named_in};

use answer::tapes::accept_two;
use answer::{Answer, RESULT_SIZE, answer_walk, long_buffers, number_alone};
use de_morgan::{rewritten_in, without_or};
use expand_calls::output::Expansion;
use expand_counts::count_calls;
use expand_walk::expand_condition;
use grammar::codes::{CONDITION, DEFINITIONS};
use messages::Refused;
use registry::counts::Counts;
use registry::{Index, Row};
use subst_call::refuse_too_large;
use tape::layout::Tape;
use walk_state::writing::Cursor;

// What an expansion returns, and the registry state that it hands back.
#[derive(Clone, Copy, Debug, PartialEq, Eq)]
pub struct Expanded {
    pub answer: Answer,
    pub counts: Counts,
}

// The walk over the whole condition, and 3 with 0..0 if what it came to is too large.
#[tactic(auto, using(crate::proofs::Steps::large_hands_on), unfolding(crate::specs::Expansion::whole_in))]
fn expand_whole(x: &Expansion, c: &mut Cursor, res: &mut [u8]) -> Result<(), Refused>
    ensures { Expands c.old c.new result res.new (whole_in (reads_of x.now) c.old.bytes.now res.old) }
{
    c.restart();
    expand_condition(64, x, c, res)?;
    refuse_too_large(0, CONDITION, c)
}

// The walk, and then its calls counted, unless it is refused.
#[tactic(auto, unfolding(crate::specs::Expansion::after_walk))]
fn expand_counting(
    x: &Expansion,
    c: &mut Cursor,
    res: &mut [u8],
    counts: &mut [u32],
) -> Result<(), Refused>
    ensures walked { Expands c.old c.new result res.new (whole_in (reads_of x.now) c.old.bytes.now res.old) }
    ensures counted { counts.new ≡ after_walk (came_to result c.new res.new).walk (counted_in x.now.registry.tape.bytes.now x.now.registry.tape.layout x.now.registry.rows.now x.now.condition.bytes.now x.now.condition.layout counts.old) counts.old }
{
    expand_whole(x, c, res)?;
    count_calls(&x.registry, &x.condition, counts);
    Ok(())
}

// 10 and 11, then the walk. The registry, which has 255 definitions at the most, is indexed once, in a table that stands here: there is no
// heap, and a vector of the index's own would be copied with it.
#[tactic(auto, unfolding(crate::specs::Expansion::named_in, crate::specs::Expansion::after_walk))]
fn expand_tapes(
    registry: &Tape,
    condition: &Tape,
    limit: u32,
    file: u16,
    c: &mut Cursor,
    res: &mut [u8],
    counts: &mut [u32],
) -> Result<(), Refused>
    ensures walked { Expands c.old c.new result res.new (named_in registry.now.bytes.now registry.now.layout 255 condition.now.bytes.now condition.now.layout limit file c.old.bytes.now res.old) }
    ensures counted { counts.new ≡ after_walk (came_to result c.new res.new).walk (counted_in registry.now.bytes.now registry.now.layout (index_at registry.now.bytes.now registry.now.layout 255) condition.now.bytes.now condition.now.layout counts.old) counts.old }
{
    let mut table = [Row::EMPTY; 255];
    let x = Expansion {
        registry: Index::new(registry, &mut table),
        condition: *condition,
        limit,
        file,
    };
    c.restart();
    x.registry.check_names()?;
    expand_counting(&x, c, res, counts)
}

// The walk over two tapes, and its answer.
#[tactic(auto, using(crate::proofs::Steps::ends))]
fn expand_in<'a>(
    registry: &Tape<'a>,
    condition: &Tape<'a>,
    limit: u32,
    file: u16,
    res: &mut [u8],
    work: &mut [u8],
    message: &mut [u8],
    counts: &mut [u32],
) -> Answer
    ensures { EndsExpansion registry.now.bytes.now registry.now.layout condition.now.bytes.now condition.now.layout limit file work.old res.old (buffers (length res.old) (length work.old) (length message.old)) counts.old (answer_with result res.new work.new message.new) counts.new }
{
    let mut c = Cursor::new(work);
    let walked = expand_tapes(registry, condition, limit, file, &mut c, res, counts);
    answer_walk(registry, condition, walked, &mut c, res, message)
}

// The same over the rewritten tapes, for which there is room here: most tapes have no Or, and only those with one pay for it. Tried with a
// closure, which writes to lent buffers: the caller's goal stays open.
fn expand_rewritten(
    registry: &Tape,
    condition: &Tape,
    limit: u32,
    file: u16,
    res: &mut [u8],
    work: &mut [u8],
    message: &mut [u8],
    counts: &mut [u32],
) -> Answer
    ensures { EndsExpansion (rewritten_in registry.now.bytes.now registry.now.layout (replicate 12296 0)) (rewritten_layout registry.now.bytes.now registry.now.layout) (rewritten_in condition.now.bytes.now condition.now.layout (replicate 12296 0)) (rewritten_layout condition.now.bytes.now condition.now.layout) limit file work.old res.old (buffers (length res.old) (length work.old) (length message.old)) counts.old (answer_with result res.new work.new message.new) counts.new }
{
    let mut first = [0u8; RESULT_SIZE];
    let mut second = [0u8; RESULT_SIZE];
    let registry = rewritten_in(registry, &mut first);
    let condition = rewritten_in(condition, &mut second);
    expand_in(
        &registry, &condition, limit, file, res, work, message, counts,
    )
}

// The operation on a registry and a condition, `input`: the answer, every byte of the three buffers and every count are what the
// definition says, for every input, every buffer and every state. The state is lent: what it holds is read and written. The parameters,
// the limit and the file number among them, are those of `include/neukolja.h`.
pub fn expand_lent<'a>(
    reg: &'a [u8],
    input: &'a [u8],
    limit: u32,
    file: u16,
    res: &mut [u8],
    work: &mut [u8],
    message: &mut [u8],
    counts: &mut [u32],
) -> Answer
    ensures { (answer_with result res.new work.new message.new ≡ expand_answer (buffers (length res.old) (length work.old) (length message.old)) limit file reg.now input.now) × (counts.new ≡ expand_counts (buffers (length res.old) (length work.old) (length message.old)) limit file reg.now input.now counts.old) }
{
    if !long_buffers(res.len(), work.len(), message.len()) {
        return number_alone(numbers::SHORT_BUFFER, 0, res, work, message);
    }
    match accept_two(reg, DEFINITIONS, input, CONDITION) {
        Err(fault) => number_alone(fault.number(), 0, res, work, message),
        Ok((d, c)) => {
            let registry = Tape {
                bytes: reg,
                layout: d,
            };
            let condition = Tape {
                bytes: input,
                layout: c,
            };
            if without_or(&registry, &condition) {
                expand_in(
                    &registry, &condition, limit, file, res, work, message, counts,
                )
            } else {
                expand_rewritten(
                    &registry, &condition, limit, file, res, work, message, counts,
                )
            }
        }
    }
}

// The same with the state by value: it is taken, and handed back.
pub fn expand<'a>(
    registry: &'a [u8],
    input: &'a [u8],
    limit: u32,
    file: u16,
    res: &mut [u8],
    work: &mut [u8],
    message: &mut [u8],
    counts: Counts,
) -> Expanded
    ensures { (answer_with result.answer res.new work.new message.new ≡ expand_answer (buffers (length res.old) (length work.old) (length message.old)) limit file registry.now input.now) × (result.counts.of ≡ expand_counts (buffers (length res.old) (length work.old) (length message.old)) limit file registry.now input.now counts.of) }
{
    let mut of = counts.of;
    let answer = expand_lent(registry, input, limit, file, res, work, message, &mut of);
    Expanded {
        answer,
        counts: Counts { of },
    }
}
