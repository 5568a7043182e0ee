// The functions that C links. A slice is two parameters there, its pointer and its length; `answer` is a pointer to five words, or to
// seven for a preview.
#![tactic(auto)]

ghost use Rattle.std.specs.Prelude.{[], ◌≡◌, length};
ghost use Rattle.definition.specs.Answers.{check_answer, registry_answer, substitute_answer, expand_answer};
ghost use Rattle.definition.specs.Judge.{judge_answer};
ghost use Rattle.definition.specs.Older.{older_answer};
ghost use Rattle.definition.specs.Counts.{fresh_counts, expand_counts};
ghost use Rattle.definition.specs.Preview.{preview_answer};
ghost use Rattle.definition.specs.Library.{library_answer, check_at_answer};
ghost use Rattle.definition.specs.Merge.{merge_answer};
ghost use Rattle.definition.specs.Profile.{profile_answer};
ghost use Rattle.definition.specs.Provider.{provider_answer, argument_to_term_answer, term_to_argument_answer};
ghost use Rattle.answer.specs.Matches.{buffers};
ghost use Rattle.neukolja.specs.Words.{words_of, words_with, seven_of, seven_with};

use answer::Answer;
use expansion::expand_lent;
use preview::Previewed;

mod sheet_steps;

// The answer as five words: number, start, end, message length, charged.
fn write_words(r: Answer, words: &mut [u64; 5])
    ensures { words.new ≡ words_of r }
{
    let span = r.span;
    *words = [
        r.number as u64,
        span.start as u64,
        span.end as u64,
        r.message_length as u64,
        r.charged as u64,
    ];
}

// A preview as seven words: the five of its answer, then the result's N and T.
fn write_seven(r: Previewed, words: &mut [u64; 7])
    ensures { words.new ≡ seven_of r }
{
    let told = r.answer;
    let span = told.span;
    *words = [
        told.number as u64,
        span.start as u64,
        span.end as u64,
        told.message_length as u64,
        told.charged as u64,
        r.entries as u64,
        r.text as u64,
    ];
}

#[tactic(auto, using(crate::proofs::WordsWith::words_with_lem))]
#[unsafe(no_mangle)]
pub extern "C" fn neukolja_check(definition: &[u8], message: &mut [u8], answer: &mut [u64; 5])
    ensures { words_with answer.new [] [] message.new ≡ check_answer (length message.old) definition.now }
{
    write_words(check_body::check(definition, message), answer);
}

#[tactic(auto, using(crate::proofs::WordsWith::words_with_lem))]
#[unsafe(no_mangle)]
pub extern "C" fn neukolja_registry(
    registry: &[u8],
    message: &mut [u8],
    counts: &mut [u32; 255],
    answer: &mut [u64; 5],
)
    ensures { (words_with answer.new [] [] message.new ≡ registry_answer (length message.old) registry.now) × (counts.new ≡ fresh_counts) }
{
    let built = registry::build(registry, message);
    let state = built.counts;
    let fresh = state.of;
    *counts = fresh;
    write_words(built.answer, answer);
}

#[tactic(auto, using(crate::proofs::WordsWith::words_with_lem))]
#[unsafe(no_mangle)]
pub extern "C" fn neukolja_check_library(
    registry: &[u8],
    res: &mut [u8],
    message: &mut [u8],
    answer: &mut [u64; 5],
)
    ensures { words_with answer.new res.new [] message.new ≡ library_answer (length res.old) (length message.old) registry.now }
{
    write_words(check_library::check_library(registry, res, message), answer);
}

#[tactic(auto, using(crate::proofs::WordsWith::words_with_lem))]
#[unsafe(no_mangle)]
pub extern "C" fn neukolja_check_at(
    registry: &[u8],
    index: u32,
    message: &mut [u8],
    answer: &mut [u64; 5],
)
    ensures { words_with answer.new [] [] message.new ≡ check_at_answer (length message.old) registry.now index }
{
    write_words(check_library::check_at(registry, index, message), answer);
}

#[tactic(auto, using(crate::proofs::WordsWith::words_with_lem))]
#[unsafe(no_mangle)]
pub extern "C" fn neukolja_substitute<'a>(
    definition: &'a [u8],
    call: &'a [u8],
    limit: u32,
    file: u16,
    res: &mut [u8],
    work: &mut [u8],
    message: &mut [u8],
    answer: &mut [u64; 5],
)
    ensures { words_with answer.new res.new work.new message.new ≡ substitute_answer (buffers (length res.old) (length work.old) (length message.old)) limit file definition.now call.now }
{
    write_words(
        substitution::substitute(definition, call, limit, file, res, work, message),
        answer,
    );
}

#[tactic(auto, using(crate::proofs::WordsWith::words_with_lem))]
#[unsafe(no_mangle)]
pub extern "C" fn neukolja_expand<'a>(
    registry: &'a [u8],
    input: &'a [u8],
    limit: u32,
    file: u16,
    res: &mut [u8],
    work: &mut [u8],
    message: &mut [u8],
    counts: &mut [u32; 255],
    answer: &mut [u64; 5],
)
    ensures { (words_with answer.new res.new work.new message.new ≡ expand_answer (buffers (length res.old) (length work.old) (length message.old)) limit file registry.now input.now) × (counts.new ≡ expand_counts (buffers (length res.old) (length work.old) (length message.old)) limit file registry.now input.now counts.old) }
{
    let r = expand_lent(registry, input, limit, file, res, work, message, counts);
    write_words(r, answer);
}

#[tactic(auto, using(crate::proofs::WordsWith::seven_with_lem))]
#[unsafe(no_mangle)]
pub extern "C" fn neukolja_preview<'a>(
    registry: &'a [u8],
    input: &'a [u8],
    limit: u32,
    file: u16,
    work: &mut [u8],
    message: &mut [u8],
    answer: &mut [u64; 7],
)
    ensures { seven_with answer.new work.new message.new ≡ preview_answer (length work.old) (length message.old) limit file registry.now input.now }
{
    let r = preview::preview(registry, input, limit, file, work, message);
    write_seven(r, answer);
}

#[tactic(auto, using(crate::proofs::WordsWith::words_with_lem))]
#[unsafe(no_mangle)]
pub extern "C" fn neukolja_judge<'a>(
    registry: &'a [u8],
    input: &'a [u8],
    supplied: &'a [u8],
    limit: u32,
    file: u16,
    res: &mut [u8],
    work: &mut [u8],
    message: &mut [u8],
    answer: &mut [u64; 5],
)
    ensures { words_with answer.new res.new work.new message.new ≡ judge_answer (buffers (length res.old) (length work.old) (length message.old)) limit file registry.now input.now supplied.now }
{
    write_words(
        judge::judge(registry, input, supplied, limit, file, res, work, message),
        answer,
    );
}

#[tactic(auto, using(crate::proofs::WordsWith::words_with_lem))]
#[unsafe(no_mangle)]
pub extern "C" fn neukolja_older(tape: &[u8], res: &mut [u8], answer: &mut [u64; 5])
    ensures { words_with answer.new res.new [] [] ≡ older_answer (length res.old) tape.now }
{
    write_words(older::older(tape, res), answer);
}

#[tactic(auto, using(crate::proofs::WordsWith::words_with_lem))]
#[unsafe(no_mangle)]
pub extern "C" fn neukolja_merge(
    first: &[u8],
    second: &[u8],
    res: &mut [u8],
    message: &mut [u8],
    answer: &mut [u64; 5],
)
    ensures { words_with answer.new res.new [] message.new ≡ merge_answer (length res.old) (length message.old) first.now second.now }
{
    write_words(merge::merge(first, second, res, message), answer);
}

#[tactic(auto, using(crate::proofs::WordsWith::words_with_lem))]
#[unsafe(no_mangle)]
pub extern "C" fn neukolja_profile(condition: &[u8], answer: &mut [u64; 5])
    ensures { words_with answer.new [] [] [] ≡ profile_answer condition.now }
{
    write_words(profile::profile(condition), answer);
}

#[tactic(auto, using(crate::proofs::WordsWith::words_with_lem))]
#[unsafe(no_mangle)]
pub extern "C" fn neukolja_provider(tape: &[u8], answer: &mut [u64; 5])
    ensures { words_with answer.new [] [] [] ≡ provider_answer tape.now }
{
    write_words(provider::provider(tape), answer);
}

#[tactic(auto, using(crate::proofs::WordsWith::words_with_lem))]
#[unsafe(no_mangle)]
pub extern "C" fn neukolja_argument_to_term(tape: &[u8], res: &mut [u8], answer: &mut [u64; 5])
    ensures { words_with answer.new res.new [] [] ≡ argument_to_term_answer (length res.old) tape.now }
{
    write_words(provider::argument_to_term(tape, res), answer);
}

#[tactic(auto, using(crate::proofs::WordsWith::words_with_lem))]
#[unsafe(no_mangle)]
pub extern "C" fn neukolja_term_to_argument(tape: &[u8], res: &mut [u8], answer: &mut [u64; 5])
    ensures { words_with answer.new res.new [] [] ≡ term_to_argument_answer (length res.old) tape.now }
{
    write_words(provider::term_to_argument(tape, res), answer);
}
