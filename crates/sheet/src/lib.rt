// The house sheet (document 02, point 13): many conditions expanded under one budget and one file number. There are no callbacks, so
// the caller steps: `open`, and then `next` for each condition, with buffers of the caller's choice. It is written over the contracts of
// registry and expansion alone.
#![tactic(auto)]

ghost use Rattle.std.specs.Prelude.{◌≡◌, [], ◌+◌, ◌-◌, ◌≤◌, length, drop, true, false, MatchOption};
ghost use Rattle.answer.specs.Matches.{answer_with, buffers};
ghost use Rattle.definition.specs.Answers.{tree_answer, number_alone};
ghost use Rattle.sheet.specs.Sheet.{begins_with_one, first_of, width_of, filled_by, checked, sheet_open_answer, conditions_left, sheet_open_progress, limit_of, file_of, expansion_answer, expansion_counts, sheet_next_answer, sheet_next_progress, sheet_next_counts};

use answer::{Answer, long_buffers, number_alone, refuse_number};
use buffer::read_size;
use expansion::expand_lent;

// Where the next condition begins, how many are left, what was charged so far, the budget, and the file number. The numbers are as wide
// as C hands them in, and `next` has an answer for any five.
#[derive(Clone, Copy, Debug, PartialEq, Eq)]
pub struct Progress {
    pub at: u64,
    pub left: u64,
    pub charged: u64,
    pub budget: u64,
    pub file: u64,
}

// What a step returns.
#[derive(Clone, Copy, Debug, PartialEq, Eq)]
pub struct Step {
    pub answer: Answer,
    pub progress: Progress,
}

// The condition at the front of `s`, if one stands there, and what lies behind it: a 4-byte length, and that many bytes.
fn split_condition(s: &[u8]) -> Option<(&[u8], &[u8])>
    ensures { MatchOption result (begins_with_one s.now ≡ false) (λ p. (begins_with_one s.now ≡ true) × (p.0.now ≡ first_of s.now) × (p.1.now ≡ drop (width_of s.now) s.now)) }
{
    let (_, behind) = s.split_at_checked(4)?;
    behind.split_at_checked(read_size(s, 0) as usize)
}

// Whether `s` is so many conditions and nothing else.
#[tactic(auto, using(crate::proofs::Front::filled_none, crate::proofs::Front::filled_turn, crate::proofs::Front::filled_end))]
fn filled_by(s: &[u8], count: u32) -> bool
    ensures { result ≡ filled_by count s.now }
{
    let mut rest = s;
    for _ in 0..count {
        let Some((_, behind)) = split_condition(rest) else {
            return false;
        };
        rest = behind;
    }
    rest.is_empty()
}

// Why a sheet is not opened: it is longer, or counts more conditions, than there may be; or its count and lengths do not fill it. Its two
// cases are named as those of `tape::header::Fault`, but their numbers are 57 and 2, not 3 and 2; and this crate is written over the
// contracts of registry and expansion alone (document 01).
#[derive(Clone, Copy, Debug, PartialEq, Eq)]
enum SheetFault {
    TooLarge,
    Malformed,
}

impl SheetFault {
    ghost use Rattle.std.specs.Prelude.{◌≡◌};
    ghost use Rattle.sheet.specs.Sheet.{fault_number};

    // The refusal's number.
    fn number(self) -> u32
        ensures { result ≡ fault_number self }
    {
        match self {
            SheetFault::TooLarge => numbers::SHEET_TOO_LARGE,
            SheetFault::Malformed => numbers::MALFORMED,
        }
    }
}

// Whether a sheet can be gone through.
#[tactic(auto, using(crate::proofs::Opening::check_long, crate::proofs::Opening::check_few, crate::proofs::Opening::check_many, crate::proofs::Opening::check_filled, crate::proofs::Opening::check_not_filled), unfolding(crate::specs::Sheet::size_of))]
fn check_sheet(sheet: &[u8]) -> Result<(), SheetFault>
    ensures { result ≡ checked sheet.now }
{
    if 65536 < sheet.len() {
        return Err(SheetFault::TooLarge);
    }
    if sheet.len() < 4 {
        return Err(SheetFault::Malformed);
    }
    let count = read_size(sheet, 0);
    if 32 < count {
        return Err(SheetFault::TooLarge);
    }
    if filled_by(&sheet[4..], count) {
        Ok(())
    } else {
        Err(SheetFault::Malformed)
    }
}

// The registry's refusals, then the sheet's.
#[tactic(auto, using(crate::proofs::Opening::open_registry_refused, crate::proofs::Opening::open_fault_behind, crate::proofs::Opening::open_checked, format::proofs::Accepted::bytes_all))]
fn answer_open(registry: &[u8], sheet: &[u8], message: &mut [u8]) -> Answer
    ensures { answer_with result [] [] message.new ≡ sheet_open_answer (length message.old) registry.now sheet.now }
{
    let built = registry::build(registry, message);
    let answer = built.answer;
    if answer.number != numbers::OK {
        return answer;
    }
    match check_sheet(sheet) {
        Ok(()) => answer,
        Err(fault) => refuse_number(fault.number(), message),
    }
}

// How many conditions there are to go through: none where opening was refused.
#[tactic(auto, unfolding(crate::specs::Sheet::conditions_left, crate::specs::Sheet::size_of))]
fn conditions_left(sheet: &[u8], number: u32) -> u32
    ensures { result ≡ conditions_left number sheet.now }
{
    if number == numbers::OK {
        read_size(sheet, 0)
    } else {
        0
    }
}

// Opens a sheet: the answer, and the state of its start.
#[tactic(auto, using(crate::proofs::Opening::open_progress))]
pub fn open(registry: &[u8], sheet: &[u8], budget: u32, file: u16, message: &mut [u8]) -> Step
    ensures { (answer_with result.answer [] [] message.new ≡ sheet_open_answer (length message.old) registry.now sheet.now) × (result.progress ≡ sheet_open_progress (length message.old) registry.now sheet.now budget file) }
{
    let answer = answer_open(registry, sheet, message);
    let left = conditions_left(sheet, answer.number);
    Step {
        answer,
        progress: Progress {
            at: 4,
            left: left as u64,
            charged: 0,
            budget: budget as u64,
            file: file as u64,
        },
    }
}

// What is left of the budget.
#[tactic(auto, unfolding(crate::specs::Sheet::limit_of))]
fn limit_of(p: Progress) -> u32
    ensures { result ≡ limit_of p }
{
    p.budget.saturating_sub(p.charged).min(0xFFFF_FFFF) as u32
}

#[tactic(auto, unfolding(crate::specs::Sheet::file_of))]
fn file_of(p: Progress) -> u16
    ensures { result ≡ file_of p }
{
    p.file.min(0xFFFF) as u16
}

// What is left of a sheet from a place on.
fn rest_of(sheet: &[u8], at: u64) -> &[u8]
    ensures { result.now ≡ drop at sheet.now }
{
    let start = (at as usize).min(sheet.len());
    &sheet[start..]
}

// The condition that begins at a place, or an empty one where there is none.
#[tactic(auto, using(crate::proofs::Front::first_none))]
fn condition_at(sheet: &[u8], at: u64) -> &[u8]
    ensures { result.now ≡ first_of (drop at sheet.now) }
{
    match split_condition(rest_of(sheet, at)) {
        Some((condition, _)) => condition,
        None => &[],
    }
}

// The place behind it.
#[tactic(auto, using(crate::proofs::Front::behind_fits, crate::proofs::Front::behind_one, crate::proofs::Front::behind_none))]
fn behind_condition(sheet: &[u8], at: u64) -> u64
    ensures { result ≡ at + width_of (drop at sheet.now) }
{
    match split_condition(rest_of(sheet, at)) {
        Some((condition, _)) => at + 4 + condition.len() as u64,
        None => at,
    }
}

// The expansion of the next condition, with what is left of the budget as its limit. No more than that is charged.
fn expand_next<'a>(
    registry: &'a [u8],
    sheet: &'a [u8],
    p: Progress,
    res: &mut [u8],
    work: &mut [u8],
    message: &mut [u8],
    counts: &mut [u32],
) -> Answer
    ensures { (answer_with result res.new work.new message.new ≡ expansion_answer (buffers (length res.old) (length work.old) (length message.old)) registry.now sheet.now p) × (counts.new ≡ expansion_counts (buffers (length res.old) (length work.old) (length message.old)) registry.now sheet.now p counts.old) × (result.charged ≤ p.budget - p.charged) }
{
    let condition = condition_at(sheet, p.at);
    expand_lent(
        registry,
        condition,
        limit_of(p),
        file_of(p),
        res,
        work,
        message,
        counts,
    )
}

// A sheet that is done has nothing to expand.
#[tactic(auto, using(crate::proofs::Stepping::done_short, crate::proofs::Stepping::done_long))]
fn answer_done(res: &mut [u8], work: &mut [u8], message: &mut [u8]) -> Answer
    ensures { answer_with result res.new work.new message.new ≡ tree_answer (buffers (length res.old) (length work.old) (length message.old)) (number_alone 0) }
{
    let long = long_buffers(res.len(), work.len(), message.len());
    let number = if long {
        numbers::OK
    } else {
        numbers::SHORT_BUFFER
    };
    number_alone(number, 0, res, work, message)
}

// A step: the next condition's expansion, and the state behind it, in which its charge stays, refused or not. When none is left the state
// stays as it is.
#[tactic(auto, using(crate::proofs::Stepping::done_answer, crate::proofs::Stepping::done_progress, crate::proofs::Stepping::done_counts, crate::proofs::Stepping::next_is_expansion, crate::proofs::Stepping::next_progress, crate::proofs::Stepping::next_hands_on))]
pub fn next<'a>(
    registry: &'a [u8],
    sheet: &'a [u8],
    p: Progress,
    res: &mut [u8],
    work: &mut [u8],
    message: &mut [u8],
    counts: &mut [u32],
) -> Step
    ensures { (answer_with result.answer res.new work.new message.new ≡ sheet_next_answer (buffers (length res.old) (length work.old) (length message.old)) registry.now sheet.now p) × (result.progress ≡ sheet_next_progress (buffers (length res.old) (length work.old) (length message.old)) registry.now sheet.now p) × (counts.new ≡ sheet_next_counts (buffers (length res.old) (length work.old) (length message.old)) registry.now sheet.now p counts.old) }
{
    let Some(left) = p.left.checked_sub(1) else {
        let answer = answer_done(res, work, message);
        return Step {
            answer,
            progress: p,
        };
    };
    let answer = expand_next(registry, sheet, p, res, work, message, counts);
    let at = behind_condition(sheet, p.at);
    Step {
        answer,
        progress: Progress {
            at,
            left,
            charged: p.charged + answer.charged as u64,
            ..p
        },
    }
}
