// The spans of the conditions around what is still to come. An item of a condition is what has a condition or an interval in it: each of
// its conditions, its within, each argument of its call. The conditions that have items to come stand in a vector, the innermost last.
ghost use Rattle.std.specs.Prelude.{◌≡◌, true, ◌++◌, ◌<◌, ◌≤◌, drop, replicate, reverse};
ghost use Rattle.arrayvec.specs.ArrayVec.{array_vec_len};
ghost use Rattle.format.specs.Limits.{is_node, weigh};
ghost use Rattle.profile.specs.Spans.{items_of, is_condition, ends_item, spans_after, nearest, spans_in, Moved};

use arrayvec::ArrayVec;
use grammar::code;

// A condition that has items to come: how many more behind the next one, and its span.
#[derive(Clone, Copy, Debug, PartialEq, Eq, Default)]
pub struct Around {
    pub more: u64,
    pub span: u64,
}

// An entry's code and value, and how many arguments a call has whose 11 it is.
#[derive(Clone, Copy, Debug, PartialEq, Eq)]
pub struct Head {
    pub code: u8,
    pub value: u64,
    pub args: u64,
}

// How many items a condition has.
#[tactic(auto, unfolding(crate::specs::Spans::items_of))]
fn items_of(code: u8, args: u64) -> u64
    ensures { result ≡ items_of code args }
{
    match code {
        code::AND | code::OR | code::FORMERLY | code::PREVIOUS => 2,
        code::NOT | code::EXISTS | code::REFINE => 1,
        code::SINCE => 3,
        code::CALL => args,
        _ => 0,
    }
}

#[tactic(auto, unfolding(crate::specs::Spans::is_condition))]
fn is_condition(code: u8) -> bool
    ensures { result ≡ is_condition code }
{
    matches!(code, code::AND..=code::REFINE)
}

// Whether an entry is an item that has none in it: an interval, a parameter in the place of one, or a term as argument.
#[tactic(auto, unfolding(crate::specs::Spans::ends_item))]
fn ends_item(code: u8) -> bool
    ensures { result ≡ ends_item code }
{
    matches!(
        code,
        code::SECONDS
            | code::MINUTES
            | code::HOURS
            | code::DAYS
            | code::WEEKS
            | code::WITHIN_PARAM
            | code::ARG_TERM
    )
}

// The span of the condition that the next item is in; 0 for the whole.
#[tactic(auto, using(crate::proofs::Lists::nearest_none, crate::proofs::Lists::nearest_some))]
pub fn nearest(around: &[Around]) -> u64
    ensures { result ≡ nearest (spans_in (reverse around.now)) }
{
    match around.last() {
        Some(condition) => condition.span,
        None => 0,
    }
}

// The next item is no more to come.
fn take_item<const N: usize>(around: &mut ArrayVec<Around, N>)
    requires { array_vec_len around.old ≤ N }
    ensures { Moved around.old.items around.new.items (drop 1 (spans_in (reverse around.old.items))) 0 }
{
    let Some(condition) = around.pop() else {
        return;
    };
    if let Some(more) = condition.more.checked_sub(1) {
        around.push(Around { more, ..condition });
    }
}

// The items of a condition come next.
fn add_items<const N: usize>(around: &mut ArrayVec<Around, N>, count: u64, span: u64)
    requires { array_vec_len around.old < N }
    ensures { Moved around.old.items around.new.items (replicate count span ++ spans_in (reverse around.old.items)) 1 }
{
    if let Some(more) = count.checked_sub(1) {
        around.push(Around { more, span });
    }
}

// What is still to come behind an entry: an argument's 55 or 57 leaves its item to what it holds.
#[tactic(auto, using(crate::proofs::Lists::passed_end, crate::proofs::Lists::passed_other))]
pub fn pass_entry<const N: usize>(around: &mut ArrayVec<Around, N>, e: Head)
    requires { (array_vec_len around.old ≤ N) × (is_condition e.code ≡ true → array_vec_len around.old < N) }
    ensures { Moved around.old.items around.new.items (spans_after e (spans_in (reverse around.old.items))) (weigh (is_node e.code)) }
{
    if is_condition(e.code) {
        take_item(around);
        add_items(around, items_of(e.code, e.args), e.value);
    } else if ends_item(e.code) {
        take_item(around);
    }
}
