// A subtree is passed over by counting the subtrees that are still to come. A list's items are two subtrees each, but those of a list of
// texts, arguments or definitions one; a list of texts or arguments is the first list behind a 7 or a 54.
ghost use Rattle.std.specs.Prelude.{◌≡◌, ◌≤◌, ◌<◌, get_or};
ghost use Rattle.grammar.specs.Counts.{due_of, has_pairs, count_words, step_in, StepFits};

use crate::codes::{ARGUMENTS, BINDING, DEFINITIONS, FIELD, TEXTS};

// The value is a text's length; it says how many subtrees follow; it is a list's; the items of the next list are one subtree each.
// Marks in a number and no enum: a skip has most entries by one test, whether the number is below 8. By an enum, in the best of four forms,
// it takes 25 in 100 more instructions over 1,024 entries (20.1 each, where these take 16.1), and 6 over the registry of the cases.
const TEXT: u8 = 8;

const EACH: u8 = 16;

const LIST: u8 = 24;

const OPENS: u8 = 32;

// Of each code how many subtrees follow it, or one of the marks, or both.
const COUNTS: [u8; 77] = [
    0,
    2, // 1 And
    2, // 2 Or
    1, // 3 Not
    2, // 4 Formerly
    2, // 5 Previous
    3, // 6 Since
    OPENS + 5, // 7 Predicate
    3, // 8 Comparison
    3, // 9 Exists
    1, // 10 Tp
    1, // 11 Call
    1, // 12 SigilRef
    3, // 13 Refine
    0,
    0,
    0,
    0,
    0,
    0,
    2, // 20 Entity
    0, // 21 Integer
    TEXT, // 22 Decimal
    TEXT, // 23 String
    0, // 24 Bool
    EACH, // 25 ContextField
    EACH, // 26 ScopeField
    TEXT, // 27 Var
    0, // 28 Wildcard
    EACH, // 29 Array
    1, // 30 Agg
    2, // 31 Arith
    TEXT, // 32 ParamRef
    TEXT, // 33 BinderRef
    3, // 34 Sum
    2, // 35 Count
    1, // 36 aggregate Call
    0,
    0,
    0,
    TEXT, // 40 text
    LIST, // 41 list
    0, // 42 span
    TEXT, // 43 slot Name
    TEXT, // 44 slot ParamRef
    TEXT, // 45 slot BinderRef
    0, // 46 type Timepoint
    EACH, // 47 type Named
    0, // 48 seconds
    0, // 49 minutes
    0, // 50 hours
    0, // 51 days
    TEXT, // 52 within ParamRef
    0, // 53 operator
    OPENS + 2, // 54 call
    1, // 55 argument: condition
    1, // 56 argument: term
    1, // 57 argument: interval
    TEXT, // 58 sigil `?`
    TEXT, // 59 sigil `$`
    3, // 60 definition
    0, // 61 body: Cedar
    1, // 62 body: condition
    1, // 63 body: term
    0, // 64 weeks
    0,
    0,
    0,
    0,
    0,
    0,
    0,
    TEXT, // 72 provider's String
    0,
    TEXT, // 74 provider's Decimal
    0,
    0, // 76
];

// The table, for a count to lend.
#[tactic(auto, unfolding(crate::specs::Counts::count_words))]
pub fn counts() -> [u8; 77]
    ensures { result ≡ count_words }
{
    COUNTS
}

// A number of a table.
fn count_at(counts: &[u8], code: u8) -> u64
    ensures { (result ≡ get_or counts.now code 0) × (result < 256) }
{
    u64::from(counts.get(usize::from(code)).copied().unwrap_or(0))
}

// How many subtrees there are of a sort: a field, a parameter and a binding are two.
pub fn due_of(sort: u64) -> u64
    ensures { (result ≡ due_of sort) × (result ≤ 2) }
{
    if (FIELD <= sort) & (sort <= BINDING) {
        2
    } else {
        1
    }
}

// Whether the items of a list of the sort are two subtrees each.
pub fn has_pairs(sort: u64) -> bool
    ensures { result ≡ has_pairs sort }
{
    !matches!(sort, TEXTS | ARGUMENTS | DEFINITIONS)
}

// What an entry does to a count, with `left` entries behind it and `room` bytes of text left: it may not stand there, or it brings so many
// subtrees and bytes of text, and the items of the next list are two subtrees each or not. `pairs` is no enum, since no caller chooses
// by it: it is a part of the count, carried from entry to entry.
pub fn step(
    counts: &[u8],
    left: usize,
    room: usize,
    pairs: bool,
    code: u8,
    value: u64,
) -> Option<(u64, usize, bool)>
    requires { left ≤ 1024 }
    ensures { (result ≡ step_in counts.now left room «pairs» code value) × StepFits room result }
{
    let count = count_at(counts, code);
    if count < u64::from(TEXT) {
        return Some((count, 0, pairs));
    }
    if count < u64::from(EACH) {
        if (room as u64) < value {
            return None;
        }
        return Some((0, value as usize, pairs));
    }
    if u64::from(OPENS) <= count {
        // all marks are multiples of the first
        return Some((count % u64::from(TEXT), 0, false));
    }
    if (left as u64) < value {
        return None;
    }
    if count < u64::from(LIST) {
        return Some((value, 0, pairs));
    }
    if pairs {
        return Some((2 * value, 0, true));
    }
    Some((value, 0, true))
}
