// Document 01's table "Codes on the tape"; specs/Grammar.antt has it with names, specs/Words.antt says how it is written.
ghost use Rattle.std.specs.Prelude.{◌≡◌, ◌<◌};
ghost use Rattle.grammar.specs.Words.{follows_in, in_sort, is_each, rules, temporal_grammar};

use crate::code;
use crate::rules::TextRule::{Long, Name, Short};
use crate::rules::{
    CodeRule, Grammar, LEAF, LIST, NO_SORT, NODE, NodeRule, SortRule, leaf, list, node, sort,
};

// The sorts. They are numbers, since another table has other sorts under the same ones, and any number may be asked for.
pub const CONDITION: u64 = 1;

pub const TERM: u64 = 2;

pub const AGGREGATE: u64 = 3;

pub const TEXT: u64 = 4;

pub const SPAN: u64 = 5;

pub const SLOT: u64 = 6;

pub const TYPE: u64 = 7;

pub const WITHIN: u64 = 8;

pub const INTERVAL: u64 = 9;

pub const OPERATOR: u64 = 10;

pub const CALL: u64 = 11;

pub const ARGUMENT: u64 = 12;

pub const SIGIL: u64 = 13;

pub const DEFINITION: u64 = 14;

pub const BODY: u64 = 15;

pub const FIELD: u64 = 16;

pub const PARAMETER: u64 = 17;

pub const BINDING: u64 = 18;

pub const TEXTS: u64 = 19;

pub const FIELDS: u64 = 20;

pub const BINDINGS: u64 = 21;

pub const ARGUMENTS: u64 = 22;

pub const PARAMETERS: u64 = 23;

pub const DEFINITIONS: u64 = 24;

// No such code.
const UNUSED: CodeRule = leaf!(values: 1);

// What follows stands in octal digits here and in the codes, since it is the word that a scan shifts: from the right each two digits are a
// sort's number, and 0o40 more says that there are as many of the sort as the value.
static SORTS: [SortRule; 32] = [
    NO_SORT,
    sort!(low: code::AND, end: code::REFINE + 1), // 1 condition: 1 to 13
    sort!(low: code::ENTITY, end: code::BINDER_REF + 1), // 2 term: 20 to 33
    sort!(low: code::SUM, end: code::AGG_CALL + 1), // 3 aggregate: 34 to 36
    sort!(low: code::TEXT, end: code::TEXT + 1), // 4 text: 40
    sort!(low: code::SPAN, end: code::SPAN + 1), // 5 span: 42
    sort!(low: code::SLOT_NAME, end: code::SLOT_BINDER + 1), // 6 slot: 43 to 45
    sort!(low: code::TYPE_TIMEPOINT, end: code::TYPE_NAMED + 1), // 7 type: 46 to 47
    sort!(low: code::SECONDS, end: code::WITHIN_PARAM + 1, low_too: code::WEEKS, end_too: code::WEEKS + 1), // 8 within: 48 to 52 and 64
    sort!(low: code::SECONDS, end: code::DAYS + 1, low_too: code::WEEKS, end_too: code::WEEKS + 1), // 9 interval: 48 to 51 and 64
    sort!(low: code::OPERATOR, end: code::OPERATOR + 1), // 10 operator: 53
    sort!(low: code::CALLED, end: code::CALLED + 1), // 11 call: 54
    sort!(low: code::ARG_CONDITION, end: code::ARG_WITHIN + 1), // 12 argument: 55 to 57
    sort!(low: code::SIGIL_PARAM, end: code::SIGIL_BINDER + 1), // 13 sigil: 58 to 59
    sort!(low: code::DEFINITION, end: code::DEFINITION + 1), // 14 definition: 60
    sort!(low: code::BODY_CEDAR, end: code::BODY_VALUE + 1), // 15 body: 61 to 63
    sort!(low: code::TEXT, end: code::TEXT + 1, own: 0o02), // 16 field: 40
    sort!(low: code::SPAN, end: code::SPAN + 1, own: 0o04), // 17 parameter: 42
    sort!(low: code::SLOT_NAME, end: code::SLOT_BINDER + 1, own: 0o07), // 18 binding: 43 to 45
    list!(own: 0o44), // 19 texts: 41
    list!(own: 0o60), // 20 fields: 41
    list!(own: 0o62), // 21 bindings: 41
    list!(own: 0o54), // 22 arguments: 41
    list!(own: 0o61, few: true), // 23 parameters: 41
    list!(own: 0o56), // 24 definitions: 41
    NO_SORT,
    NO_SORT,
    NO_SORT,
    NO_SORT,
    NO_SORT,
    NO_SORT,
    NO_SORT,
];

static CODES: [CodeRule; 77] = [
    UNUSED,
    node!(follows: 0o01_01), // 1 And
    node!(follows: 0o01_01, nodes: NodeRule::Rewritten), // 2 Or
    node!(follows: 0o01), // 3 Not
    node!(follows: 0o01_10), // 4 Formerly
    node!(follows: 0o01_10), // 5 Previous
    node!(follows: 0o01_10_01), // 6 Since
    node!(follows: 0o24_04_04_23_05), // 7 Predicate
    node!(follows: 0o02_02_12), // 8 Comparison
    node!(follows: 0o01_07_06), // 9 Exists
    node!(follows: 0o06), // 10 Tp
    node!(follows: 0o13), // 11 Call
    node!(follows: 0o15), // 12 SigilRef
    node!(follows: 0o24_01_05), // 13 Refine
    UNUSED,
    UNUSED,
    UNUSED,
    UNUSED,
    UNUSED,
    UNUSED,
    node!(values: 1, follows: 0o04_04), // 20 Entity
    NODE, // 21 Integer
    node!(text: Long), // 22 Decimal
    node!(text: Long), // 23 String
    node!(values: 2), // 24 Bool
    node!(follows: 0o44), // 25 ContextField
    node!(follows: 0o44), // 26 ScopeField
    node!(text: Name), // 27 Var
    node!(values: 1), // 28 Wildcard
    node!(follows: 0o42), // 29 Array
    node!(values: 1, follows: 0o03), // 30 Agg
    node!(values: 3, follows: 0o02_02), // 31 Arith
    node!(text: Short), // 32 ParamRef
    node!(text: Short), // 33 BinderRef
    node!(follows: 0o01_25_06), // 34 Sum
    node!(follows: 0o01_25), // 35 Count
    node!(follows: 0o13), // 36 aggregate Call
    UNUSED,
    UNUSED,
    UNUSED,
    leaf!(text: Short), // 40 text
    LEAF, // 41 list: what follows is the sort's
    LEAF, // 42 span
    leaf!(text: Name), // 43 slot Name
    leaf!(text: Short), // 44 slot ParamRef
    leaf!(text: Short), // 45 slot BinderRef
    leaf!(values: 1), // 46 type Timepoint
    leaf!(follows: 0o44), // 47 type Named
    LEAF, // 48 seconds
    LEAF, // 49 minutes
    LEAF, // 50 hours
    LEAF, // 51 days
    leaf!(text: Short), // 52 within ParamRef
    leaf!(values: 6), // 53 operator
    leaf!(follows: 0o26_04, is_call: true), // 54 call
    leaf!(values: 1, follows: 0o01), // 55 argument: condition
    leaf!(values: 1, follows: 0o02), // 56 argument: term
    leaf!(values: 1, follows: 0o11), // 57 argument: interval
    leaf!(text: Short), // 58 sigil `?`
    leaf!(text: Short), // 59 sigil `$`
    leaf!(follows: 0o17_27_04), // 60 definition
    leaf!(values: 1), // 61 body: Cedar
    leaf!(values: 1, follows: 0o01), // 62 body: condition
    leaf!(values: 1, follows: 0o02), // 63 body: term
    LEAF, // 64 weeks
    UNUSED,
    UNUSED,
    UNUSED,
    UNUSED,
    UNUSED,
    UNUSED,
    UNUSED,
    leaf!(text: Long), // 72 a provider's string: no sort has it
    UNUSED,
    leaf!(text: Long), // 74 a provider's decimal
    UNUSED,
    UNUSED, // 76
];

// The table.
#[tactic(auto, unfolding(crate::specs::Words::temporal_grammar))]
pub fn table() -> Grammar<'static>
    ensures { rules result ≡ temporal_grammar }
{
    Grammar {
        sorts: &SORTS,
        codes: &CODES,
    }
}

// Whether a code is one of a sort's.
pub fn in_sort(sort: SortRule, code: u8) -> bool
    ensures { result ≡ in_sort sort code }
{
    sort.low <= code && (code < sort.end || (sort.low_too <= code) & (code < sort.end_too))
}

// The word of what follows a code at a place of a sort: five sorts at the most, which are 30 bits.
pub fn follows_in(sort: SortRule, row: CodeRule) -> u32
    ensures { (result ≡ follows_in sort row) × (result < 0x40000000) }
{
    let word = if sort.own == 0 { row.follows } else { sort.own };
    word % 0x4000_0000
}

// What follows is as many of the sort above this as the value says.
pub(crate) const EACH: u32 = 0o40;

// Whether what follows is as many of a sort as the value says.
pub fn is_each(follows: u64) -> bool
    ensures { result ≡ is_each follows }
{
    (u64::from(EACH) <= follows) & (follows < 64)
}
