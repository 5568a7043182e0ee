// The codes of provider tapes (document 02, point 11); specs/Provider.antt has them with names. A scan with this table is a scan
// of such a tape.
ghost use Rattle.std.specs.Prelude.{◌≡◌};
ghost use Rattle.grammar.specs.Words.{provider_grammar, rules};

use crate::rules::TextRule::{Long, Short};
use crate::rules::{
    CodeRule, Grammar, LEAF, LIST, NO_SORT, NODE, SortRule, leaf, list, node, sort,
};
use crate::{argument, code};

// The sorts that a tape's root may be of: a call or an argument, and an argument alone.
pub const ROOT: u64 = 1;

pub const ARGUMENT: u64 = 2;

// What follows is in octal digits, as in the other table.
static SORTS: [SortRule; 32] = [
    NO_SORT,
    sort!(low: argument::METHOD_CALL, end: argument::SET + 1), // 1 root: 70 to 76
    sort!(low: argument::FIELD, end: argument::SET + 1), // 2 argument: 71 to 76
    sort!(low: code::TEXT, end: code::TEXT + 1), // 3 text: 40
    list!(own: 0o42), // 4 arguments: 41
    NO_SORT,
    NO_SORT,
    NO_SORT,
    NO_SORT,
    NO_SORT,
    NO_SORT,
    NO_SORT,
    NO_SORT,
    NO_SORT,
    NO_SORT,
    NO_SORT,
    NO_SORT,
    NO_SORT,
    NO_SORT,
    NO_SORT,
    NO_SORT,
    NO_SORT,
    NO_SORT,
    NO_SORT,
    NO_SORT,
    NO_SORT,
    NO_SORT,
    NO_SORT,
    NO_SORT,
    NO_SORT,
    NO_SORT,
    NO_SORT,
];

// Of a code of document 01's only what its text may be.
static CODES: [CodeRule; 77] = [
    LEAF,
    LEAF,
    LEAF,
    LEAF,
    LEAF,
    LEAF,
    LEAF,
    LEAF,
    LEAF,
    LEAF,
    LEAF,
    LEAF,
    LEAF,
    LEAF,
    LEAF,
    LEAF,
    LEAF,
    LEAF,
    LEAF,
    LEAF,
    LEAF,
    LEAF,
    leaf!(text: Long), // 22
    leaf!(text: Long), // 23
    LEAF,
    LEAF,
    LEAF,
    leaf!(text: Short), // 27
    LEAF,
    LEAF,
    LEAF,
    LEAF,
    leaf!(text: Short), // 32
    leaf!(text: Short), // 33
    LEAF,
    LEAF,
    LEAF,
    LEAF,
    LEAF,
    LEAF,
    leaf!(text: Short), // 40 text
    LEAF, // 41 list: what follows is the sort's
    LEAF,
    leaf!(text: Short), // 43
    leaf!(text: Short), // 44
    leaf!(text: Short), // 45
    LEAF,
    LEAF,
    LEAF,
    LEAF,
    LEAF,
    LEAF,
    leaf!(text: Short), // 52
    LEAF,
    LEAF,
    LEAF,
    LEAF,
    LEAF,
    leaf!(text: Short), // 58
    leaf!(text: Short), // 59
    LEAF,
    LEAF,
    LEAF,
    LEAF,
    LEAF,
    LEAF,
    LEAF,
    LEAF,
    LEAF,
    LEAF,
    leaf!(follows: 0o04_03), // 70 call
    node!(follows: 0o43), // 71 Field
    node!(text: Long), // 72 String
    NODE, // 73 Integer
    node!(text: Long), // 74 Decimal
    node!(values: 2), // 75 Bool
    node!(follows: 0o42), // 76 Set
];

// The table.
#[tactic(auto, unfolding(crate::specs::Words::provider_grammar))]
pub fn table() -> Grammar<'static>
    ensures { rules result ≡ provider_grammar }
{
    Grammar {
        sorts: &SORTS,
        codes: &CODES,
    }
}
