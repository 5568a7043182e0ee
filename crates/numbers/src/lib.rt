// The numbers that an operation gives by itself, under the names that `include/neukolja.h` has for them (documents 01 and 02). Those of
// a reason with a message, 10 to 47, stand in `messages::number`, and those of acceptance in `tape::header::Fault`.
// They are no enum: the number is what C reads, and each operation has a few of them.
#![tactic(auto)]

pub const OK: u32 = 0;
// a buffer is shorter than document 01 asks
pub const SHORT_BUFFER: u32 = 1;
// no tape, or no node of the sort that is asked for (`nodes::Refusal::MALFORMED`)
pub const MALFORMED: u32 = 2;
// past a largest figure
pub const TOO_LARGE: u32 = 3;
// a call in a body that is substituted
pub const CALL_MET_IN_BODY: u32 = 48;
// the supplied tape is another one (document 02, point 3)
pub const NOT_EQUAL: u32 = 50;
// a name that two registries define otherwise (point 7)
pub const DEFINITIONS_DIFFER: u32 = 51;
// days at seven times an amount of weeks leave the range (point 8)
pub const OUT_OF_RANGE: u32 = 52;
// an aggregate, the seventeenth node, an interval outside 0 to one day (point 10)
pub const AGGREGATE: u32 = 53;

pub const TOO_MANY_NODES: u32 = 54;

pub const TOO_LONG_INTERVAL: u32 = 55;
// a field in an argument that is to become a term, and a term that no argument becomes (point 11)
pub const HAS_A_FIELD: u32 = 56;

pub const NOT_AN_ARGUMENT: u32 = 58;
// more conditions than 32, or a longer sheet (point 13)
pub const SHEET_TOO_LARGE: u32 = 57;
