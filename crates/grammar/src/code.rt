// The codes of the entries of a tape, by name. What follows each is in the table of `codes`. They are numbers and no enum: any byte may
// stand on a tape, tables are read by it, a provider's codes are others of the same bytes, and an enum would be made of a byte, which may
// fail, at each read and turned back at each write.

// Conditions: a span.
pub const AND: u8 = 1;

pub const OR: u8 = 2;

pub const NOT: u8 = 3;

pub const FORMERLY: u8 = 4;

pub const PREVIOUS: u8 = 5;

pub const SINCE: u8 = 6;

pub const PREDICATE: u8 = 7;

pub const COMPARISON: u8 = 8;

pub const EXISTS: u8 = 9;

pub const TP: u8 = 10;

pub const CALL: u8 = 11;

pub const SIGIL_REF: u8 = 12;

pub const REFINE: u8 = 13;

// Terms.
pub const ENTITY: u8 = 20;

pub const INTEGER: u8 = 21;

pub const DECIMAL: u8 = 22;

pub const STRING: u8 = 23;

pub const BOOL: u8 = 24;

pub const CONTEXT_FIELD: u8 = 25;

pub const SCOPE_FIELD: u8 = 26;

pub const VAR: u8 = 27;

pub const WILDCARD: u8 = 28;

pub const ARRAY: u8 = 29;

pub const AGG: u8 = 30;

pub const ARITH: u8 = 31;

pub const PARAM_REF: u8 = 32;

pub const BINDER_REF: u8 = 33;

// Aggregates: a span.
pub const SUM: u8 = 34;

pub const COUNT: u8 = 35;

pub const AGG_CALL: u8 = 36;

// What all are made of: a text, a list's count, a span.
pub const TEXT: u8 = 40;

pub const LIST: u8 = 41;

pub const SPAN: u8 = 42;

// The place of a variable, and its type.
pub const SLOT_NAME: u8 = 43;

pub const SLOT_PARAM: u8 = 44;

pub const SLOT_BINDER: u8 = 45;

pub const TYPE_TIMEPOINT: u8 = 46;

pub const TYPE_NAMED: u8 = 47;

// Intervals, by their unit.
pub const SECONDS: u8 = 48;

pub const MINUTES: u8 = 49;

pub const HOURS: u8 = 50;

pub const DAYS: u8 = 51;

pub const WITHIN_PARAM: u8 = 52;

pub const WEEKS: u8 = 64;

// The operator of a comparison.
pub const OPERATOR: u8 = 53;

// What is called, and its arguments.
pub const CALLED: u8 = 54;

pub const ARG_CONDITION: u8 = 55;

pub const ARG_TERM: u8 = 56;

pub const ARG_WITHIN: u8 = 57;

// The name behind a `?` or a `$` that stands for a condition.
pub const SIGIL_PARAM: u8 = 58;

pub const SIGIL_BINDER: u8 = 59;

// A definition, and its body.
pub const DEFINITION: u8 = 60;

pub const BODY_CEDAR: u8 = 61;

pub const BODY_CONDITION: u8 = 62;

pub const BODY_VALUE: u8 = 63;
