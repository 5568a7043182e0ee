// The grammar of the tapes: what kind of value a code has, the tables of what may stand where, how many subtrees follow a code, and
// what one entry does to the stack of a scan.
#![tactic(auto)]

pub mod argument;
pub mod code;
pub mod codes;
pub mod count;
pub mod entry;
pub mod kind;
pub mod provider;
pub mod rules;
pub mod stack;
