// The words of document 01's messages 10 to 35, of definitions, bodies and calls: a function for each, that puts it into a message. Each
// is a line or two over `named`, `around` or `around_two`, beside its definition of the same name; one function for all would be one
// `match` of the same lines.
#![tactic(auto)]

pub mod body;
pub mod call;
