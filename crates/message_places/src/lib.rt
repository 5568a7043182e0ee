// The words of document 01's messages 36 to 47, of what stands in a place that is not for it: a function for each, that puts it into a
// message. Each is a line or two over `around` or `around_two`, beside its definition of the same name; one function for all would be
// one `match` of the same lines.
#![tactic(auto)]

pub mod parameter;
pub mod stray;
