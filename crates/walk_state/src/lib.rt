// What a walk carries from node to node: the place where it is, and for a walk that writes its output and what was charged; or the first
// refusal, which every function hands on.
#![tactic(auto)]

pub mod reading;
pub mod writing;
