// What a walk over a body has at hand: the arguments of the call, found and measured once, the budget, and the writing of what a place
// becomes, the body's own entries, a pasted argument or a generated name.
#![tactic(auto)]

pub mod maps;
pub mod paste;
pub mod run;
