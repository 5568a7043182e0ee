// What stands for a parameter or a binder's name at each kind of place of a body, and what a refinement's base comes out as.
#![tactic(auto)]

pub mod places;
pub mod refine;
