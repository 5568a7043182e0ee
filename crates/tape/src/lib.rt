// The tape of document 01, read: its sizes, entries and text, whether a slice is a tape at all, how far a subtree reaches,
// and how large it is.
#![tactic(auto)]

pub mod accept;
pub mod count;
pub mod ends;
pub mod flat;
pub mod header;
pub mod held;
pub mod layout;
pub mod ors;
pub mod part;
pub mod scan;
pub mod text;
pub mod utf8;
