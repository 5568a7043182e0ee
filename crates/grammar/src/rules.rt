// A grammar of tapes as a table: what it says of each sort and of each code. Any such table can be read: of a sort's number the lowest five
// bits count, and a code past the last is one with nothing behind it.
ghost use Rattle.std.specs.Prelude.{◌≡◌};
ghost use Rattle.grammar.specs.Words.{row_at, rules, sort_at};

use crate::code;

// A sort: the codes that may stand at a place of it, from `low` to the one before `end`, and those of a second such range, which lies above
// the first (0 and 0: there is none); the word of what follows there, where the sort says it and not the code (0: the code says it); and
// whether it is a list of at most 16. These are 12 bytes; with Options for the range and the word they would be 20.
#[derive(Clone, Copy, Debug, PartialEq, Eq)]
pub struct SortRule {
    pub low: u8,
    pub end: u8,
    pub low_too: u8,
    pub end_too: u8,
    pub own: u32,
    pub few: bool,
}

// What the text of an entry may be: it has none, or one of up to 64 bytes, of up to 255, or of as many as a name may have.
#[derive(Clone, Copy, Debug, PartialEq, Eq)]
pub enum TextRule {
    NoText,
    Short,
    Long,
    Name,
}

// How much an entry counts in nesting: nothing; one; one, and three in an input, being rewritten to three nodes on each path; or nothing,
// and two in an input.
#[derive(Clone, Copy, Debug, PartialEq, Eq)]
pub enum NodeRule {
    NoNode,
    One,
    Rewritten,
    TwoInInput,
}

// A code: the word of what follows an entry; how many values it may have, from 0 on, or 0 for any; its text, whose length is the value; how
// much it counts in nesting; and whether it is a call. These are eight bytes, which a scan has at hand in one register; with an Option for
// the values they would be 12.
#[derive(Clone, Copy, Debug, PartialEq, Eq)]
pub struct CodeRule {
    pub follows: u32,
    pub values: u8,
    pub text: TextRule,
    pub nodes: NodeRule,
    pub is_call: bool,
}

// The sorts and the codes by their numbers. The word of what follows has from the right a sort in each two octal digits, or it is 40 octal
// and one sort, for as many of it as the value says. It stays one number, since a scan takes a sort off it by dividing it by 64.
#[derive(Clone, Copy, Debug, PartialEq, Eq)]
pub struct Grammar<'a> {
    pub sorts: &'a [SortRule; 32],
    pub codes: &'a [CodeRule],
}

// No code is of this sort.
pub(crate) const NO_SORT: SortRule = SortRule {
    low: 0,
    end: 0,
    low_too: 0,
    end_too: 0,
    own: 0,
    few: false,
};

// A list, 41 and its items.
pub(crate) const LIST: SortRule = SortRule {
    low: code::LIST,
    end: code::LIST + 1,
    ..NO_SORT
};

// An entry of any value with nothing behind it.
pub(crate) const LEAF: CodeRule = CodeRule {
    follows: 0,
    values: 0,
    text: TextRule::NoText,
    nodes: NodeRule::NoNode,
    is_call: false,
};

// One that counts in nesting.
pub(crate) const NODE: CodeRule = CodeRule {
    nodes: NodeRule::One,
    ..LEAF
};

// A rule of a table, by the fields that differ from those of one of these four.
macro_rules! sort {
    ($($field:ident: $value:expr),*) => { SortRule { $($field: $value,)* ..NO_SORT } };
}

macro_rules! list {
    ($($field:ident: $value:expr),*) => { SortRule { $($field: $value,)* ..LIST } };
}

macro_rules! leaf {
    ($($field:ident: $value:expr),*) => { CodeRule { $($field: $value,)* ..LEAF } };
}

macro_rules! node {
    ($($field:ident: $value:expr),*) => { CodeRule { $($field: $value,)* ..NODE } };
}

pub(crate) use leaf;
pub(crate) use list;
pub(crate) use node;
pub(crate) use sort;

// What a table says of a sort, of whose number the lowest five bits count.
pub fn sort_at(grammar: Grammar, sort: u64) -> SortRule
    ensures { result ≡ sort_at (rules grammar.entry) sort }
{
    grammar.sorts[(sort % 32) as usize]
}

// What it says of a code.
pub fn row_at(grammar: Grammar, code: u8) -> CodeRule
    ensures { result ≡ row_at (rules grammar.entry) code }
{
    let codes = grammar.codes;
    codes.get(usize::from(code)).copied().unwrap_or(LEAF)
}
