// What a substitution knows of its definition and its call, and the budget.
ghost use Rattle.std.specs.Prelude.{◌≡◌};
ghost use Rattle.subst_state.specs.Maps.{maps_at};
ghost use Rattle.subst_state.specs.Arguments.{sort_of, measure_at, table_from, argument_in, arg_for};
ghost use Rattle.subst_state.specs.Output.{charge_of};

use grammar::codes::{CONDITION, INTERVAL, TERM};
use message_parts::names::Params;
use nodes::{ArgNode, Name, entry, name_at, read_argument, read_param};
use tape::layout::{Place, Tape};
use tape::scan::skip;
use tape::text::size;

// The Rust's `SubstMaps` with the tapes that they speak of: the definition's and the call's, the call's arguments, found and measured
// once, the parameters, and what messages, charges and generated names want.
#[derive(Clone, Copy, Debug)]
pub struct Substitution<'a> {
    pub definition: Tape<'a>,
    pub call: Tape<'a>,
    pub args: &'a [Argument],
    pub params: Params,
    pub macro_name: Name,
    pub call_span: u64,
    pub limit: u32,
    pub file: u16,
}

// An argument: its place and the place behind it, the code of its root, its size.
#[derive(Clone, Copy, Debug, PartialEq, Eq)]
pub struct Argument {
    pub from: Place,
    pub to: Place,
    pub root: u8,
    pub size: usize,
}

impl Argument {
    // What a table of arguments holds before they are found.
    pub const NONE: Argument = Argument {
        from: Place::START,
        to: Place::START,
        root: 0,
        size: 0,
    };
}

impl Substitution<'_> {
    // The argument of the last parameter with this name. It is found by an index: parameters are read from the tape one behind another,
    // and a later one of the name that has no argument takes the place of an earlier one's, so that a `zip` would not say the same.
    #[tactic(auto, using(crate::proofs::Steps::search_done, crate::proofs::Steps::search_end, crate::proofs::Steps::search_hit, crate::proofs::Steps::search_miss, nodes::proofs::Texts::equal_texts), unfolding(crate::specs::Arguments::arg_for))]
    pub fn arg_for(&self, name: Name) -> Option<Argument>
        ensures { result ≡ arg_for self.now.definition.bytes.now self.now.args.now (maps_at self.now) name }
    {
        let mut found = None;
        let mut p = self.params.place;
        for i in 0..self.params.count {
            let Some((param, next)) = read_param(&self.definition, p) else {
                return found;
            };
            if name_at(&self.definition, param) == name_at(&self.definition, name) {
                found = argument_at(self.args, i as usize);
            }
            p = next;
        }
        found
    }
}

// A charge that would take the sum above the limit is not added.
#[tactic(auto, using(crate::proofs::Steps::exceeded, crate::proofs::Steps::paid))]
pub fn charge(limit: u32, charged: u32, nodes: usize) -> Option<u32>
    ensures { result ≡ charge_of limit charged nodes }
{
    let left = limit.checked_sub(charged)?;
    if (left as usize) < nodes {
        return None;
    }
    Some(charged + nodes as u32)
}

// The sort of what an argument's first entry announces.
fn sort_of(kind: ArgNode) -> u64
    ensures { result ≡ sort_of kind }
{
    match kind {
        ArgNode::Condition => CONDITION,
        ArgNode::Term => TERM,
        ArgNode::Within => INTERVAL,
    }
}

// The argument whose first entry, a 55, 56 or 57, stands at a place.
#[tactic(auto, unfolding(crate::specs::Arguments::measure_at))]
fn measure(tape: &Tape, p: Place) -> Option<Argument>
    ensures { result ≡ measure_at tape.now.bytes.now tape.now.layout p }
{
    let (kind, from) = read_argument(tape, p).ok()?;
    let (root, _, _) = entry(tape, from)?;
    let to = skip(tape, from, sort_of(kind))?;
    let size = size(tape, from.at, to.at);
    Some(Argument {
        from,
        to,
        root,
        size,
    })
}

// The table of a call's arguments: they are found and measured once, and not at every paste. `first` is the place of the first, and
// the table has room for as many as it has. The table is written by an index: of what `iter_mut` behind `take` writes a proof learns
// nothing, and with `iter_mut` over the front of the table, whose items are a part of what the definition writes, it does not close.
#[tactic(auto, using(crate::proofs::Steps::table_done, crate::proofs::Steps::table_full, crate::proofs::Steps::table_none, crate::proofs::Steps::table_more))]
pub fn find_arguments(tape: &Tape, first: Place, count: u64, args: &mut [Argument])
    ensures { args.new ≡ table_from tape.now.bytes.now tape.now.layout count first 0 args.old }
{
    let mut p = first;
    for k in 0..args.len().min(count as usize) {
        let Some(a) = measure(tape, p) else {
            return;
        };
        args[k] = a;
        p = a.to;
    }
}

// The argument at an index of the table.
#[tactic(auto, using(crate::proofs::Steps::argument_got))]
fn argument_at(args: &[Argument], i: usize) -> Option<Argument>
    ensures { result ≡ argument_in args.now i }
{
    args.get(i).copied()
}
