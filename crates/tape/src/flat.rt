// Trees so small that they cannot be too deep.
ghost use Rattle.std.specs.Prelude.{◌≡◌, ◌≤◌, length};
ghost use Rattle.tape.specs.Flat.{branch_weight, is_branch, is_flat, is_small, sum_of};

use crate::count::count;
use crate::held::HeldTape;
use crate::layout::Tape;
use crate::ors::count_in;
use grammar::code;

// Whether a slice holds a layout with at most four calls, and with 64 entries or with few nodes that may have others in them.
pub fn is_flat(tape: &Tape) -> bool
    ensures { result ≡ is_flat tape.now.bytes.now tape.now.layout }
{
    tape.held().is_some_and(|held| is_small(&held))
}

// Up to 64 entries are not too deep, whatever they are. Otherwise a path has no more nodes than those that may have others in them, a
// predicate and a term behind them, and two more for each aggregate.
#[tactic(auto, using(crate::proofs::SmallTrees::few_codes, crate::proofs::SmallTrees::few_branches))]
fn is_small(held: &HeldTape) -> bool
    ensures { result ≡ is_small held.now.tape.bytes.now held.now.tape.layout }
{
    let codes = held.codes();
    count_in(codes, code::CALLED) <= 4
        && (codes.len() <= 64 || branches_in(codes) + 2 * count_in(codes, code::AGG) <= 61)
}

// Whether a node of this code may have conditions in it, or is a term that may have terms.
fn is_branch(code: u8) -> bool
    ensures { result ≡ is_branch code }
{
    let condition = (code::AND <= code) & (code <= code::SINCE)
        | (code::EXISTS <= code) & (code <= code::REFINE);
    condition | (code::ARRAY <= code) & (code <= code::ARITH)
}

// How many codes are such.
#[tactic(auto, using(crate::proofs::Counting::passing_branch))]
fn branches_in(codes: &[u8]) -> usize
    requires { length codes.now ≤ 1024 }
    ensures { result ≡ sum_of branch_weight codes.now }
{
    count(codes, is_branch)
}
