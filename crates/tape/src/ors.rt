// The Ors of a tape. Document 02, point 12, rewrites each to four entries, so that a tape has three entries more for each Or.
ghost use Rattle.std.specs.Prelude.{◌≡◌, ◌≤◌, leb, length};
ghost use Rattle.tape.specs.Flat.{sum_of, weight_of};
ghost use Rattle.tape.specs.Ors.{ors_from, ors_in, rewritten_count};

use crate::count::count;
use crate::held::HeldTape;
use crate::layout::Tape;
use grammar::code;

// How many codes are this one.
#[tactic(auto, using(crate::proofs::Counting::passing_code))]
pub fn count_in(codes: &[u8], code: u8) -> usize
    requires { length codes.now ≤ 1024 }
    ensures { result ≡ sum_of (weight_of code) codes.now }
{
    count(codes, |c| c == code)
}

#[tactic(auto, using(crate::proofs::Counting::ors_held))]
pub fn count_held(held: &HeldTape) -> usize
    ensures { result ≡ ors_from held.now.tape.bytes.now held.now.tape.layout 0 }
{
    count_in(held.codes(), code::OR)
}

// How many entries of a layout are an Or.
pub fn count_ors(tape: &Tape) -> usize
    ensures { result ≡ ors_in tape.now.bytes.now tape.now.layout }
{
    tape.held().map_or(0, |held| count_held(&held))
}

// Whether the rewritten tape has no more than 1,024 entries. Up to 256 it never has more, whatever they are.
#[tactic(auto, using(crate::proofs::Counting::ors_in_most))]
pub fn fits_rewritten(tape: &Tape) -> bool
    ensures { result ≡ leb (rewritten_count tape.now.bytes.now tape.now.layout) 1024 }
{
    tape.layout.entries <= 256
        || tape.layout.entries <= 1024 && tape.layout.entries + 3 * count_ors(tape) <= 1024
}
