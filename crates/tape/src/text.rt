// The number of nodes.
ghost use Rattle.std.specs.Prelude.{◌≡◌};
ghost use Rattle.tape.specs.Layouts.{size_between};

use crate::count::count;
use crate::layout::Tape;
use grammar::kind::is_node;

// The number of nodes, the codes 1 to 13 and 20 to 36, among the entries from `from` to `to`.
#[tactic(auto, using(crate::proofs::Counting::passing_nodes))]
pub fn size(tape: &Tape, from: usize, to: usize) -> usize
    ensures { result ≡ size_between tape.now.bytes.now tape.now.layout from to }
{
    if tape.holds() & (from <= to) & (to <= tape.layout.entries) {
        count(
            &tape.bytes[tape.layout.codes + from..tape.layout.codes + to],
            is_node,
        )
    } else {
        0
    }
}
