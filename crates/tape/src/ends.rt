// Where a subtree ends, found by counting the subtrees that are still to come.
ghost use Rattle.std.specs.Prelude.{◌≡◌, ◌-◌, ◌≤◌};
ghost use Rattle.tape.specs.Skip.{count_from};

use crate::held::HeldTape;
use crate::layout::Place;
use grammar::count::step;

// The place behind `due` subtrees from a place on, by a table of counts; `pairs` is whether the items of the next list are two subtrees
// each, which is no enum, since no caller chooses by it: it is a part of the count, carried from entry to entry.
#[tactic(auto, using(crate::proofs::Skipping::count_done, crate::proofs::Skipping::count_step))]
pub fn end_of(counts: &[u8], held: &HeldTape, from: Place, due: u64, pairs: bool) -> Option<Place>
    requires { (from.at ≤ held.now.tape.layout.entries) × (from.text ≤ held.now.tape.layout.size) × (due ≤ 2) }
    ensures { result ≡ count_from counts.now held.now.tape.bytes.now held.now.tape.layout (held.now.tape.layout.entries - from.at) due «pairs» from.at from.text }
{
    let entries = held.entries();
    let size = held.tape.layout.size;
    let mut at = from.at;
    let mut text = from.text;
    let mut left = due;
    let mut paired = pairs;
    // no `for`: what the entries bring ends the loop, and the place where it ends is the answer
    while 0 < left {
        if at == entries {
            return None;
        }
        let code = held.code_at(at);
        let value = held.value_at(at);
        let (more, width, next) = step(counts, entries - at - 1, size - text, paired, code, value)?;
        left = left - 1 + more;
        paired = next;
        text += width;
        at += 1;
    }
    Some(Place { at, text })
}
