// The declared names, in byte order and each once: the next one is the least name above the last.
ghost use Rattle.std.specs.Prelude.{◌≡◌, [], ◌∷◌};
ghost use Rattle.std.proofs.Math.Option.{none};
ghost use Rattle.definition.specs.Text.{utf8, lt_text};
ghost use Rattle.nodes.specs.Node.{name_at};
ghost use Rattle.buffer.specs.Message.{Puts};
ghost use Rattle.message_parts.specs.Write.{PutsAll};
ghost use Rattle.message_parts.specs.Names.{names_at, spelled, above, below, lower, least_in, rest, mark, list_above};

use buffer::message::Message;
use nodes::{Name, name_at, read_param};
use tape::layout::{Place, Tape};

// The parameters of a definition: where they stand on its tape, and how many they are.
#[derive(Clone, Copy, Debug, PartialEq, Eq)]
pub struct Params {
    pub place: Place,
    pub count: u64,
}

// A match, here and in `is_below`: with `is_none_or`, whose clause is a match of the option itself, the goal stays open (tried, with a
// lemma for the two cases too).
#[tactic(auto, using(crate::proofs::Less::less_texts))]
fn is_above(tape: &Tape, floor: Option<Name>, name: Name) -> bool
    ensures { result ≡ above (spelled tape.now.bytes.now tape.now.layout floor) (name_at tape.now.bytes.now tape.now.layout name) }
{
    match floor {
        Some(f) => name_at(tape, f) < name_at(tape, name),
        None => true,
    }
}

#[tactic(auto, using(crate::proofs::Less::less_texts))]
fn is_below(tape: &Tape, best: Option<Name>, name: Name) -> bool
    ensures { result ≡ below (spelled tape.now.bytes.now tape.now.layout best) (name_at tape.now.bytes.now tape.now.layout name) }
{
    match best {
        Some(b) => name_at(tape, name) < name_at(tape, b),
        None => true,
    }
}

// The least of the names above `floor`, once `name` is looked at too.
#[tactic(auto, unfolding(crate::specs::Names::lower))]
fn lower_of(tape: &Tape, floor: Option<Name>, best: Option<Name>, name: Name) -> Option<Name>
    ensures { spelled tape.now.bytes.now tape.now.layout result ≡ lower (spelled tape.now.bytes.now tape.now.layout floor) (spelled tape.now.bytes.now tape.now.layout best) (name_at tape.now.bytes.now tape.now.layout name) }
{
    if is_above(tape, floor, name) && is_below(tape, best, name) {
        return Some(name);
    }
    best
}

// The loop goes on behind each name, and ends where no parameter stands (`check_parts` says what the other two loops do).
#[tactic(auto, using(crate::proofs::Params::least_next, crate::proofs::Params::least_end, crate::proofs::Params::least_done))]
fn least_above(tape: &Tape, params: Params, floor: Option<Name>) -> Option<Name>
    ensures { spelled tape.now.bytes.now tape.now.layout result ≡ least_in (spelled tape.now.bytes.now tape.now.layout floor) none (names_at tape.now.bytes.now tape.now.layout params.place params.count) }
{
    let mut best = None;
    let mut p = params.place;
    for _ in 0..params.count {
        let Some((name, next)) = read_param(tape, p) else {
            return best;
        };
        best = lower_of(tape, floor, best, name);
        p = next;
    }
    best
}

// `?`, and a comma behind an earlier name.
#[tactic(auto, unfolding(definition::specs::Text::open_text))]
fn put_mark(message: &mut Message, tape: &Tape, floor: Option<Name>)
    ensures { Puts (mark (spelled tape.now.bytes.now tape.now.layout floor)) message.old message.new }
{
    match floor {
        Some(_) => message.put(b", ?"),
        None => message.put(b"?"),
    }
}

// A name behind its mark.
#[tactic(auto, using(crate::proofs::Writing::two_pieces))]
fn put_name(message: &mut Message, tape: &Tape, floor: Option<Name>, name: Name)
    ensures { PutsAll (mark (spelled tape.now.bytes.now tape.now.layout floor) ∷ name_at tape.now.bytes.now tape.now.layout name ∷ []) message.old message.new }
{
    put_mark(message, tape, floor);
    message.put(name_at(tape, name));
}

// The names above `floor`, and the bracket behind them. No `for`: which name comes next is told by the one that was put.
#[tactic(auto, using(crate::proofs::Listing::list_last, crate::proofs::Listing::list_next, crate::proofs::Listing::list_falls), unfolding(definition::specs::Text::open_text))]
pub fn params_above(message: &mut Message, tape: &Tape, params: Params, floor: Option<Name>)
    ensures { PutsAll (list_above (spelled tape.now.bytes.now tape.now.layout floor) (rest (spelled tape.now.bytes.now tape.now.layout floor) (names_at tape.now.bytes.now tape.now.layout params.place params.count)) ∷ utf8 ")" ∷ []) message.old message.new }
{
    let mut last = floor;
    while let Some(name) = least_above(tape, params, last) {
        put_name(message, tape, last, name);
        last = Some(name);
    }
    message.put(b")");
}
