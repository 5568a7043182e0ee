// Pieces of a message that come together, and the list of declared names. A name is given by its place in a tape.
#![tactic(auto)]

ghost use Rattle.std.specs.Prelude.{[], ◌∷◌};
ghost use Rattle.definition.specs.Text.{decimal};
ghost use Rattle.nodes.specs.Node.{name_at};
ghost use Rattle.message_parts.specs.Write.{PutsAll};

use buffer::message::Message;
use nodes::{Name, name_at};
use tape::layout::Tape;

pub mod names;

// A name and what stands behind it.
#[tactic(auto, using(crate::proofs::Writing::two_pieces))]
pub fn named(message: &mut Message, tape: &Tape, name: Name, after: &[u8])
    ensures { PutsAll (name_at tape.now.bytes.now tape.now.layout name ∷ after.now ∷ []) message.old message.new }
{
    message.put(name_at(tape, name));
    message.put(after);
}

// A number and what stands behind it.
#[tactic(auto, using(crate::proofs::Writing::two_pieces))]
pub fn numbered(message: &mut Message, n: u32, after: &[u8])
    ensures { PutsAll (decimal n ∷ after.now ∷ []) message.old message.new }
{
    message.put_number(n);
    message.put(after);
}

// What stands before a name, the name, and what stands behind it.
#[tactic(auto, using(crate::proofs::Writing::behind))]
pub fn around(message: &mut Message, before: &[u8], tape: &Tape, name: Name, after: &[u8])
    ensures { PutsAll (before.now ∷ name_at tape.now.bytes.now tape.now.layout name ∷ after.now ∷ []) message.old message.new }
{
    message.put(before);
    named(message, tape, name, after);
}

// The same with two names, which may be one name twice, and what stands between them.
#[tactic(auto, using(crate::proofs::Writing::joined))]
pub fn around_two(
    message: &mut Message,
    before: &[u8],
    tape: &Tape,
    first: Name,
    between: &[u8],
    second: Name,
    after: &[u8],
)
    ensures { PutsAll (before.now ∷ name_at tape.now.bytes.now tape.now.layout first ∷ between.now ∷ name_at tape.now.bytes.now tape.now.layout second ∷ after.now ∷ []) message.old message.new }
{
    around(message, before, tape, first, between);
    named(message, tape, second, after);
}
