// Numbers 41 to 46, of a parameter in a body, and 47.
#![tactic(auto, unfolding(definition::specs::Text::open_text, definition::specs::Messages::open_messages, message_parts::specs::Write::open_pieces))]

ghost use Rattle.std.specs.Prelude.{◌≡◌, [], ◌∷◌};
ghost use Rattle.definition.specs.Text.{utf8};
ghost use Rattle.definition.specs.Messages.{unbound_parameter, not_a_condition, binder_as_condition, not_an_interval, not_a_term, not_an_identifier, condition_shape, not_a_predicate};
ghost use Rattle.nodes.specs.Node.{name_at};
ghost use Rattle.buffer.specs.Message.{Puts};
ghost use Rattle.message_parts.specs.Write.{PutsAll};
ghost use Rattle.message_places.specs.Words.{of_code};

use buffer::message::Message;
use grammar::code;
use message_parts::{around, around_two};
use nodes::Name;
use tape::layout::Tape;

pub fn unbound_parameter(message: &mut Message, tape: &Tape, owner: Name, name: Name)
    ensures { Puts (unbound_parameter (name_at tape.now.bytes.now tape.now.layout owner) (name_at tape.now.bytes.now tape.now.layout name)) message.old message.new }
{
    around_two(
        message,
        b"unbound macro parameter `?",
        tape,
        name,
        b"` in body of `",
        owner,
        b"`",
    );
}

// The macro's name and the parameter's, and how it is used.
fn parameter_use(message: &mut Message, tape: &Tape, owner: Name, name: Name, says: &[u8])
    ensures { PutsAll (utf8 "macro `" ∷ name_at tape.now.bytes.now tape.now.layout owner ∷ utf8 "` parameter `?" ∷ name_at tape.now.bytes.now tape.now.layout name ∷ says.now ∷ []) message.old message.new }
{
    around_two(
        message,
        b"macro `",
        tape,
        owner,
        b"` parameter `?",
        name,
        says,
    );
}

pub fn not_a_condition(message: &mut Message, tape: &Tape, owner: Name, name: Name)
    ensures { Puts (not_a_condition (name_at tape.now.bytes.now tape.now.layout owner) (name_at tape.now.bytes.now tape.now.layout name)) message.old message.new }
{
    parameter_use(
        message,
        tape,
        owner,
        name,
        b"` is used in a condition position, so the call-site argument must be a temporal condition (got a different shape)",
    );
}

pub fn binder_as_condition(message: &mut Message, tape: &Tape, name: Name)
    ensures { Puts (binder_as_condition (name_at tape.now.bytes.now tape.now.layout name)) message.old message.new }
{
    around(
        message,
        b"macro binder `$",
        tape,
        name,
        b"` used as a whole condition has no meaning",
    );
}

pub fn not_an_interval(message: &mut Message, tape: &Tape, owner: Name, name: Name)
    ensures { Puts (not_an_interval (name_at tape.now.bytes.now tape.now.layout owner) (name_at tape.now.bytes.now tape.now.layout name)) message.old message.new }
{
    parameter_use(
        message,
        tape,
        owner,
        name,
        b"` is used in a `within` position; the call-site argument must be an interval literal `<n><unit>` (e.g. `1h`)",
    );
}

pub fn not_a_term(message: &mut Message, tape: &Tape, owner: Name, name: Name)
    ensures { Puts (not_a_term (name_at tape.now.bytes.now tape.now.layout owner) (name_at tape.now.bytes.now tape.now.layout name)) message.old message.new }
{
    parameter_use(
        message,
        tape,
        owner,
        name,
        b"` used in a term position; the call-site argument has the wrong shape",
    );
}

pub fn not_an_identifier(message: &mut Message, tape: &Tape, owner: Name, name: Name)
    ensures { Puts (not_an_identifier (name_at tape.now.bytes.now tape.now.layout owner) (name_at tape.now.bytes.now tape.now.layout name)) message.old message.new }
{
    parameter_use(
        message,
        tape,
        owner,
        name,
        b"` is used in a binder position, so the call-site argument must be a single identifier",
    );
}

pub fn not_a_predicate(message: &mut Message, code: u8)
    ensures { Puts (not_a_predicate (of_code code)) message.old message.new }
{
    message.put(
        b"a `{ \xE2\x80\xA6 }` field-injection applies only to a single predicate, but the refined term is ",
    );
    message.put(condition_shape(code));
}

// The words for the condition that is refined.
#[tactic(auto, unfolding(definition::specs::Text::open_text, definition::specs::Messages::open_messages, crate::specs::Words::of_code))]
fn condition_shape(shape: u8) -> &'static [u8]
    ensures { result.now ≡ condition_shape (of_code shape) }
{
    match shape {
        code::AND => b"a conjunction (`&&`)",
        code::OR => b"a disjunction (internal)",
        code::NOT => b"a negation (`!`)",
        code::FORMERLY => b"a `formerly` operator",
        code::PREVIOUS => b"a `previous` operator",
        code::SINCE => b"a `since` operator",
        code::PREDICATE => b"a predicate",
        code::COMPARISON => b"a comparison",
        code::EXISTS => b"an `exists` binder",
        code::TP => b"a `tp(\xE2\x80\xA6)`",
        code::CALL => b"an unexpanded macro call",
        code::SIGIL_REF => b"an unresolved macro parameter",
        _ => b"a refinement",
    }
}
