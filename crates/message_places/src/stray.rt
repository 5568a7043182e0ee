// Numbers 36 to 40, of a stray sigil.
#![tactic(auto, unfolding(definition::specs::Text::open_text, definition::specs::Messages::open_messages, message_parts::specs::Write::open_pieces, crate::specs::Words::stray_pieces))]

ghost use Rattle.definition.specs.Messages.{stray_condition, stray_within, stray_slot, stray_field, stray_operand};
ghost use Rattle.nodes.specs.Node.{name_at};
ghost use Rattle.buffer.specs.Message.{Puts};
ghost use Rattle.message_parts.specs.Write.{PutsAll};
ghost use Rattle.message_places.specs.Words.{sigil_of, stray_pieces};

use buffer::message::Message;
use message_parts::around;
use nodes::{Name, Sigil};
use tape::layout::Tape;

// The sigil with its name, and where it stands.
fn stray(message: &mut Message, sigil: Sigil, tape: &Tape, name: Name, place: &[u8])
    ensures { PutsAll (stray_pieces (sigil_of sigil) (name_at tape.now.bytes.now tape.now.layout name) place.now) message.old message.new }
{
    let before: &[u8] = match sigil {
        Sigil::Param => b"stray macro parameter reference `?",
        Sigil::Binder => b"stray macro binder reference `$",
    };
    around(message, before, tape, name, place);
}

pub fn stray_condition(message: &mut Message, sigil: Sigil, tape: &Tape, name: Name)
    ensures { Puts (stray_condition (sigil_of sigil) (name_at tape.now.bytes.now tape.now.layout name)) message.old message.new }
{
    stray(message, sigil, tape, name, b"` outside a macro body");
}

pub fn stray_within(message: &mut Message, tape: &Tape, name: Name)
    ensures { Puts (stray_within (name_at tape.now.bytes.now tape.now.layout name)) message.old message.new }
{
    stray(
        message,
        Sigil::Param,
        tape,
        name,
        b"` in a `within` position outside a macro body",
    );
}

pub fn stray_slot(message: &mut Message, sigil: Sigil, tape: &Tape, name: Name)
    ensures { Puts (stray_slot (sigil_of sigil) (name_at tape.now.bytes.now tape.now.layout name)) message.old message.new }
{
    stray(
        message,
        sigil,
        tape,
        name,
        b"` in a binder position outside a macro body",
    );
}

pub fn stray_field(message: &mut Message, sigil: Sigil, tape: &Tape, name: Name)
    ensures { Puts (stray_field (sigil_of sigil) (name_at tape.now.bytes.now tape.now.layout name)) message.old message.new }
{
    stray(
        message,
        sigil,
        tape,
        name,
        b"` in a predicate-argument position outside a macro body",
    );
}

pub fn stray_operand(message: &mut Message, sigil: Sigil, tape: &Tape, name: Name)
    ensures { Puts (stray_operand (sigil_of sigil) (name_at tape.now.bytes.now tape.now.layout name)) message.old message.new }
{
    stray(
        message,
        sigil,
        tape,
        name,
        b"` in a comparison-operand position outside a macro body",
    );
}
