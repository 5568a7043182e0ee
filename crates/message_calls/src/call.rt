// Numbers 30 to 35, of a call.
#![tactic(auto, unfolding(definition::specs::Text::open_text, definition::specs::Messages::open_messages, message_parts::specs::Write::open_pieces))]

ghost use Rattle.std.specs.Prelude.{◌%◌, ◌^◌};
ghost use Rattle.definition.specs.Messages.{unknown_macro, cedar_in_condition, cedar_in_value, value_as_condition, condition_as_value, argument_count, budget_exceeded};
ghost use Rattle.nodes.specs.Node.{name_at};
ghost use Rattle.buffer.specs.Message.{Puts};

use buffer::message::Message;
use message_parts::{around, around_two, numbered};
use nodes::Name;
use tape::layout::Tape;

pub fn unknown_macro(message: &mut Message, tape: &Tape, name: Name)
    ensures { Puts (unknown_macro (name_at tape.now.bytes.now tape.now.layout name)) message.old message.new }
{
    around(
        message,
        b"unknown macro `",
        tape,
        name,
        b"` (no declared `def temporal`)",
    );
}

pub fn cedar_in_condition(message: &mut Message, tape: &Tape, name: Name)
    ensures { Puts (cedar_in_condition (name_at tape.now.bytes.now tape.now.layout name)) message.old message.new }
{
    around(
        message,
        b"macro `",
        tape,
        name,
        b"` is a cedar macro and cannot be called in a temporal condition position",
    );
}

pub fn cedar_in_value(message: &mut Message, tape: &Tape, name: Name)
    ensures { Puts (cedar_in_value (name_at tape.now.bytes.now tape.now.layout name)) message.old message.new }
{
    around(
        message,
        b"macro `",
        tape,
        name,
        b"` is a cedar macro and cannot be called in a value position",
    );
}

pub fn value_as_condition(message: &mut Message, tape: &Tape, name: Name)
    ensures { Puts (value_as_condition (name_at tape.now.bytes.now tape.now.layout name)) message.old message.new }
{
    around_two(
        message,
        b"macro `",
        tape,
        name,
        b"` is a value macro (an aggregation or arithmetic over aggregations); it must appear as a comparison operand (e.g. `",
        name,
        b"(\xE2\x80\xA6) <= n`), not as a standalone condition",
    );
}

pub fn condition_as_value(message: &mut Message, tape: &Tape, name: Name)
    ensures { Puts (condition_as_value (name_at tape.now.bytes.now tape.now.layout name)) message.old message.new }
{
    around(
        message,
        b"macro `",
        tape,
        name,
        b"` is a condition macro and cannot be used as a value (a comparison operand); use it in a condition position instead",
    );
}

// The counts of an accepted tape are far below 2^32. Any count may be asked for, and the definition takes both modulo 2^32.
pub fn argument_count(message: &mut Message, tape: &Tape, name: Name, wanted: u64, got: u64)
    ensures { Puts (argument_count (name_at tape.now.bytes.now tape.now.layout name) (wanted % 2 ^ 32) (got % 2 ^ 32)) message.old message.new }
{
    around(message, b"macro `", tape, name, b"` expects ");
    numbered(
        message,
        (wanted % 0x1_0000_0000) as u32,
        b" argument(s), got ",
    );
    message.put_number((got % 0x1_0000_0000) as u32);
}

pub fn budget_exceeded(message: &mut Message, limit: u32)
    ensures { Puts (budget_exceeded limit) message.old message.new }
{
    message.put(b"macro expansion exceeds the node budget of ");
    message.put_number(limit);
}
