// Numbers 10 and 11, of a registry's definitions, and 20, 21 and 22, of a body.
#![tactic(auto, unfolding(definition::specs::Text::open_text, definition::specs::Messages::open_messages, message_parts::specs::Write::open_pieces))]

ghost use Rattle.definition.specs.Outcome.{span_start};
ghost use Rattle.definition.specs.Messages.{reserved_name, duplicate_definition, undeclared_parameter, plain_identifier, macro_in_macro};
ghost use Rattle.nodes.specs.Node.{name_at};
ghost use Rattle.buffer.specs.Message.{Puts};
ghost use Rattle.message_parts.specs.Names.{names_at};

use buffer::message::Message;
use message_parts::names::{Params, params_above};
use message_parts::{around, around_two, named, numbered};
use nodes::{Name, span_of};
use tape::layout::Tape;

pub fn reserved_name(message: &mut Message, tape: &Tape, name: Name)
    ensures { Puts (reserved_name (name_at tape.now.bytes.now tape.now.layout name)) message.old message.new }
{
    around(
        message,
        b"macro name `",
        tape,
        name,
        b"` is reserved (built-in or keyword); pick a different name",
    );
}

pub fn duplicate_definition(message: &mut Message, tape: &Tape, name: Name, span: u64)
    ensures { Puts (duplicate_definition (name_at tape.now.bytes.now tape.now.layout name) (span_start span)) message.old message.new }
{
    around(
        message,
        b"duplicate macro definition `",
        tape,
        name,
        b"` (previously defined at byte ",
    );
    numbered(message, span_of(span).start, b")");
}

pub fn undeclared_parameter(message: &mut Message, tape: &Tape, name: Name, params: Params)
    ensures { Puts (undeclared_parameter (name_at tape.now.bytes.now tape.now.layout name) (names_at tape.now.bytes.now tape.now.layout params.place params.count)) message.old message.new }
{
    around(
        message,
        b"in `def temporal` body: `?",
        tape,
        name,
        b"` does not name a declared parameter (declared: ",
    );
    params_above(message, tape, params, None);
}

pub fn plain_identifier(message: &mut Message, tape: &Tape, name: Name)
    ensures { Puts (plain_identifier (name_at tape.now.bytes.now tape.now.layout name)) message.old message.new }
{
    around_two(
        message,
        b"in `def temporal` body: plain identifier `",
        tape,
        name,
        b"` is not allowed, because expansion does not rename it and it can capture or bind a call-site variable; write `$",
        name,
        b"` for a variable the macro binds itself, or declare a `?",
    );
    named(
        message,
        tape,
        name,
        b"` parameter for a variable the caller names",
    );
}

pub fn macro_in_macro(message: &mut Message)
    ensures { Puts macro_in_macro message.old message.new }
{
    message.put(b"in `def temporal` body: macro-in-macro is not supported");
}
