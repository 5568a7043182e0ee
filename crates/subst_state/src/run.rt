// Runs of entries: the parts of a tape or of a work area that spell the entries from one place to another, and their copy.
ghost use Rattle.std.specs.Prelude.{◌≡◌, ◌+◌, ◌*◌};
ghost use Rattle.std.proofs.Math.Seq.{slice};
ghost use Rattle.format.specs.Stands.{part};
ghost use Rattle.tape.specs.Pick.{pick};
ghost use Rattle.walk_state.specs.Writing.{Makes, Moves, area_at, going};
ghost use Rattle.subst_state.specs.Output.{copy_in};

use tape::layout::{Layout, Place, Tape};
use tape::part::{behind, values_behind};
use walk_state::writing::Cursor;

// The `len` bytes from `start` on of one of two lent tapes, of the call's or else of the definition's, as far as it reaches. `of_call`
// and both tapes go down to here from `copy`, since document 01 names the form: a run to be copied comes from either tape, and one
// function returns a part of one of two lent tapes.
fn part<'a>(
    definition: &Tape<'a>,
    call: &Tape<'a>,
    of_call: bool,
    start: usize,
    len: usize,
) -> &'a [u8]
    ensures { result.now ≡ part (pick of_call call.now.bytes.now definition.now.bytes.now) start len }
{
    tape::part::part(definition.bytes, call.bytes, of_call, start, len)
}

// Where the sections of that tape start.
fn layout_of(definition: &Tape, call: &Tape, of_call: bool) -> Layout
    ensures { result ≡ pick of_call call.now.layout definition.now.layout }
{
    if of_call {
        call.layout
    } else {
        definition.layout
    }
}

#[tactic(auto, using(crate::proofs::Steps::bytes_between))]
fn codes_between<'a>(
    definition: &Tape<'a>,
    call: &Tape<'a>,
    of_call: bool,
    from: Place,
    to: Place,
) -> &'a [u8]
    ensures { result.now ≡ slice ((pick of_call call.now.layout definition.now.layout).codes + from.at) ((pick of_call call.now.layout definition.now.layout).codes + to.at) (pick of_call call.now.bytes.now definition.now.bytes.now) }
{
    let start = layout_of(definition, call, of_call).codes;
    let count = to.at.saturating_sub(from.at);
    part(definition, call, of_call, behind(start, from.at), count)
}

#[tactic(auto, using(crate::proofs::Steps::eights_between))]
fn values_between<'a>(
    definition: &Tape<'a>,
    call: &Tape<'a>,
    of_call: bool,
    from: Place,
    to: Place,
) -> &'a [u8]
    ensures { result.now ≡ slice ((pick of_call call.now.layout definition.now.layout).values + 8 * from.at) ((pick of_call call.now.layout definition.now.layout).values + 8 * to.at) (pick of_call call.now.bytes.now definition.now.bytes.now) }
{
    let start = layout_of(definition, call, of_call).values;
    let count = values_behind(0, to.at.saturating_sub(from.at));
    part(
        definition,
        call,
        of_call,
        values_behind(start, from.at),
        count,
    )
}

#[tactic(auto, using(crate::proofs::Steps::bytes_between))]
pub fn text_between<'a>(
    definition: &Tape<'a>,
    call: &Tape<'a>,
    of_call: bool,
    from: Place,
    to: Place,
) -> &'a [u8]
    ensures { result.now ≡ slice ((pick of_call call.now.layout definition.now.layout).text + from.text) ((pick of_call call.now.layout definition.now.layout).text + to.text) (pick of_call call.now.bytes.now definition.now.bytes.now) }
{
    let start = layout_of(definition, call, of_call).text;
    let count = to.text.saturating_sub(from.text);
    part(definition, call, of_call, behind(start, from.text), count)
}

// Appends the entries from one place to another, of the call's tape or else of the definition's.
#[tactic(auto, unfolding(crate::specs::Output::copy_in))]
pub fn copy<'a>(
    definition: &Tape<'a>,
    call: &Tape<'a>,
    of_call: bool,
    from: Place,
    to: Place,
    c: &mut Cursor,
)
    ensures { Makes c.old c.new (copy_in (pick of_call call.now.bytes.now definition.now.bytes.now) (pick of_call call.now.layout definition.now.layout) from to (area_at c.old)) }
{
    let codes = codes_between(definition, call, of_call, from, to);
    let values = values_between(definition, call, of_call, from, to);
    let text = text_between(definition, call, of_call, from, to);
    c.append(codes, values, text);
}

// Appends the entries of a tape from where a walk over it is up to `next`, and goes on there. There is one tape here, so that it is both
// of those that `copy` chooses from.
pub fn copy_to(tape: &Tape, c: &mut Cursor, next: Place)
    ensures { Moves c.old c.new (going next c.old.charged (copy_in tape.now.bytes.now tape.now.layout c.old.place next (area_at c.old))) }
{
    copy(tape, tape, false, c.place, next, c);
    c.place = next;
}
