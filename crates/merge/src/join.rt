// The joined registry, in a work area: all that stands on the first tape, and behind it the second's definitions that the first lacks.
ghost use Rattle.std.specs.Prelude.{◌≡◌};
ghost use Rattle.walk_state.specs.Writing.{Walks, Moves, going, state_at, going_at, came_to};
ghost use Rattle.registry.specs.Places.{origin};
ghost use Rattle.merge.specs.Join.{first_in, join_one_in, join_in, joined_in, merged_of, merging, merge_in};

use crate::agree::{Compared, compare};
use area::Writer;
use grammar::code;
use grammar::codes::DEFINITIONS;
use messages::{Reason, Refused, refuse};
use nodes::{Refusal, expect};
use registry::{Index, Row};
use subst_state::run::{copy, copy_to};
use tape::layout::Tape;
use tape::scan::skip;
use walk_state::writing::Cursor;

// A refusal of a merge, whose message's names stand on the first tape or on the second.
#[derive(Clone, Copy, Debug, PartialEq, Eq)]
pub enum Refusing {
    First(Refused),
    Second(Refused),
}

// The next definition of the second registry: a new one is appended to the registry in the area and counted in the list's first entry,
// one that differs is 51 with its span.
#[tactic(auto, unfolding(crate::specs::Join::join_one_in, crate::specs::Join::add_in))]
fn join_one(first: &Index, t: &Tape, c: &mut Cursor) -> Result<(), Refused>
    ensures { Walks c.old c.new result (join_one_in first.now.tape.bytes.now first.now.tape.layout first.now.rows.now t.now.bytes.now t.now.layout (state_at c.old) c.old.bytes.now) }
{
    match compare(first, t, c.place) {
        Compared::New(next) => {
            copy_to(t, c, next);
            c.patch_count(0, 1);
        }
        Compared::Known(next) => c.place = next,
        Compared::Differs(span) => return Err(refuse(
            span,
            Reason::WithoutMessage(numbers::DEFINITIONS_DIFFER),
        )),
    }
    Ok(())
}

// The next `n` definitions of the second registry. Only their number is at hand: each begins where the cursor has come behind the one
// before, so there is nothing to iterate over.
#[tactic(auto, using(crate::proofs::Steps::join_next, crate::proofs::Steps::join_stopped, crate::proofs::Steps::join_done))]
fn join_all(first: &Index, t: &Tape, c: &mut Cursor, n: u64) -> Result<(), Refused>
    ensures { Walks c.old c.new result (join_in first.now.tape.bytes.now first.now.tape.layout first.now.rows.now t.now.bytes.now t.now.layout n (going_at c.old)) }
{
    for _ in 0..n {
        join_one(first, t, c)?;
    }
    Ok(())
}

// A walk that starts over, with all that stands on the first tape.
#[tactic(auto, unfolding(crate::specs::Join::first_in))]
fn write_first(tape: &Tape, c: &mut Cursor)
    ensures { Moves c.old c.new (going origin 0 (first_in tape.now.bytes.now tape.now.layout c.old.bytes.now)) }
{
    c.restart();
    // One tape, twice: `copy` takes two, since document 01 names the form (`part` in `subst_state/src/run.rt`). It is not `copy_to`,
    // which would leave the place behind them: it stays at the front, where `join` reads how many the second has.
    if let Some(end) = skip(tape, c.place, DEFINITIONS) {
        copy(tape, tape, true, c.place, end, c);
    }
}

// The first registry, and then the second.
#[tactic(auto, unfolding(crate::specs::Join::joined_in, nodes::specs::Node::span_of, nodes::specs::Node::refusal_of))]
fn join(first: &Index, t: &Tape, c: &mut Cursor) -> Result<(), Refused>
    ensures { Walks c.old c.new result (joined_in first.now.tape.bytes.now first.now.tape.layout first.now.rows.now t.now.bytes.now t.now.layout c.old.bytes.now) }
{
    write_first(&first.tape, c);
    let (n, place) = expect(t, c.place, code::LIST).ok_or(Refusal::MALFORMED)?;
    c.place = place;
    join_all(first, t, c, n)
}

// 3 with 0..0 if the joined registry is too large. It nests no deeper than the two do.
#[tactic(auto, unfolding(crate::specs::Join::merged_of))]
fn merged(walked: Result<(), Refused>, c: &Cursor) -> Result<Writer, Refusing>
    ensures { result ≡ merged_of (came_to walked c.now).walk }
{
    walked.map_err(Refusing::First)?;
    if c.out.overflowed {
        return Err(Refusing::First(refuse(0, Reason::WithoutMessage(numbers::TOO_LARGE))));
    }
    Ok(c.out)
}

// 10 and 11 of the first and then of the second, and the joined registry. The table, which has room for as many definitions as a
// registry can have, has the rows of the second until its names are judged, and then those of the first.
#[tactic(auto, unfolding(crate::specs::Join::merge_in))]
pub fn merge_named(s: &Tape, t: &Tape, area: &mut [u8]) -> Result<Writer, Refusing>
    ensures { merging result area.new ≡ merge_in s.now.bytes.now s.now.layout t.now.bytes.now t.now.layout 255 area.old }
{
    let mut table = [Row::EMPTY; 255];
    let later = Index::new(t, &mut table).check_names();
    let first = Index::new(s, &mut table);
    first.check_names().map_err(Refusing::First)?;
    later.map_err(Refusing::Second)?;
    let mut c = Cursor::new(area);
    let walked = join(&first, t, &mut c);
    merged(walked, &c)
}
