// What an expansion reads, and the condition's own entries in its output.
ghost use Rattle.std.specs.Prelude.{◌≡◌, get_or};
ghost use Rattle.walk_state.specs.Writing.{Walks, going_at, came_to};
ghost use Rattle.expand_calls.specs.Output.{copy_own_after_in, shape_in, refold_in};

use grammar::code;
use grammar::codes::FIELDS;
use messages::Refused;
use nodes::{Refusal, entry, expect};
use registry::Index;
use subst_places::refine::fold_refine;
use subst_state::run::copy_to;
use tape::layout::{Place, Tape};
pub use walk_state::reading::past_all;
use walk_state::writing::Cursor;

// The registry with the rows of its definitions, the condition's tape, the budget's limit, and the file number. The cursor and the result
// buffer stand beside it in what walks: a struct that holds a `&mut`, nested in another, does not tell the lender its final value.
#[derive(Clone, Copy, Debug)]
pub struct Expansion<'a, 'b> {
    pub registry: Index<'a, 'b>,
    pub condition: Tape<'a>,
    pub limit: u32,
    pub file: u16,
}

// Appends the condition's own entries up to the place where a check came, behind a walk. A refusal of the check comes before one of the
// walk, with what was charged before it.
#[tactic(auto, unfolding(crate::specs::Output::copy_own_in, crate::specs::Output::copy_own_after_in))]
pub fn copy_own_after(
    cond: &Tape,
    c: &mut Cursor,
    found: Result<Place, Refused>,
    charged: u32,
    walked: Result<(), Refused>,
) -> Result<(), Refused>
    ensures { Walks c.old c.new result (copy_own_after_in cond.now.bytes.now cond.now.layout found charged (came_to walked c.old)) }
{
    match found {
        Ok(next) => {
            walked?;
            copy_to(cond, c, next);
            Ok(())
        }
        Err(f) => {
            c.charged = charged;
            Err(f)
        }
    }
}

// The code of the condition that the one at a place came out as. It is read from the input, since a full output has it no more; a
// call's outcome stands at the start of the result buffer. The one of `subst_places` reads a body, where a `?` comes out as an argument.
// 0, which is no code, where there is no entry: so the definition has it, and a fold takes it for no predicate.
#[tactic(auto, unfolding(crate::specs::Output::shape_in))]
fn shape_of(cond: &Tape, res: &[u8], p: Place) -> u8
    ensures { result ≡ shape_in cond.now.bytes.now cond.now.layout res.now p }
{
    let Some((code, _, _)) = entry(cond, p) else {
        return 0;
    };
    match code {
        code::CALL => first_code(res),
        // a refinement that was not refused is folded, so it is a predicate
        code::REFINE => code::PREDICATE,
        _ => code,
    }
}

// The code of the outcome's root: the substitution has just written it to the front of the result buffer.
fn first_code(res: &[u8]) -> u8
    ensures { result ≡ get_or res.now 0 0 }
{
    res.first().copied().unwrap_or(0)
}

// The fields behind a base that was written at entry `base`, and their fold. They are not inspected. `p` is where the base stands in
// the condition.
#[tactic(auto, using(crate::proofs::Steps::fold_hands_on), unfolding(crate::specs::Output::refold_in, crate::specs::Output::copy_own_in, walk_state::specs::Reading::passed_in, walk_state::specs::Reading::refused_in, nodes::specs::Node::span_of, nodes::specs::Node::refusal_of))]
pub fn refold(
    cond: &Tape,
    c: &mut Cursor,
    res: &[u8],
    own: u64,
    base: usize,
    p: Place,
) -> Result<(), Refused>
    ensures { Walks c.old c.new result (refold_in cond.now.bytes.now cond.now.layout res.now own base p (going_at c.old)) }
{
    let (count, first) = expect(cond, c.place, code::LIST).ok_or(Refusal::MALFORMED)?;
    let end = past_all(cond, c.place, FIELDS)?;
    c.place = first;
    copy_to(cond, c, end);
    fold_refine(c, base, count, own, shape_of(cond, res, p))
}
