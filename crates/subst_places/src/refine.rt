// Refinements: what a base comes out as, and the fold of its fields.
ghost use Rattle.std.specs.Prelude.{◌≡◌};
ghost use Rattle.walk_state.specs.Writing.{Walks, Makes, area_at, going_at};
ghost use Rattle.subst_state.specs.Maps.{maps_at};
ghost use Rattle.subst_places.specs.Refines.{sigil_shape_in, shape_in, fold_in, add_fields_in};

use grammar::code;
use messages::{Reason, Refused, refuse};
use nodes::{entry, expect, named};
use subst_state::maps::Substitution;
use tape::layout::Place;
use walk_state::writing::Cursor;

// The code of the condition that a base comes out as. It is read from the input, since a full output has it no more. The one of
// `expand_calls` reads the condition, where a call's outcome stands at the front of the result buffer. 0, which is no code, where there is
// no entry: so the definition has it, and a fold takes it for no predicate.
#[tactic(auto, unfolding(crate::specs::Refines::shape_in))]
pub fn shape_of(s: &Substitution, p: Place) -> u8
    ensures { result ≡ shape_in s.now.definition.bytes.now s.now.args.now (maps_at s.now) p }
{
    let Some((code, _, next)) = entry(&s.definition, p) else {
        return 0;
    };
    match code {
        code::SIGIL_REF => sigil_shape(s, next),
        // a refinement that was not refused is folded, so it is a predicate
        code::REFINE => code::PREDICATE,
        _ => code,
    }
}

// A `?` comes out as its argument; no other sigil comes out.
#[tactic(auto, unfolding(crate::specs::Refines::sigil_shape_in))]
fn sigil_shape(s: &Substitution, p: Place) -> u8
    ensures { result ≡ sigil_shape_in s.now.definition.bytes.now s.now.args.now (maps_at s.now) p }
{
    let Some((size, _)) = expect(&s.definition, p, code::SIGIL_PARAM) else {
        return code::SIGIL_REF;
    };
    s.arg_for(named(p, size))
        .map_or(code::SIGIL_REF, |arg| arg.root)
}

// The fields of a refinement stand behind the condition that was written at entry `base`: a predicate takes them over, and any other
// is 47.
#[tactic(auto, unfolding(crate::specs::Refines::fold_in))]
pub fn fold_refine(
    c: &mut Cursor,
    base: usize,
    count: u64,
    own: u64,
    shape: u8,
) -> Result<(), Refused>
    ensures { Walks c.old c.new result (fold_in base count own shape (going_at c.old)) }
{
    if shape != code::PREDICATE {
        return Err(refuse(own, Reason::NotAPredicate(shape)));
    }
    add_fields(c, base, count);
    Ok(())
}

// The count of a predicate's fields stands behind its span, its namespace, its action and its kind.
#[tactic(auto, unfolding(crate::specs::Refines::add_fields_in))]
fn add_fields(c: &mut Cursor, base: usize, count: u64)
    ensures { Makes c.old c.new (add_fields_in base count (area_at c.old)) }
{
    if 1024 < base {
        return;
    }
    let list = Place {
        at: base + 2,
        text: 0,
    };
    let Some((namespace, _)) = expect(&c.written(), list, code::LIST) else {
        return;
    };
    if namespace < 1024 {
        c.patch_count(base + 5 + namespace as usize, count);
    }
}
