// What the walks that only read have in common. Their answer is the place behind what was walked, or the first refusal.
ghost use Rattle.std.specs.Prelude.{◌≡◌, Ok};
ghost use Rattle.tape.specs.Scan.{skip_at};
ghost use Rattle.walk_state.specs.Reading.{passed_in, behind_in, past_name_in, Along, Binds};

use grammar::code;
use grammar::codes::CONDITION;
use messages::Refused;
use nodes::{Refusal, expect, past_type};
use tape::layout::{Place, Tape};
use tape::scan::skip;

// The place behind all that stands at one.
#[tactic(auto, unfolding(crate::specs::Reading::passed_in, crate::specs::Reading::refused_in, nodes::specs::Node::span_of, nodes::specs::Node::refusal_of))]
pub fn past_all(tape: &Tape, p: Place, sort: u64) -> Result<Place, Refused>
    ensures { result ≡ passed_in (skip_at tape.now.bytes.now tape.now.layout p sort) }
{
    Ok(skip(tape, p, sort).ok_or(Refusal::MALFORMED)?)
}

// Where the left side of a Since ends, which stands at `left`: where its walk came, or, if that was refused, where a skip comes.
#[tactic(auto, unfolding(crate::specs::Reading::behind_in, crate::specs::Reading::passed_in, crate::specs::Reading::refused_in, nodes::specs::Node::span_of, nodes::specs::Node::refusal_of))]
pub fn behind(tape: &Tape, left: Place, walked: &Result<Place, Refused>) -> Result<Place, Refused>
    ensures { result ≡ behind_in tape.now.bytes.now tape.now.layout left walked.now }
{
    match walked {
        Ok(p) => Ok(*p),
        Err(_) => past_all(tape, left, CONDITION),
    }
}

// The way past a field's name.
#[tactic(auto, unfolding(crate::specs::Reading::past_name_in, crate::specs::Reading::refused_in, nodes::specs::Node::span_of))]
pub fn past_name(tape: &Tape, p: Place) -> Result<Place, Refused>
    ensures { result ≡ past_name_in tape.now.bytes.now tape.now.layout (Ok p) }
{
    let (_, next) = expect(tape, p, code::TEXT).ok_or(Refusal::MALFORMED)?;
    Ok(next)
}

// Walks the slot at a place, and passes its type.
#[tactic(auto, unfolding(crate::specs::Reading::passed_in, crate::specs::Reading::refused_in, nodes::specs::Node::span_of, nodes::specs::Node::refusal_of))]
pub fn binder<F>(tape: &Tape, p: Place, slot: F) -> Result<Place, Refused>
where
    F: Fn(Place) -> Result<Place, Refused>,
    requires { F.IsAlwaysCallable slot }
    ensures { Binds tape.now.bytes.now tape.now.layout (F.post slot) p result }
{
    Ok(past_type(tape, slot(p)?).ok_or(Refusal::MALFORMED)?)
}

// Walks the list at a place, item after item.
#[tactic(auto, using(crate::proofs::Items::item_passed, crate::proofs::Items::item_refused, crate::proofs::Items::items_passed), unfolding(crate::specs::Reading::Along, crate::specs::Reading::refused_in, nodes::specs::Node::span_of, nodes::specs::Node::refusal_of))]
pub fn along<F>(tape: &Tape, p: Place, item: F) -> Result<Place, Refused>
where
    F: Fn(Place) -> Result<Place, Refused>,
    requires { F.IsAlwaysCallable item }
    ensures { Along tape.now.bytes.now tape.now.layout (F.post item) p result }
{
    let (count, first) = expect(tape, p, code::LIST).ok_or(Refusal::MALFORMED)?;
    let mut q = first;
    for _ in 0..count {
        q = item(q)?;
    }
    Ok(q)
}
