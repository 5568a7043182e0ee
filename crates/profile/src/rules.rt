// The three rules, of one entry.
ghost use Rattle.std.specs.Prelude.{◌≡◌, ◌+◌, ◌≤◌};
ghost use Rattle.format.specs.Entry.{entry};
ghost use Rattle.format.specs.Limits.{is_node, weigh};
ghost use Rattle.definition.specs.Profile.{within_day};
ghost use Rattle.profile.specs.Entries.{broken_by};

use crate::around::Head;
use grammar::code;
use grammar::kind::is_node;

#[derive(Clone, Copy, Debug, PartialEq, Eq)]
pub enum Rule {
    NoAggregate,
    SixteenNodes,
    WithinDay,
}

// Whether an entry is no interval outside 0 to one day. An amount is its 64 bits, so that a negative one is above any day.
#[tactic(auto, using(crate::proofs::Lists::no_amount), unfolding(definition::specs::Profile::within_day, definition::specs::Profile::not_past))]
fn within_day(code: u8, value: u64) -> bool
    ensures { result ≡ within_day (entry code value) }
{
    match code {
        code::SECONDS => value <= 86_400,
        code::MINUTES => value <= 1_440,
        code::HOURS => value <= 24,
        code::DAYS => value <= 1,
        code::WEEKS => value == 0,
        _ => true,
    }
}

// The rule that an entry breaks, the first of them. `nodes` were met before.
#[tactic(auto, unfolding(crate::specs::Entries::broken_by))]
pub fn broken_by(nodes: u64, e: Head) -> Option<Rule>
    ensures { result ≡ broken_by nodes e }
{
    if e.code == code::AGG {
        Some(Rule::NoAggregate)
    } else if is_node(e.code) && 16 <= nodes {
        Some(Rule::SixteenNodes)
    } else if !within_day(e.code, e.value) {
        Some(Rule::WithinDay)
    } else {
        None
    }
}

// The nodes that were met, with an entry.
#[tactic(auto, unfolding(format::specs::Limits::weigh))]
pub fn counted(nodes: u64, code: u8) -> u64
    requires { nodes ≤ 16 }
    ensures { result ≡ nodes + weigh (is_node code) }
{
    nodes + u64::from(is_node(code))
}
