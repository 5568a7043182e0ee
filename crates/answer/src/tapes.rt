// The tapes of an operation that has two, accepted in their order. Acceptance answers a layout, of which the laws of the operations
// speak, and each operation puts it beside the bytes that it is lent.
ghost use Rattle.std.specs.Prelude.{◌≡◌};
ghost use Rattle.answer.specs.Tapes.{accept_two};

use tape::accept::accept;
use tape::header::Fault;
use tape::layout::Layout;

// All 2s and 3s of the first come before the second is looked at.
#[tactic(auto, unfolding(crate::specs::Tapes::accept_two))]
pub fn accept_two(
    first: &[u8],
    sort: u64,
    second: &[u8],
    other: u64,
) -> Result<(Layout, Layout), Fault>
    ensures { result ≡ accept_two first.now sort second.now other }
{
    let d = accept(first, sort)?;
    let c = accept(second, other)?;
    Ok((d, c))
}
