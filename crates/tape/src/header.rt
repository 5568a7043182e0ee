// The two sizes at a tape's start, and the refusals that come before anything else is read.
ghost use Rattle.std.specs.Prelude.{◌≡◌};
ghost use Rattle.tape.specs.Header.{fault_number, open_of};

use crate::layout::{Layout, of_tape};
use buffer::read_size;

// Why a slice is no tape that is taken: it is no tape of the root wanted, or it passes a largest figure.
#[derive(Clone, Copy, Debug, PartialEq, Eq)]
pub enum Fault {
    Malformed,
    TooLarge,
}

impl Fault {
    ghost use Rattle.std.specs.Prelude.{◌≡◌};
    ghost use Rattle.tape.specs.Header.{fault_number};

    // The refusal's number.
    pub fn number(self) -> u32
        ensures { result ≡ fault_number self }
    {
        match self {
            Fault::Malformed => 2,
            Fault::TooLarge => 3,
        }
    }
}

// Where a tape's sections are.
#[tactic(auto, unfolding(format::specs::Limits::fits_sizes))]
pub fn open(s: &[u8]) -> Result<Layout, Fault>
    ensures { result ≡ open_of s.now }
{
    if s.len() < 8 {
        return Err(Fault::Malformed);
    }
    let n = read_size(s, 0);
    let t = read_size(s, 4);
    if 1024 < n || 3072 < t {
        return Err(Fault::TooLarge);
    }
    let entries = n as usize;
    let size = t as usize;
    if s.len() == 8 + 9 * entries + size {
        Ok(of_tape(entries, size))
    } else {
        Err(Fault::Malformed)
    }
}
