// The result of an expansion beside a supplied tape: the tapes without Or, as they were given or rewritten, and the result where the
// expansion has written it.
ghost use Rattle.std.specs.Prelude.{◌≡◌, replicate};
ghost use Rattle.de_morgan.specs.Rewritten.{rewritten_in, rewritten_layout};
ghost use Rattle.judge_names.specs.Compared.{result_layout, equal_on, equal_in};

use crate::{Protected, same_but_names};
use buffer::read_size;
use de_morgan::{none_on, rewritten_in, without_or};
use tape::layout::{Layout, Tape, of_tape};

// Where the tape stands that an expansion has written to the front of its buffer. More entries than a tape can have are none.
#[tactic(auto, unfolding(crate::specs::Compared::result_layout))]
fn result_layout(res: &[u8]) -> Layout
    ensures { result ≡ result_layout res.now }
{
    let entries = read_size(res, 0);
    let size = read_size(res, 4);
    if 1024 < entries {
        return of_tape(0, 0);
    }
    of_tape(entries as usize, size as usize)
}

// Whether the supplied tape is the result but for names, where no tape has an Or.
#[tactic(auto, unfolding(crate::specs::Compared::equal_on))]
fn equal_on(protected: &Protected, supplied: &Tape, res: &[u8]) -> bool
    ensures { result ≡ equal_on protected.now.registry.bytes.now protected.now.registry.layout protected.now.condition.bytes.now protected.now.condition.layout supplied.now.bytes.now supplied.now.layout res.now }
{
    let result = Tape {
        bytes: res,
        layout: result_layout(res),
    };
    same_but_names(protected, &result, supplied)
}

// The same with the rewritten tapes, for which there is room here: most tapes have no Or (`profile_rewritten` says why each operation
// has such a function), 12,296 bytes each, which is the result's length in `answer`: this crate stands below it.
fn equal_rewritten(protected: &Protected, supplied: &Tape, res: &[u8]) -> bool
    ensures { result ≡ equal_on (rewritten_in protected.now.registry.bytes.now protected.now.registry.layout (replicate 12296 0)) (rewritten_layout protected.now.registry.bytes.now protected.now.registry.layout) (rewritten_in protected.now.condition.bytes.now protected.now.condition.layout (replicate 12296 0)) (rewritten_layout protected.now.condition.bytes.now protected.now.condition.layout) (rewritten_in supplied.now.bytes.now supplied.now.layout (replicate 12296 0)) (rewritten_layout supplied.now.bytes.now supplied.now.layout) res.now }
{
    let mut first = [0u8; 12296];
    let mut second = [0u8; 12296];
    let mut third = [0u8; 12296];
    let protected = Protected {
        registry: rewritten_in(&protected.registry, &mut first),
        condition: rewritten_in(&protected.condition, &mut second),
    };
    let supplied = rewritten_in(supplied, &mut third);
    equal_on(&protected, &supplied, res)
}

// Whether the supplied tape is the result of an expansion but for names; the protected tapes are what was expanded.
#[tactic(auto, unfolding(crate::specs::Compared::equal_in))]
pub fn is_equal(protected: &Protected, supplied: &Tape, res: &[u8]) -> bool
    ensures { result ≡ equal_in protected.now.registry.bytes.now protected.now.registry.layout protected.now.condition.bytes.now protected.now.condition.layout supplied.now.bytes.now supplied.now.layout res.now }
{
    if without_or(&protected.registry, &protected.condition) && none_on(supplied) {
        return equal_on(protected, supplied, res);
    }
    equal_rewritten(protected, supplied, res)
}
