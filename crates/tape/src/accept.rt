// The acceptance of a tape.
ghost use Rattle.std.specs.Prelude.{◌≡◌};
ghost use Rattle.grammar.specs.Words.{rules};
ghost use Rattle.tape.specs.Accept.{accept_by, accept_in, accept_named, accept_of, judged};

use crate::header::{Fault, open};
use crate::layout::{Layout, Place, Tape};
use crate::ors::fits_rewritten;
use crate::scan::scan;
use grammar::codes::table;
use grammar::rules::Grammar;
use std::num::NonZeroU64;

// The layout of a tape whose root is of a sort and which passes no largest figure of an input, nor once its Ors are rewritten, or the
// refusal's number. The longest text of a name has 64 bytes.
pub fn accept(s: &[u8], sort: u64) -> Result<Layout, Fault>
    ensures { result ≡ accept_of s.now sort }
{
    accept_named(64, s, sort)
}

// The same with the longest text of a name. At 0 no figure of an input is asked for, here and below: the definition has a number too, so
// that nothing is asked of a caller.
pub fn accept_named(longest: u64, s: &[u8], sort: u64) -> Result<Layout, Fault>
    ensures { result ≡ accept_named longest s.now sort }
{
    accept_by(table(), longest, s, sort)
}

// The same by any table, with the longest text of a name.
pub fn accept_by(grammar: Grammar, longest: u64, s: &[u8], sort: u64) -> Result<Layout, Fault>
    ensures { result ≡ accept_by (rules grammar.entry) longest s.now sort }
{
    let l = open(s)?;
    accept_in(
        grammar,
        longest,
        &Tape {
            bytes: s,
            layout: l,
        },
        sort,
    )
}

fn accept_in(grammar: Grammar, longest: u64, tape: &Tape, sort: u64) -> Result<Layout, Fault>
    ensures { result ≡ accept_in (rules grammar.entry) longest tape.now.bytes.now sort tape.now.layout }
{
    let names = NonZeroU64::new(longest);
    let found = scan(grammar, tape, Place::START, sort, names);
    judge(tape, found)
}

// A scan that ends where entries and text are used up found the root wanted.
fn judge(tape: &Tape, found: Option<(Place, bool)>) -> Result<Layout, Fault>
    ensures { result ≡ judged tape.now.bytes.now tape.now.layout found }
{
    let (p, over) = found.ok_or(Fault::Malformed)?;
    if p.at != tape.layout.entries || p.text != tape.layout.size {
        return Err(Fault::Malformed);
    }
    if !over && fits_rewritten(tape) {
        Ok(tape.layout)
    } else {
        Err(Fault::TooLarge)
    }
}
