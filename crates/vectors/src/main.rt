// Replays the list of the Rust's answers that stands in `stdin`, and says for each operation and number how many of its vectors
// came out, the numbers, the counts and every byte of the buffers. README.md says how the list was made; differential/README.md has what
// its bytes are.
#![tactic(auto)]

use crate::list::List;
use crate::run::comes_out;
use crate::tally::Tally;
use std::io;
use std::io::Read;
use tape::part::part_of;

mod list;
mod operation;
mod run;
mod tally;

// Room for a list. A function of its own gives it, since a proof that meets a literal of so many bytes goes too deep.
fn room() -> [u8; 1048576] {
    [0; 1048576]
}

fn main(rt: HostRuntime) -> io::Result<()> {
    let mut list = room();
    let n = io::copy(&mut rt.stdin().take(list.len() as u64), &mut &mut list[..])?;
    replay(&rt, part_of(&list, 0, n as usize))
}

fn replay(rt: &impl Print, s: &[u8]) -> io::Result<()> {
    let mut tally = Tally::new();
    let (mut list, vectors) = List::open(s);
    for _ in 0..vectors {
        let v = list.vector();
        tally.add(v.kind, comes_out(&v));
    }
    tally.print(rt)
}
