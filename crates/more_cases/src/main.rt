// Document 01's further examples: e(1, 2) gives `P{f: 2}`, charged 3; N = 1,024 is accepted, 1,025 is 3. Prints number, start, end and
// charged for each, and for the first whether the result is the tape of `P{f: 2}` with zeros behind it.
#![tactic(auto)]

use answer::{MESSAGE_SIZE, RESULT_SIZE, WORK_SIZE};
use std::io;
use tape::part::part_of;

fn main(rt: HostRuntime) -> io::Result<()> {
    let mut registry = [0u8; RESULT_SIZE];
    let n = samples::registry(&mut registry);
    run(&rt, part_of(&registry, 0, n))
}

fn run(rt: &impl Print, registry: &[u8]) -> io::Result<()> {
    given_twice(rt, registry)?;
    long(rt, registry, 1024)?;
    long(rt, registry, 1025)
}

// e(1, 2)
fn given_twice(rt: &impl Print, registry: &[u8]) -> io::Result<()> {
    let mut condition = [0u8; RESULT_SIZE];
    let n = samples::condition(15, &mut condition);
    print!(rt; "e(1, 2): ")?;
    compare(rt, registry, part_of(&condition, 0, n))
}

// The buffers stand in these functions, since an operation is lent them.
fn compare<'a>(rt: &impl Print, registry: &'a [u8], condition: &'a [u8]) -> io::Result<()> {
    let mut result = [0u8; RESULT_SIZE];
    expand(rt, registry, condition, &mut result, " ")?;
    say_whether(rt, &result)
}

fn say_whether(rt: &impl Print, res: &[u8]) -> io::Result<()> {
    let mut wanted = [0u8; RESULT_SIZE];
    samples::condition(16, &mut wanted);
    if res == wanted.as_slice() {
        println!(rt; "P{{f: 2}}")
    } else {
        println!(rt; "another result")
    }
}

// A condition of n entries, which has no macro in it.
fn long(rt: &impl Print, registry: &[u8], entries: u32) -> io::Result<()> {
    let mut condition = [0u8; 9233];
    let n = samples::long_condition(entries as usize, &mut condition);
    print!(rt; "N = {entries}: ")?;
    expand_alone(rt, registry, part_of(&condition, 0, n))
}

fn expand_alone<'a>(rt: &impl Print, registry: &'a [u8], condition: &'a [u8]) -> io::Result<()> {
    let mut result = [0u8; RESULT_SIZE];
    expand(rt, registry, condition, &mut result, "\n")
}

fn expand<'a>(
    rt: &impl Print,
    registry: &'a [u8],
    condition: &'a [u8],
    res: &mut [u8],
    behind: &str,
) -> io::Result<()> {
    let mut work = [0u8; WORK_SIZE];
    let mut message = [0u8; MESSAGE_SIZE];
    let answer = expansion::expand_lent(
        registry,
        condition,
        100,
        0,
        res,
        &mut work,
        &mut message,
        &mut [],
    );
    print!(rt; "{answer}{behind}")
}
