// Document 01's fourteen bench cases, each an expansion by the operation itself. Prints case, number, start, end and charged.
#![tactic(auto)]

use answer::{MESSAGE_SIZE, RESULT_SIZE, WORK_SIZE};
use std::io;
use tape::part::part_of;

fn main(rt: HostRuntime) -> io::Result<()> {
    let mut registry = [0u8; RESULT_SIZE];
    let n = samples::registry(&mut registry);
    run_all(&rt, part_of(&registry, 0, n))
}

fn run_all(rt: &impl Print, registry: &[u8]) -> io::Result<()> {
    for case in 1..15u32 {
        run(rt, case, registry)?;
    }
    Ok(())
}

// Limit 100 unless said.
// The number is the input: the case as document 01 counts them.
fn limit_of(case: u32) -> u32 {
    match case {
        1 => 4,
        3 => 3,
        4 => 2,
        _ => 100,
    }
}

fn run(rt: &impl Print, case: u32, registry: &[u8]) -> io::Result<()> {
    let mut condition = [0u8; RESULT_SIZE];
    let n = samples::condition(case, &mut condition);
    expand(rt, case, registry, part_of(&condition, 0, n))
}

// The buffers stand here, since the operation is lent them.
fn expand<'a>(
    rt: &impl Print,
    case: u32,
    registry: &'a [u8],
    condition: &'a [u8],
) -> io::Result<()> {
    let mut result = [0u8; RESULT_SIZE];
    let mut work = [0u8; WORK_SIZE];
    let mut message = [0u8; MESSAGE_SIZE];
    let answer = expansion::expand_lent(
        registry,
        condition,
        limit_of(case),
        0,
        &mut result,
        &mut work,
        &mut message,
        &mut [],
    );
    println!(rt; "{case} {answer}")
}
