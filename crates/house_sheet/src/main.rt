// The house sheet of standard input: a registry's 4-byte length, the registry, and the sheet. Prints for each condition its place from 1,
// number, start, end and charged, as `cases` does; a refused registry or sheet is one line with place 0.
#![tactic(auto)]

use answer::{MESSAGE_SIZE, RESULT_SIZE, WORK_SIZE};
use buffer::read_size;
use sheet::Progress;
use std::io;
use std::io::Read;

// The longest input, 4 bytes, a registry and a sheet of 65,536 bytes, and one more: a sheet that fills it is too long.
const ROOM: usize = 4 + RESULT_SIZE + 65536 + 1;

fn main(rt: HostRuntime) -> io::Result<()> {
    let mut input = [0; ROOM];
    let n = io::copy(&mut rt.stdin().take(ROOM as u64), &mut &mut input[..])?;
    let n = (n as usize).min(ROOM);
    run(&rt, &input[..n])
}

// An input that ends before its registry does, or a registry longer than any tape, is 2.
fn run(rt: &impl Print, input: &[u8]) -> io::Result<()> {
    match split(input) {
        Some((registry, sheet)) => expand_sheet(rt, registry, sheet),
        None => println!(rt; "0 {} 0 0 0", numbers::MALFORMED),
    }
}

// The registry and the sheet.
fn split(input: &[u8]) -> Option<(&[u8], &[u8])> {
    let (_, tapes) = input.split_at_checked(4)?;
    let length = read_size(input, 0) as usize;
    if RESULT_SIZE < length {
        return None;
    }
    tapes.split_at_checked(length)
}

fn expand_sheet<'a>(rt: &impl Print, registry: &'a [u8], sheet: &'a [u8]) -> io::Result<()> {
    let mut message = [0u8; MESSAGE_SIZE];
    let opened = sheet::open(registry, sheet, 1000, 0, &mut message);
    let answer = opened.answer;
    if answer.number != numbers::OK {
        return println!(rt; "0 {answer}");
    }
    let p = opened.progress;
    lend_buffers(rt, registry, sheet, p, &mut message)
}

// The buffers stand here, since each step is lent them.
fn lend_buffers<'a>(
    rt: &impl Print,
    registry: &'a [u8],
    sheet: &'a [u8],
    p: Progress,
    message: &mut [u8],
) -> io::Result<()> {
    let mut result = [0u8; RESULT_SIZE];
    let mut work = [0u8; WORK_SIZE];
    let mut counts = [0u32; 255];
    print_steps(
        rt,
        registry,
        sheet,
        p,
        &mut result,
        &mut work,
        message,
        &mut counts,
    )
}

fn print_steps<'a>(
    rt: &impl Print,
    registry: &'a [u8],
    sheet: &'a [u8],
    start: Progress,
    res: &mut [u8],
    work: &mut [u8],
    message: &mut [u8],
    counts: &mut [u32],
) -> io::Result<()> {
    let mut p = start;
    for i in 0..start.left {
        let step = sheet::next(registry, sheet, p, res, work, message, counts);
        p = step.progress;
        println!(rt; "{} {}", i + 1, step.answer)?;
    }
    Ok(())
}
