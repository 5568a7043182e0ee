// Vectors counted by their kind.
use crate::operation::{Kind, Operation};
use std::io;

// How many vectors there are, and how many of them came out.
#[derive(Clone, Copy, Debug, PartialEq, Eq)]
struct Count {
    all: u64,
    good: u64,
}

impl Count {
    const ZERO: Count = Count { all: 0, good: 0 };

    // One more, up to a million of each.
    fn add(&mut self, good: bool) {
        self.all = self.all.min(999_999) + 1;
        if good {
            self.good = self.good.min(999_999) + 1;
        }
    }

    fn print(self, rt: &impl Print) -> io::Result<()> {
        println!(rt; "{} of {}", self.good, self.all)
    }
}

// The counts of all vectors and of each kind: a row for each operation, by its number, with a place for each number that it can answer
// with. In row 0 and in the last one there is no operation.
#[derive(Debug, PartialEq, Eq, Drop)]
pub struct Tally {
    total: Count,
    kinds: [[Count; 64]; 16],
}

impl Tally {
    pub fn new() -> Tally {
        Tally {
            total: Count::ZERO,
            kinds: [[Count::ZERO; 64]; 16],
        }
    }

    // A vector of no operation that expects 0, as each is that a list says it has and has not, has no line: it counts twice in the
    // total.
    pub fn add(&mut self, kind: Kind, good: bool) {
        self.total.add(good);
        if kind.operation == 0 && kind.number == 0 {
            self.total.add(good);
        } else {
            self.kinds[usize::from(kind.operation)][kind.number].add(good);
        }
    }

    // A line for each kind that the list has, and the total.
    pub fn print(&self, rt: &impl Print) -> io::Result<()> {
        for operation in 0..16u8 {
            let row = &self.kinds[usize::from(operation)];
            for (number, count) in row.iter().enumerate() {
                if count.all != 0 {
                    print_name(rt, operation)?;
                    print!(rt; " {number}: ")?;
                    count.print(rt)?;
                }
            }
        }
        self.total.print(rt)
    }
}

// The name of an operation by its number.
fn print_name(rt: &impl Print, number: u8) -> io::Result<()> {
    match Operation::try_from(number) {
        Ok(operation) => print!(rt; "{operation}"),
        Err(_) => print!(rt; "unknown"),
    }
}
