// What a vector is run through, and how it is counted.
ghost use Rattle.std.specs.Prelude.{◌<◌};

use std::fmt;

// The operations, each with its number in a list.
#[derive(Clone, Copy, Debug, PartialEq, Eq)]
pub enum Operation {
    Check = 1,
    Registry = 2,
    Substitute = 3,
    Expand = 4,
    Preview = 5,
    CheckLibrary = 6,
    CheckAt = 7,
    Judge = 8,
    Merge = 9,
    Older = 10,
    Profile = 11,
    Provider = 12,
    ArgumentToTerm = 13,
    TermToArgument = 14,
}

impl Operation {
    // All of them, in the order of their numbers.
    pub const ALL: [Operation; 14] = [
        Operation::Check,
        Operation::Registry,
        Operation::Substitute,
        Operation::Expand,
        Operation::Preview,
        Operation::CheckLibrary,
        Operation::CheckAt,
        Operation::Judge,
        Operation::Merge,
        Operation::Older,
        Operation::Profile,
        Operation::Provider,
        Operation::ArgumentToTerm,
        Operation::TermToArgument,
    ];
}

// A number that no operation has.
#[derive(Clone, Copy, Debug, PartialEq, Eq)]
pub struct UnknownOperation(pub u8);

impl TryFrom<u8> for Operation {
    type Error = UnknownOperation;

    fn try_from(number: u8) -> Result<Operation, UnknownOperation> {
        Operation::ALL
            .iter()
            .copied()
            .find(|operation| *operation as u8 == number)
            .ok_or(UnknownOperation(number))
    }
}

impl fmt::Display for Operation {
    fn fmt<W: fmt::Write>(&self, f: &mut fmt::Formatter<W>) -> fmt::Result {
        f.write_str(match self {
            Operation::Check => "check",
            Operation::Registry => "registry",
            Operation::Substitute => "substitute",
            Operation::Expand => "expand",
            Operation::Preview => "preview",
            Operation::CheckLibrary => "check_library",
            Operation::CheckAt => "check_at",
            Operation::Judge => "judge",
            Operation::Merge => "merge",
            Operation::Older => "older",
            Operation::Profile => "profile",
            Operation::Provider => "provider",
            Operation::ArgumentToTerm => "argument_to_term",
            Operation::TermToArgument => "term_to_argument",
        })
    }
}

// The number of an operation, as a list has it, and the number that it is to answer with.
#[derive(Clone, Copy, Debug, PartialEq, Eq)]
pub struct Kind {
    pub operation: u8,
    pub number: usize,
    ghost has_row: { operation < 16 },
    ghost in_range: { number < 64 },
}

impl Kind {
    // What a tally has no row or place for is counted as number 1 of no operation.
    pub fn new(operation: u8, number: u64) -> Kind {
        if operation < 16 && number < 64 {
            Kind {
                operation,
                number: number as usize,
            }
        } else {
            Kind {
                operation: 0,
                number: 1,
            }
        }
    }

    // None where no operation has the number.
    pub fn operation(self) -> Option<Operation> {
        Operation::try_from(self.operation).ok()
    }
}
