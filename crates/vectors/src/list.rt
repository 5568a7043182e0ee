// A list of vectors, one behind the other. A length has four bytes; what is shorter than its length ends with the list.
use crate::operation::Kind;
use buffer::{read_size, read_value};

// How long the buffers are that a vector's operation is lent.
#[derive(Clone, Copy, Debug, PartialEq, Eq)]
pub struct Sizes {
    pub result: usize,
    pub work: usize,
    pub message: usize,
}

// A vector's parts, and its kind.
#[derive(Clone, Copy, Debug, PartialEq, Eq)]
pub struct Vector<'a> {
    pub kind: Kind,
    pub limit: u32,
    pub file: u16,
    pub index: u32,
    pub first: &'a [u8],
    pub second: &'a [u8],
    pub third: &'a [u8],
    pub sizes: Sizes,
    pub numbers: &'a [u8],
    pub result: &'a [u8],
    pub message: &'a [u8],
    pub given: &'a [u8],
    pub counted: &'a [u8],
}

// What is still to be read of a list.
#[derive(Clone, Copy, Debug, PartialEq, Eq)]
pub struct List<'a> {
    rest: &'a [u8],
}

impl<'a> List<'a> {
    // The list in a slice, and how many vectors it says that it has.
    pub fn open(s: &'a [u8]) -> (List<'a>, u32) {
        let mut list = List { rest: s };
        let vectors = read_size(list.take(12), 8);
        (list, vectors)
    }

    // The next bytes, so many of them.
    fn take(&mut self, n: usize) -> &'a [u8] {
        let (front, rest) = self.rest.split_at(n.min(self.rest.len()));
        self.rest = rest;
        front
    }

    // Bytes that have their length before them.
    fn bytes(&mut self) -> &'a [u8] {
        let n = read_size(self.take(4), 0);
        self.take(n as usize)
    }

    // A tape that only some vectors have. Without one, what comes next is read as it for an operation that takes one, and read again
    // as what it is.
    fn tape_if(&mut self, has: bool) -> &'a [u8] {
        if has {
            return self.bytes();
        }
        let mut ahead = *self;
        ahead.bytes()
    }

    pub fn vector(&mut self) -> Vector<'a> {
        let head = self.take(12);
        let tapes = read_size(head, 11);
        let first = self.bytes();
        let second = self.tape_if(1 < tapes);
        let third = self.tape_if(2 < tapes);
        let sizes = self.take(12);
        let numbers = self.take(56);
        Vector {
            kind: Kind::new((read_size(head, 0) % 256) as u8, read_value(numbers, 0)),
            limit: read_size(head, 1),
            file: (read_size(head, 5) % 65536) as u16,
            index: read_size(head, 7),
            first,
            second,
            third,
            sizes: Sizes {
                result: read_size(sizes, 0) as usize,
                work: read_size(sizes, 4) as usize,
                message: read_size(sizes, 8) as usize,
            },
            numbers,
            result: self.bytes(),
            message: self.bytes(),
            given: self.bytes(),
            counted: self.bytes(),
        }
    }
}
