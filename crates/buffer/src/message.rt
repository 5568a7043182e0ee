// A message in a lent buffer, written piece by piece, as far as the buffer reaches.
ghost use Rattle.std.specs.Prelude.{◌≡◌};
ghost use Rattle.definition.specs.Text.{decimal};
ghost use Rattle.buffer.specs.Buffer.{message_in};
ghost use Rattle.buffer.specs.Message.{Puts, so_far};

use crate::{write_at, write_number};

// The buffer, and where the message in it ends. No other struct holds one of these, since whoever lent the buffer would not learn then
// what was written to it. It derives neither Debug nor equality, since what it holds is a lent buffer.
#[derive(Drop)]
pub struct Message<'a> {
    pub bytes: &'a mut [u8],
    pub len: usize,
}

impl<'a> Message<'a> {
    // No message yet.
    pub fn new(bytes: &'a mut [u8]) -> Message<'a>
        ensures same_slice { result.bytes.ghost_name ≡ bytes.entry.ghost_name }
        ensures empty { so_far result ≡ message_in bytes.old 0 }
    {
        Message { bytes, len: 0 }
    }

    // Writes a piece behind what is there.
    pub fn put(&mut self, piece: &[u8])
        ensures { Puts piece.now self.old self.new }
    {
        self.len = write_at(self.bytes, self.len, piece);
    }

    // The same for a number, in decimal.
    pub fn put_number(&mut self, n: u32)
        ensures { Puts (decimal n) self.old self.new }
    {
        self.len = write_number(self.bytes, self.len, n);
    }
}
