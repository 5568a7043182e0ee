// Bytes in lent slices: written, zeroed, and read as numbers; and messages, written piece by piece.
//
// A write goes as far as its slice reaches, and a read takes what lies past the end for zeros, so nothing here asks anything of a caller.
#![tactic(auto)]

ghost use Rattle.std.specs.Prelude.{◌≡◌, [], min, ◌+◌, ◌≤◌, ◌<◌, length, get_or};
ghost use Rattle.std.proofs.lemmas.List.Edits.{sets};
ghost use Rattle.format.specs.Entry.{le};
ghost use Rattle.format.specs.Tape.{from_le};
ghost use Rattle.format.specs.Stands.{part};
ghost use Rattle.definition.specs.Text.{decimal};
ghost use Rattle.definition.specs.Answers.{padded};
ghost use Rattle.buffer.specs.Buffer.{zeroed, message_in, write_in, WritesEach};

pub mod message;

// Writes `piece` into `s` from `at` on, as far as `s` reaches. The loop has one end, so that the compiler writes many bytes at once. It is
// no `copy_from_slice` of a part, which would be a call of memcpy: most pieces here are of one to eight bytes.
#[tactic(auto, using(crate::proofs::Sets::sets_stop))]
pub fn write(s: &mut [u8], at: usize, piece: &[u8])
    ensures { s.new ≡ sets s.old at piece.now }
{
    let n = s.len().saturating_sub(at).min(piece.len());
    for j in 0..n {
        s[at + j] = piece[j];
    }
}

// Writes what each byte of `piece` becomes into `s` from `at` on, as far as `s` reaches. An index is what the two slices share: a `zip`
// with `iter_mut` was tried, and a proof does not learn from it what was written.
#[tactic(auto, using(crate::proofs::Sets::sets_mapped, crate::proofs::Sets::sets_each))]
pub fn write_each<F>(s: &mut [u8], at: usize, piece: &[u8], becomes: F)
where
    F: Fn(u8) -> u8,
    requires { F.IsAlwaysCallable becomes }
    ensures { WritesEach (F.post becomes) at piece.now s.old s.new }
{
    let n = s.len().saturating_sub(at).min(piece.len());
    for j in 0..n {
        s[at + j] = becomes(piece[j]);
    }
}

// Fills `s` from `at` on with zeros.
#[tactic(auto, unfolding(crate::specs::Buffer::zeroed))]
pub fn zero_from(s: &mut [u8], at: usize)
    ensures { s.new ≡ zeroed s.old at }
{
    let from = at.min(s.len());
    s[from..].fill(0);
}

// Fills `s` with zeros.
#[tactic(auto, unfolding(definition::specs::Answers::padded))]
pub fn zero(s: &mut [u8])
    ensures { s.new ≡ padded (length s.old) [] }
{
    s.fill(0);
}

// The byte at `i`.
fn byte(s: &[u8], i: usize) -> u8
    ensures { result ≡ get_or s.now i 0 }
{
    s.get(i).copied().unwrap_or(0)
}

// The number whose 4 bytes stand at `at`.
#[tactic(auto, using(crate::proofs::Numbers::size_past, crate::proofs::Numbers::from_le_size))]
pub fn read_size(s: &[u8], at: usize) -> u32
    ensures { result ≡ from_le (part s.now at 4) }
{
    if at >= s.len() {
        return 0;
    }
    u32::from_le_bytes([
        byte(s, at),
        byte(s, at + 1),
        byte(s, at + 2),
        byte(s, at + 3),
    ])
}

// The number whose 8 bytes stand at `at`, all of them in the slice: without a test each it is one load of the machine.
#[tactic(auto, using(crate::proofs::Numbers::from_le_8_bytes))]
pub fn held_value(s: &[u8], at: usize) -> u64
    requires { at + 8 ≤ length s.now }
    ensures { result ≡ from_le (part s.now at 8) }
{
    u64::from_le_bytes([
        s[at],
        s[at + 1],
        s[at + 2],
        s[at + 3],
        s[at + 4],
        s[at + 5],
        s[at + 6],
        s[at + 7],
    ])
}

// The number whose 8 bytes stand at `at`.
#[tactic(auto, using(crate::proofs::Numbers::value_past, crate::proofs::Numbers::from_le_value))]
pub fn read_value(s: &[u8], at: usize) -> u64
    ensures { result ≡ from_le (part s.now at 8) }
{
    if at >= s.len() {
        return 0;
    }
    if 8 <= s.len() - at {
        return held_value(s, at);
    }
    // no `from_le_bytes`: fewer than 8 bytes stand there, and each that is missing counts 0
    let low = read_size(s, at) as u64;
    let high = read_size(s, at + 4) as u64;
    low + 4294967296 * high
}

// The 8 bytes of a value.
#[tactic(auto, using(crate::proofs::Numbers::bytes_of_value))]
pub fn value_bytes(v: u64) -> [u8; 8]
    ensures { result ≡ le 8 v }
{
    v.to_le_bytes()
}

// Writes the 4 bytes of a size into `s` from `at` on, as far as `s` reaches.
#[tactic(auto, unfolding(format::specs::Entry::le))]
pub fn write_size(s: &mut [u8], at: usize, size: usize)
    ensures { s.new ≡ sets s.old at (le 4 size) }
{
    let bytes = value_bytes(size as u64);
    write(s, at, &bytes[0..4]);
}

// How many decimal digits a number has. Document 02, point 2: digits are found by dividing numbers of 32 bits and no wider ones, here and
// below, which the parameter's type says. So both are written here: the library's decimals (itoa) are divisions of 64 bits. The loop has no
// range to go over: what is left ends it, and its turns are the answer.
#[tactic(auto, using(crate::proofs::Decimals::at_most_10_digits, crate::proofs::Decimals::small_length, crate::proofs::Decimals::step_length))]
pub fn digit_count(n: u32) -> usize
    ensures { result ≡ length (decimal n) }
{
    let mut left = n;
    let mut count = 1;
    while left >= 10 {
        left /= 10;
        count += 1;
    }
    count
}

// Writes the decimal digits of `n` at the front of `d`, as far as it reaches, and answers how many they are.
#[tactic(auto, using(crate::proofs::Decimals::at_most_10_digits, crate::proofs::Decimals::digits_more, crate::proofs::Decimals::small_length, crate::proofs::Decimals::step_length, definition::proofs::Decimal::decimal_small))]
pub fn digits(d: &mut [u8], n: u32) -> usize
    ensures { (d.new ≡ sets d.old 0 (decimal n)) × (result ≡ length (decimal n)) }
{
    if n < 10 {
        write(d, 0, &[b'0' + n as u8]);
        1
    } else {
        let k = digits(d, n / 10);
        write(d, k, &[b'0' + (n % 10) as u8]);
        k + 1
    }
}

// Where a message ends that had ended at `at`, once `count` bytes are written behind it into a buffer of `size`.
fn end_of(size: usize, at: usize, count: usize) -> usize
    ensures { result ≡ min size (at + count) }
{
    at.saturating_add(count).min(size)
}

// Writes `piece` behind a message that ends at `at`, as far as the buffer reaches, and answers where it then ends. It and `write_number`
// take the slice: they are what `Message` is made of, whose methods lend its own.
#[tactic(auto, unfolding(crate::specs::Buffer::write_in))]
pub fn write_at(message: &mut [u8], at: usize, piece: &[u8]) -> usize
    ensures { message_in message.new result ≡ write_in piece.now (message_in message.old at) }
{
    write(message, at, piece);
    end_of(message.len(), at, piece.len())
}

// The same for a number, in decimal.
#[tactic(auto, using(crate::proofs::Messages::write_full, crate::proofs::Lent::sets_lent_rest), unfolding(crate::specs::Buffer::write_in))]
pub fn write_number(message: &mut [u8], at: usize, n: u32) -> usize
    ensures { message_in message.new result ≡ write_in (decimal n) (message_in message.old at) }
{
    let size = message.len();
    if at < size {
        let count = digits(&mut message[at..], n);
        end_of(size, at, count)
    } else {
        size
    }
}
