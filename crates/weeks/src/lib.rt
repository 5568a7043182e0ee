// A tape without weeks, for heads of last year: document 02, point 8, turns each interval in weeks into days at seven times the amount.
// Every other entry stays, and the text as it is.
#![tactic(auto)]

ghost use Rattle.std.specs.Prelude.{◌≡◌, ◌+◌, not, ◌||◌, T, ◌==◌, is_some, IfSome};
ghost use Rattle.std.proofs.lemmas.List.Edits.{sets};
ghost use Rattle.format.specs.Entry.{entry, codes_of, values_of};
ghost use Rattle.format.specs.Older.{sevenfold, older_entry, older_entries, fits_older};
ghost use Rattle.format.specs.Signed.{is_signed64, bits64};
ghost use Rattle.weeks.specs.Heads.{heads_in, fits_in, older_heads, older_tape_in, filled, written_in};

use buffer::{value_bytes, write, write_each, write_size};
use grammar::code;
use tape::held::HeldTape;
use tape::layout::Tape;
use tape::part::part_of;

// A held tape whose amounts fit: seven times the amount of each interval in weeks has 64 bits. No equality is derived,
// as of no tape.
#[derive(Clone, Copy, Debug)]
struct FittingTape<'a> {
    held: HeldTape<'a>,
    ghost fits: { T (fits_older (heads_in held.tape.bytes.now held.tape.layout)) },
}

impl<'a> FittingTape<'a> {
    // The same tape, where it holds its layout and its amounts fit.
    fn of(tape: &Tape<'a>) -> Option<FittingTape<'a>>
        ensures exactly { is_some result ≡ fits_in tape.now.bytes.now tape.now.layout }
        ensures same { IfSome result (λ f. f.held.tape ≡ tape.now) }
    {
        let held = tape.held()?;
        if all_fit(&held) {
            Some(FittingTape { held })
        } else {
            None
        }
    }
}

// Writes the older tape of the entries at a layout, and zeros behind it; nothing where an amount leaves the range, or where the slice does
// not hold the layout, which acceptance rules out. Says whether it was written.
pub fn write_older(tape: &Tape, res: &mut [u8]) -> bool
    ensures { (result ≡ fits_in tape.now.bytes.now tape.now.layout) × (res.new ≡ written_in tape.now.bytes.now tape.now.layout res.old) }
{
    let Some(tape) = FittingTape::of(tape) else {
        return false;
    };
    write_tape(&tape, res);
    true
}

// Whether seven times the amount of each interval in weeks has 64 bits.
fn all_fit(held: &HeldTape) -> bool
    ensures { result ≡ fits_older (heads_in held.now.tape.bytes.now held.now.tape.layout) }
{
    (0..held.entries()).all(|i| fits(held.code_at(i), held.value_at(i)))
}

// The amounts from -1,317,624,576,693,539,401 to 1,317,624,576,693,539,401 fit: the negative ones are, in 64 bits, those from
// 2^64 - 1,317,624,576,693,539,401 on.
#[tactic(auto, using(format::proofs::Signed::seven_fits))]
fn fits(code: u8, value: u64) -> bool
    ensures { result ≡ (not (code == 64) || is_signed64 (sevenfold value)) }
{
    code != code::WEEKS || value <= 1_317_624_576_693_539_401 || 17_129_119_497_016_012_215 <= value
}

// Seven times an amount. In 64 bits a negative amount is multiplied as any other, and the product wraps.
#[tactic(auto, using(format::proofs::Signed::seven_bits))]
fn seven_times(value: u64) -> u64
    requires { T (is_signed64 (sevenfold value)) }
    ensures { result ≡ bits64 (sevenfold value) }
{
    value.wrapping_mul(7)
}

// The code and the value that the older tape has for an entry's.
#[tactic(auto, unfolding(format::specs::Older::as_days, format::specs::Older::older_entry))]
fn older_code(code: u8) -> u8
    ensures { result ≡ (older_entry (entry code 0)).code }
{
    if code == code::WEEKS {
        code::DAYS
    } else {
        code
    }
}

#[tactic(auto, unfolding(format::specs::Older::as_days, format::specs::Older::older_entry))]
fn older_value(code: u8, value: u64) -> u64
    requires { T (not (code == 64) || is_signed64 (sevenfold value)) }
    ensures { result ≡ (older_entry (entry code value)).value }
{
    if code == code::WEEKS {
        seven_times(value)
    } else {
        value
    }
}

fn write_codes(held: &HeldTape, res: &mut [u8])
    ensures { res.new ≡ sets res.old 8 (codes_of (older_entries (heads_in held.now.tape.bytes.now held.now.tape.layout))) }
{
    write_each(res, 8, held.codes(), older_code);
}

// The code and the value of an entry stand in two sections, so an index is what they share.
#[tactic(auto, using(crate::proofs::Heads::values_turn, crate::proofs::Heads::values_end, crate::proofs::Heads::fits_turn))]
fn write_values(tape: &FittingTape, res: &mut [u8])
    ensures { res.new ≡ sets res.old (8 + tape.now.held.tape.layout.entries) (values_of (older_entries (heads_in tape.now.held.tape.bytes.now tape.now.held.tape.layout))) }
{
    let n = tape.held.entries();
    for i in 0..n {
        let value = older_value(tape.held.code_at(i), tape.held.value_at(i));
        write(res, 8 + n + 8 * i, &value_bytes(value));
    }
}

// Writes all that is in front of the text.
#[tactic(auto, using(crate::proofs::Heads::heads_written))]
fn write_heads(tape: &FittingTape, res: &mut [u8])
    ensures { res.new ≡ sets res.old 0 (older_heads tape.now.held.tape.bytes.now tape.now.held.tape.layout) }
{
    write_size(res, 0, tape.held.entries());
    write_size(res, 4, tape.held.tape.layout.size);
    write_codes(&tape.held, res);
    write_values(tape, res);
}

#[tactic(auto, using(crate::proofs::Heads::tape_written))]
fn write_tape(tape: &FittingTape, res: &mut [u8])
    ensures { res.new ≡ filled res.old (older_tape_in tape.now.held.tape.bytes.now tape.now.held.tape.layout) }
{
    let Tape { bytes, layout } = tape.held.tape;
    let text = part_of(bytes, layout.text, layout.size);
    let behind = 8 + 9 * layout.entries;
    write_heads(tape, res);
    write(res, behind, text);
    buffer::zero_from(res, behind + text.len());
}
