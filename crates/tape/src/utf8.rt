// Well-formed text: RFC 3629, section 4, without the control characters from 00 to 1F and 7F.
ghost use Rattle.std.specs.Prelude.{◌≡◌, [], ◌∷◌, eqb};
ghost use Rattle.format.specs.Stands.{part};
ghost use Rattle.format.specs.Utf8.{◌to◌, move, moved, next, run, well_formed, within};

use crate::part::part_of;

// Whether the `len` bytes from `start` on, as far as the slice reaches, are one whole character behind the other. Most texts are
// 20 to 7E throughout, so the automaton runs only where there is another byte.
#[tactic(auto, using(crate::proofs::Moves::run_printing, crate::proofs::Moves::run_end, format::proofs::Utf8::run_decides))]
pub fn well_formed(s: &[u8], start: usize, len: usize) -> bool
    ensures { result ≡ well_formed (part s.now start len) }
{
    let t = part_of(s, start, len);
    for &b in t {
        if !is_printing(b) {
            return ends_between(t);
        }
    }
    true
}

// Whether a byte is a character by itself.
#[tactic(auto, unfolding(format::specs::Utf8::within))]
fn is_printing(b: u8) -> bool
    ensures { result ≡ within (0x20 to 0x7E) b }
{
    (0x20 <= b) & (b <= 0x7e)
}

// Whether a text ends between characters.
#[tactic(auto, unfolding(format::specs::Utf8::run))]
fn ends_between(t: &[u8]) -> bool
    ensures { result ≡ eqb (run 0 t.now) 0 }
{
    let mut state: u8 = 0;
    for &b in t {
        state = next(state, b);
    }
    state == 0
}

// The state behind a byte. 0 is between characters, 1 to 3 await so many bytes from 80 to BF, 4 to 7 stand behind a first byte that
// allows fewer second ones, and 8 is ill-formed. They stay numbers, as in the definition, whose table of moves has a row for each.
#[tactic(auto, using(crate::proofs::Moves::rows), unfolding(format::specs::Utf8::moves))]
fn next(state: u8, b: u8) -> u8
    ensures { result ≡ next state b }
{
    match state {
        0 => first(b),
        1 => later(b, 0x80, 0xbf, 0),
        2 => later(b, 0x80, 0xbf, 1),
        3 => later(b, 0x80, 0xbf, 2),
        4 => later(b, 0xa0, 0xbf, 1), // behind E0: a shorter form would do below A0
        5 => later(b, 0x80, 0x9f, 1), // behind ED: from A0 on the surrogates, D800 to DFFF
        6 => later(b, 0x90, 0xbf, 2), // behind F0: a shorter form would do below 90
        7 => later(b, 0x80, 0x8f, 2), // behind F4: from 90 on what is above 10FFFF
        _ => 8,
    }
}

// The state behind the first byte of a character, from the lowest byte up.
#[tactic(auto, using(crate::proofs::Moves::first_bytes))]
fn first(b: u8) -> u8
    ensures { result ≡ next 0 b }
{
    if b < 0x20 {
        8 // control characters
    } else if b < 0x7f {
        0 // UTF8-1
    } else if b < 0xc2 {
        8 // 7F, bytes that begin nothing, and C0 and C1, for which UTF8-1 would do
    } else if b < 0xe0 {
        1 // UTF8-2
    } else if b < 0xe1 {
        4 // UTF8-3, from here on
    } else if b < 0xed {
        2
    } else if b < 0xee {
        5
    } else if b < 0xf0 {
        2
    } else if b < 0xf1 {
        6 // UTF8-4, from here on
    } else if b < 0xf4 {
        3
    } else if b < 0xf5 {
        7
    } else {
        8
    }
}

// The state behind a later byte: `state`, if it is one of `low` to `high`.
#[tactic(auto, unfolding(format::specs::Utf8::within, format::specs::Utf8::moved))]
fn later(b: u8, low: u8, high: u8, state: u8) -> u8
    ensures { result ≡ moved (move (low to high) state ∷ []) b }
{
    if (low <= b) & (b <= high) { state } else { 8 }
}
