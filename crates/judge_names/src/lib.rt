// Whether two tapes are the same but for names that were generated (document 02, point 3): entry by entry, a name by the pair that it
// makes with the one in its place, all else equal. A protected name, one of the condition or of a definition, is equal; any other is
// sent to none that is protected, and its pair agrees with every earlier one in both directions. Earlier pairs are found on the tapes
// again: 1,024 entries at the most, so half a million pairs.
#![tactic(auto)]

ghost use Rattle.std.specs.Prelude.{◌≡◌, true, ◌&&◌, [], ◌≤◌, ◌<◌, is_some, IfSome};
ghost use Rattle.definition.specs.Check.{contains};
ghost use Rattle.definition.specs.Text.{eq_text};
ghost use Rattle.tape.specs.Layouts.{holds, code_at, value_at, width_at, text_behind};
ghost use Rattle.tape.specs.Pick.{pick};
ghost use Rattle.format.specs.Names.{is_name, names_in};
ghost use Rattle.definition.specs.Agree.{consistent, consistent_with, fits, same_but_names};
ghost use Rattle.judge_names.specs.Entries.{text_at, spelled_at, entries_in, protected_in, pair, pair_at, pairs_before, agrees_at, same_in};

use grammar::code;
use grammar::kind::text_width;
use nodes::{Name, name_at};
use tape::held::HeldTape;
use tape::layout::{Tape, text_behind};

pub mod result;

// The tapes whose names are protected.
#[derive(Clone, Copy, Debug)]
pub struct Protected<'a> {
    pub registry: Tape<'a>,
    pub condition: Tape<'a>,
}

// The same, each of which holds its layout. No type parameter over the two: it would ask for a trait, for one function that makes this of
// that.
#[derive(Clone, Copy, Debug)]
struct HeldProtected<'a> {
    registry: HeldTape<'a>,
    condition: HeldTape<'a>,
}

// Two tapes side by side, of as many entries. What is asked of a function of an entry is that there is one of the index, as a slice asks.
#[derive(Clone, Copy, Debug)]
struct Sides<'a> {
    left: HeldTape<'a>,
    right: HeldTape<'a>,
    ghost as_many: { left.tape.layout.entries ≡ right.tape.layout.entries },
}

// The texts of an entry of both.
#[derive(Clone, Copy, Debug)]
struct Pair<'a> {
    ours: &'a [u8],
    theirs: &'a [u8],
}

// Whether an entry's text is a name: a variable's, or a slot's.
#[tactic(auto, unfolding(format::specs::Names::is_name, format::specs::Macro::is_code))]
fn is_name(code: u8) -> bool
    ensures { result ≡ is_name code }
{
    matches!(code, code::VAR | code::SLOT_NAME)
}

// How many bytes of text entry `at` takes: what `text_width` says, at an entry.
fn width_at(held: &HeldTape, at: usize) -> u64
    requires { at < held.now.tape.layout.entries }
    ensures { result ≡ width_at held.now.tape.bytes.now held.now.tape.layout at }
{
    text_width(held.code_at(at), held.value_at(at))
}

// The text offset behind entry `at`, whose text begins at `text`, as far as there is text. The two are no `Place` here and below: the index
// is a range's, and the texts go on by themselves.
fn behind(held: &HeldTape, at: usize, text: usize) -> usize
    requires { (at < held.now.tape.layout.entries) × (text ≤ held.now.tape.layout.size) }
    ensures { (result ≡ text_behind held.now.tape.layout.size text (width_at held.now.tape.bytes.now held.now.tape.layout at)) × (result ≤ held.now.tape.layout.size) }
{
    text_behind(held.tape.layout.size, text, width_at(held, at))
}

// The text of entry `at`, which begins at `text`.
fn text_of<'a>(held: &HeldTape<'a>, at: usize, text: usize) -> &'a [u8]
    requires { at < held.now.tape.layout.entries }
    ensures { result.now ≡ spelled_at held.now.tape.bytes.now held.now.tape.layout at text }
{
    let size = width_at(held, at) as usize;
    name_at(&held.tape, Name { text, size })
}

// Whether entry `at` is a name, and this one.
#[tactic(auto, using(nodes::proofs::Texts::equal_texts))]
fn is_named(held: &HeldTape, at: usize, text: usize, name: &[u8]) -> bool
    requires { at < held.now.tape.layout.entries }
    ensures { result ≡ (is_name (code_at held.now.tape.bytes.now held.now.tape.layout at) && eq_text (spelled_at held.now.tape.bytes.now held.now.tape.layout at text) name.now) }
{
    is_name(held.code_at(at)) && text_of(held, at, text) == name
}

// Whether a tape has the name.
#[tactic(auto, using(crate::proofs::Steps::text_step, crate::proofs::Steps::text_first, crate::proofs::Steps::names_step, crate::proofs::Steps::names_end))]
fn has_name(held: &HeldTape, name: &[u8]) -> bool
    ensures { result ≡ contains (names_in (entries_in held.now.tape.bytes.now held.now.tape.layout)) name.now }
{
    let mut text = 0;
    // an index, which is what code, value and text of an entry share
    for at in 0..held.entries() {
        if is_named(held, at, text, name) {
            return true;
        }
        text = behind(held, at, text);
    }
    false
}

impl<'a> Protected<'a> {
    // The same tapes, where each holds its layout.
    fn held(&self) -> Option<HeldProtected<'a>>
        ensures exactly { is_some result ≡ (holds self.now.registry.bytes.now self.now.registry.layout && holds self.now.condition.bytes.now self.now.condition.layout) }
        ensures same { IfSome result (λ h. (h.registry.tape ≡ self.now.registry) × (h.condition.tape ≡ self.now.condition)) }
    {
        let registry = self.registry.held()?;
        let condition = self.condition.held()?;
        Some(HeldProtected {
            registry,
            condition,
        })
    }
}

impl<'a> HeldProtected<'a> {
    // Whether a name stands in the condition or in a definition, called or not.
    #[tactic(auto, using(definition::proofs::Texts::contains_append))]
    fn has(&self, name: &[u8]) -> bool
        ensures { result ≡ contains (protected_in self.now.registry.tape.bytes.now self.now.registry.tape.layout self.now.condition.tape.bytes.now self.now.condition.tape.layout) name.now }
    {
        has_name(&self.condition, name) || has_name(&self.registry, name)
    }
}

impl<'a> Pair<'a> {
    // Whether two pairs agree in both directions: our names are equal exactly if theirs are.
    #[tactic(auto, using(nodes::proofs::Texts::equal_texts), unfolding(definition::specs::Agree::consistent))]
    fn is_consistent(&self, other: &Pair) -> bool
        ensures { result ≡ consistent (pair self.now.ours.now self.now.theirs.now) (pair other.now.ours.now other.now.theirs.now) }
    {
        (self.ours == other.ours) == (self.theirs == other.theirs)
    }
}

impl<'a> Sides<'a> {
    // The texts of entry `at`, which begin at `a` and at `b`. The three are no struct, here and in the two functions that have them too:
    // the index is a range's and the texts go on by themselves, so that it would be put together anew at each turn of the two loops.
    fn pair_at(&self, at: usize, a: usize, b: usize) -> Pair<'a>
        requires { at < self.now.left.tape.layout.entries }
        ensures ours { result.ours.now ≡ spelled_at self.now.left.tape.bytes.now self.now.left.tape.layout at a }
        ensures theirs { result.theirs.now ≡ spelled_at self.now.right.tape.bytes.now self.now.right.tape.layout at b }
    {
        Pair {
            ours: text_of(&self.left, at, a),
            theirs: text_of(&self.right, at, b),
        }
    }
}

// Whether a pair agrees with that of entry `at`, if it is a name.
fn agrees_with(sides: &Sides, at: usize, a: usize, b: usize, names: &Pair) -> bool
    requires { at < sides.now.left.tape.layout.entries }
    ensures { result ≡ pick (is_name (code_at sides.now.left.tape.bytes.now sides.now.left.tape.layout at)) (consistent (pair names.now.ours.now names.now.theirs.now) (pair (spelled_at sides.now.left.tape.bytes.now sides.now.left.tape.layout at a) (spelled_at sides.now.right.tape.bytes.now sides.now.right.tape.layout at b))) true }
{
    !is_name(sides.left.code_at(at)) || names.is_consistent(&sides.pair_at(at, a, b))
}

// Whether a pair agrees with those of all names before entry `end`.
#[tactic(auto, using(crate::proofs::Steps::text_step, crate::proofs::Steps::text_first, crate::proofs::Steps::pairs_step, crate::proofs::Steps::pairs_none))]
fn agrees_before(sides: &Sides, end: usize, names: &Pair) -> bool
    requires { end ≤ sides.now.left.tape.layout.entries }
    ensures { result ≡ consistent_with (pair names.now.ours.now names.now.theirs.now) (pairs_before sides.now.left.tape.bytes.now sides.now.left.tape.layout sides.now.right.tape.bytes.now sides.now.right.tape.layout end) }
{
    let mut a = 0;
    let mut b = 0;
    let mut agrees = true;
    // an index, which is what code, value and text of an entry share
    for at in 0..end {
        agrees &= agrees_with(sides, at, a, b, names);
        a = behind(&sides.left, at, a);
        b = behind(&sides.right, at, b);
    }
    agrees
}

// Whether the pair of two names at entry `at` may stand behind those before it.
#[tactic(auto, using(nodes::proofs::Texts::equal_texts), unfolding(definition::specs::Agree::fits))]
fn fits(protected: &HeldProtected, sides: &Sides, at: usize, names: &Pair) -> bool
    requires { at ≤ sides.now.left.tape.layout.entries }
    ensures { result ≡ fits (protected_in protected.now.registry.tape.bytes.now protected.now.registry.tape.layout protected.now.condition.tape.bytes.now protected.now.condition.tape.layout) (pairs_before sides.now.left.tape.bytes.now sides.now.left.tape.layout sides.now.right.tape.bytes.now sides.now.right.tape.layout at) (pair names.now.ours.now names.now.theirs.now) }
{
    if protected.has(names.ours) {
        return names.ours == names.theirs;
    }
    !protected.has(names.theirs) && agrees_before(sides, at, names)
}

// Whether entry `at` of the one tape may stand where that of the other stands.
#[tactic(auto, using(nodes::proofs::Texts::equal_texts), unfolding(crate::specs::Entries::agrees_at, crate::specs::Entries::entry_at, definition::specs::Agree::equal_entry))]
fn agrees_at(protected: &HeldProtected, sides: &Sides, at: usize, a: usize, b: usize) -> bool
    requires { (at < sides.now.left.tape.layout.entries) × (a ≡ text_at sides.now.left.tape.bytes.now sides.now.left.tape.layout at) × (b ≡ text_at sides.now.right.tape.bytes.now sides.now.right.tape.layout at) }
    ensures { result ≡ agrees_at sides.now.left.tape.bytes.now sides.now.left.tape.layout sides.now.right.tape.bytes.now sides.now.right.tape.layout (protected_in protected.now.registry.tape.bytes.now protected.now.registry.tape.layout protected.now.condition.tape.bytes.now protected.now.condition.tape.layout) at }
{
    let code = sides.left.code_at(at);
    if code != sides.right.code_at(at) {
        return false;
    }
    let texts = sides.pair_at(at, a, b);
    if is_name(code) {
        return fits(protected, sides, at, &texts);
    }
    sides.left.value_at(at) == sides.right.value_at(at) && texts.ours == texts.theirs
}

// All entries of the two tapes.
#[tactic(auto, using(crate::proofs::Steps::text_step, crate::proofs::Steps::text_first, crate::proofs::Steps::entry_turn, crate::proofs::Steps::entries_begin, crate::proofs::Steps::entries_done))]
fn same_entries(protected: &HeldProtected, sides: &Sides) -> bool
    ensures { result ≡ same_but_names (protected_in protected.now.registry.tape.bytes.now protected.now.registry.tape.layout protected.now.condition.tape.bytes.now protected.now.condition.tape.layout) [] (entries_in sides.now.left.tape.bytes.now sides.now.left.tape.layout) (entries_in sides.now.right.tape.bytes.now sides.now.right.tape.layout) }
{
    let mut a = 0;
    let mut b = 0;
    // an index, which is what code, value and text of an entry share
    for at in 0..sides.left.entries() {
        if !agrees_at(protected, sides, at, a, b) {
            return false;
        }
        a = behind(&sides.left, at, a);
        b = behind(&sides.right, at, b);
    }
    true
}

// Whether the entries of `right` are those of `left` but for names. A slice that does not hold its layout, which acceptance rules out, is
// never the same.
#[tactic(auto, using(crate::proofs::Steps::other_counts), unfolding(crate::specs::Entries::same_in))]
pub fn same_but_names(protected: &Protected, left: &Tape, right: &Tape) -> bool
    ensures { result ≡ same_in left.now.bytes.now left.now.layout right.now.bytes.now right.now.layout protected.now.registry.bytes.now protected.now.registry.layout protected.now.condition.bytes.now protected.now.condition.layout }
{
    let (Some(protected), Some(left), Some(right)) = (protected.held(), left.held(), right.held())
    else {
        return false;
    };
    left.entries() == right.entries() && same_entries(&protected, &Sides { left, right })
}
