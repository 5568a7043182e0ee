// The Rust's `Registry`: it keeps its definitions by a reference to the lent tape. Each function over it leaves the work to one over
// plain slices.
#![tactic(auto)]

ghost use Rattle.std.specs.Prelude.{◌≡◌, length};
ghost use Rattle.definition.specs.Answers.{expand_answer};
ghost use Rattle.definition.specs.Counts.{expand_counts};
ghost use Rattle.grammar.specs.Grammar.{definitions};
ghost use Rattle.tape.specs.Accept.{accept_of};
ghost use Rattle.answer.specs.Matches.{answer_with, buffers};
ghost use Rattle.registry.specs.Places.{index_at, get_at};
ghost use Rattle.registry_held.specs.Held.{layout_of, Builds, GetMatches};

use answer::Answer;
use expansion::Expanded;
use grammar::codes::DEFINITIONS;
use registry::counts::Counts;
use registry::{Definition, Index, Row};
use tape::accept::accept;
use tape::layout::{Layout, Tape, of_area};

// What building a registry came to: the operation's answer, and how an accepted tape is laid out. The state is none of it: it is the
// caller's, who has it first from `registry::counts::fresh`, and then from each expansion.
// `expand` answers for a refused registry too, as the operation does; a Result would take that away.
// No `Tape` is in it: document 01 names the form, a struct that keeps a reference to the lent tape, with thin functions over slices.
#[derive(Clone, Copy, Debug, PartialEq, Eq)]
pub struct Built {
    pub answer: Answer,
    pub layout: Layout,
}

#[derive(Clone, Copy, Debug)]
pub struct Registry<'a> {
    pub tape: &'a [u8],
    pub built: Built,
}

// The layout of a registry's tape, which only an accepted one has.
fn layout_of(tape: &[u8]) -> Layout
    ensures { result ≡ layout_of (accept_of tape.now definitions) }
{
    accept(tape, DEFINITIONS).unwrap_or(of_area(0, 0, 0))
}

fn build(tape: &[u8], message: &mut [u8]) -> Built
    ensures { Builds tape.now (length message.old) message.new result }
{
    let answer = registry::build(tape, message).answer;
    Built {
        answer,
        layout: layout_of(tape),
    }
}

// The definition of a name. A registry has 255 definitions at the most.
fn find_at(tape: &Tape, name: &[u8]) -> Option<Definition>
    ensures { result ≡ get_at tape.now.bytes.now tape.now.layout (index_at tape.now.bytes.now tape.now.layout 255) name.now }
{
    Index::new(tape, &mut [Row::EMPTY; 255]).get(name)
}

// The definition of a name in a registry that passed; one that did not holds none.
fn find(tape: &[u8], built: Built, name: &[u8]) -> Option<Definition>
    ensures { GetMatches tape.now built name.now result }
{
    let refused = built.answer.number != numbers::OK;
    if refused {
        return None;
    }
    let tape = Tape {
        bytes: tape,
        layout: built.layout,
    };
    find_at(&tape, name)
}

// `Registry::build` of the Rust: the tape is accepted and its names are checked. The answer says whether; a registry whose number is
// 0 passed, and one that did not holds no definitions.
pub fn new<'a>(tape: &'a [u8], message: &mut [u8]) -> Registry<'a>
    ensures { (result.tape ≡ tape.entry) × Builds tape.now (length message.old) message.new result.built }
{
    let built = build(tape, message);
    Registry { tape, built }
}

// `Registry::get`: the first definition of a name, as the definition finds it.
pub fn get<'a>(r: Registry<'a>, name: &[u8]) -> Option<Definition>
    ensures { GetMatches r.entry.tape.now r.entry.built name.now result }
{
    find(r.tape, r.built, name)
}

// The tape is handed to the operation, and so is the state, which it hands back.
pub fn expand<'a>(
    r: Registry<'a>,
    condition: &'a [u8],
    limit: u32,
    file: u16,
    res: &mut [u8],
    work: &mut [u8],
    message: &mut [u8],
    counts: Counts,
) -> Expanded
    ensures { (answer_with result.answer res.new work.new message.new ≡ expand_answer (buffers (length res.old) (length work.old) (length message.old)) limit file r.entry.tape.now condition.now) × (result.counts.of ≡ expand_counts (buffers (length res.old) (length work.old) (length message.old)) limit file r.entry.tape.now condition.now counts.of) }
{
    expansion::expand(r.tape, condition, limit, file, res, work, message, counts)
}
