// The rows of a registry's definitions: where each stands, and the key of its name, by which a name is looked for.
ghost use Rattle.std.specs.Prelude.{◌≡◌, length};
ghost use Rattle.registry.specs.Places.{end_of, index_at, get_at, build_at};

use crate::{check_name, index, key_of};
use grammar::code;
use messages::Refused;
use nodes::{Definition, name_at, read_heading};
use tape::layout::{Layout, Place, Tape};

// Where a definition stands, and the key of its name.
#[derive(Clone, Copy, Debug, PartialEq, Eq)]
pub struct Row {
    pub place: Place,
    pub key: u32,
}

impl Row {
    // What a table has before it is written.
    pub const EMPTY: Row = Row {
        place: Place::START,
        key: 0,
    };
}

// A registry's tape, and the rows of its definitions in their order.
#[derive(Clone, Copy, Debug)]
pub struct Index<'a, 'b> {
    pub tape: Tape<'a>,
    pub rows: &'b [Row],
}

impl<'a, 'b> Index<'a, 'b> {
    // The index of a registry, whose rows stand in a lent table. A tape has 1,024 entries at the most, and a definition four at the least,
    // so 255 rows are room enough. A vector of the index's own would be copied, 6 KB, wherever the index is moved.
    #[tactic(auto, unfolding(crate::specs::Places::index_at))]
    pub fn new(tape: &Tape<'a>, table: &'b mut [Row]) -> Index<'a, 'b>
        ensures tape { result.tape ≡ tape.now }
        ensures rows { result.rows.now ≡ index_at tape.now.bytes.now tape.now.layout (length table.old) }
    {
        let count = index(tape, table);
        Index {
            tape: *tape,
            rows: &table[..count],
        }
    }
}

impl Index<'_, '_> {
    // `Registry::get`: the first definition of a name.
    pub fn get(&self, name: &[u8]) -> Option<Definition>
        ensures { result ≡ get_at self.now.tape.bytes.now self.now.tape.layout self.now.rows.now name.now }
    {
        first_named(&self.tape, self.rows, name)
    }

    // `Registry::build`: each definition's name, against the reserved names and those of the definitions before it.
    #[tactic(auto, using(crate::proofs::Steps::build_start, crate::proofs::Steps::build_more, crate::proofs::Steps::build_refused, crate::proofs::Steps::build_done))]
    pub fn check_names(&self) -> Result<(), Refused>
        ensures { result ≡ build_at self.now.tape.bytes.now self.now.tape.layout self.now.rows.now }
    {
        for (i, row) in self.rows.iter().enumerate() {
            check_name(&self.tape, &self.rows[..i], row.place)?;
        }
        Ok(())
    }
}

// A definition ends where the next row's begins, and the last one where the entries end. A layout is enough: no byte is read.
#[tactic(auto, unfolding(crate::specs::Places::end_of))]
fn end_of(l: Layout, behind: &[Row]) -> usize
    ensures { result ≡ end_of l behind.now }
{
    match behind {
        [next, ..] => next.place.at,
        [] => l.entries,
    }
}

// The first definition of a name among some rows. A heading is read only where the key is the name's: for the names of a registry each
// row is asked by all later ones, so a turn compares two numbers.
#[tactic(auto, using(crate::proofs::Steps::get_other, crate::proofs::Steps::get_unread, crate::proofs::Steps::get_next, crate::proofs::Steps::get_done))]
pub(crate) fn first_named(tape: &Tape, rows: &[Row], name: &[u8]) -> Option<Definition>
    ensures { result ≡ get_at tape.now.bytes.now tape.now.layout rows.now name.now }
{
    let key = key_of(name);
    for (i, row) in rows.iter().enumerate() {
        if row.key == key {
            let (heading, params) = read_heading(tape, row.place, code::DEFINITION).ok()?;
            if name_at(tape, heading.name) == name {
                let end = end_of(tape.layout, &rows[i + 1..]);
                return Some(Definition {
                    heading,
                    params,
                    end,
                });
            }
        }
    }
    None
}
