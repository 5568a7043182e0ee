// What a walk writes: the body's own entries as they stand, an argument, which is charged before it is copied, or a generated name.
ghost use Rattle.std.specs.Prelude.{◌≡◌};
ghost use Rattle.walk_state.specs.Writing.{Walks, Moves, progress, state_at, going_at};
ghost use Rattle.subst_state.specs.Maps.{maps_at};
ghost use Rattle.subst_state.specs.Output.{charged_for, copy_own_in, paste_in, charge_paste_in, gensym_in};

use crate::maps::{Argument, Substitution, charge};
use crate::run::{copy, copy_to};
use messages::{Reason, Refused, refuse};
use nodes::{Name, name_at, span_of};
use tape::layout::Place;
use walk_state::writing::Cursor;

impl Substitution<'_> {
    // Appends the body's own entries up to `next`.
    #[tactic(auto, unfolding(crate::specs::Output::copy_own_in))]
    pub fn copy_own(&self, c: &mut Cursor, next: Place)
        ensures { Moves c.old c.new (copy_own_in self.now.definition.bytes.now (maps_at self.now) (state_at c.old) next c.old.bytes.now) }
    {
        copy_to(&self.definition, c, next);
    }

    // Appends an argument, in the place of what ends at `next`.
    #[tactic(auto, unfolding(crate::specs::Output::paste_in))]
    pub fn paste(&self, c: &mut Cursor, arg: Argument, next: Place)
        ensures { Moves c.old c.new (paste_in self.now.call.bytes.now (maps_at self.now) arg next (going_at c.old)) }
    {
        copy(&self.definition, &self.call, true, arg.from, arg.to, c);
        c.place = next;
    }

    // Charges nodes, or answers 35 with the call's span.
    #[tactic(auto, unfolding(crate::specs::Output::charged_for))]
    pub fn charge_nodes(&self, c: &mut Cursor, nodes: usize) -> Result<(), Refused>
        ensures { Walks c.old c.new result (progress (charged_for (maps_at self.now) nodes (state_at c.old)) c.old.bytes.now) }
    {
        let Some(charged) = charge(self.limit, c.charged, nodes) else {
            return Err(refuse(self.call_span, Reason::Budget(self.limit)));
        };
        c.charged = charged;
        Ok(())
    }

    // One paste of an argument is charged before the argument is copied.
    #[tactic(auto, unfolding(crate::specs::Output::charge_paste_in, crate::specs::Output::paste_in))]
    pub fn charge_paste(&self, c: &mut Cursor, arg: Argument, next: Place) -> Result<(), Refused>
        ensures { Walks c.old c.new result (charge_paste_in self.now.call.bytes.now (maps_at self.now) arg (state_at c.old) next c.old.bytes.now) }
    {
        self.charge_nodes(c, arg.size)?;
        self.paste(c, arg, next);
        Ok(())
    }

    // `$t` becomes t, `$`, the call's start and, in a file above 0, `#` and the file number, so it has the same name at each place
    // within a call.
    #[tactic(auto, unfolding(crate::specs::Output::gensym_in, nodes::specs::Node::span_of))]
    pub fn gensym_for(&self, c: &mut Cursor, code: u8, name: Name, next: Place)
        ensures { Moves c.old c.new (gensym_in self.now.definition.bytes.now (maps_at self.now) code name (state_at c.old) next c.old.bytes.now) }
    {
        let start = span_of(self.call_span).start;
        c.put_generated(code, name_at(&self.definition, name), start, self.file);
        c.place = next;
    }
}
