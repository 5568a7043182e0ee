// The checks of the names, withins, slots and binders of a body.
#![tactic(auto)]

ghost use Rattle.std.specs.Prelude.{◌≡◌, Ok};
ghost use Rattle.definition.specs.Check.{contains};
ghost use Rattle.nodes.specs.Node.{name_at};
ghost use Rattle.check_parts.specs.Names.{declaration, declared_in, param_in, plain_in, sigil_in, slot_in, within_in, binder_in, binders_in};

use message_parts::names::Params;
use messages::{Reason, Refused, refuse};
use nodes::{Name, Sigil, SlotNode, WithinNode, name_at, read_param, read_slot, read_within};
use tape::layout::{Place, Tape};
use walk_state::reading::{along, binder};

// A definition's tape and its parameters.
#[derive(Clone, Copy, Debug)]
pub struct Declared<'a> {
    pub tape: Tape<'a>,
    pub params: Params,
}

impl Declared<'_> {
    // Whether a name is declared. The search ends at the name: those for the least name and for the last parameter of a name go on to the
    // end, so that each of the three loops over parameters has another body and another end, and what they share is `read_param`.
    #[tactic(auto, using(nodes::proofs::Texts::equal_texts, crate::proofs::Steps::none_declared, crate::proofs::Steps::no_param, crate::proofs::Steps::is_declared, crate::proofs::Steps::other_declared))]
    fn contains(&self, name: Name) -> bool
        ensures { result ≡ contains (declared_in self.now.tape.bytes.now (declaration self.now)) (name_at self.now.tape.bytes.now self.now.tape.layout name) }
    {
        let wanted = name_at(&self.tape, name);
        let mut p = self.params.place;
        for _ in 0..self.params.count {
            let Some((param, next)) = read_param(&self.tape, p) else {
                return false;
            };
            if name_at(&self.tape, param) == wanted {
                return true;
            }
            p = next;
        }
        false
    }

    // `?name`, in any of its places.
    #[tactic(auto, unfolding(crate::specs::Names::param_in, walk_state::specs::Reading::refused_in))]
    pub fn check_param(&self, span: u64, name: Name, next: Place) -> Result<Place, Refused>
        ensures { result ≡ param_in self.now.tape.bytes.now (declaration self.now) span name next }
    {
        if self.contains(name) {
            Ok(next)
        } else {
            Err(refuse(span, Reason::Undeclared(name, self.params)))
        }
    }

    // `$` as a whole condition passes: it is 43 once it is substituted.
    #[tactic(auto, unfolding(crate::specs::Names::sigil_in))]
    pub fn check_sigil_ref(
        &self,
        span: u64,
        sigil: Sigil,
        name: Name,
        next: Place,
    ) -> Result<Place, Refused>
        ensures { result ≡ sigil_in self.now.tape.bytes.now (declaration self.now) span sigil name next }
    {
        match sigil {
            Sigil::Param => self.check_param(span, name, next),
            Sigil::Binder => Ok(next),
        }
    }

    #[tactic(auto, unfolding(crate::specs::Names::within_in, walk_state::specs::Reading::without_message_of))]
    pub fn check_within_in_body(&self, span: u64, p: Place) -> Result<Place, Refused>
        ensures { result ≡ within_in self.now.tape.bytes.now (declaration self.now) span (Ok p) }
    {
        let (node, next) = read_within(&self.tape, p)?;
        match node {
            WithinNode::Concrete => Ok(next),
            WithinNode::ParamRef(name) => self.check_param(span, name, next),
        }
    }

    #[tactic(auto, unfolding(crate::specs::Names::slot_in, walk_state::specs::Reading::without_message_of))]
    pub fn check_binder_slot(&self, span: u64, p: Place) -> Result<Place, Refused>
        ensures { result ≡ slot_in self.now.tape.bytes.now (declaration self.now) span (Ok p) }
    {
        let (node, next) = read_slot(&self.tape, p)?;
        match node {
            SlotNode::Name(name) => plain_ident_in_body(name, span),
            SlotNode::ParamRef(name) => self.check_param(span, name, next),
            SlotNode::BinderRef(_) => Ok(next),
        }
    }

    // A slot and its type.
    #[tactic(auto, unfolding(crate::specs::Names::binder_in))]
    pub fn check_binder(&self, span: u64, p: Place) -> Result<Place, Refused>
        ensures { result ≡ binder_in self.now.tape.bytes.now (declaration self.now) span (Ok p) }
    {
        binder(&self.tape, p, |q| self.check_binder_slot(span, q))
    }

    // A list of slots with types.
    pub fn check_binders(&self, span: u64, p: Place) -> Result<Place, Refused>
        ensures { result ≡ binders_in self.now.tape.bytes.now (declaration self.now) span (Ok p) }
    {
        along(&self.tape, p, |q| self.check_binder(span, q))
    }
}

#[tactic(auto, unfolding(walk_state::specs::Reading::refused_in))]
pub fn plain_ident_in_body(name: Name, span: u64) -> Result<Place, Refused>
    ensures { result ≡ plain_in name span }
{
    Err(refuse(span, Reason::PlainIdentifier(name)))
}
