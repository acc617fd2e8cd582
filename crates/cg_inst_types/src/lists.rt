// Lists of types in a table.

ghost use Rattle.std.specs.Prelude.{◌≡◌, ◌<◌, ◌∷◌, [], length, map, slice_get, IfNone, IfOk, IfSome, Some};
ghost use Rattle.cg_inst_types.specs.Places.{Each, Keeps, type_at};
ghost use Rattle.cg_inst_types.specs.Listings.{IsListing, list_at, listing};

use crate::{Layers, Node};
use cg_base::{Memory, Name, Sigil};
use std::alloc::Global;

impl Layers {
    // The place of the list of no types, entered where it isn't there.
    pub(crate) fn enter_none(&mut self, alloc: Global) -> Result<u32, Memory>
        ensures place { IfOk result (λ at. slice_get self.new.types at ≡ Some (listing [])) }
        ensures kept { Keeps self.old.types self.new.types }
    {
        let name = Name::new(alloc, &[])?;
        self.place_abstract(alloc, &name, Sigil::U)
    }

    // The place of a list with one type more, in front of the others, entered where it isn't there.
    pub(crate) fn enter_more(&mut self, list: u32, ty: u32) -> Result<u32, Memory>
        requires list { IsListing self.old.types list }
        requires ty { ty < length self.old.types }
        ensures place { IfOk result (λ at. slice_get self.new.types at ≡ Some (listing (type_at self.old.types ty ∷ list_at self.old.types list))) }
        ensures kept { Keeps self.old.types self.new.types }
    {
        self.place(Node::Argument { rest: list, ty })
    }

    // The places of the types of a list, in order.
    pub(crate) fn list(&self, alloc: Global, at: u32) -> Result<Vec<u32>, Memory>
        requires { IsListing self.now.types at }
        ensures types { IfOk result (λ ids. map (type_at self.now.types) ids.items ≡ list_at self.now.types at) }
        ensures within { IfOk result (λ ids. Each (λ id. id < length self.now.types) ids.items) }
    {
        let mut types = Vec::new(alloc);
        let mut rest = at;
        for _ in 0..u32::MAX {
            match self.first(rest) {
                Some((ty, next)) => {
                    types.push(ty)?;
                    rest = next;
                }
                None => return Ok(types),
            }
        }
        Err(Memory)
    }

    // The place of the first type of a list, and of the list of the others; None where the list has no types.
    fn first(&self, at: u32) -> Option<(u32, u32)>
        requires { IsListing self.now.types at }
        ensures found { IfSome result (λ p. list_at self.now.types at ≡ type_at self.now.types p.0 ∷ list_at self.now.types p.1) }
        ensures within { IfSome result (λ p. p.0 < length self.now.types) }
        ensures rest { IfSome result (λ p. IsListing self.now.types p.1) }
        ensures absent { IfNone result (list_at self.now.types at ≡ []) }
    {
        match self.node(at)? {
            Node::Argument { rest, ty } => Some((ty, rest)),
            _ => None,
        }
    }
}
