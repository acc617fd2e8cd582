// Layers of types, each entered with the types below it by their places.
#![tactic(auto, unfolding(cg_base::specs::Types::to_parts), using(crate::proofs::Layers::layer_steps, std::proofs::lemmas::Grind::common_steps))]

ghost use Rattle.std.specs.Prelude.{◌≡◌, ◌≤◌, zero, length, map, slice_get, IfOk, Some};
ghost use Rattle.cg_base.specs.Types.{part_of, to_parts, type_of};
ghost use Rattle.cg_inst_types.specs.Places.{Keeps};
ghost use Rattle.cg_lower_tables.specs.Tables.{made, parts_at, variables_from};

use crate::{Kind, Member, Structs};
use cg_base::{Items, Memory, Name, Part, Sigil, Ty};
use std::alloc::Global;

// A part for each of these, of the type variable of its place.
fn variables(alloc: Global, members: &[Member]) -> Result<Items<Part>, Memory>
    requires { length members.now ≤ 4294967296 }
    ensures { IfOk result (λ parts. map part_of parts ≡ variables_from zero members.now) }
{
    let mut parts = Items::new(alloc);
    for i in 0..members.len() {
        parts.push(Part {
            name: Name::new(alloc, &[])?,
            ty: Ty::Var(i as u32),
            taken: false,
        })?;
    }
    Ok(parts)
}

// The places of these.
fn places(alloc: Global, members: &[Member]) -> Result<Vec<u32>, Memory>
    ensures { IfOk result (λ places. places.items ≡ map (λ m. m.at) members.now) }
{
    let mut places = Vec::new(alloc);
    for member in members {
        places.push(member.at)?;
    }
    Ok(places)
}

// The type of a kind with these parts.
fn with_parts(kind: Kind, parts: Items<Part>) -> Ty
    ensures { type_of result ≡ made kind (to_parts (map part_of parts)) }
{
    match kind {
        Kind::Variant => Ty::Variant(parts),
        Kind::Unboxed => Ty::Fields(parts, Sigil::U),
        Kind::Boxed => Ty::Fields(parts, Sigil::W),
    }
}

// The type of a kind with as many parts, of type variables.
fn layer_type(alloc: Global, kind: Kind, members: &[Member]) -> Result<Ty, Memory>
    requires { length members.now ≤ 4294967296 }
    ensures { IfOk result (λ ty. type_of ty ≡ made kind (to_parts (variables_from zero members.now))) }
{
    let parts = variables(alloc, members)?;
    Ok(with_parts(kind, parts))
}

impl Structs {
    // The place of the type of a kind whose parts these stand for.
    pub(crate) fn layer(
        &mut self,
        alloc: Global,
        kind: Kind,
        members: &[Member],
    ) -> Result<u32, Memory>
        requires { length members.now ≤ 4294967296 }
        ensures place { IfOk result (λ at. slice_get self.new.types at ≡ Some (made kind (parts_at self.old.types members.now))) }
        ensures kept { Keeps self.old.types self.new.types }
        ensures table { self.new.table ≡ self.old.table }
    {
        let places = places(alloc, members)?;
        let ty = layer_type(alloc, kind, members)?;
        let at = self.enter(alloc, &ty, places.as_slice());
        drop(ty);
        at
    }
}
