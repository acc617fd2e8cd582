// The fields of a record, and the directions in which they are checked.
#![tactic(auto, using(crate::proofs::FieldSteps::field_steps))]

ghost use Rattle.std.specs.Prelude.{◌≡◌, IfOk, false, map, reverse};
ghost use Rattle.std.specs.Option.{option_copied};
ghost use Rattle.cg_base.specs.Types.{part as one_part, part_of, to_parts, type_of};
ghost use Rattle.cg_core.specs.Derivations as derivations;
ghost use Rattle.cg_core.specs.Derivations.{derivation_of};
ghost use Rattle.cg_core.specs.Kernels.{the_core};
ghost use Rattle.cg_core.specs.Terms.{field as one_field};
ghost use Rattle.cg_faults.specs.Events.{field_directions, later_directions, next_direction, part_directions};
ghost use Rattle.cg_check_pieces.specs.Fields.{cores_back, parts_back, trees_back};
ghost use Rattle.cg_check_pieces.specs.View.{way_of};

use cg_base::{Items, Memory, Name, Part, Ty};
use cg_core::{Deriv, FieldTerm, Term, Typed};
use std::alloc::Global;

/// A list the other way round.
#[tactic(auto, using(crate::proofs::FieldSteps::turn_steps))]
pub fn turned<T>(items: Items<T>) -> Items<T>
    ensures { result ≡ reverse items }
{
    let mut items = items;
    items.as_mut_slice().reverse();
    items
}

/// Puts the type of a field in front of those of later ones, which stand in the list from behind. Want of memory is its one refusal.
pub fn add_part(alloc: Global, name: &Name, ty: &Ty, parts: &mut Items<Part>) -> Result<(), Memory>
    ensures { IfOk result (λ _. parts_back parts.new ≡ one_part name.now (type_of ty.now) false (parts_back parts.old)) }
{
    let name = name.copy(alloc)?;
    let ty = ty.copy(alloc)?;
    parts.push(Part {
        name,
        ty,
        taken: false,
    })
}

/// Puts its core in front of theirs. Want of memory is its one refusal.
pub fn add_core(
    alloc: Global,
    name: &Name,
    core: Box<Term<Typed>>,
    cores: &mut Items<FieldTerm<Typed>>,
) -> Result<(), Memory>
    ensures { IfOk result (λ _. cores_back cores.new ≡ one_field name.now (the_core core.value) (cores_back cores.old)) }
{
    let name = name.copy(alloc)?;
    let term = Box::into_inner(core);
    cores.push(FieldTerm { name, term })
}

/// Puts its derivation in front of theirs. Want of memory is its one refusal.
pub fn add_tree(tree: Deriv, trees: &mut Items<Deriv>) -> Result<(), Memory>
    ensures { IfOk result (λ _. trees_back trees.new ≡ derivations.part (derivation_of tree) (trees_back trees.old)) }
{
    trees.push(tree)
}

/// The parts of a record type that is a direction; none of another.
#[tactic(auto, unfolding(cg_base::specs::Types::to_parts), using(crate::proofs::FieldSteps::wanted_steps))]
pub fn parts_of(direction: Option<&Ty>) -> &[Part]
    ensures { part_directions (to_parts (map part_of result.now)) ≡ field_directions (way_of (option_copied direction.entry)) }
{
    match direction {
        Some(Ty::Fields(parts, _)) => parts.as_slice(),
        _ => &[],
    }
}

/// The direction of the next field.
#[tactic(auto, using(crate::proofs::FieldSteps::wanted_steps))]
pub fn next_wanted(parts: &[Part]) -> Option<&Ty>
    ensures { way_of (option_copied result) ≡ next_direction (part_directions (to_parts (map part_of parts.now))) }
{
    match parts {
        [] => None,
        [part, ..] => Some(&part.ty),
    }
}

/// Those of the later ones.
#[tactic(auto, using(crate::proofs::FieldSteps::wanted_steps))]
pub fn later_wanted(parts: &[Part]) -> &[Part]
    ensures { part_directions (to_parts (map part_of result.now)) ≡ later_directions (part_directions (to_parts (map part_of parts.now))) }
{
    match parts {
        [] => parts,
        [_, rest @ ..] => rest,
    }
}
