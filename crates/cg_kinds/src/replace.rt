// Substitution.
#![tactic(auto, using(crate::proofs::SubstSteps::subst_steps), unfolding(crate::specs::Kinds::subst))]

ghost use Rattle.std.specs.Prelude.{◌≡◌, map, slice_get, IfOk};
ghost use Rattle.cg_base.specs.Types.{type_of, part_of};
ghost use Rattle.cg_kinds.specs.Kinds.{subst as subst_of, subst_piece, or_unit};

use crate::change::bang;
use cg_base::{Items, Memory, Part, Ty};
use std::alloc::Global;

/// The type with an argument for each of its variables, by position: `Var` becomes the argument itself, and `Seen`
/// its bang (docs/LANGUAGE.md, "Kinds and bang"); a variable that has no argument becomes the unit type. The one error is
/// want of memory.
#[cycle(subst)]
pub fn subst(alloc: Global, ty: &Ty, args: &Items<Ty>) -> Result<Ty, Memory>
    ensures { IfOk result (λ t. type_of t ≡ subst_of (map type_of args.now) (type_of ty.now)) }
{
    match ty {
        Ty::Var(variable) => argument(alloc, args, *variable),
        Ty::Seen(variable) => Ok(bang(argument(alloc, args, *variable)?)),
        Ty::Unit => Ok(Ty::Unit),
        Ty::Word(word) => Ok(Ty::Word(*word)),
        Ty::Bool => Ok(Ty::Bool),
        Ty::Arrow(from, to) => {
            let from = Box::new(alloc, subst(alloc, from, args)?)?;
            let to = Box::new(alloc, subst(alloc, to, args)?)?;
            Ok(Ty::Arrow(from, to))
        }
        Ty::Abs(name, types, sigil) => {
            let name = name.copy(alloc)?;
            Ok(Ty::Abs(name, subst_types(alloc, types, args)?, *sigil))
        }
        Ty::Variant(alternatives) => Ok(Ty::Variant(subst_parts(alloc, alternatives, args)?)),
        Ty::Fields(parts, sigil) => Ok(Ty::Fields(subst_parts(alloc, parts, args)?, *sigil)),
    }
}

// A copy of the argument for a variable.
#[inline(never)]
fn argument(alloc: Global, args: &Items<Ty>, variable: u32) -> Result<Ty, Memory>
    ensures { IfOk result (λ t. type_of t ≡ or_unit (slice_get (map type_of args.now) variable)) }
{
    match args.get(variable as usize) {
        Some(arg) => arg.copy(alloc),
        None => Ok(Ty::Unit),
    }
}

#[cycle(subst)]
fn subst_types(alloc: Global, types: &Items<Ty>, args: &Items<Ty>) -> Result<Items<Ty>, Memory>
    ensures { IfOk result
        (λ ts. map type_of ts ≡ map (subst_of (map type_of args.now)) (map type_of types.now)) }
{
    let mut replaced = Items::new(alloc);
    for ty in types.as_slice() {
        replaced.push(subst(alloc, ty, args)?)?;
    }
    Ok(replaced)
}

#[cycle(subst)]
fn subst_parts(alloc: Global, parts: &Items<Part>, args: &Items<Ty>) -> Result<Items<Part>, Memory>
    ensures { IfOk result
        (λ ps. map part_of ps ≡ map (subst_piece (map type_of args.now)) (map part_of parts.now)) }
{
    let mut replaced = Items::new(alloc);
    for part in parts.as_slice() {
        replaced.push(Part {
            name: part.name.copy(alloc)?,
            ty: subst(alloc, &part.ty, args)?,
            taken: part.taken,
        })?;
    }
    Ok(replaced)
}
