// Types that are changed in place.
#![tactic(auto, using(crate::proofs::BangSteps::bang_steps, crate::proofs::ShapeSteps::shape_steps), unfolding(crate::specs::Kinds::bang, crate::specs::Shapes::shape))]

ghost use Rattle.std.specs.Prelude.{◌≡◌, map};
ghost use Rattle.cg_base.specs.Types.{type_of, part_of};
ghost use Rattle.cg_kinds.specs.Kinds.{bang as bang_of, bang_piece, bang_sigil};
ghost use Rattle.cg_kinds.specs.Shapes.{shape as shape_of, shape_piece, shape_sigil};

use cg_base::{Items, Part, Sigil, Ty};

/// The type of an observed value (docs/LANGUAGE.md, "Kinds and bang"). The type is changed in place, so it takes no
/// memory.
pub fn bang(ty: Ty) -> Ty
    ensures { type_of result ≡ bang_of (type_of ty) }
{
    let mut observed = ty;
    bang_in(&mut observed);
    observed
}

#[cycle(bang)]
fn bang_in(ty: &mut Ty)
    ensures { type_of ty.new ≡ bang_of (type_of ty.old) }
{
    match ty {
        Ty::Var(variable) => *ty = Ty::Seen(*variable),
        Ty::Seen(_) => {}
        Ty::Unit => {}
        Ty::Word(_) => {}
        Ty::Bool => {}
        Ty::Arrow(_, _) => {}
        Ty::Abs(_name, args, sigil) => {
            bang_types(args);
            *sigil = observed_sigil(*sigil);
        }
        Ty::Variant(alternatives) => bang_parts(alternatives),
        Ty::Fields(parts, sigil) => {
            bang_parts(parts);
            *sigil = observed_sigil(*sigil);
        }
    }
}

fn observed_sigil(sigil: Sigil) -> Sigil
    ensures { result ≡ bang_sigil sigil }
{
    match sigil {
        Sigil::W => Sigil::R,
        Sigil::R => Sigil::R,
        Sigil::U => Sigil::U,
    }
}

#[cycle(bang)]
fn bang_types(types: &mut Items<Ty>)
    ensures { map type_of types.new ≡ map bang_of (map type_of types.old) }
{
    let items = types.as_mut_slice();
    for i in 0..items.len() {
        bang_in(&mut items[i]);
    }
}

#[cycle(bang)]
fn bang_parts(parts: &mut Items<Part>)
    ensures { map part_of parts.new ≡ map bang_piece (map part_of parts.old) }
{
    let items = parts.as_mut_slice();
    for i in 0..items.len() {
        bang_in(&mut items[i].ty);
    }
}

/// The shape of a type: the type with nothing taken and nothing observed, its arrows and type variables as they are. Two
/// types of one cell must have one shape (docs/LANGUAGE.md, "Layout"). The type is changed in place, so it takes no
/// memory.
pub fn shape(ty: Ty) -> Ty
    ensures { type_of result ≡ shape_of (type_of ty) }
{
    let mut shaped = ty;
    shape_in(&mut shaped);
    shaped
}

#[cycle(shape)]
fn shape_in(ty: &mut Ty)
    ensures { type_of ty.new ≡ shape_of (type_of ty.old) }
{
    match ty {
        Ty::Var(_) => {}
        Ty::Seen(_) => {}
        Ty::Unit => {}
        Ty::Word(_) => {}
        Ty::Bool => {}
        Ty::Arrow(_, _) => {}
        Ty::Abs(_name, args, sigil) => {
            shape_types(args);
            *sigil = unobserved_sigil(*sigil);
        }
        Ty::Variant(alternatives) => shape_parts(alternatives),
        Ty::Fields(parts, sigil) => {
            shape_parts(parts);
            *sigil = unobserved_sigil(*sigil);
        }
    }
}

fn unobserved_sigil(sigil: Sigil) -> Sigil
    ensures { result ≡ shape_sigil sigil }
{
    match sigil {
        Sigil::W => Sigil::W,
        Sigil::R => Sigil::W,
        Sigil::U => Sigil::U,
    }
}

#[cycle(shape)]
fn shape_types(types: &mut Items<Ty>)
    ensures { map type_of types.new ≡ map shape_of (map type_of types.old) }
{
    let items = types.as_mut_slice();
    for i in 0..items.len() {
        shape_in(&mut items[i]);
    }
}

#[cycle(shape)]
fn shape_parts(parts: &mut Items<Part>)
    ensures { map part_of parts.new ≡ map shape_piece (map part_of parts.old) }
{
    let items = parts.as_mut_slice();
    for i in 0..items.len() {
        shape_part(&mut items[i]);
    }
}

#[cycle(shape)]
fn shape_part(part: &mut Part)
    ensures { part_of part.new ≡ shape_piece (part_of part.old) }
{
    shape_in(&mut part.ty);
    part.taken = false;
}
