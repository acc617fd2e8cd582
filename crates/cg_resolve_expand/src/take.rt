// Types of which fields are taken, changed in place.
#![tactic(auto, using(std::proofs::lemmas::Grind::common_steps, crate::proofs::TakeSteps::take_steps))]

ghost use Rattle.std.specs.Prelude.{◌≡◌, map};
ghost use Rattle.cg_base.specs.Types.{type_of, part_of};
ghost use Rattle.cg_resolve_def.specs.Declared.{is_among};
ghost use Rattle.cg_resolve_def.specs.Expand.{take_of, taken_parts, all_taken};
ghost use Rattle.cg_resolve_expand.specs.Taken.{names_in, taken_piece, all_taken_piece};

use cg_base::{Items, Part, Ty};
use cg_core::At;

/// A record type of which the fields of these names are taken; any other type as it is (docs/LANGUAGE.md, "Types"). It takes
/// no memory.
pub(crate) fn take_some(ty: Ty, names: &[At]) -> Ty
    ensures { type_of result ≡ take_of (taken_parts (names_in names.now)) (type_of ty) }
{
    let mut taken = ty;
    take_some_in(&mut taken, names);
    taken
}

/// A record type of which all fields are taken; any other type as it is (docs/LANGUAGE.md, "Types"). It takes no memory.
pub(crate) fn take_all(ty: Ty) -> Ty
    ensures { type_of result ≡ take_of all_taken (type_of ty) }
{
    let mut taken = ty;
    take_all_in(&mut taken);
    taken
}

fn take_some_in(ty: &mut Ty, names: &[At])
    ensures { type_of ty.new ≡ take_of (taken_parts (names_in names.now)) (type_of ty.old) }
{
    match ty {
        Ty::Var(_) => {}
        Ty::Seen(_) => {}
        Ty::Unit => {}
        Ty::Word(_) => {}
        Ty::Bool => {}
        Ty::Arrow(_, _) => {}
        Ty::Abs(_, _, _) => {}
        Ty::Variant(_) => {}
        Ty::Fields(parts, _sigil) => mark_some(parts, names),
    }
}

fn take_all_in(ty: &mut Ty)
    ensures { type_of ty.new ≡ take_of all_taken (type_of ty.old) }
{
    match ty {
        Ty::Var(_) => {}
        Ty::Seen(_) => {}
        Ty::Unit => {}
        Ty::Word(_) => {}
        Ty::Bool => {}
        Ty::Arrow(_, _) => {}
        Ty::Abs(_, _, _) => {}
        Ty::Variant(_) => {}
        Ty::Fields(parts, _sigil) => mark_all(parts),
    }
}

// Marks the parts of these names as taken.
fn mark_some(parts: &mut Items<Part>, names: &[At])
    ensures { map part_of parts.new ≡ map (taken_piece (names_in names.now)) (map part_of parts.old) }
{
    let items = parts.as_mut_slice();
    for i in 0..items.len() {
        mark(&mut items[i], names);
    }
}

// Marks a part as taken, where it has one of these names.
fn mark(part: &mut Part, names: &[At])
    ensures { part_of part.new ≡ taken_piece (names_in names.now) (part_of part.old) }
{
    if is_among(names, part.name.bytes()) {
        part.taken = true;
    }
}

// Marks all parts as taken.
fn mark_all(parts: &mut Items<Part>)
    ensures { map part_of parts.new ≡ map all_taken_piece (map part_of parts.old) }
{
    let items = parts.as_mut_slice();
    for i in 0..items.len() {
        items[i].taken = true;
    }
}

// Whether a name is among these.
fn is_among(names: &[At], name: &[u8]) -> bool
    ensures { result ≡ is_among (names_in names.now) name.now }
{
    for other in names {
        if name == other.name.bytes() {
            return true;
        }
    }
    false
}
