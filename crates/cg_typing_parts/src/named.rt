// Parts of types by name.
#![tactic(auto)]

ghost use Rattle.std.specs.Prelude.{◌≡◌, ◌&&◌, ◌++◌, [], ◌∷◌, not, map, IfOk};
ghost use Rattle.std.specs.Option.{option_copied};
ghost use Rattle.std.specs.Str.{bytes_eq};
ghost use Rattle.cg_base.specs.Types.{type_of, part_of, to_parts};
ghost use Rattle.cg_typing.specs.Parts.{part_named, field_in as field_of, alternative_in as alternative_of, held as held_type, are_others_taken, is_last as is_last_of, is_whole, is_cell as is_cell_of, parts_with, with_part as with_part_of, all_parts_taken, all_taken as all_taken_of, may_be_put_over as may_be_put_over_of};
ghost use Rattle.cg_typing_parts.specs.Views.{piece_at, marked};

use cg_base::{Bound, Items, Memory, Name, Part, Sigil, Ty};
use cg_kinds::kinds_of;
use std::alloc::Global;

// Whether a part has this name.
fn is_named(part: &Part, name: &Name) -> bool
    ensures { result ≡ bytes_eq name.now part.now.name }
{
    name.bytes() == part.name.bytes()
}

// The first part of this name.
#[tactic(auto, using(crate::proofs::NamedSteps::named_steps))]
fn part_in<'a>(name: &Name, parts: &'a Items<Part>) -> Option<&'a Part>
    ensures { piece_at (option_copied result) ≡ part_named name.now (to_parts (map part_of parts.now)) }
{
    for part in parts.as_slice() {
        if is_named(part, name) {
            return Some(part);
        }
    }
    None
}

/// The field of this name of a record type; None exactly where the type is no record or has no such field. It takes no memory.
pub fn field_in<'a>(name: &Name, ty: &'a Ty) -> Option<&'a Part>
    ensures { piece_at (option_copied result) ≡ field_of name.now (type_of ty.now) }
{
    match ty {
        Ty::Fields(parts, _) => part_in(name, parts),
        _ => None,
    }
}

/// The alternative of this name of a variant type; None exactly where the type is no variant or has no such alternative. It takes no
/// memory.
pub fn alternative_in<'a>(name: &Name, ty: &'a Ty) -> Option<&'a Part>
    ensures { piece_at (option_copied result) ≡ alternative_of name.now (type_of ty.now) }
{
    match ty {
        Ty::Variant(parts) => part_in(name, parts),
        _ => None,
    }
}

/// The type of a part, or unit where there is none. Want of memory is its one refusal.
pub fn held(alloc: Global, part: Option<&Part>) -> Result<Ty, Memory>
    ensures { IfOk result (λ ty. type_of ty ≡ held_type (piece_at (option_copied part.entry))) }
{
    match part {
        Some(part) => part.ty.copy(alloc),
        None => Ok(Ty::Unit),
    }
}

// Whether every part of another name is taken.
#[tactic(auto, using(crate::proofs::NamedSteps::others_steps))]
fn others_taken(name: &Name, parts: &Items<Part>) -> bool
    ensures { result ≡ are_others_taken name.now (to_parts (map part_of parts.now)) }
{
    for part in parts.as_slice() {
        if !is_named(part, name) && !part.taken {
            return false;
        }
    }
    true
}

/// Whether no alternative of a variant type but the one of this name is left. It takes no memory.
pub fn is_last(name: &Name, ty: &Ty) -> bool
    ensures { result ≡ is_last_of name.now (type_of ty.now) }
{
    match ty {
        Ty::Variant(parts) => others_taken(name, parts),
        _ => false,
    }
}

// Whether no part is taken.
#[tactic(auto, using(crate::proofs::NamedSteps::whole_steps))]
fn whole(parts: &Items<Part>) -> bool
    ensures { result ≡ is_whole (to_parts (map part_of parts.now)) }
{
    for part in parts.as_slice() {
        if part.taken {
            return false;
        }
    }
    true
}

/// Whether a type is a record that can be written, of which no field is taken. It takes no memory.
pub fn is_cell(ty: &Ty) -> bool
    ensures { result ≡ is_cell_of (type_of ty.now) }
{
    match ty {
        Ty::Fields(parts, Sigil::W) => whole(parts),
        _ => false,
    }
}

/// Whether a part may be put over: it is there, and is taken or may be dropped. It takes no memory.
pub fn may_be_put_over(vars: &Items<Bound>, part: Option<&Part>) -> bool
    ensures { result ≡ may_be_put_over_of (map (λ b. b.kinds) vars.now) (piece_at (option_copied part.entry)) }
{
    match part {
        Some(part) => part.taken || kinds_of(&part.ty, vars).drop,
        None => false,
    }
}

// Adds a copy of a part, which is taken or not.
fn push_copy(
    alloc: Global,
    part: &Part,
    taken: bool,
    copies: &mut Items<Part>,
) -> Result<(), Memory>
    ensures { IfOk result (λ _. map part_of copies.new ≡ map part_of copies.old ++ marked taken (part_of part.now) ∷ []) }
{
    let name = part.name.copy(alloc)?;
    match part.ty.copy(alloc) {
        Ok(ty) => copies.push(Part { name, ty, taken }),
        Err(memory) => Err(memory),
    }
}

// Whether a part is the first of this name, where one before it was found or none.
fn is_first(found: bool, part: &Part, name: &Name) -> bool
    ensures { result ≡ (not found && bytes_eq name.now part.now.name) }
{
    !found && is_named(part, name)
}

// Copies of these parts, of which the first of this name is taken, or not.
fn copies_with(
    alloc: Global,
    name: &Name,
    taken: bool,
    parts: &Items<Part>,
) -> Result<Items<Part>, Memory>
    ensures { IfOk result (λ ps. to_parts (map part_of ps) ≡ parts_with name.now taken (to_parts (map part_of parts.now))) }
{
    let mut copies = Items::new(alloc);
    let mut found = false;
    for part in parts.as_slice() {
        let here = is_first(found, part, name);
        let marked = if here { taken } else { part.taken };
        push_copy(alloc, part, marked, &mut copies)?;
        found |= here;
    }
    Ok(copies)
}

/// A type in which the first part of this name is taken, or not, and all else as before; an equal type where it has no such part.
/// Want of memory is its one refusal.
pub fn with_part(alloc: Global, name: &Name, taken: bool, ty: &Ty) -> Result<Ty, Memory>
    ensures { IfOk result (λ t. type_of t ≡ with_part_of name.now taken (type_of ty.now)) }
{
    match ty {
        Ty::Variant(parts) => Ok(Ty::Variant(copies_with(alloc, name, taken, parts)?)),
        Ty::Fields(parts, sigil) => Ok(Ty::Fields(copies_with(alloc, name, taken, parts)?, *sigil)),
        _ => ty.copy(alloc),
    }
}

// Copies of these parts, all of them taken.
fn copies_taken(alloc: Global, parts: &Items<Part>) -> Result<Items<Part>, Memory>
    ensures { IfOk result (λ ps. to_parts (map part_of ps) ≡ all_parts_taken (to_parts (map part_of parts.now))) }
{
    let mut copies = Items::new(alloc);
    for part in parts.as_slice() {
        push_copy(alloc, part, true, &mut copies)?;
    }
    Ok(copies)
}

/// A record type with all fields taken, and an equal type where it is no record. Want of memory is its one refusal.
pub fn all_taken(alloc: Global, ty: &Ty) -> Result<Ty, Memory>
    ensures { IfOk result (λ t. type_of t ≡ all_taken_of (type_of ty.now)) }
{
    match ty {
        Ty::Fields(parts, sigil) => Ok(Ty::Fields(copies_taken(alloc, parts)?, *sigil)),
        _ => ty.copy(alloc),
    }
}
