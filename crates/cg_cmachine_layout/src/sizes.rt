// How many slots structs have, and where their members stand.
ghost use Rattle.std.specs.Prelude.{◌≡◌, ◌+◌, ◌++◌, [], ◌∷◌, map, length, get_or, set, replicate, IfOk, IfSome, OnOk};
ghost use Rattle.std.specs.List.{AllZip};
ghost use Rattle.cg_cmachine_layout.specs.Tables.{IsRow, place_of, placed, sized, slices, slots, slots_in, slots_of, struct_slots, type_of};

use crate::circles::Settled;
use crate::counted::{Counted, Offset, slots};
use crate::index::{Names, find, index_members};
use cg_base::{Memory, Name};
use cg_ctree::{CDecl, CTy};
use std::alloc::Global;

/// The members of a struct: their places by their names, and where they stand.
#[derive(Drop)]
pub(crate) struct Row<'a> {
    pub names: Names<'a>,
    pub parts: Vec<Offset<'a>>,
}

/// A type with the slots that these sizes of structs give it.
pub(crate) fn kind_of<'a>(names: &Names<'_>, sizes: &[u32], ty: &'a CTy) -> Counted<'a>
    ensures ty { type_of result ≡ ty.now }
    ensures slots { slots_in result ≡ slots_of names.now sizes.now ty.now }
{
    match ty {
        CTy::Word(word) => Counted::Word(*word),
        CTy::Pointer(name) => Counted::Pointer(name),
        CTy::Struct(name) => Counted::Struct(name, struct_slots(names, sizes, name)),
    }
}

/// The slots of a type.
fn slots_of(names: &Names<'_>, sizes: &[u32], ty: &CTy) -> u32
    ensures { result ≡ slots_of names.now sizes.now ty.now }
{
    match ty {
        CTy::Struct(name) => struct_slots(names, sizes, name),
        CTy::Word(_) | CTy::Pointer(_) => 1,
    }
}

/// The slots of a struct; none where it isn't declared.
pub(crate) fn struct_slots(names: &Names<'_>, sizes: &[u32], name: &Name) -> u32
    ensures { result ≡ struct_slots names.now sizes.now name.now }
{
    match find(names, name) {
        Some(at) => size_at(sizes, at as usize),
        None => 0,
    }
}

/// The size at a place.
fn size_at(sizes: &[u32], at: usize) -> u32
    ensures { result ≡ get_or sizes.now at 0 }
{
    if at < sizes.len() { sizes[at] } else { 0 }
}

/// The slots of each struct, where each stands in the order behind those that it holds.
pub(crate) fn sizes(
    alloc: Global,
    names: &Names<'_>,
    settled: &Settled<'_>,
) -> Result<Vec<u32>, Memory>
    ensures { IfOk result (λ sizes. sizes.items ≡ sized names.now (slices settled.now.members.items) (replicate (length settled.now.members.items) 0) settled.now.order.items) }
{
    let members = settled.members.as_slice();
    let mut sizes = Vec::from_elem(alloc, 0, members.len())?;
    for at in settled.order.as_slice() {
        put(names, members, &mut sizes, *at as usize)?;
    }
    Ok(sizes)
}

/// Puts the slots of a struct, from those of the structs that it holds.
fn put(names: &Names<'_>, structs: &[&[CDecl]], sizes: &mut [u32], at: usize) -> Result<(), Memory>
    ensures { OnOk result (sizes.new ≡ set sizes.old at (slots names.now sizes.old (get_or (slices structs.now) at []))) }
{
    if at >= structs.len() || at >= sizes.len() {
        return Err(Memory);
    }
    let Some(sum) = sum(names, sizes, structs[at]) else {
        return Err(Memory);
    };
    sizes[at] = sum;
    Ok(())
}

/// The slots of members, if they are fewer than 2^32.
fn sum(names: &Names<'_>, sizes: &[u32], members: &[CDecl]) -> Option<u32>
    ensures { IfSome result (λ sum. sum ≡ slots names.now sizes.now members.now) }
{
    let mut sum: u32 = 0;
    for member in members {
        sum = sum.checked_add(slots_of(names, sizes, &member.ty))?;
    }
    Some(sum)
}

/// The members of each struct, with their places.
pub(crate) fn rows<'a>(
    alloc: Global,
    names: &Names<'_>,
    sizes: &[u32],
    structs: &[&'a [CDecl]],
) -> Result<Vec<Row<'a>>, Memory>
    ensures { IfOk result (λ rows. AllZip (IsRow names.now sizes.now) (slices structs.now) rows.items) }
{
    let mut rows = Vec::new(alloc);
    for members in structs {
        rows.push(lay_out(alloc, names, sizes, members)?)?;
    }
    Ok(rows)
}

/// The members of a struct, with their places.
fn lay_out<'a>(
    alloc: Global,
    names: &Names<'_>,
    sizes: &[u32],
    members: &'a [CDecl],
) -> Result<Row<'a>, Memory>
    ensures { IfOk result (IsRow names.now sizes.now members.now) }
{
    Ok(Row {
        parts: parts(alloc, names, sizes, members)?,
        names: index_members(alloc, members)?,
    })
}

/// Where members stand.
fn parts<'a>(
    alloc: Global,
    names: &Names<'_>,
    sizes: &[u32],
    members: &'a [CDecl],
) -> Result<Vec<Offset<'a>>, Memory>
    ensures { IfOk result (λ parts. map place_of parts.items ≡ placed names.now sizes.now 0 members.now) }
{
    let mut parts = Vec::new(alloc);
    let mut end: u32 = 0;
    for member in members {
        end = place(&mut parts, end, kind_of(names, sizes, &member.ty))?;
    }
    Ok(parts)
}

/// Adds a member that begins at a slot, and gives the slot behind it.
fn place<'a>(parts: &mut Vec<Offset<'a>>, start: u32, kind: Counted<'a>) -> Result<u32, Memory>
    ensures added { OnOk result (parts.new.items ≡ parts.old.items ++ (record { start = start; kind = kind.entry }) ∷ []) }
    ensures behind { IfOk result (λ end. end ≡ start + slots_in kind.entry) }
{
    let Some(end) = start.checked_add(slots(kind)) else {
        return Err(Memory);
    };
    parts.push(Offset { start, kind })?;
    Ok(end)
}
