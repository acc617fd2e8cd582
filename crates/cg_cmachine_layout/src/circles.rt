// The members that count of each struct, and an order in which each struct stands behind those that it holds.
ghost use Rattle.std.specs.Prelude.{◌≡◌, [], map, length, get_or, true, false, if◌then◌else◌, IfOk, OnOk};
ghost use Rattle.cg_graphs.specs.Circles.{IsOrder};
ghost use Rattle.cg_graphs.specs.Orders.{lists};
ghost use Rattle.cg_cmachine_layout.specs.Tables.{Indexes, IsSettled, Within, any_reaches, counted, holds, later, slices, struct_at, targets};

use crate::index::{Names, find};
use cg_base::Memory;
use cg_ctree::{CDecl, CStruct, CTy};
use cg_graphs::{NoOrder, order};
use std::alloc::Global;

/// For each struct its members that count, none where it holds itself; and the structs, each behind those that it holds.
#[derive(Drop)]
pub(crate) struct Settled<'a> {
    pub members: Vec<&'a [CDecl]>,
    pub order: Vec<u32>,
}

/// The members that count, and the order of the structs.
pub(crate) fn settle<'a>(
    alloc: Global,
    names: &Names<'_>,
    structs: &'a [CStruct],
) -> Result<Settled<'a>, Memory>
    requires { Indexes (map (λ s. s.name) structs.now) names.now }
    ensures { IfOk result (λ settled. IsSettled structs.now names.now (slices settled.members.items) settled.order.items) }
{
    let members = declared(alloc, structs)?;
    let edges = edges(alloc, names, members.as_slice())?;
    match order(alloc, edges.as_slice()) {
        Ok(order) => Ok(Settled { members, order }),
        Err(NoOrder::Memory) => Err(Memory),
        Err(NoOrder::Circle(_)) => {
            let members = without(alloc, edges.as_slice(), members.as_slice())?;
            in_order(alloc, names, members)
        }
    }
}

/// An order of the structs of these members; want of memory where there is none.
fn in_order<'a>(
    alloc: Global,
    names: &Names<'_>,
    members: Vec<&'a [CDecl]>,
) -> Result<Settled<'a>, Memory>
    requires { Within names.now (length members.items) }
    ensures members { IfOk result (λ settled. settled.members ≡ members.entry) }
    ensures order { IfOk result (λ settled. IsOrder (map (targets names.now) (slices members.entry.items)) settled.order.items) }
{
    let edges = edges(alloc, names, members.as_slice())?;
    match order(alloc, edges.as_slice()) {
        Ok(order) => Ok(Settled { members, order }),
        Err(_) => Err(Memory),
    }
}

/// The members of each struct.
fn declared<'a>(alloc: Global, structs: &'a [CStruct]) -> Result<Vec<&'a [CDecl]>, Memory>
    ensures { IfOk result (λ members. slices members.items ≡ map (λ s. s.members) structs.now) }
{
    let mut members = Vec::new(alloc);
    for s in structs {
        members.push(s.members.as_slice())?;
    }
    Ok(members)
}

/// For each struct those that its members are.
fn edges(alloc: Global, names: &Names<'_>, structs: &[&[CDecl]]) -> Result<Vec<Vec<u32>>, Memory>
    ensures { IfOk result (λ edges. lists edges.items ≡ map (targets names.now) (slices structs.now)) }
{
    let mut edges = Vec::new(alloc);
    for members in structs {
        edges.push(targets(alloc, names, members)?)?;
    }
    Ok(edges)
}

/// The declared structs that members are.
fn targets(alloc: Global, names: &Names<'_>, members: &[CDecl]) -> Result<Vec<u32>, Memory>
    ensures { IfOk result (λ found. found.items ≡ targets names.now members.now) }
{
    let mut found = Vec::new(alloc);
    for member in members {
        if let Some(at) = struct_at(names, &member.ty) {
            found.push(at)?;
        }
    }
    Ok(found)
}

/// The declared struct that a type is.
fn struct_at(names: &Names<'_>, ty: &CTy) -> Option<u32>
    ensures { result ≡ struct_at names.now ty.now }
{
    match ty {
        CTy::Struct(name) => find(names, name),
        CTy::Word(_) | CTy::Pointer(_) => None,
    }
}

/// The members that count: a struct that holds itself has none.
fn without<'a>(
    alloc: Global,
    edges: &[Vec<u32>],
    structs: &[&'a [CDecl]],
) -> Result<Vec<&'a [CDecl]>, Memory>
    ensures { IfOk result (λ kept. slices kept.items ≡ counted (lists edges.now) 0 (slices structs.now)) }
{
    let mut kept = Vec::new(alloc);
    for (at, members) in structs.iter().enumerate() {
        let held = holds_itself(alloc, edges, at)?;
        kept.push(unless(held, members))?;
    }
    Ok(kept)
}

/// No members, or these.
fn unless(held: bool, members: &[CDecl]) -> &[CDecl]
    ensures { result.now ≡ (if held then [] else members.now) }
{
    if held { &[] } else { members }
}

/// Whether a struct holds itself. It takes at most as many rounds over all structs as there are structs.
fn holds_itself(alloc: Global, edges: &[Vec<u32>], at: usize) -> Result<bool, Memory>
    ensures { IfOk result (λ held. held ≡ holds (lists edges.now) at) }
{
    let mut marks = Vec::from_elem(alloc, false, edges.len())?;
    for round in 0..edges.len() {
        let stays = go_on(alloc, edges, at, &mut marks)?;
        if stays {
            return Ok(is_marked(marks.as_slice(), at));
        }
    }
    Ok(is_marked(marks.as_slice(), at))
}

/// One round more; true only where it changes nothing.
fn go_on(
    alloc: Global,
    edges: &[Vec<u32>],
    goal: usize,
    marks: &mut Vec<bool>,
) -> Result<bool, Memory>
    ensures later { OnOk result (marks.new.items ≡ later (lists edges.now) goal marks.old.items) }
    ensures stays { IfOk result (λ stays. stays ≡ true → marks.new.items ≡ marks.old.items) }
{
    let more = next(alloc, edges, goal, marks.as_slice())?;
    let stays = more.as_slice() == marks.as_slice();
    *marks = more;
    Ok(stays)
}

/// The structs that reach this one through one struct more than those that are marked.
fn next(alloc: Global, edges: &[Vec<u32>], goal: usize, marks: &[bool]) -> Result<Vec<bool>, Memory>
    ensures { IfOk result (λ more. more.items ≡ later (lists edges.now) goal marks.now) }
{
    let mut more = Vec::new(alloc);
    for targets in edges {
        more.push(reaches(targets.as_slice(), goal, marks))?;
    }
    Ok(more)
}

/// Whether one of these structs is this one, or is marked.
fn reaches(targets: &[u32], goal: usize, marks: &[bool]) -> bool
    ensures { result ≡ any_reaches goal marks.now targets.now }
{
    for target in targets {
        let at = *target as usize;
        if at == goal || is_marked(marks, at) {
            return true;
        }
    }
    false
}

/// Whether a struct is marked.
fn is_marked(marks: &[bool], at: usize) -> bool
    ensures { result ≡ get_or marks.now at false }
{
    at < marks.len() && marks[at]
}
