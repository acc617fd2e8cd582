// How many nodes types have with types for their type variables, told without going through them again.
#![tactic(auto, using(crate::proofs::WidthSteps::width_steps), unfolding(crate::specs::Measured::own_nodes, crate::specs::Measured::variables_in))]

ghost use Rattle.std.specs.Prelude.{◌≡◌, ◌+◌, ◌↔◌, ◌++◌, map, slice_get, IfOk, IsTrue, OnOk};
ghost use Rattle.cg_base.specs.Types.{type_of, part_of, to_parts, to_taus};
ghost use Rattle.cg_inst.specs.Measured.{AreSmallBy, nodes_by, own_nodes, own_nodes_all, own_nodes_parts, variables_in, variables_in_all, variables_in_parts, width_in, width_of};
ghost use Rattle.cg_kinds.specs.Kinds.{or_unit};
ghost use Rattle.cg_inst_types.specs.Layers.{capped, types_at};
ghost use Rattle.cg_typing.specs.Parts.{nodes};

use cg_base::{Items, Memory, Part, Ty};
use cg_core::{Term, Typed};
use cg_inst_types::{TypeId, TypeTable};
use std::alloc::Global;

/// What is known of a type before types stand for its type variables: how many of its nodes are no type variable, and which type variables
/// stand in it, one entry for each time that one does.
#[derive(Drop)]
pub(crate) struct Width {
    base: u32,
    variables: Vec<u32>,
}

/// The widths of the types of these nodes. Want of memory is its one refusal.
pub(crate) fn widths_of(alloc: Global, nodes: &[&Term<Typed>]) -> Result<Vec<Width>, Memory>
    ensures { IfOk result (λ widths. map width_in widths.items ≡ map (λ node. width_of (type_of node.now.note.ty)) nodes.now) }
{
    let mut widths = Vec::new(alloc);
    for node in nodes {
        widths.push(measured(alloc, &node.note.ty)?)?;
    }
    Ok(widths)
}

// The width of a type.
fn measured(alloc: Global, ty: &Ty) -> Result<Width, Memory>
    ensures { IfOk result (λ width. width_in width ≡ width_of (type_of ty.now)) }
{
    let mut variables = Vec::new(alloc);
    let base = push_type(&mut variables, ty)?;
    Ok(Width { base, variables })
}

// The type variables of a type behind these, and how many of its nodes are none, u32::MAX standing for that many or more.
#[cycle(widths)]
fn push_type(variables: &mut Vec<u32>, ty: &Ty) -> Result<u32, Memory>
    ensures base { IfOk result (λ n. n ≡ capped (own_nodes (type_of ty.now))) }
    ensures variables { OnOk result (variables.new.items ≡ variables.old.items ++ variables_in (type_of ty.now)) }
{
    match ty {
        Ty::Var(variable) | Ty::Seen(variable) => {
            variables.push(*variable)?;
            Ok(0)
        }
        Ty::Unit | Ty::Word(_) | Ty::Bool => Ok(1),
        Ty::Arrow(from, to) => {
            let from = push_type(variables, from)?;
            let to = push_type(variables, to)?;
            Ok(from.saturating_add(to).saturating_add(1))
        }
        Ty::Abs(_, types, _) => Ok(push_types(variables, types)?.saturating_add(1)),
        Ty::Variant(parts) | Ty::Fields(parts, _) => {
            Ok(push_parts(variables, parts)?.saturating_add(1))
        }
    }
}

#[cycle(widths)]
fn push_types(variables: &mut Vec<u32>, types: &Items<Ty>) -> Result<u32, Memory>
    ensures base { IfOk result (λ n. n ≡ capped (own_nodes_all (to_taus (map type_of types.now)))) }
    ensures variables { OnOk result (variables.new.items ≡ variables.old.items ++ variables_in_all (to_taus (map type_of types.now))) }
{
    let mut total: u32 = 0;
    for ty in types.as_slice() {
        total = total.saturating_add(push_type(variables, ty)?);
    }
    Ok(total)
}

#[cycle(widths)]
fn push_parts(variables: &mut Vec<u32>, parts: &Items<Part>) -> Result<u32, Memory>
    ensures base { IfOk result (λ n. n ≡ capped (own_nodes_parts (to_parts (map part_of parts.now)))) }
    ensures variables { OnOk result (variables.new.items ≡ variables.old.items ++ variables_in_parts (to_parts (map part_of parts.now))) }
{
    let mut total: u32 = 0;
    for part in parts.as_slice() {
        total = total.saturating_add(push_type(variables, &part.ty)?);
    }
    Ok(total)
}

/// Whether the types of these widths have no more than 1,024 nodes each, with the types at these places for their type variables.
pub(crate) fn are_small(table: &TypeTable, widths: &[Width], types: &[TypeId]) -> bool
    ensures { IsTrue result ↔ AreSmallBy (types_at table.now types.now) (map width_in widths.now) }
{
    for width in widths {
        if nodes_of(table, width, types) > 1024 {
            return false;
        }
    }
    true
}

// How many nodes the type of a width has with these types, u32::MAX standing for that many or more.
fn nodes_of(table: &TypeTable, width: &Width, types: &[TypeId]) -> u32
    ensures { result ≡ nodes_by (types_at table.now types.now) (width_in width.now) }
{
    let mut total = width.base;
    for variable in width.variables.as_slice() {
        total = total.saturating_add(nodes_of_argument(table, types, *variable));
    }
    total
}

// How many nodes the type for a variable has, or unit where there is none.
fn nodes_of_argument(table: &TypeTable, types: &[TypeId], variable: u32) -> u32
    ensures { result ≡ capped (nodes (or_unit (slice_get (types_at table.now types.now) variable))) }
{
    match types.get(variable as usize) {
        Some(at) => table.nodes(*at),
        None => 1,
    }
}
