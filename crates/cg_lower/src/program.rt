// The C program of a list of instances.
#![tactic(auto, using(crate::proofs::ProgramSteps::program_steps))]

ghost use Rattle.std.specs.Prelude.{◌≡◌, ◌++◌, List, [], get_or, length, map, slice_get, IfOk, OnOk};
ghost use Rattle.std.specs.Option.{option_map};
ghost use Rattle.std.specs.List.{AllByRecursion};
ghost use Rattle.cg_graphs.specs.Orders.{lists};
ghost use Rattle.cg_ctree.specs.Trees.{function_of, program_of};
ghost use Rattle.cg_lower_nodes.specs.Kept.{kept_of, whole_of};
ghost use Rattle.cg_base.specs.Types.{type_of};
ghost use Rattle.cg_cgen_def.specs.Dispatches.{dispatch_function};
ghost use Rattle.cg_cgen_def.specs.Names.{dispatch_name};
ghost use Rattle.cg_lower_def.specs.CTypes.{c_type};
ghost use Rattle.cg_lower_def.specs.Dispatch.{dispatch_of};
ghost use Rattle.cg_lower_def.specs.Structs.{numbered_in};
ghost use Rattle.cg_typing.specs.Parts.{given_by, taken_by};
ghost use Rattle.cg_lower_def.specs.Functions.{function_at, function_of_item, functions_at, with_function};
ghost use Rattle.cg_lower.specs.Calls.{tags_of};
ghost use Rattle.cg_lower.specs.Collected.{entries_of, list_of};
ghost use Rattle.cg_lower.specs.Copies.{copies_of};
ghost use Rattle.cg_lower.specs.Lowerings.{IsFewItem};
ghost use Rattle.cg_lower.specs.Programs.{item_of, lowered};
ghost use Rattle.cg_lower.specs.Promises.{CanBePrinted, IsFewMaybe, IsSimulated};
ghost use Rattle.cg_typing.specs.Instances.{Entry};

use crate::function::{given, lower_function, taken};
use crate::gather::{Collected, collect};
use crate::graph::{calls, tags};
use cg_base::{Items, Memory, Ty};
use cg_cgen::{DispatchList, dispatch};
use cg_cgen_lines::numbered;
use cg_ctree::{CFun, CProgram};
use cg_graphs::by_rank;
use cg_lower_nodes::Lowering;
use cg_lower_tables::Structs;
use cg_mono::Mono;
use std::alloc::Global;

// The places of the instances of the arrow type of a number; none, where there is no such arrow type.
fn tags_at(alloc: Global, tags: &[Vec<u32>], number: usize) -> Result<Items<u32>, Memory>
    ensures { IfOk result (λ places. places ≡ get_or (lists tags.now) number []) }
{
    if number < tags.len() {
        copied(alloc, &tags[number])
    } else {
        Ok(Items::new(alloc))
    }
}

// Equal places.
fn copied(alloc: Global, places: &Vec<u32>) -> Result<Items<u32>, Memory>
    ensures { IfOk result (λ copies. copies ≡ places.now.items) }
{
    let mut copies = Items::new(alloc);
    for at in places.as_slice() {
        copies.push(*at)?;
    }
    Ok(copies)
}

// The function of the arrow type of a number, with a case for each of these places.
fn arrow_dispatch(
    alloc: Global,
    structs: &mut Structs,
    number: usize,
    ty: &Ty,
    tags: Items<u32>,
) -> Result<CFun, Memory>
    ensures function { IfOk result (λ f. function_of f ≡ dispatch_function (dispatch_name number) (c_type (numbered_in structs.old.table) (taken_by (type_of ty.now))) (c_type (numbered_in structs.old.table) (given_by (type_of ty.now))) tags) }
    ensures kept { structs.new.table ≡ structs.old.table }
{
    let name = numbered(alloc, b'd', number)?;
    let arg = taken(alloc, structs, ty)?;
    let result = given(alloc, structs, ty)?;
    dispatch(alloc, name, &DispatchList { arg, result, tags })
}

// The function of the arrow type of a number; none, where there is no such arrow type.
fn arrow_function(
    alloc: Global,
    state: &mut Lowering,
    tags: &[Vec<u32>],
    number: usize,
) -> Result<Option<CFun>, Memory>
    ensures function { IfOk result (λ f. (entries : List Entry) → lists tags.now ≡ tags_of entries state.old.places.arrows
        → option_map function_of f ≡ option_map (dispatch_of (whole_of state.old) entries number) (slice_get state.old.places.arrows number)) }
    ensures kept { IfOk result (λ f. kept_of state.new ≡ kept_of state.old) }
{
    match state.places.arrow_types().get(number) {
        Some(ty) => {
            let tags = tags_at(alloc, tags, number)?;
            let function = arrow_dispatch(alloc, &mut state.structs, number, ty, tags)?;
            Ok(Some(function))
        }
        None => Ok(None),
    }
}

// The function of the instance at a place; none, where there is no such instance.
fn instance_function(
    alloc: Global,
    state: &mut Lowering,
    mono: &Mono,
    at: usize,
) -> Result<Option<CFun>, Memory>
    requires list { state.old.places.list ≡ list_of (copies_of mono.now) }
    ensures function { IfOk result (λ f. option_map function_of f ≡ function_at (whole_of state.old) (entries_of (copies_of mono.now)) at) }
    ensures few { IfOk result (λ f. IsFewMaybe (whole_of state.old) (slice_get (copies_of mono.now) at)) }
    ensures kept { IfOk result (λ f. kept_of state.new ≡ kept_of state.old) }
{
    match mono.as_slice().get(at) {
        Some(copy) => Ok(Some(lower_function(alloc, state, at, copy)?)),
        None => Ok(None),
    }
}

// The function that a node of the graph is.
fn node_function(
    alloc: Global,
    state: &mut Lowering,
    mono: &Mono,
    tags: &[Vec<u32>],
    node: u32,
) -> Result<Option<CFun>, Memory>
    requires list { state.old.places.list ≡ list_of (copies_of mono.now) }
    requires tags { lists tags.now ≡ tags_of (entries_of (copies_of mono.now)) state.old.places.arrows }
    ensures function { IfOk result (λ f. option_map function_of f
        ≡ function_of_item (whole_of state.old) (entries_of (copies_of mono.now)) (item_of (length state.old.places.arrows) node)) }
    ensures few { IfOk result (λ f. IsFewItem (whole_of state.old) (copies_of mono.now) (item_of (length state.old.places.arrows) node)) }
    ensures kept { IfOk result (λ f. kept_of state.new ≡ kept_of state.old) }
{
    let arrows = state.places.arrow_types().len();
    let node = node as usize;
    if node < arrows {
        arrow_function(alloc, state, tags, node)
    } else {
        instance_function(alloc, state, mono, node - arrows)
    }
}

// The function that a node is joins others, if there is one.
fn push_function(
    alloc: Global,
    state: &mut Lowering,
    mono: &Mono,
    tags: &[Vec<u32>],
    functions: &mut Items<CFun>,
    node: u32,
) -> Result<(), Memory>
    requires list { state.old.places.list ≡ list_of (copies_of mono.now) }
    requires tags { lists tags.now ≡ tags_of (entries_of (copies_of mono.now)) state.old.places.arrows }
    ensures functions { OnOk result (map function_of functions.new ≡ map function_of functions.old
        ++ with_function (function_of_item (whole_of state.old) (entries_of (copies_of mono.now)) (item_of (length state.old.places.arrows) node)) []) }
    ensures few { OnOk result (IsFewItem (whole_of state.old) (copies_of mono.now) (item_of (length state.old.places.arrows) node)) }
    ensures kept { OnOk result (kept_of state.new ≡ kept_of state.old) }
{
    match node_function(alloc, state, mono, tags, node)? {
        Some(function) => {
            functions.push(function)?;
            Ok(())
        }
        None => Ok(()),
    }
}

// The functions of these nodes.
fn functions(
    alloc: Global,
    state: &mut Lowering,
    mono: &Mono,
    tags: &[Vec<u32>],
    order: &[u32],
) -> Result<Items<CFun>, Memory>
    requires list { state.old.places.list ≡ list_of (copies_of mono.now) }
    requires tags { lists tags.now ≡ tags_of (entries_of (copies_of mono.now)) state.old.places.arrows }
    ensures functions { IfOk result (λ fs. map function_of fs
        ≡ functions_at (function_of_item (whole_of state.old) (entries_of (copies_of mono.now))) (map (item_of (length state.old.places.arrows)) order.now)) }
    ensures few { IfOk result (λ fs. AllByRecursion (IsFewItem (whole_of state.old) (copies_of mono.now)) (map (item_of (length state.old.places.arrows)) order.now)) }
    ensures kept { IfOk result (λ fs. kept_of state.new ≡ kept_of state.old) }
{
    let mut functions = Items::new(alloc);
    for node in order {
        push_function(alloc, state, mono, tags, &mut functions, *node)?;
    }
    Ok(functions)
}

// Lowering before its first function.
fn start(alloc: Global, collected: Collected) -> Lowering
    ensures { kept_of result ≡ record { table = collected.structs.table; list = collected.places.list; arrows = collected.places.arrows } }
{
    let Collected { places, structs } = collected;
    Lowering {
        places,
        structs,
        locals: Items::new(alloc),
        stmts: Items::new(alloc),
        scope: Vec::new(alloc),
    }
}

/// The C program of a list of instances (docs/LANGUAGE.md, "The C of instances"): a function for each, named by its place, and one for each
/// arrow type of calls through function values; each instance stands behind those that it calls by their names. The one error is want of
/// memory, also where there are more than 2^32 instances, arrow types or structs, or a record or variant has more than 2^32 parts.
pub fn lower(alloc: Global, mono: &Mono) -> Result<CProgram, Memory>
    ensures made { IfOk result (λ c. program_of c ≡ lowered (copies_of mono.now)) }
    ensures simulates { IfOk result (λ c. IsSimulated (copies_of mono.now) (program_of c)) }
    ensures printable { IfOk result (λ c. CanBePrinted (copies_of mono.now) (program_of c)) }
{
    let collected = collect(alloc, mono)?;
    let mut state = start(alloc, collected);
    let edges = calls(alloc, &mut state.places, mono)?;
    let tags = tags(alloc, &mut state.places, mono)?;
    let order = by_rank(alloc, edges.as_slice())?;
    let funs = functions(alloc, &mut state, mono, tags.as_slice(), order.as_slice())?;
    state.structs.is_table();
    let _few = state.places.len(); // its clause `few` bounds both lists
    Ok(CProgram {
        structs: state.structs.declarations(alloc)?,
        funs,
    })
}
