// How the list of instances is made.
ghost use Rattle.std.specs.Prelude.{◌≡◌, Some, map, slice_get, IfOk};
ghost use Rattle.cg_inst.specs.Answered.{Answers};
ghost use Rattle.cg_inst.specs.Founds.{found_in};
ghost use Rattle.cg_inst.specs.Judged.{core_in, functions_in};
ghost use Rattle.cg_inst.specs.Views.{instance_of};

use crate::fault::InstFault;
use crate::found::Found;
use crate::instance::Instance;
use crate::limits::{check_cores, check_types};
use crate::list::Instances;
use crate::search::find_instances;
use cg_base::{Items, Memory};
use cg_typing::Checked;
use std::alloc::Global;

// The most nodes that the type arguments of all instances may have together, as trees.
const MOST_NODES: u64 = 4_194_304;

// The instances that were found, with their types as trees. Want of memory also where these would have too many nodes: this is known before
// one is built.
fn with_trees(alloc: Global, found: &Found) -> Result<Items<Instance>, Memory>
    ensures { IfOk result (λ list. map instance_of list ≡ found_in found.now) }
{
    let mut list = Items::new(alloc);
    let mut left = MOST_NODES;
    for at in 0..found.len() {
        let nodes = found.argument_nodes(alloc, at)?;
        if nodes > left {
            return Err(Memory);
        }
        left -= nodes;
        list.push(instance_at(alloc, found, at)?)?;
    }
    Ok(list)
}

// The instance at a place.
fn instance_at(alloc: Global, found: &Found, at: usize) -> Result<Instance, Memory>
    ensures { IfOk result (λ x. slice_get (found_in found.now) at ≡ Some (instance_of x)) }
{
    match found.entry(alloc, at)? {
        Some((fun, types)) => Ok(Instance {
            fun,
            args: found.trees(alloc, types.as_slice())?,
        }),
        None => Err(Memory),
    }
}

/// The list of instances of a checked source (docs/LANGUAGE.md, "Instances"): its functions without type variables, in the order of their
/// signatures, and then each instance that a body in the list mentions. Limit exactly where `instances`, `core` or `type` is passed, in this
/// order; all three are judged before a type is built.
pub fn instances(alloc: Global, checked: &Checked) -> Result<Instances, InstFault>
    ensures { Answers (functions_in checked.now) (core_in checked.now) result }
{
    let found = find_instances(alloc, checked)?;
    check_cores(alloc, checked, &found)?;
    check_types(alloc, checked, &found)?;
    let list = with_trees(alloc, &found)?;
    Ok(Instances { list })
}
