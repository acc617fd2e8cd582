// The limits of a list of instances.
ghost use Rattle.std.specs.Prelude.{◌+◌};
ghost use Rattle.cg_inst.specs.Founds.{found_in};
ghost use Rattle.cg_inst.specs.Judged.{core_in};
ghost use Rattle.cg_inst.specs.Limited.{CoresFit, HaveSmallTypesUntil, TypesFit, TypesFitOf, TypesFitUntil};

use crate::fault::InstFault;
use crate::found::Found;
use crate::nodes::body_nodes;
use crate::widths::widths_of;
use cg_base::{Fun, Limit};
use cg_typing::Checked;
use std::alloc::Global;

// The most nodes that the bodies of all instances may have.
const MOST_NODES: usize = 1_048_576;

/// Refuses bodies that have more than 1,048,576 nodes together, one for each instance.
pub(crate) fn check_cores(alloc: Global, checked: &Checked, found: &Found) -> Result<(), InstFault>
    ensures { CoresFit (core_in checked.now) (found_in found.now) result }
{
    let mut count: usize = 0;
    for at in 0..found.len() {
        if let Some(fun) = found.function(at) {
            let nodes = body_nodes(alloc, checked, fun)?;
            if nodes.len() > MOST_NODES - count {
                return Err(InstFault::Limit(Limit::Core));
            }
            count += nodes.len();
        }
    }
    Ok(())
}

/// Refuses a node whose type has more than 1,024 nodes with the types of an instance for its type variables.
pub(crate) fn check_types(alloc: Global, checked: &Checked, found: &Found) -> Result<(), InstFault>
    ensures { TypesFit (core_in checked.now) (found_in found.now) result }
{
    for at in 0..found.len() {
        check_types_at(alloc, checked, found, at)?;
    }
    Ok(())
}

// The types of the nodes of all instances of the function of the one at a place. Where one before it is of this function, they are judged.
fn check_types_at(
    alloc: Global,
    checked: &Checked,
    found: &Found,
    at: usize,
) -> Result<(), InstFault>
    requires { HaveSmallTypesUntil (core_in checked.now) (found_in found.now) at }
    ensures { TypesFitUntil (core_in checked.now) (found_in found.now) (at + 1) result }
{
    match found.function(at) {
        Some(fun) => match found.earlier(fun, at) {
            Some(_) => Ok(()),
            None => check_types_of(alloc, checked, found, fun),
        },
        None => Ok(()),
    }
}

// The types of the nodes of all instances of a function: each type is gone through once.
fn check_types_of(
    alloc: Global,
    checked: &Checked,
    found: &Found,
    fun: Fun,
) -> Result<(), InstFault>
    ensures { TypesFitOf (core_in checked.now) (found_in found.now) fun result }
{
    let nodes = body_nodes(alloc, checked, fun)?;
    let widths = widths_of(alloc, nodes.as_slice())?;
    for at in 0..found.len() {
        if !found.fits(alloc, at, fun, widths.as_slice())? {
            return Err(InstFault::Limit(Limit::Ty));
        }
    }
    Ok(())
}
