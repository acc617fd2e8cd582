// The first node that mentions itself.
ghost use Rattle.std.specs.Prelude.{IfOk};
ghost use Rattle.cg_graphs.specs.Circles.{IsFirstCircle, Reaches};
ghost use Rattle.cg_graphs.specs.Orders.{lists};

use crate::components::components;
use crate::numbers::{fall_until, stay_or_fall};
use crate::reach::reaches_itself;
use cg_base::Memory;
use std::alloc::Global;

/// The first node that mentions itself, directly or through others, where this one does. It takes a step for each node and
/// one for each mention where the numbers of components show that the nodes before it are on no circle, and else that for
/// each node.
pub fn first_circle(alloc: Global, edges: &[Vec<u32>], on: usize) -> Result<usize, Memory>
    requires { Reaches (lists edges.now) on on }
    ensures { IfOk result (IsFirstCircle (lists edges.now)) }
{
    let components = components(alloc, edges)?;
    let numbers = components.as_slice();
    let at = fall_until(edges, numbers);
    if at < edges.len() && stay_or_fall(edges, numbers) && reaches_itself(alloc, edges, at)? {
        return Ok(at);
    }
    first_up_to(alloc, edges, on)
}

// The same by a search from each node in turn.
fn first_up_to(alloc: Global, edges: &[Vec<u32>], on: usize) -> Result<usize, Memory>
    requires { Reaches (lists edges.now) on on }
    ensures { IfOk result (IsFirstCircle (lists edges.now)) }
{
    for at in 0..on {
        if reaches_itself(alloc, edges, at)? {
            return Ok(at);
        }
    }
    Ok(on)
}
