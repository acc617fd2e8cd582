// The nodes of a graph by rank.
ghost use Rattle.std.specs.Prelude.{◌≡◌, IfOk};
ghost use Rattle.cg_graphs.specs.Orders.{lists};
ghost use Rattle.cg_graphs.specs.Ranks.{in_order};

use crate::{buckets, ranks};
use cg_base::Memory;
use std::alloc::Global;

/// The nodes of a graph by their rank, which is how deep mentions nest below a node, and those of one rank in the order of the graph. It
/// takes a step for each node and for each mention where no node mentions itself through others. The one error is want of memory, which is
/// answered too where there are 2^32 nodes or more.
pub fn by_rank(alloc: Global, edges: &[Vec<u32>]) -> Result<Vec<u32>, Memory>
    ensures { IfOk result (λ order. order.items ≡ in_order (lists edges.now)) }
{
    let Ok(count) = u32::try_from(edges.len()) else {
        return Err(Memory);
    };
    let ranks = ranks::ranks_of(alloc, edges)?;
    buckets::in_order(alloc, &ranks, count)
}
