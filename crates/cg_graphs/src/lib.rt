//! Stage: ground. Graphs: orders, circles, ranks, and what is reached from a node.
//! Role: public.
//! Promises: `order`, `by_rank` and `reached`, each exactly; laws: `ordered_has_no_circle`, `circle_is_at_node`.
//! May cite: anything of its stage and of those below; no crate above.
//! Promises also: laws of ranks, `order_has_nodes`, `mentions_stand_before`; of marks of what is reached, `marks_are_there`.
#![tactic(auto)]

ghost use Rattle.cg_graphs.specs.Circles.{Closed};
ghost use Rattle.cg_graphs.specs.Orders.{OrderSays, lists};

mod buckets;
mod components;
mod fault;
mod first;
mod guess;
mod law;
mod numbers;
mod rank;
mod ranks;
mod reach;
mod walk;

pub use fault::NoOrder;
use first::first_circle;
pub use law::{
    circle_is_at_node, marks_are_there, mentions_stand_before, order_has_nodes,
    ordered_has_no_circle,
};
pub use rank::by_rank;
pub use reach::reached;
use std::alloc::Global;
use walk::walk_all;

/// All nodes in an order in which each stands behind all that it mentions; or the first node that mentions itself, directly
/// or through others; or want of memory, which is answered too where there are more than 2^32 nodes. It takes a step for
/// each node and one for each mention.
pub fn order(alloc: Global, edges: &[Vec<u32>]) -> Result<Vec<u32>, NoOrder>
    requires { Closed (lists edges.now) }
    ensures { OrderSays (lists edges.now) result }
{
    match walk_all(alloc, edges) {
        Ok(order) => Ok(order),
        Err(NoOrder::Circle(on)) => Err(NoOrder::Circle(first_circle(alloc, edges, on)?)),
        Err(NoOrder::Memory) => Err(NoOrder::Memory),
    }
}
