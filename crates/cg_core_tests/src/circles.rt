// Small graphs: which have an order, and where else the first circle is.
ghost use Rattle.std.specs.Prelude.{◌<◌};
ghost use Rattle.std.specs.Bool.{OnTrue};
ghost use Rattle.std.specs.List.{All};
ghost use Rattle.cg_graphs.specs.Circles.{Closed};
ghost use Rattle.cg_graphs.specs.Orders.{lists};

use cg_graphs::{NoOrder, order};
use std::alloc::Global;
use std::process::Abort;
use std::test::Fail;

/// Graphs, each as the mentions of its nodes, and the first node on a circle, where there is one.
const GRAPHS: [(&[&[u32]], Option<usize>); 14] = [
    (&[], None),
    (&[&[]], None),
    (&[&[0]], Some(0)),
    (&[&[1], &[0]], Some(0)),
    (&[&[1], &[]], None),
    (&[&[1], &[1]], Some(1)),
    (&[&[1], &[2], &[3], &[1]], Some(1)),
    (&[&[2, 1], &[3], &[3], &[]], None),
    (&[&[1, 2, 1], &[2, 2], &[]], None),
    (&[&[], &[0], &[4], &[1], &[2]], Some(2)),
    (&[&[3], &[2], &[1], &[]], Some(1)),
    (&[&[5], &[], &[4], &[4], &[3], &[1]], Some(3)),
    (&[&[1], &[2], &[0, 3], &[4], &[3]], Some(0)),
    (&[&[3, 2], &[2], &[3, 4], &[4], &[5], &[4]], Some(4)),
];

/// Whether every mention is of a node.
fn are_closed(edges: &[Vec<u32>]) -> bool
    ensures { OnTrue result (Closed (lists edges.now)) }
{
    for at in 0..edges.len() {
        if !are_nodes(&edges[at], edges.len()) {
            return false;
        }
    }
    true
}

/// Whether these are among so many nodes.
fn are_nodes(targets: &[u32], count: usize) -> bool
    ensures { OnTrue result (All (λ j. j < count) targets.now) }
{
    targets.iter().all(|target| (*target as usize) < count)
}

/// A graph with these mentions.
fn graph(alloc: Global, mentions: &[&[u32]]) -> Result<Vec<Vec<u32>>, Fail> {
    let mut edges = Vec::new(alloc);
    for targets in mentions {
        let mut list = Vec::new(alloc);
        for target in *targets {
            list.push(*target)?;
        }
        edges.push(list)?;
    }
    Ok(edges)
}

/// The first node on a circle; None where there is an order.
fn circle(rt: &impl Abort, alloc: Global, edges: &[Vec<u32>]) -> Option<usize> {
    assert!(rt; are_closed(edges));
    match order(alloc, edges) {
        Ok(_) => None,
        Err(NoOrder::Circle(at)) => Some(at),
        Err(NoOrder::Memory) => panic!(rt; "no memory"),
    }
}

#[test]
fn graphs_have_orders_or_circles(rt: HostRuntime) -> Result<(), Fail> {
    for (mentions, answer) in GRAPHS {
        let edges = graph(rt.alloc(), mentions)?;
        assert_eq!(rt; circle(&rt, rt.alloc(), edges.as_slice()), answer);
    }
    Ok(())
}
