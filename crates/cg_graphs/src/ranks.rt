// The ranks of nodes: how deep mentions nest below each.
#![tactic(auto)]

ghost use Rattle.std.specs.Prelude.{◌≡◌, ◌<◌, ◌≤◌, ◌^◌, IfOk, IsTrue, length};
ghost use Rattle.std.specs.Bool.{OnTrue};
ghost use Rattle.cg_graphs.specs.Orders.{lists};
ghost use Rattle.cg_graphs.specs.Ranks.{above as above_of, AreSettled, IsBounded, raised, ranked, ranks_at};

use crate::guess::guess;
use cg_base::Memory;
use std::alloc::Global;

/// The rank of a node, 0 where there is none.
pub(crate) fn rank_at(ranks: &Vec<u64>, at: u32) -> u64
    ensures { result ≡ ranked ranks.now.items at }
{
    match ranks.get(at as usize) {
        Some(rank) => *rank,
        None => 0,
    }
}

// One more than the largest rank of some nodes, or 0.
fn above(ranks: &Vec<u64>, targets: &[u32]) -> u64
    requires bounded { IsBounded (2 ^ 63) ranks.now.items }
    ensures { result ≡ above_of (ranked ranks.now.items) targets.now }
{
    let mut most = 0;
    for at in targets {
        most = (rank_at(ranks, *at) + 1).max(most);
    }
    most
}

// The ranks once more, each from those of the nodes that are mentioned.
fn raise(alloc: Global, edges: &[Vec<u32>], ranks: &Vec<u64>) -> Result<Vec<u64>, Memory>
    requires bounded { IsBounded (2 ^ 63) ranks.now.items }
    ensures { IfOk result (λ next. next.items ≡ raised (lists edges.now) ranks.now.items) }
{
    let mut next = Vec::new(alloc);
    for targets in edges {
        next.push(above(ranks, targets.as_slice()))?;
    }
    Ok(next)
}

// Whether two lists of ranks are equal.
fn are_same(left: &Vec<u64>, right: &Vec<u64>) -> bool
    ensures { IsTrue result → left.now.items ≡ right.now.items }
{
    left.as_slice() == right.as_slice()
}

// Whether no rank is above a number.
fn are_bounded(ranks: &Vec<u64>, most: u32) -> bool
    ensures { OnTrue result (IsBounded most ranks.now.items) }
{
    for rank in ranks {
        if *rank > u64::from(most) {
            return false;
        }
    }
    true
}

// Whether ranks are at most so large and stay in a pass.
fn are_settled(
    alloc: Global,
    edges: &[Vec<u32>],
    ranks: &Vec<u64>,
    most: u32,
) -> Result<bool, Memory>
    ensures { IfOk result (λ settled. OnTrue settled (AreSettled (lists edges.now) most ranks.now.items)) }
{
    if !are_bounded(ranks, most) {
        return Ok(false);
    }
    let next = raise(alloc, edges, ranks)?;
    Ok(are_same(&next, ranks))
}

// A rank of 0 for each node.
fn no_ranks(alloc: Global, edges: &[Vec<u32>]) -> Result<Vec<u64>, Memory>
    ensures { IfOk result (λ ranks. ranks.items ≡ ranks_at (lists edges.now) 0) }
{
    let mut ranks = Vec::new(alloc);
    for _at in 0..edges.len() {
        ranks.push(0)?;
    }
    Ok(ranks)
}

// The ranks, counted further until they stay.
fn counted(alloc: Global, edges: &[Vec<u32>]) -> Result<Vec<u64>, Memory>
    requires few { length edges.now < 2 ^ 32 }
    ensures { IfOk result (λ ranks. ranks.items ≡ ranks_at (lists edges.now) (length edges.now)) }
{
    let mut ranks = no_ranks(alloc, edges)?;
    for _pass in 0..edges.len() {
        let next = raise(alloc, edges, &ranks)?;
        if are_same(&next, &ranks) {
            return Ok(ranks);
        }
        ranks = next;
    }
    Ok(ranks)
}

/// The ranks of nodes, in time for the nodes and their mentions where no node mentions itself through others.
pub(crate) fn ranks_of(alloc: Global, edges: &[Vec<u32>]) -> Result<Vec<u64>, Memory>
    requires few { length edges.now < 2 ^ 32 }
    ensures { IfOk result (λ ranks. ranks.items ≡ ranks_at (lists edges.now) (length edges.now)) }
{
    let ranks = guess(alloc, edges)?;
    if are_settled(alloc, edges, &ranks, edges.len() as u32)? {
        return Ok(ranks);
    }
    counted(alloc, edges)
}
