// A guess at the ranks of nodes, by a depth-first search over their mentions. Nothing is promised of it: it is checked.
use cg_base::Memory;
use std::alloc::Global;

// A search: the way down, which mention of each node is next, which nodes were met, and the ranks found.
#[derive(Drop)]
struct Search {
    way: Vec<usize>,
    next: Vec<usize>,
    met: Vec<bool>,
    ranks: Vec<u64>,
}

/// A rank for each node. It takes two steps for each node and one for each mention.
pub(crate) fn guess(alloc: Global, edges: &[Vec<u32>]) -> Result<Vec<u64>, Memory> {
    let limit = steps(edges);
    let mut search = start(alloc, edges.len())?;
    for root in 0..edges.len() {
        meet(&mut search, root)?;
        search_from(&mut search, edges, limit)?;
    }
    Ok(search.ranks)
}

// How many steps a search takes: each node is met and left, and each mention is followed once.
fn steps(edges: &[Vec<u32>]) -> usize {
    let mut steps = edges.len().saturating_mul(2);
    for targets in edges {
        steps = steps.saturating_add(targets.len());
    }
    steps
}

// The search before its first step.
fn start(alloc: Global, nodes: usize) -> Result<Search, Memory> {
    let mut next = Vec::new(alloc);
    let mut met = Vec::new(alloc);
    let mut ranks = Vec::new(alloc);
    for _ in 0..nodes {
        next.push(0)?;
        met.push(false)?;
        ranks.push(0)?;
    }
    Ok(Search {
        way: Vec::new(alloc),
        next,
        met,
        ranks,
    })
}

// Goes on until the way is empty.
fn search_from(search: &mut Search, edges: &[Vec<u32>], limit: usize) -> Result<(), Memory> {
    for _ in 0..limit {
        let Some(at) = search.way.as_slice().last().copied() else {
            return Ok(());
        };
        step(search, edges, at)?;
    }
    Ok(())
}

// Goes down to the next node that a node mentions, counts it where it was met, or leaves the node.
fn step(search: &mut Search, edges: &[Vec<u32>], at: usize) -> Result<(), Memory> {
    if at >= edges.len() || at >= search.next.len() {
        return Ok(());
    }
    let next = search.next[at];
    if next >= edges[at].len() {
        let _ = search.way.pop();
        return Ok(());
    }
    let target = edges[at][next] as usize;
    if is_unmet(search, target) {
        return meet(search, target);
    }
    search.next[at] = next + 1;
    raise(search, at, target);
    Ok(())
}

// Whether there is such a node, which wasn't met.
fn is_unmet(search: &Search, at: usize) -> bool {
    at < search.met.len() && !search.met[at]
}

// Puts a node that wasn't met on the way.
fn meet(search: &mut Search, at: usize) -> Result<(), Memory> {
    if at < search.met.len() && !search.met[at] {
        search.met[at] = true;
        search.way.push(at)?;
    }
    Ok(())
}

// Puts the rank of a node above that of one that it mentions.
fn raise(search: &mut Search, at: usize, target: usize) {
    if at < search.ranks.len() && target < search.ranks.len() {
        let above = search.ranks[target].saturating_add(1);
        search.ranks[at] = search.ranks[at].max(above);
    }
}
