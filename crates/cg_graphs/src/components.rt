// Numbers of the components of a graph, by a depth-first search: nodes that reach each other have one number, and a node
// that mentions one of another component has the higher. Nothing is promised of the numbers: they are checked.
use cg_base::Memory;
use std::alloc::Global;

// A search: the way down, which mention of each node is next, the nodes that were met and have no number, when each
// node was met, the earliest of these that each is known to reach, and the numbers given. Times and numbers go from 1.
#[derive(Drop)]
struct Search {
    way: Vec<usize>,
    nexts: Vec<usize>,
    waiting: Vec<usize>,
    times: Vec<usize>,
    earliest: Vec<usize>,
    numbers: Vec<usize>,
    time: usize,
    number: usize,
}

/// A number for each node. It takes a step for each node and one for each mention.
pub fn components(alloc: Global, edges: &[Vec<u32>]) -> Result<Vec<usize>, Memory> {
    let limit = count(edges);
    let mut search = start(alloc, edges.len())?;
    for root in 0..edges.len() {
        if at(search.times.as_slice(), root) == 0 {
            meet(&mut search, root)?;
            search_from(&mut search, edges, limit)?;
        }
    }
    Ok(search.numbers)
}

// How many nodes and mentions there are.
fn count(edges: &[Vec<u32>]) -> usize {
    let mut count = edges.len();
    for targets in edges {
        count = count.saturating_add(targets.len());
    }
    count
}

// The search before its first step.
fn start(alloc: Global, nodes: usize) -> Result<Search, Memory> {
    Ok(Search {
        way: Vec::new(alloc),
        nexts: Vec::from_elem(alloc, 0, nodes)?,
        waiting: Vec::new(alloc),
        times: Vec::from_elem(alloc, 0, nodes)?,
        earliest: Vec::from_elem(alloc, 0, nodes)?,
        numbers: Vec::from_elem(alloc, 0, nodes)?,
        time: 0,
        number: 0,
    })
}

// Goes on until the way is empty.
fn search_from(search: &mut Search, edges: &[Vec<u32>], limit: usize) -> Result<(), Memory> {
    for _ in 0..limit {
        let Some(node) = search.way.as_slice().last().copied() else {
            return Ok(());
        };
        step(search, edges, node)?;
    }
    Ok(())
}

// Follows the next mention of a node, or leaves the node.
fn step(search: &mut Search, edges: &[Vec<u32>], node: usize) -> Result<(), Memory> {
    if node >= edges.len() || node >= search.nexts.len() {
        return Ok(());
    }
    let next = search.nexts[node];
    if next < edges[node].len() {
        search.nexts[node] = next + 1;
        return follow(search, node, edges[node][next] as usize);
    }
    leave(search, node);
    Ok(())
}

// Follows a mention: of a node that wasn't met, or of one that is waiting.
fn follow(search: &mut Search, node: usize, target: usize) -> Result<(), Memory> {
    let time = at(search.times.as_slice(), target);
    if time == 0 {
        return meet(search, target);
    }
    if at(search.numbers.as_slice(), target) == 0 {
        reach(search, node, time);
    }
    Ok(())
}

// Puts a node that wasn't met on the way.
fn meet(search: &mut Search, node: usize) -> Result<(), Memory> {
    search.time = search.time.saturating_add(1);
    put(&mut search.times, node, search.time);
    put(&mut search.earliest, node, search.time);
    search.way.push(node)?;
    search.waiting.push(node)?;
    Ok(())
}

// Takes a node off the way. Where it reaches none that was met before it, it has a component with those that wait since.
fn leave(search: &mut Search, node: usize) {
    let _ = search.way.pop();
    let earliest = at(search.earliest.as_slice(), node);
    if earliest == at(search.times.as_slice(), node) {
        number(search, node);
    }
    if let Some(above) = search.way.as_slice().last().copied() {
        reach(search, above, earliest);
    }
}

// Gives the next number to all that wait, down to this node.
fn number(search: &mut Search, last: usize) {
    search.number = search.number.saturating_add(1);
    for _ in 0..search.waiting.len() {
        let Some(node) = search.waiting.pop() else {
            return;
        };
        put(&mut search.numbers, node, search.number);
        if node == last {
            return;
        }
    }
}

// A node reaches one that was met at this time.
fn reach(search: &mut Search, node: usize, time: usize) {
    if time < at(search.earliest.as_slice(), node) {
        put(&mut search.earliest, node, time);
    }
}

// What a list has for a node.
fn at(list: &[usize], node: usize) -> usize {
    list.get(node).copied().unwrap_or(0)
}

// Writes it.
fn put(list: &mut Vec<usize>, node: usize, value: usize) {
    if node < list.len() {
        list[node] = value;
    }
}
