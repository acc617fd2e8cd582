// What is reached from a node.
ghost use Rattle.std.specs.Prelude.{◌≡◌, ◌<◌, ◌↔◌, true, false, length, get_or, set, [], IfOk, OnOk, IsTrue};
ghost use Rattle.cg_graphs.specs.Circles.{Reaches};
ghost use Rattle.cg_graphs.specs.Orders.{lists};
ghost use Rattle.cg_graphs.specs.Reach.{AreReached};
ghost use Rattle.cg_graphs.specs.Reached.{IsSearch, reached, mark, mark_all};

use cg_base::Memory;
use std::alloc::Global;

/// Whether a node mentions itself, directly or through others.
pub fn reaches_itself(alloc: Global, edges: &[Vec<u32>], from: usize) -> Result<bool, Memory>
    requires { from < length edges.now }
    ensures { IfOk result (λ is. IsTrue is ↔ Reaches (lists edges.now) from from) }
{
    let marks = search(alloc, edges, from)?;
    Ok(is_marked(marks.as_slice(), from))
}

/// One mark for each node, true exactly where the node is this one or is reached from it by one mention or more. A mention of no node
/// reaches nothing, and where there is no such node nothing is marked. It takes a step for each node and for each mention. The one error is
/// want of memory.
pub fn reached(alloc: Global, edges: &[Vec<u32>], from: u32) -> Result<Vec<bool>, Memory>
    ensures { IfOk result (λ marks. AreReached (lists edges.now) from marks.items) }
{
    let mut marks = search(alloc, edges, from as usize)?;
    put(&mut marks, from);
    Ok(marks)
}

// The marks of a search from a node, once nothing is left to be followed.
fn search(alloc: Global, edges: &[Vec<u32>], from: usize) -> Result<Vec<bool>, Memory>
    ensures { IfOk result (λ marks. IsSearch (lists edges.now) from (reached marks.items [])) }
{
    let mut marks = Vec::from_elem(alloc, false, edges.len())?;
    let mut work = Vec::new(alloc);
    mark_all(&mut marks, &mut work, targets_of(edges, from))?;
    while let Some(at) = work.pop() {
        mark_all(&mut marks, &mut work, targets_of(edges, at as usize))?;
    }
    Ok(marks)
}

// Marks a node, where there is one.
fn put(marks: &mut Vec<bool>, at: u32)
    ensures { marks.new.items ≡ set marks.old.items at true }
{
    let at = at as usize;
    if at < marks.len() {
        marks[at] = true;
    }
}

/// What a node mentions.
pub fn targets_of(edges: &[Vec<u32>], at: usize) -> &[u32]
    ensures { result.now ≡ get_or (lists edges.now) at [] }
{
    if at < edges.len() {
        edges[at].as_slice()
    } else {
        &[]
    }
}

// Whether a node is marked.
fn is_marked(marks: &[bool], at: usize) -> bool
    ensures { result ≡ get_or marks.now at false }
{
    at < marks.len() && marks[at]
}

// Marks each of these nodes, to be followed where it wasn't marked.
fn mark_all(marks: &mut Vec<bool>, work: &mut Vec<u32>, targets: &[u32]) -> Result<(), Memory>
    ensures { OnOk result (reached marks.new.items work.new.items ≡ mark_all (reached marks.old.items work.old.items) targets.now) }
{
    for target in targets {
        mark(marks, work, *target)?;
    }
    Ok(())
}

// Marks a node, to be followed where it wasn't marked.
#[tactic(auto, unfolding(crate::specs::Reached::mark))]
fn mark(marks: &mut Vec<bool>, work: &mut Vec<u32>, target: u32) -> Result<(), Memory>
    ensures { OnOk result (reached marks.new.items work.new.items ≡ mark (reached marks.old.items work.old.items) target) }
{
    let at = target as usize;
    if at < marks.len() && !marks[at] {
        marks[at] = true;
        work.push(target)?;
    }
    Ok(())
}
