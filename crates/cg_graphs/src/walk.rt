// A walk down through a graph, depth first, with a way of its own in the place of calls.
#![tactic(auto, unfolding(crate::specs::Walks::fresh, crate::specs::Walks::opened, crate::specs::Walks::finished))]

ghost use Rattle.std.specs.Prelude.{◌≡◌, ◌↔◌, ◌-◌, ◌<◌, [], Some, length, get_or, take, slice_get, IfOk, IsTrue, OnOk};
ghost use Rattle.cg_graphs.specs.declared.walk.Mark.TheVariants.{Done};
ghost use Rattle.cg_graphs.specs.Circles.{Closed};
ghost use Rattle.cg_graphs.specs.Orders.{lists};
ghost use Rattle.cg_graphs.specs.Walks.{state, mark_at, fresh, opened, finished, AreDone, IsWalk, StepSays, DownSays, WalkSays};

use crate::fault::NoOrder;
use crate::reach::targets_of;
use cg_base::Memory;
use std::alloc::Global;

/// How far a node is: not met, on the way, or in the order.
#[derive(Clone, Copy)]
pub enum Mark {
    New,
    Open,
    Done,
}

/// A walk: how far each node is, how many of its mentions were followed, the way down to the node that is followed now,
/// and the order up to here.
#[derive(Drop)]
pub struct Walk {
    marks: Vec<Mark>,
    nexts: Vec<usize>,
    way: Vec<u32>,
    order: Vec<u32>,
}

/// All nodes in an order in which each stands behind all that it mentions, or a node that reaches itself. It takes a step
/// for each node and one for each mention.
pub fn walk_all(alloc: Global, edges: &[Vec<u32>]) -> Result<Vec<u32>, NoOrder>
    requires { Closed (lists edges.now) }
    ensures { WalkSays (lists edges.now) result }
{
    let mut walk = start(alloc, edges.len())?;
    for root in 0..edges.len() {
        let Ok(node) = u32::try_from(root) else {
            return Err(NoOrder::Memory);
        };
        go_down(&mut walk, edges, node)?;
    }
    Ok(walk.order)
}

// The walk before its first step.
fn start(alloc: Global, nodes: usize) -> Result<Walk, Memory>
    ensures { IfOk result (λ walk. state walk ≡ fresh nodes) }
{
    Ok(Walk {
        marks: Vec::from_elem(alloc, Mark::New, nodes)?,
        nexts: Vec::from_elem(alloc, 0, nodes)?,
        way: Vec::new(alloc),
        order: Vec::new(alloc),
    })
}

// Follows all that is reached from a node.
fn go_down(walk: &mut Walk, edges: &[Vec<u32>], root: u32) -> Result<(), NoOrder>
    requires closed { Closed (lists edges.now) }
    requires within { root < length edges.now }
    requires walked { IsWalk (lists edges.now) (state walk.old) }
    requires back { walk.old.way.items ≡ [] }
    ensures { DownSays (lists edges.now) root (state walk.old) (state walk.new) result }
{
    match mark_of(walk.marks.as_slice(), root) {
        Mark::New => open(walk, root)?,
        _ => return Ok(()),
    }
    while let Some(at) = last(walk.way.as_slice()) {
        step(walk, edges, at)?;
    }
    Ok(())
}

// Follows the next mention of the node that the way ends in, or puts it in the order.
fn step(walk: &mut Walk, edges: &[Vec<u32>], at: u32) -> Result<(), NoOrder>
    requires closed { Closed (lists edges.now) }
    requires walked { IsWalk (lists edges.now) (state walk.old) }
    requires last { slice_get walk.old.way.items (length walk.old.way.items - 1) ≡ Some at }
    ensures { StepSays (lists edges.now) (state walk.old) (state walk.new) result }
{
    let targets = targets_of(edges, at as usize);
    let next = first_not_done(walk.marks.as_slice(), targets, walk.nexts[at as usize]);
    walk.nexts[at as usize] = next;
    if next >= targets.len() {
        finish(walk, at)?;
        return Ok(());
    }
    let target = targets[next];
    match mark_of(walk.marks.as_slice(), target) {
        Mark::New => open(walk, target)?,
        _ => return Err(NoOrder::Circle(target as usize)),
    }
    Ok(())
}

// The first of these nodes, from this place on, that isn't done.
fn first_not_done(marks: &[Mark], targets: &[u32], from: usize) -> usize
    requires { AreDone marks.now (take from targets.now) }
    ensures before { AreDone marks.now (take result targets.now) }
    ensures here { result < length targets.now → mark_at marks.now (get_or targets.now result 0) ≡ Done → ⊥ }
{
    let mut at = from;
    while at < targets.len() && is_done(marks, targets[at]) {
        at += 1;
    }
    at
}

// Whether a node is in the order.
fn is_done(marks: &[Mark], node: u32) -> bool
    ensures { IsTrue result ↔ (mark_at marks.now node ≡ Done) }
{
    matches!(mark_of(marks, node), Mark::Done)
}

// How far a node is.
fn mark_of(marks: &[Mark], node: u32) -> Mark
    ensures { result ≡ mark_at marks.now node }
{
    let at = node as usize;
    if at < marks.len() {
        marks[at]
    } else {
        Mark::New
    }
}

// The node that the way ends in.
fn last(way: &[u32]) -> Option<u32>
    ensures { result ≡ slice_get way.now (length way.now - 1) }
{
    way.last().copied()
}

// Puts a node on the way.
fn open(walk: &mut Walk, node: u32) -> Result<(), Memory>
    requires { node < length walk.old.marks.items }
    ensures { OnOk result (state walk.new ≡ opened (state walk.old) node) }
{
    walk.marks[node as usize] = Mark::Open;
    walk.way.push(node)?;
    Ok(())
}

// Takes the last node off the way, and puts it in the order.
fn finish(walk: &mut Walk, node: u32) -> Result<(), Memory>
    requires { node < length walk.old.marks.items }
    ensures { OnOk result (state walk.new ≡ finished (state walk.old) node) }
{
    let _ = walk.way.pop();
    walk.marks[node as usize] = Mark::Done;
    walk.order.push(node)?;
    Ok(())
}
