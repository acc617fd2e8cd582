// Which instances call which by their names, and which are of which arrow type.
#![tactic(auto, using(crate::proofs::CallSteps::call_steps))]

ghost use Rattle.std.specs.Prelude.{◌≡◌, ◌++◌, [], replicate, IfOk, OnOk};
ghost use Rattle.cg_graphs.specs.Orders.{lists};
ghost use Rattle.cg_base.specs.Types.{type_of};
ghost use Rattle.cg_core.specs.Kernels.{the_core};
ghost use Rattle.cg_lower.specs.Calls.{AreApart, calls_at, calls_in, calls_of, named_place, nodes_called, put_tag, tags_of, whole_by};
ghost use Rattle.cg_lower.specs.Collected.{entries_of};
ghost use Rattle.cg_lower.specs.Copies.{copies_of, pair_of};
ghost use Rattle.cg_lower_def.specs.Lowered.{arrow_number};

use crate::nodes::nodes_of_body;
use cg_base::Memory;
use cg_core::{Form, Term, Typed};
use cg_lower_tables::Places;
use cg_mono::{Copy, Mono};
use std::alloc::Global;

// The node of the graph that is the instance that a function is, where it is named.
fn push_named(
    alloc: Global,
    places: &mut Places,
    targets: &mut Vec<u32>,
    function: &Term<Typed>,
) -> Result<(), Memory>
    ensures targets { OnOk result (targets.new.items ≡ targets.old.items ++ nodes_called (whole_by places.old) (named_place (whole_by places.old) (the_core function.now))) }
    ensures kept { places.new ≡ places.old }
{
    if let Form::Fun(fun, args) = &function.form {
        let at = places.place(alloc, *fun, args)?;
        let before = places.arrow_types().len();
        let Ok(node) = u32::try_from(before.saturating_add(at)) else {
            return Err(Memory);
        };
        targets.push(node)?;
    }
    Ok(())
}

// That which a node calls.
fn push_call(
    alloc: Global,
    places: &mut Places,
    targets: &mut Vec<u32>,
    node: &Term<Typed>,
) -> Result<(), Memory>
    ensures targets { OnOk result (targets.new.items ≡ targets.old.items ++ nodes_called (whole_by places.old) (calls_at (whole_by places.old) (the_core node.now))) }
    ensures kept { places.new ≡ places.old }
{
    match &node.form {
        Form::App(function, _) => push_named(alloc, places, targets, function),
        _ => Ok(()),
    }
}

// Those which the body of an instance calls.
fn calls_from(alloc: Global, places: &mut Places, copy: &Copy) -> Result<Vec<u32>, Memory>
    ensures targets { IfOk result (λ targets. targets.items ≡ nodes_called (whole_by places.old) (calls_of (whole_by places.old) (pair_of copy.now))) }
    ensures kept { places.new ≡ places.old }
{
    let mut targets = Vec::new(alloc);
    let nodes = nodes_of_body(alloc, copy.core())?;
    for node in nodes.as_slice() {
        push_call(alloc, places, &mut targets, node)?;
    }
    Ok(targets)
}

/// The graph of calls by name: a node for each arrow type, of which nothing is said, and behind them one for each instance.
pub fn calls(alloc: Global, places: &mut Places, mono: &Mono) -> Result<Vec<Vec<u32>>, Memory>
    ensures edges { IfOk result (λ edges. lists edges.items ≡ calls_in (whole_by places.old) (copies_of mono.now)) }
    ensures kept { places.new ≡ places.old }
{
    let mut edges = no_lists(alloc, places.arrow_types().len())?;
    for copy in mono.as_slice() {
        edges.push(calls_from(alloc, places, copy)?)?;
    }
    Ok(edges)
}

// So many empty lists.
fn no_lists(alloc: Global, count: usize) -> Result<Vec<Vec<u32>>, Memory>
    ensures { IfOk result (λ vectors. lists vectors.items ≡ replicate count []) }
{
    let mut vectors = Vec::new(alloc);
    for _at in 0..count {
        vectors.push(Vec::new(alloc))?;
    }
    Ok(vectors)
}

// The place of an instance joins those of its arrow type, where this has a number.
fn put(tags: &mut Vec<Vec<u32>>, number: usize, at: u32) -> Result<(), Memory>
    ensures { OnOk result (lists tags.new.items ≡ put_tag (lists tags.old.items) number at) }
{
    if let Some(places) = tags.get_mut(number) {
        places.push(at)?;
    }
    Ok(())
}

// The place of an instance joins those of its arrow type.
fn tag(
    alloc: Global,
    places: &mut Places,
    tags: &mut Vec<Vec<u32>>,
    at: usize,
    copy: &Copy,
) -> Result<(), Memory>
    ensures tags { OnOk result (lists tags.new.items ≡ put_tag (lists tags.old.items) (arrow_number places.old.arrows (type_of copy.now.ty)) at) }
    ensures kept { places.new ≡ places.old }
{
    let number = places.arrow(alloc, &copy.ty)?;
    match u32::try_from(at) {
        Ok(place) => put(tags, number, place),
        Err(_) => Err(Memory),
    }
}

/// For each arrow type the places of the instances that are of it.
pub fn tags(alloc: Global, places: &mut Places, mono: &Mono) -> Result<Vec<Vec<u32>>, Memory>
    requires apart { AreApart places.old.arrows }
    ensures tags { IfOk result (λ tags. lists tags.items ≡ tags_of (entries_of (copies_of mono.now)) places.old.arrows) }
    ensures kept { places.new ≡ places.old }
{
    let mut tags = no_lists(alloc, places.arrow_types().len())?;
    let mut at: usize = 0;
    for copy in mono.as_slice() {
        tag(alloc, places, &mut tags, at, copy)?;
        at += 1;
    }
    Ok(tags)
}
