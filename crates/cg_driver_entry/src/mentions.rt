// Which functions of a checked source mention which, and what an entry reaches.
#![tactic(auto, using(crate::proofs::MentionSteps::mention_steps))]

ghost use Rattle.std.specs.Prelude.{◌≡◌, ◌↔◌, ◌++◌, IfOk, IsTrue, OnOk, length, map, slice_get};
ghost use Rattle.std.specs.List.{flat_map, range_with_len};
ghost use Rattle.cg_graphs.specs.Orders.{lists};
ghost use Rattle.cg_core.specs.Kernels.{function_of, kernel_of, the_core};
ghost use Rattle.cg_core_def.specs.Lawful.{user_of};
ghost use Rattle.cg_typing.specs.Holds.{cores_in, kept_at, kernel_in};
ghost use Rattle.cg_typing.specs.Instances.{nodes_of};
ghost use Rattle.cg_typing.specs.Kept.{maybe_core};
ghost use Rattle.cg_driver_entry.specs.Entries.{IsMarkedAbstract, ReachesAbstract, lacks_body as lacks_body_of, users_at, users_in as users_in_maybe};

use cg_base::{Fun, Memory};
use cg_core::{Form, KFun, Term, Typed};
use cg_graphs::reached;
use cg_typing::{Checked, nodes_in};
use std::alloc::Global;

// The function of the source that a function is, where it is one.
fn push_user(targets: &mut Vec<u32>, fun: Fun) -> Result<(), Memory>
    ensures { OnOk result (targets.new.items ≡ targets.old.items ++ user_of fun) }
{
    match fun {
        Fun::User(at) => {
            targets.push(at)?;
            Ok(())
        }
        Fun::Lib(_) => Ok(()),
    }
}

// The function of the source that a node mentions itself.
fn push_node(targets: &mut Vec<u32>, node: &Term<Typed>) -> Result<(), Memory>
    ensures { OnOk result (targets.new.items ≡ targets.old.items ++ users_at (the_core node.now)) }
{
    match &node.form {
        Form::Fun(fun, _) => push_user(targets, *fun),
        _ => Ok(()),
    }
}

// Those that the nodes of a core mention.
fn users_in(alloc: Global, core: &Term<Typed>) -> Result<Vec<u32>, Memory>
    ensures { IfOk result (λ targets. targets.items ≡ flat_map users_at (nodes_of (the_core core.now))) }
{
    let mut targets = Vec::new(alloc);
    let nodes = nodes_in(alloc, core)?;
    for node in nodes.as_slice() {
        push_node(&mut targets, node)?;
    }
    Ok(targets)
}

// Those that the body of a function mentions.
fn users_from(alloc: Global, checked: &Checked, at: u32) -> Result<Vec<u32>, Memory>
    ensures { IfOk result (λ targets. targets.items ≡ users_in_maybe (maybe_core (kept_at (cores_in checked.now) at))) }
{
    match checked.core(at) {
        Some(core) => users_in(alloc, core),
        None => Ok(Vec::new(alloc)),
    }
}

// The graph of mentions: for each function those that its body mentions.
fn mentions(alloc: Global, checked: &Checked) -> Result<Vec<Vec<u32>>, Memory>
    ensures { IfOk result (λ edges. lists edges.items
        ≡ map (λ at. users_in_maybe (maybe_core (kept_at (cores_in checked.now) at))) (range_with_len 0 (length (kernel_in checked.now).funs))) }
{
    let mut edges = Vec::new(alloc);
    for at in 0..checked.kernel().funs.len() {
        let Ok(place) = u32::try_from(at) else {
            return Err(Memory);
        };
        edges.push(users_from(alloc, checked, place)?)?;
    }
    Ok(edges)
}

// Whether there is a function here, and it has no body.
fn lacks_body(functions: &[KFun], at: usize) -> bool
    ensures { result ≡ lacks_body_of (slice_get (map function_of functions.now) at) }
{
    match functions.get(at) {
        Some(function) => function.body.is_none(),
        None => false,
    }
}

// Whether a function without a body stands where there is a mark.
fn is_marked_abstract(functions: &[KFun], marks: &[bool]) -> bool
    ensures { IsTrue result ↔ IsMarkedAbstract (map function_of functions.now) marks.now }
{
    for at in 0..marks.len() {
        if marks[at] && lacks_body(functions, at) {
            return true;
        }
    }
    false
}

/// Whether a function of a source has no body, or reaches one that has none by mentions in bodies (docs/LANGUAGE.md, "Entries"). It takes a
/// step for each function and for each node of a body. The one error is want of memory, which is answered too where there are more than 2^32
/// functions.
pub fn reaches_abstract(alloc: Global, checked: &Checked, at: u32) -> Result<bool, Memory>
    ensures { IfOk result (λ is. IsTrue is ↔ ReachesAbstract (kernel_of (kernel_in checked.now)) at) }
{
    let edges = mentions(alloc, checked)?;
    let marks = reached(alloc, edges.as_slice(), at)?;
    Ok(is_marked_abstract(checked.kernel().funs.as_slice(), marks.as_slice()))
}
