// What the pass goes by: the kernel's functions and a certificate's nodes, and where it stands among these.
#![tactic(auto, using(crate::proofs::NodeSteps::cursor_steps))]

ghost use Rattle.std.specs.Prelude.{◌≡◌, IfOk};
ghost use Rattle.cg_certcheck_context.specs.View.{cursor_of};
ghost use Rattle.cg_certcheck_def.specs.Pass.{step as step_of};

use cg_base::{Bound, Items, Memory};
use cg_cert::CertNode;
use cg_core::KFun;
use std::alloc::Global;

/// What the pass over a body goes by: the functions of the kernel, the type variables of the function at hand, and the nodes that the
/// certificate lists for it.
#[derive(Drop)]
pub struct Source<'a> {
    pub alloc: Global,
    pub functions: &'a Items<KFun>,
    pub vars: &'a Items<Bound>,
    pub nodes: &'a [CertNode],
}

/// Where the pass stands among the nodes: the index of the next one, and its number in the whole certificate.
#[derive(Clone, Copy)]
pub struct Cursor {
    pub index: usize,
    pub next: u64,
}

/// Behind the node that stands here. Want of memory stands for a number past all that memory can hold.
#[inline(never)]
pub fn step(source: &Source, at: Cursor) -> Result<Cursor, Memory>
    ensures { IfOk result (λ behind. cursor_of source.now.nodes.now behind ≡ step_of (cursor_of source.now.nodes.now at)) }
{
    let index = at.index.checked_add(1).ok_or(Memory)?;
    let next = at.next.checked_add(1).ok_or(Memory)?;
    Ok(Cursor { index, next })
}
