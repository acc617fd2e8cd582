// What is kept of the bodies of a kernel.
#![tactic(auto)]

ghost use Rattle.std.specs.Prelude.{◌≡◌, IfOk};
ghost use Rattle.cg_typing.specs.Kept.{maybe_core, maybe_tree};
ghost use Rattle.cg_check_pieces.specs.Bodies.{core_in, lists_of, maybe_both, no_lists, one_more, tree_in};

use crate::operands::kept_while;
use cg_base::{Items, Memory};
use cg_core::{Deriv, Term, Typed};
use std::alloc::Global;

/// What is kept of a body: its core and its derivation.
#[derive(Drop)]
pub struct KeptBody {
    pub core: Term<Typed>,
    pub tree: Deriv,
}

/// What is kept of functions: the core and the derivation of each, None where it has no body.
#[derive(Drop)]
pub struct KeptBodies {
    pub cores: Items<Option<Term<Typed>>>,
    pub trees: Items<Option<Deriv>>,
}

// The core and the derivation apart, if there are any.
fn apart(body: Option<KeptBody>) -> (Option<Term<Typed>>, Option<Deriv>)
    ensures core { maybe_core result.0 ≡ core_in (maybe_both body) }
    ensures tree { maybe_tree result.1 ≡ tree_in (maybe_both body) }
{
    match body {
        Some(KeptBody { core, tree }) => (Some(core), Some(tree)),
        None => (None, None),
    }
}

impl KeptBodies {
    /// What is kept of no function. It takes no memory.
    pub fn new(alloc: Global) -> KeptBodies
        ensures { lists_of result ≡ no_lists }
    {
        KeptBodies {
            cores: Items::new(alloc),
            trees: Items::new(alloc),
        }
    }

    /// One function more, with a body or none. Want of memory is its one refusal.
    #[tactic(auto, using(crate::proofs::BodySteps::body_steps))]
    pub fn push(&mut self, body: Option<KeptBody>) -> Result<(), Memory>
        ensures { IfOk result (λ _. lists_of self.new ≡ one_more (lists_of self.old) (maybe_both body)) }
    {
        let (core, tree) = apart(body);
        let (tree, ()) = kept_while(tree, self.cores.push(core))?;
        self.trees.push(tree)
    }
}
