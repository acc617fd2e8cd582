// Derivations that are made of those of their parts.
ghost use Rattle.std.specs.Prelude.{◌≡◌, IfOk, [], ◌∷◌, map};
ghost use Rattle.cg_core.specs.Derivations.{Derivation, derivation, derivation_of, to_derivations, done};
ghost use Rattle.cg_check_uses.specs.Added.{Derives, with_last};
ghost use Rattle.cg_check_uses.specs.Marks as splits;

use cg_base::{Items, Memory};
use cg_core::{Deriv, Mark, Node};
use std::alloc::Global;

/// The derivation of a leaf. It takes no memory.
#[tactic(auto, using(crate::proofs::PartSteps::part_steps))]
pub fn leaf(alloc: Global, node: Node) -> Deriv
    ensures { derivation_of result ≡ derivation node [] done }
{
    Deriv {
        node,
        marks: Items::new(alloc),
        parts: none(alloc),
    }
}

// No part.
#[tactic(auto, using(crate::proofs::PartSteps::part_steps))]
fn none(alloc: Global) -> Items<Deriv>
    ensures { to_derivations (map derivation_of result) ≡ done }
{
    Items::new(alloc)
}

// The derivation of a node with these marks, whose parts are still to come.
#[tactic(auto, using(crate::proofs::PartSteps::part_steps))]
fn marked(alloc: Global, node: Node, marks: Items<Mark>) -> Result<Deriv, Memory>
    ensures { IfOk result (λ tree. derivation_of tree ≡ derivation node (marks ∷ []) done) }
{
    let mut strings = Items::new(alloc);
    strings.push(marks)?;
    Ok(Deriv {
        node,
        marks: strings,
        parts: none(alloc),
    })
}

// A derivation with one part more behind its others.
#[tactic(auto, using(crate::proofs::PartSteps::part_steps))]
fn push(tree: Deriv, last: Deriv) -> Result<Deriv, Memory>
    ensures { IfOk result (λ whole. derivation_of whole ≡ with_last (derivation_of tree) (derivation_of last)) }
{
    let mut tree = tree;
    tree.parts.push(last)?;
    Ok(tree)
}

// The same of what was made, where there was memory for it.
#[tactic(auto)]
fn with_part(tree: Result<Deriv, Memory>, last: Deriv) -> Result<Deriv, Memory>
    ensures { (d : Derivation) → Derives tree d → Derives result (with_last d (derivation_of last)) }
{
    match tree {
        Ok(tree) => push(tree, last),
        Err(memory) => {
            drop(last);
            Err(memory)
        }
    }
}

/// The derivation of a node with one part. Want of memory is its one refusal.
#[tactic(auto)]
pub fn one_part(alloc: Global, node: Node, first: Deriv) -> Result<Deriv, Memory>
    ensures { IfOk result (λ tree. derivation_of tree ≡ splits.one_part node (derivation_of first)) }
{
    push(leaf(alloc, node), first)
}

/// The derivation of a node with two parts. Want of memory is its one refusal.
#[tactic(auto)]
pub fn two_parts(
    alloc: Global,
    node: Node,
    marks: Items<Mark>,
    first: Deriv,
    second: Deriv,
) -> Result<Deriv, Memory>
    ensures { IfOk result (λ tree. derivation_of tree ≡ splits.two_parts node marks (derivation_of first) (derivation_of second)) }
{
    with_part(with_part(marked(alloc, node, marks), first), second)
}

/// The derivation of a node with three parts. Want of memory is its one refusal.
#[tactic(auto)]
pub fn three_parts(
    alloc: Global,
    node: Node,
    marks: Items<Mark>,
    first: Deriv,
    second: Deriv,
    third: Deriv,
) -> Result<Deriv, Memory>
    ensures { IfOk result (λ tree. derivation_of tree ≡ splits.three_parts node marks (derivation_of first) (derivation_of second) (derivation_of third)) }
{
    let two = with_part(with_part(marked(alloc, node, marks), first), second);
    with_part(two, third)
}
