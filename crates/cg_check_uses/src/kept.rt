// What is present in a part that doesn't touch it goes along with the last parts of the derivation.
#![tactic(auto, using(crate::proofs::SettleSteps::settle_steps))]

ghost use Rattle.std.specs.Prelude.{◌≡◌, map, slice_set};
ghost use Rattle.cg_core.specs.Derivations.{derivation_of, to_derivations};
ghost use Rattle.cg_core.specs.declared.derivation.Mark.TheVariants.{Right};
ghost use Rattle.cg_check_uses.specs.Marks.{keep_all, settle as settle_of, settled};
ghost use Rattle.cg_check_uses.specs.Parted.{settled_from};

use cg_base::Items;
use cg_core::{Deriv, Mark};

// Marks a variable for the second side, where there is one at this position.
fn keep_one(string: &mut Items<Mark>, at: usize)
    ensures { string.new ≡ slice_set string.old at Right }
{
    let marks = string.as_mut_slice();
    if at < marks.len() {
        marks[at] = Mark::Right;
    }
}

// Marks variables for the second side.
fn keep(string: &mut Items<Mark>, kept: &Vec<usize>)
    ensures { string.new ≡ keep_all kept.now.items string.old }
{
    for at in kept.as_slice() {
        keep_one(string, *at);
    }
}

// The same in each mark string of a node.
fn keep_in_all(strings: &mut Items<Items<Mark>>, kept: &Vec<usize>)
    ensures { strings.new ≡ map (keep_all kept.now.items) strings.old }
{
    let strings = strings.as_mut_slice();
    for i in 0..strings.len() {
        keep(&mut strings[i], kept);
    }
}

#[cycle(settle)]
fn settle_in(tree: &mut Deriv, kept: &Vec<usize>)
    ensures { derivation_of tree.new ≡ settle_of kept.now.items (derivation_of tree.old) }
{
    keep_in_all(&mut tree.marks, kept);
    let first = tree.marks.len();
    settle_behind(&mut tree.parts, first, kept);
}

// In all parts but the first ones, which are first sides.
#[cycle(settle)]
fn settle_behind(parts: &mut Items<Deriv>, first: usize, kept: &Vec<usize>)
    ensures { map derivation_of parts.new ≡ settled_from kept.now.items first (map derivation_of parts.old) }
{
    let parts = parts.as_mut_slice();
    for i in first..parts.len() {
        settle_in(&mut parts[i], kept);
    }
}

/// Puts variables into a derivation that are present although nothing in it touches them: each goes to the second side of every split.
/// It takes no memory.
pub fn settle(tree: &mut Deriv, kept: &Vec<usize>)
    ensures { derivation_of tree.new ≡ settled kept.now.items (derivation_of tree.old) }
{
    if !kept.is_empty() {
        settle_in(tree, kept);
    }
}
