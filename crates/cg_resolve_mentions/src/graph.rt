// The graph of mentions.
#![tactic(auto, using(std::proofs::lemmas::Grind::common_steps, crate::proofs::Pushed::pushed_steps))]

ghost use Rattle.std.specs.Prelude.{◌≡◌, ◌++◌, IfOk, OnOk};
ghost use Rattle.cg_graphs.specs.Circles.{Closed};
ghost use Rattle.cg_graphs.specs.Orders.{lists};
ghost use Rattle.cg_resolve_def.specs.Declared.{definition_named};
ghost use Rattle.cg_resolve_def.specs.Mentions.{mentions, entry_mentions, defined_mentions};
ghost use Rattle.cg_surface.specs.Programs.{entry_of};
ghost use Rattle.cg_resolve_declared.specs.Declarations.{entries_of, IsIndexed};
ghost use Rattle.cg_resolve_mentions.specs.Positions.{AreFirsts, pushed};

use crate::exprs::push_expr;
use crate::patterns::enter_pattern;
use crate::positions::{Firsts, Positions, first_positions};
use crate::types::push_type;
use cg_base::Memory;
use cg_core::At;
use cg_resolve_declared::Declarations;
use cg_resolve_names::Scope;
use cg_surface::Item;
use std::alloc::Global;

/// Which items each item mentions through bodies, by position: synonyms, and signatures, which stand for their functions
/// (docs/LANGUAGE.md, "Names"). Want of memory is its one refusal.
pub fn mentions(alloc: Global, declared: &Declarations<'_>) -> Result<Vec<Vec<u32>>, Memory>
    requires { IsIndexed declared.now }
    ensures edges { IfOk result (λ edges. lists edges.items ≡ mentions (entries_of declared.now)) }
    ensures closed { IfOk result (λ edges. Closed (lists edges.items)) }
{
    let firsts = first_positions(alloc, declared.items)?;
    let mut edges = Vec::new(alloc);
    for item in declared.items {
        let mut targets = Vec::new(alloc);
        push_item(alloc, declared, &firsts, &mut targets, item)?;
        edges.push(targets)?;
    }
    Ok(edges)
}

// Adds the positions of what an item mentions, in reading order.
fn push_item(
    alloc: Global,
    declared: &Declarations<'_>,
    firsts: &Firsts<'_>,
    targets: &mut Vec<u32>,
    item: &Item,
) -> Result<(), Memory>
    requires indexed { IsIndexed declared.now }
    requires firsts { AreFirsts (entries_of declared.now) firsts.now }
    ensures { OnOk result (targets.new.items ≡ targets.old.items ++ entry_mentions (entries_of declared.now) (entry_of item.now)) }
{
    match item {
        Item::Synonym { body, .. } => push_type(&firsts.synonyms, targets, body),
        Item::Signature { at, .. } => {
            push_function(alloc, declared, &firsts.signatures, targets, at)
        }
        Item::Abstract { .. } => Ok(()),
        Item::Define { .. } => Ok(()),
    }
}

// Adds the positions of what the first definition of a name mentions.
fn push_function(
    alloc: Global,
    declared: &Declarations<'_>,
    signatures: &Positions<'_>,
    targets: &mut Vec<u32>,
    at: &At,
) -> Result<(), Memory>
    requires { IsIndexed declared.now }
    ensures { OnOk result (targets.new.items ≡ pushed signatures.now targets.old.items (defined_mentions (definition_named (entries_of declared.now) at.now.name))) }
{
    let Some(definition) = declared.definition_named(at.name.bytes()) else {
        return Ok(());
    };
    let mut scope = Scope::new(alloc);
    enter_pattern(&mut scope, definition.param)?;
    let before = std::mem::replace(targets, Vec::new(alloc));
    *targets = push_expr(signatures, &mut scope, Ok(before), definition.body)?;
    Ok(())
}
