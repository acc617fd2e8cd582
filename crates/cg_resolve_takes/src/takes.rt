// Fields that are taken in a program.
#![tactic(auto, using(std::proofs::lemmas::Grind::common_steps, crate::proofs::SaySteps::say_steps))]

ghost use Rattle.cg_graphs.specs.Circles.{IsOrder};
ghost use Rattle.cg_resolve_declared.specs.Declarations.{entries_of, IsIndexed};
ghost use Rattle.cg_resolve_def.specs.Mentions.{mentions};
ghost use Rattle.cg_resolve_def.specs.Takes.{missing_fields};
ghost use Rattle.cg_surface.specs.Programs.{entry_of};
ghost use Rattle.cg_resolve_takes.specs.Missing.{absent_item};
ghost use Rattle.cg_resolve_takes.specs.Says.{TakesSay};
ghost use Rattle.cg_resolve_takes.specs.Views.{heads_in};

use crate::exprs::check_expr;
use crate::fault::TakeFault;
use crate::known::{HeadTable, known_heads};
use crate::types::check_alone;
use cg_resolve_declared::Declarations;
use cg_surface::Item;
use std::alloc::Global;

/// The first place in reading order where fields are taken of a type that hasn't them (docs/LANGUAGE.md, "Names"). In the order each item
/// stands behind all that it mentions. Want of memory is its one other refusal.
pub fn check_takes(
    alloc: Global,
    declared: &Declarations<'_>,
    order: &[u32],
) -> Result<(), TakeFault>
    requires indexed { IsIndexed declared.now }
    requires order { IsOrder (mentions (entries_of declared.now)) order.now }
    ensures { TakesSay (missing_fields (entries_of declared.now)) result }
{
    let table = known_heads(alloc, declared, order)?;
    for item in declared.items {
        check_item(alloc, &table, item)?;
    }
    Ok(())
}

// The first place in an item.
fn check_item<'a>(alloc: Global, table: &HeadTable<'a>, item: &'a Item) -> Result<(), TakeFault>
    ensures { TakesSay (absent_item (heads_in table.now) (entry_of item.now)) result }
{
    match item {
        Item::Synonym { body, .. } => check_alone(alloc, table, Ok(()), body),
        Item::Abstract { .. } => Ok(()),
        Item::Signature { ty, .. } => check_alone(alloc, table, Ok(()), ty),
        Item::Define { body, .. } => check_expr(alloc, table, body),
    }
}
