// The order of a program's items.
ghost use Rattle.std.specs.Prelude.{◌<◌, map, length};
ghost use Rattle.cg_surface.specs.Programs.{entry_of};
ghost use Rattle.cg_resolve_declared.specs.Declarations.{entries_of, IsIndexed};
ghost use Rattle.cg_resolve.specs.Answers.{OrderSays, IsPlaceAt};

use crate::fault::Fault;
use cg_base::Place;
use cg_graphs::{NoOrder, order};
use cg_resolve_declared::Declarations;
use cg_resolve_mentions::mentions;
use cg_surface::Item;
use std::alloc::Global;

/// All items in an order in which each stands behind all that it mentions, or N3 at the first that mentions itself through bodies
/// (docs/LANGUAGE.md, "Names").
pub fn mention_order(alloc: Global, declared: &Declarations<'_>) -> Result<Vec<u32>, Fault>
    requires { IsIndexed declared.now }
    ensures { OrderSays (entries_of declared.now) result }
{
    let edges = mentions(alloc, declared)?;
    match order(alloc, edges.as_slice()) {
        Ok(order) => Ok(order),
        Err(NoOrder::Circle(at)) => Err(Fault::N3(place_at(declared.items, at))),
        Err(NoOrder::Memory) => Err(Fault::Memory),
    }
}

// The place of the name of the item at a position.
fn place_at(items: &[Item], at: usize) -> Place
    requires { at < length items.now }
    ensures { IsPlaceAt (map entry_of items.now) at result }
{
    match &items[at] {
        Item::Synonym { at, .. } => at.place,
        Item::Abstract { at, .. } => at.place,
        Item::Signature { at, .. } => at.place,
        Item::Define { at, .. } => at.place,
    }
}
