// Tables of the positions of items.
#![tactic(auto, using(std::proofs::lemmas::Grind::common_steps, crate::proofs::PositionSteps::position_steps))]

ghost use Rattle.std.specs.Prelude.{◌≡◌, ◌++◌, ◌∷◌, [], List, length, IfOk, OnOk};
ghost use Rattle.cg_surface.specs.Programs.{Entry, entry_of};
ghost use Rattle.cg_resolve_declared.specs.Views.{entries_in};
ghost use Rattle.cg_resolve_mentions.specs.Positions.{AreFirsts, pushed};

use cg_base::Memory;
use cg_resolve_declared::keep_first;
use cg_surface::Item;
use std::alloc::Global;
use std::collections::BTreeMap;

/// Names, each with the position of the first item that declares it.
pub type Positions<'a> = BTreeMap<&'a [u8], u32>;

/// The position of the first synonym of each name, and of its first signature.
#[derive(Drop)]
pub struct Firsts<'a> {
    pub synonyms: Positions<'a>,
    pub signatures: Positions<'a>,
}

/// The first synonym and the first signature of each name. Want of memory is its one refusal, and is answered too where a position
/// is no u32.
pub fn first_positions<'a>(alloc: Global, items: &'a [Item]) -> Result<Firsts<'a>, Memory>
    ensures { IfOk result (AreFirsts (entries_in items.now)) }
{
    let mut firsts = Firsts {
        synonyms: BTreeMap::new(alloc),
        signatures: BTreeMap::new(alloc),
    };
    let mut position: u32 = 0;
    for item in items {
        keep_item(&mut firsts, position, item)?;
        position = position.checked_add(1).ok_or(Memory)?;
    }
    Ok(firsts)
}

// Keeps the position of an item, where it is a synonym or a signature, unless one of its name stands before it.
fn keep_item<'a>(firsts: &mut Firsts<'a>, position: u32, item: &'a Item) -> Result<(), Memory>
    ensures { OnOk result ((front : List Entry) → position ≡ length front → AreFirsts front firsts.old → AreFirsts (front ++ entry_of item.now ∷ []) firsts.new) }
{
    match item {
        Item::Synonym { at, .. } => keep_first(&mut firsts.synonyms, at.name.bytes(), position),
        Item::Signature { at, .. } => {
            keep_first(&mut firsts.signatures, at.name.bytes(), position)
        }
        Item::Abstract { .. } => Ok(()),
        Item::Define { .. } => Ok(()),
    }
}

/// Adds the position of a name, where it has one. Want of memory is its one refusal.
pub fn push_name(
    positions: &Positions<'_>,
    targets: &mut Vec<u32>,
    name: &[u8],
) -> Result<(), Memory>
    ensures { OnOk result (targets.new.items ≡ pushed positions.now targets.old.items (name.now ∷ [])) }
{
    if let Some(position) = positions.get(name) {
        targets.push(*position)?;
    }
    Ok(())
}
