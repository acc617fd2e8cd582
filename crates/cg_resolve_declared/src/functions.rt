// The functions of a program.
#![tactic(auto, using(std::proofs::lemmas::Grind::common_steps, crate::proofs::FunctionSteps::function_steps))]

ghost use Rattle.std.specs.Prelude.{◌≡◌, List, ◌∷◌, [], ◌++◌, IfOk, OnOk};
ghost use Rattle.cg_surface.specs.Programs.{Entry, entry_of};
ghost use Rattle.cg_resolve_declared.specs.Views.{entries_in, AreFunctions, signatures_in};

use crate::keep::keep_first;
use cg_base::{Bound, Memory};
use cg_surface::Item;
use std::alloc::Global;
use std::collections::BTreeMap;

/// A function of the program: its position among the signatures, and its type variables.
#[derive(Clone, Copy)]
pub struct DeclaredFunction<'a> {
    pub position: u32,
    pub vars: &'a [Bound],
}

/// Names, each with the function of its first signature.
pub type Functions<'a> = BTreeMap<&'a [u8], DeclaredFunction<'a>>;

/// The function of the first signature of each name.
pub fn functions<'a>(alloc: Global, items: &'a [Item]) -> Result<Functions<'a>, Memory>
    ensures { IfOk result (AreFunctions (entries_in items.now)) }
{
    let mut table = BTreeMap::new(alloc);
    let mut position = 0;
    for item in items {
        position = keep_function(&mut table, position, item)?;
    }
    Ok(table)
}

// Keeps the function of an item, where it is a signature, unless an item behind has one of its name: the position of the next.
fn keep_function<'a>(
    table: &mut Functions<'a>,
    position: u32,
    item: &'a Item,
) -> Result<u32, Memory>
    ensures { IfOk result (λ next. (front : List Entry) → position ≡ signatures_in front → AreFunctions front table.old
        → (next ≡ signatures_in (front ++ entry_of item.now ∷ [])) × AreFunctions (front ++ entry_of item.now ∷ []) table.new) }
{
    match item {
        Item::Signature { at, vars, .. } => {
            let vars = vars.as_slice();
            let next = position.checked_add(1).ok_or(Memory)?;
            keep_first(table, at.name.bytes(), DeclaredFunction { position, vars })?;
            Ok(next)
        }
        Item::Synonym { .. } => Ok(position),
        Item::Abstract { .. } => Ok(position),
        Item::Define { .. } => Ok(position),
    }
}
