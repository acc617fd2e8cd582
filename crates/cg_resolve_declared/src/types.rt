// The types of a program.
#![tactic(auto, using(std::proofs::lemmas::Grind::common_steps, crate::proofs::TypeSteps::type_steps))]

ghost use Rattle.std.specs.Prelude.{List, ◌∷◌, [], ◌++◌, IfOk, OnOk};
ghost use Rattle.cg_surface.specs.Programs.{Entry, entry_of};
ghost use Rattle.cg_resolve_declared.specs.Views.{entries_in, AreTypes};

use crate::keep::keep_first;
use cg_base::Memory;
use cg_core::At;
use cg_surface::{Item, STy};
use std::alloc::Global;
use std::collections::BTreeMap;

/// A type of the program: its parameters, and what it is a synonym for, where it is one.
#[derive(Clone, Copy)]
pub struct DeclaredType<'a> {
    pub params: &'a [At],
    pub body: Option<&'a STy>,
}

/// Names, each with the first type that is declared under it.
pub type Types<'a> = BTreeMap<&'a [u8], DeclaredType<'a>>;

/// The first type of each name.
pub fn types<'a>(alloc: Global, items: &'a [Item]) -> Result<Types<'a>, Memory>
    ensures { IfOk result (AreTypes (entries_in items.now)) }
{
    let mut table = BTreeMap::new(alloc);
    for item in items {
        keep_type(&mut table, item)?;
    }
    Ok(table)
}

// Keeps the type that an item declares, unless an item behind declares one of its name.
fn keep_type<'a>(table: &mut Types<'a>, item: &'a Item) -> Result<(), Memory>
    ensures { OnOk result ((front : List Entry) → AreTypes front table.old → AreTypes (front ++ entry_of item.now ∷ []) table.new) }
{
    match item {
        Item::Synonym { at, params, body } => {
            let params = params.as_slice();
            let body = Some(body);
            keep_first(table, at.name.bytes(), DeclaredType { params, body })
        }
        Item::Abstract { at, params } => {
            let params = params.as_slice();
            keep_first(table, at.name.bytes(), DeclaredType { params, body: None })
        }
        Item::Signature { .. } => Ok(()),
        Item::Define { .. } => Ok(()),
    }
}
