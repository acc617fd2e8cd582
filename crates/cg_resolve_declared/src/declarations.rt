// What a program declares.
#![tactic(auto, using(std::proofs::lemmas::Grind::common_steps, crate::proofs::DefinitionSteps::definition_steps))]

ghost use Rattle.std.specs.Prelude.{◌≡◌, List, ◌∷◌, [], ◌++◌, IfOk, OnOk};
ghost use Rattle.std.specs.Option.{option_map};
ghost use Rattle.cg_surface.specs.Programs.{Entry, entry_of};
ghost use Rattle.cg_resolve_def.specs.Declared.{type_named, function_named, definition_named};
ghost use Rattle.cg_resolve_declared.specs.Views.{entries_in, AreDefinitions, declared_of, function_of, defined_of};

use crate::functions::{DeclaredFunction, Functions, functions};
use crate::keep::keep_first;
use crate::types::{DeclaredType, Types, types};
use cg_base::Memory;
use cg_surface::{Item, Pat, SExpr};
use std::alloc::Global;
use std::collections::BTreeMap;

/// A definition: its parameter and its body.
#[derive(Clone, Copy)]
pub struct Definition<'a> {
    pub param: &'a Pat,
    pub body: &'a SExpr,
}

/// Names, each with its first definition.
pub type Definitions<'a> = BTreeMap<&'a [u8], Definition<'a>>;

/// The items of a program, and tables of what they declare. Of several declarations of one name the first counts.
#[derive(Drop)]
pub struct Declarations<'a> {
    pub items: &'a [Item],
    pub types: Types<'a>,
    pub functions: Functions<'a>,
    pub definitions: Definitions<'a>,
}

impl<'a> Declarations<'a> {
    ghost use Rattle.cg_resolve_declared.specs.Declarations.{entries_of, IsIndexed};

    /// What these items declare. Want of memory is its one refusal.
    pub fn new(alloc: Global, items: &'a [Item]) -> Result<Declarations<'a>, Memory>
        ensures items { IfOk result (λ made. entries_of made ≡ entries_in items.now) }
        ensures indexed { IfOk result IsIndexed }
    {
        let types = types(alloc, items)?;
        let functions = functions(alloc, items)?;
        let definitions = definitions(alloc, items)?;
        Ok(Declarations {
            items,
            types,
            functions,
            definitions,
        })
    }

    /// The first type of this name, where there is one. It takes no memory.
    pub fn type_named(&self, name: &[u8]) -> Option<DeclaredType<'a>>
        requires { IsIndexed self.now }
        ensures { option_map declared_of result ≡ type_named (entries_of self.now) name.now }
    {
        self.types.get(name).copied()
    }

    /// The function of the first signature of this name, where there is one. It takes no memory.
    pub fn function_named(&self, name: &[u8]) -> Option<DeclaredFunction<'a>>
        requires { IsIndexed self.now }
        ensures { option_map function_of result ≡ function_named (entries_of self.now) name.now }
    {
        self.functions.get(name).copied()
    }

    /// The first definition of this name, where there is one. It takes no memory.
    pub fn definition_named(&self, name: &[u8]) -> Option<Definition<'a>>
        requires { IsIndexed self.now }
        ensures { option_map defined_of result ≡ definition_named (entries_of self.now) name.now }
    {
        self.definitions.get(name).copied()
    }
}

// The first definition of each name.
fn definitions<'a>(alloc: Global, items: &'a [Item]) -> Result<Definitions<'a>, Memory>
    ensures { IfOk result (AreDefinitions (entries_in items.now)) }
{
    let mut table = BTreeMap::new(alloc);
    for item in items {
        keep_definition(&mut table, item)?;
    }
    Ok(table)
}

// Keeps what an item defines, unless an item behind defines it.
fn keep_definition<'a>(table: &mut Definitions<'a>, item: &'a Item) -> Result<(), Memory>
    ensures { OnOk result ((front : List Entry) → AreDefinitions front table.old → AreDefinitions (front ++ entry_of item.now ∷ []) table.new) }
{
    match item {
        Item::Define { at, param, body } => {
            keep_first(table, at.name.bytes(), Definition { param, body })
        }
        Item::Synonym { .. } => Ok(()),
        Item::Abstract { .. } => Ok(()),
        Item::Signature { .. } => Ok(()),
    }
}
