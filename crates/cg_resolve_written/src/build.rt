// The synonyms of a program.
#![tactic(auto, using(std::proofs::lemmas::Grind::common_steps, crate::proofs::SynonymSteps::synonym_steps))]

ghost use Rattle.std.specs.Prelude.{◌≡◌, [], ◌<◌, map, slice_get, IfOk, IfErr, OnOk};
ghost use Rattle.cg_graphs.specs.Circles.{IsOrder};
ghost use Rattle.cg_resolve_declared.specs.Tables.{texts};
ghost use Rattle.cg_resolve_def.specs.Desugar.{type_limit};
ghost use Rattle.cg_resolve_def.specs.Faults.{names_of, program_faults};
ghost use Rattle.cg_resolve_def.specs.Mentions.{mentions};
ghost use Rattle.cg_surface.specs.Programs.{entry_of};
ghost use Rattle.cg_surface.specs.Written.{written_of};
ghost use Rattle.cg_resolve_expand.specs.Known.{known_of};
ghost use Rattle.cg_resolve_written.specs.Answers.{SynonymsSay};
ghost use Rattle.cg_resolve_written.specs.Keeps.{Keeps, KeepsEntry, KeepsBody, greatest_at, greatest_body};
ghost use Rattle.cg_resolve_written.specs.Sizes.{greatest};
ghost use Rattle.cg_resolve_written.specs.declared.oversize.Oversize.TheVariants.{TooLarge};

use crate::Oversize;
use crate::measure::measure;
use crate::size::size;
use cg_base::{Items, Memory};
use cg_core::At;
use cg_resolve_expand::{Synonyms, written_type};
use cg_surface::{Item, STy};
use std::alloc::Global;
use std::collections::BTreeMap;

/// What the synonyms of these items are for, where names are in order, and each item stands in the order behind all that it
/// mentions (docs/LANGUAGE.md, "Synonyms"). TooLarge says that a type which is written somewhere, be it an argument that a
/// synonym drops, has more nodes than the limit (docs/LANGUAGE.md, "Limits"); none that has more is ever built.
pub fn synonyms<'a>(
    alloc: Global,
    items: &'a [Item],
    order: &[u32],
) -> Result<Synonyms<'a>, Oversize>
    requires names { program_faults (map entry_of items.now) ≡ [] }
    requires order { IsOrder (mentions (map entry_of items.now)) order.now }
    ensures { SynonymsSay (map entry_of items.now) result }
{
    let mut synonyms = Synonyms {
        bodies: BTreeMap::new(alloc),
    };
    for position in order {
        keep_at(alloc, &mut synonyms, items, *position)?;
    }
    measure(alloc, &synonyms, items)?;
    Ok(synonyms)
}

// Keeps what the item at this position is for, where it is a synonym.
fn keep_at<'a>(
    alloc: Global,
    synonyms: &mut Synonyms<'a>,
    items: &'a [Item],
    position: u32,
) -> Result<(), Oversize>
    ensures ok { OnOk result (Keeps (known_of synonyms.old) (known_of synonyms.new) (slice_get (map entry_of items.now) position)) }
    ensures over { IfErr result (λ e. e ≡ TooLarge → type_limit < greatest_at (known_of synonyms.old) (slice_get (map entry_of items.now) position)) }
{
    match items.get(position as usize) {
        None => Ok(()),
        Some(item) => keep_item(alloc, synonyms, item),
    }
}

// Keeps what an item is for, where it is a synonym.
fn keep_item<'a>(alloc: Global, synonyms: &mut Synonyms<'a>, item: &'a Item) -> Result<(), Oversize>
    ensures ok { OnOk result (KeepsEntry (known_of synonyms.old) (known_of synonyms.new) (entry_of item.now)) }
    ensures over { IfErr result (λ e. e ≡ TooLarge → type_limit < greatest_body (known_of synonyms.old) (entry_of item.now)) }
{
    match item {
        Item::Synonym { at, params, body } => {
            keep_body(alloc, synonyms, at.name.bytes(), params, body)
        }
        Item::Abstract { .. } => Ok(()),
        Item::Signature { .. } => Ok(()),
        Item::Define { .. } => Ok(()),
    }
}

// Keeps what a synonym with this name, these parameters and this body is for, unless it is too large.
fn keep_body<'a>(
    alloc: Global,
    synonyms: &mut Synonyms<'a>,
    name: &'a [u8],
    params: &Items<At>,
    body: &STy,
) -> Result<(), Oversize>
    ensures ok { OnOk result (KeepsBody (known_of synonyms.old) (known_of synonyms.new) name.now (names_of params.now) (written_of body.now)) }
    ensures over { IfErr result (λ e. e ≡ TooLarge → type_limit < greatest (known_of synonyms.old) (written_of body.now)) }
{
    size(alloc, synonyms, body)?;
    let vars = names_of(alloc, params.as_slice())?;
    let ty = written_type(alloc, synonyms, &vars, body)?;
    synonyms.bodies.insert(name, ty)?;
    Ok(())
}

// The names of parameters.
fn names_of<'a>(alloc: Global, params: &'a [At]) -> Result<Vec<&'a [u8]>, Memory>
    ensures { IfOk result (λ names. texts names.items ≡ names_of params.now) }
{
    let mut names = Vec::new(alloc);
    for param in params {
        names.push(param.name.bytes())?;
    }
    Ok(names)
}
