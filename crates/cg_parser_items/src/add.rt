// Adding items to those before them, where none of them is too deep.
ghost use Rattle.std.specs.Prelude.{◌≡◌, Some, None, OnOk, IfOk, if◌then◌else◌};
ghost use Rattle.cg_surface.specs.Programs.{entry_of};
ghost use Rattle.cg_parser_def.specs.Bounded.{added, bounded};
ghost use Rattle.cg_parser_def.specs.Machine as machine;
ghost use Rattle.cg_parser_exprs_def.specs.Held.{types, patterns};
ghost use Rattle.cg_parser_def.specs.Held.{exprs};
ghost use Rattle.cg_parser_items.specs.Views.{items_of, item_of, type_end};

use crate::phase::Vars;
use cg_base::{Items, Memory};
use cg_core::At;
use cg_parser_types::TypeEnd;
use cg_surface::{Item, Program};

/// Adds an item to those before it.
fn push(done: &mut Option<Program>, item: Item) -> Result<(), Memory>
    ensures { OnOk result (items_of done.new ≡ added (items_of done.old) (Some (entry_of item))) }
{
    if let Some(program) = done {
        program.items.push(item)?;
    }
    Ok(())
}

/// Adds an item. Where it is too deep, no item is left.
pub fn add(done: &mut Option<Program>, item: Option<Item>) -> Result<(), Memory>
    ensures { OnOk result (items_of done.new ≡ added (items_of done.old) (item_of item)) }
{
    match item {
        Some(item) => push(done, item),
        None => {
            *done = None;
            Ok(())
        }
    }
}

/// Ends a synonym, where its type can end.
pub fn end_synonym(
    done: &mut Option<Program>,
    at: At,
    params: Items<At>,
    end: TypeEnd,
) -> Result<bool, Memory>
    ensures { IfOk result (λ b. machine.end_synonym types patterns exprs bounded (items_of done.old) at params (type_end end) ≡ (if b then Some (items_of done.new) else None)) }
{
    let item = match end {
        TypeEnd::Unfinished => return Ok(false),
        TypeEnd::TooDeep => None,
        TypeEnd::Whole(built) => Some(Item::Synonym {
            at,
            params,
            body: built.tree,
        }),
    };
    add(done, item)?;
    Ok(true)
}

/// Ends a signature, where its type can end.
pub fn end_signature(
    done: &mut Option<Program>,
    at: At,
    vars: Vars,
    end: TypeEnd,
) -> Result<bool, Memory>
    ensures { IfOk result (λ b. machine.end_signature types patterns exprs bounded (items_of done.old) at vars.bounds vars.places (type_end end) ≡ (if b then Some (items_of done.new) else None)) }
{
    let Vars { bounds, places } = vars;
    let item = match end {
        TypeEnd::Unfinished => return Ok(false),
        TypeEnd::TooDeep => None,
        TypeEnd::Whole(built) => Some(Item::Signature {
            at,
            vars: bounds,
            places,
            ty: built.tree,
        }),
    };
    add(done, item)?;
    Ok(true)
}
