// How types are built.
#![tactic(auto, using(cg_surface::proofs::Views::place_at))]

ghost use Rattle.std.specs.Prelude.{◌≡◌, IfOk};
ghost use Rattle.cg_parser_types.specs.Bounded.{bounded};
ghost use Rattle.cg_parser_types.specs.Machine as machine;
ghost use Rattle.cg_parser_types.specs.Views.{view_of, types_view, fields_view, alts_view};

use crate::built::{BuiltAlts, BuiltFields, BuiltType, BuiltTypes, MOST};
use crate::lists::no_types;
use cg_base::{Items, Memory, Name, Place};
use cg_core::At;
use cg_surface::{STy, STyForm};
use std::alloc::Global;

/// A name with its arguments.
pub(crate) fn named(place: Place, name: Name, args: Option<BuiltTypes>) -> Option<BuiltType>
    ensures { view_of result ≡ bounded.named place name (types_view args) }
{
    let Some(BuiltTypes { items, depth }) = args else {
        return None;
    };
    if depth >= MOST {
        return None;
    }
    let form = STyForm::Name(name, items);
    Some(BuiltType {
        tree: STy { place, form },
        depth: depth + 1,
    })
}

/// A name with no arguments.
pub(crate) fn bare(alloc: Global, place: Place, name: Name) -> Option<BuiltType>
    ensures { view_of result ≡ machine.bare bounded place name }
{
    named(place, name, no_types(alloc))
}

/// `()`.
pub(crate) fn unit(place: Place) -> Option<BuiltType>
    ensures { view_of result ≡ bounded.unit place }
{
    let form = STyForm::Unit;
    Some(BuiltType {
        tree: STy { place, form },
        depth: 1,
    })
}

/// A type in parentheses.
pub(crate) fn paren(
    alloc: Global,
    place: Place,
    inner: Option<BuiltType>,
) -> Result<Option<BuiltType>, Memory>
    ensures { IfOk result (λ t. view_of t ≡ bounded.paren place (view_of inner)) }
{
    let Some(BuiltType { tree, depth }) = inner else {
        return Ok(None);
    };
    if depth >= MOST {
        return Ok(None);
    }
    let form = STyForm::Paren(Box::new(alloc, tree)?);
    Ok(Some(BuiltType {
        tree: STy { place, form },
        depth: depth + 1,
    }))
}

/// A tuple.
pub(crate) fn tuple(place: Place, types: Option<BuiltTypes>) -> Option<BuiltType>
    ensures { view_of result ≡ bounded.tuple place (types_view types) }
{
    let Some(BuiltTypes { items, depth }) = types else {
        return None;
    };
    if depth >= MOST {
        return None;
    }
    let form = STyForm::Tuple(items);
    Some(BuiltType {
        tree: STy { place, form },
        depth: depth + 1,
    })
}

/// An arrow, at the place of what stands before it.
pub(crate) fn arrow(
    alloc: Global,
    from: Option<BuiltType>,
    to: Option<BuiltType>,
) -> Result<Option<BuiltType>, Memory>
    ensures { IfOk result (λ t. view_of t ≡ bounded.function (view_of from) (view_of to)) }
{
    let Some(BuiltType { tree: a, depth: m }) = from else {
        return Ok(None);
    };
    let Some(BuiltType { tree: b, depth: n }) = to else {
        return Ok(None);
    };
    let most = m.max(n);
    if most >= MOST {
        return Ok(None);
    }
    let place = a.place;
    let form = STyForm::Arrow(Box::new(alloc, a)?, Box::new(alloc, b)?);
    Ok(Some(BuiltType {
        tree: STy { place, form },
        depth: most + 1,
    }))
}

/// A record.
pub(crate) fn fields(place: Place, boxed: bool, fields: Option<BuiltFields>) -> Option<BuiltType>
    ensures { view_of result ≡ bounded.fields place boxed (fields_view fields) }
{
    let Some(BuiltFields { items, depth }) = fields else {
        return None;
    };
    if depth >= MOST {
        return None;
    }
    let form = STyForm::Fields(items, boxed);
    Some(BuiltType {
        tree: STy { place, form },
        depth: depth + 1,
    })
}

/// A variant.
pub(crate) fn variant(place: Place, alts: Option<BuiltAlts>) -> Option<BuiltType>
    ensures { view_of result ≡ bounded.variant place (alts_view alts) }
{
    let Some(BuiltAlts { items, depth }) = alts else {
        return None;
    };
    if depth >= MOST {
        return None;
    }
    let form = STyForm::Variant(items);
    Some(BuiltType {
        tree: STy { place, form },
        depth: depth + 1,
    })
}

/// A type with `!` behind it, at its place.
pub(crate) fn bang(alloc: Global, inner: Option<BuiltType>) -> Result<Option<BuiltType>, Memory>
    ensures { IfOk result (λ t. view_of t ≡ bounded.observed (view_of inner)) }
{
    let Some(BuiltType { tree, depth }) = inner else {
        return Ok(None);
    };
    if depth >= MOST {
        return Ok(None);
    }
    let place = tree.place;
    let form = STyForm::Bang(Box::new(alloc, tree)?);
    Ok(Some(BuiltType {
        tree: STy { place, form },
        depth: depth + 1,
    }))
}

/// A type of which these fields are taken, at its place.
pub(crate) fn take_some(
    alloc: Global,
    inner: Option<BuiltType>,
    names: Items<At>,
) -> Result<Option<BuiltType>, Memory>
    ensures { IfOk result (λ t. view_of t ≡ bounded.take_some (view_of inner) names) }
{
    let Some(BuiltType { tree, depth }) = inner else {
        return Ok(None);
    };
    if depth >= MOST {
        return Ok(None);
    }
    let place = tree.place;
    let form = STyForm::TakeSome(Box::new(alloc, tree)?, names);
    Ok(Some(BuiltType {
        tree: STy { place, form },
        depth: depth + 1,
    }))
}

/// A type of which all fields are taken, at its place; `word` is that of its `take`.
pub(crate) fn take_all(
    alloc: Global,
    inner: Option<BuiltType>,
    word: Place,
) -> Result<Option<BuiltType>, Memory>
    ensures { IfOk result (λ t. view_of t ≡ bounded.take_all (view_of inner) word) }
{
    let Some(BuiltType { tree, depth }) = inner else {
        return Ok(None);
    };
    if depth >= MOST {
        return Ok(None);
    }
    let place = tree.place;
    let form = STyForm::TakeAll(Box::new(alloc, tree)?, word);
    Ok(Some(BuiltType {
        tree: STy { place, form },
        depth: depth + 1,
    }))
}
