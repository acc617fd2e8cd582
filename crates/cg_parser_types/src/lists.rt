// How lists of types, of fields and of alternatives are built.
#![tactic(auto, using(crate::proofs::Added::added))]

ghost use Rattle.std.specs.Prelude.{◌≡◌, IfOk};
ghost use Rattle.cg_parser_types.specs.Bounded.{bounded};
ghost use Rattle.cg_parser_types.specs.Views.{view_of, types_view, fields_view, alts_view};

use crate::built::{BuiltAlts, BuiltFields, BuiltType, BuiltTypes};
use cg_base::{Items, Memory};
use cg_core::At;
use cg_surface::{SAlt, SPart};
use std::alloc::Global;

/// No types.
pub(crate) fn no_types(alloc: Global) -> Option<BuiltTypes>
    ensures { types_view result ≡ bounded.no_types }
{
    Some(BuiltTypes {
        items: Items::new(alloc),
        depth: 0,
    })
}

/// A type more.
pub(crate) fn and_type(
    types: Option<BuiltTypes>,
    ty: Option<BuiltType>,
) -> Result<Option<BuiltTypes>, Memory>
    ensures { IfOk result (λ ts. types_view ts ≡ bounded.and_type (types_view types) (view_of ty)) }
{
    let Some(BuiltTypes { items, depth: m }) = types else {
        return Ok(None);
    };
    let Some(BuiltType { tree, depth: n }) = ty else {
        return Ok(None);
    };
    let mut items = items;
    items.push(tree)?;
    Ok(Some(BuiltTypes {
        items,
        depth: m.max(n),
    }))
}

/// No fields.
pub(crate) fn no_fields(alloc: Global) -> Option<BuiltFields>
    ensures { fields_view result ≡ bounded.no_fields }
{
    Some(BuiltFields {
        items: Items::new(alloc),
        depth: 0,
    })
}

/// A field more.
pub(crate) fn and_field(
    fields: Option<BuiltFields>,
    at: At,
    ty: Option<BuiltType>,
) -> Result<Option<BuiltFields>, Memory>
    ensures { IfOk result (λ gs. fields_view gs ≡ bounded.and_field (fields_view fields) at (view_of ty)) }
{
    let Some(BuiltFields { items, depth: m }) = fields else {
        return Ok(None);
    };
    let Some(BuiltType { tree, depth: n }) = ty else {
        return Ok(None);
    };
    let mut items = items;
    items.push(SPart { at, ty: tree })?;
    Ok(Some(BuiltFields {
        items,
        depth: m.max(n),
    }))
}

/// No alternatives.
pub(crate) fn no_alts(alloc: Global) -> Option<BuiltAlts>
    ensures { alts_view result ≡ bounded.no_alts }
{
    Some(BuiltAlts {
        items: Items::new(alloc),
        depth: 0,
    })
}

/// An alternative with no payload more.
pub(crate) fn and_plain(alts: Option<BuiltAlts>, at: At) -> Result<Option<BuiltAlts>, Memory>
    ensures { IfOk result (λ choices. alts_view choices ≡ bounded.and_plain (alts_view alts) at) }
{
    let Some(BuiltAlts { items, depth }) = alts else {
        return Ok(None);
    };
    let mut items = items;
    items.push(SAlt { at, ty: None })?;
    Ok(Some(BuiltAlts { items, depth }))
}

/// An alternative with a payload more.
pub(crate) fn and_alt(
    alts: Option<BuiltAlts>,
    at: At,
    ty: Option<BuiltType>,
) -> Result<Option<BuiltAlts>, Memory>
    ensures { IfOk result (λ choices. alts_view choices ≡ bounded.and_alt (alts_view alts) at (view_of ty)) }
{
    let Some(BuiltAlts { items, depth: m }) = alts else {
        return Ok(None);
    };
    let Some(BuiltType { tree, depth: n }) = ty else {
        return Ok(None);
    };
    let mut items = items;
    items.push(SAlt { at, ty: Some(tree) })?;
    Ok(Some(BuiltAlts {
        items,
        depth: m.max(n),
    }))
}
