// How patterns are built.
ghost use Rattle.std.specs.Prelude.{◌≡◌, IfOk};
ghost use Rattle.cg_parser_patterns.specs.Bounded.{bounded};
ghost use Rattle.cg_parser_patterns.specs.Views.{view_of, patterns_of, fields_of};

use crate::built::{BuiltFields, BuiltPattern, BuiltPatterns, MOST};
use cg_base::{Items, Memory, Name, Place};
use cg_core::At;
use cg_surface::{FPat, Pat, PatForm};
use std::alloc::Global;

/// A name.
pub(crate) fn name(place: Place, name: Name) -> Option<BuiltPattern>
    ensures { view_of result ≡ bounded.name place name }
{
    let form = PatForm::Name(name);
    Some(BuiltPattern {
        tree: Pat { place, form },
        depth: 1,
    })
}

/// `_`.
pub(crate) fn any(place: Place) -> Option<BuiltPattern>
    ensures { view_of result ≡ bounded.any place }
{
    let form = PatForm::Any;
    Some(BuiltPattern {
        tree: Pat { place, form },
        depth: 1,
    })
}

/// `()`.
pub(crate) fn unit(place: Place) -> Option<BuiltPattern>
    ensures { view_of result ≡ bounded.unit place }
{
    let form = PatForm::Unit;
    Some(BuiltPattern {
        tree: Pat { place, form },
        depth: 1,
    })
}

/// A pattern in parentheses.
pub(crate) fn paren(
    alloc: Global,
    place: Place,
    inner: Option<BuiltPattern>,
) -> Result<Option<BuiltPattern>, Memory>
    ensures { IfOk result (λ x. view_of x ≡ bounded.paren place (view_of inner)) }
{
    let Some(BuiltPattern { tree, depth }) = inner else {
        return Ok(None);
    };
    if depth >= MOST {
        return Ok(None);
    }
    let form = PatForm::Paren(Box::new(alloc, tree)?);
    Ok(Some(BuiltPattern {
        tree: Pat { place, form },
        depth: depth + 1,
    }))
}

/// A tuple.
pub(crate) fn tuple(place: Place, patterns: Option<BuiltPatterns>) -> Option<BuiltPattern>
    ensures { view_of result ≡ bounded.tuple place (patterns_of patterns) }
{
    let Some(BuiltPatterns { items, depth }) = patterns else {
        return None;
    };
    if depth >= MOST {
        return None;
    }
    let form = PatForm::Tuple(items);
    Some(BuiltPattern {
        tree: Pat { place, form },
        depth: depth + 1,
    })
}

/// An unboxed record.
pub(crate) fn fields(place: Place, fields: Option<BuiltFields>) -> Option<BuiltPattern>
    ensures { view_of result ≡ bounded.fields place (fields_of fields) }
{
    let Some(BuiltFields { items, depth }) = fields else {
        return None;
    };
    if depth >= MOST {
        return None;
    }
    let form = PatForm::Fields(items);
    Some(BuiltPattern {
        tree: Pat { place, form },
        depth: depth + 1,
    })
}

/// A record that fields are taken of.
pub(crate) fn take(place: Place, name: Name, fields: Option<BuiltFields>) -> Option<BuiltPattern>
    ensures { view_of result ≡ bounded.take place name (fields_of fields) }
{
    let Some(BuiltFields { items, depth }) = fields else {
        return None;
    };
    if depth >= MOST {
        return None;
    }
    let form = PatForm::Take(name, items);
    Some(BuiltPattern {
        tree: Pat { place, form },
        depth: depth + 1,
    })
}

/// No patterns.
#[tactic(auto, using(crate::proofs::Lists::list_steps))]
pub(crate) fn no_patterns(alloc: Global) -> Option<BuiltPatterns>
    ensures { patterns_of result ≡ bounded.no_patterns }
{
    Some(BuiltPatterns {
        items: Items::new(alloc),
        depth: 0,
    })
}

/// A pattern more.
#[tactic(auto, using(crate::proofs::Lists::list_steps))]
pub(crate) fn and_pattern(
    before: Option<BuiltPatterns>,
    pattern: Option<BuiltPattern>,
) -> Result<Option<BuiltPatterns>, Memory>
    ensures { IfOk result (λ xs. patterns_of xs ≡ bounded.and_pattern (patterns_of before) (view_of pattern)) }
{
    let Some(BuiltPatterns { mut items, depth }) = before else {
        return Ok(None);
    };
    let Some(BuiltPattern { tree, depth: last }) = pattern else {
        return Ok(None);
    };
    items.push(tree)?;
    Ok(Some(BuiltPatterns {
        items,
        depth: depth.max(last),
    }))
}

/// No fields.
#[tactic(auto, using(crate::proofs::Lists::list_steps))]
pub(crate) fn no_fields(alloc: Global) -> Option<BuiltFields>
    ensures { fields_of result ≡ bounded.no_fields }
{
    Some(BuiltFields {
        items: Items::new(alloc),
        depth: 0,
    })
}

/// A field more.
#[tactic(auto, using(crate::proofs::Lists::list_steps))]
pub(crate) fn and_field(
    before: Option<BuiltFields>,
    at: At,
    pattern: Option<BuiltPattern>,
) -> Result<Option<BuiltFields>, Memory>
    ensures { IfOk result (λ fs. fields_of fs ≡ bounded.and_field (fields_of before) at (view_of pattern)) }
{
    let Some(BuiltFields { mut items, depth }) = before else {
        return Ok(None);
    };
    let Some(BuiltPattern { tree, depth: last }) = pattern else {
        return Ok(None);
    };
    items.push(FPat { at, pat: tree })?;
    Ok(Some(BuiltFields {
        items,
        depth: depth.max(last),
    }))
}
