// How lists of type arguments, expressions, fields, bindings and alternatives are built.
#![tactic(auto, using(crate::proofs::Added::added))]

ghost use Rattle.std.specs.Prelude.{◌≡◌, IfOk};
ghost use Rattle.cg_parser_build.specs.Bounded.{bounded};
ghost use Rattle.cg_parser_build.specs.Views.{view_of, type_view, pattern_view, args_view, exprs_view, fields_view, binds_view, alts_view};

use crate::built::{BuiltAlts, BuiltArgs, BuiltBinds, BuiltExpr, BuiltExprs, BuiltFields};
use cg_base::{Items, Memory, Name, Place};
use cg_core::At;
use cg_parser_patterns::BuiltPattern;
use cg_parser_types::BuiltType;
use cg_surface::{Alt, Bind, FExpr};
use std::alloc::Global;

/// No type arguments: docs/LANGUAGE.md, "Expressions".
pub fn no_args(alloc: Global) -> Option<BuiltArgs>
    ensures { args_view result ≡ bounded.no_args }
{
    Some(BuiltArgs {
        items: Items::new(alloc),
        depth: 0,
    })
}

/// A type argument more: docs/LANGUAGE.md, "Expressions".
pub fn and_arg(args: Option<BuiltArgs>, ty: Option<BuiltType>) -> Result<Option<BuiltArgs>, Memory>
    ensures { IfOk result (λ ts. args_view ts ≡ bounded.and_arg (args_view args) (type_view ty)) }
{
    let Some(BuiltArgs { items, depth: m }) = args else {
        return Ok(None);
    };
    let Some(BuiltType { tree, depth: n }) = ty else {
        return Ok(None);
    };
    let mut items = items;
    items.push(tree)?;
    Ok(Some(BuiltArgs {
        items,
        depth: m.max(n),
    }))
}

/// No expressions: docs/LANGUAGE.md, "Expressions".
pub fn no_exprs(alloc: Global) -> Option<BuiltExprs>
    ensures { exprs_view result ≡ bounded.no_exprs }
{
    Some(BuiltExprs {
        items: Items::new(alloc),
        depth: 0,
    })
}

/// An expression more: docs/LANGUAGE.md, "Expressions".
pub fn and_expr(
    exprs: Option<BuiltExprs>,
    tree: Option<BuiltExpr>,
) -> Result<Option<BuiltExprs>, Memory>
    ensures { IfOk result (λ es. exprs_view es ≡ bounded.and_expr (exprs_view exprs) (view_of tree)) }
{
    let Some(BuiltExprs { items, depth: m }) = exprs else {
        return Ok(None);
    };
    let Some(BuiltExpr { tree, depth: n }) = tree else {
        return Ok(None);
    };
    let mut items = items;
    items.push(tree)?;
    Ok(Some(BuiltExprs {
        items,
        depth: m.max(n),
    }))
}

/// No fields: docs/LANGUAGE.md, "Expressions".
pub fn no_fields(alloc: Global) -> Option<BuiltFields>
    ensures { fields_view result ≡ bounded.no_fields }
{
    Some(BuiltFields {
        items: Items::new(alloc),
        depth: 0,
    })
}

/// A field more: docs/LANGUAGE.md, "Expressions".
pub fn and_field(
    fields: Option<BuiltFields>,
    at: At,
    tree: Option<BuiltExpr>,
) -> Result<Option<BuiltFields>, Memory>
    ensures { IfOk result (λ gs. fields_view gs ≡ bounded.and_field (fields_view fields) at (view_of tree)) }
{
    let Some(BuiltFields { items, depth: m }) = fields else {
        return Ok(None);
    };
    let Some(BuiltExpr { tree, depth: n }) = tree else {
        return Ok(None);
    };
    let mut items = items;
    items.push(FExpr { at, value: tree })?;
    Ok(Some(BuiltFields {
        items,
        depth: m.max(n),
    }))
}

/// No bindings: docs/LANGUAGE.md, "Expressions".
pub fn no_binds(alloc: Global) -> Option<BuiltBinds>
    ensures { binds_view result ≡ bounded.no_binds }
{
    Some(BuiltBinds {
        items: Items::new(alloc),
        depth: 0,
    })
}

/// A binding more, with the variables that are observed in it: docs/LANGUAGE.md, "Expressions".
pub fn and_bind(
    binds: Option<BuiltBinds>,
    pattern: Option<BuiltPattern>,
    value: Option<BuiltExpr>,
    seen: Items<At>,
) -> Result<Option<BuiltBinds>, Memory>
    ensures { IfOk result (λ bs. binds_view bs ≡ bounded.and_bind (binds_view binds) (pattern_view pattern) (view_of value) seen) }
{
    let Some(BuiltBinds { items, depth: l }) = binds else {
        return Ok(None);
    };
    let Some(BuiltPattern { tree: x, depth: m }) = pattern else {
        return Ok(None);
    };
    let Some(BuiltExpr { tree, depth: n }) = value else {
        return Ok(None);
    };
    let mut items = items;
    items.push(Bind {
        pat: x,
        value: tree,
        seen,
    })?;
    Ok(Some(BuiltBinds {
        items,
        depth: l.max(m.max(n)),
    }))
}

/// No alternatives: docs/LANGUAGE.md, "Expressions".
pub fn no_alts(alloc: Global) -> Option<BuiltAlts>
    ensures { alts_view result ≡ bounded.no_alts }
{
    Some(BuiltAlts {
        items: Items::new(alloc),
        depth: 0,
    })
}

/// An alternative more: docs/LANGUAGE.md, "Expressions".
pub fn and_alt(
    alts: Option<BuiltAlts>,
    place: Place,
    con: Option<Name>,
    pattern: Option<BuiltPattern>,
    body: Option<BuiltExpr>,
) -> Result<Option<BuiltAlts>, Memory>
    ensures { IfOk result (λ choices. alts_view choices ≡ bounded.and_alt (alts_view alts) place con (pattern_view pattern) (view_of body)) }
{
    let Some(BuiltAlts { items, depth: l }) = alts else {
        return Ok(None);
    };
    let Some(BuiltPattern { tree: x, depth: m }) = pattern else {
        return Ok(None);
    };
    let Some(BuiltExpr { tree, depth: n }) = body else {
        return Ok(None);
    };
    let mut items = items;
    items.push(Alt {
        place,
        con,
        pat: x,
        body: tree,
    })?;
    Ok(Some(BuiltAlts {
        items,
        depth: l.max(m.max(n)),
    }))
}
