// How a `let`, an `if` and a match are built.
ghost use Rattle.std.specs.Prelude.{◌≡◌, IfOk};
ghost use Rattle.cg_surface.specs.Exprs.{expr_of};
ghost use Rattle.cg_parser_build.specs.Bounded.{bounded};
ghost use Rattle.cg_parser_build.specs.Plain.{first_place as first_of};
ghost use Rattle.cg_parser_build.specs.Views.{view_of, binds_view, alts_view};

use crate::built::{BuiltAlts, BuiltBinds, BuiltExpr, DEPTH_LIMIT};
use cg_base::{Items, Memory, Place};
use cg_core::At;
use cg_surface::{SExpr, SForm};
use std::alloc::Global;

/// A `let`, at its word's place: docs/LANGUAGE.md, "Expressions".
pub fn lets(
    alloc: Global,
    place: Place,
    binds: Option<BuiltBinds>,
    body: Option<BuiltExpr>,
) -> Result<Option<BuiltExpr>, Memory>
    ensures { IfOk result (λ e. view_of e ≡ bounded.lets place (binds_view binds) (view_of body)) }
{
    let Some(BuiltBinds { items, depth: m }) = binds else {
        return Ok(None);
    };
    let Some(BuiltExpr { tree, depth: n }) = body else {
        return Ok(None);
    };
    let most = m.max(n);
    if most >= DEPTH_LIMIT {
        return Ok(None);
    }
    let form = SForm::Let(items, Box::new(alloc, tree)?);
    Ok(Some(BuiltExpr {
        tree: SExpr { place, form },
        depth: most + 1,
    }))
}

/// An `if`, at its word's place, with the variables that are observed in its condition: docs/LANGUAGE.md, "Expressions".
pub fn if_else(
    alloc: Global,
    place: Place,
    condition: Option<BuiltExpr>,
    seen: Items<At>,
    yes: Option<BuiltExpr>,
    no: Option<BuiltExpr>,
) -> Result<Option<BuiltExpr>, Memory>
    ensures { IfOk result (λ e. view_of e ≡ bounded.if_else place (view_of condition) seen (view_of yes) (view_of no)) }
{
    let Some(BuiltExpr { tree: c, depth: l }) = condition else {
        return Ok(None);
    };
    let Some(BuiltExpr { tree: a, depth: m }) = yes else {
        return Ok(None);
    };
    let Some(BuiltExpr { tree: b, depth: n }) = no else {
        return Ok(None);
    };
    let most = l.max(m.max(n));
    if most >= DEPTH_LIMIT {
        return Ok(None);
    }
    let c = Box::new(alloc, c)?;
    let form = SForm::If(c, seen, Box::new(alloc, a)?, Box::new(alloc, b)?);
    Ok(Some(BuiltExpr {
        tree: SExpr { place, form },
        depth: most + 1,
    }))
}

/// The place of an expression's first token: that of the first operand of its first operator.
fn first_place(tree: &SExpr) -> Place
    ensures { result ≡ first_of (expr_of tree.now) }
{
    let mut first = tree;
    while let SForm::Binary(_, left, _) = &first.form {
        first = left;
    }
    first.place
}

/// A match, at the place of its subject's first token, with the variables that are observed in it: docs/LANGUAGE.md, "Expressions" and "Bars".
pub fn match_of(
    alloc: Global,
    subject: Option<BuiltExpr>,
    seen: Items<At>,
    alts: Option<BuiltAlts>,
) -> Result<Option<BuiltExpr>, Memory>
    ensures { IfOk result (λ e. view_of e ≡ bounded.match_of (view_of subject) seen (alts_view alts)) }
{
    let Some(BuiltExpr { tree, depth: m }) = subject else {
        return Ok(None);
    };
    let Some(BuiltAlts { items, depth: n }) = alts else {
        return Ok(None);
    };
    let most = m.max(n);
    if most >= DEPTH_LIMIT {
        return Ok(None);
    }
    let place = first_place(&tree);
    let form = SForm::Match(Box::new(alloc, tree)?, seen, items);
    Ok(Some(BuiltExpr {
        tree: SExpr { place, form },
        depth: most + 1,
    }))
}
