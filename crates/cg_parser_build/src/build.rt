// How expressions are built.
#![tactic(auto, using(crate::proofs::Added::place_at))]

ghost use Rattle.std.specs.Prelude.{◌≡◌, IfOk};
ghost use Rattle.cg_parser_build.specs.Bounded.{bounded};
ghost use Rattle.cg_parser_build.specs.Views.{view_of, type_view, args_view, exprs_view, fields_view};

use crate::built::{BuiltArgs, BuiltExpr, BuiltExprs, BuiltFields, DEPTH_LIMIT};
use cg_base::{Memory, Name, Place};
use cg_core::{At, Op};
use cg_parser_types::BuiltType;
use cg_surface::{SExpr, SForm};
use std::alloc::Global;

/// A name with its type arguments: docs/LANGUAGE.md, "Expressions".
pub fn name(place: Place, name: Name, args: Option<BuiltArgs>) -> Option<BuiltExpr>
    ensures { view_of result ≡ bounded.name place name (args_view args) }
{
    let Some(BuiltArgs { items, depth }) = args else {
        return None;
    };
    if depth >= DEPTH_LIMIT {
        return None;
    }
    let form = SForm::Name(name, items);
    Some(BuiltExpr {
        tree: SExpr { place, form },
        depth: depth + 1,
    })
}

/// A number, where it is no more than 2^64 - 1: docs/LANGUAGE.md, "Expressions".
pub fn number(place: Place, value: Option<u64>) -> Option<BuiltExpr>
    ensures { view_of result ≡ bounded.number place value }
{
    let form = SForm::Number(value);
    Some(BuiltExpr {
        tree: SExpr { place, form },
        depth: 1,
    })
}

/// `True` or `False`: docs/LANGUAGE.md, "Expressions".
pub fn boolean(place: Place, value: bool) -> Option<BuiltExpr>
    ensures { view_of result ≡ bounded.bool place value }
{
    let form = SForm::Bool(value);
    Some(BuiltExpr {
        tree: SExpr { place, form },
        depth: 1,
    })
}

/// `()`: docs/LANGUAGE.md, "Expressions".
pub fn unit(place: Place) -> Option<BuiltExpr>
    ensures { view_of result ≡ bounded.unit place }
{
    let form = SForm::Unit;
    Some(BuiltExpr {
        tree: SExpr { place, form },
        depth: 1,
    })
}

/// An expression in parentheses: docs/LANGUAGE.md, "Expressions".
pub fn paren(
    alloc: Global,
    place: Place,
    inner: Option<BuiltExpr>,
) -> Result<Option<BuiltExpr>, Memory>
    ensures { IfOk result (λ e. view_of e ≡ bounded.paren place (view_of inner)) }
{
    let Some(BuiltExpr { tree, depth }) = inner else {
        return Ok(None);
    };
    if depth >= DEPTH_LIMIT {
        return Ok(None);
    }
    let form = SForm::Paren(Box::new(alloc, tree)?);
    Ok(Some(BuiltExpr {
        tree: SExpr { place, form },
        depth: depth + 1,
    }))
}

/// An expression with its type, in parentheses: docs/LANGUAGE.md, "Expressions".
pub fn sig(
    alloc: Global,
    place: Place,
    inner: Option<BuiltExpr>,
    ty: Option<BuiltType>,
) -> Result<Option<BuiltExpr>, Memory>
    ensures { IfOk result (λ e. view_of e ≡ bounded.sig place (view_of inner) (type_view ty)) }
{
    let Some(BuiltExpr { tree, depth: m }) = inner else {
        return Ok(None);
    };
    let Some(BuiltType { tree: ty, depth: n }) = ty else {
        return Ok(None);
    };
    let most = m.max(n);
    if most >= DEPTH_LIMIT {
        return Ok(None);
    }
    let form = SForm::Sig(Box::new(alloc, tree)?, ty);
    Ok(Some(BuiltExpr {
        tree: SExpr { place, form },
        depth: most + 1,
    }))
}

/// A tuple: docs/LANGUAGE.md, "Expressions".
pub fn tuple(place: Place, exprs: Option<BuiltExprs>) -> Option<BuiltExpr>
    ensures { view_of result ≡ bounded.tuple place (exprs_view exprs) }
{
    let Some(BuiltExprs { items, depth }) = exprs else {
        return None;
    };
    if depth >= DEPTH_LIMIT {
        return None;
    }
    let form = SForm::Tuple(items);
    Some(BuiltExpr {
        tree: SExpr { place, form },
        depth: depth + 1,
    })
}

/// An unboxed record: docs/LANGUAGE.md, "Expressions".
pub fn fields(place: Place, fields: Option<BuiltFields>) -> Option<BuiltExpr>
    ensures { view_of result ≡ bounded.fields place (fields_view fields) }
{
    let Some(BuiltFields { items, depth }) = fields else {
        return None;
    };
    if depth >= DEPTH_LIMIT {
        return None;
    }
    let form = SForm::Fields(items);
    Some(BuiltExpr {
        tree: SExpr { place, form },
        depth: depth + 1,
    })
}

/// A constructor alone: docs/LANGUAGE.md, "Expressions".
pub fn con(place: Place, name: Name) -> Option<BuiltExpr>
    ensures { view_of result ≡ bounded.con place name }
{
    let form = SForm::Con(name, None);
    let depth = 1;
    Some(BuiltExpr {
        tree: SExpr { place, form },
        depth,
    })
}

/// A constructor with what it holds: docs/LANGUAGE.md, "Expressions".
#[tactic(auto, using(crate::proofs::Added::con_with))]
pub fn con_of(
    alloc: Global,
    place: Place,
    name: Name,
    inner: Option<BuiltExpr>,
) -> Result<Option<BuiltExpr>, Memory>
    ensures { IfOk result (λ e. view_of e ≡ bounded.con_of place name (view_of inner)) }
{
    let Some(BuiltExpr { tree, depth }) = inner else {
        return Ok(None);
    };
    if depth >= DEPTH_LIMIT {
        return Ok(None);
    }
    let form = SForm::Con(name, Some(Box::new(alloc, tree)?));
    Ok(Some(BuiltExpr {
        tree: SExpr { place, form },
        depth: depth + 1,
    }))
}

/// A call, at its function's place: docs/LANGUAGE.md, "Expressions".
pub fn app(
    alloc: Global,
    function: Option<BuiltExpr>,
    argument: Option<BuiltExpr>,
) -> Result<Option<BuiltExpr>, Memory>
    ensures { IfOk result (λ e. view_of e ≡ bounded.app (view_of function) (view_of argument)) }
{
    let Some(BuiltExpr { tree: f, depth: m }) = function else {
        return Ok(None);
    };
    let Some(BuiltExpr { tree: a, depth: n }) = argument else {
        return Ok(None);
    };
    let most = m.max(n);
    if most >= DEPTH_LIMIT {
        return Ok(None);
    }
    let place = f.place;
    let form = SForm::App(Box::new(alloc, f)?, Box::new(alloc, a)?);
    Ok(Some(BuiltExpr {
        tree: SExpr { place, form },
        depth: most + 1,
    }))
}

/// A field of an expression, at its place: docs/LANGUAGE.md, "Expressions".
pub fn member(alloc: Global, inner: Option<BuiltExpr>, at: At) -> Result<Option<BuiltExpr>, Memory>
    ensures { IfOk result (λ e. view_of e ≡ bounded.member (view_of inner) at) }
{
    let Some(BuiltExpr { tree, depth }) = inner else {
        return Ok(None);
    };
    if depth >= DEPTH_LIMIT {
        return Ok(None);
    }
    let place = tree.place;
    let form = SForm::Member(Box::new(alloc, tree)?, at);
    Ok(Some(BuiltExpr {
        tree: SExpr { place, form },
        depth: depth + 1,
    }))
}

/// Fields that are put into an expression, at its place: docs/LANGUAGE.md, "Expressions".
pub fn put(
    alloc: Global,
    inner: Option<BuiltExpr>,
    fields: Option<BuiltFields>,
) -> Result<Option<BuiltExpr>, Memory>
    ensures { IfOk result (λ e. view_of e ≡ bounded.put (view_of inner) (fields_view fields)) }
{
    let Some(BuiltExpr { tree, depth: m }) = inner else {
        return Ok(None);
    };
    let Some(BuiltFields { items, depth: n }) = fields else {
        return Ok(None);
    };
    let most = m.max(n);
    if most >= DEPTH_LIMIT {
        return Ok(None);
    }
    let place = tree.place;
    let form = SForm::Put(Box::new(alloc, tree)?, items);
    Ok(Some(BuiltExpr {
        tree: SExpr { place, form },
        depth: most + 1,
    }))
}

/// An operator with its one operand: docs/LANGUAGE.md, "Expressions".
pub fn unary(
    alloc: Global,
    place: Place,
    op: Op,
    operand: Option<BuiltExpr>,
) -> Result<Option<BuiltExpr>, Memory>
    ensures { IfOk result (λ e. view_of e ≡ bounded.unary place op (view_of operand)) }
{
    let Some(BuiltExpr { tree, depth }) = operand else {
        return Ok(None);
    };
    if depth >= DEPTH_LIMIT {
        return Ok(None);
    }
    let form = SForm::Unary(op, Box::new(alloc, tree)?);
    Ok(Some(BuiltExpr {
        tree: SExpr { place, form },
        depth: depth + 1,
    }))
}

/// `upcast` with its operand: docs/LANGUAGE.md, "Expressions".
pub fn upcast(
    alloc: Global,
    place: Place,
    operand: Option<BuiltExpr>,
) -> Result<Option<BuiltExpr>, Memory>
    ensures { IfOk result (λ e. view_of e ≡ bounded.upcast place (view_of operand)) }
{
    let Some(BuiltExpr { tree, depth }) = operand else {
        return Ok(None);
    };
    if depth >= DEPTH_LIMIT {
        return Ok(None);
    }
    let form = SForm::Upcast(Box::new(alloc, tree)?);
    Ok(Some(BuiltExpr {
        tree: SExpr { place, form },
        depth: depth + 1,
    }))
}

/// An operator with its two operands, at its sign's place: docs/LANGUAGE.md, "Expressions".
pub fn binary(
    alloc: Global,
    place: Place,
    op: Op,
    left: Option<BuiltExpr>,
    right: Option<BuiltExpr>,
) -> Result<Option<BuiltExpr>, Memory>
    ensures { IfOk result (λ e. view_of e ≡ bounded.binary place op (view_of left) (view_of right)) }
{
    let Some(BuiltExpr { tree: a, depth: m }) = left else {
        return Ok(None);
    };
    let Some(BuiltExpr { tree: b, depth: n }) = right else {
        return Ok(None);
    };
    let most = m.max(n);
    if most >= DEPTH_LIMIT {
        return Ok(None);
    }
    let form = SForm::Binary(op, Box::new(alloc, a)?, Box::new(alloc, b)?);
    Ok(Some(BuiltExpr {
        tree: SExpr { place, form },
        depth: most + 1,
    }))
}
