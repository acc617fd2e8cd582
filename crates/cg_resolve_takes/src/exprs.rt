// Fields that are taken in types of expressions.
#![tactic(auto, using(std::proofs::lemmas::Grind::common_steps, crate::proofs::ExprSteps::expr_steps, crate::proofs::GoesOn::go_steps))]

ghost use Rattle.std.specs.Prelude.{map};
ghost use Rattle.cg_surface.specs.Exprs.{expr_of, field_of, bind_of, alt_of, to_exprs, to_fields, to_binds, to_alts};
ghost use Rattle.cg_resolve_takes.specs.Missing.{absent_in, absent_exprs, absent_values, absent_binds, absent_choices};
ghost use Rattle.cg_resolve_takes.specs.Says.{GoesOn, TakesSay};
ghost use Rattle.cg_resolve_takes.specs.Views.{heads_in};

use crate::fault::TakeFault;
use crate::known::HeadTable;
use crate::types::{check_all, check_alone};
use cg_base::Items;
use cg_surface::{Alt, Bind, FExpr, SExpr, SForm};
use std::alloc::Global;

/// The first place of a field that is taken where it isn't, in the types of an expression. The table has the head of each synonym. Want
/// of memory is its one other refusal.
pub fn check_expr<'a>(
    alloc: Global,
    table: &HeadTable<'a>,
    expr: &'a SExpr,
) -> Result<(), TakeFault>
    ensures { TakesSay (absent_in (heads_in table.now) (expr_of expr.now)) result }
{
    in_expr(alloc, table, Ok(()), expr)
}

// The same behind what was looked at before: a fault that was found there stays, and nothing more is looked at.
#[cycle(check)]
fn in_expr<'a>(
    alloc: Global,
    table: &HeadTable<'a>,
    so_far: Result<(), TakeFault>,
    expr: &'a SExpr,
) -> Result<(), TakeFault>
    ensures { GoesOn so_far (absent_in (heads_in table.now) (expr_of expr.now)) result }
{
    if so_far.is_err() {
        return so_far;
    }
    match &expr.form {
        SForm::Name(_, types) => check_all(alloc, table, so_far, types),
        SForm::Number(_) | SForm::Bool(_) | SForm::Unit | SForm::Con(_, None) => so_far,
        SForm::Paren(inner) | SForm::Upcast(inner) => in_expr(alloc, table, so_far, inner),
        SForm::Sig(inner, ty) => {
            let inside = in_expr(alloc, table, so_far, inner);
            check_alone(alloc, table, inside, ty)
        }
        SForm::Tuple(items) => in_exprs(alloc, table, so_far, items),
        SForm::Fields(fields) => in_fields(alloc, table, so_far, fields),
        SForm::Con(_, Some(inner)) => in_expr(alloc, table, so_far, inner),
        SForm::App(first, second) | SForm::Binary(_, first, second) => {
            let inside = in_expr(alloc, table, so_far, first);
            in_expr(alloc, table, inside, second)
        }
        SForm::Member(inner, _) | SForm::Unary(_, inner) => in_expr(alloc, table, so_far, inner),
        SForm::Put(inner, fields) => {
            let inside = in_expr(alloc, table, so_far, inner);
            in_fields(alloc, table, inside, fields)
        }
        SForm::Let(binds, body) => {
            let inside = in_binds(alloc, table, so_far, binds);
            in_expr(alloc, table, inside, body)
        }
        SForm::If(condition, _, yes, no) => {
            let inside = in_expr(alloc, table, so_far, condition);
            let inside = in_expr(alloc, table, inside, yes);
            in_expr(alloc, table, inside, no)
        }
        SForm::Match(value, _, alternatives) => {
            let inside = in_expr(alloc, table, so_far, value);
            in_alternatives(alloc, table, inside, alternatives)
        }
    }
}

// The same in the components of a tuple.
#[cycle(check)]
fn in_exprs<'a>(
    alloc: Global,
    table: &HeadTable<'a>,
    so_far: Result<(), TakeFault>,
    exprs: &'a Items<SExpr>,
) -> Result<(), TakeFault>
    ensures { GoesOn so_far (absent_exprs (heads_in table.now) (to_exprs (map expr_of exprs.now))) result }
{
    let mut inside = so_far;
    for expr in exprs.as_slice() {
        inside = in_expr(alloc, table, inside, expr);
    }
    inside
}

// The same in the values of fields.
#[cycle(check)]
fn in_fields<'a>(
    alloc: Global,
    table: &HeadTable<'a>,
    so_far: Result<(), TakeFault>,
    fields: &'a Items<FExpr>,
) -> Result<(), TakeFault>
    ensures { GoesOn so_far (absent_values (heads_in table.now) (to_fields (map field_of fields.now))) result }
{
    let mut inside = so_far;
    for field in fields.as_slice() {
        inside = in_expr(alloc, table, inside, &field.value);
    }
    inside
}

// The same in what a `let` binds.
#[cycle(check)]
fn in_binds<'a>(
    alloc: Global,
    table: &HeadTable<'a>,
    so_far: Result<(), TakeFault>,
    binds: &'a Items<Bind>,
) -> Result<(), TakeFault>
    ensures { GoesOn so_far (absent_binds (heads_in table.now) (to_binds (map bind_of binds.now))) result }
{
    let mut inside = so_far;
    for bind in binds.as_slice() {
        inside = in_expr(alloc, table, inside, &bind.value);
    }
    inside
}

// The same in the alternatives of a match.
#[cycle(check)]
fn in_alternatives<'a>(
    alloc: Global,
    table: &HeadTable<'a>,
    so_far: Result<(), TakeFault>,
    alternatives: &'a Items<Alt>,
) -> Result<(), TakeFault>
    ensures { GoesOn so_far (absent_choices (heads_in table.now) (to_alts (map alt_of alternatives.now))) result }
{
    let mut inside = so_far;
    for alternative in alternatives.as_slice() {
        inside = in_expr(alloc, table, inside, &alternative.body);
    }
    inside
}
