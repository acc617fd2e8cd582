// How wide expressions are.
#![tactic(auto, using(std::proofs::lemmas::Grind::common_steps, crate::proofs::ExprLists::expr_lists))]

ghost use Rattle.std.specs.Prelude.{◌≡◌, map};
ghost use Rattle.cg_surface.specs.Exprs.{expr_of, field_of, bind_of, alt_of, to_exprs, to_fields, to_binds, to_alts};
ghost use Rattle.cg_resolve_def.specs.Takes.{widest_expr, widest_list, widest_values, widest_binds, widest_alts};

use crate::wide_patterns::widest_pattern;
use crate::wide_types::{widest_type, widest_types};
use cg_base::Items;
use cg_surface::{Alt, Bind, FExpr, SExpr, SForm};

/// The most parts of one tuple, record or type in an expression (docs/LANGUAGE.md, "Limits"). It takes no memory.
#[cycle(widest)]
pub(crate) fn widest_expr(expr: &SExpr) -> usize
    ensures { result ≡ widest_expr (expr_of expr.now) }
{
    match &expr.form {
        SForm::Name(_name, args) => widest_types(args),
        SForm::Number(_value) => 0,
        SForm::Bool(_value) => 0,
        SForm::Unit => 0,
        SForm::Paren(expr) => widest_expr(expr),
        SForm::Sig(expr, ty) => widest_expr(expr).max(widest_type(ty)),
        SForm::Tuple(exprs) => exprs.len().max(widest_list(exprs)),
        SForm::Fields(fields) => fields.len().max(widest_values(fields)),
        SForm::Con(_name, None) => 0,
        SForm::Con(_name, Some(expr)) => widest_expr(expr),
        SForm::App(function, argument) => widest_expr(function).max(widest_expr(argument)),
        SForm::Member(expr, _field) => widest_expr(expr),
        SForm::Put(expr, fields) => widest_expr(expr).max(widest_values(fields)),
        SForm::Unary(_op, expr) => widest_expr(expr),
        SForm::Upcast(expr) => widest_expr(expr),
        SForm::Binary(_op, left, right) => widest_expr(left).max(widest_expr(right)),
        SForm::Let(binds, body) => widest_binds(binds).max(widest_expr(body)),
        SForm::If(condition, _seen, yes, no) => {
            widest_expr(condition).max(widest_expr(yes).max(widest_expr(no)))
        }
        SForm::Match(expr, _seen, choices) => widest_expr(expr).max(widest_choices(choices)),
    }
}

// The same in expressions.
#[cycle(widest)]
fn widest_list(exprs: &Items<SExpr>) -> usize
    ensures { result ≡ widest_list (to_exprs (map expr_of exprs.now)) }
{
    let mut most = 0;
    for expr in exprs.as_slice() {
        most = most.max(widest_expr(expr));
    }
    most
}

// The same in the values of fields.
#[cycle(widest)]
fn widest_values(fields: &Items<FExpr>) -> usize
    ensures { result ≡ widest_values (to_fields (map field_of fields.now)) }
{
    let mut most = 0;
    for field in fields.as_slice() {
        most = most.max(widest_expr(&field.value));
    }
    most
}

// The same in what a `let` binds.
#[cycle(widest)]
fn widest_binds(binds: &Items<Bind>) -> usize
    ensures { result ≡ widest_binds (to_binds (map bind_of binds.now)) }
{
    let mut most = 0;
    for bind in binds.as_slice() {
        most = most.max(widest_pattern(&bind.pat).max(widest_expr(&bind.value)));
    }
    most
}

// The same in the alternatives of a match.
#[cycle(widest)]
fn widest_choices(choices: &Items<Alt>) -> usize
    ensures { result ≡ widest_alts (to_alts (map alt_of choices.now)) }
{
    let mut most = 0;
    for choice in choices.as_slice() {
        most = most.max(widest_pattern(&choice.pat).max(widest_expr(&choice.body)));
    }
    most
}
