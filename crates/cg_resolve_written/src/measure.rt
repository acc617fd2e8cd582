// How large the types are that a program writes.
#![tactic(auto, using(std::proofs::lemmas::Grind::common_steps, crate::proofs::MeasureSteps::measure_steps))]

ghost use Rattle.std.specs.Prelude.{◌≡◌, ◌≤◌, ◌<◌, max, map, OnOk, IfErr};
ghost use Rattle.cg_surface.specs.Exprs.{expr_of, field_of, bind_of, alt_of, to_exprs, to_fields, to_binds, to_alts};
ghost use Rattle.cg_surface.specs.Programs.{entry_of};
ghost use Rattle.cg_surface.specs.Written.{written_of, to_types};
ghost use Rattle.cg_resolve_def.specs.Desugar.{type_limit};
ghost use Rattle.cg_resolve_expand.specs.Known.{known_of};
ghost use Rattle.cg_resolve_written.specs.Measures.{greatest_in, greatest_list, greatest_values, greatest_binds, greatest_alts, greatest_entry, greatest_part};
ghost use Rattle.cg_resolve_written.specs.Sizes.{greatest, greatest_of};
ghost use Rattle.cg_resolve_written.specs.declared.oversize.Oversize.TheVariants.{TooLarge};

use crate::Oversize;
use crate::size::size;
use cg_base::Items;
use cg_resolve_expand::Synonyms;
use cg_surface::{Alt, Bind, FExpr, Item, SExpr, SForm, STy};
use std::alloc::Global;

/// Measures all types that items write. TooLarge says that one of them has more nodes than the limit (docs/LANGUAGE.md,
/// "Limits").
pub(crate) fn measure(
    alloc: Global,
    synonyms: &Synonyms<'_>,
    items: &[Item],
) -> Result<(), Oversize>
    ensures ok { OnOk result (greatest_part (known_of synonyms.now) (map entry_of items.now) ≤ type_limit) }
    ensures over { IfErr result (λ e. e ≡ TooLarge → type_limit < greatest_part (known_of synonyms.now) (map entry_of items.now)) }
{
    for item in items {
        measure_item(alloc, synonyms, item)?;
    }
    Ok(())
}

// Those of one item.
fn measure_item(alloc: Global, synonyms: &Synonyms<'_>, item: &Item) -> Result<(), Oversize>
    ensures ok { OnOk result (greatest_entry (known_of synonyms.now) (entry_of item.now) ≤ type_limit) }
    ensures over { IfErr result (λ e. e ≡ TooLarge → type_limit < greatest_entry (known_of synonyms.now) (entry_of item.now)) }
{
    match item {
        Item::Synonym { body, .. } => measure_type(alloc, synonyms, body),
        Item::Abstract { .. } => Ok(()),
        Item::Signature { ty, .. } => measure_type(alloc, synonyms, ty),
        Item::Define { body, .. } => measure_expr(alloc, synonyms, body),
    }
}

// One type.
fn measure_type(alloc: Global, synonyms: &Synonyms<'_>, ty: &STy) -> Result<(), Oversize>
    ensures ok { OnOk result (greatest (known_of synonyms.now) (written_of ty.now) ≤ type_limit) }
    ensures over { IfErr result (λ e. e ≡ TooLarge → type_limit < greatest (known_of synonyms.now) (written_of ty.now)) }
{
    size(alloc, synonyms, ty)?;
    Ok(())
}

// Types.
fn measure_types(alloc: Global, synonyms: &Synonyms<'_>, types: &Items<STy>) -> Result<(), Oversize>
    ensures ok { OnOk result (greatest_of (known_of synonyms.now) (to_types (map written_of types.now)) ≤ type_limit) }
    ensures over { IfErr result (λ e. e ≡ TooLarge → type_limit < greatest_of (known_of synonyms.now) (to_types (map written_of types.now))) }
{
    for ty in types.as_slice() {
        measure_type(alloc, synonyms, ty)?;
    }
    Ok(())
}

// The types of an expression.
#[cycle(measure)]
fn measure_expr(alloc: Global, synonyms: &Synonyms<'_>, expr: &SExpr) -> Result<(), Oversize>
    ensures ok { OnOk result (greatest_in (known_of synonyms.now) (expr_of expr.now) ≤ type_limit) }
    ensures over { IfErr result (λ e. e ≡ TooLarge → type_limit < greatest_in (known_of synonyms.now) (expr_of expr.now)) }
{
    match &expr.form {
        SForm::Name(_name, args) => measure_types(alloc, synonyms, args),
        SForm::Number(_value) => Ok(()),
        SForm::Bool(_value) => Ok(()),
        SForm::Unit => Ok(()),
        SForm::Paren(expr) => measure_expr(alloc, synonyms, expr),
        SForm::Sig(expr, ty) => measure_signed(alloc, synonyms, expr, ty),
        SForm::Tuple(exprs) => measure_list(alloc, synonyms, exprs),
        SForm::Fields(fields) => measure_values(alloc, synonyms, fields),
        SForm::Con(_name, None) => Ok(()),
        SForm::Con(_name, Some(expr)) => measure_expr(alloc, synonyms, expr),
        SForm::App(function, argument) => measure_both(alloc, synonyms, function, argument),
        SForm::Member(expr, _field) => measure_expr(alloc, synonyms, expr),
        SForm::Put(expr, fields) => measure_put(alloc, synonyms, expr, fields),
        SForm::Unary(_op, expr) => measure_expr(alloc, synonyms, expr),
        SForm::Upcast(expr) => measure_expr(alloc, synonyms, expr),
        SForm::Binary(_op, left, right) => measure_both(alloc, synonyms, left, right),
        SForm::Let(binds, body) => measure_let(alloc, synonyms, binds, body),
        SForm::If(condition, _seen, yes, no) => measure_if(alloc, synonyms, condition, yes, no),
        SForm::Match(expr, _seen, choices) => measure_match(alloc, synonyms, expr, choices),
    }
}

// Those of an expression with its type.
#[cycle(measure)]
fn measure_signed(
    alloc: Global,
    synonyms: &Synonyms<'_>,
    expr: &SExpr,
    ty: &STy,
) -> Result<(), Oversize>
    ensures ok { OnOk result (max (greatest_in (known_of synonyms.now) (expr_of expr.now)) (greatest (known_of synonyms.now) (written_of ty.now)) ≤ type_limit) }
    ensures over { IfErr result (λ e. e ≡ TooLarge
        → type_limit < max (greatest_in (known_of synonyms.now) (expr_of expr.now)) (greatest (known_of synonyms.now) (written_of ty.now))) }
{
    measure_expr(alloc, synonyms, expr)?;
    measure_type(alloc, synonyms, ty)?;
    Ok(())
}

// Those of two expressions.
#[cycle(measure)]
fn measure_both(
    alloc: Global,
    synonyms: &Synonyms<'_>,
    first: &SExpr,
    second: &SExpr,
) -> Result<(), Oversize>
    ensures ok { OnOk result (max (greatest_in (known_of synonyms.now) (expr_of first.now)) (greatest_in (known_of synonyms.now) (expr_of second.now)) ≤ type_limit) }
    ensures over { IfErr result (λ e. e ≡ TooLarge
        → type_limit < max (greatest_in (known_of synonyms.now) (expr_of first.now)) (greatest_in (known_of synonyms.now) (expr_of second.now))) }
{
    measure_expr(alloc, synonyms, first)?;
    measure_expr(alloc, synonyms, second)?;
    Ok(())
}

// Those of a record with fields that are put into it.
#[cycle(measure)]
fn measure_put(
    alloc: Global,
    synonyms: &Synonyms<'_>,
    expr: &SExpr,
    fields: &Items<FExpr>,
) -> Result<(), Oversize>
    ensures ok { OnOk result (max (greatest_in (known_of synonyms.now) (expr_of expr.now)) (greatest_values (known_of synonyms.now) (to_fields (map field_of fields.now))) ≤ type_limit) }
    ensures over { IfErr result (λ e. e ≡ TooLarge
        → type_limit < max (greatest_in (known_of synonyms.now) (expr_of expr.now)) (greatest_values (known_of synonyms.now) (to_fields (map field_of fields.now)))) }
{
    measure_expr(alloc, synonyms, expr)?;
    measure_values(alloc, synonyms, fields)?;
    Ok(())
}

// Those of a `let`.
#[cycle(measure)]
fn measure_let(
    alloc: Global,
    synonyms: &Synonyms<'_>,
    binds: &Items<Bind>,
    body: &SExpr,
) -> Result<(), Oversize>
    ensures ok { OnOk result (max (greatest_binds (known_of synonyms.now) (to_binds (map bind_of binds.now))) (greatest_in (known_of synonyms.now) (expr_of body.now)) ≤ type_limit) }
    ensures over { IfErr result (λ e. e ≡ TooLarge
        → type_limit < max (greatest_binds (known_of synonyms.now) (to_binds (map bind_of binds.now))) (greatest_in (known_of synonyms.now) (expr_of body.now))) }
{
    measure_binds(alloc, synonyms, binds)?;
    measure_expr(alloc, synonyms, body)?;
    Ok(())
}

// Those of an `if`.
#[cycle(measure)]
fn measure_if(
    alloc: Global,
    synonyms: &Synonyms<'_>,
    condition: &SExpr,
    yes: &SExpr,
    no: &SExpr,
) -> Result<(), Oversize>
    ensures ok { OnOk result (max (greatest_in (known_of synonyms.now) (expr_of condition.now))
        (max (greatest_in (known_of synonyms.now) (expr_of yes.now)) (greatest_in (known_of synonyms.now) (expr_of no.now))) ≤ type_limit) }
    ensures over { IfErr result (λ e. e ≡ TooLarge → type_limit < max (greatest_in (known_of synonyms.now) (expr_of condition.now))
        (max (greatest_in (known_of synonyms.now) (expr_of yes.now)) (greatest_in (known_of synonyms.now) (expr_of no.now)))) }
{
    measure_expr(alloc, synonyms, condition)?;
    measure_expr(alloc, synonyms, yes)?;
    measure_expr(alloc, synonyms, no)?;
    Ok(())
}

// Those of a match.
#[cycle(measure)]
fn measure_match(
    alloc: Global,
    synonyms: &Synonyms<'_>,
    expr: &SExpr,
    choices: &Items<Alt>,
) -> Result<(), Oversize>
    ensures ok { OnOk result (max (greatest_in (known_of synonyms.now) (expr_of expr.now)) (greatest_alts (known_of synonyms.now) (to_alts (map alt_of choices.now))) ≤ type_limit) }
    ensures over { IfErr result (λ e. e ≡ TooLarge
        → type_limit < max (greatest_in (known_of synonyms.now) (expr_of expr.now)) (greatest_alts (known_of synonyms.now) (to_alts (map alt_of choices.now)))) }
{
    measure_expr(alloc, synonyms, expr)?;
    measure_choices(alloc, synonyms, choices)?;
    Ok(())
}

// Those of expressions.
#[cycle(measure)]
fn measure_list(
    alloc: Global,
    synonyms: &Synonyms<'_>,
    exprs: &Items<SExpr>,
) -> Result<(), Oversize>
    ensures ok { OnOk result (greatest_list (known_of synonyms.now) (to_exprs (map expr_of exprs.now)) ≤ type_limit) }
    ensures over { IfErr result (λ e. e ≡ TooLarge → type_limit < greatest_list (known_of synonyms.now) (to_exprs (map expr_of exprs.now))) }
{
    for expr in exprs.as_slice() {
        measure_expr(alloc, synonyms, expr)?;
    }
    Ok(())
}

// Those of the values of fields.
#[cycle(measure)]
fn measure_values(
    alloc: Global,
    synonyms: &Synonyms<'_>,
    fields: &Items<FExpr>,
) -> Result<(), Oversize>
    ensures ok { OnOk result (greatest_values (known_of synonyms.now) (to_fields (map field_of fields.now)) ≤ type_limit) }
    ensures over { IfErr result (λ e. e ≡ TooLarge → type_limit < greatest_values (known_of synonyms.now) (to_fields (map field_of fields.now))) }
{
    for field in fields.as_slice() {
        measure_expr(alloc, synonyms, &field.value)?;
    }
    Ok(())
}

// Those of what a `let` binds.
#[cycle(measure)]
fn measure_binds(
    alloc: Global,
    synonyms: &Synonyms<'_>,
    binds: &Items<Bind>,
) -> Result<(), Oversize>
    ensures ok { OnOk result (greatest_binds (known_of synonyms.now) (to_binds (map bind_of binds.now)) ≤ type_limit) }
    ensures over { IfErr result (λ e. e ≡ TooLarge → type_limit < greatest_binds (known_of synonyms.now) (to_binds (map bind_of binds.now))) }
{
    for bind in binds.as_slice() {
        measure_expr(alloc, synonyms, &bind.value)?;
    }
    Ok(())
}

// Those of the alternatives of a match.
#[cycle(measure)]
fn measure_choices(
    alloc: Global,
    synonyms: &Synonyms<'_>,
    choices: &Items<Alt>,
) -> Result<(), Oversize>
    ensures ok { OnOk result (greatest_alts (known_of synonyms.now) (to_alts (map alt_of choices.now)) ≤ type_limit) }
    ensures over { IfErr result (λ e. e ≡ TooLarge → type_limit < greatest_alts (known_of synonyms.now) (to_alts (map alt_of choices.now))) }
{
    for choice in choices.as_slice() {
        measure_expr(alloc, synonyms, &choice.body)?;
    }
    Ok(())
}
