// Names in expressions.
#![tactic(auto, using(std::proofs::lemmas::Grind::common_steps, crate::proofs::ExprSteps::expr_steps))]

ghost use Rattle.std.specs.Prelude.{◌≡◌, ◌++◌, ◌∷◌, [], map, length, take, OnOk};
ghost use Rattle.cg_surface.specs.Exprs.{expr_of, field_of, bind_of, alt_of, to_exprs, to_fields, to_binds, to_alts};
ghost use Rattle.cg_resolve_def.specs.Faults.{all_bound, bound, expr_faults, list_faults, record_faults, put_faults, binds_faults, match_faults};
ghost use Rattle.cg_resolve_declared.specs.Declarations.{entries_of, IsIndexed};
ghost use Rattle.cg_resolve_names.specs.Parts.{bind_faults, choice_faults, value_faults};
ghost use Rattle.cg_resolve_names.specs.Says.{GoesOn, Says};
ghost use Rattle.cg_resolve_names.specs.Scopes.{SameNames};

use crate::fault::NamingFault;
use crate::parts::{
    end_field, enter_bound, enter_field, enter_pattern, in_name, in_pattern, in_seen, in_type,
};
use crate::scope::Scope;
use cg_resolve_declared::Declarations;
use cg_surface::{Alt, Bind, FExpr, SExpr, SForm};
use std::alloc::Global;

/// The first fault of names in an expression, among these type variables and variables. The scope is as before.
pub fn check_expr<'a>(
    alloc: Global,
    declared: &Declarations<'_>,
    vars: &Scope<'_>,
    scope: &mut Scope<'a>,
    expr: &'a SExpr,
) -> Result<(), NamingFault>
    requires { IsIndexed declared.now }
    ensures says { Says (expr_faults (entries_of declared.now) vars.now scope.old (expr_of expr.now)) result }
    ensures scope { OnOk result (scope.new ≡ scope.old) }
{
    in_expr(alloc, declared, vars, scope, Ok(()), expr)
}

// The same behind what was looked at before: a fault that was found there stays, and nothing more is looked at.
#[cycle(in_expr)]
fn in_expr<'a>(
    alloc: Global,
    declared: &Declarations<'_>,
    vars: &Scope<'_>,
    scope: &mut Scope<'a>,
    so_far: Result<(), NamingFault>,
    expr: &'a SExpr,
) -> Result<(), NamingFault>
    requires { IsIndexed declared.now }
    ensures says { GoesOn so_far (expr_faults (entries_of declared.now) vars.now scope.old (expr_of expr.now)) result }
    ensures scope { scope.new ≡ scope.old }
{
    if so_far.is_err() {
        return so_far;
    }
    match &expr.form {
        SForm::Name(name, types) => {
            in_name(
                alloc, declared, vars, scope, so_far, expr.place, name, types,
            )
        }
        SForm::Number(_) | SForm::Bool(_) | SForm::Unit | SForm::Con(_, None) => so_far,
        SForm::Paren(inner) | SForm::Upcast(inner) => {
            in_expr(alloc, declared, vars, scope, so_far, inner)
        }
        SForm::Sig(inner, ty) => {
            let inside = in_expr(alloc, declared, vars, scope, so_far, inner);
            in_type(alloc, declared, vars, inside, ty)
        }
        SForm::Tuple(parts) => in_exprs(alloc, declared, vars, scope, so_far, parts.as_slice()),
        SForm::Fields(fields) => in_record(alloc, declared, vars, scope, so_far, fields.as_slice()),
        SForm::Con(_, Some(payload)) => in_expr(alloc, declared, vars, scope, so_far, payload),
        SForm::App(first, second) | SForm::Binary(_, first, second) => {
            let inside = in_expr(alloc, declared, vars, scope, so_far, first);
            in_expr(alloc, declared, vars, scope, inside, second)
        }
        SForm::Member(inner, _) | SForm::Unary(_, inner) => {
            in_expr(alloc, declared, vars, scope, so_far, inner)
        }
        SForm::Put(inner, fields) => {
            let inside = in_expr(alloc, declared, vars, scope, so_far, inner);
            in_puts(alloc, declared, vars, scope, inside, fields.as_slice())
        }
        SForm::Let(binds, body) => {
            let kept = scope.len();
            let inside = in_binds(alloc, declared, vars, scope, so_far, binds.as_slice());
            let inside = in_expr(alloc, declared, vars, scope, inside, body);
            scope.leave(kept);
            inside
        }
        SForm::If(condition, seen, yes, no) => {
            let inside = in_expr(alloc, declared, vars, scope, so_far, condition);
            let inside = in_seen(scope, inside, seen);
            let inside = in_expr(alloc, declared, vars, scope, inside, yes);
            in_expr(alloc, declared, vars, scope, inside, no)
        }
        SForm::Match(subject, seen, choices) => {
            let inside = in_expr(alloc, declared, vars, scope, so_far, subject);
            let inside = in_seen(scope, inside, seen);
            in_choices(alloc, declared, vars, scope, inside, choices.as_slice())
        }
    }
}

// The same of several expressions, from left to right.
#[cycle(in_expr)]
#[inline(never)]
fn in_exprs<'a>(
    alloc: Global,
    declared: &Declarations<'_>,
    vars: &Scope<'_>,
    scope: &mut Scope<'a>,
    so_far: Result<(), NamingFault>,
    exprs: &'a [SExpr],
) -> Result<(), NamingFault>
    requires { IsIndexed declared.now }
    ensures says { GoesOn so_far (list_faults (entries_of declared.now) vars.now scope.old (to_exprs (map expr_of exprs.now))) result }
    ensures scope { scope.new ≡ scope.old }
{
    let mut inside = so_far;
    for expr in exprs {
        inside = in_expr(alloc, declared, vars, scope, inside, expr);
    }
    inside
}

// The same of the fields of a record, which have to be apart.
#[cycle(in_expr)]
#[inline(never)]
fn in_record<'a>(
    alloc: Global,
    declared: &Declarations<'_>,
    vars: &Scope<'_>,
    scope: &mut Scope<'a>,
    so_far: Result<(), NamingFault>,
    fields: &'a [FExpr],
) -> Result<(), NamingFault>
    requires { IsIndexed declared.now }
    ensures says { GoesOn so_far (record_faults (entries_of declared.now) vars.now scope.old (to_fields (map field_of fields.now))) result }
    ensures scope { scope.new ≡ scope.old }
{
    let mut inside = so_far;
    let mut before = Scope::new(alloc);
    for field in fields {
        inside = in_value(alloc, declared, vars, scope, &mut before, inside, field);
    }
    inside
}

// The same of a field of a record, behind those before it.
#[cycle(in_expr)]
fn in_value<'a>(
    alloc: Global,
    declared: &Declarations<'_>,
    vars: &Scope<'_>,
    scope: &mut Scope<'a>,
    before: &mut Scope<'a>,
    so_far: Result<(), NamingFault>,
    field: &'a FExpr,
) -> Result<(), NamingFault>
    requires { IsIndexed declared.now }
    ensures says { GoesOn so_far (value_faults (entries_of declared.now) vars.now scope.old before.old (field_of field.now)) result }
    ensures names { OnOk result (before.new ≡ before.old ++ (field_of field.now).at.name ∷ []) }
    ensures scope { scope.new ≡ scope.old }
{
    let (again, inside) = enter_field(before, so_far, &field.at);
    let inside = in_expr(alloc, declared, vars, scope, inside, &field.value);
    end_field(again, field.at.place, inside)
}

// The same of fields that are put, which needn't be apart.
#[cycle(in_expr)]
#[inline(never)]
fn in_puts<'a>(
    alloc: Global,
    declared: &Declarations<'_>,
    vars: &Scope<'_>,
    scope: &mut Scope<'a>,
    so_far: Result<(), NamingFault>,
    fields: &'a [FExpr],
) -> Result<(), NamingFault>
    requires { IsIndexed declared.now }
    ensures says { GoesOn so_far (put_faults (entries_of declared.now) vars.now scope.old (to_fields (map field_of fields.now))) result }
    ensures scope { scope.new ≡ scope.old }
{
    let mut inside = so_far;
    for field in fields {
        inside = in_expr(alloc, declared, vars, scope, inside, &field.value);
    }
    inside
}

// The same of bindings, each among the variables of those before it. Their variables come into scope.
#[cycle(in_expr)]
#[inline(never)]
fn in_binds<'a>(
    alloc: Global,
    declared: &Declarations<'_>,
    vars: &Scope<'_>,
    scope: &mut Scope<'a>,
    so_far: Result<(), NamingFault>,
    binds: &'a [Bind],
) -> Result<(), NamingFault>
    requires { IsIndexed declared.now }
    ensures says { GoesOn so_far (binds_faults (entries_of declared.now) vars.now scope.old (to_binds (map bind_of binds.now))) result }
    ensures names { OnOk result (SameNames scope.new (all_bound (to_binds (map bind_of binds.now)) ++ scope.old)) }
    ensures kept { take (length scope.old) scope.new ≡ scope.old }
{
    let mut inside = so_far;
    for bind in binds {
        inside = in_bind(alloc, declared, vars, scope, inside, bind);
    }
    inside
}

// The same of a binding, whose variables come into scope.
#[cycle(in_expr)]
fn in_bind<'a>(
    alloc: Global,
    declared: &Declarations<'_>,
    vars: &Scope<'_>,
    scope: &mut Scope<'a>,
    so_far: Result<(), NamingFault>,
    bind: &'a Bind,
) -> Result<(), NamingFault>
    requires { IsIndexed declared.now }
    ensures says { GoesOn so_far (bind_faults (entries_of declared.now) vars.now scope.old (bind_of bind.now)) result }
    ensures names { OnOk result (SameNames scope.new (bound (bind_of bind.now).pattern ++ scope.old)) }
    ensures kept { take (length scope.old) scope.new ≡ scope.old }
{
    let (bound, inside) = in_pattern(alloc, so_far, &bind.pat);
    let inside = in_expr(alloc, declared, vars, scope, inside, &bind.value);
    let inside = in_seen(scope, inside, &bind.seen);
    enter_bound(scope, inside, bound)
}

// The same of the alternatives of a match.
#[cycle(in_expr)]
#[inline(never)]
fn in_choices<'a>(
    alloc: Global,
    declared: &Declarations<'_>,
    vars: &Scope<'_>,
    scope: &mut Scope<'a>,
    so_far: Result<(), NamingFault>,
    choices: &'a [Alt],
) -> Result<(), NamingFault>
    requires { IsIndexed declared.now }
    ensures says { GoesOn so_far (match_faults (entries_of declared.now) vars.now scope.old (to_alts (map alt_of choices.now))) result }
    ensures scope { scope.new ≡ scope.old }
{
    let mut inside = so_far;
    for choice in choices {
        inside = in_choice(alloc, declared, vars, scope, inside, choice);
    }
    inside
}

// The same of an alternative of a match.
#[cycle(in_expr)]
fn in_choice<'a>(
    alloc: Global,
    declared: &Declarations<'_>,
    vars: &Scope<'_>,
    scope: &mut Scope<'a>,
    so_far: Result<(), NamingFault>,
    choice: &'a Alt,
) -> Result<(), NamingFault>
    requires { IsIndexed declared.now }
    ensures says { GoesOn so_far (choice_faults (entries_of declared.now) vars.now scope.old (alt_of choice.now)) result }
    ensures scope { scope.new ≡ scope.old }
{
    let kept = scope.len();
    let inside = enter_pattern(alloc, scope, so_far, &choice.pat);
    let inside = in_expr(alloc, declared, vars, scope, inside, &choice.body);
    scope.leave(kept);
    inside
}
