// Names of functions in expressions.
#![tactic(auto, using(std::proofs::lemmas::Grind::common_steps, crate::proofs::ExprSteps::expr_steps))]

ghost use Rattle.std.specs.Prelude.{◌≡◌, ◌++◌, map, length, take, OnOk};
ghost use Rattle.cg_surface.specs.Exprs.{expr_of, field_of, bind_of, alt_of, to_exprs, to_fields, to_binds, to_alts};
ghost use Rattle.cg_surface.specs.Patterns.{pattern_of};
ghost use Rattle.cg_resolve_def.specs.Faults.{bound, all_bound};
ghost use Rattle.cg_resolve_def.specs.Mentions.{expr_mentions, list_mentions, values_mentions, binds_mentions, match_mentions};
ghost use Rattle.cg_resolve_names.specs.Scopes.{SameNames};
ghost use Rattle.cg_resolve_mentions.specs.Parts.{name_mentions, choice_mentions};
ghost use Rattle.cg_resolve_mentions.specs.Positions.{GoesOn, IsAlso};

use crate::patterns::enter_pattern;
use crate::positions::{Positions, push_name};
use cg_base::Memory;
use cg_resolve_names::Scope;
use cg_surface::{Alt, Bind, FExpr, Pat, SExpr, SForm};

/// The positions of the names of functions in an expression, in reading order, behind those before it, among these variables. The scope is
/// as before. Want of memory is its one refusal, and stays where it was met before.
#[cycle(push_expr)]
pub fn push_expr<'a>(
    signatures: &Positions<'_>,
    scope: &mut Scope<'a>,
    targets: Result<Vec<u32>, Memory>,
    expr: &'a SExpr,
) -> Result<Vec<u32>, Memory>
    ensures targets { GoesOn signatures.now targets (expr_mentions scope.old (expr_of expr.now)) result }
    ensures scope { scope.new ≡ scope.old }
{
    if targets.is_err() {
        return targets;
    }
    match &expr.form {
        SForm::Name(name, _) => push_mention(signatures, scope, targets, name.bytes()),
        SForm::Number(_) | SForm::Bool(_) | SForm::Unit | SForm::Con(_, None) => targets,
        SForm::Paren(inner) | SForm::Upcast(inner) => push_expr(signatures, scope, targets, inner),
        SForm::Sig(inner, _) => push_expr(signatures, scope, targets, inner),
        SForm::Tuple(parts) => push_exprs(signatures, scope, targets, parts.as_slice()),
        SForm::Fields(fields) => push_values(signatures, scope, targets, fields.as_slice()),
        SForm::Con(_, Some(payload)) => push_expr(signatures, scope, targets, payload),
        SForm::App(first, second) | SForm::Binary(_, first, second) => {
            let inside = push_expr(signatures, scope, targets, first);
            push_expr(signatures, scope, inside, second)
        }
        SForm::Member(inner, _) | SForm::Unary(_, inner) => {
            push_expr(signatures, scope, targets, inner)
        }
        SForm::Put(inner, fields) => {
            let inside = push_expr(signatures, scope, targets, inner);
            push_values(signatures, scope, inside, fields.as_slice())
        }
        SForm::Let(binds, body) => {
            let kept = scope.len();
            let inside = push_binds(signatures, scope, targets, binds.as_slice());
            let inside = push_expr(signatures, scope, inside, body);
            scope.leave(kept);
            inside
        }
        SForm::If(condition, _, yes, no) => {
            let inside = push_expr(signatures, scope, targets, condition);
            let inside = push_expr(signatures, scope, inside, yes);
            push_expr(signatures, scope, inside, no)
        }
        SForm::Match(subject, _, choices) => {
            let inside = push_expr(signatures, scope, targets, subject);
            push_choices(signatures, scope, inside, choices.as_slice())
        }
    }
}

// The same of several expressions, from left to right.
#[cycle(push_expr)]
#[inline(never)]
fn push_exprs<'a>(
    signatures: &Positions<'_>,
    scope: &mut Scope<'a>,
    targets: Result<Vec<u32>, Memory>,
    exprs: &'a [SExpr],
) -> Result<Vec<u32>, Memory>
    ensures targets { GoesOn signatures.now targets (list_mentions scope.old (to_exprs (map expr_of exprs.now))) result }
    ensures scope { scope.new ≡ scope.old }
{
    let mut inside = targets;
    for expr in exprs {
        inside = push_expr(signatures, scope, inside, expr);
    }
    inside
}

// The same of the values of fields.
#[cycle(push_expr)]
#[inline(never)]
fn push_values<'a>(
    signatures: &Positions<'_>,
    scope: &mut Scope<'a>,
    targets: Result<Vec<u32>, Memory>,
    fields: &'a [FExpr],
) -> Result<Vec<u32>, Memory>
    ensures targets { GoesOn signatures.now targets (values_mentions scope.old (to_fields (map field_of fields.now))) result }
    ensures scope { scope.new ≡ scope.old }
{
    let mut inside = targets;
    for field in fields {
        inside = push_expr(signatures, scope, inside, &field.value);
    }
    inside
}

// The same of bindings, each among the variables of those before it. Their variables come into scope.
#[cycle(push_expr)]
#[inline(never)]
fn push_binds<'a>(
    signatures: &Positions<'_>,
    scope: &mut Scope<'a>,
    targets: Result<Vec<u32>, Memory>,
    binds: &'a [Bind],
) -> Result<Vec<u32>, Memory>
    ensures targets { GoesOn signatures.now targets (binds_mentions scope.old (to_binds (map bind_of binds.now))) result }
    ensures names { OnOk result (SameNames scope.new (all_bound (to_binds (map bind_of binds.now)) ++ scope.old)) }
    ensures kept { take (length scope.old) scope.new ≡ scope.old }
{
    let mut inside = targets;
    for bind in binds {
        inside = push_bind(signatures, scope, inside, bind);
    }
    inside
}

// The same of a binding, whose variables come into scope.
#[cycle(push_expr)]
fn push_bind<'a>(
    signatures: &Positions<'_>,
    scope: &mut Scope<'a>,
    targets: Result<Vec<u32>, Memory>,
    bind: &'a Bind,
) -> Result<Vec<u32>, Memory>
    ensures targets { GoesOn signatures.now targets (expr_mentions scope.old (bind_of bind.now).value) result }
    ensures names { OnOk result (SameNames scope.new (bound (bind_of bind.now).pattern ++ scope.old)) }
    ensures kept { take (length scope.old) scope.new ≡ scope.old }
{
    let inside = push_expr(signatures, scope, targets, &bind.value);
    push_pattern(scope, inside, &bind.pat)
}

// The same of the alternatives of a match.
#[cycle(push_expr)]
#[inline(never)]
fn push_choices<'a>(
    signatures: &Positions<'_>,
    scope: &mut Scope<'a>,
    targets: Result<Vec<u32>, Memory>,
    choices: &'a [Alt],
) -> Result<Vec<u32>, Memory>
    ensures targets { GoesOn signatures.now targets (match_mentions scope.old (to_alts (map alt_of choices.now))) result }
    ensures scope { scope.new ≡ scope.old }
{
    let mut inside = targets;
    for choice in choices {
        inside = push_choice(signatures, scope, inside, choice);
    }
    inside
}

// The same of an alternative of a match.
#[cycle(push_expr)]
fn push_choice<'a>(
    signatures: &Positions<'_>,
    scope: &mut Scope<'a>,
    targets: Result<Vec<u32>, Memory>,
    choice: &'a Alt,
) -> Result<Vec<u32>, Memory>
    ensures targets { GoesOn signatures.now targets (choice_mentions scope.old (alt_of choice.now)) result }
    ensures scope { scope.new ≡ scope.old }
{
    let kept = scope.len();
    let inside = push_pattern(scope, targets, &choice.pat);
    let inside = push_expr(signatures, scope, inside, &choice.body);
    scope.leave(kept);
    inside
}

// The same of a name: a variable hides a function.
#[inline(never)]
fn push_mention(
    signatures: &Positions<'_>,
    scope: &Scope<'_>,
    targets: Result<Vec<u32>, Memory>,
    name: &[u8],
) -> Result<Vec<u32>, Memory>
    ensures { GoesOn signatures.now targets (name_mentions scope.now name.now) result }
{
    if scope.holds(name) {
        return targets;
    }
    let mut targets = targets?;
    push_name(signatures, &mut targets, name)?;
    Ok(targets)
}

// Brings the variables of a pattern into scope, and hands on the positions.
#[inline(never)]
fn push_pattern<'a>(
    scope: &mut Scope<'a>,
    targets: Result<Vec<u32>, Memory>,
    pat: &'a Pat,
) -> Result<Vec<u32>, Memory>
    ensures targets { IsAlso targets result }
    ensures names { OnOk result (SameNames scope.new (bound (pattern_of pat.now) ++ scope.old)) }
    ensures kept { take (length scope.old) scope.new ≡ scope.old }
{
    let targets = targets?;
    enter_pattern(scope, pat)?;
    Ok(targets)
}
