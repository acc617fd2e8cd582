// Kernel terms of expressions (docs/LANGUAGE.md, "Desugaring").
#![tactic(auto, using(std::proofs::lemmas::Grind::common_steps, crate::proofs::TermSteps::term_steps, crate::proofs::TermSteps::err_says))]

ghost use Rattle.std.specs.Prelude.{◌≡◌, ◌+◌, ◌*◌, ◌<◌, ◌≤◌, map, Option, Some, None, MatchOption, length, ⊤, IfOk};
ghost use Rattle.cg_core.specs.Kernels.{the_term};
ghost use Rattle.cg_core.specs.Terms.{term, unit, op as op_shape, more, none as no_terms, app, if_else as if_shape, con, member as member_shape, cast, annot, struct, to_named};
ghost use Rattle.cg_resolve_def.specs.Desugar.{depth_of, term_limit};
ghost use Rattle.cg_resolve_def.specs.Terms.{its_name, first_place, bind, observed, variable};
ghost use Rattle.cg_surface.specs.Exprs.{expr_of, bind_of, alt_of, field_of, to_fields, to_binds, to_alts, lets, if_else, match_of};
ghost use Rattle.cg_surface.specs.Patterns.{pattern_of};
ghost use Rattle.cg_surface.specs.Written.{written_of, to_types};
ghost use Rattle.cg_resolve_sites.specs.Answers.{Says};
ghost use Rattle.cg_resolve_sites.specs.Sites.{entry_of, scope_of, scope_in, inside, level, Fits, Binds, scope_limit};
ghost use Rattle.cg_resolve_sites.specs.Stands.{under, under_last, under_choices, HasRoom};
ghost use Rattle.cg_resolve_binders.specs.Parts.{seen_made};
ghost use Rattle.cg_resolve_nodes.specs.Names.{AreNames, written_in};
ghost use Rattle.cg_resolve_terms.specs.Answers.{StandingSays, LooksInto};
ghost use Rattle.cg_resolve_terms.specs.Terms.{name_in, term_in, puts_in, bind_in, observed_in, binds_in, components_in, field_in, payload_in, case_in, last_in, choices_in};

use cg_base::{Items, Memory, Name, Place};
use cg_core::{At, FieldTerm, Form, Op, Term};
use cg_resolve_binders::{
    bind_last, bind_later, bound_to, close_with, push_case, push_seen, under_choices,
};
use cg_resolve_nodes::{
    Names, annotated, application, binary, condition, constructed, formed, function_term, member,
    put, unary, unit_term, widened, written_arg,
};
use cg_resolve_sites::{
    Site, TERM_LIMIT, TermFault, component, inner_place, its_name, new_site, under, variable,
    variable_term,
};
use cg_surface::{Alt, Bind, FExpr, Pat, SExpr, SForm, STy};
use std::alloc::Global;

/// The place of an expression's first token.
#[cycle(first)]
#[inline(never)]
fn first_place(expr: &SExpr) -> Place
    ensures { result ≡ first_place (expr_of expr.now) }
{
    match &expr.form {
        SForm::Binary(_op, left, _right) => first_place(left),
        _ => expr.place,
    }
}

// The term of a name: a variable, or a function.
#[inline(never)]
fn name_term(
    alloc: Global,
    names: &Names,
    scope: &[Option<&[u8]>],
    place: Place,
    name: &Name,
    types: &Items<STy>,
) -> Result<Term<Place>, Memory>
    requires names { AreNames names.now }
    requires scope { length scope.now ≤ scope_limit }
    ensures { IfOk result (λ t. the_term t ≡ name_in names.now place name.now (to_types (map written_of types.now)) (variable (scope_of scope.now) name.now)) }
{
    let name = name.bytes();
    match variable(scope, name) {
        Some(at) => Ok(variable_term(place, at)),
        None => function_term(alloc, names, place, name, types),
    }
}

// A constructor alone, of `()`.
#[inline(never)]
fn constructor_alone(
    alloc: Global,
    above: usize,
    place: Place,
    name: &Name,
) -> Result<Term<Place>, TermFault>
    requires { above < term_limit }
    ensures { Says above (term place (con name.now (term place unit))) result }
{
    if above + 2 > TERM_LIMIT {
        return Err(TermFault::TooDeep);
    }
    Ok(constructed(alloc, place, name, unit_term(place))?)
}

/// The kernel term of an expression, with so many nodes above it. It answers that the term is too deep exactly where it is; want of
/// memory is its one other refusal.
#[cycle(term)]
pub fn term<'a>(
    alloc: Global,
    names: &Names,
    scope: &[Option<&'a [u8]>],
    above: usize,
    expr: &'a SExpr,
) -> Result<Term<Place>, TermFault>
    requires names { AreNames names.now }
    requires scope { length scope.now ≤ 2 * above + 1 }
    ensures { Says above (term_in names.now (scope_of scope.now) (expr_of expr.now)) result }
{
    if above >= TERM_LIMIT {
        return Err(TermFault::TooDeep);
    }
    form_term(alloc, names, scope, above, expr)
}

// The same, by the form of the expression.
#[cycle(term)]
fn form_term<'a>(
    alloc: Global,
    names: &Names,
    scope: &[Option<&'a [u8]>],
    above: usize,
    expr: &'a SExpr,
) -> Result<Term<Place>, TermFault>
    requires names { AreNames names.now }
    requires above { above < term_limit }
    requires scope { length scope.now ≤ 2 * above + 1 }
    ensures { Says above (term_in names.now (scope_of scope.now) (expr_of expr.now)) result }
{
    let place = expr.place;
    match &expr.form {
        SForm::Name(name, types) => Ok(name_term(alloc, names, scope, place, name, types)?),
        SForm::Number(value) => Ok(formed(place, Form::Lit(*value))),
        SForm::Bool(value) => Ok(formed(place, Form::Bool(*value))),
        SForm::Unit => Ok(unit_term(place)),
        SForm::Paren(inner) => term(alloc, names, scope, above, inner),
        SForm::Sig(part, ty) => annotation_term(alloc, names, scope, above, place, part, ty),
        SForm::App(fun, arg) => app_term(alloc, names, scope, above, place, fun, arg),
        SForm::Member(whole, at) => member_term(alloc, names, scope, above, place, whole, at),
        SForm::Unary(op, operand) => unary_term(alloc, names, scope, above, place, *op, operand),
        SForm::Upcast(operand) => cast_term(alloc, names, scope, above, place, operand),
        SForm::Binary(op, left, right) => {
            binary_term(alloc, names, scope, above, place, *op, left, right)
        }
        SForm::Con(name, None) => constructor_alone(alloc, above, place, name),
        SForm::Con(name, Some(value)) => {
            constructor_term(alloc, names, scope, above, place, name, value)
        }
        SForm::Tuple(items) => tuple_term(alloc, names, scope, above, place, items),
        SForm::Fields(fields) => record_term(alloc, names, scope, above, place, fields),
        SForm::Put(whole, fields) => put_term(alloc, names, scope, above, place, whole, fields),
        SForm::Let(binds, body) => let_term(alloc, names, scope, above, place, binds, body),
        SForm::If(test, seen, yes, no) => {
            if_term(alloc, names, scope, above, place, test, seen, yes, no)
        }
        SForm::Match(value, seen, choices) => {
            match_term(alloc, names, scope, above, place, value, seen, choices)
        }
    }
}

#[cycle(term)]
#[inline(never)]
fn annotation_term<'a>(
    alloc: Global,
    names: &Names,
    scope: &[Option<&'a [u8]>],
    above: usize,
    place: Place,
    part: &'a SExpr,
    ty: &STy,
) -> Result<Term<Place>, TermFault>
    requires names { AreNames names.now }
    requires above { above < term_limit }
    requires scope { length scope.now ≤ 2 * above + 1 }
    ensures { Says above (term place (annot (term_in names.now (scope_of scope.now) (expr_of part.now)) (written_in names.now (written_of ty.now)))) result }
{
    let part = term(alloc, names, scope, above + 1, part)?;
    let ty = written_arg(alloc, names, ty)?;
    Ok(annotated(alloc, place, part, ty)?)
}

#[cycle(term)]
#[inline(never)]
fn app_term<'a>(
    alloc: Global,
    names: &Names,
    scope: &[Option<&'a [u8]>],
    above: usize,
    place: Place,
    fun: &'a SExpr,
    arg: &'a SExpr,
) -> Result<Term<Place>, TermFault>
    requires names { AreNames names.now }
    requires above { above < term_limit }
    requires scope { length scope.now ≤ 2 * above + 1 }
    ensures { Says above (term place (app (term_in names.now (scope_of scope.now) (expr_of fun.now)) (term_in names.now (scope_of scope.now) (expr_of arg.now)))) result }
{
    let fun = term(alloc, names, scope, above + 1, fun)?;
    let arg = term(alloc, names, scope, above + 1, arg)?;
    Ok(application(alloc, place, fun, arg)?)
}

#[cycle(term)]
#[inline(never)]
fn member_term<'a>(
    alloc: Global,
    names: &Names,
    scope: &[Option<&'a [u8]>],
    above: usize,
    place: Place,
    whole: &'a SExpr,
    at: &At,
) -> Result<Term<Place>, TermFault>
    requires names { AreNames names.now }
    requires above { above < term_limit }
    requires scope { length scope.now ≤ 2 * above + 1 }
    ensures { Says above (term place (member_shape (term_in names.now (scope_of scope.now) (expr_of whole.now)) at.now)) result }
{
    let whole = term(alloc, names, scope, above + 1, whole)?;
    Ok(member(alloc, place, whole, at)?)
}

#[cycle(term)]
#[inline(never)]
fn unary_term<'a>(
    alloc: Global,
    names: &Names,
    scope: &[Option<&'a [u8]>],
    above: usize,
    place: Place,
    op: Op,
    operand: &'a SExpr,
) -> Result<Term<Place>, TermFault>
    requires names { AreNames names.now }
    requires above { above < term_limit }
    requires scope { length scope.now ≤ 2 * above + 1 }
    ensures { Says above (term place (op_shape op (more (term_in names.now (scope_of scope.now) (expr_of operand.now)) no_terms))) result }
{
    let operand = term(alloc, names, scope, above + 1, operand)?;
    Ok(unary(alloc, place, op, operand)?)
}

#[cycle(term)]
#[inline(never)]
fn cast_term<'a>(
    alloc: Global,
    names: &Names,
    scope: &[Option<&'a [u8]>],
    above: usize,
    place: Place,
    operand: &'a SExpr,
) -> Result<Term<Place>, TermFault>
    requires names { AreNames names.now }
    requires above { above < term_limit }
    requires scope { length scope.now ≤ 2 * above + 1 }
    ensures { Says above (term place (cast (term_in names.now (scope_of scope.now) (expr_of operand.now)))) result }
{
    let operand = term(alloc, names, scope, above + 1, operand)?;
    Ok(widened(alloc, place, operand)?)
}

#[cycle(term)]
#[inline(never)]
fn binary_term<'a>(
    alloc: Global,
    names: &Names,
    scope: &[Option<&'a [u8]>],
    above: usize,
    place: Place,
    op: Op,
    left: &'a SExpr,
    right: &'a SExpr,
) -> Result<Term<Place>, TermFault>
    requires names { AreNames names.now }
    requires above { above < term_limit }
    requires scope { length scope.now ≤ 2 * above + 1 }
    ensures { Says above (term place (op_shape op (more (term_in names.now (scope_of scope.now) (expr_of left.now)) (more (term_in names.now (scope_of scope.now) (expr_of right.now)) no_terms)))) result }
{
    let left = term(alloc, names, scope, above + 1, left)?;
    let right = term(alloc, names, scope, above + 1, right)?;
    Ok(binary(alloc, place, op, left, right)?)
}

#[cycle(term)]
#[inline(never)]
fn constructor_term<'a>(
    alloc: Global,
    names: &Names,
    scope: &[Option<&'a [u8]>],
    above: usize,
    place: Place,
    name: &Name,
    value: &'a SExpr,
) -> Result<Term<Place>, TermFault>
    requires names { AreNames names.now }
    requires above { above < term_limit }
    requires scope { length scope.now ≤ 2 * above + 1 }
    ensures { Says above (term place (con name.now (term_in names.now (scope_of scope.now) (expr_of value.now)))) result }
{
    let value = term(alloc, names, scope, above + 1, value)?;
    Ok(constructed(alloc, place, name, value)?)
}

// A tuple is a record of its components.
#[cycle(term)]
#[inline(never)]
fn tuple_term<'a>(
    alloc: Global,
    names: &Names,
    scope: &[Option<&'a [u8]>],
    above: usize,
    place: Place,
    items: &'a Items<SExpr>,
) -> Result<Term<Place>, TermFault>
    requires names { AreNames names.now }
    requires above { above < term_limit }
    requires scope { length scope.now ≤ 2 * above + 1 }
    ensures { Says above (term place (struct (to_named (components_in names.now (scope_of scope.now) 0 (map expr_of items.now))))) result }
{
    let mut fields = Items::new(alloc);
    let mut index = 0;
    for item in items.as_slice() {
        let name = component(alloc, index)?;
        let term = term(alloc, names, scope, above + 1, item)?;
        fields.push(FieldTerm { name, term })?;
        index += 1;
    }
    Ok(Term {
        note: place,
        form: Form::Struct(fields),
    })
}

#[cycle(term)]
#[inline(never)]
fn record_term<'a>(
    alloc: Global,
    names: &Names,
    scope: &[Option<&'a [u8]>],
    above: usize,
    place: Place,
    fields: &'a Items<FExpr>,
) -> Result<Term<Place>, TermFault>
    requires names { AreNames names.now }
    requires above { above < term_limit }
    requires scope { length scope.now ≤ 2 * above + 1 }
    ensures { Says above (term place (struct (to_named (map (field_in names.now (scope_of scope.now)) (map field_of fields.now))))) result }
{
    let mut made = Items::new(alloc);
    for field in fields.as_slice() {
        let name = field.at.name.copy(alloc)?;
        let term = term(alloc, names, scope, above + 1, &field.value)?;
        made.push(FieldTerm { name, term })?;
    }
    Ok(Term {
        note: place,
        form: Form::Struct(made),
    })
}

// Puts into a record.
#[cycle(term)]
#[inline(never)]
fn put_term<'a>(
    alloc: Global,
    names: &Names,
    scope: &[Option<&'a [u8]>],
    above: usize,
    place: Place,
    whole: &'a SExpr,
    fields: &'a Items<FExpr>,
) -> Result<Term<Place>, TermFault>
    requires names { AreNames names.now }
    requires above { above < term_limit }
    requires scope { length scope.now ≤ 2 * above + 1 }
    ensures { Says above (puts_in names.now place (scope_of scope.now) (term_in names.now (scope_of scope.now) (expr_of whole.now)) (to_fields (map field_of fields.now))) result }
{
    let whole = below_puts(alloc, names, scope, above, fields.len(), whole)?;
    put_all(alloc, names, scope, above, place, fields, whole)
}

// The record that is put into, below as many nodes as there are puts.
#[cycle(term)]
fn below_puts<'a>(
    alloc: Global,
    names: &Names,
    scope: &[Option<&'a [u8]>],
    above: usize,
    puts: usize,
    whole: &'a SExpr,
) -> Result<Term<Place>, TermFault>
    requires names { AreNames names.now }
    requires above { above < term_limit }
    requires scope { length scope.now ≤ 2 * above + 1 }
    ensures { Says (above + puts) (term_in names.now (scope_of scope.now) (expr_of whole.now)) result }
{
    if puts >= TERM_LIMIT - above {
        return Err(TermFault::TooDeep);
    }
    term(alloc, names, scope, above + puts, whole)
}

// Puts, of which the first stands innermost.
#[cycle(term)]
fn put_all<'a>(
    alloc: Global,
    names: &Names,
    scope: &[Option<&'a [u8]>],
    above: usize,
    place: Place,
    fields: &'a Items<FExpr>,
    whole: Term<Place>,
) -> Result<Term<Place>, TermFault>
    requires names { AreNames names.now }
    requires whole { above + length fields.now + depth_of (the_term whole) ≤ term_limit }
    requires scope { length scope.now ≤ 2 * above + 1 }
    ensures { Says above (puts_in names.now place (scope_of scope.now) (the_term whole) (to_fields (map field_of fields.now))) result }
{
    let mut left = fields.len();
    let mut made = whole;
    for field in fields.as_slice() {
        let value = term(alloc, names, scope, above + left, &field.value)?;
        made = put(alloc, place, made, &field.at, value)?;
        left -= 1;
    }
    Ok(made)
}

// Bindings, and what they are bound in.
#[cycle(term)]
#[inline(never)]
fn let_term<'a>(
    alloc: Global,
    names: &Names,
    scope: &[Option<&'a [u8]>],
    above: usize,
    place: Place,
    binds: &'a Items<Bind>,
    body: &'a SExpr,
) -> Result<Term<Place>, TermFault>
    requires names { AreNames names.now }
    requires above { above < term_limit }
    requires scope { length scope.now ≤ 2 * above + 1 }
    ensures { Says above (term_in names.now (scope_of scope.now) (lets place (to_binds (map bind_of binds.now)) (expr_of body.now))) result }
{
    let mut site = new_site(alloc, scope, above)?;
    bind_all(alloc, names, &mut site, place, binds)?;
    finish(alloc, names, &mut site, body)
}

#[cycle(term)]
#[inline(never)]
fn if_term<'a>(
    alloc: Global,
    names: &Names,
    scope: &[Option<&'a [u8]>],
    above: usize,
    place: Place,
    test: &'a SExpr,
    seen: &Items<At>,
    yes: &'a SExpr,
    no: &'a SExpr,
) -> Result<Term<Place>, TermFault>
    requires names { AreNames names.now }
    requires above { above < term_limit }
    requires scope { length scope.now ≤ 2 * above + 1 }
    ensures { Says above (term_in names.now (scope_of scope.now) (if_else place (expr_of test.now) seen.now (expr_of yes.now) (expr_of no.now))) result }
{
    let mut site = new_site(alloc, scope, above)?;
    let test = look_into(alloc, names, &mut site, place, Some(1), seen, test)?;
    branches_term(alloc, names, &mut site, place, test, yes, no)
}

// A condition whose test is done, with its branches.
#[cycle(term)]
fn branches_term<'a>(
    alloc: Global,
    names: &Names,
    site: &mut Site<'a>,
    place: Place,
    test: Term<Place>,
    yes: &'a SExpr,
    no: &'a SExpr,
) -> Result<Term<Place>, TermFault>
    requires names { AreNames names.now }
    requires fits { Fits site.now }
    requires test { HasRoom (Some 1) (level site.now) (depth_of (the_term test)) }
    ensures { Says site.old.above (inside site.old (term place (if_shape (the_term test) (term_in names.now (scope_in site.old) (expr_of yes.now)) (term_in names.now (scope_in site.old) (expr_of no.now))))) result }
{
    let yes = value_at(alloc, names, site, Some(1), yes)?;
    let no = value_at(alloc, names, site, Some(1), no)?;
    let whole = condition(alloc, place, test, yes, no)?;
    Ok(site.close(alloc, whole)?)
}

#[cycle(term)]
#[inline(never)]
fn match_term<'a>(
    alloc: Global,
    names: &Names,
    scope: &[Option<&'a [u8]>],
    above: usize,
    place: Place,
    value: &'a SExpr,
    seen: &Items<At>,
    choices: &'a Items<Alt>,
) -> Result<Term<Place>, TermFault>
    requires names { AreNames names.now }
    requires above { above < term_limit }
    requires scope { length scope.now ≤ 2 * above + 1 }
    ensures { Says above (term_in names.now (scope_of scope.now) (match_of place (expr_of value.now) seen.now (to_alts (map alt_of choices.now)))) result }
{
    let mut site = new_site(alloc, scope, above)?;
    let stands = under_choices(choices);
    let subject = look_into(alloc, names, &mut site, place, stands, seen, value)?;
    match_all(alloc, names, &mut site, choices, subject)
}

// The term of an expression, where what is done at a site goes on.
#[cycle(term)]
fn finish<'a>(
    alloc: Global,
    names: &Names,
    site: &mut Site<'a>,
    body: &'a SExpr,
) -> Result<Term<Place>, TermFault>
    requires names { AreNames names.now }
    requires fits { Fits site.now }
    ensures { Says site.old.above (inside site.old (term_in names.now (scope_in site.old) (expr_of body.now))) result }
{
    let rest = term(alloc, names, site.scope.as_slice(), site.level(), body)?;
    Ok(site.close(alloc, rest)?)
}

// The term of an expression that stands that far down from a site. Any term, where it is left out.
#[cycle(term)]
fn value_at<'a>(
    alloc: Global,
    names: &Names,
    site: &Site<'a>,
    stands: Option<usize>,
    value: &'a SExpr,
) -> Result<Term<Place>, TermFault>
    requires names { AreNames names.now }
    requires fits { Fits site.now }
    requires stands { MatchOption stands ⊤ (λ nodes. nodes ≤ 3) }
    ensures { StandingSays stands (level site.now) (term_in names.now (scope_in site.now) (expr_of value.now)) result }
{
    match stands {
        None => Ok(unit_term(value.place)),
        Some(nodes) => {
            let above = site.level() + nodes;
            term(alloc, names, site.scope.as_slice(), above, value)
        }
    }
}

// Observes variables in a term, and makes an entry for it.
#[cycle(term)]
fn observe<'a>(
    alloc: Global,
    names: &Names,
    site: &mut Site<'a>,
    node: Place,
    seen: &Items<At>,
    place: Place,
    value: &'a SExpr,
    entry: Option<&'a [u8]>,
) -> Result<(), TermFault>
    requires names { AreNames names.now }
    requires fits { Fits site.now }
    ensures { Binds site.old (seen_made node seen.now place (term_in names.now (scope_in site.old) (expr_of value.now)) (entry_of entry.entry) (scope_in site.old)) result site.new }
{
    let above = site.level() + 1;
    let value = term(alloc, names, site.scope.as_slice(), above, value)?;
    push_seen(alloc, site, node, seen, place, value, entry)?;
    Ok(())
}

// Binds an expression to a pattern.
#[cycle(term)]
fn bind_plain<'a>(
    alloc: Global,
    names: &Names,
    site: &mut Site<'a>,
    value: &'a SExpr,
    pattern: &'a Pat,
) -> Result<(), TermFault>
    requires names { AreNames names.now }
    requires fits { Fits site.now }
    ensures { Binds site.old (bind (pattern_of pattern.now) (term_in names.now (scope_in site.old) (expr_of value.now)) (scope_in site.old)) result site.new }
{
    let value = value_at(alloc, names, site, under(pattern), value)?;
    bound_to(alloc, site, inner_place(pattern), pattern, value)
}

// Binds an expression that variables are observed in.
#[cycle(term)]
fn bind_observed<'a>(
    alloc: Global,
    names: &Names,
    site: &mut Site<'a>,
    place: Place,
    bind: &'a Bind,
) -> Result<(), TermFault>
    requires names { AreNames names.now }
    requires fits { Fits site.now }
    ensures { Binds site.old (observed_in names.now place (bind_of bind.now) (scope_in site.old)) result site.new }
{
    let at = site.scope.len();
    let entry = its_name(&bind.pat);
    let inner = inner_place(&bind.pat);
    observe(
        alloc,
        names,
        site,
        place,
        &bind.seen,
        inner,
        &bind.value,
        entry,
    )?;
    bind_later(alloc, site, first_place(&bind.value), &bind.pat, at)
}

// A binding of a `let`.
#[cycle(term)]
fn bind_let<'a>(
    alloc: Global,
    names: &Names,
    site: &mut Site<'a>,
    place: Place,
    bind: &'a Bind,
) -> Result<(), TermFault>
    requires names { AreNames names.now }
    requires fits { Fits site.now }
    ensures { Binds site.old (bind_in names.now place (bind_of bind.now) (scope_in site.old)) result site.new }
{
    if bind.seen.len() == 0 {
        bind_plain(alloc, names, site, &bind.value, &bind.pat)
    } else {
        bind_observed(alloc, names, site, place, bind)
    }
}

#[cycle(term)]
fn bind_all<'a>(
    alloc: Global,
    names: &Names,
    site: &mut Site<'a>,
    place: Place,
    binds: &'a Items<Bind>,
) -> Result<(), TermFault>
    requires names { AreNames names.now }
    requires fits { Fits site.now }
    ensures { Binds site.old (binds_in names.now place (map bind_of binds.now) (scope_in site.old)) result site.new }
{
    for bind in binds.as_slice() {
        bind_let(alloc, names, site, place, bind)?;
    }
    Ok(())
}

// The term that stands for what is looked into, that far down from a site: a variable, where variables are observed in it.
#[cycle(term)]
fn look_into<'a>(
    alloc: Global,
    names: &Names,
    site: &mut Site<'a>,
    place: Place,
    stands: Option<usize>,
    seen: &Items<At>,
    value: &'a SExpr,
) -> Result<Term<Place>, TermFault>
    requires names { AreNames names.now }
    requires fits { Fits site.now }
    requires stands { MatchOption stands ⊤ (λ nodes. nodes ≤ 3) }
    ensures { LooksInto stands site.old (observed place (first_place (expr_of value.now)) (term_in names.now (scope_in site.old) (expr_of value.now)) seen.now (scope_in site.old)) result site.new }
{
    if seen.len() == 0 {
        return value_at(alloc, names, site, stands, value);
    }
    let at = site.scope.len();
    let first = first_place(value);
    observe(alloc, names, site, place, seen, first, value, None)?;
    Ok(variable_term(first, at))
}

// The alternatives of a match, each but the last a case of which the next is the rest.
#[cycle(term)]
fn match_all<'a>(
    alloc: Global,
    names: &Names,
    site: &mut Site<'a>,
    choices: &'a Items<Alt>,
    subject: Term<Place>,
) -> Result<Term<Place>, TermFault>
    requires names { AreNames names.now }
    requires fits { Fits site.now }
    requires subject { HasRoom (under_choices (map alt_of choices.now)) (level site.now) (depth_of (the_term subject)) }
    ensures { Says site.old.above (inside site.old (choices_in names.now (map alt_of choices.now) (the_term subject) (scope_in site.old))) result }
{
    let mut left = choices.len();
    let mut subject = subject;
    for choice in choices.as_slice() {
        if left == 1 {
            return last_term(alloc, names, site, choice, subject);
        }
        let at = site.scope.len();
        open_case(alloc, names, site, choice, subject)?;
        subject = variable_term(choice.place, at);
        left -= 1;
    }
    close_with(alloc, site, subject)
}

// Opens the case of an alternative that isn't the last.
#[cycle(term)]
fn open_case<'a>(
    alloc: Global,
    names: &Names,
    site: &mut Site<'a>,
    choice: &'a Alt,
    subject: Term<Place>,
) -> Result<(), TermFault>
    requires names { AreNames names.now }
    requires fits { Fits site.now }
    requires subject { HasRoom (Some 1) (level site.now) (depth_of (the_term subject)) }
    ensures { Binds site.old (case_in names.now (alt_of choice.now) (the_term subject) (scope_in site.old)) result site.new }
{
    let above = site.level() + 1;
    let scope = site.scope.as_slice();
    let first = payload(alloc, names, scope, above, &choice.body, &choice.pat)?;
    push_case(alloc, site, choice, subject, first)?;
    Ok(())
}

// The term of a last alternative.
#[cycle(term)]
fn last_term<'a>(
    alloc: Global,
    names: &Names,
    site: &mut Site<'a>,
    choice: &'a Alt,
    subject: Term<Place>,
) -> Result<Term<Place>, TermFault>
    requires names { AreNames names.now }
    requires fits { Fits site.now }
    requires subject { HasRoom (under_last (alt_of choice.now).con (under (alt_of choice.now).pattern)) (level site.now) (depth_of (the_term subject)) }
    ensures { Says site.old.above (inside site.old (last_in names.now (alt_of choice.now) (the_term subject) (scope_in site.old))) result }
{
    bind_last(alloc, site, choice, subject)?;
    finish(alloc, names, site, &choice.body)
}

/// The term of an expression whose parameter, the next entry of the scope, is a pattern. It answers that the term is too deep
/// exactly where it is; want of memory is its one other refusal.
#[cycle(term)]
pub fn payload<'a>(
    alloc: Global,
    names: &Names,
    scope: &[Option<&'a [u8]>],
    above: usize,
    body: &'a SExpr,
    pattern: &'a Pat,
) -> Result<Term<Place>, TermFault>
    requires names { AreNames names.now }
    requires above { above ≤ term_limit + 1 }
    requires scope { length scope.now ≤ 2 * above }
    ensures { Says above (payload_in names.now (pattern_of pattern.now) (scope_of scope.now) (expr_of body.now)) result }
{
    if above >= TERM_LIMIT {
        return Err(TermFault::TooDeep);
    }
    let mut site = new_site(alloc, scope, above)?;
    let at = scope.len();
    site.scope.push(its_name(pattern))?;
    bind_later(alloc, &mut site, inner_place(pattern), pattern, at)?;
    finish(alloc, names, &mut site, body)
}
