// The C of terms, one function a form.
#![tactic(auto, unfolding(cg_lower_def::specs::Lowered::low, cg_lower_def::specs::Lowered::low_shape), using(crate::proofs::TermSteps::term_steps))]

ghost use Rattle.std.specs.Prelude.{◌≡◌, ◌||◌, [], ◌∷◌, IfOk, IsTrue, map, get_or};
ghost use Rattle.cg_base.specs.Types.{type_of};
ghost use Rattle.cg_core.specs.Kernels.{the_core, the_core_field, the_core_form};
ghost use Rattle.cg_core.specs.Terms.{app as app_of, con as con_of, if_else, member as member_of, more, none, op as op_of, struct as struct_of, cast as cast_of, to_named, to_trees};
ghost use Rattle.cg_cgen_def.specs.Places as places;
ghost use Rattle.cg_lower_nodes.specs.Grown.{After};
ghost use Rattle.cg_lower_terms.specs.Forms.{AfterFields, Arms, ArmsBoth, Lowers, LowersNode, low_choice, low_esac, low_in, low_let, low_put_in, low_record, low_take, low_within};
ghost use Rattle.cg_core.specs.Groups.{is_data, is_leaf};
ghost use Rattle.cg_lower_nodes.specs.Views.{place_of};

use crate::calls::{callee, named, operands};
use cg_base::{Items, Memory, Name, Ty};
use cg_cgen_lines::{Base, Step};
use cg_core::{At, FieldTerm, Form, Op, Term, Typed};
use cg_ctree::CStmt;
use cg_eval_operations::{position, truth};
use cg_lower_nodes::{
    Lowering, Place, alternative_place, called, cast, choose, filled, injected, operated_both,
    operated_once, put, read, read_at, tagged, word_of,
};
use std::alloc::Global;

// Where the value of a variable is kept.
#[inline(never)]
fn variable(alloc: Global, scope: &Vec<Place>, at: u32) -> Result<Place, Memory>
    ensures { IfOk result (λ place. place_of place ≡ get_or (map place_of scope.now.items) at (places.number 0)) }
{
    match scope.get(at as usize) {
        Some(place) => place.copy(alloc),
        None => Ok(Place::Number(0)),
    }
}

// A term without parts.
#[inline(never)]
fn leaf(alloc: Global, state: &mut Lowering, term: &Term<Typed>) -> Result<Place, Memory>
    requires { IsTrue (is_leaf (the_core_form term.now.form)) }
    ensures { IfOk result (λ place. Lowers state.old state.new (the_core term.now) place) }
{
    match &term.form {
        Form::Var(at) => variable(alloc, &state.scope, *at),
        Form::Unit => Ok(Place::Number(0)),
        Form::Bool(value) => Ok(Place::Number(truth(*value))),
        Form::Lit(value) => Ok(Place::Number(value.unwrap_or(0))),
        Form::Fun(fun, args) => named(alloc, state, *fun, args),
        _ => unreachable!(),
    }
}

/// Lowers a term: its types of locals and its statements join those that are there (docs/LANGUAGE.md, "The C of instances"). The one error
/// is want of memory.
#[cycle(lower)]
pub fn lower_term(alloc: Global, state: &mut Lowering, term: &Term<Typed>) -> Result<Place, Memory>
    ensures { IfOk result (λ place. Lowers state.old state.new (the_core term.now) place) }
{
    let ty = &term.note.ty;
    match &term.form {
        Form::Op(op, operands) => lower_op(alloc, state, ty, *op, operands),
        Form::App(function, argument) => lower_app(alloc, state, ty, function, argument),
        Form::Let(_, value, body) => lower_let(alloc, state, value, body),
        Form::LetBang(_, _, value, body) => lower_let(alloc, state, value, body),
        Form::If(test, yes, no) => lower_if(alloc, state, ty, test, yes, no),
        Form::Cast(operand) => lower_cast(alloc, state, ty, operand),
        Form::Annot(part, _) => lower_term(alloc, state, part),
        _ => lower_data(alloc, state, term),
    }
}

// A term of variants or of records, or one without parts.
#[cycle(lower)]
#[inline(never)]
fn lower_data(alloc: Global, state: &mut Lowering, term: &Term<Typed>) -> Result<Place, Memory>
    requires { IsTrue (is_data (the_core_form term.now.form) || is_leaf (the_core_form term.now.form)) }
    ensures { IfOk result (λ place. Lowers state.old state.new (the_core term.now) place) }
{
    let ty = &term.note.ty;
    match &term.form {
        Form::Con(name, value) => lower_con(alloc, state, ty, name, value),
        Form::Case(subject, at, _, first, rest) => lower_case(
            alloc, state, ty, subject, at, first, rest,
        ),
        Form::Esac(at, subject) => lower_esac(alloc, state, at, subject),
        Form::Struct(fields) => lower_struct(alloc, state, ty, fields),
        Form::Member(whole, at) => lower_member(alloc, state, ty, whole, at),
        Form::Take(whole, at, _, _, body) => lower_take(alloc, state, whole, at, body),
        Form::Put(whole, at, value) => lower_put(alloc, state, whole, at, value),
        _ => leaf(alloc, state, term),
    }
}

// A term in a scope with one variable more.
#[cycle(lower)]
fn lower_within(
    alloc: Global,
    state: &mut Lowering,
    bound: Place,
    body: &Term<Typed>,
) -> Result<Place, Memory>
    ensures { IfOk result (λ place. After state.old state.new place (low_within state.old (place_of bound ∷ []) (the_core body.now))) }
{
    let depth = state.scope.len();
    state.bind(bound)?;
    let place = lower_term(alloc, state, body)?;
    state.unbind(depth);
    Ok(place)
}

#[cycle(lower)]
#[inline(never)]
fn lower_let(
    alloc: Global,
    state: &mut Lowering,
    value: &Term<Typed>,
    body: &Term<Typed>,
) -> Result<Place, Memory>
    ensures { IfOk result (λ place. After state.old state.new place (low_let state.old (the_core value.now) (the_core body.now))) }
{
    let place = lower_term(alloc, state, value)?;
    lower_within(alloc, state, place, body)
}

#[cycle(lower)]
#[inline(never)]
fn lower_con(
    alloc: Global,
    state: &mut Lowering,
    ty: &Ty,
    name: &Name,
    value: &Term<Typed>,
) -> Result<Place, Memory>
    ensures { IfOk result (λ place. LowersNode state.old state.new (type_of ty.now) (con_of name.now (the_core value.now)) place) }
{
    let place = lower_term(alloc, state, value)?;
    injected(alloc, state, ty, alternative_place(name, ty), &place)
}

#[cycle(lower)]
#[inline(never)]
fn lower_esac(
    alloc: Global,
    state: &mut Lowering,
    at: &At,
    subject: &Term<Typed>,
) -> Result<Place, Memory>
    ensures { IfOk result (λ place. After state.old state.new place (low_esac state.old at.now (the_core subject.now))) }
{
    let place = lower_term(alloc, state, subject)?;
    let at = alternative_place(&at.name, &subject.note.ty);
    place.at(Step::Payload(at))
}

#[cycle(lower)]
#[inline(never)]
fn lower_op(
    alloc: Global,
    state: &mut Lowering,
    ty: &Ty,
    op: Op,
    operands: &Items<Term<Typed>>,
) -> Result<Place, Memory>
    ensures { IfOk result (λ place. LowersNode state.old state.new (type_of ty.now) (op_of op (to_trees (map the_core operands.now))) place) }
{
    match operands.as_slice() {
        [operand] => lower_one(alloc, state, ty, op, operand),
        [left, right] => lower_two(alloc, state, ty, op, left, right),
        [_, _, _, ..] => Ok(Place::Number(0)),
        [] => Ok(Place::Number(0)),
    }
}

#[cycle(lower)]
#[inline(never)]
fn lower_one(
    alloc: Global,
    state: &mut Lowering,
    ty: &Ty,
    op: Op,
    operand: &Term<Typed>,
) -> Result<Place, Memory>
    ensures { IfOk result (λ place. LowersNode state.old state.new (type_of ty.now) (op_of op (more (the_core operand.now) none)) place) }
{
    let value = lower_term(alloc, state, operand)?;
    let word = word_of(&operand.note.ty);
    operated_once(alloc, state, ty, op, word, &value)
}

#[cycle(lower)]
#[inline(never)]
fn lower_two(
    alloc: Global,
    state: &mut Lowering,
    ty: &Ty,
    op: Op,
    left: &Term<Typed>,
    right: &Term<Typed>,
) -> Result<Place, Memory>
    ensures { IfOk result (λ place. LowersNode state.old state.new (type_of ty.now) (op_of op (more (the_core left.now) (more (the_core right.now) none))) place) }
{
    let first = lower_term(alloc, state, left)?;
    let second = lower_term(alloc, state, right)?;
    let word = word_of(&left.note.ty);
    operated_both(alloc, state, ty, op, word, &first, &second)
}

#[cycle(lower)]
#[inline(never)]
fn lower_app(
    alloc: Global,
    state: &mut Lowering,
    ty: &Ty,
    function: &Term<Typed>,
    argument: &Term<Typed>,
) -> Result<Place, Memory>
    ensures { IfOk result (λ place. LowersNode state.old state.new (type_of ty.now) (app_of (the_core function.now) (the_core argument.now)) place) }
{
    let value = lower_term(alloc, state, function)?;
    let argument = lower_term(alloc, state, argument)?;
    let values = operands(alloc, function, value, argument)?;
    let name = callee(alloc, state, function)?;
    called(alloc, state, ty, name, &values)
}

// A branch, whose value a local gets.
#[cycle(lower)]
#[inline(never)]
fn lower_arm(
    alloc: Global,
    state: &mut Lowering,
    to: usize,
    term: &Term<Typed>,
) -> Result<Items<CStmt>, Memory>
    ensures { IfOk result (λ stmts. Arms state.old state.new stmts to (low_in state.old (the_core term.now))) }
{
    let outer = state.begin(alloc);
    let value = lower_term(alloc, state, term)?;
    state.end(alloc, outer, to, value)
}

#[cycle(lower)]
#[inline(never)]
fn lower_if(
    alloc: Global,
    state: &mut Lowering,
    ty: &Ty,
    test: &Term<Typed>,
    yes: &Term<Typed>,
    no: &Term<Typed>,
) -> Result<Place, Memory>
    ensures { IfOk result (λ place. LowersNode state.old state.new (type_of ty.now) (if_else (the_core test.now) (the_core yes.now) (the_core no.now)) place) }
{
    let flag = lower_term(alloc, state, test)?;
    let to = state.fresh(alloc, ty)?;
    let yes = lower_arm(alloc, state, to, yes)?;
    let no = lower_arm(alloc, state, to, no)?;
    choose(alloc, state, &flag, yes, no)?;
    Ok(Place::Held(Base::Local(to), Items::new(alloc)))
}

// A branch, in a scope with one variable more.
#[cycle(lower)]
#[inline(never)]
fn lower_arm_within(
    alloc: Global,
    state: &mut Lowering,
    to: usize,
    bound: Place,
    term: &Term<Typed>,
) -> Result<Items<CStmt>, Memory>
    ensures { IfOk result (λ stmts. Arms state.old state.new stmts to (low_within state.old (place_of bound ∷ []) (the_core term.now))) }
{
    let depth = state.scope.len();
    state.bind(bound)?;
    let stmts = lower_arm(alloc, state, to, term)?;
    state.unbind(depth);
    Ok(stmts)
}

// The branches of a choice between the alternative at a place and all others.
#[cycle(lower)]
#[inline(never)]
fn lower_arms(
    alloc: Global,
    state: &mut Lowering,
    to: usize,
    value: Place,
    at: usize,
    first: &Term<Typed>,
    rest: &Term<Typed>,
) -> Result<(Items<CStmt>, Items<CStmt>), Memory>
    ensures { IfOk result (λ two. ArmsBoth state.old state.new two.0 two.1 to (place_of value) at (the_core first.now) (the_core rest.now)) }
{
    let payload = value.copy(alloc)?.at(Step::Payload(at))?;
    let yes = lower_arm_within(alloc, state, to, payload, first)?;
    let no = lower_arm_within(alloc, state, to, value, rest)?;
    Ok((yes, no))
}

#[cycle(lower)]
#[inline(never)]
fn lower_case(
    alloc: Global,
    state: &mut Lowering,
    ty: &Ty,
    subject: &Term<Typed>,
    at: &At,
    first: &Term<Typed>,
    rest: &Term<Typed>,
) -> Result<Place, Memory>
    ensures { IfOk result (λ place. After state.old state.new place (low_choice state.old (type_of ty.now) (the_core subject.now) at.now (the_core first.now) (the_core rest.now))) }
{
    let value = lower_term(alloc, state, subject)?;
    let at = alternative_place(&at.name, &subject.note.ty);
    let flag = tagged(alloc, state, at, &value)?;
    let to = state.fresh(alloc, ty)?;
    let (yes, no) = lower_arms(alloc, state, to, value, at, first, rest)?;
    choose(alloc, state, &flag, yes, no)?;
    Ok(Place::Held(Base::Local(to), Items::new(alloc)))
}

// The fields of a record.
#[cycle(lower)]
#[inline(never)]
fn lower_fields(
    alloc: Global,
    state: &mut Lowering,
    fields: &Items<FieldTerm<Typed>>,
) -> Result<Items<Place>, Memory>
    ensures { IfOk result (λ values. AfterFields state.old state.new values (low_record state.old (to_named (map the_core_field fields.now)))) }
{
    let mut values = Items::new(alloc);
    for field in fields.as_slice() {
        let value = lower_term(alloc, state, &field.term)?;
        values.push(value)?;
    }
    Ok(values)
}

#[cycle(lower)]
#[inline(never)]
fn lower_struct(
    alloc: Global,
    state: &mut Lowering,
    ty: &Ty,
    fields: &Items<FieldTerm<Typed>>,
) -> Result<Place, Memory>
    ensures { IfOk result (λ place. LowersNode state.old state.new (type_of ty.now) (struct_of (to_named (map the_core_field fields.now))) place) }
{
    let values = lower_fields(alloc, state, fields)?;
    filled(alloc, state, ty, &values)
}

#[cycle(lower)]
#[inline(never)]
fn lower_member(
    alloc: Global,
    state: &mut Lowering,
    ty: &Ty,
    whole: &Term<Typed>,
    at: &At,
) -> Result<Place, Memory>
    ensures { IfOk result (λ place. LowersNode state.old state.new (type_of ty.now) (member_of (the_core whole.now) at.now) place) }
{
    let value = lower_term(alloc, state, whole)?;
    let at = position(&at.name, &whole.note.ty);
    let (left, part) = read(alloc, state, &whole.note.ty, ty, at, value)?;
    drop(left);
    Ok(part)
}

#[cycle(lower)]
#[inline(never)]
fn lower_take(
    alloc: Global,
    state: &mut Lowering,
    whole: &Term<Typed>,
    at: &At,
    body: &Term<Typed>,
) -> Result<Place, Memory>
    ensures { IfOk result (λ place. After state.old state.new place (low_take state.old (the_core whole.now) at.now (the_core body.now))) }
{
    let value = lower_term(alloc, state, whole)?;
    let at = position(&at.name, &whole.note.ty);
    let (left, part) = read_at(alloc, state, &whole.note.ty, at, value)?;
    let depth = state.scope.len();
    state.bind(left)?;
    let place = lower_within(alloc, state, part, body)?;
    state.unbind(depth);
    Ok(place)
}

#[cycle(lower)]
#[inline(never)]
fn lower_put(
    alloc: Global,
    state: &mut Lowering,
    whole: &Term<Typed>,
    at: &At,
    value: &Term<Typed>,
) -> Result<Place, Memory>
    ensures { IfOk result (λ place. After state.old state.new place (low_put_in state.old (the_core whole.now) at.now (the_core value.now))) }
{
    let from = state.locals.len();
    let place = lower_term(alloc, state, whole)?;
    let value = lower_term(alloc, state, value)?;
    let at = position(&at.name, &whole.note.ty);
    put(alloc, state, from, &whole.note.ty, at, place, &value)
}

#[cycle(lower)]
#[inline(never)]
fn lower_cast(
    alloc: Global,
    state: &mut Lowering,
    ty: &Ty,
    operand: &Term<Typed>,
) -> Result<Place, Memory>
    ensures { IfOk result (λ place. LowersNode state.old state.new (type_of ty.now) (cast_of (the_core operand.now)) place) }
{
    let value = lower_term(alloc, state, operand)?;
    cast(alloc, state, word_of(ty), value)
}
