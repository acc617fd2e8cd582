// Erasure.
#![tactic(auto, using(crate::proofs::Erasures::erasures), unfolding(crate::specs::Terms::erased))]

ghost use Rattle.std.specs.Prelude.{◌≡◌, map, IfOk};
ghost use Rattle.cg_core.specs.Terms.{arg_of, erased, erased_shape, erased_field, let_bang, if_else, case_of, take_field, put};
ghost use Rattle.cg_core.specs.Kernels.{the_term, the_form, the_field, the_core, the_core_form, the_core_field};

use crate::{At, FieldTerm, Form, Seen, Term, TyArg, Typed};
use cg_base::{Items, Memory, Name, Place};
use std::alloc::Global;

/// The kernel term of a core: the same term with its types off (docs/LANGUAGE.md, "Typing"). Want of memory
/// is its one refusal.
#[cycle(erase)]
pub fn erase(alloc: Global, core: &Term<Typed>) -> Result<Term<Place>, Memory>
    ensures { IfOk result (λ t. the_term t ≡ erased (the_core core.now)) }
{
    let form = erase_form(alloc, &core.form)?;
    Ok(Term {
        note: core.note.place,
        form,
    })
}

#[cycle(erase)]
fn erase_boxed(alloc: Global, core: &Term<Typed>) -> Result<Box<Term<Place>>, Memory>
    ensures { IfOk result (λ t. the_term t.value ≡ erased (the_core core.now)) }
{
    let term = erase(alloc, core)?;
    Ok(Box::new(alloc, term)?)
}

#[cycle(erase)]
fn erase_form(alloc: Global, form: &Form<Typed>) -> Result<Form<Place>, Memory>
    ensures { IfOk result (λ f. the_form f ≡ erased_shape (the_core_form form.now)) }
{
    match form {
        Form::Var(var) => Ok(Form::Var(*var)),
        Form::Unit => Ok(Form::Unit),
        Form::Bool(value) => Ok(Form::Bool(*value)),
        Form::Lit(value) => Ok(Form::Lit(*value)),
        Form::Fun(fun, args) => Ok(Form::Fun(*fun, copy_args(alloc, args)?)),
        Form::Op(op, operands) => Ok(Form::Op(*op, erase_terms(alloc, operands)?)),
        Form::App(fun, arg) => {
            let (fun, arg) = erase_two(alloc, fun, arg)?;
            Ok(Form::App(fun, arg))
        }
        Form::Let(place, value, body) => {
            let (value, body) = erase_two(alloc, value, body)?;
            Ok(Form::Let(*place, value, body))
        }
        Form::LetBang(seen, place, value, body) => {
            erase_let_bang(alloc, seen, *place, value, body)
        }
        Form::If(test, yes, no) => erase_if(alloc, test, yes, no),
        Form::Con(name, value) => {
            let (name, value) = erase_named(alloc, name, value)?;
            Ok(Form::Con(name, value))
        }
        Form::Case(subject, at, place, first, rest) => {
            erase_case(alloc, subject, at, *place, first, rest)
        }
        Form::Esac(at, subject) => {
            let (at, subject) = erase_at(alloc, at, subject)?;
            Ok(Form::Esac(at, subject))
        }
        Form::Struct(fields) => Ok(Form::Struct(erase_fields(alloc, fields)?)),
        Form::Member(whole, at) => {
            let (at, whole) = erase_at(alloc, at, whole)?;
            Ok(Form::Member(whole, at))
        }
        Form::Take(whole, at, rest, value, body) => {
            erase_take(alloc, whole, at, *rest, *value, body)
        }
        Form::Put(whole, at, value) => erase_put(alloc, whole, at, value),
        Form::Cast(operand) => Ok(Form::Cast(erase_boxed(alloc, operand)?)),
        Form::Annot(part, ty) => {
            let (ty, part) = erase_typed(alloc, ty, part)?;
            Ok(Form::Annot(part, ty))
        }
    }
}

#[cycle(erase)]
fn erase_let_bang(
    alloc: Global,
    seen: &Items<Seen>,
    place: Place,
    value: &Term<Typed>,
    body: &Term<Typed>,
) -> Result<Form<Place>, Memory>
    ensures { IfOk result (λ f. the_form f ≡ let_bang seen.now place (erased (the_core value.now)) (erased (the_core body.now))) }
{
    let (value, body) = erase_two(alloc, value, body)?;
    let seen = copy_seen(alloc, seen)?;
    Ok(Form::LetBang(seen, place, value, body))
}

#[cycle(erase)]
fn erase_if(
    alloc: Global,
    test: &Term<Typed>,
    yes: &Term<Typed>,
    no: &Term<Typed>,
) -> Result<Form<Place>, Memory>
    ensures { IfOk result (λ f. the_form f ≡ if_else (erased (the_core test.now)) (erased (the_core yes.now)) (erased (the_core no.now))) }
{
    let test = erase_boxed(alloc, test)?;
    let (yes, no) = erase_two(alloc, yes, no)?;
    Ok(Form::If(test, yes, no))
}

#[cycle(erase)]
fn erase_case(
    alloc: Global,
    subject: &Term<Typed>,
    at: &At,
    place: Place,
    first: &Term<Typed>,
    rest: &Term<Typed>,
) -> Result<Form<Place>, Memory>
    ensures { IfOk result (λ f. the_form f ≡ case_of (erased (the_core subject.now)) at.now place (erased (the_core first.now)) (erased (the_core rest.now))) }
{
    let (first, rest) = erase_two(alloc, first, rest)?;
    let (at, subject) = erase_at(alloc, at, subject)?;
    Ok(Form::Case(subject, at, place, first, rest))
}

#[cycle(erase)]
fn erase_take(
    alloc: Global,
    whole: &Term<Typed>,
    at: &At,
    rest: Place,
    value: Place,
    body: &Term<Typed>,
) -> Result<Form<Place>, Memory>
    ensures { IfOk result (λ f. the_form f ≡ take_field (erased (the_core whole.now)) at.now rest value (erased (the_core body.now))) }
{
    let (whole, body) = erase_two(alloc, whole, body)?;
    let at = at.copy(alloc)?;
    Ok(Form::Take(whole, at, rest, value, body))
}

#[cycle(erase)]
fn erase_put(
    alloc: Global,
    whole: &Term<Typed>,
    at: &At,
    value: &Term<Typed>,
) -> Result<Form<Place>, Memory>
    ensures { IfOk result (λ f. the_form f ≡ put (erased (the_core whole.now)) at.now (erased (the_core value.now))) }
{
    let (whole, value) = erase_two(alloc, whole, value)?;
    let at = at.copy(alloc)?;
    Ok(Form::Put(whole, at, value))
}

// Two terms.
#[cycle(erase)]
fn erase_two(
    alloc: Global,
    first: &Term<Typed>,
    second: &Term<Typed>,
) -> Result<(Box<Term<Place>>, Box<Term<Place>>), Memory>
    ensures { IfOk result (λ two. (the_term two.0.value ≡ erased (the_core first.now)) × (the_term two.1.value ≡ erased (the_core second.now))) }
{
    let first = erase_boxed(alloc, first)?;
    let second = erase_boxed(alloc, second)?;
    Ok((first, second))
}

// A name with a term.
#[cycle(erase)]
fn erase_named(
    alloc: Global,
    name: &Name,
    term: &Term<Typed>,
) -> Result<(Name, Box<Term<Place>>), Memory>
    ensures { IfOk result (λ two. (two.0 ≡ name.now) × (the_term two.1.value ≡ erased (the_core term.now))) }
{
    let name = name.copy(alloc)?;
    let term = erase_boxed(alloc, term)?;
    Ok((name, term))
}

// A name at its place, with a term.
#[cycle(erase)]
fn erase_at(alloc: Global, at: &At, term: &Term<Typed>) -> Result<(At, Box<Term<Place>>), Memory>
    ensures { IfOk result (λ two. (two.0 ≡ at.now) × (the_term two.1.value ≡ erased (the_core term.now))) }
{
    let at = at.copy(alloc)?;
    let term = erase_boxed(alloc, term)?;
    Ok((at, term))
}

// A written type, with a term.
#[cycle(erase)]
fn erase_typed(
    alloc: Global,
    ty: &TyArg,
    term: &Term<Typed>,
) -> Result<(TyArg, Box<Term<Place>>), Memory>
    ensures { IfOk result (λ two. (arg_of two.0 ≡ arg_of ty.now) × (the_term two.1.value ≡ erased (the_core term.now))) }
{
    let ty = ty.copy(alloc)?;
    let term = erase_boxed(alloc, term)?;
    Ok((ty, term))
}

#[cycle(erase)]
fn erase_terms(alloc: Global, terms: &Items<Term<Typed>>) -> Result<Items<Term<Place>>, Memory>
    ensures { IfOk result (λ ts. map the_term ts ≡ map erased (map the_core terms.now)) }
{
    let mut made = Items::new(alloc);
    for term in terms.as_slice() {
        made.push(erase(alloc, term)?)?;
    }
    Ok(made)
}

#[cycle(erase)]
fn erase_fields(
    alloc: Global,
    fields: &Items<FieldTerm<Typed>>,
) -> Result<Items<FieldTerm<Place>>, Memory>
    ensures { IfOk result
        (λ fs. map the_field fs ≡ map erased_field (map the_core_field fields.now)) }
{
    let mut made = Items::new(alloc);
    for field in fields.as_slice() {
        made.push(FieldTerm {
            name: field.name.copy(alloc)?,
            term: erase(alloc, &field.term)?,
        })?;
    }
    Ok(made)
}

fn copy_args(alloc: Global, args: &Items<TyArg>) -> Result<Items<TyArg>, Memory>
    ensures { IfOk result (λ copies. map arg_of copies ≡ map arg_of args.now) }
{
    let mut copies = Items::new(alloc);
    for arg in args.as_slice() {
        copies.push(arg.copy(alloc)?)?;
    }
    Ok(copies)
}

fn copy_seen(alloc: Global, seen: &Items<Seen>) -> Result<Items<Seen>, Memory>
    ensures { IfOk result (λ copies. copies ≡ seen.now) }
{
    let mut copies = Items::new(alloc);
    for one in seen.as_slice() {
        copies.push(*one)?;
    }
    Ok(copies)
}
