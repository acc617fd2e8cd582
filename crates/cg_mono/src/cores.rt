// Cores with types in the place of their type variables.
#![tactic(auto, using(crate::proofs::Specialised::specialised))]

ghost use Rattle.std.specs.Prelude.{◌≡◌, ◌||◌, map, IfOk, IsTrue};
ghost use Rattle.cg_base.specs.Types.{type_of};
ghost use Rattle.cg_core.specs.Groups.{is_data, is_leaf};
ghost use Rattle.cg_core.specs.Kernels.{the_core, the_core_field, the_core_form};
ghost use Rattle.cg_core.specs.Terms.{annot, arg_of, case_of, con, esac, fun as fun_of, let_bang as binding, member as member_of, note_of, put as put_in, take_field, term as node};
ghost use Rattle.cg_mono.specs.Fields.{subst_field};
ghost use Rattle.cg_typing.specs.Subst.{subst_arg, subst_core, subst_note};

use cg_base::{Fun, Items, Memory, Name, Place, Ty};
use cg_core::{At, FieldTerm, Form, Seen, Term, TyArg, Typed};
use cg_kinds::subst;
use std::alloc::Global;

/// A core with these types for its type variables: in each node's type, in type arguments and in annotations (docs/LANGUAGE.md,
/// "Instances"). Want of memory is its one refusal.
#[cycle(specialise)]
pub fn specialise(
    alloc: Global,
    core: &Term<Typed>,
    types: &Items<Ty>,
) -> Result<Term<Typed>, Memory>
    ensures { IfOk result (λ t. the_core t ≡ subst_core (map type_of types.now) (the_core core.now)) }
{
    let note = &core.note;
    match &core.form {
        Form::Op(op, operands) => {
            let operands = in_terms(alloc, operands, types)?;
            built(alloc, note, Form::Op(*op, operands), types)
        }
        Form::App(fun, arg) => {
            let (fun, arg) = in_two(alloc, fun, arg, types)?;
            built(alloc, note, Form::App(fun, arg), types)
        }
        Form::Let(place, value, body) => {
            let (value, body) = in_two(alloc, value, body, types)?;
            built(alloc, note, Form::Let(*place, value, body), types)
        }
        Form::LetBang(seen, place, value, body) => {
            let (value, body) = in_two(alloc, value, body, types)?;
            let_bang(alloc, note, seen, *place, value, body, types)
        }
        Form::If(test, yes, no) => {
            let (test, yes, no) = in_three(alloc, test, yes, no, types)?;
            built(alloc, note, Form::If(test, yes, no), types)
        }
        Form::Cast(operand) => {
            let operand = in_boxed(alloc, operand, types)?;
            built(alloc, note, Form::Cast(operand), types)
        }
        Form::Annot(part, ty) => {
            let part = in_boxed(alloc, part, types)?;
            annotated(alloc, note, part, ty, types)
        }
        _ => in_data(alloc, core, types),
    }
}

// A core of variants or of records, or one without parts.
#[cycle(specialise)]
#[inline(never)]
fn in_data(alloc: Global, core: &Term<Typed>, types: &Items<Ty>) -> Result<Term<Typed>, Memory>
    requires { IsTrue (is_data (the_core_form core.now.form) || is_leaf (the_core_form core.now.form)) }
    ensures { IfOk result (λ t. the_core t ≡ subst_core (map type_of types.now) (the_core core.now)) }
{
    let note = &core.note;
    match &core.form {
        Form::Con(name, value) => {
            let value = in_boxed(alloc, value, types)?;
            alternative(alloc, note, name, value, types)
        }
        Form::Case(subject, at, place, first, rest) => {
            let (subject, first, rest) = in_three(alloc, subject, first, rest, types)?;
            case(alloc, note, (subject, first, rest), at, *place, types)
        }
        Form::Esac(at, subject) => {
            let subject = in_boxed(alloc, subject, types)?;
            payload(alloc, note, at, subject, types)
        }
        Form::Struct(fields) => {
            let fields = in_fields(alloc, fields, types)?;
            built(alloc, note, Form::Struct(fields), types)
        }
        Form::Member(whole, at) => {
            let whole = in_boxed(alloc, whole, types)?;
            member(alloc, note, whole, at, types)
        }
        Form::Take(whole, at, rest, value, body) => {
            let (whole, body) = in_two(alloc, whole, body, types)?;
            take(alloc, note, (whole, body), at, (*rest, *value), types)
        }
        Form::Put(whole, at, value) => {
            let (whole, value) = in_two(alloc, whole, value, types)?;
            put(alloc, note, whole, at, value, types)
        }
        _ => in_leaf(alloc, core, types),
    }
}

#[cycle(specialise)]
#[inline(never)]
fn in_boxed(
    alloc: Global,
    core: &Term<Typed>,
    types: &Items<Ty>,
) -> Result<Box<Term<Typed>>, Memory>
    ensures { IfOk result (λ t. the_core t.value ≡ subst_core (map type_of types.now) (the_core core.now)) }
{
    match specialise(alloc, core, types) {
        Ok(term) => Ok(Box::new(alloc, term)?),
        Err(wanting) => Err(wanting),
    }
}

// Two terms.
#[cycle(specialise)]
#[inline(never)]
fn in_two(
    alloc: Global,
    first: &Term<Typed>,
    second: &Term<Typed>,
    types: &Items<Ty>,
) -> Result<(Box<Term<Typed>>, Box<Term<Typed>>), Memory>
    ensures { IfOk result (λ two. (the_core two.0.value ≡ subst_core (map type_of types.now) (the_core first.now)) × (the_core two.1.value ≡ subst_core (map type_of types.now) (the_core second.now))) }
{
    let first = in_boxed(alloc, first, types)?;
    let second = in_boxed(alloc, second, types)?;
    Ok((first, second))
}

// Three terms.
#[cycle(specialise)]
#[inline(never)]
fn in_three(
    alloc: Global,
    first: &Term<Typed>,
    second: &Term<Typed>,
    third: &Term<Typed>,
    types: &Items<Ty>,
) -> Result<(Box<Term<Typed>>, Box<Term<Typed>>, Box<Term<Typed>>), Memory>
    ensures { IfOk result (λ three. (the_core three.0.value ≡ subst_core (map type_of types.now) (the_core first.now)) × (the_core three.1.value ≡ subst_core (map type_of types.now) (the_core second.now)) × (the_core three.2.value ≡ subst_core (map type_of types.now) (the_core third.now))) }
{
    let first = in_boxed(alloc, first, types)?;
    let (second, third) = in_two(alloc, second, third, types)?;
    Ok((first, second, third))
}

#[cycle(specialise)]
#[inline(never)]
fn in_terms(
    alloc: Global,
    terms: &Items<Term<Typed>>,
    types: &Items<Ty>,
) -> Result<Items<Term<Typed>>, Memory>
    ensures { IfOk result (λ ts. map the_core ts ≡ map (subst_core (map type_of types.now)) (map the_core terms.now)) }
{
    let mut made = Items::new(alloc);
    for term in terms.as_slice() {
        match specialise(alloc, term, types) {
            Ok(term) => made.push(term)?,
            Err(wanting) => {
                drop(made);
                return Err(wanting);
            }
        }
    }
    Ok(made)
}

#[cycle(specialise)]
#[inline(never)]
fn in_fields(
    alloc: Global,
    fields: &Items<FieldTerm<Typed>>,
    types: &Items<Ty>,
) -> Result<Items<FieldTerm<Typed>>, Memory>
    ensures { IfOk result (λ fs. map the_core_field fs ≡ map (subst_field (map type_of types.now)) (map the_core_field fields.now)) }
{
    let mut made = Items::new(alloc);
    for field in fields.as_slice() {
        match specialise(alloc, &field.term, types) {
            Ok(term) => made.push(named(alloc, &field.name, term)?)?,
            Err(wanting) => {
                drop(made);
                return Err(wanting);
            }
        }
    }
    Ok(made)
}

// ---- what a node comes to once its parts are made

// A node's note.
#[inline(never)]
fn in_note(alloc: Global, note: &Typed, types: &Items<Ty>) -> Result<Typed, Memory>
    ensures { IfOk result (λ n. note_of n ≡ subst_note (map type_of types.now) (note_of note.now)) }
{
    Ok(Typed {
        place: note.place,
        ty: subst(alloc, &note.ty, types)?,
    })
}

// A written type.
#[inline(never)]
fn in_written(alloc: Global, arg: &TyArg, types: &Items<Ty>) -> Result<TyArg, Memory>
    ensures { IfOk result (λ a. arg_of a ≡ subst_arg (map type_of types.now) (arg_of arg.now)) }
{
    Ok(TyArg {
        place: arg.place,
        ty: subst(alloc, &arg.ty, types)?,
    })
}

// A node with this form.
#[inline(never)]
fn built(
    alloc: Global,
    note: &Typed,
    form: Form<Typed>,
    types: &Items<Ty>,
) -> Result<Term<Typed>, Memory>
    ensures { IfOk result (λ t. the_core t ≡ node (subst_note (map type_of types.now) (note_of note.now)) (the_core_form form)) }
{
    match in_note(alloc, note, types) {
        Ok(note) => Ok(Term { note, form }),
        Err(wanting) => {
            drop(form);
            Err(wanting)
        }
    }
}

// A core without parts.
#[inline(never)]
fn in_leaf(alloc: Global, core: &Term<Typed>, types: &Items<Ty>) -> Result<Term<Typed>, Memory>
    requires { IsTrue (is_leaf (the_core_form core.now.form)) }
    ensures { IfOk result (λ t. the_core t ≡ subst_core (map type_of types.now) (the_core core.now)) }
{
    let note = &core.note;
    match &core.form {
        Form::Var(var) => built(alloc, note, Form::Var(*var), types),
        Form::Unit => built(alloc, note, Form::Unit, types),
        Form::Bool(value) => built(alloc, note, Form::Bool(*value), types),
        Form::Lit(value) => built(alloc, note, Form::Lit(*value), types),
        Form::Fun(fun, args) => mention(alloc, note, *fun, args, types),
        _ => unreachable!(),
    }
}

#[inline(never)]
fn mention(
    alloc: Global,
    note: &Typed,
    fun: Fun,
    args: &Items<TyArg>,
    types: &Items<Ty>,
) -> Result<Term<Typed>, Memory>
    ensures { IfOk result (λ t. the_core t ≡ node (subst_note (map type_of types.now) (note_of note.now)) (fun_of fun (map (subst_arg (map type_of types.now)) (map arg_of args.now)))) }
{
    let args = in_args(alloc, args, types)?;
    built(alloc, note, Form::Fun(fun, args), types)
}

#[inline(never)]
fn let_bang(
    alloc: Global,
    note: &Typed,
    seen: &Items<Seen>,
    place: Place,
    value: Box<Term<Typed>>,
    body: Box<Term<Typed>>,
    types: &Items<Ty>,
) -> Result<Term<Typed>, Memory>
    ensures { IfOk result (λ t. the_core t ≡ node (subst_note (map type_of types.now) (note_of note.now)) (binding seen.now place (the_core value.value) (the_core body.value))) }
{
    let seen = copy_seen(alloc, seen)?;
    built(alloc, note, Form::LetBang(seen, place, value, body), types)
}

#[inline(never)]
fn annotated(
    alloc: Global,
    note: &Typed,
    part: Box<Term<Typed>>,
    ty: &TyArg,
    types: &Items<Ty>,
) -> Result<Term<Typed>, Memory>
    ensures { IfOk result (λ t. the_core t ≡ node (subst_note (map type_of types.now) (note_of note.now)) (annot (the_core part.value) (subst_arg (map type_of types.now) (arg_of ty.now)))) }
{
    let ty = in_written(alloc, ty, types)?;
    built(alloc, note, Form::Annot(part, ty), types)
}

#[inline(never)]
fn alternative(
    alloc: Global,
    note: &Typed,
    name: &Name,
    value: Box<Term<Typed>>,
    types: &Items<Ty>,
) -> Result<Term<Typed>, Memory>
    ensures { IfOk result (λ t. the_core t ≡ node (subst_note (map type_of types.now) (note_of note.now)) (con name.now (the_core value.value))) }
{
    let name = name.copy(alloc)?;
    built(alloc, note, Form::Con(name, value), types)
}

#[inline(never)]
fn case(
    alloc: Global,
    note: &Typed,
    parts: (Box<Term<Typed>>, Box<Term<Typed>>, Box<Term<Typed>>),
    at: &At,
    place: Place,
    types: &Items<Ty>,
) -> Result<Term<Typed>, Memory>
    ensures { IfOk result (λ t. the_core t ≡ node (subst_note (map type_of types.now) (note_of note.now)) (case_of (the_core parts.0.value) at.now place (the_core parts.1.value) (the_core parts.2.value))) }
{
    let (subject, first, rest) = parts;
    let at = at.copy(alloc)?;
    let form = Form::Case(subject, at, place, first, rest);
    built(alloc, note, form, types)
}

#[inline(never)]
fn payload(
    alloc: Global,
    note: &Typed,
    at: &At,
    subject: Box<Term<Typed>>,
    types: &Items<Ty>,
) -> Result<Term<Typed>, Memory>
    ensures { IfOk result (λ t. the_core t ≡ node (subst_note (map type_of types.now) (note_of note.now)) (esac at.now (the_core subject.value))) }
{
    let at = at.copy(alloc)?;
    built(alloc, note, Form::Esac(at, subject), types)
}

#[inline(never)]
fn member(
    alloc: Global,
    note: &Typed,
    whole: Box<Term<Typed>>,
    at: &At,
    types: &Items<Ty>,
) -> Result<Term<Typed>, Memory>
    ensures { IfOk result (λ t. the_core t ≡ node (subst_note (map type_of types.now) (note_of note.now)) (member_of (the_core whole.value) at.now)) }
{
    let at = at.copy(alloc)?;
    built(alloc, note, Form::Member(whole, at), types)
}

#[inline(never)]
fn take(
    alloc: Global,
    note: &Typed,
    parts: (Box<Term<Typed>>, Box<Term<Typed>>),
    at: &At,
    places: (Place, Place),
    types: &Items<Ty>,
) -> Result<Term<Typed>, Memory>
    ensures { IfOk result (λ t. the_core t ≡ node (subst_note (map type_of types.now) (note_of note.now)) (take_field (the_core parts.0.value) at.now places.0 places.1 (the_core parts.1.value))) }
{
    let (whole, body) = parts;
    let at = at.copy(alloc)?;
    let form = Form::Take(whole, at, places.0, places.1, body);
    built(alloc, note, form, types)
}

#[inline(never)]
fn put(
    alloc: Global,
    note: &Typed,
    whole: Box<Term<Typed>>,
    at: &At,
    value: Box<Term<Typed>>,
    types: &Items<Ty>,
) -> Result<Term<Typed>, Memory>
    ensures { IfOk result (λ t. the_core t ≡ node (subst_note (map type_of types.now) (note_of note.now)) (put_in (the_core whole.value) at.now (the_core value.value))) }
{
    let at = at.copy(alloc)?;
    built(alloc, note, Form::Put(whole, at, value), types)
}

// A field with a term.
#[inline(never)]
fn named(alloc: Global, name: &Name, term: Term<Typed>) -> Result<FieldTerm<Typed>, Memory>
    ensures { IfOk result (λ f. (f.name ≡ name.now) × (f.term ≡ term)) }
{
    Ok(FieldTerm {
        name: name.copy(alloc)?,
        term,
    })
}

#[inline(never)]
fn in_args(alloc: Global, args: &Items<TyArg>, types: &Items<Ty>) -> Result<Items<TyArg>, Memory>
    ensures { IfOk result (λ made. map arg_of made ≡ map (subst_arg (map type_of types.now)) (map arg_of args.now)) }
{
    let mut made = Items::new(alloc);
    for arg in args.as_slice() {
        match in_written(alloc, arg, types) {
            Ok(written) => {
                if let Err(wanting) = made.push(written) {
                    drop(made);
                    return Err(wanting);
                }
            }
            Err(wanting) => {
                drop(made);
                return Err(wanting);
            }
        }
    }
    Ok(made)
}

#[inline(never)]
fn copy_seen(alloc: Global, seen: &Items<Seen>) -> Result<Items<Seen>, Memory>
    ensures { IfOk result (λ copies. copies ≡ seen.now) }
{
    let mut copies = Items::new(alloc);
    for one in seen.as_slice() {
        if let Err(wanting) = copies.push(*one) {
            drop(copies);
            return Err(wanting);
        }
    }
    Ok(copies)
}
