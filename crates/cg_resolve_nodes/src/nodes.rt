// Nodes of terms.
#![tactic(auto, using(std::proofs::lemmas::Grind::common_steps, crate::proofs::NodeSteps::node_steps), unfolding(cg_core::specs::Terms::to_trees))]

ghost use Rattle.std.specs.Prelude.{◌≡◌, map, IfOk};
ghost use Rattle.cg_core.specs.Kernels.{the_term, the_form};
ghost use Rattle.cg_core.specs.Terms.{term, unit, fun, op as op_shape, more, none as no_terms, app, if_else, con, member as member_shape, put as put_shape, cast, annot, arg_of};

use cg_base::{Fun, Items, Memory, Name, Place};
use cg_core::{At, Form, Op, Term, TyArg};
use std::alloc::Global;

/// `()` at a place.
pub fn unit_term(place: Place) -> Term<Place>
    ensures { the_term result ≡ term place unit }
{
    Term {
        note: place,
        form: Form::Unit,
    }
}

/// A term at a place, by its form.
pub fn formed(place: Place, form: Form<Place>) -> Term<Place>
    ensures { the_term result ≡ term place (the_form form) }
{
    Term { note: place, form }
}

/// A function with the types that it is applied to.
pub fn mentioned(place: Place, function: Fun, args: Items<TyArg>) -> Term<Place>
    ensures { the_term result ≡ term place (fun function (map arg_of args)) }
{
    Term {
        note: place,
        form: Form::Fun(function, args),
    }
}

/// An operator on one term. Want of memory is its one refusal, and so of all nodes.
#[inline(never)]
pub fn unary(
    alloc: Global,
    place: Place,
    op: Op,
    operand: Term<Place>,
) -> Result<Term<Place>, Memory>
    ensures { IfOk result (λ t. the_term t ≡ term place (op_shape op (more (the_term operand) no_terms))) }
{
    let mut operands = Items::new(alloc);
    operands.push(operand)?;
    Ok(Term {
        note: place,
        form: Form::Op(op, operands),
    })
}

/// An operator on two terms.
#[inline(never)]
pub fn binary(
    alloc: Global,
    place: Place,
    op: Op,
    left: Term<Place>,
    right: Term<Place>,
) -> Result<Term<Place>, Memory>
    ensures { IfOk result (λ t. the_term t ≡ term place (op_shape op (more (the_term left) (more (the_term right) no_terms)))) }
{
    let mut operands = Items::new(alloc);
    operands.push(left)?;
    operands.push(right)?;
    Ok(Term {
        note: place,
        form: Form::Op(op, operands),
    })
}

/// A call.
#[inline(never)]
pub fn application(
    alloc: Global,
    place: Place,
    fun: Term<Place>,
    arg: Term<Place>,
) -> Result<Term<Place>, Memory>
    ensures { IfOk result (λ t. the_term t ≡ term place (app (the_term fun) (the_term arg))) }
{
    let form = Form::App(Box::new(alloc, fun)?, Box::new(alloc, arg)?);
    Ok(Term { note: place, form })
}

/// A condition.
#[inline(never)]
pub fn condition(
    alloc: Global,
    place: Place,
    test: Term<Place>,
    yes: Term<Place>,
    no: Term<Place>,
) -> Result<Term<Place>, Memory>
    ensures { IfOk result (λ t. the_term t ≡ term place (if_else (the_term test) (the_term yes) (the_term no))) }
{
    let test = Box::new(alloc, test)?;
    let yes = Box::new(alloc, yes)?;
    let form = Form::If(test, yes, Box::new(alloc, no)?);
    Ok(Term { note: place, form })
}

/// A constructor of a term.
#[inline(never)]
pub fn constructed(
    alloc: Global,
    place: Place,
    name: &Name,
    value: Term<Place>,
) -> Result<Term<Place>, Memory>
    ensures { IfOk result (λ t. the_term t ≡ term place (con name.now (the_term value))) }
{
    let name = name.copy(alloc)?;
    let form = Form::Con(name, Box::new(alloc, value)?);
    Ok(Term { note: place, form })
}

/// A member.
#[inline(never)]
pub fn member(
    alloc: Global,
    place: Place,
    whole: Term<Place>,
    at: &At,
) -> Result<Term<Place>, Memory>
    ensures { IfOk result (λ t. the_term t ≡ term place (member_shape (the_term whole) at.now)) }
{
    let at = at.copy(alloc)?;
    let form = Form::Member(Box::new(alloc, whole)?, at);
    Ok(Term { note: place, form })
}

/// A term, put into a field of another.
#[inline(never)]
pub fn put(
    alloc: Global,
    place: Place,
    whole: Term<Place>,
    at: &At,
    value: Term<Place>,
) -> Result<Term<Place>, Memory>
    ensures { IfOk result (λ t. the_term t ≡ term place (put_shape (the_term whole) at.now (the_term value))) }
{
    let at = at.copy(alloc)?;
    let whole = Box::new(alloc, whole)?;
    let form = Form::Put(whole, at, Box::new(alloc, value)?);
    Ok(Term { note: place, form })
}

/// A term, cast to a wider type.
#[inline(never)]
pub fn widened(alloc: Global, place: Place, operand: Term<Place>) -> Result<Term<Place>, Memory>
    ensures { IfOk result (λ t. the_term t ≡ term place (cast (the_term operand))) }
{
    let form = Form::Cast(Box::new(alloc, operand)?);
    Ok(Term { note: place, form })
}

/// A term with its type.
#[inline(never)]
pub fn annotated(
    alloc: Global,
    place: Place,
    part: Term<Place>,
    ty: TyArg,
) -> Result<Term<Place>, Memory>
    ensures { IfOk result (λ t. the_term t ≡ term place (annot (the_term part) (arg_of ty))) }
{
    let form = Form::Annot(Box::new(alloc, part)?, ty);
    Ok(Term { note: place, form })
}
