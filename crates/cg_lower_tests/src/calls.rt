// The C of a call through a function value.
#![tactic(auto)]

use crate::nodes::start;
use cg_base::{Items, Memory, Place as Spot, Ty, Word};
use cg_cgen_lines::Base;
use cg_core::{Form, Term, Typed};
use cg_lower_nodes::{Lowering, Place};
use cg_lower_terms::lower_term;
use std::alloc::Global;
use std::test::Fail;

/// A body whose one variable is the argument.
fn with_argument(alloc: Global) -> Result<Lowering, Memory> {
    let mut state = start(alloc);
    state.bind(Place::Held(Base::Argument, Items::new(alloc)))?;
    Ok(state)
}

/// A node of a type.
fn node(ty: Ty, form: Form<Typed>) -> Term<Typed> {
    Term {
        note: Typed {
            place: Spot { line: 1, column: 1 },
            ty,
        },
        form,
    }
}

/// The type of functions from words to words.
fn arrow(alloc: Global) -> Result<Ty, Memory> {
    Ok(Ty::Arrow(
        Box::new(alloc, Ty::Word(Word::U8))?,
        Box::new(alloc, Ty::Word(Word::U8))?,
    ))
}

/// The variable, on a number.
fn call(alloc: Global) -> Result<Term<Typed>, Memory> {
    let function = Box::new(alloc, node(arrow(alloc)?, Form::Var(0)))?;
    let argument = Box::new(alloc, node(Ty::Word(Word::U8), Form::Lit(Some(3))))?;
    Ok(node(Ty::Word(Word::U8), Form::App(function, argument)))
}

#[test]
fn a_call_sets_one_local(rt: HostRuntime) -> Result<(), Fail> {
    let alloc = rt.alloc();
    let mut state = with_argument(alloc)?;
    let term = call(alloc)?;
    let place = lower_term(alloc, &mut state, &term)?;
    drop(place);
    assert_eq!(rt; state.locals.len(), 1);
    assert_eq!(rt; state.stmts.len(), 1);
    Ok(())
}
