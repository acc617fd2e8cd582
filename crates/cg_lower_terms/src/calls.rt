// What is called, and with what.
#![tactic(auto, using(crate::proofs::TermSteps::term_steps))]

ghost use Rattle.std.specs.Prelude.{◌≡◌, [], ◌∷◌, IfOk, map};
ghost use Rattle.cg_core.specs.Kernels.{the_core};
ghost use Rattle.cg_core.specs.Terms.{arg_of};
ghost use Rattle.cg_lower_def.specs.Lowered as lowered;
ghost use Rattle.cg_cgen_def.specs.Places as places;
ghost use Rattle.cg_lower_nodes.specs.Kept.{whole_of};
ghost use Rattle.cg_lower_nodes.specs.Views.{place_of};
ghost use Rattle.cg_lower_terms.specs.Forms.{operands_in};

use cg_base::{Fun, Items, Memory, Name};
use cg_cgen_lines::numbered;
use cg_core::{Form, Term, TyArg, Typed};
use cg_lower_nodes::{Lowering, Place};
use std::alloc::Global;

/// The value of a function that is named: the place of its instance.
pub(crate) fn named(
    alloc: Global,
    state: &mut Lowering,
    fun: Fun,
    args: &Items<TyArg>,
) -> Result<Place, Memory>
    ensures value { IfOk result (λ p. place_of p ≡ places.number (lowered.place (whole_of state.old) fun (map arg_of args.now))) }
    ensures kept { state.new ≡ state.old }
{
    let at = state.places.place(alloc, fun, args)?;
    Ok(Place::Number(at as u64))
}

/// The name of the function that a term calls.
pub(crate) fn callee(
    alloc: Global,
    state: &mut Lowering,
    function: &Term<Typed>,
) -> Result<Name, Memory>
    ensures name { IfOk result (λ x. x ≡ lowered.callee (whole_of state.old) (the_core function.now)) }
    ensures kept { state.new ≡ state.old }
{
    match &function.form {
        Form::Fun(fun, args) => {
            let at = state.places.place(alloc, *fun, args)?;
            numbered(alloc, b'f', at)
        }
        _ => {
            let at = state.places.arrow(alloc, &function.note.ty)?;
            numbered(alloc, b'd', at)
        }
    }
}

// One place.
fn one(alloc: Global, place: Place) -> Result<Items<Place>, Memory>
    ensures { IfOk result (λ ps. ps ≡ place ∷ []) }
{
    let mut places = Items::new(alloc);
    places.push(place)?;
    Ok(places)
}

// Two places.
fn two(alloc: Global, first: Place, second: Place) -> Result<Items<Place>, Memory>
    ensures { IfOk result (λ ps. ps ≡ first ∷ second ∷ []) }
{
    let mut places = one(alloc, first)?;
    places.push(second)?;
    Ok(places)
}

/// What it is called with.
pub(crate) fn operands(
    alloc: Global,
    function: &Term<Typed>,
    value: Place,
    argument: Place,
) -> Result<Items<Place>, Memory>
    ensures { IfOk result (λ ps. map place_of ps ≡ operands_in (the_core function.now) (place_of value) (place_of argument)) }
{
    match &function.form {
        Form::Fun(_, _) => one(alloc, argument),
        _ => two(alloc, value, argument),
    }
}
