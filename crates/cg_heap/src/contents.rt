// What cells hold, copied out of a store, and what scalars hold.
#![tactic(auto, using(crate::proofs::CellItems::content_steps, crate::proofs::SlotCells::slot_steps))]

ghost use Rattle.std.specs.Prelude.{◌≡◌, map, IfOk};
ghost use Rattle.cg_heap.specs.Readings.{held_answers, held_scalars};
ghost use Rattle.cg_heap.specs.Reps as reps;
ghost use Rattle.cg_heap.specs.Stored.{cell_at};

use crate::{Form, Scalar, Store};
use cg_base::{Items, Memory};
use std::alloc::Global;

// The slots or the elements of the cell at an address; none where it has none.
pub(crate) fn scalars_in<S: Store>(
    alloc: Global,
    store: &S,
    at: u64,
) -> Result<Items<Scalar>, Memory>
    ensures { IfOk result (λ scalars. scalars ≡ held_scalars (cell_at (S.stored store.now) at)) }
{
    let mut scalars = Items::new(alloc);
    for slot in 0..store.len(at).unwrap_or(0) {
        if let Some(scalar) = store.get(at, slot) {
            scalars.push(scalar)?;
        }
    }
    Ok(scalars)
}

// The slots of the cell at an address; none where it has none.
pub(crate) fn slots_at<S: Store>(alloc: Global, store: &S, at: u64) -> Result<Items<Scalar>, Memory>
    ensures { IfOk result (λ scalars. scalars ≡ reps.slots_in (cell_at (S.stored store.now) at)) }
{
    match store.form(at) {
        Some(Form::Slots) => scalars_in(alloc, store, at),
        _ => Ok(Items::new(alloc)),
    }
}

// The answers in the cell at an address; none where it has none.
pub(crate) fn answers_in<S: Store>(alloc: Global, store: &S, at: u64) -> Result<Items<bool>, Memory>
    ensures { IfOk result (λ answers. answers ≡ held_answers (cell_at (S.stored store.now) at)) }
{
    let mut answers = Items::new(alloc);
    for index in 0..store.len(at).unwrap_or(0) {
        if let Some(answer) = store.answer(at, index) {
            answers.push(answer)?;
        }
    }
    Ok(answers)
}

// The numbers that scalars are.
pub(crate) fn numbers(alloc: Global, scalars: &[Scalar]) -> Result<Items<u64>, Memory>
    ensures { IfOk result (λ numbers. numbers ≡ map reps.number_of scalars.now) }
{
    let mut numbers = Items::new(alloc);
    for scalar in scalars {
        numbers.push(scalar.number())?;
    }
    Ok(numbers)
}

// The first scalar, as a number.
pub(crate) fn first_number(scalars: &[Scalar]) -> u64
    ensures { result ≡ reps.first_number scalars.now }
{
    match scalars {
        [first, ..] => first.number(),
        [] => 0,
    }
}

// The first scalar, as an address.
pub(crate) fn first_address(scalars: &[Scalar]) -> u64
    ensures { result ≡ reps.first_address scalars.now }
{
    match scalars {
        [first, ..] => first.address(),
        [] => 0,
    }
}

// The scalars behind the first.
pub(crate) fn behind_first(scalars: &[Scalar]) -> &[Scalar]
    ensures { result.now ≡ reps.tail scalars.now }
{
    match scalars {
        [_, rest @ ..] => rest,
        [] => scalars,
    }
}
