// What the library makes: records, arrays, and what an allocator answers.
#![tactic(auto, unfolding(crate::specs::Library::next_answer, crate::specs::Library::later_answers, crate::specs::Library::new_record, cg_value::specs::Values::to_vals), using(crate::proofs::MadeSteps::made_steps))]

ghost use Rattle.std.specs.Prelude.{◌≡◌, IfOk, map, replicate};
ghost use Rattle.cg_base.specs.Types.{type_of};
ghost use Rattle.cg_lib_value.specs.Library as library;
ghost use Rattle.cg_value.specs.Values.{chosen, gone, value_of};

use cg_base::{Items, Memory, Name, Ty};
use cg_value::{Value, copied};
use std::alloc::Global;

/// The next answer of an allocator; no, where none is left.
pub(crate) fn next_answer(answers: &[bool]) -> bool
    ensures { result ≡ library.next_answer answers.now }
{
    match answers {
        [] => false,
        [answer, ..] => *answer,
    }
}

// The answers behind the next one.
fn later_answers(alloc: Global, answers: &[bool]) -> Result<Items<bool>, Memory>
    ensures { IfOk result (λ later. later ≡ library.later_answers answers.now) }
{
    match answers {
        [] => Ok(Items::new(alloc)),
        [_, later @ ..] => copied(alloc, later),
    }
}

// An alternative of this name.
fn alternative(alloc: Global, name: &[u8], payload: Value) -> Result<Value, Memory>
    ensures { IfOk result (λ v. value_of v ≡ chosen name.now (value_of payload)) }
{
    let payload = Box::new(alloc, payload)?;
    let name = Name::new(alloc, name)?;
    Ok(Value::Variant(name, payload))
}

// What was made, if it was.
fn maybe(alloc: Global, granted: bool, made: Value) -> Result<Value, Memory>
    ensures { IfOk result (λ v. value_of v ≡ library.maybe granted (value_of made)) }
{
    if granted {
        alternative(alloc, b"Some", made)
    } else {
        drop(made);
        alternative(alloc, b"None", Value::Unit)
    }
}

/// An allocator with its answer taken off, and what was made, if it was. Want of memory is its one refusal.
pub(crate) fn answered(
    alloc: Global,
    answers: &[bool],
    granted: bool,
    made: Value,
) -> Result<Value, Memory>
    ensures { IfOk result (λ v. value_of v ≡ library.answered answers.now granted (value_of made)) }
{
    let made = maybe(alloc, granted, made)?;
    let later = later_answers(alloc, answers)?;
    let mut fields = Items::new(alloc);
    fields.push(Value::Answers(later))?;
    fields.push(made)?;
    Ok(Value::Fields(fields))
}

// So many fields that are gone.
fn gone_fields(alloc: Global, count: usize) -> Result<Items<Value>, Memory>
    ensures { IfOk result (λ fields. map value_of fields ≡ replicate count gone) }
{
    let mut fields = Items::new(alloc);
    for _ in 0..count {
        fields.push(Value::Gone)?;
    }
    Ok(fields)
}

/// A new record of a type, of which all fields are gone. Want of memory is its one refusal.
pub(crate) fn new_record(alloc: Global, ty: &Ty) -> Result<Value, Memory>
    ensures { IfOk result (λ v. value_of v ≡ library.new_record (type_of ty.now)) }
{
    let Ty::Fields(parts, _) = ty else {
        return Ok(Value::Gone);
    };
    Ok(Value::Fields(gone_fields(alloc, parts.len())?))
}

/// So many zeros. Want of memory is its one refusal.
pub(crate) fn zeros(alloc: Global, count: u64) -> Result<Items<u64>, Memory>
    ensures { IfOk result (λ ns. ns ≡ replicate count 0) }
{
    let mut numbers = Items::new(alloc);
    for _ in 0..count {
        numbers.push(0)?;
    }
    Ok(numbers)
}
