// What an iterator does in its turns.
#![tactic(auto, unfolding(cg_value::specs::Forms::elements_in, cg_value::specs::Forms::has_name, cg_value::specs::Forms::number_in, cg_value::specs::Values::to_vals), using(crate::proofs::TurnSteps::turn_steps))]

ghost use Rattle.std.specs.Prelude.{◌≡◌, ◌+◌, [], ◌∷◌, IfOk, codes, length};
ghost use Rattle.cg_base.specs.declared.fun.Lib.TheVariants.{Seq32Break};
ghost use Rattle.cg_eval_operations.specs.Iterators as iterators;
ghost use Rattle.cg_eval_operations.specs.Iterators.{indices_from, upcoming};
ghost use Rattle.cg_value.specs.Forms.{elements_in, field, has_name, number_in, pair as pair_of};
ghost use Rattle.cg_value.specs.Values.{chosen, nothing, parts, to_vals, value_of};

use cg_base::{Items, Lib, Memory, Name};
use cg_value::Value;
use std::alloc::Global;

/// The turns of an iterator: the end of the indices and the step between them, the function that is called, and what it observes.
pub struct Turns {
    pub lib: Lib,
    pub to: u64,
    pub step: u64,
    pub function: Value,
    pub observed: Value,
}

impl Drop for Turns {
    fn drop(self) {
        let Turns {
            lib: _,
            to: _,
            step: _,
            function,
            observed,
        } = self;
        drop(function);
        drop(observed);
    }
}

/// Whether a function of the library is an iterator.
pub fn is_iterator(lib: Lib) -> bool
    ensures { result ≡ iterators.is_iterator lib }
{
    match lib {
        Lib::Map | Lib::Fold | Lib::Seq32 | Lib::Seq64 | Lib::Seq32Break => true,
        Lib::New | Lib::Free | Lib::Create | Lib::FreeArray => false,
        Lib::Length | Lib::Get | Lib::Put => false,
    }
}

// The number in a field; 0, where there is none.
fn number_at(value: &Value, at: usize) -> u64
    ensures { result ≡ number_in (field (value_of value.now) at) }
{
    match value.field(at) {
        Some(field) => field.number(),
        None => 0,
    }
}

// How many elements the array in the first field has; 0, where there is none.
fn count_at(value: &Value) -> u64
    ensures { result ≡ length (elements_in (field (value_of value.now) 0)) }
{
    match value.field(0) {
        Some(array) => array.elements().len() as u64,
        None => 0,
    }
}

// Whether the alternative in the second field is `Break`.
fn breaks(value: &Value) -> bool
    ensures { result ≡ iterators.stops Seq32Break (value_of value.now) }
{
    match value.field(1) {
        Some(answer) => answer.is_named(b"Break"),
        None => false,
    }
}

/// The first index of an iterator's turns.
pub fn first_index(lib: Lib, arg: &Value) -> u64
    ensures { result ≡ iterators.first_index lib (value_of arg.now) }
{
    match lib {
        Lib::Map | Lib::Fold => number_at(arg, 1),
        _ => number_at(arg, 0),
    }
}

// The end of the indices of an iterator's turns.
fn end_index(lib: Lib, arg: &Value) -> u64
    ensures { result ≡ iterators.end_index lib (value_of arg.now) }
{
    match lib {
        Lib::Map | Lib::Fold => std::cmp::min(number_at(arg, 2), count_at(arg)),
        _ => number_at(arg, 1),
    }
}

// The step between the indices of an iterator's turns.
fn step_of(lib: Lib, arg: &Value) -> u64
    ensures { result ≡ iterators.step_of lib (value_of arg.now) }
{
    match lib {
        Lib::Map | Lib::Fold => 1,
        _ => number_at(arg, 2),
    }
}

/// The first index, if there is a turn.
pub fn first_turn(from: u64, to: u64, step: u64) -> Option<u64>
    ensures { indices_from from to step ≡ upcoming to step result }
{
    if step == 0 || to <= from {
        return None;
    }
    Some(from)
}

/// The index after this one, if there is another turn.
pub fn next_turn(at: u64, to: u64, step: u64) -> Option<u64>
    ensures { indices_from (at + step) to step ≡ upcoming to step result }
{
    if step == 0 || to <= at || to - at <= step {
        return None;
    }
    Some(at + step)
}

/// The turns of an iterator, by its argument, the array that they go over, and what is handed on to the first of them.
pub fn started(lib: Lib, arg: Value) -> (Turns, Value, Value)
    ensures lib { result.0.lib ≡ lib }
    ensures to { result.0.to ≡ iterators.end_index lib (value_of arg) }
    ensures step { result.0.step ≡ iterators.step_of lib (value_of arg) }
    ensures function { value_of result.0.function ≡ field (value_of arg) 3 }
    ensures observed { value_of result.0.observed ≡ field (value_of arg) 5 }
    ensures array { value_of result.1 ≡ field (value_of arg) 0 }
    ensures handed_on { value_of result.2 ≡ field (value_of arg) 4 }
{
    let to = end_index(lib, &arg);
    let step = step_of(lib, &arg);
    let (array, arg) = arg.split_field(0);
    let (handed_on, arg) = arg.split_field(4);
    let (function, arg) = arg.split_field(3);
    let turns = Turns {
        lib,
        to,
        step,
        function,
        observed: arg.into_field(5),
    };
    (turns, array, handed_on)
}

// A record of two.
fn pair(alloc: Global, first: Value, second: Value) -> Result<Value, Memory>
    ensures { IfOk result (λ v. value_of v ≡ pair_of (value_of first) (value_of second)) }
{
    let mut fields = Items::new(alloc);
    fields.push(first)?;
    fields.push(second)?;
    Ok(Value::Fields(fields))
}

// A record of three.
fn three(alloc: Global, first: Value, second: Value, third: Value) -> Result<Value, Memory>
    ensures { IfOk result (λ v. value_of v ≡ parts (to_vals (value_of first ∷ value_of second ∷ value_of third ∷ []))) }
{
    let mut fields = Items::new(alloc);
    fields.push(first)?;
    fields.push(second)?;
    fields.push(third)?;
    Ok(Value::Fields(fields))
}

/// The argument of the turn at an index, over this array, where this is handed on.
pub fn asked(
    alloc: Global,
    turns: &Turns,
    at: u64,
    array: &Value,
    handed_on: Value,
) -> Result<Value, Memory>
    ensures { IfOk result (λ v. value_of v ≡ iterators.asked turns.now.lib (value_of turns.now.observed) at (value_of array.now) (value_of handed_on)) }
{
    let observed = turns.observed.copy(alloc)?;
    match turns.lib {
        Lib::Map | Lib::Fold => { three(alloc, Value::Num(array.element(at)), handed_on, observed) }
        _ => three(alloc, handed_on, observed, Value::Num(at)),
    }
}

/// Whether a turn that gave this is the last.
pub fn stops(lib: Lib, value: &Value) -> bool
    ensures { result ≡ iterators.stops lib (value_of value.now) }
{
    match lib {
        Lib::Seq32Break => breaks(value),
        _ => false,
    }
}

/// The array for the next turn, by what the turn at an index gave.
pub fn changed(lib: Lib, at: u64, array: Value, value: &Value) -> Value
    ensures { value_of result ≡ iterators.changed lib at (value_of array) (value_of value.now) }
{
    match lib {
        Lib::Map => array.with_element(at, number_at(value, 0)),
        _ => array,
    }
}

/// What is handed on to the next turn.
pub fn carried(lib: Lib, value: Value) -> Value
    ensures { value_of result ≡ iterators.carried lib (value_of value) }
{
    match lib {
        Lib::Map => value.into_field(1),
        Lib::Seq32Break => value.into_field(0),
        _ => value,
    }
}

// The alternative `Iterate`, without a payload.
fn iterate(alloc: Global) -> Result<Value, Memory>
    ensures { IfOk result (λ v. value_of v ≡ chosen (codes "Iterate") nothing) }
{
    let payload = Box::new(alloc, Value::Unit)?;
    Ok(Value::Variant(Name::new(alloc, b"Iterate")?, payload))
}

/// What is given where no turn was the last.
pub fn ended(alloc: Global, lib: Lib, array: Value, handed_on: Value) -> Result<Value, Memory>
    ensures { IfOk result (λ v. value_of v ≡ iterators.ended lib (value_of array) (value_of handed_on)) }
{
    match lib {
        Lib::Map => pair(alloc, array, handed_on),
        Lib::Seq32Break => pair(alloc, handed_on, iterate(alloc)?),
        _ => Ok(handed_on),
    }
}
