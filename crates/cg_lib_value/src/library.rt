// The library on values.
#![tactic(auto, unfolding(cg_value::specs::Forms::answers_in, cg_value::specs::Forms::elements_in, cg_value::specs::Forms::number_in, crate::specs::Library::new_record), using(crate::proofs::LibrarySteps::library_steps))]

ghost use Rattle.std.specs.Prelude.{◌≡◌, [], IfOk, get_or, length, map};
ghost use Rattle.cg_base.specs.Types.{type_of};
ghost use Rattle.cg_base.specs.declared.fun.Lib.TheVariants.{Create, New};
ghost use Rattle.cg_lib_value.specs.Library.{first_type, library_cost, library_value, makes_array as makes_array_of, new_record as new_record_of};
ghost use Rattle.cg_value.specs.Forms.{answers_in, elements_in, field, number_in, with_element};
ghost use Rattle.cg_value.specs.Values.{number, value_of};

use crate::made::{answered, new_record, next_answer, zeros};
use cg_base::{Items, Lib, Memory, Ty};
use cg_value::Value;
use std::alloc::Global;

/// How many elements an array may have.
const MOST_ELEMENTS: u64 = 1_048_576;

/// What a function of the library gives on a value at its type arguments, if it takes no function (docs/LANGUAGE.md, "The library"); at
/// values of a wrong form, and of functions that take one, what the definition says. Want of memory is its one refusal.
pub fn lib_value(alloc: Global, lib: Lib, args: &Items<Ty>, arg: Value) -> Result<Value, Memory>
    ensures { IfOk result (λ v. value_of v ≡ library_value lib (map type_of args.now) (value_of arg)) }
{
    match lib {
        Lib::New => made_record(alloc, args, &arg),
        Lib::Create => made_array(alloc, &arg),
        Lib::Free | Lib::FreeArray => Ok(arg.into_field(0)),
        Lib::Length => Ok(length_of(&arg)),
        Lib::Get => Ok(element_of(&arg)),
        Lib::Put => Ok(put_element(arg)),
        Lib::Map | Lib::Fold | Lib::Seq32 | Lib::Seq64 | Lib::Seq32Break => Ok(Value::Gone),
    }
}

/// What such a call costs beside the nodes that are evaluated: 1 for each element that is made.
pub fn lib_cost(lib: Lib, arg: &Value) -> u64
    ensures { result ≡ library_cost lib (value_of arg.now) }
{
    match lib {
        Lib::Create => array_cost(arg),
        _ => 0,
    }
}

// A new record of the first type argument, where the allocator's answer is yes.
fn made_record(alloc: Global, args: &Items<Ty>, arg: &Value) -> Result<Value, Memory>
    ensures { IfOk result (λ v. value_of v ≡ library_value New (map type_of args.now) (value_of arg.now)) }
{
    let made = new_record_of_first(alloc, args)?;
    let answers = arg.answers();
    answered(alloc, answers, next_answer(answers), made)
}

// A new record of the first type argument, which is unit where there is none.
fn new_record_of_first(alloc: Global, args: &Items<Ty>) -> Result<Value, Memory>
    ensures { IfOk result (λ v. value_of v ≡ new_record_of (first_type (map type_of args.now))) }
{
    match args.as_slice() {
        [] => Ok(Value::Gone),
        [ty, ..] => new_record(alloc, ty),
    }
}

// Whether a new array of so many elements is made.
fn makes_array(answers: &[bool], count: u64) -> bool
    ensures { result ≡ makes_array_of answers.now count }
{
    next_answer(answers) && count <= MOST_ELEMENTS
}

// The answers in a field; none, where there are none.
fn answers_at(arg: &Value, at: usize) -> &[bool]
    ensures { result.now ≡ answers_in (field (value_of arg.now) at) }
{
    match arg.field(at) {
        Some(field) => field.answers(),
        None => &[],
    }
}

// The number in a field; 0, where there is none.
fn number_at(arg: &Value, at: usize) -> u64
    ensures { result ≡ number_in (field (value_of arg.now) at) }
{
    match arg.field(at) {
        Some(field) => field.number(),
        None => 0,
    }
}

// A new array, where the allocator's answer is yes and it isn't too long.
fn made_array(alloc: Global, arg: &Value) -> Result<Value, Memory>
    ensures { IfOk result (λ v. value_of v ≡ library_value Create [] (value_of arg.now)) }
{
    let answers = answers_at(arg, 0);
    let count = number_at(arg, 1);
    if makes_array(answers, count) {
        let made = Value::Array(zeros(alloc, count)?);
        answered(alloc, answers, true, made)
    } else {
        answered(alloc, answers, false, Value::Gone)
    }
}

// What it costs: 1 for each element, where it is made.
fn array_cost(arg: &Value) -> u64
    ensures { result ≡ library_cost Create (value_of arg.now) }
{
    let count = number_at(arg, 1);
    if makes_array(answers_at(arg, 0), count) {
        count
    } else {
        0
    }
}

// How many elements an array has.
fn length_of(arg: &Value) -> Value
    ensures { value_of result ≡ number (length (elements_in (value_of arg.now))) }
{
    Value::Num(arg.elements().len() as u64)
}

// An element of an array, which stands in the first field, by the number in the second; 0, where there is none.
fn element_of(arg: &Value) -> Value
    ensures { value_of result ≡ number (get_or (elements_in (field (value_of arg.now) 0)) (number_in (field (value_of arg.now) 1)) 0) }
{
    let at = number_at(arg, 1);
    match arg.field(0) {
        Some(array) => Value::Num(array.element(at)),
        None => Value::Num(0),
    }
}

// The array in the first field with the number in the third for the element by the number in the second, where there is one.
fn put_element(arg: Value) -> Value
    ensures { value_of result ≡ with_element (field (value_of arg) 0) (number_in (field (value_of arg) 1)) (number_in (field (value_of arg) 2)) }
{
    let at = number_at(&arg, 1);
    let number = number_at(&arg, 2);
    arg.into_field(0).with_element(at, number)
}
