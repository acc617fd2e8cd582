// Values.
ghost use Rattle.std.specs.Prelude.{◌≡◌, map, IfOk};
ghost use Rattle.cg_value.specs.Forms.{field as field_of, payload_in, with_element, with_field, without};
ghost use Rattle.cg_value.specs.Values.{value_of};

use crate::forms::{put_at, set_at, take_at};
use cg_base::{Fun, Items, Memory, Name, Ty, copy_types};
use std::alloc::Global;

/// A value, with no address in it (the paper's value semantics, section 3; docs/LANGUAGE.md, "Values"). `Num` is a
/// word or a Bool, `Fun` a function at its type arguments, `Variant` an alternative with its payload, `Fields` a record
/// in the order of its fields, `Array` the elements of an array, `Answers` what an allocator will still answer, and
/// `Gone` stands for a field that is taken.
pub enum Value {
    Num(u64),
    Unit,
    Fun(Fun, Items<Ty>),
    Variant(Name, Box<Value>),
    Fields(Items<Value>),
    Array(Items<u64>),
    Answers(Items<bool>),
    Gone,
}

impl Drop for Value {
    fn drop(self) {
        match self {
            Value::Num(_) | Value::Unit | Value::Gone => (),
            Value::Fun(_, types) => drop(types),
            Value::Variant(name, payload) => {
                drop(name);
                drop(payload);
            }
            Value::Fields(values) => drop(values),
            Value::Array(numbers) => drop(numbers),
            Value::Answers(answers) => drop(answers),
        }
    }
}

impl Value {
    /// The payload of an alternative; gone, where this is none.
    #[tactic(auto, unfolding(crate::specs::Forms::payload_in))]
    pub fn into_payload(self) -> Value
        ensures { value_of result ≡ payload_in (value_of self) }
    {
        match self {
            Value::Variant(name, payload) => {
                drop(name);
                Box::into_inner(payload)
            }
            other => {
                drop(other);
                Value::Gone
            }
        }
    }

    /// A field, by its position, and the record in which it is gone afterwards; gone, where there is none.
    #[tactic(auto, unfolding(crate::specs::Forms::field, crate::specs::Forms::without), using(crate::proofs::FormSteps::form_steps))]
    pub fn split_field(self, at: usize) -> (Value, Value)
        ensures field { value_of result.0 ≡ field_of (value_of self) at }
        ensures rest { value_of result.1 ≡ without (value_of self) at }
    {
        match self {
            Value::Fields(fields) => {
                let mut fields = fields;
                let field = take_at(fields.as_mut_slice(), at);
                (field, Value::Fields(fields))
            }
            other => (Value::Gone, other),
        }
    }

    /// A field, by its position; gone, where there is none.
    pub fn into_field(self, at: usize) -> Value
        ensures { value_of result ≡ field_of (value_of self) at }
    {
        let (field, rest) = self.split_field(at);
        drop(rest);
        field
    }

    /// A record with another value for a field, where there is one at this position; gone, where this is no record.
    #[tactic(auto, unfolding(crate::specs::Forms::with_field), using(crate::proofs::FormSteps::form_steps))]
    pub fn with_field(self, at: usize, field: Value) -> Value
        ensures { value_of result ≡ with_field (value_of self) at (value_of field) }
    {
        match self {
            Value::Fields(fields) => {
                let mut fields = fields;
                put_at(fields.as_mut_slice(), at, field);
                Value::Fields(fields)
            }
            other => {
                drop(other);
                drop(field);
                Value::Gone
            }
        }
    }

    /// An array with another number for an element, where there is one at this position; gone, where this is no array.
    #[tactic(auto, unfolding(crate::specs::Forms::with_element), using(crate::proofs::FormSteps::form_steps))]
    pub fn with_element(self, at: u64, number: u64) -> Value
        ensures { value_of result ≡ with_element (value_of self) at number }
    {
        match self {
            Value::Array(elements) => {
                let mut elements = elements;
                set_at(elements.as_mut_slice(), at, number);
                Value::Array(elements)
            }
            other => {
                drop(other);
                Value::Gone
            }
        }
    }

    /// An equal value. The one error is want of memory.
    #[cycle(copy)]
    pub fn copy(&self, alloc: Global) -> Result<Value, Memory>
        ensures { IfOk result (λ v. value_of v ≡ value_of self.now) }
    {
        match self {
            Value::Num(number) => Ok(Value::Num(*number)),
            Value::Unit => Ok(Value::Unit),
            Value::Fun(fun, types) => Ok(Value::Fun(*fun, copy_types(alloc, types)?)),
            Value::Variant(name, payload) => {
                let payload = Box::new(alloc, payload.copy(alloc)?)?;
                Ok(Value::Variant(name.copy(alloc)?, payload))
            }
            Value::Fields(values) => Ok(Value::Fields(copy_values(alloc, values)?)),
            Value::Array(numbers) => Ok(Value::Array(copied(alloc, numbers.as_slice())?)),
            Value::Answers(answers) => Ok(Value::Answers(copied(alloc, answers.as_slice())?)),
            Value::Gone => Ok(Value::Gone),
        }
    }
}

#[cycle(copy)]
fn copy_values(alloc: Global, values: &Items<Value>) -> Result<Items<Value>, Memory>
    ensures { IfOk result (λ vs. map value_of vs ≡ map value_of values.now) }
{
    let mut copies = Items::new(alloc);
    for value in values.as_slice() {
        copies.push(value.copy(alloc)?)?;
    }
    Ok(copies)
}

/// An equal list, of items that are copied as they are. The one error is want of memory.
pub fn copied<T: Copy>(alloc: Global, items: &[T]) -> Result<Items<T>, Memory>
    ensures { IfOk result (λ copies. copies ≡ items.now) }
{
    let mut copies = Items::new(alloc);
    for item in items {
        copies.push(*item)?;
    }
    Ok(copies)
}
