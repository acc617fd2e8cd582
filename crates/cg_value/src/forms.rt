// What is asked of values, at values of any form.
#![tactic(auto, unfolding(crate::specs::Forms::field, crate::specs::Forms::has_name, crate::specs::Forms::number_in, crate::specs::Forms::is_true, crate::specs::Forms::elements_in, crate::specs::Forms::answers_in), using(crate::proofs::FormSteps::form_steps))]

ghost use Rattle.std.specs.Prelude.{◌≡◌, get_or, map, slice_set};
ghost use Rattle.std.specs.Option.{option_copied};
ghost use Rattle.cg_value.specs.Forms as forms;
ghost use Rattle.cg_value.specs.Values.{gone, value_of};

use crate::Value;
use cg_base::Name;

impl Value {
    /// The number that a word or a truth value is; 0 for any other value.
    pub fn number(&self) -> u64
        ensures { result ≡ forms.number_in (value_of self.now) }
    {
        match self {
            Value::Num(number) => *number,
            _ => 0,
        }
    }

    /// Whether this is the truth value `True`.
    pub fn is_true(&self) -> bool
        ensures { result ≡ forms.is_true (value_of self.now) }
    {
        match self {
            Value::Num(number) => *number != 0,
            _ => false,
        }
    }

    /// Whether this is the alternative of a name.
    pub fn has_name(&self, name: &Name) -> bool
        ensures { result ≡ forms.has_name name.now (value_of self.now) }
    {
        match self {
            Value::Variant(own, _) => name.same(own),
            _ => false,
        }
    }

    /// Whether this is the alternative of the name of these bytes.
    pub fn is_named(&self, name: &[u8]) -> bool
        ensures { result ≡ forms.has_name name.now (value_of self.now) }
    {
        match self {
            Value::Variant(own, _) => name == own.bytes(),
            _ => false,
        }
    }

    /// The elements of an array; none, where this is no array.
    pub fn elements(&self) -> &[u64]
        ensures { result.now ≡ forms.elements_in (value_of self.now) }
    {
        match self {
            Value::Array(elements) => elements.as_slice(),
            _ => &[],
        }
    }

    /// The answers that an allocator will still give; none, where this is no `SysState`.
    pub fn answers(&self) -> &[bool]
        ensures { result.now ≡ forms.answers_in (value_of self.now) }
    {
        match self {
            Value::Answers(answers) => answers.as_slice(),
            _ => &[],
        }
    }

    /// An element of an array, by its position; 0, where there is none.
    pub fn element(&self, at: u64) -> u64
        ensures { result ≡ get_or (forms.elements_in (value_of self.now)) at 0 }
    {
        let elements = self.elements();
        if at < elements.len() as u64 {
            elements[at as usize]
        } else {
            0
        }
    }

    /// A field, by its position; None where there is none.
    pub fn field(&self, at: usize) -> Option<&Value>
        ensures { forms.maybe_value (option_copied result) ≡ forms.field (value_of self.now) at }
    {
        match self {
            Value::Fields(fields) => fields.get(at),
            _ => None,
        }
    }
}

/// A value of a list, in which it is gone afterwards; gone, where there is none.
pub(crate) fn take_at(values: &mut [Value], at: usize) -> Value
    ensures taken { value_of result ≡ get_or (map value_of values.old) at gone }
    ensures left { map value_of values.new ≡ slice_set (map value_of values.old) at gone }
{
    if at < values.len() {
        std::mem::replace(&mut values[at], Value::Gone)
    } else {
        Value::Gone
    }
}

/// Puts a value in the place of one in a list, where there is one.
pub(crate) fn put_at(values: &mut [Value], at: usize, value: Value)
    ensures { map value_of values.new ≡ slice_set (map value_of values.old) at (value_of value) }
{
    if at < values.len() {
        drop(std::mem::replace(&mut values[at], value));
    }
}

/// Puts a number in the place of one in a list, where there is one.
pub(crate) fn set_at(numbers: &mut [u64], at: u64, number: u64)
    ensures { numbers.new ≡ slice_set numbers.old at number }
{
    if at < numbers.len() as u64 {
        numbers[at as usize] = number;
    }
}
