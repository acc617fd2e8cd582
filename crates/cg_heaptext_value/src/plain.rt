// Values that are a number, and alternatives with their payloads.
#![tactic(auto, unfolding(cg_heaptext_def::specs::Reading::value))]

ghost use Rattle.std.specs.Prelude.{◌≡◌, ℕ, IfOk, Option};
ghost use Rattle.cg_base.specs.Types.{bool as truths, word};
ghost use Rattle.cg_base.specs.declared.kind.Word.{Word};
ghost use Rattle.cg_heaptext_def.specs.Reading.{value as value_read};
ghost use Rattle.cg_heaptext_def.specs.Trees.{Cell, Written, bare};
ghost use Rattle.cg_heaptext_value.specs.Capped.{capped_value};
ghost use Rattle.cg_heaptext_values.specs.Values.{StandsAt};
ghost use Rattle.cg_value.specs.Values as values;
ghost use Rattle.cg_value.specs.Values.{value_of};

use cg_base::{Memory, Name};
use cg_heaptext_cells::number;
use cg_heaptext_values::{Head, ValueAt};
use cg_value::Value;
use std::alloc::Global;

// A word.
pub(crate) fn word_value(value: &ValueAt) -> Value
    ensures { (cells : ℕ → Option Cell) (w : Word) (v : Written) → StandsAt value.now v → value_of result ≡ capped_value (value_read cells (word w) (bare v)) }
{
    match value.head() {
        Head::Number(numeral) => Value::Num(number(numeral.digits)),
        _ => Value::Unit,
    }
}

// A truth value.
pub(crate) fn truth_value(value: &ValueAt) -> Value
    ensures { (cells : ℕ → Option Cell) (v : Written) → StandsAt value.now v → value_of result ≡ capped_value (value_read cells truths (bare v)) }
{
    match value.head() {
        Head::Truth(truth) => Value::Num(u64::from(truth)),
        _ => Value::Unit,
    }
}

// An alternative with its payload.
pub(crate) fn chosen(alloc: Global, name: &[u8], payload: Value) -> Result<Value, Memory>
    ensures { IfOk result (λ x. value_of x ≡ values.chosen name.now (value_of payload)) }
{
    let payload = Box::new(alloc, payload)?;
    Ok(Value::Variant(Name::new(alloc, name)?, payload))
}
