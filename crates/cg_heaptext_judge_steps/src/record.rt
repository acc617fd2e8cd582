// Unboxed records.
#![tactic(auto, unfolding(cg_heaptext_def::specs::Reading::events))]

ghost use Rattle.cg_heaptext_def.specs.Trees.{Written, bare};
ghost use Rattle.cg_heaptext_judge_steps.specs.Steps.{fits_fields, pieces};
ghost use Rattle.cg_heaptext_values.specs.Values.{StandsAt};
ghost use Rattle.std.specs.Prelude.{◌≡◌};

use cg_base::{Part, Sigil};
use cg_heaptext_judge_parts::{are_as_many, have_names};
use cg_heaptext_values::{Head, ValueAt};
use cg_value::is_tuple;

/// Whether a value is an unboxed record with the names of these fields, or, where they are those of a tuple, a tuple of as many values
/// (docs/LANGUAGE.md, "Heap files"). It takes time in proportion to the bytes of the value.
pub fn fits_record(parts: &[Part], value: &ValueAt) -> bool
    ensures { (v : Written) → StandsAt value.now v → result ≡ fits_fields (pieces parts.now) (bare v) }
{
    match value.head() {
        Head::Tuple(values) => is_tuple(parts, Sigil::U) && are_as_many(parts, values),
        Head::Record(fields) => have_names(parts, fields),
        _ => false,
    }
}
