// The parts of a type, and what stands in a tuple or has names.
ghost use Rattle.std.specs.Prelude.{◌≡◌, List};
ghost use Rattle.cg_heaptext_def.specs.Trees.{Fields, Written};
ghost use Rattle.cg_heaptext_judge_parts.specs.Parts.{as_many_of, named_by, names_of};
ghost use Rattle.cg_heaptext_values.specs.Values.{FieldsStand, ValuesStand};

use cg_base::Part;
use cg_heaptext_values::{FieldAt, FieldsAt, ValuesAt};

// Whether a field has the name of a part.
fn is_named(part: &Part, field: Option<FieldAt>) -> bool
    ensures { result ≡ named_by part.now field.entry }
{
    match field {
        Some(field) => part.name.bytes() == field.name,
        None => false,
    }
}

/// Whether fields have the names of these parts, in order, and are as many (docs/LANGUAGE.md, "Heap files"). It takes time in proportion to
/// the bytes of the fields.
pub fn have_names(parts: &[Part], fields: FieldsAt) -> bool
    ensures { (fs : Fields) → FieldsStand fields.entry fs → result ≡ names_of parts.now fs }
{
    let mut left = fields;
    for part in parts {
        if !is_named(part, left.next()) {
            return false;
        }
    }
    left.next().is_none()
}

/// Whether there are as many values as parts (docs/LANGUAGE.md, "Heap files"). It takes time in proportion to the bytes of the values.
pub fn are_as_many(parts: &[Part], values: ValuesAt) -> bool
    ensures { (vs : List Written) → ValuesStand values.entry vs → result ≡ as_many_of parts.now vs }
{
    let mut left = values;
    for part in parts {
        if left.next().is_none() {
            return false;
        }
    }
    left.next().is_none()
}
