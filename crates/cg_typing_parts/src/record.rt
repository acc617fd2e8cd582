// Records of the fields that a term gives.
#![tactic(auto)]

ghost use Rattle.std.specs.Prelude.{◌≡◌, ◌&&◌, not, map};
ghost use Rattle.std.specs.Str.{bytes_eq};
ghost use Rattle.cg_base.specs.Types.{type_of, part_of, to_parts};
ghost use Rattle.cg_core.specs.Kernels.{the_field};
ghost use Rattle.cg_core.specs.Terms.{to_named};
ghost use Rattle.cg_faults.specs.Plain.{are_fields as are_fields_of, is_made_of as is_made_by};

use cg_base::{Items, Part, Place, Sigil, Ty};
use cg_core::FieldTerm;

// Whether a part has the name of a field and isn't taken.
fn is_field(part: &Part, field: &FieldTerm<Place>) -> bool
    ensures { result ≡ (bytes_eq part.now.name field.now.name && not part.now.taken) }
{
    part.name.bytes() == field.name.bytes() && !part.taken
}

// Whether these parts have the names of these fields, in their order, and none is taken.
#[tactic(auto, using(crate::proofs::RecordSteps::record_steps))]
fn are_fields(parts: &Items<Part>, fields: &Items<FieldTerm<Place>>) -> bool
    ensures { result ≡ are_fields_of (to_parts (map part_of parts.now)) (to_named (map the_field fields.now)) }
{
    let xs = parts.as_slice();
    let ys = fields.as_slice();
    if xs.len() != ys.len() {
        return false;
    }
    for i in 0..xs.len() {
        if !is_field(&xs[i], &ys[i]) {
            return false;
        }
    }
    true
}

/// Whether a type is an unboxed record of just these fields, in their order, of which none is taken. It takes no memory.
pub fn is_made_of(ty: &Ty, fields: &Items<FieldTerm<Place>>) -> bool
    ensures { result ≡ is_made_by (type_of ty.now) (to_named (map the_field fields.now)) }
{
    match ty {
        Ty::Fields(parts, Sigil::U) => are_fields(parts, fields),
        _ => false,
    }
}
