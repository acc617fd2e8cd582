// Scalars that are unset.
#![tactic(auto, unfolding(cg_heap::specs::Reps::slots))]

ghost use Rattle.std.specs.Prelude.{OnOk};
ghost use Rattle.cg_base.specs.Types.{type_of};
ghost use Rattle.cg_heap.specs.Reps.{slots};
ghost use Rattle.cg_heaptext_scalars.specs.Given.{Adds, unset, width};

use cg_base::{Items, Memory, Part, Sigil, Ty};
use cg_heap::Scalar;

// Adds as many as the type has.
#[cycle(pad)]
pub(crate) fn pad(out: &mut Items<Scalar>, ty: &Ty) -> Result<(), Memory>
    ensures { OnOk result (Adds out.old (unset (slots (type_of ty.now))) out.new) }
{
    match ty {
        Ty::Variant(parts) => {
            out.push(Scalar::Unset)?;
            pad_parts(out, parts.as_slice())
        }
        Ty::Fields(parts, Sigil::U) => pad_parts(out, parts.as_slice()),
        _ => out.push(Scalar::Unset),
    }
}

// Adds as many as the types of these parts have together.
#[cycle(pad)]
pub(crate) fn pad_parts(out: &mut Items<Scalar>, parts: &[Part]) -> Result<(), Memory>
    ensures { OnOk result (Adds out.old (unset (width parts.now)) out.new) }
{
    for part in parts {
        pad(out, &part.ty)?;
    }
    Ok(())
}
