// Values, read by their types.
#![tactic(auto, unfolding(cg_heaptext_def::specs::Reading::scalars, cg_base::specs::Types::to_parts))]

ghost use Rattle.std.specs.Prelude.{◌≡◌, List, map, zero, IfOk, OnOk};
ghost use Rattle.cg_base.specs.Types.{part_of, to_parts, type_of, variant, fields};
ghost use Rattle.cg_base.specs.declared.kind.Sigil.TheVariants.{U};
ghost use Rattle.cg_base.specs.declared.place.Place.{Place};
ghost use Rattle.cg_heaptext_def.specs.Reading.{scalars, scalars_all, scalars_applied};
ghost use Rattle.cg_heaptext_def.specs.Small.{capped};
ghost use Rattle.cg_heaptext_def.specs.Trees as trees;
ghost use Rattle.cg_heaptext_def.specs.Trees.{Fields, Written, bare, values_in};
ghost use Rattle.cg_heaptext_entries.specs.Index.{CellStands};
ghost use Rattle.cg_heaptext_values.specs.Values.{FieldsStand, StandsAt, ValuesStand};
ghost use Rattle.cg_heaptext_scalars.specs.Given.{Adds, field_in, pieces};

use crate::alternative::{add_constant, add_tag, place_of};
use crate::padding::{pad, pad_parts};
use crate::plain::{add_address, add_truth, add_unit, add_word};
use cg_base::{Items, Memory, Part, Sigil, Ty};
use cg_heap::Scalar;
use cg_heaptext_lexer::Lexer;
use cg_heaptext_values::{FieldsAt, Head, ValueAt, ValuesAt, fields_of};
use std::alloc::Global;

/// The scalars of a value at a type (docs/LANGUAGE.md, "Heap files"); or `Memory` where memory is wanting. A number above 2^64 - 1 is given
/// as that. Nothing is judged: where a value doesn't fit its type, it gives what `Reading.scalars` says.
pub fn scalars_at(alloc: Global, ty: &Ty, value: &ValueAt) -> Result<Items<Scalar>, Memory>
    ensures { (v : Written) → StandsAt value.now v → IfOk result (λ us. us ≡ map capped (scalars (type_of ty.now) (bare v))) }
{
    let mut out = Items::new(alloc);
    add(&mut out, ty, value)?;
    Ok(out)
}

/// What a cell of slots holds that is read at the type of a record of these fields (docs/LANGUAGE.md, "Heap files"); or `Memory` where memory
/// is wanting. A number above 2^64 - 1 is given as that. Nothing is judged: where the cell doesn't fit, it gives what `Reading.scalars_all` says.
pub fn slots_at(alloc: Global, parts: &Items<Part>, cell: &Lexer) -> Result<Items<Scalar>, Memory>
    ensures { (p : Place) (fs : Fields) → CellStands cell.now (trees.slots p fs) → IfOk result (λ us. us ≡ map capped (scalars_all (to_parts (map part_of parts.now)) (values_in fs))) }
{
    let mut out = Items::new(alloc);
    add_fields(&mut out, parts.as_slice(), fields_of(cell))?;
    Ok(out)
}

// Adds the scalars of a value at a type.
#[cycle(add)]
fn add(out: &mut Items<Scalar>, ty: &Ty, value: &ValueAt) -> Result<(), Memory>
    ensures { (v : Written) → StandsAt value.now v → OnOk result (Adds out.old (scalars (type_of ty.now) (bare v)) out.new) }
{
    match ty {
        Ty::Unit => add_unit(out, value),
        Ty::Word(_) => add_word(out, value),
        Ty::Bool => add_truth(out, value),
        Ty::Abs(_, _, _) => add_address(out, value),
        Ty::Variant(parts) => add_variant(out, parts.as_slice(), value),
        Ty::Fields(parts, sigil) => add_held(out, parts.as_slice(), *sigil, value),
        Ty::Var(_) | Ty::Seen(_) | Ty::Arrow(_, _) => Ok(()),
    }
}

// Adds those of a variant of these alternatives.
#[cycle(add)]
fn add_variant(out: &mut Items<Scalar>, parts: &[Part], value: &ValueAt) -> Result<(), Memory>
    ensures { (v : Written) → StandsAt value.now v → OnOk result (Adds out.old (scalars (variant (pieces parts.now)) (bare v)) out.new) }
{
    match value.head() {
        Head::Constant(name) => add_constant(out, parts, name),
        Head::Applied(name, payload) => add_applied(out, parts, name, &payload),
        _ => Ok(()),
    }
}

// Adds those of the alternative of this name, with its payload.
#[cycle(add)]
fn add_applied(
    out: &mut Items<Scalar>,
    parts: &[Part],
    name: &[u8],
    payload: &ValueAt,
) -> Result<(), Memory>
    ensures { (v : Written) → StandsAt payload.now v → OnOk result (Adds out.old (scalars_applied (pieces parts.now) zero name.now v) out.new) }
{
    match place_of(parts, name) {
        Some(at) => {
            add_tag(out, &parts[..at])?;
            add(out, &parts[at].ty, payload)?;
            pad_parts(out, &parts[at + 1..])
        }
        None => Ok(()),
    }
}

// Adds those of a record of these fields, by how it is held.
#[cycle(add)]
fn add_held(
    out: &mut Items<Scalar>,
    parts: &[Part],
    sigil: Sigil,
    value: &ValueAt,
) -> Result<(), Memory>
    ensures { (v : Written) → StandsAt value.now v → OnOk result (Adds out.old (scalars (fields (pieces parts.now) sigil) (bare v)) out.new) }
{
    match sigil {
        Sigil::R | Sigil::W => add_address(out, value),
        Sigil::U => add_record(out, parts, value),
    }
}

// Adds those of an unboxed record of these fields.
#[cycle(add)]
fn add_record(out: &mut Items<Scalar>, parts: &[Part], value: &ValueAt) -> Result<(), Memory>
    ensures { (v : Written) → StandsAt value.now v → OnOk result (Adds out.old (scalars (fields (pieces parts.now) U) (bare v)) out.new) }
{
    match value.head() {
        Head::Tuple(values) => add_values(out, parts, values),
        Head::Record(fields) => add_fields(out, parts, fields),
        _ => Ok(()),
    }
}

// Adds those of the values of a tuple, each at the field of its place.
#[cycle(add)]
fn add_values(out: &mut Items<Scalar>, parts: &[Part], values: ValuesAt) -> Result<(), Memory>
    ensures { (vs : List Written) → ValuesStand values.entry vs → OnOk result (Adds out.old (scalars_all (pieces parts.now) vs) out.new) }
{
    let mut values = values;
    for part in parts {
        match values.next() {
            Some(value) => add_field(out, part, &value)?,
            None => return Ok(()),
        }
    }
    Ok(())
}

// Adds those of the fields of a record, each at the field of its place.
#[cycle(add)]
fn add_fields(out: &mut Items<Scalar>, parts: &[Part], fields: FieldsAt) -> Result<(), Memory>
    ensures { (fs : Fields) → FieldsStand fields.entry fs → OnOk result (Adds out.old (scalars_all (pieces parts.now) (values_in fs)) out.new) }
{
    let mut fields = fields;
    for part in parts {
        match fields.next() {
            Some(field) => add_field(out, part, &field.value)?,
            None => return Ok(()),
        }
    }
    Ok(())
}

// Adds those of a field: where it is taken they are unset.
#[cycle(add)]
fn add_field(out: &mut Items<Scalar>, part: &Part, value: &ValueAt) -> Result<(), Memory>
    ensures { (v : Written) → StandsAt value.now v → OnOk result (Adds out.old (field_in part.now v) out.new) }
{
    if part.taken {
        return pad(out, &part.ty);
    }
    add(out, &part.ty, value)
}
