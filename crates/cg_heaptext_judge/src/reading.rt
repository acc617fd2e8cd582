// Values, judged by their types.
#![tactic(auto, unfolding(cg_heaptext_def::specs::Reading::events, cg_base::specs::Types::to_parts))]

ghost use Rattle.std.specs.Prelude.{◌≡◌, ℕ, List, Some};
ghost use Rattle.cg_base.specs.Types.{fields as fields_type, type_of, variant};
ghost use Rattle.cg_base.specs.declared.kind.Sigil.TheVariants.{U};
ghost use Rattle.cg_heaptext_def.specs.Footprints.{amounts};
ghost use Rattle.cg_heaptext_def.specs.HeapText.{addresses, cells_of};
ghost use Rattle.cg_heaptext_def.specs.Reading.{events, events_all, events_applied};
ghost use Rattle.cg_heaptext_def.specs.Trees.{Cell, Fields, Heap, Written, bare, first, values_in};
ghost use Rattle.cg_heaptext_entries.specs.Index.{CellStands};
ghost use Rattle.cg_heaptext_judge.specs.Values.{AllThere, boxed, part_met, payload_met, slots_met};
ghost use Rattle.cg_heaptext_judge_notes.specs.Notes.{Notes};
ghost use Rattle.cg_heaptext_judge_steps.specs.Sources.{AreThere, IsRead};
ghost use Rattle.cg_heaptext_judge_steps.specs.Steps.{pieces};
ghost use Rattle.cg_heaptext_values.specs.Values.{FieldsStand, StandsAt, ValuesStand};

use cg_base::{Part, Place, Sigil, Ty};
use cg_heaptext_judge_notes::{JudgeFault, Judged};
use cg_heaptext_judge_steps::{
    Source, fits_record, is_record, judge_constant, judge_gone, judge_library, judge_truth,
    judge_unit, judge_word, mentioned, misfit, misfit_cell,
};
use cg_heaptext_lexer::Lexer;
use cg_heaptext_values::{FieldsAt, Head, ValueAt, ValuesAt, fields_of};

// Whether values of a type are addresses of cells.
fn is_boxed(sigil: Sigil) -> bool
    ensures { result ≡ boxed sigil }
{
    match sigil {
        Sigil::U => false,
        Sigil::R | Sigil::W => true,
    }
}

/// Notes what is met in a value at a type; or tells what doesn't fit (docs/LANGUAGE.md, "Heap files"); or `Memory` where memory is wanting.
#[cycle(value)]
pub(crate) fn judge_value<'t>(
    source: &Source,
    judged: &mut Judged<'t>,
    ty: &'t Ty,
    value: &ValueAt,
) -> Result<(), JudgeFault>
    ensures { (h : Heap) → IsRead source.now h → (v : Written) → StandsAt value.now v → AreThere h (addresses (bare v)) → Notes (amounts h) judged.old (events (cells_of h) (type_of ty.now) (first v) (bare v)) result judged.new }
{
    match ty {
        Ty::Unit => judge_unit(value),
        Ty::Word(word) => judge_word(judged, *word, value),
        Ty::Bool => judge_truth(value),
        Ty::Abs(name, args, sigil) => {
            if !is_boxed(*sigil) {
                return misfit(value);
            }
            let cell = mentioned(source, judged, ty, value)?;
            judge_library(judged, name, args, cell)
        }
        Ty::Variant(parts) => judge_variant(source, judged, parts.as_slice(), value),
        Ty::Fields(parts, sigil) => {
            if !is_boxed(*sigil) {
                return judge_record(source, judged, parts.as_slice(), value);
            }
            let cell = mentioned(source, judged, ty, value)?;
            judge_slots(source, judged, parts.as_slice(), cell)
        }
        Ty::Var(_) | Ty::Seen(_) | Ty::Arrow(_, _) => misfit(value),
    }
}

// In a variant of these alternatives.
#[cycle(value)]
fn judge_variant<'t>(
    source: &Source,
    judged: &mut Judged<'t>,
    parts: &'t [Part],
    value: &ValueAt,
) -> Result<(), JudgeFault>
    ensures { (h : Heap) → IsRead source.now h → (v : Written) → StandsAt value.now v → AreThere h (addresses (bare v)) → Notes (amounts h) judged.old (events (cells_of h) (variant (pieces parts.now)) (first v) (bare v)) result judged.new }
{
    match value.head() {
        Head::Constant(name) => judge_constant(parts, name, value.place()),
        Head::Applied(name, payload) => {
            judge_applied(source, judged, parts, name, value.place(), &payload)
        }
        _ => misfit(value),
    }
}

// In the payload of the alternative of this name, where the whole value begins at this place.
#[cycle(value)]
fn judge_applied<'t>(
    source: &Source,
    judged: &mut Judged<'t>,
    parts: &'t [Part],
    name: &[u8],
    place: Place,
    payload: &ValueAt,
) -> Result<(), JudgeFault>
    ensures { (h : Heap) → IsRead source.now h → (v : Written) → StandsAt payload.now v → AreThere h (addresses v) → Notes (amounts h) judged.old (events_applied (cells_of h) (pieces parts.now) place name.now v) result judged.new }
{
    for part in parts {
        if name == part.name.bytes() {
            return judge_payload(source, judged, part, place, payload);
        }
    }
    Err(JudgeFault::Misfit(place))
}

// In the payload of this alternative.
#[cycle(value)]
fn judge_payload<'t>(
    source: &Source,
    judged: &mut Judged<'t>,
    part: &'t Part,
    place: Place,
    payload: &ValueAt,
) -> Result<(), JudgeFault>
    ensures { (h : Heap) → IsRead source.now h → (v : Written) → StandsAt payload.now v → AreThere h (addresses v) → Notes (amounts h) judged.old (payload_met h part.now place v) result judged.new }
{
    if part.taken {
        return Err(JudgeFault::Misfit(place));
    }
    judge_value(source, judged, &part.ty, payload)
}

// In a cell at the type of a record of these fields.
#[cycle(value)]
fn judge_slots<'t>(
    source: &Source,
    judged: &mut Judged<'t>,
    parts: &'t [Part],
    cell: &Lexer,
) -> Result<(), JudgeFault>
    ensures { (h : Heap) → IsRead source.now h → (q : ℕ) (c : Cell) → cells_of h q ≡ Some c → CellStands cell.now c → Notes (amounts h) judged.old (slots_met h (pieces parts.now) (Some c)) result judged.new }
{
    if !is_record(parts, cell) {
        return misfit_cell(cell);
    }
    judge_fields(source, judged, parts, fields_of(cell))
}

// In an unboxed record of these fields.
#[cycle(value)]
fn judge_record<'t>(
    source: &Source,
    judged: &mut Judged<'t>,
    parts: &'t [Part],
    value: &ValueAt,
) -> Result<(), JudgeFault>
    ensures { (h : Heap) → IsRead source.now h → (v : Written) → StandsAt value.now v → AreThere h (addresses (bare v)) → Notes (amounts h) judged.old (events (cells_of h) (fields_type (pieces parts.now) U) (first v) (bare v)) result judged.new }
{
    if !fits_record(parts, value) {
        return misfit(value);
    }
    match value.head() {
        Head::Tuple(values) => judge_values(source, judged, parts, values),
        Head::Record(fields) => judge_fields(source, judged, parts, fields),
        _ => misfit(value),
    }
}

// In the values of a tuple, each at the field of its place.
#[cycle(value)]
fn judge_values<'t>(
    source: &Source,
    judged: &mut Judged<'t>,
    parts: &'t [Part],
    values: ValuesAt,
) -> Result<(), JudgeFault>
    ensures { (h : Heap) → IsRead source.now h → (vs : List Written) → ValuesStand values.entry vs → AllThere h vs → Notes (amounts h) judged.old (events_all (cells_of h) (pieces parts.now) vs) result judged.new }
{
    let mut values = values;
    for part in parts {
        match values.next() {
            Some(value) => judge_part(source, judged, part, &value)?,
            None => return Ok(()),
        }
    }
    Ok(())
}

// In the fields of a record or of a cell, each at the field of its place.
#[cycle(value)]
fn judge_fields<'t>(
    source: &Source,
    judged: &mut Judged<'t>,
    parts: &'t [Part],
    fields: FieldsAt,
) -> Result<(), JudgeFault>
    ensures { (h : Heap) → IsRead source.now h → (fs : Fields) → FieldsStand fields.entry fs → AllThere h (values_in fs) → Notes (amounts h) judged.old (events_all (cells_of h) (pieces parts.now) (values_in fs)) result judged.new }
{
    let mut fields = fields;
    for part in parts {
        match fields.next() {
            Some(field) => judge_part(source, judged, part, &field.value)?,
            None => return Ok(()),
        }
    }
    Ok(())
}

// In a field: one that is taken stands as `_`.
#[cycle(value)]
fn judge_part<'t>(
    source: &Source,
    judged: &mut Judged<'t>,
    part: &'t Part,
    value: &ValueAt,
) -> Result<(), JudgeFault>
    ensures { (h : Heap) → IsRead source.now h → (v : Written) → StandsAt value.now v → AreThere h (addresses v) → Notes (amounts h) judged.old (part_met h part.now v) result judged.new }
{
    if part.taken {
        return judge_gone(value);
    }
    judge_value(source, judged, &part.ty, value)
}
