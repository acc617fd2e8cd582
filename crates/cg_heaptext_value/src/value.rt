// Values, read by their types.
#![tactic(auto, unfolding(cg_heaptext_def::specs::Reading::value, cg_base::specs::Types::to_parts))]

ghost use Rattle.std.specs.Prelude.{◌≡◌, ℕ, List, Some, IfOk};
ghost use Rattle.cg_base.specs.Bytes.{digit, Each};
ghost use Rattle.cg_base.specs.Types.{type_of, variant, fields};
ghost use Rattle.cg_base.specs.declared.kind.Sigil.TheVariants.{U};
ghost use Rattle.cg_heaptext_def.specs.Footprints.{amounts};
ghost use Rattle.cg_heaptext_def.specs.HeapText.{cells_of};
ghost use Rattle.cg_heaptext_def.specs.Reading.{slot_values, value as value_read, value_all, value_applied};
ghost use Rattle.cg_heaptext_def.specs.Trees.{Cell, Fields, Heap, Written, amount, bare, values_in};
ghost use Rattle.cg_heaptext_entries.specs.Index.{CellStands, IsIndex, numeral_of};
ghost use Rattle.cg_heaptext_index.specs.Addresses.{IsMapOf};
ghost use Rattle.cg_heaptext_value.specs.Capped.{capped_value, capped_values};
ghost use Rattle.cg_heaptext_value.specs.Given.{AreCells, boxed_in, field_in, pieces};
ghost use Rattle.cg_heaptext_values.specs.Values.{FieldsStand, StandsAt, ValuesStand};
ghost use Rattle.cg_value.specs.Values as values;
ghost use Rattle.cg_value.specs.Values.{to_vals, value_of};

use crate::cells::{abstract_value, cell_at};
use crate::plain::{chosen, truth_value, word_value};
use cg_base::{Items, Memory, Part, Sigil, Ty};
use cg_heaptext_cells::{CellForm, form};
use cg_heaptext_entries::{Index, Numeral};
use cg_heaptext_index::Addresses;
use cg_heaptext_lexer::Lexer;
use cg_heaptext_values::{FieldsAt, Head, ValueAt, ValuesAt, fields_of};
use cg_value::Value;
use std::alloc::Global;

/// The value that stands here, at a type, through the cells that it mentions (docs/LANGUAGE.md, "Heap files"); or `Memory` where memory is
/// wanting. A number above 2^64 - 1 is given as that. Nothing is judged: where a value doesn't fit its type, it gives what `Reading.value`
/// says.
pub fn value_at(
    alloc: Global,
    index: &Index,
    addresses: &Addresses,
    ty: &Ty,
    value: &ValueAt,
) -> Result<Value, Memory>
    ensures { (h : Heap) → IsIndex index.now h → IsMapOf addresses.now (amounts h) → (v : Written) → StandsAt value.now v → IfOk result (λ x. value_of x ≡ capped_value (value_read (cells_of h) (type_of ty.now) (bare v))) }
{
    read(alloc, index, addresses, ty, value)
}

// The value that stands here, at a type.
#[cycle(read)]
fn read(
    alloc: Global,
    index: &Index,
    addresses: &Addresses,
    ty: &Ty,
    value: &ValueAt,
) -> Result<Value, Memory>
    ensures { (h : Heap) → AreCells index.now addresses.now h → (v : Written) → StandsAt value.now v → IfOk result (λ x. value_of x ≡ capped_value (value_read (cells_of h) (type_of ty.now) (bare v))) }
{
    match ty {
        Ty::Unit => Ok(Value::Unit),
        Ty::Word(_) => Ok(word_value(value)),
        Ty::Bool => Ok(truth_value(value)),
        Ty::Abs(_, _, _) => abstract_value(alloc, index, addresses, value),
        Ty::Variant(parts) => variant(alloc, index, addresses, parts.as_slice(), value),
        Ty::Fields(parts, sigil) => held(alloc, index, addresses, parts.as_slice(), *sigil, value),
        Ty::Var(_) | Ty::Seen(_) | Ty::Arrow(_, _) => Ok(Value::Unit),
    }
}

// That of a variant of these alternatives.
#[cycle(read)]
fn variant(
    alloc: Global,
    index: &Index,
    addresses: &Addresses,
    parts: &[Part],
    value: &ValueAt,
) -> Result<Value, Memory>
    ensures { (h : Heap) → AreCells index.now addresses.now h → (v : Written) → StandsAt value.now v → IfOk result (λ x. value_of x ≡ capped_value (value_read (cells_of h) (variant (pieces parts.now)) (bare v))) }
{
    match value.head() {
        Head::Constant(name) => chosen(alloc, name, Value::Unit),
        Head::Applied(name, payload) => applied(alloc, index, addresses, parts, name, &payload),
        _ => Ok(Value::Unit),
    }
}

// That of the alternative of this name, with its payload.
#[cycle(read)]
fn applied(
    alloc: Global,
    index: &Index,
    addresses: &Addresses,
    parts: &[Part],
    name: &[u8],
    payload: &ValueAt,
) -> Result<Value, Memory>
    ensures { (h : Heap) → AreCells index.now addresses.now h → (v : Written) → StandsAt payload.now v → IfOk result (λ x. value_of x ≡ values.chosen name.now (capped_value (value_applied (cells_of h) (pieces parts.now) name.now v))) }
{
    let payload = payload_of(alloc, index, addresses, parts, name, payload)?;
    chosen(alloc, name, payload)
}

// The payload of the alternative of this name.
#[cycle(read)]
fn payload_of(
    alloc: Global,
    index: &Index,
    addresses: &Addresses,
    parts: &[Part],
    name: &[u8],
    payload: &ValueAt,
) -> Result<Value, Memory>
    ensures { (h : Heap) → AreCells index.now addresses.now h → (v : Written) → StandsAt payload.now v → IfOk result (λ x. value_of x ≡ capped_value (value_applied (cells_of h) (pieces parts.now) name.now v)) }
{
    for part in parts {
        if name == part.name.bytes() {
            return read(alloc, index, addresses, &part.ty, payload);
        }
    }
    Ok(Value::Unit)
}

// That of a record of these fields, by how it is held.
#[cycle(read)]
fn held(
    alloc: Global,
    index: &Index,
    addresses: &Addresses,
    parts: &[Part],
    sigil: Sigil,
    value: &ValueAt,
) -> Result<Value, Memory>
    ensures { (h : Heap) → AreCells index.now addresses.now h → (v : Written) → StandsAt value.now v → IfOk result (λ x. value_of x ≡ capped_value (value_read (cells_of h) (fields (pieces parts.now) sigil) (bare v))) }
{
    match sigil {
        Sigil::R | Sigil::W => boxed(alloc, index, addresses, parts, value),
        Sigil::U => record(alloc, index, addresses, parts, value),
    }
}

// That of an unboxed record of these fields.
#[cycle(read)]
fn record(
    alloc: Global,
    index: &Index,
    addresses: &Addresses,
    parts: &[Part],
    value: &ValueAt,
) -> Result<Value, Memory>
    ensures { (h : Heap) → AreCells index.now addresses.now h → (v : Written) → StandsAt value.now v → IfOk result (λ x. value_of x ≡ capped_value (value_read (cells_of h) (fields (pieces parts.now) U) (bare v))) }
{
    match value.head() {
        Head::Tuple(values) => tuple(alloc, index, addresses, parts, values),
        Head::Record(fields) => named(alloc, index, addresses, parts, fields),
        _ => Ok(Value::Unit),
    }
}

// That of a boxed record of these fields.
#[cycle(read)]
fn boxed(
    alloc: Global,
    index: &Index,
    addresses: &Addresses,
    parts: &[Part],
    value: &ValueAt,
) -> Result<Value, Memory>
    ensures { (h : Heap) → AreCells index.now addresses.now h → (v : Written) → StandsAt value.now v → IfOk result (λ x. value_of x ≡ capped_value (boxed_in (cells_of h) (pieces parts.now) (bare v))) }
{
    match value.head() {
        Head::Address(_, address) => slots_by(alloc, index, addresses, parts, &address),
        _ => Ok(Value::Unit),
    }
}

// A record of these fields whose cell is at an address.
#[cycle(read)]
fn slots_by(
    alloc: Global,
    index: &Index,
    addresses: &Addresses,
    parts: &[Part],
    address: &Numeral,
) -> Result<Value, Memory>
    ensures { (h : Heap) → AreCells index.now addresses.now h → Each digit address.now.digits.now → IfOk result (λ x. value_of x ≡ values.parts (capped_values (value_all (cells_of h) (pieces parts.now) (slot_values (cells_of h (amount (numeral_of address.now))))))) }
{
    match cell_at(index, addresses, address) {
        Some(cell) => slots_in(alloc, index, addresses, parts, &cell),
        None => Ok(Value::Fields(Items::new(alloc))),
    }
}

// A record of these fields whose cell stands here.
#[cycle(read)]
fn slots_in(
    alloc: Global,
    index: &Index,
    addresses: &Addresses,
    parts: &[Part],
    cell: &Lexer,
) -> Result<Value, Memory>
    ensures { (h : Heap) → AreCells index.now addresses.now h → (c : Cell) → CellStands cell.now c → IfOk result (λ x. value_of x ≡ values.parts (capped_values (value_all (cells_of h) (pieces parts.now) (slot_values (Some c))))) }
{
    match form(cell) {
        CellForm::Slots => named(alloc, index, addresses, parts, fields_of(cell)),
        CellForm::Elements | CellForm::Answers => Ok(Value::Fields(Items::new(alloc))),
    }
}

// A record of the values of a tuple, each at the field of its place.
#[cycle(read)]
fn tuple(
    alloc: Global,
    index: &Index,
    addresses: &Addresses,
    parts: &[Part],
    listed: ValuesAt,
) -> Result<Value, Memory>
    ensures { (h : Heap) → AreCells index.now addresses.now h → (vs : List Written) → ValuesStand listed.entry vs → IfOk result (λ x. value_of x ≡ values.parts (capped_values (value_all (cells_of h) (pieces parts.now) vs))) }
{
    let mut read = Items::new(alloc);
    let mut listed = listed;
    for part in parts {
        match listed.next() {
            Some(value) => read.push(field(alloc, index, addresses, part, &value)?)?,
            None => return Ok(Value::Fields(read)),
        }
    }
    Ok(Value::Fields(read))
}

// A record of the values of fields, each at the field of its place.
#[cycle(read)]
fn named(
    alloc: Global,
    index: &Index,
    addresses: &Addresses,
    parts: &[Part],
    fields: FieldsAt,
) -> Result<Value, Memory>
    ensures { (h : Heap) → AreCells index.now addresses.now h → (fs : Fields) → FieldsStand fields.entry fs → IfOk result (λ x. value_of x ≡ values.parts (capped_values (value_all (cells_of h) (pieces parts.now) (values_in fs)))) }
{
    let mut read = Items::new(alloc);
    let mut fields = fields;
    for part in parts {
        match fields.next() {
            Some(at) => read.push(field(alloc, index, addresses, part, &at.value)?)?,
            None => return Ok(Value::Fields(read)),
        }
    }
    Ok(Value::Fields(read))
}

// The value of a field: where it is taken it is gone.
#[cycle(read)]
fn field(
    alloc: Global,
    index: &Index,
    addresses: &Addresses,
    part: &Part,
    value: &ValueAt,
) -> Result<Value, Memory>
    ensures { (h : Heap) → AreCells index.now addresses.now h → (v : Written) → StandsAt value.now v → IfOk result (λ x. value_of x ≡ capped_value (field_in (cells_of h) part.now v)) }
{
    if part.taken {
        return Ok(Value::Gone);
    }
    read(alloc, index, addresses, &part.ty, value)
}
