// Where values are written.
#![tactic(auto, using(crate::proofs::Writing::writing_steps))]

ghost use Rattle.std.specs.Prelude.{◌≡◌, ℕ, ◌+◌, ◌<◌, ◌≤◌, ◌^◌, ◌||◌, List, Some, None, true, length, nat_le, nat_eq, IfErr, IfOk, OnErr, OnOk};
ghost use Rattle.cg_cmachine_layout.specs.Kinds.{layout_of};
ghost use Rattle.cg_cmachine_def.specs.Layouts.{size};
ghost use Rattle.cg_cmachine_def.specs.Operands.{Value, give as give_scalars, scalars_of};
ghost use Rattle.cg_cmachine_def.specs.Outcomes.{ok, no};
ghost use Rattle.cg_cmachine_def.specs.Targets.{with_cell_at};
ghost use Rattle.cg_cmachine_values.specs.Values.{IsWithin, length_written, overwritten, value_of, write_behind as behind_of, write_place as place_of};
ghost use Rattle.cg_heap.specs.declared.cell.Cell.TheVariants.{Slots};
ghost use Rattle.cg_heap.specs.declared.cell.Scalar.{Scalar as TheScalar};
ghost use Rattle.cg_heap.specs.Stored.{cell_at};

use crate::read::{address_of, has_room, scalar_at};
use crate::value::give;
use crate::{CValue, Place};
use cg_cmachine_layout::{Kind, Part};
use cg_ctree::Why;
use cg_heap::{Form, Scalar, Store};

/// Writes scalars over the slots of a frame from one on.
fn overwrite(slots: &mut [Scalar], at: usize, scalars: &[Scalar])
    requires within { at + length scalars.now ≤ length slots.old }
    ensures { slots.new ≡ overwritten at scalars.now slots.old }
{
    for (i, scalar) in scalars.iter().enumerate() {
        slots[at + i] = *scalar;
    }
}

/// Writes scalars over the slots of a cell from one on.
fn put<S: Store>(store: &mut S, address: u64, start: u32, scalars: &[Scalar])
    requires small { start + length scalars.now < 2 ^ 32 }
    ensures { (us : List TheScalar) → cell_at (S.stored store.old) address ≡ Some (Slots us) → (nat_eq (length scalars.now) 0 || nat_le (start + length scalars.now) (length us)) ≡ true
        → S.stored store.new ≡ with_cell_at address (Slots (overwritten start scalars.now us)) (S.stored store.old) }
{
    for (i, scalar) in scalars.iter().enumerate() {
        store.set_field(address, start + i as u32, *scalar);
    }
}

/// Writes the scalars of a value over the slots of a frame from one on.
fn overwrite_with(slots: &mut [Scalar], at: usize, value: &CValue<'_>)
    requires within { at + length (scalars_of (value_of value.now)) ≤ length slots.old }
    ensures { slots.new ≡ overwritten at (scalars_of (value_of value.now)) slots.old }
{
    match value {
        CValue::Literal(number) | CValue::Word(_, number) => slots[at] = Scalar::Word(*number),
        CValue::Pointer(_, address) => slots[at] = Scalar::Address(*address),
        CValue::Struct(copied) => overwrite(slots, at, copied.slots.as_slice()),
    }
}

/// Writes the scalars of a value over the slots of a cell from one on.
fn put_value<S: Store>(store: &mut S, address: u64, start: u32, value: &CValue<'_>)
    requires small { start + length (scalars_of (value_of value.now)) < 2 ^ 32 }
    ensures { (us : List TheScalar) → cell_at (S.stored store.old) address ≡ Some (Slots us) → (nat_eq (length (scalars_of (value_of value.now))) 0 || nat_le (start + length (scalars_of (value_of value.now))) (length us)) ≡ true
        → S.stored store.new ≡ with_cell_at address (Slots (overwritten start (scalars_of (value_of value.now)) us)) (S.stored store.old) }
{
    match value {
        CValue::Literal(number) | CValue::Word(_, number) => {
            put(store, address, start, &[Scalar::Word(*number)])
        }
        CValue::Pointer(_, at) => put(store, address, start, &[Scalar::Address(*at)]),
        CValue::Struct(copied) => put(store, address, start, copied.slots.as_slice()),
    }
}

/// How many slots of the cell at an address are written; None where there is no cell of slots.
fn written_length<S: Store>(store: &S, address: u64) -> Option<u32>
    ensures { result ≡ length_written (cell_at (S.stored store.now) address) }
{
    match store.form(address) {
        None | Some(Form::Words) | Some(Form::Answers) => None,
        Some(Form::Slots) => store.len(address),
    }
}

/// Why nothing is written behind an address where its struct has no such member.
fn memberless<S: Store>(store: &S, address: u64) -> Why
    ensures { (v : Value) → behind_of (S.stored store.now) address None v ≡ no result }
{
    match store.form(address) {
        None => Why::NoCell,
        Some(_) => Why::KindsDiffer,
    }
}

/// An assignment of a value to a part of the cell at an address. Where it is stuck, nothing has changed.
fn write_part<'a, S: Store>(
    store: &mut S,
    address: u64,
    part: Part<'a>,
    value: CValue<'a>,
) -> Result<(), Why>
    ensures done { OnOk result (behind_of (S.stored store.old) address (Some part.entry) (value_of value.entry) ≡ ok (S.stored store.new)) }
    ensures stuck { IfErr result (λ why. behind_of (S.stored store.old) address (Some part.entry) (value_of value.entry) ≡ no why) }
    ensures kept { OnErr result (S.stored store.new ≡ S.stored store.old) }
{
    let Some(len) = written_length(store, address) else {
        drop(value);
        return Err(Why::NoCell);
    };
    if !has_room(len, part.start, part.kind.size()) {
        drop(value);
        return Err(Why::NoCell);
    }
    let value = give(part.kind, value)?;
    put_value(store, address, part.start, &value);
    drop(value);
    Ok(())
}

/// An assignment of a value to what stands behind an address. Where it is stuck, nothing has changed.
fn write_behind<'a, S: Store>(
    store: &mut S,
    address: u64,
    part: Option<Part<'a>>,
    value: CValue<'a>,
) -> Result<(), Why>
    ensures done { OnOk result (behind_of (S.stored store.old) address part.entry (value_of value.entry) ≡ ok (S.stored store.new)) }
    ensures stuck { IfErr result (λ why. behind_of (S.stored store.old) address part.entry (value_of value.entry) ≡ no why) }
    ensures kept { OnErr result (S.stored store.new ≡ S.stored store.old) }
{
    match part {
        None => {
            drop(value);
            Err(memberless(store, address))
        }
        Some(part) => write_part(store, address, part, value),
    }
}

/// An assignment of a value to a part of a variable. Where it is stuck, nothing has changed.
fn write_local<'a>(
    slots: &mut [Scalar],
    at: usize,
    kind: Kind<'a>,
    value: CValue<'a>,
) -> Result<(), Why>
    requires within { at + size (layout_of kind) ≤ length slots.old }
    ensures done { IfOk result (λ _. (xs : List TheScalar) × (give_scalars (layout_of kind.entry) (value_of value.entry) ≡ ok xs) × (slots.new ≡ overwritten at xs slots.old)) }
    ensures stuck { IfErr result (λ why. give_scalars (layout_of kind.entry) (value_of value.entry) ≡ no why) }
    ensures kept { OnErr result (slots.new ≡ slots.old) }
    ensures many { length slots.new ≡ length slots.old }
{
    let value = give(kind, value)?;
    overwrite_with(slots, at, &value);
    drop(value);
    Ok(())
}

/// An assignment of a value to a place, in a frame of these slots. Where it is stuck, nothing has changed.
pub fn write<'a, S: Store>(
    store: &mut S,
    slots: &mut [Scalar],
    place: Place<'a>,
    value: CValue<'a>,
) -> Result<(), Why>
    requires within { IsWithin (length slots.old) place }
    ensures done { OnOk result (place_of (S.stored store.old) slots.old place.entry (value_of value.entry) ≡ ok (record { slots = slots.new; store = S.stored store.new })) }
    ensures stuck { IfErr result (λ why. place_of (S.stored store.old) slots.old place.entry (value_of value.entry) ≡ no why) }
    ensures kept { OnErr result (S.stored store.new ≡ S.stored store.old) }
    ensures frame_kept { OnErr result (slots.new ≡ slots.old) }
    ensures many { length slots.new ≡ length slots.old }
{
    match place {
        Place::Nowhere => {
            drop(value);
            Err(Why::KindsDiffer)
        }
        Place::Local(at, kind) => write_local(slots, at, kind, value),
        Place::Behind(at, part) => match address_of(scalar_at(slots, at)) {
            Err(why) => {
                drop(value);
                Err(why)
            }
            Ok(address) => write_behind(store, address, part, value),
        },
    }
}
