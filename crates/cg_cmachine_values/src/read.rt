// What stands at places.
#![tactic(auto, using(crate::proofs::Reading::reading_steps))]

ghost use Rattle.std.specs.Prelude.{◌≡◌, ◌+◌, ◌≤◌, ◌^◌, ◌||◌, [], ◌∷◌, take, drop, length, map, nat_eq, nat_le, IfOk};
ghost use Rattle.cg_cmachine_layout.specs.Kinds.{layout_of, shape_layout};
ghost use Rattle.cg_cmachine_def.specs.Layouts.{cell, pointer, size};
ghost use Rattle.cg_cmachine_def.specs.Operands.{address_at, number_at, only, read as read_scalars};
ghost use Rattle.cg_cmachine_values.specs.Values.{AreWithin, Gives, IsOperandWithin, IsWithin, Tries, judged, judged_all, length_read, read_behind as behind_of, read_place as place_of, slots_from, struct_behind, value_of};
ghost use Rattle.cg_heap.specs.Readings.{held_scalars};
ghost use Rattle.cg_heap.specs.Stored.{cell_at};

use crate::copied::Copied;
use crate::words::fits;
use crate::{CValue, Operand, Place, RunFault};
use cg_base::{Name, Word};
use cg_cmachine_layout::{Kind, Part, Shape};
use cg_ctree::Why;
use cg_heap::{Form, Scalar, Store};
use std::alloc::{AllocError, Global};

/// A slot of a frame; unset where there is none.
pub(crate) fn scalar_at(slots: &[Scalar], at: usize) -> Scalar
    ensures { result ≡ only (drop at slots.now) }
{
    match slots.get(at) {
        Some(scalar) => *scalar,
        None => Scalar::Unset,
    }
}

/// The address that a scalar is.
pub(crate) fn address_of(scalar: Scalar) -> Result<u64, Why>
    ensures { Gives (λ n. n) (address_at scalar) result }
{
    match scalar {
        Scalar::Unset => Err(Why::Unset),
        Scalar::Word(_) => Err(Why::KindsDiffer),
        Scalar::Address(address) => Ok(address),
    }
}

/// The number of a word that a scalar is.
fn number_of(word: Word, scalar: Scalar) -> Result<u64, Why>
    ensures { Gives (λ n. n) (number_at word scalar) result }
{
    match scalar {
        Scalar::Unset => Err(Why::Unset),
        Scalar::Word(number) if fits(word, number) => Ok(number),
        _ => Err(Why::KindsDiffer),
    }
}

/// A scalar as a value of a word.
fn word_value<'a>(word: Word, scalar: Scalar) -> Result<CValue<'a>, RunFault>
    ensures { Tries value_of (read_scalars (cell word) (scalar ∷ [])) result }
{
    match number_of(word, scalar) {
        Ok(number) => Ok(CValue::Word(word, number)),
        Err(why) => Err(RunFault::Stuck(why)),
    }
}

/// A scalar as a value of a pointer to a struct.
fn pointer_value<'a>(name: &'a Name, scalar: Scalar) -> Result<CValue<'a>, RunFault>
    ensures { Tries value_of (read_scalars (pointer name.now) (scalar ∷ [])) result }
{
    match address_of(scalar) {
        Ok(address) => Ok(CValue::Pointer(name.bytes(), address)),
        Err(why) => Err(RunFault::Stuck(why)),
    }
}

/// What stands in a part of a variable.
pub fn read_local<'a>(
    alloc: Global,
    slots: &[Scalar],
    at: usize,
    kind: Kind<'a>,
) -> Result<CValue<'a>, RunFault>
    requires within { at + size (layout_of kind) ≤ length slots.now }
    ensures { Tries value_of (read_scalars (layout_of kind.entry) (slots_from at (layout_of kind.entry) slots.now)) result }
{
    match kind {
        Kind::Word(word) => word_value(word, scalar_at(slots, at)),
        Kind::Pointer(name) => pointer_value(name, scalar_at(slots, at)),
        Kind::Struct(shape) => {
            let end = at + shape.size() as usize;
            let copy = slots[at..end].to_vec(alloc)?;
            Ok(CValue::Struct(Copied { shape, slots: copy }))
        }
    }
}

/// How many slots or elements the cell at an address has; None where there is no cell, or a list of answers.
fn read_length<S: Store>(store: &S, address: u64) -> Option<u32>
    ensures { result ≡ length_read (cell_at (S.stored store.now) address) }
{
    match store.form(address) {
        None | Some(Form::Answers) => None,
        Some(Form::Slots) | Some(Form::Words) => store.len(address),
    }
}

/// Whether a part of so many slots from one on stands in a cell of this length; a part without slots stands in every cell.
pub fn has_room(len: u32, start: u32, size: u32) -> bool
    ensures { result ≡ (nat_eq size 0 || nat_le (start + size) len) }
{
    size == 0 || (start <= len && size <= len - start)
}

/// So many slots of a cell, from one on.
fn copy_slots<S: Store>(
    alloc: Global,
    store: &S,
    address: u64,
    start: u32,
    count: u32,
) -> Result<Vec<Scalar>, AllocError>
    requires small { start + count ≤ 2 ^ 32 }
    ensures { IfOk result (λ slots. slots.items ≡ take count (drop start (held_scalars (cell_at (S.stored store.now) address)))) }
{
    let mut slots = Vec::new(alloc);
    for offset in 0..count {
        if let Some(scalar) = store.get(address, start + offset) {
            slots.push(scalar)?;
        }
    }
    Ok(slots)
}

/// The slots of a struct that stands in a cell.
fn copy_behind<'a, S: Store>(
    alloc: Global,
    store: &S,
    address: u64,
    start: u32,
    shape: Shape<'a>,
) -> Result<CValue<'a>, RunFault>
    ensures { Tries value_of (struct_behind (S.stored store.now) address start (shape_layout shape.entry)) result }
{
    let Some(len) = read_length(store, address) else {
        return Err(RunFault::Stuck(Why::NoCell));
    };
    if !has_room(len, start, shape.size()) {
        return Err(RunFault::Stuck(Why::NoCell));
    }
    let slots = copy_slots(alloc, store, address, start, shape.size())?;
    Ok(CValue::Struct(Copied { shape, slots }))
}

/// What stands behind an address.
fn read_behind<'a, S: Store>(
    alloc: Global,
    store: &S,
    address: u64,
    part: Option<Part<'a>>,
) -> Result<CValue<'a>, RunFault>
    ensures { Tries value_of (behind_of (S.stored store.now) address part.entry) result }
{
    let Some(part) = part else {
        return match store.form(address) {
            None => Err(RunFault::Stuck(Why::NoCell)),
            Some(_) => Err(RunFault::Stuck(Why::KindsDiffer)),
        };
    };
    match part.kind {
        Kind::Struct(shape) => copy_behind(alloc, store, address, part.start, shape),
        Kind::Word(word) => match store.get(address, part.start) {
            None => Err(RunFault::Stuck(Why::NoCell)),
            Some(scalar) => word_value(word, scalar),
        },
        Kind::Pointer(name) => match store.get(address, part.start) {
            None => Err(RunFault::Stuck(Why::NoCell)),
            Some(scalar) => pointer_value(name, scalar),
        },
    }
}

/// What stands at a place, in a frame of these slots.
fn read_place<'a, S: Store>(
    alloc: Global,
    store: &S,
    slots: &[Scalar],
    place: Place<'a>,
) -> Result<CValue<'a>, RunFault>
    requires within { IsWithin (length slots.now) place }
    ensures { Tries value_of (place_of (S.stored store.now) slots.now place.entry) result }
{
    match place {
        Place::Nowhere => Err(RunFault::Stuck(Why::KindsDiffer)),
        Place::Local(at, kind) => read_local(alloc, slots, at, kind),
        Place::Behind(at, part) => match address_of(scalar_at(slots, at)) {
            Err(why) => Err(RunFault::Stuck(why)),
            Ok(address) => read_behind(alloc, store, address, part),
        },
    }
}

/// An operand.
pub fn judge<'a, S: Store>(
    alloc: Global,
    store: &S,
    slots: &[Scalar],
    operand: &Operand<'a>,
) -> Result<CValue<'a>, RunFault>
    requires within { IsOperandWithin (length slots.now) operand.now }
    ensures { Tries value_of (judged (S.stored store.now) slots.now operand.now) result }
{
    match operand {
        Operand::Number(number) => Ok(CValue::Literal(*number)),
        Operand::Place(place) => read_place(alloc, store, slots, *place),
    }
}

/// Operands, from left to right.
pub fn judge_all<'a, S: Store>(
    alloc: Global,
    store: &S,
    slots: &[Scalar],
    operands: &[Operand<'a>],
) -> Result<Vec<CValue<'a>>, RunFault>
    requires within { AreWithin (length slots.now) operands.now }
    ensures { Tries (λ vs. map value_of vs.items) (judged_all (S.stored store.now) slots.now operands.now) result }
{
    let mut values = Vec::new(alloc);
    for operand in operands {
        values.push(judge(alloc, store, slots, operand)?)?;
    }
    Ok(values)
}
