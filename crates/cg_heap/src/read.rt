// Values, read out of a store.
#![tactic(auto, unfolding(crate::specs::Readings::value_at, cg_base::specs::Types::to_parts, cg_base::specs::Types::to_taus), using(crate::proofs::ReadSteps::read_steps))]

ghost use Rattle.std.specs.Prelude.{◌≡◌, IsTrue, cond, map, take, IfOk};
ghost use Rattle.cg_base.specs.Types.{part_of, to_parts, to_taus, type_of};
ghost use Rattle.cg_heap.specs.FirstOrder.{is_first_order};
ghost use Rattle.cg_heap.specs.Readings.{abstract_at, alternative_at, held_scalars, value_at, values_at};
ghost use Rattle.cg_heap.specs.Reps as reps;
ghost use Rattle.cg_heap.specs.Reps.{HeapWorld, Holds, number_of, slots};
ghost use Rattle.cg_heap.specs.Stored.{cell_at};
ghost use Rattle.cg_value.specs.Values as values;
ghost use Rattle.cg_value.specs.Values.{Val, to_vals, value_of};

use crate::contents::{answers_in, behind_first, first_address, first_number, numbers, scalars_in};
use crate::part::{behind, front};
use crate::{Scalar, Store};
use cg_base::{Items, Memory, Name, Part, Sigil, Ty};
use cg_value::Value;
use std::alloc::Global;

/// The value that scalars represent in a store, at a type in which no type variable, function and user's abstract type is
/// (docs/LANGUAGE.md, "Layout"). Where they represent none, it is some value. The one error is want of memory.
pub fn read_out<S: Store>(
    alloc: Global,
    store: &S,
    ty: &Ty,
    scalars: &Items<Scalar>,
) -> Result<Value, Memory>
    ensures { (world : HeapWorld) (v : Val) → Holds world (λ q. cell_at (S.stored store.now) q) (type_of ty.now) scalars.now v → IsTrue (is_first_order (type_of ty.now)) → IfOk result (λ x. value_of x ≡ v) }
{
    read(alloc, store, ty, scalars.as_slice())
}

// The value that scalars are read as.
#[cycle(read)]
fn read<S: Store>(alloc: Global, store: &S, ty: &Ty, scalars: &[Scalar]) -> Result<Value, Memory>
    ensures { IfOk result (λ x. value_of x ≡ value_at (λ q. cell_at (S.stored store.now) q) (type_of ty.now) scalars.now) }
{
    match ty {
        Ty::Unit => Ok(Value::Unit),
        Ty::Word(_) | Ty::Bool => Ok(Value::Num(first_number(scalars))),
        Ty::Abs(_, args, _) => read_abstract(alloc, store, args, first_address(scalars)),
        Ty::Variant(alternatives) => read_variant(alloc, store, alternatives.as_slice(), scalars),
        Ty::Fields(parts, Sigil::U) => read_record(alloc, store, parts.as_slice(), scalars),
        Ty::Fields(parts, _) => read_boxed(alloc, store, parts.as_slice(), first_address(scalars)),
        Ty::Var(_) | Ty::Seen(_) | Ty::Arrow(_, _) => Ok(Value::Gone),
    }
}

// The value of an abstract type at an address.
fn read_abstract<S: Store>(
    alloc: Global,
    store: &S,
    args: &Items<Ty>,
    at: u64,
) -> Result<Value, Memory>
    ensures { IfOk result (λ x. value_of x ≡ abstract_at (to_taus (map type_of args.now)) (cell_at (S.stored store.now) at)) }
{
    match args.as_slice() {
        [] => Ok(Value::Answers(answers_in(alloc, store, at)?)),
        [_, ..] => read_elements(alloc, store, at),
    }
}

// The array at an address.
fn read_elements<S: Store>(alloc: Global, store: &S, at: u64) -> Result<Value, Memory>
    ensures { IfOk result (λ x. value_of x ≡ values.elements (map number_of (held_scalars (cell_at (S.stored store.now) at)))) }
{
    let scalars = scalars_in(alloc, store, at)?;
    Ok(Value::Array(numbers(alloc, scalars.as_slice())?))
}

// The value of a variant of these alternatives.
#[cycle(read)]
fn read_variant<S: Store>(
    alloc: Global,
    store: &S,
    alternatives: &[Part],
    scalars: &[Scalar],
) -> Result<Value, Memory>
    ensures { IfOk result (λ x. value_of x ≡ alternative_at (λ q. cell_at (S.stored store.now) q) (to_parts (map part_of alternatives.now)) (reps.first_number scalars.now) (reps.tail scalars.now)) }
{
    let mut rest = behind_first(scalars);
    let mut left = first_number(scalars);
    for alternative in alternatives {
        if left == 0 {
            return read_chosen(alloc, store, alternative, rest);
        }
        left -= 1;
        rest = behind(&alternative.ty, rest);
    }
    Ok(Value::Gone)
}

// The value of a variant that is this alternative.
#[cycle(read)]
fn read_chosen<S: Store>(
    alloc: Global,
    store: &S,
    alternative: &Part,
    scalars: &[Scalar],
) -> Result<Value, Memory>
    ensures { IfOk result (λ x. value_of x ≡ values.chosen alternative.now.name (value_at (λ q. cell_at (S.stored store.now) q) (type_of alternative.now.ty) (take (slots (type_of alternative.now.ty)) scalars.now))) }
{
    let payload = read(
        alloc,
        store,
        &alternative.ty,
        front(&alternative.ty, scalars),
    )?;
    chosen(alloc, &alternative.name, payload)
}

// An alternative with its payload.
fn chosen(alloc: Global, name: &Name, payload: Value) -> Result<Value, Memory>
    ensures { IfOk result (λ x. value_of x ≡ values.chosen name.now (value_of payload)) }
{
    let payload = Box::new(alloc, payload)?;
    Ok(Value::Variant(name.copy(alloc)?, payload))
}

// A boxed record of these fields, at an address.
#[cycle(read)]
fn read_boxed<S: Store>(alloc: Global, store: &S, parts: &[Part], at: u64) -> Result<Value, Memory>
    ensures { IfOk result (λ x. value_of x ≡ values.parts (to_vals (values_at (λ q. cell_at (S.stored store.now) q) (to_parts (map part_of parts.now)) (held_scalars (cell_at (S.stored store.now) at))))) }
{
    let slots = scalars_in(alloc, store, at)?;
    read_record(alloc, store, parts, slots.as_slice())
}

// A record of these fields, which stand one behind the other.
#[cycle(read)]
fn read_record<S: Store>(
    alloc: Global,
    store: &S,
    parts: &[Part],
    scalars: &[Scalar],
) -> Result<Value, Memory>
    ensures { IfOk result (λ x. value_of x ≡ values.parts (to_vals (values_at (λ q. cell_at (S.stored store.now) q) (to_parts (map part_of parts.now)) scalars.now))) }
{
    let mut fields = Items::new(alloc);
    let mut rest = scalars;
    for part in parts {
        fields.push(read_field(alloc, store, part, rest)?)?;
        rest = behind(&part.ty, rest);
    }
    Ok(Value::Fields(fields))
}

// The value of a field: it is gone where this is taken.
#[cycle(read)]
fn read_field<S: Store>(
    alloc: Global,
    store: &S,
    part: &Part,
    scalars: &[Scalar],
) -> Result<Value, Memory>
    ensures { IfOk result (λ x. value_of x ≡ cond part.now.taken values.gone (value_at (λ q. cell_at (S.stored store.now) q) (type_of part.now.ty) (take (slots (type_of part.now.ty)) scalars.now))) }
{
    if part.taken {
        return Ok(Value::Gone);
    }
    read(alloc, store, &part.ty, front(&part.ty, scalars))
}
