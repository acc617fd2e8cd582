// Where a field stands, what a variable stands for, and alternatives.
#![tactic(auto, unfolding(crate::specs::Positions::position, crate::specs::Positions::position_among), using(crate::proofs::PartSteps::part_steps))]

ghost use Rattle.std.specs.Prelude.{◌≡◌, IfOk, map, get_or};
ghost use Rattle.cg_base.specs.Types.{part_of, to_parts, type_of};
ghost use Rattle.cg_eval_operations.specs.Positions as positions;
ghost use Rattle.cg_value.specs.Values.{chosen, gone, value_of};

use cg_base::{Items, Memory, Name, Part, Ty};
use cg_value::Value;
use std::alloc::Global;

// Where the part of this name stands; past the end, where there is none.
fn position_among(name: &Name, parts: &Items<Part>) -> usize
    ensures { result ≡ positions.position_among name.now (to_parts (map part_of parts.now)) }
{
    let mut at = 0;
    for part in parts.as_slice() {
        if name.same(&part.name) {
            return at;
        }
        at += 1;
    }
    at
}

/// Where the field of this name stands in a record type; past its end, where there is none.
pub fn position(name: &Name, ty: &Ty) -> usize
    ensures { result ≡ positions.position name.now (type_of ty.now) }
{
    match ty {
        Ty::Fields(parts, _) => position_among(name, parts),
        _ => 0,
    }
}

/// The value of a variable.
pub fn variable(alloc: Global, values: &Vec<Value>, at: u32) -> Result<Value, Memory>
    ensures { IfOk result (λ v. value_of v ≡ get_or (map value_of values.now.items) at gone) }
{
    if (at as usize) < values.len() {
        values[at as usize].copy(alloc)
    } else {
        Ok(Value::Gone)
    }
}

/// An alternative of this name.
pub fn alternative(alloc: Global, name: &Name, payload: Value) -> Result<Value, Memory>
    ensures { IfOk result (λ v. value_of v ≡ chosen name.now (value_of payload)) }
{
    let payload = Box::new(alloc, payload)?;
    Ok(Value::Variant(name.copy(alloc)?, payload))
}
