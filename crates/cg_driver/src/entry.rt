// What `run` asks of its entry, by the functions of the source and by its instances.
ghost use Rattle.std.specs.Prelude.{◌≡◌, ◌≤◌, IfOk, IsSomeAnd, Some, length, map, position, bytes_eq, slice_get};
ghost use Rattle.cg_base.specs.Types.{Tau, arrow, type_of};
ghost use Rattle.cg_core.specs.Kernels.{function_of};
ghost use Rattle.cg_driver_steps.specs.Parts.{Steps};
ghost use Rattle.cg_driver.specs.Built.{IsListed};
ghost use Rattle.cg_driver.specs.Entered.{entry_type, instance_at, is_entry};
ghost use Rattle.cg_driver.specs.Judged.{functions_in, IsAllowed, IsAllowedAt, IsEntry, RefusesEntry, RefusesFunction};

use cg_base::{Fun, Items, Memory, Ty};
use cg_core::KFun;
use cg_driver_entry::{is_first_order, reaches_abstract};
use cg_driver_laws::functions_stand;
use cg_driver_lines::{abstract_reached, no_entry, no_entry_type};
use cg_driver_steps::Step;
use cg_inst::{Instance, Instances};
use cg_typing::Checked;
use std::alloc::Global;

/// The position of the first function of a name.
fn find(functions: &[KFun], name: &str) -> Option<usize>
    ensures { result ≡ position (λ f. bytes_eq f.at.name name.now) functions.now }
{
    functions
        .iter()
        .position(|function| function.at.name.bytes() == name.as_bytes())
}

/// Whether the type of a function is allowed for an entry.
fn has_entry_type(function: &KFun) -> bool
    ensures { result ≡ is_entry (Some (function_of function.now)) }
{
    function.vars.as_slice().is_empty() && is_first_order(&function.ty.ty)
}

/// Whether there is a function at a position, whose type is allowed.
fn is_typed(functions: &[KFun], at: u32) -> bool
    ensures { result ≡ is_entry (slice_get (map function_of functions.now) at) }
{
    match functions.get(at as usize) {
        Some(function) => has_entry_type(function),
        None => false,
    }
}

/// Whether a function is allowed for an entry.
fn allowed(alloc: Global, file: &str, checked: &Checked, at: u32) -> Result<Step<u32>, Memory>
    ensures { IfOk result (Steps (IsAllowedAt (functions_in checked.now) at) (RefusesFunction file.now (functions_in checked.now) at)) }
{
    if !is_typed(checked.kernel().funs.as_slice(), at) {
        return Ok(Step::Ends(no_entry_type(alloc, file)?));
    }
    if reaches_abstract(alloc, checked, at)? {
        return Ok(Step::Ends(abstract_reached(alloc, file)?));
    }
    Ok(Step::Goes(at))
}

/// The entry of a source.
pub(crate) fn entry_of(
    alloc: Global,
    file: &str,
    entry: &str,
    checked: &Checked,
) -> Result<Step<u32>, Memory>
    requires few { length (functions_in checked.now) ≤ 4096 }
    ensures { IfOk result (Steps (IsEntry entry.now (functions_in checked.now)) (RefusesEntry file.now entry.now (functions_in checked.now))) }
{
    match find(checked.kernel().funs.as_slice(), entry) {
        None => Ok(Step::Ends(no_entry(alloc, file)?)),
        Some(at) => allowed(alloc, file, checked, at as u32),
    }
}

/// What a function of an arrow type takes and gives.
fn arrow_types(ty: &Ty) -> Option<(&Ty, &Ty)>
    ensures { (a b : Tau) → type_of ty.now ≡ arrow a b → IsSomeAnd result (λ r. (type_of r.0.now ≡ a) × (type_of r.1.now ≡ b)) }
{
    match ty {
        Ty::Arrow(takes, gives) => Some((takes, gives)),
        _ => None,
    }
}

/// What an entry takes and gives.
pub(crate) fn entry_types(functions: &[KFun], at: u32) -> Option<(&Ty, &Ty)>
    ensures { (a b : Tau) → entry_type (slice_get (map function_of functions.now) at) ≡ arrow a b
        → IsSomeAnd result (λ r. (type_of r.0.now ≡ a) × (type_of r.1.now ≡ b)) }
{
    match functions.get(at as usize) {
        Some(function) => arrow_types(&function.ty.ty),
        None => None,
    }
}

/// The place of the instance of an entry.
pub(crate) fn instance_place(alloc: Global, checked: &Checked, list: &Instances, at: u32) -> u32
    requires list { IsListed checked.now list.now }
    requires there { IsAllowed (functions_in checked.now) at }
    ensures { slice_get list.now result ≡ Some (instance_at at) }
{
    functions_stand();
    let instance = Instance {
        fun: Fun::User(at),
        args: Items::new(alloc),
    };
    match list.find(&instance) {
        Some(place) => place,
        None => unreachable!(),
    }
}
