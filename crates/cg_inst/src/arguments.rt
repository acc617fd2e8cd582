// Type arguments in a table of types.
ghost use Rattle.std.specs.Prelude.{◌≡◌, ◌<◌, length, map, slice_get, IfOk, Some};
ghost use Rattle.cg_core.specs.Terms.{arg_of};
ghost use Rattle.cg_kinds.specs.Kinds.{subst};
ghost use Rattle.cg_inst_types.specs.Layers.{types_at};
ghost use Rattle.cg_inst_types.specs.Listings.{listing};
ghost use Rattle.cg_inst_types.specs.Places.{Each, Keeps};
ghost use Rattle.cg_typing.specs.Functions.{arg_types};

use cg_base::{Items, Memory};
use cg_core::TyArg;
use cg_inst_types::{TypeId, TypeTable};
use std::alloc::Global;

/// The place of written type arguments as one list, with the types at these places for their type variables. Want of memory is its one
/// refusal.
pub(crate) fn enter_types(
    alloc: Global,
    table: &mut TypeTable,
    args: &Items<TyArg>,
    types: &[TypeId],
) -> Result<TypeId, Memory>
    requires { Each (λ at. at < length table.old) types.now }
    ensures place { IfOk result (λ at. slice_get table.new at ≡ Some (listing (map (subst (types_at table.old types.now)) (arg_types (map arg_of args.now))))) }
    ensures kept { Keeps table.old table.new }
{
    let items = args.as_slice();
    let mut list = table.enter_none(alloc)?;
    for i in (0..items.len()).rev() {
        let ty = table.enter(alloc, &items[i].ty, types)?;
        list = table.enter_more(list, ty)?;
    }
    Ok(list)
}
