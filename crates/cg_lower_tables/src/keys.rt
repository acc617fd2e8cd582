// Keys of instances and of types, over a table of types.
#![tactic(auto, using(crate::proofs::KeySteps::key_steps))]

ghost use Rattle.std.specs.Prelude.{◌≡◌, IfOk, map};
ghost use Rattle.cg_base.specs.Types.{type_of};
ghost use Rattle.cg_inst.specs.Views.{instance_of};
ghost use Rattle.cg_inst_types.specs.Places.{Keeps};
ghost use Rattle.cg_lower_tables.specs.Hints.{IsKeyOf, IsPlaceOf};

use cg_base::{Fun, Memory, Ty};
use cg_inst::Instance;
use cg_inst_types::TypeTable;
use std::alloc::Global;

// A function, and the place of a list of types.
#[derive(Clone, Copy, PartialEq, Eq, Hash)]
pub(crate) struct Key {
    pub(crate) fun: Fun,
    pub(crate) types: u32,
}

// The key of a type.
pub(crate) fn place_in(alloc: Global, table: &mut TypeTable, ty: &Ty) -> Result<u32, Memory>
    ensures place { IfOk result (λ at. IsPlaceOf table.new at (type_of ty.now)) }
    ensures kept { Keeps table.old table.new }
{
    table.enter(alloc, ty, &[])
}

// The key of an instance.
pub(crate) fn key_of(
    alloc: Global,
    table: &mut TypeTable,
    instance: &Instance,
) -> Result<Key, Memory>
    ensures key { IfOk result (λ key. IsKeyOf table.new key (instance_of instance.now)) }
    ensures kept { Keeps table.old table.new }
{
    let items = instance.args.as_slice();
    let mut list = table.enter_none(alloc)?;
    for i in (0..items.len()).rev() {
        let ty = place_in(alloc, table, &items[i])?;
        list = table.enter_more(list, ty)?;
    }
    Ok(Key {
        fun: instance.fun,
        types: list,
    })
}
