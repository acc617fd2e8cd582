// Instances and arrow types that come.
#![tactic(auto, using(crate::proofs::HintSteps::hint_steps))]

ghost use Rattle.std.specs.Prelude.{◌≡◌, ◌≤◌, ◌++◌, [], ◌∷◌, length, map, nat_eq, OnErr, OnOk};
ghost use Rattle.cg_base.specs.Types.{type_of};
ghost use Rattle.cg_lower_tables.specs.Found.{with_arrow};
ghost use Rattle.cg_lower_tables.specs.Hints.{AreHints, hint_of, IsKeyOf, IsPlaceOf, same_key};
ghost use Rattle.cg_inst.specs.Views.{instance_of};
ghost use Rattle.cg_inst_types.specs.Places.{Keeps};

use crate::hints::{arrows_more, list_more};
use crate::keys::{Key, key_of, place_in};
use cg_base::{Items, Memory, Ty};
use cg_inst::Instance;
use cg_inst_types::TypeTable;
use indexmap::IndexMap;
use std::alloc::Global;

// One instance more at the end of a list, with its types in a table.
pub(crate) fn add_instance(
    alloc: Global,
    table: &mut TypeTable,
    list: &mut Items<Instance>,
    places: &mut IndexMap<Key, u32>,
    instance: &Instance,
) -> Result<(), Memory>
    requires { AreHints (IsKeyOf table.old) (hint_of same_key places.old.entries) (map instance_of list.old) }
    ensures ok { OnOk result (map instance_of list.new ≡ map instance_of list.old ++ instance_of instance.now ∷ []) }
    ensures err { OnErr result (map instance_of list.new ≡ map instance_of list.old) }
    ensures few { length (map instance_of list.old) ≤ 4294967296 → length (map instance_of list.new) ≤ 4294967296 }
    ensures kept { Keeps table.old table.new }
    ensures hints { AreHints (IsKeyOf table.new) (hint_of same_key places.new.entries) (map instance_of list.new) }
{
    let key = key_of(alloc, table, instance)?;
    list_more(alloc, list, places, key, instance)
}

// One type more at the end of others, if it isn't among them, and in a table.
pub(crate) fn add_type(
    alloc: Global,
    table: &mut TypeTable,
    arrows: &mut Items<Ty>,
    numbers: &mut IndexMap<u32, u32>,
    ty: &Ty,
) -> Result<(), Memory>
    requires { AreHints (IsPlaceOf table.old) (hint_of nat_eq numbers.old.entries) (map type_of arrows.old) }
    ensures ok { OnOk result (map type_of arrows.new ≡ with_arrow (map type_of arrows.old) (type_of ty.now)) }
    ensures err { OnErr result (map type_of arrows.new ≡ map type_of arrows.old) }
    ensures few { length (map type_of arrows.old) ≤ 4294967296 → length (map type_of arrows.new) ≤ 4294967296 }
    ensures kept { Keeps table.old table.new }
    ensures hints { AreHints (IsPlaceOf table.new) (hint_of nat_eq numbers.new.entries) (map type_of arrows.new) }
{
    let key = place_in(alloc, table, ty)?;
    table.stands_once();
    arrows_more(alloc, arrows, numbers, key, ty)
}
