// Where instances and types stand in lists.
#![tactic(auto, using(crate::proofs::InstanceSteps::instance_steps, crate::proofs::ArrowSteps::arrow_steps))]

ghost use Rattle.std.specs.Prelude.{◌≡◌, ◌++◌, [], ◌∷◌, IfOk, OnErr, OnOk, map, unwrap_or};
ghost use Rattle.cg_base.specs.Types.{type_of};
ghost use Rattle.cg_core.specs.Terms.{arg_of};
ghost use Rattle.cg_inst.specs.Views.{instance_of};
ghost use Rattle.cg_lower_def.specs.Lowered.{arrow_number};
ghost use Rattle.cg_typing.specs.Functions.{arg_types};
ghost use Rattle.cg_update.specs.Updates.{place_of};

use cg_base::{Items, Memory, Ty};
use cg_core::TyArg;
use cg_inst::Instance;
use cg_kinds::same;
use std::alloc::Global;

// The types of type arguments.
pub(crate) fn written_types(alloc: Global, args: &Items<TyArg>) -> Result<Items<Ty>, Memory>
    ensures { IfOk result (λ ts. map type_of ts ≡ arg_types (map arg_of args.now)) }
{
    let mut types = Items::new(alloc);
    for arg in args.as_slice() {
        types.push(arg.ty.copy(alloc)?)?;
    }
    Ok(types)
}

// One instance more at the end of a list.
pub(crate) fn put_instance(
    alloc: Global,
    list: &mut Items<Instance>,
    instance: &Instance,
) -> Result<(), Memory>
    ensures ok { OnOk result (map instance_of list.new ≡ map instance_of list.old ++ instance_of instance.now ∷ []) }
    ensures err { OnErr result (map instance_of list.new ≡ map instance_of list.old) }
{
    list.push(instance.copy(alloc)?)
}

// One type more at the end of others.
pub(crate) fn put_type(alloc: Global, types: &mut Items<Ty>, ty: &Ty) -> Result<(), Memory>
    ensures ok { OnOk result (map type_of types.new ≡ map type_of types.old ++ type_of ty.now ∷ []) }
    ensures err { OnErr result (map type_of types.new ≡ map type_of types.old) }
{
    types.push(ty.copy(alloc)?)
}

// Where an instance first stands in a list; 0, where it does not.
pub(crate) fn first_place(list: &[Instance], instance: &Instance) -> usize
    ensures { result ≡ unwrap_or (place_of (instance_of instance.now) (map instance_of list.now)) 0 }
{
    let mut at = 0;
    for other in list {
        if other.same(instance) {
            return at;
        }
        at += 1;
    }
    0
}

// Where a type first stands in a list; past its end, where it does not.
pub(crate) fn first_arrow(arrows: &[Ty], ty: &Ty) -> usize
    ensures { result ≡ arrow_number (map type_of arrows.now) (type_of ty.now) }
{
    let mut at = 0;
    for other in arrows {
        if same(other, ty) {
            return at;
        }
        at += 1;
    }
    at
}
