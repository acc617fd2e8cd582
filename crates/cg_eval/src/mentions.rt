// Mentions of functions, at type arguments.
#![tactic(auto)]

ghost use Rattle.std.specs.Prelude.{◌≡◌, IfOk, map};
ghost use Rattle.cg_base.specs.Types.{type_of};
ghost use Rattle.cg_core.specs.Terms.{arg_of};
ghost use Rattle.cg_kinds.specs.Kinds.{subst as subst_of};
ghost use Rattle.cg_typing.specs.Functions.{arg_types};
ghost use Rattle.cg_value.specs.Values.{function, value_of};

use cg_base::{Fun, Items, Memory, Ty};
use cg_core::TyArg;
use cg_kinds::subst;
use cg_value::Value;
use std::alloc::Global;

// Written types, with the types that stand for their variables.
fn replaced(alloc: Global, args: &Items<TyArg>, types: &Items<Ty>) -> Result<Items<Ty>, Memory>
    ensures { IfOk result (λ ts. map type_of ts ≡ map (subst_of (map type_of types.now)) (arg_types (map arg_of args.now))) }
{
    let mut made = Items::new(alloc);
    for arg in args.as_slice() {
        made.push(subst(alloc, &arg.ty, types)?)?;
    }
    Ok(made)
}

/// A mention of a function at type arguments, where these types stand for the variables of the body.
pub(crate) fn mention(
    alloc: Global,
    fun: Fun,
    args: &Items<TyArg>,
    types: &Items<Ty>,
) -> Result<Value, Memory>
    ensures { IfOk result (λ v. value_of v ≡ function fun (map (subst_of (map type_of types.now)) (arg_types (map arg_of args.now)))) }
{
    Ok(Value::Fun(fun, replaced(alloc, args, types)?))
}
