// How copies are made.
#![tactic(auto, using(crate::proofs::Entries::entry_steps))]

ghost use Rattle.std.specs.Prelude.{◌≡◌, None, Some, map, slice_get, IfOk, MatchOption};
ghost use Rattle.std.specs.Option.{option_map};
ghost use Rattle.cg_base.specs.Types.{type_of};
ghost use Rattle.cg_core.specs.Kernels.{function_of, the_core};
ghost use Rattle.cg_inst.specs.Judged.{core_in, functions_in};
ghost use Rattle.cg_inst.specs.Lists.{core_of};
ghost use Rattle.cg_inst.specs.Views.{instance_of};
ghost use Rattle.cg_inst_laws.specs.Laws.{entry_of};
ghost use Rattle.cg_kinds.specs.Kinds.{or_unit};
ghost use Rattle.cg_mono.specs.Copies.{copy_of, core_by};
ghost use Rattle.cg_mono.specs.Monos.{copies_in};
ghost use Rattle.cg_typing.specs.Functions.{fun_type};
ghost use Rattle.cg_typing.specs.Instances.{as_arguments};
ghost use Rattle.cg_typing.specs.Kept.{maybe_core};
ghost use Rattle.cg_typing.specs.Subst.{subst_core};

use crate::copies::{Body, Copy, Mono};
use crate::cores::specialise;
use cg_base::{Fun, Items, Memory, Ty};
use cg_core::{KFun, Term, Typed};
use cg_inst::{Instance, Instances};
use cg_kinds::subst;
use cg_mono_closed::is_closed;
use cg_typing::Checked;
use cg_typing_parts::library_type;
use std::alloc::Global;

// The function at a position, if there is one.
fn declared<'a>(checked: &'a Checked, at: u32) -> Option<&'a KFun>
    ensures { MatchOption result (slice_get (functions_in checked.now) at ≡ None) (λ f. slice_get (functions_in checked.now) at ≡ Some (function_of f.now)) }
{
    checked.kernel().funs.get(at as usize)
}

// The type of an instance: that of its function, with its types for the type variables.
fn type_at(alloc: Global, checked: &Checked, instance: &Instance) -> Result<Ty, Memory>
    ensures { IfOk result (λ t. type_of t ≡ or_unit (fun_type (functions_in checked.now) (instance_of instance.now).fun (as_arguments (instance_of instance.now).types))) }
{
    match instance.fun {
        Fun::User(at) => match declared(checked, at) {
            Some(function) => subst(alloc, &function.ty.ty, &instance.args),
            None => Ok(Ty::Unit),
        },
        Fun::Lib(lib) => library_type(alloc, lib, &instance.args),
    }
}

// A core with these types for its type variables: itself, where none stands in it.
#[tactic(auto, using(cg_mono_closed::proofs::Staying::closed_cores_stay))]
fn body<'a>(alloc: Global, core: &'a Term<Typed>, types: &Items<Ty>) -> Result<Body<'a>, Memory>
    ensures { IfOk result (λ b. the_core (core_by b) ≡ subst_core (map type_of types.now) (the_core core.now)) }
{
    if is_closed(alloc, core)? {
        return Ok(Body::Source(core));
    }
    match specialise(alloc, core, types) {
        Ok(core) => Ok(Body::Own(core)),
        Err(wanting) => Err(wanting),
    }
}

// The body of an instance, where it has one.
fn body_at<'a>(
    alloc: Global,
    checked: &'a Checked,
    instance: &Instance,
) -> Result<Option<Body<'a>>, Memory>
    ensures { IfOk result (λ b. maybe_core (option_map core_by b)
        ≡ option_map (subst_core (instance_of instance.now).types) (core_of (core_in checked.now) (instance_of instance.now).fun)) }
{
    match instance.fun {
        Fun::User(at) => match checked.core(at) {
            Some(core) => Ok(Some(body(alloc, core, &instance.args)?)),
            None => Ok(None),
        },
        Fun::Lib(_) => Ok(None),
    }
}

// An instance with its type and its body.
fn with_instance<'a>(
    alloc: Global,
    instance: &Instance,
    ty: Ty,
    body: Option<Body<'a>>,
) -> Result<Copy<'a>, Memory>
    ensures same { IfOk result (λ copy. instance_of copy.instance ≡ instance_of instance.now) }
    ensures is { IfOk result (λ copy. (copy.ty ≡ ty) × (copy.body ≡ body.entry)) }
{
    match instance.copy(alloc) {
        Ok(instance) => Ok(Copy { instance, ty, body }),
        Err(wanting) => {
            drop(body);
            drop(ty);
            Err(wanting)
        }
    }
}

// The copy of an instance.
fn copy_at<'a>(alloc: Global, checked: &'a Checked, instance: &Instance) -> Result<Copy<'a>, Memory>
    ensures same { IfOk result (λ copy. instance_of copy.instance ≡ instance_of instance.now) }
    ensures is { IfOk result (λ copy. copy_of copy ≡ entry_of (functions_in checked.now) (core_in checked.now) (instance_of instance.now)) }
{
    let ty = type_at(alloc, checked, instance)?;
    match body_at(alloc, checked, instance) {
        Ok(body) => with_instance(alloc, instance, ty, body),
        Err(wanting) => {
            drop(ty);
            Err(wanting)
        }
    }
}

/// The copies of the instances of a list, over a checked source (docs/LANGUAGE.md, "Instances"). Want of memory is its one refusal.
pub fn mono<'a>(alloc: Global, checked: &'a Checked, list: &Instances) -> Result<Mono<'a>, Memory>
    ensures instances { IfOk result (λ m. map (λ c. instance_of c.instance) (copies_in m) ≡ list.now) }
    ensures entries { IfOk result (λ m. map copy_of (copies_in m) ≡ map (entry_of (functions_in checked.now) (core_in checked.now)) (list.now)) }
{
    let mut copies = Vec::new(alloc);
    let instances = list.as_slice();
    for instance in instances {
        match copy_at(alloc, checked, instance) {
            Ok(copy) => copies.push(copy)?,
            Err(wanting) => {
                drop(copies);
                return Err(wanting);
            }
        }
    }
    Ok(Mono { copies })
}
