// What is tested at a node, between its parts.
#![tactic(auto)]

ghost use Rattle.std.specs.Prelude.{◌≡◌, ◌||◌, Bool, cond, not, IfOk, Ok, List, map, false};
ghost use Rattle.std.specs.Option.{option_copied};
ghost use Rattle.cg_base.specs.Types.{type_of};
ghost use Rattle.cg_check_def.specs.Pass as pass;
ghost use Rattle.cg_check_context.specs.View.{Entry, Agrees, entries_of, itself, type_of_known, types_in};
ghost use Rattle.cg_check_pieces.specs.View.{bounds_of, way_of};
ghost use Rattle.cg_check_context.specs.Ended.{ended};
ghost use Rattle.cg_core.specs.Kernels.{function_of};
ghost use Rattle.cg_faults.specs.Plain.{plain_at};
ghost use Rattle.cg_typing.specs.Contexts.{push as push_of, drops as drops_of, shares as shares_of};
ghost use Rattle.cg_check_uses.specs.Uses as tables;

use crate::source::{Known, Source};
use crate::stop::Stop;
use cg_base::{Items, Memory, Place, Ty};
use cg_check_uses::{Use, mark};
use cg_core::Seen;
use cg_faults::Rule;
use cg_kinds::{bang, kinds_of, same};
use std::alloc::Global;

/// T1 where a synthesised type is checked.
#[tactic(auto, using(crate::proofs::TestSteps::test_steps))]
pub fn meet(direction: Option<&Ty>, place: Place, ty: &Ty) -> Result<(), Stop>
    ensures { Agrees itself result (pass.meet (way_of (option_copied direction.entry)) place (type_of ty.now) (Ok tt)) }
{
    match direction {
        None => Ok(()),
        Some(wanted) => {
            if same(wanted, ty) {
                Ok(())
            } else {
                Err(Stop::Rule(Rule::T1, place))
            }
        }
    }
}

/// The type of a variable where it stands; unit, where there is none. Want of memory is its one refusal.
#[tactic(auto, using(crate::proofs::TestSteps::test_steps, crate::proofs::SourceSteps::source_steps))]
pub fn type_at(alloc: Global, context: &Vec<Known>, at: usize) -> Result<Ty, Memory>
    ensures { IfOk result (λ ty. type_of ty ≡ plain_at (types_in (entries_of context.now.items)) at) }
{
    if at >= context.len() {
        return Ok(Ty::Unit);
    }
    let own = context[at].ty.copy(alloc)?;
    if context[at].observed {
        Ok(bang(own))
    } else {
        Ok(own)
    }
}

// Whether a variable may be shared where it stands.
#[tactic(auto, using(crate::proofs::TestSteps::test_steps, crate::proofs::SourceSteps::source_steps))]
fn shares(source: &Source, context: &Vec<Known>, at: usize) -> bool
    ensures { result ≡ shares_of (bounds_of source.now.vars.now) (plain_at (types_in (entries_of context.now.items)) at) }
{
    if at >= context.len() {
        return true;
    }
    context[at].observed || kinds_of(&context[at].ty, source.vars).share
}

// Whether a variable was touched before.
#[tactic(auto, using(crate::proofs::TestSteps::test_steps))]
fn flag_at(before: &Vec<bool>, at: usize) -> bool
    ensures { result ≡ tables.flag_at before.now.items at }
{
    at < before.len() && before[at]
}

/// Whether a variable may be touched, once more or for the first time.
pub fn may_touch(source: &Source, context: &Vec<Known>, before: &Vec<bool>, at: usize) -> bool
    ensures { result ≡ (not (tables.flag_at before.now.items at) || shares_of (bounds_of source.now.vars.now) (plain_at (types_in (entries_of context.now.items)) at)) }
{
    !flag_at(before, at) || shares(source, context, at)
}

/// K4 at each observer.
#[tactic(auto, using(crate::proofs::TestSteps::observer_steps))]
pub fn observe_all(
    source: &Source,
    context: &Vec<Known>,
    before: &Vec<bool>,
    observers: &Items<Seen>,
) -> Result<(), Stop>
    ensures { Agrees itself result (pass.observers_test (map function_of source.now.functions.now) (bounds_of source.now.vars.now) (types_in (entries_of context.now.items)) before.now.items observers.now (Ok tt)) }
{
    for observer in observers.as_slice() {
        if !may_touch(source, context, before, observer.var as usize) {
            return Err(Stop::Rule(Rule::K4, observer.place));
        }
    }
    Ok(())
}

// The flag of a new variable behind those of the others.
#[tactic(auto, using(crate::proofs::TestSteps::test_steps))]
fn push_flag(flags: Vec<bool>) -> Result<Vec<bool>, Memory>
    ensures { IfOk result (λ all. all.items ≡ push_of flags.items false) }
{
    let mut flags = flags;
    flags.push(false)?;
    Ok(flags)
}

// The same of what was made, where there was memory for it.
pub fn with_new(flags: Result<Vec<bool>, Memory>) -> Result<Vec<bool>, Memory>
    ensures { (bs : List Bool) → IfOk flags (λ old. old.items ≡ bs) → IfOk result (λ all. all.items ≡ push_of bs false) }
{
    match flags {
        Ok(flags) => push_flag(flags),
        Err(memory) => Err(memory),
    }
}

/// What was touched before the last part of a binder, whose variable is new. Want of memory is its one refusal.
pub fn inner(alloc: Global, before: &[bool], uses: &[Use]) -> Result<Vec<bool>, Memory>
    ensures { IfOk result (λ flags. flags.items ≡ push_of (tables.mark before.now uses.now) false) }
{
    with_new(mark(alloc, before, uses))
}

/// K3 where a scope ends of a variable that may be dropped or not.
pub fn end_scope(droppable: bool, binder: Place, given: Use) -> Result<(), Stop>
    ensures { Agrees itself result (ended droppable binder given (Ok tt)) }
{
    if droppable {
        return Ok(());
    }
    if !given.used {
        return Err(Stop::Rule(Rule::K3, binder));
    }
    match given.bad {
        Some(place) => Err(Stop::Rule(Rule::K3, place)),
        None => Ok(()),
    }
}

// Whether a variable may be dropped where it stands.
#[tactic(auto, using(crate::proofs::TestSteps::test_steps))]
fn drops(source: &Source, known: &Known) -> bool
    ensures { result ≡ drops_of (bounds_of source.now.vars.now) (type_of_known known.now) }
{
    known.observed || kinds_of(&known.ty, source.vars).drop
}

// Whether a variable may be treated so by two branches: both use it, or neither does, or it may be dropped. Kinds, which cost the size of
// the type, are asked for last.
fn may_differ(source: &Source, known: &Known, u: Use, v: Use) -> bool
    ensures { result ≡ (drops_of (bounds_of source.now.vars.now) (type_of_known known.now) || cond u.used v.used (not v.used)) }
{
    u.used == v.used || drops(source, known)
}

// Which of two branches doesn't use a variable that the first does this with.
fn unused_in(first: Place, second: Place, u: Use) -> Place
    ensures { result ≡ cond u.used second first }
{
    if u.used { second } else { first }
}

/// K5 behind branches, which do this with each variable.
#[tactic(auto, using(crate::proofs::TestSteps::branch_steps))]
pub fn branches(
    source: &Source,
    context: &Vec<Known>,
    first: Place,
    second: Place,
    us: &[Use],
    vs: &[Use],
) -> Result<(), Stop>
    ensures { Agrees itself result (pass.branches_test (map function_of source.now.functions.now) (bounds_of source.now.vars.now) first second (types_in (entries_of context.now.items)) us.now vs.now (Ok tt)) }
{
    let count = context.len().min(us.len()).min(vs.len());
    for i in 0..count {
        if !may_differ(source, &context[i], us[i], vs[i]) {
            return Err(Stop::Rule(Rule::K5, unused_in(first, second, us[i])));
        }
    }
    Ok(())
}
