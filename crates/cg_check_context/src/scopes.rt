// Where scopes begin and end.
#![tactic(auto)]

ghost use Rattle.std.specs.Prelude.{◌≡◌, IfOk, Ok, map, false};
ghost use Rattle.cg_base.specs.Types.{type_of};
ghost use Rattle.cg_core.specs.Kernels.{function_of};
ghost use Rattle.cg_faults.specs.declared.rule.Rule.TheVariants.{K2};
ghost use Rattle.cg_kinds.specs.Kinds.{kinds as kinds_of_type};
ghost use Rattle.cg_check_def.specs.Pass as pass;
ghost use Rattle.cg_check_context.specs.View.{Agrees, itself};
ghost use Rattle.cg_check_pieces.specs.View.{bounds_of};
ghost use Rattle.cg_typing.specs.Contexts.{push as push_of, drops as drops_of};
ghost use Rattle.cg_check_uses.specs.Uses as tables;

use crate::source::Source;
use crate::stop::Stop;
use crate::tests::{end_scope, inner, with_new};
use cg_base::{Memory, Place, Ty};
use cg_check_uses::{NO_USE, Use, mark_but};
use cg_faults::Rule;
use cg_kinds::kinds_of;
use std::alloc::Global;

/// What is done with the last variable; nothing, where there is none.
#[tactic(auto, using(crate::proofs::ScopeSteps::scope_steps))]
pub fn last_use(uses: &[Use]) -> Use
    ensures { result ≡ tables.last uses.now }
{
    if uses.is_empty() {
        NO_USE
    } else {
        uses[uses.len() - 1]
    }
}

/// What is done with the one before the last; nothing, where there is none.
#[tactic(auto, using(crate::proofs::ScopeSteps::scope_steps))]
pub fn use_before_last(uses: &[Use]) -> Use
    ensures { result ≡ tables.last (tables.front uses.now) }
{
    if uses.len() < 2 {
        NO_USE
    } else {
        uses[uses.len() - 2]
    }
}

/// K3 where the scope of a variable of this type ends, of which the scope gave this.
#[inline(never)]
pub fn end(source: &Source, binder: Place, ty: &Ty, given: Use) -> Result<(), Stop>
    ensures { Agrees itself result (pass.leave (map function_of source.now.functions.now) (bounds_of source.now.vars.now) binder (type_of ty.now) given (Ok tt)) }
{
    end_scope(kinds_of(ty, source.vars).drop, binder, given)
}

/// K2: whether a value may leave a `let!`.
#[inline(never)]
pub fn escape(source: &Source, place: Place, ty: &Ty) -> Result<(), Stop>
    ensures { Agrees itself result (pass.need K2 place (kinds_of_type (bounds_of source.now.vars.now) (type_of ty.now)).escape (Ok tt)) }
{
    if kinds_of(ty, source.vars).escape {
        Ok(())
    } else {
        Err(Stop::Rule(Rule::K2, place))
    }
}

/// What was touched before the last part of a `let!`, whose variable is new. Want of memory is its one refusal.
#[inline(never)]
pub fn inner_seen(
    alloc: Global,
    seen: &[Option<Place>],
    before: &[bool],
    uses: &[Use],
) -> Result<Vec<bool>, Memory>
    ensures { IfOk result (λ flags. flags.items ≡ push_of (tables.mark_but seen.now before.now uses.now) false) }
{
    with_new(mark_but(alloc, seen, before, uses))
}

/// What was touched before the last part of a take, whose variables are new. Want of memory is its one refusal.
#[inline(never)]
pub fn inner_two(alloc: Global, before: &[bool], uses: &[Use]) -> Result<Vec<bool>, Memory>
    ensures { IfOk result (λ flags. flags.items ≡ push_of (push_of (tables.mark before.now uses.now) false) false) }
{
    with_new(inner(alloc, before, uses))
}

/// All but the last.
#[tactic(auto, using(crate::proofs::ScopeSteps::scope_steps))]
pub fn but_last(uses: &[Use]) -> &[Use]
    ensures { result.now ≡ tables.front uses.now }
{
    match uses.split_last() {
        Some((_, front)) => front,
        None => uses,
    }
}
