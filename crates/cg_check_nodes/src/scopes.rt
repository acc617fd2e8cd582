// Where scopes begin behind a part and end.
ghost use Rattle.std.specs.Prelude.{◌≡◌, IfOk, Ok, false, map};
ghost use Rattle.cg_base.specs.Types.{type_of};
ghost use Rattle.cg_check_def.specs.Pass.{need as need_by};
ghost use Rattle.cg_check_context.specs.View.{Agrees, entries_of, fresh};
ghost use Rattle.cg_core.specs.Kernels.{function_of};
ghost use Rattle.cg_faults.specs.declared.rule.Rule.TheVariants.{K2};
ghost use Rattle.cg_kinds.specs.Kinds.{kinds as kinds_by};
ghost use Rattle.cg_check_nodes.specs.Gots.{got_of};
ghost use Rattle.cg_check_nodes.specs.Scopes.{flags_in, scope_end as scope_end_of, taken_end as taken_end_of};
ghost use Rattle.cg_check_pieces.specs.View.{bounds_of};
ghost use Rattle.cg_typing.specs.Contexts.{push as push_of};
ghost use Rattle.cg_check_uses.specs.Uses as tables;

use crate::got::Got;
use cg_base::{Items, Memory, Place, Ty};
use cg_check_context::{
    Known, Source, Stop, end, enter, escape, inner_seen, last_use, use_before_last,
};
use cg_check_pieces::copied;
use cg_check_uses::seen_places;
use cg_core::Seen;
use std::alloc::Global;

/// What was touched before the last part of a `let!`, whose first part may leave it (K2).
#[inline(never)]
pub fn behind_observed(
    source: &Source,
    count: usize,
    observers: &Items<Seen>,
    before: &[bool],
    place: Place,
    first: &Got,
) -> Result<Vec<bool>, Stop>
    ensures { Agrees flags_in result (need_by K2 place (kinds_by (bounds_of source.now.vars.now) (got_of first.now).ty).escape
        (Ok (push_of (tables.mark_but (tables.seen_places count observers.now) before.now (got_of first.now).uses) false))) }
{
    escape(source, place, first.ty())?;
    let seen = seen_places(source.alloc, count, observers)?;
    Ok(inner_seen(source.alloc, &seen, before, &first.uses)?)
}

/// One variable more, of an equal type. Want of memory is its one refusal.
#[inline(never)]
pub fn enter_copy(alloc: Global, context: &mut Vec<Known>, ty: &Ty) -> Result<(), Memory>
    ensures { IfOk result (λ _. entries_of context.new.items ≡ push_of (entries_of context.old.items) (fresh (type_of ty.now))) }
{
    let ty = copied(alloc, ty)?;
    enter(context, Box::into_inner(ty))
}

/// Two variables more, of equal types. Want of memory is its one refusal.
#[inline(never)]
pub fn enter_both(
    alloc: Global,
    context: &mut Vec<Known>,
    first: &Ty,
    second: &Ty,
) -> Result<(), Memory>
    ensures { IfOk result (λ _. entries_of context.new.items ≡ push_of (push_of (entries_of context.old.items) (fresh (type_of first.now))) (fresh (type_of second.now))) }
{
    enter_copy(alloc, context, first)?;
    enter_copy(alloc, context, second)
}

/// What was in the scope of a variable of this type, with K3 at its end.
#[inline(never)]
pub fn end_scoped(source: &Source, binder: Place, ty: &Ty, got: Got) -> Result<Got, Stop>
    ensures { Agrees got_of result (scope_end_of (map function_of source.now.functions.now) (bounds_of source.now.vars.now) binder (type_of ty.now) (got_of got)) }
{
    end(source, binder, ty, last_use(&got.uses))?;
    Ok(got)
}

/// What was in the scope of what is left of a record of this type and of the field that is taken, with K3 at the end of both.
#[inline(never)]
pub fn end_taken(
    source: &Source,
    rest: Place,
    left: &Ty,
    binder: Place,
    held: &Ty,
    got: Got,
) -> Result<Got, Stop>
    ensures { Agrees got_of result (taken_end_of (map function_of source.now.functions.now) (bounds_of source.now.vars.now) rest (type_of left.now) binder (type_of held.now) (got_of got)) }
{
    end(source, rest, left, use_before_last(&got.uses))?;
    end(source, binder, held, last_use(&got.uses))?;
    Ok(got)
}
