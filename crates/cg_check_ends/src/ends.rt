// Forms behind their parts: the tests that are left there, and the node.
ghost use Rattle.std.specs.Prelude.{Ok, map};
ghost use Rattle.std.specs.Option.{option_copied};
ghost use Rattle.cg_base.specs.Types.{type_of};
ghost use Rattle.cg_check_ends.specs.Ends.{both_end, case_end, esac_end, if_end, member_end, one_end, operator_type as operator_type_of, put_end, record_type};
ghost use Rattle.cg_check_def.specs.Pass.{meet as meet_by, need as need_by, test};
ghost use Rattle.cg_check_context.specs.View.{Agrees, entries_of, types_in};
ghost use Rattle.cg_core.specs.Kernels.{function_of};
ghost use Rattle.cg_core.specs.Terms.{arg_of};
ghost use Rattle.cg_faults.specs.declared.rule.Rule.TheVariants.{T11, T12};
ghost use Rattle.cg_faults.specs.Rule.{type_limit};
ghost use Rattle.cg_check_pieces.specs.Boxed.{in_box};
ghost use Rattle.cg_check_nodes.specs.Fields.{fields_of};
ghost use Rattle.cg_check_nodes.specs.Gots.{got_of};
ghost use Rattle.cg_check_nodes.specs.Nodes as forms;
ghost use Rattle.cg_typing_parts.specs.Views.{the_sort};
ghost use Rattle.cg_check_pieces.specs.View.{bounds_of, way_of};
ghost use Rattle.cg_typing.specs.Operators.{takes as takes_by};
ghost use Rattle.cg_typing.specs.Parts.{given_by, is_small_enough as small_by, widens as widens_by};

use cg_base::{Place, Ty};
use cg_check_context::{
    Known, Source, Stop, branches, but_last, last_type, meet, member_type, need,
};
use cg_check_nodes::{
    Fields, Got, annot_node, app_node, boxed_tested, case_node, cast_node, esac_node, if_node,
    member_node, operated, operated_both, put_node, record_node, struct_node,
};
use cg_check_pieces::{boxed, copied, given};
use cg_core::{At, Op, TyArg};
use cg_faults::Rule;
use cg_typing_parts::{Sort, is_small_enough, takes, widens, with_part};
use std::alloc::Global;

/// A part whose type is within the limit.
#[inline(never)]
pub fn small(place: Place, got: Got) -> Result<Got, Stop>
    ensures { Agrees got_of result (test type_limit place (small_by (got_of got).ty) (Ok (got_of got))) }
{
    if is_small_enough(got.ty()) {
        Ok(got)
    } else {
        Err(Stop::Size(place))
    }
}

// A type that is synthesised where it meets the direction (T1).
fn met(alloc: Global, direction: Option<&Ty>, place: Place, ty: &Ty) -> Result<Box<Ty>, Stop>
    ensures { Agrees in_box result (meet_by (way_of (option_copied direction.entry)) place (type_of ty.now) (Ok (type_of ty.now))) }
{
    meet(direction, place, ty)?;
    Ok(copied(alloc, ty)?)
}

// The type of an operator, of which the operand that was checked first has this type.
fn operator_type(
    alloc: Global,
    direction: Option<&Ty>,
    place: Place,
    sort: Sort,
    first: &Ty,
) -> Result<Box<Ty>, Stop>
    ensures { Agrees in_box result (operator_type_of (the_sort sort) (way_of (option_copied direction.entry)) place (type_of first.now)) }
{
    match (sort, direction) {
        (Sort::Arithmetic, Some(wanted)) => Ok(copied(alloc, wanted)?),
        (Sort::Arithmetic, None) => Ok(copied(alloc, first)?),
        _ => met(alloc, direction, place, &Ty::Bool),
    }
}

/// An operator with one operand.
#[inline(never)]
pub fn end_unary(
    alloc: Global,
    direction: Option<&Ty>,
    place: Place,
    op: Op,
    sort: Sort,
    part: Got,
) -> Result<Got, Stop>
    ensures { Agrees got_of result (one_end op (the_sort sort) (way_of (option_copied direction.entry)) place (got_of part)) }
{
    let ty = operator_type(alloc, direction, place, sort, part.ty())?;
    operated(alloc, op, place, ty, part)
}

/// An operator with two operands, of which the left one was checked first.
#[inline(never)]
pub fn end_by_left(
    alloc: Global,
    direction: Option<&Ty>,
    place: Place,
    op: Op,
    sort: Sort,
    left: Got,
    right: Got,
) -> Result<Got, Stop>
    ensures { Agrees got_of result (both_end op (the_sort sort) (way_of (option_copied direction.entry)) place (got_of left).ty (got_of left) (got_of right)) }
{
    let ty = operator_type(alloc, direction, place, sort, left.ty())?;
    operated_both(alloc, op, place, ty, left, right)
}

/// The same where the right one was.
#[inline(never)]
pub fn end_by_right(
    alloc: Global,
    direction: Option<&Ty>,
    place: Place,
    op: Op,
    sort: Sort,
    left: Got,
    right: Got,
) -> Result<Got, Stop>
    ensures { Agrees got_of result (both_end op (the_sort sort) (way_of (option_copied direction.entry)) place (got_of right).ty (got_of left) (got_of right)) }
{
    let ty = operator_type(alloc, direction, place, sort, right.ty())?;
    operated_both(alloc, op, place, ty, left, right)
}

/// An operand of a type that operators of this sort take (T12).
#[inline(never)]
pub fn taken_by_sort(place: Place, sort: Sort, got: Got) -> Result<Got, Stop>
    ensures { Agrees got_of result (need_by T12 place (takes_by (the_sort sort) (got_of got).ty) (Ok (got_of got))) }
{
    if takes(sort, got.ty()) {
        Ok(got)
    } else {
        Err(Stop::Rule(Rule::T12, place))
    }
}

/// An application.
#[inline(never)]
pub fn end_app(
    alloc: Global,
    direction: Option<&Ty>,
    place: Place,
    fun: Got,
    arg: Got,
) -> Result<Got, Stop>
    ensures { Agrees got_of result (meet_by (way_of (option_copied direction.entry)) place (given_by (got_of fun).ty) (Ok (forms.app_node place (given_by (got_of fun).ty) (got_of fun) (got_of arg)))) }
{
    let ty = given(alloc, fun.ty())?;
    meet(direction, place, &ty)?;
    app_node(alloc, place, ty, fun, arg)
}

/// A conditional, whose branches have these notes.
#[inline(never)]
pub fn end_if(
    source: &Source,
    context: &Vec<Known>,
    place: Place,
    part: Got,
    one: Got,
    other: Got,
    first: Place,
    second: Place,
) -> Result<Got, Stop>
    ensures { Agrees got_of result (if_end (map function_of source.now.functions.now) (bounds_of source.now.vars.now) (types_in (entries_of context.now.items)) place first second (got_of part) (got_of one) (got_of other)) }
{
    branches(source, context, first, second, &one.uses, &other.uses)?;
    if_node(source.alloc, place, part, one, other)
}

/// A match on one alternative, whose branches have these notes.
#[inline(never)]
pub fn end_case(
    source: &Source,
    context: &Vec<Known>,
    place: Place,
    at: &At,
    binder: Place,
    part: Got,
    one: Got,
    other: Got,
    first: Place,
    second: Place,
) -> Result<Got, Stop>
    ensures { Agrees got_of result (case_end (map function_of source.now.functions.now) (bounds_of source.now.vars.now) (types_in (entries_of context.now.items)) place at.now binder first second (got_of part) (got_of one) (got_of other)) }
{
    let used = but_last(&one.uses);
    branches(source, context, first, second, used, but_last(&other.uses))?;
    let count = context.len();
    case_node(source.alloc, count, place, at, binder, part, one, other)
}

/// A match on the last alternative.
#[inline(never)]
pub fn end_esac(
    source: &Source,
    direction: Option<&Ty>,
    place: Place,
    at: &At,
    part: Got,
) -> Result<Got, Stop>
    ensures { Agrees got_of result (esac_end (way_of (option_copied direction.entry)) place at.now (got_of part)) }
{
    let ty = boxed_tested(source.alloc, last_type(source, at, part.ty()))?;
    meet(direction, place, &ty)?;
    esac_node(source.alloc, place, ty, at, part)
}

/// A record, of this type or of the one that its fields make.
#[inline(never)]
pub fn end_struct(
    alloc: Global,
    direction: Option<&Ty>,
    place: Place,
    fields: Fields,
) -> Result<Got, Stop>
    ensures { Agrees got_of result (Ok (forms.struct_node place (record_type (way_of (option_copied direction.entry)) (fields_of fields).parts) (fields_of fields))) }
{
    match direction {
        Some(wanted) => struct_node(alloc, place, wanted, fields),
        None => record_node(alloc, place, fields),
    }
}

/// A member.
#[inline(never)]
pub fn end_member(
    source: &Source,
    direction: Option<&Ty>,
    place: Place,
    at: &At,
    part: Got,
) -> Result<Got, Stop>
    ensures { Agrees got_of result (member_end (bounds_of source.now.vars.now) (way_of (option_copied direction.entry)) place at.now (got_of part)) }
{
    let ty = boxed_tested(source.alloc, member_type(source, at, part.ty()))?;
    meet(direction, place, &ty)?;
    member_node(source.alloc, place, ty, at, part)
}

/// A put.
#[inline(never)]
pub fn end_put(
    alloc: Global,
    direction: Option<&Ty>,
    place: Place,
    at: &At,
    value: Got,
    part: Got,
) -> Result<Got, Stop>
    ensures { Agrees got_of result (put_end (way_of (option_copied direction.entry)) place at.now (got_of value) (got_of part)) }
{
    let ty = boxed(alloc, with_part(alloc, &at.name, false, value.ty()))?;
    meet(direction, place, &ty)?;
    put_node(alloc, place, ty, at, value, part)
}

/// A cast to this type (T11).
#[inline(never)]
pub fn end_cast(alloc: Global, place: Place, wanted: &Ty, part: Got) -> Result<Got, Stop>
    ensures { Agrees got_of result (need_by T11 place (widens_by (got_of part).ty (type_of wanted.now)) (Ok (forms.cast_node place (type_of wanted.now) (got_of part)))) }
{
    need(Rule::T11, place, widens(part.ty(), wanted))?;
    cast_node(alloc, place, wanted, part)
}

/// A term with its type written.
#[inline(never)]
pub fn end_annot(
    alloc: Global,
    direction: Option<&Ty>,
    place: Place,
    arg: &TyArg,
    part: Got,
) -> Result<Got, Stop>
    ensures { Agrees got_of result (meet_by (way_of (option_copied direction.entry)) place (type_of arg.now.ty) (Ok (forms.annot_node place (arg_of arg.now) (got_of part)))) }
{
    meet(direction, place, &arg.ty)?;
    annot_node(alloc, place, arg, part)
}
