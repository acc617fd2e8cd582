// Forms behind their parts: the tests that are left there, and the node.
ghost use Rattle.std.specs.Prelude.{◌≡◌, Ok};
ghost use Rattle.std.specs.Option.{option_copied};
ghost use Rattle.cg_base.specs.declared.kind.Sigil.TheVariants.{U};
ghost use Rattle.cg_base.specs.declared.limit.Limit.TheVariants.{Ty as OfType};
ghost use Rattle.cg_base.specs.Types.{fields as record_of, type_of};
ghost use Rattle.cg_cert.specs.declared.fault.CertFault.TheVariants.{Limit as Beyond};
ghost use Rattle.cg_certcheck_ends.specs.Ends as ends;
ghost use Rattle.cg_certcheck_def.specs.Events.{meets as meets_of, value_of};
ghost use Rattle.cg_certcheck_def.specs.Pass.{in_front as in_front_of, no_fields as no_fields_at, row, test, wanted as wanted_type};
ghost use Rattle.cg_certcheck_gots.specs.Gots.{fields_in, got_in};
ghost use Rattle.cg_certcheck_gots.specs.Records as nodes;
ghost use Rattle.cg_certcheck_context.specs.View.{Agrees, cursor_of};
ghost use Rattle.cg_check_pieces.specs.Boxed.{in_box};
ghost use Rattle.cg_check_pieces.specs.View.{bounds_of, way_of};
ghost use Rattle.cg_core.specs.Kernels.{the_term};
ghost use Rattle.cg_core.specs.Terms.{arg_of};
ghost use Rattle.cg_typing.specs.Operators.{sort_of as sort_by, takes as takes_by};
ghost use Rattle.cg_typing.specs.Parts.{is_small_enough as small_by};
ghost use Rattle.cg_typing.specs.Rules.{note_at as note_of};
ghost use Rattle.cg_typing_parts.specs.Views.{the_sort};

use crate::leaves::judge_literal;
use cg_base::{Items, Limit, Name, Place, Ty};
use cg_cert::CertFault;
use cg_certcheck_context::{Cursor, Source, meets};
use cg_certcheck_gots::{
    Fields, Got, in_front, last_type, member_type, no_fields, record_node, struct_node,
};
use cg_certcheck_nodes::{
    annot_node, app_node, cast_node, esac_node, member_node, operated, operated_both, put_node,
};
use cg_check_pieces::{boxed, copied, given};
use cg_core::{At, Form, Mark, Op, Term, TyArg};
use cg_typing_parts::{Sort, is_small_enough, sort_of, takes, widens, with_part};
use std::alloc::Global;

/// An operator, whose node has this number.
#[derive(Clone, Copy)]
pub struct Operator {
    pub number: u64,
    pub place: Place,
    pub op: Op,
    pub sort: Sort,
}

/// The operator of a node.
pub fn operator_at(number: u64, place: Place, op: Op) -> Operator
    ensures number { result.number ≡ number }
    ensures place { result.place ≡ place }
    ensures op { result.op ≡ op }
    ensures sort { the_sort result.sort ≡ sort_by op }
{
    Operator {
        number,
        place,
        op,
        sort: sort_of(op),
    }
}

/// A part whose type is within the limit.
#[inline(never)]
pub fn small(source: &Source, got: Got) -> Result<Got, CertFault>
    ensures { Agrees (got_in source.now.nodes.now) result (test (Beyond OfType) (small_by (got_in source.now.nodes.now got).ty) (Ok (got_in source.now.nodes.now got))) }
{
    if is_small_enough(got.ty()) {
        Ok(got)
    } else {
        Err(CertFault::Limit(Limit::Ty))
    }
}

// A type that is the one that is checked against, if any is.
fn met(alloc: Global, direction: Option<&Ty>, number: u64, ty: &Ty) -> Result<Box<Ty>, CertFault>
    ensures { Agrees in_box result (row number (meets_of (way_of (option_copied direction.entry)) (type_of ty.now)) (Ok (type_of ty.now))) }
{
    if meets(direction, ty) {
        Ok(copied(alloc, ty)?)
    } else {
        Err(CertFault::C2(number))
    }
}

// The type of an operator, of which the operand that was checked first has this type.
fn operator_type(
    alloc: Global,
    direction: Option<&Ty>,
    operator: Operator,
    first: &Ty,
) -> Result<Box<Ty>, CertFault>
    ensures { Agrees in_box result (ends.operator_type (the_sort operator.sort) (way_of (option_copied direction.entry)) operator.number (type_of first.now)) }
{
    match (operator.sort, direction) {
        (Sort::Arithmetic, Some(wanted)) => Ok(copied(alloc, wanted)?),
        (Sort::Arithmetic, None) => Ok(copied(alloc, first)?),
        _ => met(alloc, direction, operator.number, &Ty::Bool),
    }
}

/// An operand of a type that the operator takes.
#[inline(never)]
pub fn taken_by_sort(source: &Source, operator: Operator, got: Got) -> Result<Got, CertFault>
    ensures { Agrees (got_in source.now.nodes.now) result (row operator.number (takes_by (the_sort operator.sort) (got_in source.now.nodes.now got).ty) (Ok (got_in source.now.nodes.now got))) }
{
    if takes(operator.sort, got.ty()) {
        Ok(got)
    } else {
        Err(CertFault::C2(operator.number))
    }
}

/// An operator with one operand.
#[inline(never)]
pub fn end_unary(
    source: &Source,
    direction: Option<&Ty>,
    operator: Operator,
    part: Got,
) -> Result<Got, CertFault>
    ensures { Agrees (got_in source.now.nodes.now) result (ends.one_end operator.op (the_sort operator.sort) (way_of (option_copied direction.entry)) operator.number operator.place (got_in source.now.nodes.now part)) }
{
    let ty = operator_type(source.alloc, direction, operator, part.ty())?;
    operated(source, operator.op, operator.place, ty, part)
}

/// An operator with two operands, of which the left one was checked first.
#[inline(never)]
pub fn end_by_left(
    source: &Source,
    marks: &[Mark],
    direction: Option<&Ty>,
    operator: Operator,
    left: Got,
    right: Got,
) -> Result<Got, CertFault>
    ensures { Agrees (got_in source.now.nodes.now) result (ends.both_end marks.now operator.op (the_sort operator.sort) (way_of (option_copied direction.entry)) operator.number operator.place (got_in source.now.nodes.now left).ty (got_in source.now.nodes.now left) (got_in source.now.nodes.now right)) }
{
    let ty = operator_type(source.alloc, direction, operator, left.ty())?;
    operated_both(source, marks, operator.op, operator.place, ty, left, right)
}

// The number that a literal is; None where it is above 2^64 - 1, and for any other term.
fn number_of(term: &Term<Place>) -> Option<u64>
    ensures { result ≡ value_of (the_term term.now) }
{
    match &term.form {
        Form::Lit(value) => *value,
        _ => None,
    }
}

/// The same where the left one is a literal, whose node has this number and was reached before the right one.
#[inline(never)]
pub fn end_by_right(
    source: &Source,
    marks: &[Mark],
    direction: Option<&Ty>,
    operator: Operator,
    literal: &Term<Place>,
    number: u64,
    behind: Cursor,
    right: Got,
) -> Result<Got, CertFault>
    ensures { Agrees (got_in source.now.nodes.now) result (ends.literal_end marks.now operator.op (the_sort operator.sort) (way_of (option_copied direction.entry)) operator.number operator.place (note_of (the_term literal.now)) (value_of (the_term literal.now)) number (cursor_of source.now.nodes.now behind) (got_in source.now.nodes.now right)) }
{
    let value = number_of(literal);
    let left = judge_literal(source, literal.note, value, right.ty(), number, behind)?;
    let ty = operator_type(source.alloc, direction, operator, right.ty())?;
    operated_both(source, marks, operator.op, operator.place, ty, left, right)
}

/// An application.
#[inline(never)]
pub fn end_app(
    source: &Source,
    marks: &[Mark],
    direction: Option<&Ty>,
    number: u64,
    place: Place,
    fun: Got,
    arg: Got,
) -> Result<Got, CertFault>
    ensures { Agrees (got_in source.now.nodes.now) result (ends.app_end marks.now (way_of (option_copied direction.entry)) number place (got_in source.now.nodes.now fun) (got_in source.now.nodes.now arg)) }
{
    let ty = given(source.alloc, fun.ty())?;
    if !meets(direction, &ty) {
        return Err(CertFault::C2(number));
    }
    app_node(source, marks, place, ty, fun, arg)
}

/// A match on the last alternative.
#[inline(never)]
pub fn end_esac(
    source: &Source,
    direction: Option<&Ty>,
    number: u64,
    place: Place,
    alternative: &At,
    part: Got,
) -> Result<Got, CertFault>
    ensures { Agrees (got_in source.now.nodes.now) result (ends.esac_end (way_of (option_copied direction.entry)) number place alternative.now (got_in source.now.nodes.now part)) }
{
    let ty = last_type(source, number, direction, &alternative.name, part.ty())?;
    esac_node(source, place, ty, alternative, part)
}

/// A record, of the type that is checked against, or of the one that its fields make.
#[inline(never)]
pub fn end_struct(
    source: &Source,
    direction: Option<&Ty>,
    strings: &[Items<Mark>],
    place: Place,
    fields: Fields,
) -> Result<Got, CertFault>
    ensures { Agrees (got_in source.now.nodes.now) result (Ok (nodes.struct_node strings.now place (wanted_type (way_of (option_copied direction.entry)) (record_of (fields_in source.now.nodes.now fields).parts U)) (fields_in source.now.nodes.now fields))) }
{
    match direction {
        Some(wanted) => struct_node(source, strings, place, wanted, fields),
        None => record_node(source, strings, place, fields),
    }
}

/// The last field of a record.
#[inline(never)]
pub fn last_in_front(source: &Source, name: &Name, got: Got) -> Result<Fields, CertFault>
    ensures { Agrees (fields_in source.now.nodes.now) result (Ok (in_front_of name.now (got_in source.now.nodes.now got) (no_fields_at (got_in source.now.nodes.now got).at))) }
{
    let none = no_fields(source, got.at);
    in_front(source, name, got, none)
}

/// A member.
#[inline(never)]
pub fn end_member(
    source: &Source,
    direction: Option<&Ty>,
    number: u64,
    place: Place,
    field: &At,
    part: Got,
) -> Result<Got, CertFault>
    ensures { Agrees (got_in source.now.nodes.now) result (ends.member_end (bounds_of source.now.vars.now) (way_of (option_copied direction.entry)) number place field.now (got_in source.now.nodes.now part)) }
{
    let ty = member_type(source, number, direction, &field.name, part.ty())?;
    member_node(source, place, ty, field, part)
}

/// A put.
#[inline(never)]
pub fn end_put(
    source: &Source,
    marks: &[Mark],
    direction: Option<&Ty>,
    number: u64,
    place: Place,
    field: &At,
    value: Got,
    part: Got,
) -> Result<Got, CertFault>
    ensures { Agrees (got_in source.now.nodes.now) result (ends.put_end marks.now (way_of (option_copied direction.entry)) number place field.now (got_in source.now.nodes.now value) (got_in source.now.nodes.now part)) }
{
    let left = with_part(source.alloc, &field.name, false, value.ty());
    let ty = boxed(source.alloc, left)?;
    if !meets(direction, &ty) {
        return Err(CertFault::C2(number));
    }
    put_node(source, marks, place, ty, field, value, part)
}

/// A cast to this type.
#[inline(never)]
pub fn end_cast(
    source: &Source,
    wanted: &Ty,
    number: u64,
    place: Place,
    part: Got,
) -> Result<Got, CertFault>
    ensures { Agrees (got_in source.now.nodes.now) result (ends.cast_end (type_of wanted.now) number place (got_in source.now.nodes.now part)) }
{
    if !widens(part.ty(), wanted) {
        return Err(CertFault::C2(number));
    }
    cast_node(source, place, wanted, part)
}

/// A term with its type written.
#[inline(never)]
pub fn end_annot(
    source: &Source,
    direction: Option<&Ty>,
    number: u64,
    place: Place,
    arg: &TyArg,
    part: Got,
) -> Result<Got, CertFault>
    ensures { Agrees (got_in source.now.nodes.now) result (ends.annot_end (way_of (option_copied direction.entry)) number place (arg_of arg.now) (got_in source.now.nodes.now part)) }
{
    if !meets(direction, &arg.ty) {
        return Err(CertFault::C2(number));
    }
    annot_node(source, place, arg, part)
}
