// The pass over a term.
#![tactic(auto, unfolding(cg_check_pieces::proofs::TermSizes::size))]

ghost use Rattle.std.specs.Prelude.{map, None, Some};
ghost use Rattle.std.specs.Option.{option_copied};
ghost use Rattle.cg_base.specs.Types.{part_of, to_parts, type_of};
ghost use Rattle.cg_certcheck.specs.Forms as forms;
ghost use Rattle.cg_certcheck.specs.Operators.{first_operand, guide};
ghost use Rattle.cg_certcheck.specs.Standings.{all_before, named_with};
ghost use Rattle.cg_check_pieces.specs.Directions.{right_direction};
ghost use Rattle.cg_check_pieces.specs.View.{bounds_of, shape_at, way_of};
ghost use Rattle.cg_certcheck_context.specs.Contexts.{context_of};
ghost use Rattle.cg_certcheck_gots.specs.Gots.{fields_in, got_in};
ghost use Rattle.cg_certcheck_context.specs.View.{Agrees, cursor_of};
ghost use Rattle.cg_core.specs.Kernels.{function_of, the_field, the_term};
ghost use Rattle.cg_core.specs.Terms as terms;
ghost use Rattle.cg_core.specs.Terms.{arg_of, to_named, to_trees};
ghost use Rattle.cg_faults.specs.Events.{next_direction, part_directions};
ghost use Rattle.cg_typing_parts.specs.Views.{the_sort};
ghost use Rattle.cg_certcheck_def.specs.Pass.{check as check_of, check_fields as fields_by};
ghost use Rattle.cg_typing.specs.Contexts.{first as first_of, push as push_of, second as second_of};
ghost use Rattle.cg_typing.specs.Trees.{first_marks};
ghost use Rattle.cg_typing.specs.Rules.{note_at as note_of};

use cg_base::{Items, Name, Part, Place, Ty};
use cg_cert::CertFault;
use cg_certcheck_context::{
    Cursor, Entry, Source, Split, Strings, firsts, opened, opened_twice, reach_leaf,
    reach_observed, reach_record, reach_split, seconds,
};
use cg_certcheck_ends::{
    Operator, check_bool, check_literal, check_mention, check_unit, check_var, end_annot, end_app,
    end_by_left, end_by_right, end_cast, end_esac, end_member, end_put, end_struct, end_unary,
    last_in_front, later_strings, next_marks, operator_at, reach_left, small, taken_by_sort,
};
use cg_certcheck_gots::{Fields, Got, alternative_type, in_front, no_fields, put_type, taken_type};
use cg_certcheck_nodes::{case_node, con_node, if_node, let_bang_node, let_node, take_node};
use cg_check_pieces::{
    boxed, guided_direction, is_by_right, is_literal, later_wanted, may_be_made_of, next_wanted,
    other_way, parts_of,
};
use cg_core::{At, FieldTerm, Form, Mark, Node, Op, Seen, Term, TyArg};
use cg_kinds::kinds_of;
use cg_typing_parts::{Sort, has_word_arrays, is_word, with_part};

/// What a term comes to, in a context and a direction, from a place among the nodes: as the pass answers it.
#[cycle(check)]
pub(crate) fn check_term(
    source: &Source,
    context: &[Entry],
    direction: Option<&Ty>,
    at: Cursor,
    term: &Term<Place>,
) -> Result<Got, CertFault>
    ensures { Agrees (got_in source.now.nodes.now) result (check_of (map function_of source.now.functions.now) (bounds_of source.now.vars.now) (context_of (bounds_of source.now.vars.now) context.now) (way_of (option_copied direction.entry)) (cursor_of source.now.nodes.now at) (the_term term.now)) }
{
    let got = check_form(source, context, direction, at, term)?;
    small(source, got)
}

// The same, whatever the size of its type.
#[cycle(check)]
fn check_form(
    source: &Source,
    context: &[Entry],
    direction: Option<&Ty>,
    at: Cursor,
    term: &Term<Place>,
) -> Result<Got, CertFault>
    ensures { Agrees (got_in source.now.nodes.now) result (forms.form_by (map function_of source.now.functions.now) (bounds_of source.now.vars.now) (context_of (bounds_of source.now.vars.now) context.now) (way_of (option_copied direction.entry)) (cursor_of source.now.nodes.now at) (note_of (the_term term.now)) (shape_at (the_term term.now))) }
{
    let place = term.note;
    match &term.form {
        Form::Var(var) => check_var(source, context, direction, at, place, *var),
        Form::Unit => check_unit(source, context, direction, at, place),
        Form::Bool(value) => check_bool(source, context, direction, at, place, *value),
        Form::Lit(value) => check_literal(source, context, direction, at, place, *value),
        Form::Fun(fun, args) => check_mention(source, context, direction, at, place, *fun, args),
        Form::Op(op, operands) => check_op(source, context, direction, at, place, *op, operands),
        Form::App(fun, arg) => check_app(source, context, direction, at, place, fun, arg),
        Form::Let(binder, value, body) => {
            check_let(source, context, direction, at, place, *binder, value, body)
        }
        Form::LetBang(observers, binder, value, body) => check_let_bang(
            source, context, direction, at, place, observers, *binder, value, body,
        ),
        Form::If(test, first, second) => {
            check_if(source, context, direction, at, place, test, first, second)
        }
        Form::Con(name, part) => check_con(source, context, direction, at, place, name, part),
        Form::Case(value, alternative, binder, first, second) => check_case(
            source,
            context,
            direction,
            at,
            place,
            value,
            alternative,
            *binder,
            first,
            second,
        ),
        Form::Esac(alternative, part) => {
            check_esac(source, context, direction, at, place, alternative, part)
        }
        Form::Struct(fields) => check_struct(source, context, direction, at, place, fields),
        Form::Member(part, field) => {
            check_member(source, context, direction, at, place, part, field)
        }
        Form::Take(value, field, rest, binder, body) => check_take(
            source, context, direction, at, place, value, field, *rest, *binder, body,
        ),
        Form::Put(value, field, part) => {
            check_put(source, context, direction, at, place, value, field, part)
        }
        Form::Cast(part) => check_cast(source, context, direction, at, place, part),
        Form::Annot(part, arg) => check_annot(source, context, direction, at, place, part, arg),
    }
}

// The first part of a split.
#[cycle(check)]
fn check_first(
    source: &Source,
    context: &[Entry],
    marks: &[Mark],
    direction: Option<&Ty>,
    at: Cursor,
    term: &Term<Place>,
) -> Result<Got, CertFault>
    ensures { Agrees (got_in source.now.nodes.now) result (check_of (map function_of source.now.functions.now) (bounds_of source.now.vars.now) (first_of marks.now (context_of (bounds_of source.now.vars.now) context.now)) (way_of (option_copied direction.entry)) (cursor_of source.now.nodes.now at) (the_term term.now)) }
{
    let side = firsts(source, marks, context)?;
    check_term(source, side.as_slice(), direction, at, term)
}

// A second part of a split.
#[cycle(check)]
fn check_second(
    source: &Source,
    context: &[Entry],
    marks: &[Mark],
    direction: Option<&Ty>,
    at: Cursor,
    term: &Term<Place>,
) -> Result<Got, CertFault>
    ensures { Agrees (got_in source.now.nodes.now) result (check_of (map function_of source.now.functions.now) (bounds_of source.now.vars.now) (second_of marks.now (context_of (bounds_of source.now.vars.now) context.now)) (way_of (option_copied direction.entry)) (cursor_of source.now.nodes.now at) (the_term term.now)) }
{
    let side = seconds(source, marks, context)?;
    check_term(source, side.as_slice(), direction, at, term)
}

// A second part of a split, in the scope of a new variable of this type.
#[cycle(check)]
fn check_opened(
    source: &Source,
    context: &[Entry],
    marks: &[Mark],
    ty: &Ty,
    direction: Option<&Ty>,
    at: Cursor,
    term: &Term<Place>,
) -> Result<Got, CertFault>
    ensures { Agrees (got_in source.now.nodes.now) result (check_of (map function_of source.now.functions.now) (bounds_of source.now.vars.now) (push_of (second_of marks.now (context_of (bounds_of source.now.vars.now) context.now)) (Some (type_of ty.now))) (way_of (option_copied direction.entry)) (cursor_of source.now.nodes.now at) (the_term term.now)) }
{
    let side = opened(source, marks, &*context, &*ty)?;
    check_term(source, side.as_slice(), direction, at, term)
}

// The body of a take, in the scope of what is left of the record and of what its field held.
#[cycle(check)]
fn check_taken(
    source: &Source,
    context: &[Entry],
    marks: &[Mark],
    direction: Option<&Ty>,
    first: &Got,
    field: &At,
    held: &Ty,
    body: &Term<Place>,
) -> Result<Got, CertFault>
    ensures { Agrees (got_in source.now.nodes.now) result (forms.taken_by (map function_of source.now.functions.now) (bounds_of source.now.vars.now) marks.now (context_of (bounds_of source.now.vars.now) context.now) (way_of (option_copied direction.entry)) field.now (the_term body.now) (got_in source.now.nodes.now first.now) (type_of held.now)) }
{
    let left = with_part(source.alloc, &field.name, true, first.ty());
    let left = boxed(source.alloc, left)?;
    let side = opened_twice(source, marks, &*context, &*left, &*held)?;
    check_term(source, side.as_slice(), direction, first.at, body)
}

// An operator.
#[cycle(check)]
#[inline(never)]
fn check_op(
    source: &Source,
    context: &[Entry],
    direction: Option<&Ty>,
    at: Cursor,
    place: Place,
    op: Op,
    operands: &Items<Term<Place>>,
) -> Result<Got, CertFault>
    ensures { Agrees (got_in source.now.nodes.now) result (forms.form_by (map function_of source.now.functions.now) (bounds_of source.now.vars.now) (context_of (bounds_of source.now.vars.now) context.now) (way_of (option_copied direction.entry)) (cursor_of source.now.nodes.now at) place (terms.op op (to_trees (map the_term operands.now)))) }
{
    match operands.as_slice() {
        [part] => check_unary(source, context, direction, at, place, op, part),
        [left, right] => check_binary(source, context, direction, at, place, op, left, right),
        _ => Err(CertFault::C2(at.next)),
    }
}

// An operator with one operand.
#[cycle(check)]
fn check_unary(
    source: &Source,
    context: &[Entry],
    direction: Option<&Ty>,
    at: Cursor,
    place: Place,
    op: Op,
    part: &Term<Place>,
) -> Result<Got, CertFault>
    ensures { Agrees (got_in source.now.nodes.now) result (forms.op_one (map function_of source.now.functions.now) (bounds_of source.now.vars.now) (context_of (bounds_of source.now.vars.now) context.now) (way_of (option_copied direction.entry)) (cursor_of source.now.nodes.now at) place op (the_term part.now)) }
{
    let operator = operator_at(at.next, place, op);
    let behind = reach_leaf(source, Node::Op, at)?;
    let got = check_operand(source, context, direction, operator, behind, part)?;
    end_unary(source, direction, operator, got)
}

// The operand that is checked first: as the operator's node says, or as the guide of the other one.
#[cycle(check)]
fn check_operand(
    source: &Source,
    context: &[Entry],
    direction: Option<&Ty>,
    operator: Operator,
    at: Cursor,
    part: &Term<Place>,
) -> Result<Got, CertFault>
    ensures { Agrees (got_in source.now.nodes.now) result (first_operand (the_sort operator.sort) (way_of (option_copied direction.entry)) operator.number (λ way. check_of (map function_of source.now.functions.now) (bounds_of source.now.vars.now) (context_of (bounds_of source.now.vars.now) context.now) way (cursor_of source.now.nodes.now at) (the_term part.now))) }
{
    match operator.sort {
        Sort::Logic => check_term(source, context, Some(&Ty::Bool), at, part),
        Sort::Arithmetic => match direction {
            Some(wanted) => {
                if !is_word(wanted) {
                    return Err(CertFault::C2(operator.number));
                }
                check_term(source, context, direction, at, part)
            }
            None => check_guide(source, context, operator, at, part),
        },
        Sort::Equality | Sort::Order => check_guide(source, context, operator, at, part),
    }
}

// An operand that guides the other one: it is of a type that the operator takes.
#[cycle(check)]
fn check_guide(
    source: &Source,
    context: &[Entry],
    operator: Operator,
    at: Cursor,
    part: &Term<Place>,
) -> Result<Got, CertFault>
    ensures { Agrees (got_in source.now.nodes.now) result (guide (the_sort operator.sort) operator.number (check_of (map function_of source.now.functions.now) (bounds_of source.now.vars.now) (context_of (bounds_of source.now.vars.now) context.now) None (cursor_of source.now.nodes.now at) (the_term part.now))) }
{
    let got = check_term(source, context, None, at, part)?;
    taken_by_sort(source, operator, got)
}

// An operator with two operands.
#[cycle(check)]
fn check_binary(
    source: &Source,
    context: &[Entry],
    direction: Option<&Ty>,
    at: Cursor,
    place: Place,
    op: Op,
    left: &Term<Place>,
    right: &Term<Place>,
) -> Result<Got, CertFault>
    ensures { Agrees (got_in source.now.nodes.now) result (forms.op_two (map function_of source.now.functions.now) (bounds_of source.now.vars.now) (context_of (bounds_of source.now.vars.now) context.now) (way_of (option_copied direction.entry)) (cursor_of source.now.nodes.now at) place op (the_term left.now) (the_term right.now)) }
{
    let operator = operator_at(at.next, place, op);
    let Split { marks, at } = reach_split(source, context, Node::Op, at)?;
    check_operands(source, context, marks, direction, operator, at, left, right)
}

// The same behind its node.
#[cycle(check)]
fn check_operands(
    source: &Source,
    context: &[Entry],
    marks: &[Mark],
    direction: Option<&Ty>,
    operator: Operator,
    at: Cursor,
    left: &Term<Place>,
    right: &Term<Place>,
) -> Result<Got, CertFault>
    ensures { Agrees (got_in source.now.nodes.now) result (forms.operands_by (map function_of source.now.functions.now) (bounds_of source.now.vars.now) (the_sort operator.sort) marks.now (context_of (bounds_of source.now.vars.now) context.now) (way_of (option_copied direction.entry)) operator.number (cursor_of source.now.nodes.now at) operator.place operator.op (the_term left.now) (the_term right.now)) }
{
    if is_by_right(direction, operator.sort, is_literal(left)) {
        check_by_right(source, context, marks, direction, operator, at, left, right)
    } else {
        check_by_left(source, context, marks, direction, operator, at, left, right)
    }
}

// The same, whose first operand is checked first.
#[cycle(check)]
#[inline(never)]
fn check_by_left(
    source: &Source,
    context: &[Entry],
    marks: &[Mark],
    direction: Option<&Ty>,
    operator: Operator,
    at: Cursor,
    first: &Term<Place>,
    second: &Term<Place>,
) -> Result<Got, CertFault>
    ensures { Agrees (got_in source.now.nodes.now) result (forms.operands_left (map function_of source.now.functions.now) (bounds_of source.now.vars.now) (the_sort operator.sort) marks.now (context_of (bounds_of source.now.vars.now) context.now) (way_of (option_copied direction.entry)) operator.number (cursor_of source.now.nodes.now at) operator.place operator.op (the_term first.now) (the_term second.now)) }
{
    let side = firsts(source, marks, context)?;
    let left = check_operand(source, side.as_slice(), direction, operator, at, first)?;
    let right = check_right(source, context, marks, direction, operator, &left, second)?;
    end_by_left(source, marks, direction, operator, left, right)
}

// The same, whose right operand guides a literal, which is reached before it.
#[cycle(check)]
#[inline(never)]
fn check_by_right(
    source: &Source,
    context: &[Entry],
    marks: &[Mark],
    direction: Option<&Ty>,
    operator: Operator,
    at: Cursor,
    literal: &Term<Place>,
    part: &Term<Place>,
) -> Result<Got, CertFault>
    ensures { Agrees (got_in source.now.nodes.now) result (forms.operands_right (map function_of source.now.functions.now) (bounds_of source.now.vars.now) (the_sort operator.sort) marks.now (context_of (bounds_of source.now.vars.now) context.now) (way_of (option_copied direction.entry)) operator.number (cursor_of source.now.nodes.now at) operator.place operator.op (the_term literal.now) (the_term part.now)) }
{
    let behind = reach_left(source, context, marks, at)?;
    let side = seconds(source, marks, context)?;
    let right = check_guide(source, side.as_slice(), operator, behind, part)?;
    end_by_right(
        source, marks, direction, operator, literal, at.next, behind, right,
    )
}

// The right operand behind the left one.
#[cycle(check)]
fn check_right(
    source: &Source,
    context: &[Entry],
    marks: &[Mark],
    direction: Option<&Ty>,
    operator: Operator,
    first: &Got,
    part: &Term<Place>,
) -> Result<Got, CertFault>
    ensures { Agrees (got_in source.now.nodes.now) result (check_of (map function_of source.now.functions.now) (bounds_of source.now.vars.now) (second_of marks.now (context_of (bounds_of source.now.vars.now) context.now)) (right_direction (the_sort operator.sort) (way_of (option_copied direction.entry)) (got_in source.now.nodes.now first.now).ty) (cursor_of source.now.nodes.now first.now.at) (the_term part.now)) }
{
    match operator.sort {
        Sort::Logic => check_second(source, context, marks, Some(&Ty::Bool), first.at, part),
        Sort::Arithmetic | Sort::Equality | Sort::Order => {
            let way = guided_direction(direction, operator.sort, first.ty());
            check_second(source, context, marks, way, first.at, part)
        }
    }
}

// An application.
#[cycle(check)]
#[inline(never)]
fn check_app(
    source: &Source,
    context: &[Entry],
    direction: Option<&Ty>,
    at: Cursor,
    place: Place,
    fun: &Term<Place>,
    arg: &Term<Place>,
) -> Result<Got, CertFault>
    ensures { Agrees (got_in source.now.nodes.now) result (forms.app_by (map function_of source.now.functions.now) (bounds_of source.now.vars.now) (context_of (bounds_of source.now.vars.now) context.now) (way_of (option_copied direction.entry)) (cursor_of source.now.nodes.now at) place (the_term fun.now) (the_term arg.now)) }
{
    let split = reach_split(source, context, Node::App, at)?;
    let first = check_first(source, context, split.marks, None, split.at, fun)?;
    let Ty::Arrow(from, _) = first.ty() else {
        return Err(CertFault::C2(at.next));
    };
    let second = check_second(source, context, split.marks, Some(from), first.at, arg)?;
    end_app(
        source,
        split.marks,
        direction,
        at.next,
        place,
        first,
        second,
    )
}

// A `let`.
#[cycle(check)]
#[inline(never)]
fn check_let(
    source: &Source,
    context: &[Entry],
    direction: Option<&Ty>,
    at: Cursor,
    place: Place,
    binder: Place,
    value: &Term<Place>,
    body: &Term<Place>,
) -> Result<Got, CertFault>
    ensures { Agrees (got_in source.now.nodes.now) result (forms.let_by (map function_of source.now.functions.now) (bounds_of source.now.vars.now) (context_of (bounds_of source.now.vars.now) context.now) (way_of (option_copied direction.entry)) (cursor_of source.now.nodes.now at) place binder (the_term value.now) (the_term body.now)) }
{
    let Split { marks, at } = reach_split(source, context, Node::Let, at)?;
    let got = check_first(source, context, marks, None, at, value)?;
    let second = check_opened(source, context, marks, got.ty(), direction, got.at, body)?;
    let_node(source, marks, place, binder, got, second)
}

// A `let!`.
#[cycle(check)]
#[inline(never)]
fn check_let_bang(
    source: &Source,
    context: &[Entry],
    direction: Option<&Ty>,
    at: Cursor,
    place: Place,
    observers: &Items<Seen>,
    binder: Place,
    value: &Term<Place>,
    body: &Term<Place>,
) -> Result<Got, CertFault>
    ensures { Agrees (got_in source.now.nodes.now) result (forms.let_bang_by (map function_of source.now.functions.now) (bounds_of source.now.vars.now) (context_of (bounds_of source.now.vars.now) context.now) (way_of (option_copied direction.entry)) (cursor_of source.now.nodes.now at) place observers.now binder (the_term value.now) (the_term body.now)) }
{
    let split = reach_observed(source, context, observers, at)?;
    let marks = split.marks;
    let got = check_first(source, context, marks, None, split.at, value)?;
    if !kinds_of(got.ty(), source.vars).escape {
        return Err(CertFault::C2(at.next));
    }
    let second = check_opened(source, context, marks, got.ty(), direction, got.at, body)?;
    let_bang_node(source, marks, place, observers, binder, got, second)
}

// A conditional.
#[cycle(check)]
#[inline(never)]
fn check_if(
    source: &Source,
    context: &[Entry],
    direction: Option<&Ty>,
    at: Cursor,
    place: Place,
    test: &Term<Place>,
    first: &Term<Place>,
    second: &Term<Place>,
) -> Result<Got, CertFault>
    ensures { Agrees (got_in source.now.nodes.now) result (forms.if_by (map function_of source.now.functions.now) (bounds_of source.now.vars.now) (context_of (bounds_of source.now.vars.now) context.now) (way_of (option_copied direction.entry)) (cursor_of source.now.nodes.now at) place (the_term test.now) (the_term first.now) (the_term second.now)) }
{
    let Split { marks, at } = reach_split(source, context, Node::If, at)?;
    let part = check_first(source, context, marks, Some(&Ty::Bool), at, test)?;
    let one = check_second(source, context, marks, direction, part.at, first)?;
    let way = other_way(direction, one.ty());
    let other = check_second(source, context, marks, way, one.at, second)?;
    if_node(source, marks, place, part, one, other)
}

// A value of a variant type.
#[cycle(check)]
#[inline(never)]
fn check_con(
    source: &Source,
    context: &[Entry],
    direction: Option<&Ty>,
    at: Cursor,
    place: Place,
    name: &Name,
    part: &Term<Place>,
) -> Result<Got, CertFault>
    ensures { Agrees (got_in source.now.nodes.now) result (forms.con_by (map function_of source.now.functions.now) (bounds_of source.now.vars.now) (context_of (bounds_of source.now.vars.now) context.now) (way_of (option_copied direction.entry)) (cursor_of source.now.nodes.now at) place name.now (the_term part.now)) }
{
    let behind = reach_leaf(source, Node::Con, at)?;
    let Some(ty) = direction else {
        return Err(CertFault::C2(at.next));
    };
    let held = alternative_type(source, at.next, name, ty)?;
    let got = check_term(source, context, Some(&held), behind, part)?;
    con_node(source, place, ty, name, got)
}

// A match on one alternative.
#[cycle(check)]
#[inline(never)]
fn check_case(
    source: &Source,
    context: &[Entry],
    direction: Option<&Ty>,
    at: Cursor,
    place: Place,
    value: &Term<Place>,
    alternative: &At,
    binder: Place,
    first: &Term<Place>,
    second: &Term<Place>,
) -> Result<Got, CertFault>
    ensures { Agrees (got_in source.now.nodes.now) result (forms.case_by (map function_of source.now.functions.now) (bounds_of source.now.vars.now) (context_of (bounds_of source.now.vars.now) context.now) (way_of (option_copied direction.entry)) (cursor_of source.now.nodes.now at) place (the_term value.now) alternative.now binder (the_term first.now) (the_term second.now)) }
{
    let split = reach_split(source, context, Node::Case, at)?;
    let marks = split.marks;
    let part = check_first(source, context, marks, None, split.at, value)?;
    let held = alternative_type(source, at.next, &alternative.name, part.ty())?;
    let one = check_opened(source, context, marks, &held, direction, part.at, first)?;
    check_other(
        source,
        context,
        marks,
        direction,
        place,
        alternative,
        binder,
        part,
        one,
        second,
    )
}

// The other branch of a match, behind the first.
#[cycle(check)]
fn check_other(
    source: &Source,
    context: &[Entry],
    marks: &[Mark],
    direction: Option<&Ty>,
    place: Place,
    alternative: &At,
    binder: Place,
    part: Got,
    one: Got,
    second: &Term<Place>,
) -> Result<Got, CertFault>
    ensures { Agrees (got_in source.now.nodes.now) result (forms.other_by (map function_of source.now.functions.now) (bounds_of source.now.vars.now) marks.now (context_of (bounds_of source.now.vars.now) context.now) (way_of (option_copied direction.entry)) place alternative.now binder (the_term second.now) (got_in source.now.nodes.now part) (got_in source.now.nodes.now one)) }
{
    let left = with_part(source.alloc, &alternative.name, true, part.ty());
    let left = boxed(source.alloc, left)?;
    let way = other_way(direction, one.ty());
    let other = check_opened(source, context, marks, &left, way, one.at, second)?;
    case_node(source, marks, place, alternative, binder, part, one, other)
}

// A match on the last alternative.
#[cycle(check)]
#[inline(never)]
fn check_esac(
    source: &Source,
    context: &[Entry],
    direction: Option<&Ty>,
    at: Cursor,
    place: Place,
    alternative: &At,
    part: &Term<Place>,
) -> Result<Got, CertFault>
    ensures { Agrees (got_in source.now.nodes.now) result (forms.esac_by (map function_of source.now.functions.now) (bounds_of source.now.vars.now) (context_of (bounds_of source.now.vars.now) context.now) (way_of (option_copied direction.entry)) (cursor_of source.now.nodes.now at) place alternative.now (the_term part.now)) }
{
    let behind = reach_leaf(source, Node::Esac, at)?;
    let got = check_term(source, context, None, behind, part)?;
    end_esac(source, direction, at.next, place, alternative, got)
}

// A record, whose fields are those of the type that is checked against, if any is.
#[cycle(check)]
#[inline(never)]
fn check_struct(
    source: &Source,
    context: &[Entry],
    direction: Option<&Ty>,
    at: Cursor,
    place: Place,
    fields: &Items<FieldTerm<Place>>,
) -> Result<Got, CertFault>
    ensures { Agrees (got_in source.now.nodes.now) result (forms.struct_by (map function_of source.now.functions.now) (bounds_of source.now.vars.now) (context_of (bounds_of source.now.vars.now) context.now) (way_of (option_copied direction.entry)) (cursor_of source.now.nodes.now at) place (to_named (map the_field fields.now))) }
{
    let Strings {
        strings,
        at: behind,
    } = reach_record(source, context, fields, at)?;
    if !may_be_made_of(direction, fields) {
        return Err(CertFault::C2(at.next));
    }
    let wanted = parts_of(direction);
    let made = check_fields(source, context, wanted, strings, behind, fields.as_slice())?;
    end_struct(source, direction, strings, place, made)
}

// Fields in their order, each against the part of a record type that stands where it does, over the mark strings that are left.
#[cycle(check)]
fn check_fields(
    source: &Source,
    context: &[Entry],
    wanted: &[Part],
    strings: &[Items<Mark>],
    at: Cursor,
    fields: &[FieldTerm<Place>],
) -> Result<Fields, CertFault>
    ensures { Agrees (fields_in source.now.nodes.now) result (fields_by (map function_of source.now.functions.now) (bounds_of source.now.vars.now) (context_of (bounds_of source.now.vars.now) context.now) (part_directions (to_parts (map part_of wanted.now))) strings.now (cursor_of source.now.nodes.now at) (to_named (map the_field fields.now))) }
{
    match fields.split_last() {
        None => Ok(no_fields(source, at)),
        Some((last, front)) => {
            let context = context.to_vec(source.alloc)?;
            check_all_fields(source, context, wanted, strings, at, front, last)
        }
    }
}

// Fields and a last one behind them: those in front in a loop, each of which leaves a context, directions and mark strings to the later ones.
#[cycle(check)]
fn check_all_fields(
    source: &Source,
    context: Vec<Entry>,
    wanted: &[Part],
    strings: &[Items<Mark>],
    at: Cursor,
    front: &[FieldTerm<Place>],
    last: &FieldTerm<Place>,
) -> Result<Fields, CertFault>
    ensures { Agrees (fields_in source.now.nodes.now) result (fields_by (map function_of source.now.functions.now) (bounds_of source.now.vars.now) (context_of (bounds_of source.now.vars.now) context.entry.items) (part_directions (to_parts (map part_of wanted.now))) strings.now (cursor_of source.now.nodes.now at) (named_with front.now last.now)) }
{
    let mut context = context;
    let mut wanted = wanted;
    let mut strings = strings;
    let mut at = at;
    let mut before = Items::new(source.alloc);
    for field in front {
        let got = check_next_field(source, &context, wanted, strings, at, field)?;
        at = got.at;
        before.push(Checked {
            name: &field.name,
            got,
        })?;
        context = seconds(source, next_marks(strings), &context)?;
        wanted = later_wanted(wanted);
        strings = later_strings(strings);
    }
    let made = check_last_field(source, &context, wanted, at, last)?;
    all_in_front(source, before, made)
}

// A field that isn't the last, on the first side of the first of the mark strings.
#[cycle(check)]
fn check_next_field(
    source: &Source,
    context: &[Entry],
    wanted: &[Part],
    strings: &[Items<Mark>],
    at: Cursor,
    field: &FieldTerm<Place>,
) -> Result<Got, CertFault>
    ensures { Agrees (got_in source.now.nodes.now) result (check_of (map function_of source.now.functions.now) (bounds_of source.now.vars.now) (first_of (first_marks strings.now) (context_of (bounds_of source.now.vars.now) context.now)) (next_direction (part_directions (to_parts (map part_of wanted.now)))) (cursor_of source.now.nodes.now at) (the_term field.now.term)) }
{
    let marks = next_marks(strings);
    check_first(source, context, marks, next_wanted(wanted), at, &field.term)
}

// The last field.
#[cycle(check)]
fn check_last_field(
    source: &Source,
    context: &[Entry],
    wanted: &[Part],
    at: Cursor,
    field: &FieldTerm<Place>,
) -> Result<Fields, CertFault>
    ensures { Agrees (fields_in source.now.nodes.now) result (forms.last_field (map function_of source.now.functions.now) (bounds_of source.now.vars.now) (context_of (bounds_of source.now.vars.now) context.now) (part_directions (to_parts (map part_of wanted.now))) (cursor_of source.now.nodes.now at) field.now.name (the_term field.now.term)) }
{
    let got = check_term(source, context, next_wanted(wanted), at, &field.term)?;
    last_in_front(source, &field.name, got)
}

// What a field that has another one behind it comes to.
#[derive(Drop)]
struct Checked<'a> {
    name: &'a Name,
    got: Got,
}

// Fields in front of the later ones. Want of memory is its one refusal.
#[inline(never)]
fn all_in_front(source: &Source, before: Items<Checked>, later: Fields) -> Result<Fields, CertFault>
    ensures { Agrees (fields_in source.now.nodes.now) result (Ok (all_before source.now.nodes.now before.entry (fields_in source.now.nodes.now later))) }
{
    let mut before = before;
    let mut later = later;
    while let Some(Checked { name, got }) = before.pop() {
        later = in_front(source, name, got, later)?;
    }
    Ok(later)
}

// A member.
#[cycle(check)]
#[inline(never)]
fn check_member(
    source: &Source,
    context: &[Entry],
    direction: Option<&Ty>,
    at: Cursor,
    place: Place,
    part: &Term<Place>,
    field: &At,
) -> Result<Got, CertFault>
    ensures { Agrees (got_in source.now.nodes.now) result (forms.member_by (map function_of source.now.functions.now) (bounds_of source.now.vars.now) (context_of (bounds_of source.now.vars.now) context.now) (way_of (option_copied direction.entry)) (cursor_of source.now.nodes.now at) place (the_term part.now) field.now) }
{
    let behind = reach_leaf(source, Node::Member, at)?;
    let got = check_term(source, context, None, behind, part)?;
    end_member(source, direction, at.next, place, field, got)
}

// A take.
#[cycle(check)]
#[inline(never)]
fn check_take(
    source: &Source,
    context: &[Entry],
    direction: Option<&Ty>,
    at: Cursor,
    place: Place,
    value: &Term<Place>,
    field: &At,
    rest: Place,
    binder: Place,
    body: &Term<Place>,
) -> Result<Got, CertFault>
    ensures { Agrees (got_in source.now.nodes.now) result (forms.take_by (map function_of source.now.functions.now) (bounds_of source.now.vars.now) (context_of (bounds_of source.now.vars.now) context.now) (way_of (option_copied direction.entry)) (cursor_of source.now.nodes.now at) place (the_term value.now) field.now rest binder (the_term body.now)) }
{
    let split = reach_split(source, context, Node::Take, at)?;
    let marks = split.marks;
    let first = check_first(source, context, marks, None, split.at, value)?;
    let held = taken_type(source, at.next, &field.name, first.ty())?;
    let second = check_taken(
        source, context, marks, direction, &first, field, &held, body,
    )?;
    take_node(source, marks, place, field, rest, binder, first, second)
}

// A put.
#[cycle(check)]
#[inline(never)]
fn check_put(
    source: &Source,
    context: &[Entry],
    direction: Option<&Ty>,
    at: Cursor,
    place: Place,
    value: &Term<Place>,
    field: &At,
    part: &Term<Place>,
) -> Result<Got, CertFault>
    ensures { Agrees (got_in source.now.nodes.now) result (forms.put_by (map function_of source.now.functions.now) (bounds_of source.now.vars.now) (context_of (bounds_of source.now.vars.now) context.now) (way_of (option_copied direction.entry)) (cursor_of source.now.nodes.now at) place (the_term value.now) field.now (the_term part.now)) }
{
    let split = reach_split(source, context, Node::Put, at)?;
    let marks = split.marks;
    let first = check_first(source, context, marks, None, split.at, value)?;
    let held = put_type(source, at.next, &field.name, first.ty())?;
    let second = check_second(source, context, marks, Some(&held), first.at, part)?;
    end_put(
        source, marks, direction, at.next, place, field, first, second,
    )
}

// A cast.
#[cycle(check)]
#[inline(never)]
fn check_cast(
    source: &Source,
    context: &[Entry],
    direction: Option<&Ty>,
    at: Cursor,
    place: Place,
    part: &Term<Place>,
) -> Result<Got, CertFault>
    ensures { Agrees (got_in source.now.nodes.now) result (forms.cast_by (map function_of source.now.functions.now) (bounds_of source.now.vars.now) (context_of (bounds_of source.now.vars.now) context.now) (way_of (option_copied direction.entry)) (cursor_of source.now.nodes.now at) place (the_term part.now)) }
{
    let behind = reach_leaf(source, Node::Cast, at)?;
    let Some(ty) = direction else {
        return Err(CertFault::C2(at.next));
    };
    let got = check_term(source, context, None, behind, part)?;
    end_cast(source, ty, at.next, place, got)
}

// A term with its type written.
#[cycle(check)]
#[inline(never)]
fn check_annot(
    source: &Source,
    context: &[Entry],
    direction: Option<&Ty>,
    at: Cursor,
    place: Place,
    part: &Term<Place>,
    arg: &TyArg,
) -> Result<Got, CertFault>
    ensures { Agrees (got_in source.now.nodes.now) result (forms.annot_by (map function_of source.now.functions.now) (bounds_of source.now.vars.now) (context_of (bounds_of source.now.vars.now) context.now) (way_of (option_copied direction.entry)) (cursor_of source.now.nodes.now at) place (the_term part.now) (arg_of arg.now)) }
{
    let behind = reach_leaf(source, Node::Annot, at)?;
    if !has_word_arrays(&arg.ty) {
        return Err(CertFault::C2(at.next));
    }
    let got = check_term(source, context, Some(&arg.ty), behind, part)?;
    end_annot(source, direction, at.next, place, arg, got)
}
