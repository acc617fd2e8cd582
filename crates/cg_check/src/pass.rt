// The pass over a term.
#![tactic(auto, unfolding(cg_check_def::specs::Pass::check, cg_check_pieces::proofs::TermSizes::size), using(crate::proofs::PassSteps::pass_steps))]

ghost use Rattle.std.specs.Prelude.{◌≡◌, IfOk, Ok, length, map, None, false, true};
ghost use Rattle.std.specs.Option.{option_copied};
ghost use Rattle.cg_base.specs.Types.{type_of, part_of, to_parts};
ghost use Rattle.cg_core.specs.Kernels.{function_of, the_field, the_term};
ghost use Rattle.cg_core.specs.Terms as terms;
ghost use Rattle.cg_core.specs.Terms.{arg_of, to_named, to_trees};
ghost use Rattle.cg_check_def.specs.Pass.{bind, check as check_of, check_shape, check_fields as fields_by, need as need_by};
ghost use Rattle.cg_check_context.specs.View.{Agrees, entries_of, types_in};
ghost use Rattle.cg_check_pieces.specs.View.{bounds_of, shape_at, way_of};
ghost use Rattle.cg_check_nodes.specs.Gots.{got_of};
ghost use Rattle.cg_typing.specs.Contexts.{push as push_of};
ghost use Rattle.cg_typing.specs.Rules.{is_literal as literal_of, note_at as note_of};
ghost use Rattle.cg_check_nodes.specs.Fields.{fields_of};
ghost use Rattle.cg_check.specs.Forms.{case_by, esac_by, if_by, let_bang_by, let_by, member_by, other_by, put_by, scoped, struct_by, take_by, taken_by};
ghost use Rattle.cg_check.specs.Gathered.{each, named_of, nameds_of, together};
ghost use Rattle.cg_check_context.specs.Observed.{see};
ghost use Rattle.cg_check.specs.Operators.{binary_by, by_left, by_right, first_operand, unary_by};
ghost use Rattle.cg_check_pieces.specs.Directions.{right_direction};
ghost use Rattle.cg_faults.specs.Events.{part_directions};
ghost use Rattle.cg_faults.specs.Plain.{observed};
ghost use Rattle.cg_typing_parts.specs.Views.{the_sort};
ghost use Rattle.cg_faults.specs.declared.rule.Rule.TheVariants.{T12};
ghost use Rattle.cg_typing.specs.Operators.{sort_of as sort_by, takes as takes_by};
ghost use Rattle.cg_check_uses.specs.Uses as tables;
ghost use Rattle.cg_typing.specs.Parts.{with_part as with_part_of};

use cg_base::{Items, Name, Part, Place, Ty};
use cg_check_context::{
    Known, Source, Stop, alternative_type, flags_of, injected_type, inner, inner_two, leave, need,
    observe, observe_all, put_type, restore, taken_type,
};
use cg_check_ends::{
    check_bare, check_bool, check_literal, check_mention, check_unit, check_var, end_annot,
    end_app, end_by_left, end_by_right, end_case, end_cast, end_esac, end_if, end_member, end_put,
    end_struct, end_unary, small, taken_by_sort,
};
use cg_check_nodes::{
    Fields, Got, behind_observed, boxed_tested, con_node, end_scoped, end_taken, enter_both,
    enter_copy, in_front, let_bang_node, let_node, no_fields, take_node,
};
use cg_check_pieces::{
    boxed, guided_direction, is_by_right, is_literal, later_wanted, may_be_made_of, next_wanted,
    other_way, parts_of,
};
use cg_check_uses::{mark, seen_places};
use cg_core::{At, FieldTerm, Form, Op, Seen, Term, TyArg};
use cg_faults::Rule;
use cg_typing_parts::{Sort, has_word_arrays, is_word, sort_of, with_part};
use std::alloc::Global;

// What a field comes to, with its name.
#[derive(Drop)]
struct NamedGot<'a> {
    name: &'a Name,
    got: Got,
}

/// What a term comes to, in a context and a direction, behind parts that touched some variables: as the pass answers it.
#[cycle(check)]
pub(crate) fn check_term(
    source: &Source,
    context: &mut Vec<Known>,
    before: &Vec<bool>,
    direction: Option<&Ty>,
    term: &Term<Place>,
) -> Result<Got, Stop>
    ensures answer { Agrees got_of result (check_of (map function_of source.now.functions.now) (bounds_of source.now.vars.now) (types_in (entries_of context.old.items)) before.now.items (way_of (option_copied direction.entry)) (the_term term.now)) }
    ensures same { IfOk result (λ _. entries_of context.new.items ≡ entries_of context.old.items) }
{
    let got = check_form(source, context, before, direction, term)?;
    small(term.note, got)
}

// The same, whatever the size of its type.
#[cycle(check)]
fn check_form(
    source: &Source,
    context: &mut Vec<Known>,
    before: &Vec<bool>,
    direction: Option<&Ty>,
    term: &Term<Place>,
) -> Result<Got, Stop>
    ensures answer { Agrees got_of result (check_shape (map function_of source.now.functions.now) (bounds_of source.now.vars.now) (types_in (entries_of context.old.items)) before.now.items (way_of (option_copied direction.entry)) (note_of (the_term term.now)) (shape_at (the_term term.now))) }
    ensures same { IfOk result (λ _. entries_of context.new.items ≡ entries_of context.old.items) }
{
    let place = term.note;
    match &term.form {
        Form::Var(at) => check_var(source, context, before, direction, place, *at),
        Form::Unit => check_unit(source, context, before, direction, place),
        Form::Bool(value) => check_bool(source, context, before, direction, place, *value),
        Form::Lit(value) => check_literal(source, context, before, direction, place, *value),
        Form::Fun(fun, args) => check_mention(
            source, context, before, direction, place, *fun, args,
        ),
        Form::Op(op, operands) => check_op(
            source, context, before, direction, place, *op, operands,
        ),
        Form::App(fun, arg) => check_app(source, context, before, direction, place, fun, arg),
        Form::Let(binder, value, body) => check_let(
            source, context, before, direction, place, *binder, value, body,
        ),
        Form::LetBang(observers, binder, value, body) => {
            check_let_bang(
                source, context, before, direction, place, observers, *binder, value, body,
            )
        }
        Form::If(test, first, second) => check_if(
            source, context, before, direction, place, test, first, second,
        ),
        Form::Con(name, part) => check_con(source, context, before, direction, place, name, part),
        Form::Case(value, at, binder, first, second) => {
            check_case(
                source, context, before, direction, place, value, at, *binder, first, second,
            )
        }
        Form::Esac(at, part) => check_esac(source, context, before, direction, place, at, part),
        Form::Struct(fields) => check_struct(source, context, before, direction, place, fields),
        Form::Member(part, at) => check_member(source, context, before, direction, place, part, at),
        Form::Take(value, at, rest, binder, body) => {
            check_take(
                source, context, before, direction, place, value, at, *rest, *binder, body,
            )
        }
        Form::Put(value, at, part) => check_put(
            source, context, before, direction, place, value, at, part,
        ),
        Form::Cast(part) => check_cast(source, context, before, direction, place, part),
        Form::Annot(part, arg) => check_annot(source, context, before, direction, place, part, arg),
    }
}

// An operator.
#[cycle(check)]
#[inline(never)]
fn check_op(
    source: &Source,
    context: &mut Vec<Known>,
    before: &Vec<bool>,
    direction: Option<&Ty>,
    place: Place,
    op: Op,
    operands: &Items<Term<Place>>,
) -> Result<Got, Stop>
    ensures answer { Agrees got_of result (check_shape (map function_of source.now.functions.now) (bounds_of source.now.vars.now) (types_in (entries_of context.old.items)) before.now.items (way_of (option_copied direction.entry)) place (terms.op op (to_trees (map the_term operands.now)))) }
    ensures same { IfOk result (λ _. entries_of context.new.items ≡ entries_of context.old.items) }
{
    match operands.as_slice() {
        [part] => check_unary(source, context, before, direction, place, op, part),
        [left, right] => check_binary(source, context, before, direction, place, op, left, right),
        _ => check_bare(source, context, place, op),
    }
}
// An operator with one operand.
#[cycle(check)]
fn check_unary(
    source: &Source,
    context: &mut Vec<Known>,
    before: &Vec<bool>,
    direction: Option<&Ty>,
    place: Place,
    op: Op,
    part: &Term<Place>,
) -> Result<Got, Stop>
    ensures answer { Agrees got_of result (unary_by (sort_by op) op (way_of (option_copied direction.entry)) place before.now.items (λ flags way. check_of (map function_of source.now.functions.now) (bounds_of source.now.vars.now) (types_in (entries_of context.old.items)) flags way (the_term part.now))) }
    ensures same { IfOk result (λ _. entries_of context.new.items ≡ entries_of context.old.items) }
{
    let sort = sort_of(op);
    let got = check_first(source, context, before, direction, place, sort, part)?;
    end_unary(source.alloc, direction, place, op, sort, got)
}

// An operator with two operands.
#[cycle(check)]
fn check_binary(
    source: &Source,
    context: &mut Vec<Known>,
    before: &Vec<bool>,
    direction: Option<&Ty>,
    place: Place,
    op: Op,
    left: &Term<Place>,
    right: &Term<Place>,
) -> Result<Got, Stop>
    ensures answer { Agrees got_of result (binary_by (sort_by op) op (way_of (option_copied direction.entry)) place (literal_of (the_term left.now)) before.now.items (λ flags way. check_of (map function_of source.now.functions.now) (bounds_of source.now.vars.now) (types_in (entries_of context.old.items)) flags way (the_term left.now)) (λ flags way. check_of (map function_of source.now.functions.now) (bounds_of source.now.vars.now) (types_in (entries_of context.old.items)) flags way (the_term right.now))) }
    ensures same { IfOk result (λ _. entries_of context.new.items ≡ entries_of context.old.items) }
{
    let sort = sort_of(op);
    if is_by_right(direction, sort, is_literal(left)) {
        check_by_right(
            source, context, before, direction, place, op, sort, left, right,
        )
    } else {
        check_by_left(
            source, context, before, direction, place, op, sort, left, right,
        )
    }
}

// The same, whose left operand is checked first.
#[cycle(check)]
#[inline(never)]
fn check_by_left(
    source: &Source,
    context: &mut Vec<Known>,
    before: &Vec<bool>,
    direction: Option<&Ty>,
    place: Place,
    op: Op,
    sort: Sort,
    left: &Term<Place>,
    right: &Term<Place>,
) -> Result<Got, Stop>
    ensures answer { Agrees got_of result (by_left (the_sort sort) op (way_of (option_copied direction.entry)) place before.now.items (λ flags way. check_of (map function_of source.now.functions.now) (bounds_of source.now.vars.now) (types_in (entries_of context.old.items)) flags way (the_term left.now)) (λ flags way. check_of (map function_of source.now.functions.now) (bounds_of source.now.vars.now) (types_in (entries_of context.old.items)) flags way (the_term right.now))) }
    ensures same { IfOk result (λ _. entries_of context.new.items ≡ entries_of context.old.items) }
{
    let first = check_first(source, context, before, direction, place, sort, left)?;
    let second = check_second(source, context, before, direction, sort, &first, right)?;
    end_by_left(source.alloc, direction, place, op, sort, first, second)
}

// The same, whose right operand is checked first: the left one is a literal, which touches nothing.
#[cycle(check)]
#[inline(never)]
fn check_by_right(
    source: &Source,
    context: &mut Vec<Known>,
    before: &Vec<bool>,
    direction: Option<&Ty>,
    place: Place,
    op: Op,
    sort: Sort,
    left: &Term<Place>,
    right: &Term<Place>,
) -> Result<Got, Stop>
    ensures answer { Agrees got_of result (by_right (the_sort sort) op (way_of (option_copied direction.entry)) place before.now.items (λ flags way. check_of (map function_of source.now.functions.now) (bounds_of source.now.vars.now) (types_in (entries_of context.old.items)) flags way (the_term left.now)) (λ flags way. check_of (map function_of source.now.functions.now) (bounds_of source.now.vars.now) (types_in (entries_of context.old.items)) flags way (the_term right.now))) }
    ensures same { IfOk result (λ _. entries_of context.new.items ≡ entries_of context.old.items) }
{
    let second = check_first(source, context, before, direction, place, sort, right)?;
    let way = guided_direction(direction, sort, second.ty());
    let first = check_term(source, context, before, way, left)?;
    end_by_right(source.alloc, direction, place, op, sort, first, second)
}

// The operand that is checked first: as the node says, or as the guide of the other one (T12).
#[cycle(check)]
fn check_first(
    source: &Source,
    context: &mut Vec<Known>,
    before: &Vec<bool>,
    direction: Option<&Ty>,
    place: Place,
    sort: Sort,
    part: &Term<Place>,
) -> Result<Got, Stop>
    ensures answer { Agrees got_of result (first_operand (the_sort sort) (way_of (option_copied direction.entry)) place (λ way. check_of (map function_of source.now.functions.now) (bounds_of source.now.vars.now) (types_in (entries_of context.old.items)) before.now.items way (the_term part.now))) }
    ensures same { IfOk result (λ _. entries_of context.new.items ≡ entries_of context.old.items) }
{
    match sort {
        Sort::Logic => check_term(source, context, before, Some(&Ty::Bool), part),
        Sort::Arithmetic => match direction {
            Some(wanted) => {
                need(Rule::T12, place, is_word(wanted))?;
                check_term(source, context, before, direction, part)
            }
            None => check_guide(source, context, before, place, sort, part),
        },
        Sort::Equality | Sort::Order => check_guide(source, context, before, place, sort, part),
    }
}

// An operand that guides the other one: it is of a type that the operator takes (T12).
#[cycle(check)]
fn check_guide(
    source: &Source,
    context: &mut Vec<Known>,
    before: &Vec<bool>,
    place: Place,
    sort: Sort,
    part: &Term<Place>,
) -> Result<Got, Stop>
    ensures answer { Agrees got_of result (bind (check_of (map function_of source.now.functions.now) (bounds_of source.now.vars.now) (types_in (entries_of context.old.items)) before.now.items None (the_term part.now)) (λ u. need_by T12 place (takes_by (the_sort sort) u.ty) (Ok u))) }
    ensures same { IfOk result (λ _. entries_of context.new.items ≡ entries_of context.old.items) }
{
    let got = check_term(source, context, before, None, part)?;
    taken_by_sort(place, sort, got)
}

// The right operand behind the left one.
#[cycle(check)]
fn check_second(
    source: &Source,
    context: &mut Vec<Known>,
    before: &Vec<bool>,
    direction: Option<&Ty>,
    sort: Sort,
    first: &Got,
    part: &Term<Place>,
) -> Result<Got, Stop>
    ensures answer { Agrees got_of result (check_of (map function_of source.now.functions.now) (bounds_of source.now.vars.now) (types_in (entries_of context.old.items)) (tables.mark before.now.items (got_of first.now).uses) (right_direction (the_sort sort) (way_of (option_copied direction.entry)) (got_of first.now).ty) (the_term part.now)) }
    ensures same { IfOk result (λ _. entries_of context.new.items ≡ entries_of context.old.items) }
{
    match sort {
        Sort::Logic => check_behind(source, context, before, first, Some(&Ty::Bool), part),
        Sort::Arithmetic | Sort::Equality | Sort::Order => {
            let way = guided_direction(direction, sort, first.ty());
            check_behind(source, context, before, first, way, part)
        }
    }
}

// A part behind another one.
#[cycle(check)]
fn check_behind(
    source: &Source,
    context: &mut Vec<Known>,
    before: &Vec<bool>,
    first: &Got,
    way: Option<&Ty>,
    part: &Term<Place>,
) -> Result<Got, Stop>
    ensures answer { Agrees got_of result (check_of (map function_of source.now.functions.now) (bounds_of source.now.vars.now) (types_in (entries_of context.old.items)) (tables.mark before.now.items (got_of first.now).uses) (way_of (option_copied way.entry)) (the_term part.now)) }
    ensures same { IfOk result (λ _. entries_of context.new.items ≡ entries_of context.old.items) }
{
    let marked = mark(source.alloc, before, &first.uses)?;
    check_term(source, context, &marked, way, part)
}

// An application.
#[cycle(check)]
#[inline(never)]
fn check_app(
    source: &Source,
    context: &mut Vec<Known>,
    before: &Vec<bool>,
    direction: Option<&Ty>,
    place: Place,
    fun: &Term<Place>,
    arg: &Term<Place>,
) -> Result<Got, Stop>
    ensures answer { Agrees got_of result (check_shape (map function_of source.now.functions.now) (bounds_of source.now.vars.now) (types_in (entries_of context.old.items)) before.now.items (way_of (option_copied direction.entry)) place (terms.app (the_term fun.now) (the_term arg.now))) }
    ensures same { IfOk result (λ _. entries_of context.new.items ≡ entries_of context.old.items) }
{
    let first = check_term(source, context, before, None, fun)?;
    let Ty::Arrow(from, _) = first.ty() else {
        return Err(Stop::Rule(Rule::T4, fun.note));
    };
    let second = check_behind(source, context, before, &first, Some(from), arg)?;
    end_app(source.alloc, direction, place, first, second)
}

// A `let`.
#[cycle(check)]
#[inline(never)]
fn check_let(
    source: &Source,
    context: &mut Vec<Known>,
    before: &Vec<bool>,
    direction: Option<&Ty>,
    place: Place,
    binder: Place,
    value: &Term<Place>,
    body: &Term<Place>,
) -> Result<Got, Stop>
    ensures answer { Agrees got_of result (let_by (map function_of source.now.functions.now) (bounds_of source.now.vars.now) (types_in (entries_of context.old.items)) before.now.items (way_of (option_copied direction.entry)) place binder (the_term value.now) (the_term body.now)) }
    ensures same { IfOk result (λ _. entries_of context.new.items ≡ entries_of context.old.items) }
{
    let count = context.len();
    let first = check_term(source, context, before, None, value)?;
    let second = check_bound(
        source,
        context,
        before,
        &first,
        direction,
        binder,
        first.ty(),
        body,
    )?;
    let_node(source.alloc, count, place, binder, first, second)
}

// A `let!`.
#[cycle(check)]
#[inline(never)]
fn check_let_bang(
    source: &Source,
    context: &mut Vec<Known>,
    before: &Vec<bool>,
    direction: Option<&Ty>,
    place: Place,
    observers: &Items<Seen>,
    binder: Place,
    value: &Term<Place>,
    body: &Term<Place>,
) -> Result<Got, Stop>
    ensures answer { Agrees got_of result (let_bang_by (map function_of source.now.functions.now) (bounds_of source.now.vars.now) (types_in (entries_of context.old.items)) before.now.items (way_of (option_copied direction.entry)) place observers.now binder (the_term value.now) (the_term body.now)) }
    ensures same { IfOk result (λ _. entries_of context.new.items ≡ entries_of context.old.items) }
{
    observe_all(source, context, before, observers)?;
    let count = context.len();
    let first = check_observed(source, context, before, observers, value)?;
    let marked = behind_observed(source, count, observers, before, value.note, &first)?;
    let second = check_scoped(
        source,
        context,
        &marked,
        direction,
        binder,
        first.ty(),
        body,
    )?;
    let_bang_node(source.alloc, count, place, observers, binder, first, second)
}

// A conditional.
#[cycle(check)]
#[inline(never)]
fn check_if(
    source: &Source,
    context: &mut Vec<Known>,
    before: &Vec<bool>,
    direction: Option<&Ty>,
    place: Place,
    test: &Term<Place>,
    first: &Term<Place>,
    second: &Term<Place>,
) -> Result<Got, Stop>
    ensures answer { Agrees got_of result (if_by (map function_of source.now.functions.now) (bounds_of source.now.vars.now) (types_in (entries_of context.old.items)) before.now.items (way_of (option_copied direction.entry)) place (the_term test.now) (the_term first.now) (the_term second.now)) }
    ensures same { IfOk result (λ _. entries_of context.new.items ≡ entries_of context.old.items) }
{
    let part = check_term(source, context, before, Some(&Ty::Bool), test)?;
    let one = check_behind(source, context, before, &part, direction, first)?;
    let way = other_way(direction, one.ty());
    let other = check_behind(source, context, before, &part, way, second)?;
    end_if(
        source,
        context,
        place,
        part,
        one,
        other,
        first.note,
        second.note,
    )
}

// A value of a variant type.
#[cycle(check)]
#[inline(never)]
fn check_con(
    source: &Source,
    context: &mut Vec<Known>,
    before: &Vec<bool>,
    direction: Option<&Ty>,
    place: Place,
    name: &Name,
    part: &Term<Place>,
) -> Result<Got, Stop>
    ensures answer { Agrees got_of result (check_shape (map function_of source.now.functions.now) (bounds_of source.now.vars.now) (types_in (entries_of context.old.items)) before.now.items (way_of (option_copied direction.entry)) place (terms.con name.now (the_term part.now))) }
    ensures same { IfOk result (λ _. entries_of context.new.items ≡ entries_of context.old.items) }
{
    let Some(ty) = direction else {
        return Err(Stop::Rule(Rule::T2, place));
    };
    let held = boxed_tested(source.alloc, injected_type(source, place, name, ty))?;
    let got = check_term(source, context, before, Some(&held), part)?;
    con_node(source.alloc, place, ty, name, got)
}

// A match on one alternative.
#[cycle(check)]
#[inline(never)]
fn check_case(
    source: &Source,
    context: &mut Vec<Known>,
    before: &Vec<bool>,
    direction: Option<&Ty>,
    place: Place,
    value: &Term<Place>,
    at: &At,
    binder: Place,
    first: &Term<Place>,
    second: &Term<Place>,
) -> Result<Got, Stop>
    ensures answer { Agrees got_of result (case_by (map function_of source.now.functions.now) (bounds_of source.now.vars.now) (types_in (entries_of context.old.items)) before.now.items (way_of (option_copied direction.entry)) place (the_term value.now) at.now binder (the_term first.now) (the_term second.now)) }
    ensures same { IfOk result (λ _. entries_of context.new.items ≡ entries_of context.old.items) }
{
    let part = check_term(source, context, before, None, value)?;
    let held = boxed_tested(source.alloc, alternative_type(source, at, part.ty()))?;
    let one = check_bound(
        source, context, before, &part, direction, binder, &held, first,
    )?;
    check_other(
        source, context, before, direction, place, at, binder, part, one, first.note, second,
    )
}

// The other branch of a match, behind the first, whose note this is.
#[cycle(check)]
fn check_other(
    source: &Source,
    context: &mut Vec<Known>,
    before: &Vec<bool>,
    direction: Option<&Ty>,
    place: Place,
    at: &At,
    binder: Place,
    part: Got,
    one: Got,
    note: Place,
    second: &Term<Place>,
) -> Result<Got, Stop>
    ensures answer { Agrees got_of result (other_by (map function_of source.now.functions.now) (bounds_of source.now.vars.now) (types_in (entries_of context.old.items)) (push_of (tables.mark before.now.items (got_of part).uses) false) (way_of (option_copied direction.entry)) place at.now binder note (the_term second.now) (got_of part) (got_of one)) }
    ensures same { IfOk result (λ _. entries_of context.new.items ≡ entries_of context.old.items) }
{
    let left = boxed(
        source.alloc,
        with_part(source.alloc, &at.name, true, part.ty()),
    )?;
    let way = other_way(direction, one.ty());
    let other = check_bound(source, context, before, &part, way, at.place, &left, second)?;
    end_case(
        source,
        context,
        place,
        at,
        binder,
        part,
        one,
        other,
        note,
        second.note,
    )
}

// A match on the last alternative.
#[cycle(check)]
#[inline(never)]
fn check_esac(
    source: &Source,
    context: &mut Vec<Known>,
    before: &Vec<bool>,
    direction: Option<&Ty>,
    place: Place,
    at: &At,
    part: &Term<Place>,
) -> Result<Got, Stop>
    ensures answer { Agrees got_of result (esac_by (map function_of source.now.functions.now) (bounds_of source.now.vars.now) (types_in (entries_of context.old.items)) before.now.items (way_of (option_copied direction.entry)) place (the_term part.now) at.now) }
    ensures same { IfOk result (λ _. entries_of context.new.items ≡ entries_of context.old.items) }
{
    let got = check_term(source, context, before, None, part)?;
    end_esac(source, direction, place, at, got)
}

// A record, whose fields are those of the type that is checked against, if any (T1).
#[cycle(check)]
#[inline(never)]
fn check_struct(
    source: &Source,
    context: &mut Vec<Known>,
    before: &Vec<bool>,
    direction: Option<&Ty>,
    place: Place,
    fields: &Items<FieldTerm<Place>>,
) -> Result<Got, Stop>
    ensures answer { Agrees got_of result (struct_by (map function_of source.now.functions.now) (bounds_of source.now.vars.now) (types_in (entries_of context.old.items)) before.now.items (way_of (option_copied direction.entry)) place (to_named (map the_field fields.now))) }
    ensures same { IfOk result (λ _. entries_of context.new.items ≡ entries_of context.old.items) }
{
    need(Rule::T1, place, may_be_made_of(direction, fields))?;
    let made = check_fields(
        source,
        context,
        before,
        parts_of(direction),
        fields.as_slice(),
    )?;
    end_struct(source.alloc, direction, place, made)
}

// Fields in their order, each against the part of a record type that stands where it does.
#[cycle(check)]
fn check_fields(
    source: &Source,
    context: &mut Vec<Known>,
    before: &Vec<bool>,
    wanted: &[Part],
    fields: &[FieldTerm<Place>],
) -> Result<Fields, Stop>
    ensures answer { Agrees fields_of result (fields_by (map function_of source.now.functions.now) (bounds_of source.now.vars.now) (types_in (entries_of context.old.items)) before.now.items (part_directions (to_parts (map part_of wanted.now))) (to_named (map the_field fields.now))) }
    ensures same { IfOk result (λ _. entries_of context.new.items ≡ entries_of context.old.items) }
{
    let gots = check_each(source, context, before, wanted, fields)?;
    put_together(source.alloc, context, gots)
}

// What each field comes to, one after another, so that a record takes no more of the stack for more fields.
#[cycle(check)]
fn check_each<'a>(
    source: &Source,
    context: &mut Vec<Known>,
    before: &Vec<bool>,
    wanted: &[Part],
    fields: &'a [FieldTerm<Place>],
) -> Result<Items<NamedGot<'a>>, Stop>
    ensures answer { Agrees nameds_of result (each (map function_of source.now.functions.now) (bounds_of source.now.vars.now) (types_in (entries_of context.old.items)) before.now.items (part_directions (to_parts (map part_of wanted.now))) (to_named (map the_field fields.now))) }
    ensures same { IfOk result (λ _. entries_of context.new.items ≡ entries_of context.old.items) }
{
    let mut gots = Items::new(source.alloc);
    let mut flags = before.clone()?;
    let mut wanted = wanted;
    for field in fields {
        let got = check_term(source, context, &flags, next_wanted(wanted), &field.term)?;
        flags = mark(source.alloc, &flags, &got.uses)?;
        wanted = later_wanted(wanted);
        gots.push(NamedGot {
            name: &field.name,
            got,
        })?;
    }
    Ok(gots)
}

// Fields put together, from the last one on.
fn put_together(alloc: Global, context: &Vec<Known>, gots: Items<NamedGot>) -> Result<Fields, Stop>
    ensures { Agrees fields_of result (Ok (together (length (types_in (entries_of context.now.items))) (map named_of gots.entry))) }
{
    let mut gots = gots;
    let mut later = no_fields(alloc, context)?;
    let mut alone = true;
    while let Some(field) = gots.pop() {
        let NamedGot { name, got } = field;
        later = in_front(alloc, name, got, alone, later)?;
        alone = false;
    }
    Ok(later)
}

// A member.
#[cycle(check)]
#[inline(never)]
fn check_member(
    source: &Source,
    context: &mut Vec<Known>,
    before: &Vec<bool>,
    direction: Option<&Ty>,
    place: Place,
    part: &Term<Place>,
    at: &At,
) -> Result<Got, Stop>
    ensures answer { Agrees got_of result (member_by (map function_of source.now.functions.now) (bounds_of source.now.vars.now) (types_in (entries_of context.old.items)) before.now.items (way_of (option_copied direction.entry)) place (the_term part.now) at.now) }
    ensures same { IfOk result (λ _. entries_of context.new.items ≡ entries_of context.old.items) }
{
    let got = check_term(source, context, before, None, part)?;
    end_member(source, direction, place, at, got)
}

// A take.
#[cycle(check)]
#[inline(never)]
fn check_take(
    source: &Source,
    context: &mut Vec<Known>,
    before: &Vec<bool>,
    direction: Option<&Ty>,
    place: Place,
    value: &Term<Place>,
    at: &At,
    rest: Place,
    binder: Place,
    body: &Term<Place>,
) -> Result<Got, Stop>
    ensures answer { Agrees got_of result (take_by (map function_of source.now.functions.now) (bounds_of source.now.vars.now) (types_in (entries_of context.old.items)) before.now.items (way_of (option_copied direction.entry)) place (the_term value.now) at.now rest binder (the_term body.now)) }
    ensures same { IfOk result (λ _. entries_of context.new.items ≡ entries_of context.old.items) }
{
    let count = context.len();
    let first = check_term(source, context, before, None, value)?;
    let held = boxed_tested(source.alloc, taken_type(source, at, first.ty()))?;
    let second = check_taken(
        source, context, before, &first, direction, at, rest, binder, &held, body,
    )?;
    take_node(source.alloc, count, place, at, rest, binder, first, second)
}

// A put.
#[cycle(check)]
#[inline(never)]
fn check_put(
    source: &Source,
    context: &mut Vec<Known>,
    before: &Vec<bool>,
    direction: Option<&Ty>,
    place: Place,
    value: &Term<Place>,
    at: &At,
    part: &Term<Place>,
) -> Result<Got, Stop>
    ensures answer { Agrees got_of result (put_by (map function_of source.now.functions.now) (bounds_of source.now.vars.now) (types_in (entries_of context.old.items)) before.now.items (way_of (option_copied direction.entry)) place (the_term value.now) at.now (the_term part.now)) }
    ensures same { IfOk result (λ _. entries_of context.new.items ≡ entries_of context.old.items) }
{
    let first = check_term(source, context, before, None, value)?;
    let held = boxed_tested(source.alloc, put_type(source, at, first.ty()))?;
    let second = check_behind(source, context, before, &first, Some(&held), part)?;
    end_put(source.alloc, direction, place, at, first, second)
}

// A cast.
#[cycle(check)]
#[inline(never)]
fn check_cast(
    source: &Source,
    context: &mut Vec<Known>,
    before: &Vec<bool>,
    direction: Option<&Ty>,
    place: Place,
    part: &Term<Place>,
) -> Result<Got, Stop>
    ensures answer { Agrees got_of result (check_shape (map function_of source.now.functions.now) (bounds_of source.now.vars.now) (types_in (entries_of context.old.items)) before.now.items (way_of (option_copied direction.entry)) place (terms.cast (the_term part.now))) }
    ensures same { IfOk result (λ _. entries_of context.new.items ≡ entries_of context.old.items) }
{
    let Some(ty) = direction else {
        return Err(Stop::Rule(Rule::T2, place));
    };
    let got = check_term(source, context, before, None, part)?;
    end_cast(source.alloc, place, ty, got)
}

// A term with its type written.
#[cycle(check)]
#[inline(never)]
fn check_annot(
    source: &Source,
    context: &mut Vec<Known>,
    before: &Vec<bool>,
    direction: Option<&Ty>,
    place: Place,
    part: &Term<Place>,
    arg: &TyArg,
) -> Result<Got, Stop>
    ensures answer { Agrees got_of result (check_shape (map function_of source.now.functions.now) (bounds_of source.now.vars.now) (types_in (entries_of context.old.items)) before.now.items (way_of (option_copied direction.entry)) place (terms.annot (the_term part.now) (arg_of arg.now))) }
    ensures same { IfOk result (λ _. entries_of context.new.items ≡ entries_of context.old.items) }
{
    need(Rule::T14, arg.place, has_word_arrays(&arg.ty))?;
    let got = check_term(source, context, before, Some(&arg.ty), part)?;
    end_annot(source.alloc, direction, place, arg, got)
}

// A term behind a part, in the scope of a new variable of this type, with K3 at its end.
#[cycle(check)]
fn check_bound(
    source: &Source,
    context: &mut Vec<Known>,
    before: &Vec<bool>,
    first: &Got,
    direction: Option<&Ty>,
    binder: Place,
    ty: &Ty,
    body: &Term<Place>,
) -> Result<Got, Stop>
    ensures answer { Agrees got_of result (scoped (map function_of source.now.functions.now) (bounds_of source.now.vars.now) (types_in (entries_of context.old.items)) (push_of (tables.mark before.now.items (got_of first.now).uses) false) (way_of (option_copied direction.entry)) binder (type_of ty.now) (the_term body.now)) }
    ensures same { IfOk result (λ _. entries_of context.new.items ≡ entries_of context.old.items) }
{
    let marked = inner(source.alloc, before, &first.uses)?;
    check_scoped(source, context, &marked, direction, binder, ty, body)
}

// A term in the scope of a new variable of this type, with K3 at its end.
#[cycle(check)]
fn check_scoped(
    source: &Source,
    context: &mut Vec<Known>,
    before: &Vec<bool>,
    direction: Option<&Ty>,
    binder: Place,
    ty: &Ty,
    body: &Term<Place>,
) -> Result<Got, Stop>
    ensures answer { Agrees got_of result (scoped (map function_of source.now.functions.now) (bounds_of source.now.vars.now) (types_in (entries_of context.old.items)) before.now.items (way_of (option_copied direction.entry)) binder (type_of ty.now) (the_term body.now)) }
    ensures same { IfOk result (λ _. entries_of context.new.items ≡ entries_of context.old.items) }
{
    enter_copy(source.alloc, context, ty)?;
    let got = check_term(source, context, before, direction, body)?;
    leave(context);
    end_scoped(source, binder, ty, got)
}

// A term behind a part, in the scope of what is left of the record that the part is and of the field that is taken, with K3 at the end of both.
#[cycle(check)]
fn check_taken(
    source: &Source,
    context: &mut Vec<Known>,
    before: &Vec<bool>,
    first: &Got,
    direction: Option<&Ty>,
    at: &At,
    rest: Place,
    binder: Place,
    held: &Ty,
    body: &Term<Place>,
) -> Result<Got, Stop>
    ensures answer { Agrees got_of result (taken_by (map function_of source.now.functions.now) (bounds_of source.now.vars.now) (types_in (entries_of context.old.items)) (push_of (push_of (tables.mark before.now.items (got_of first.now).uses) false) false) (way_of (option_copied direction.entry)) rest binder (with_part_of at.now.name true (got_of first.now).ty) (type_of held.now) (the_term body.now)) }
    ensures same { IfOk result (λ _. entries_of context.new.items ≡ entries_of context.old.items) }
{
    let marked = inner_two(source.alloc, before, &first.uses)?;
    let left = boxed(
        source.alloc,
        with_part(source.alloc, &at.name, true, first.ty()),
    )?;
    enter_both(source.alloc, context, &left, held)?;
    let got = check_term(source, context, &marked, direction, body)?;
    leave(context);
    leave(context);
    end_taken(source, rest, &left, binder, held, got)
}

// A term while a `let!` observes some variables.
#[cycle(check)]
fn check_observed(
    source: &Source,
    context: &mut Vec<Known>,
    before: &Vec<bool>,
    observers: &Items<Seen>,
    value: &Term<Place>,
) -> Result<Got, Stop>
    ensures answer { Agrees got_of result (check_of (map function_of source.now.functions.now) (bounds_of source.now.vars.now) (observed observers.now (types_in (entries_of context.old.items))) before.now.items None (the_term value.now)) }
    ensures same { IfOk result (λ _. entries_of context.new.items ≡ entries_of context.old.items) }
{
    let seen = seen_places(source.alloc, context.len(), observers)?;
    check_seen(source, context, before, &seen, value)
}

// The same, by which of the variables are observed.
#[cycle(check)]
fn check_seen(
    source: &Source,
    context: &mut Vec<Known>,
    before: &Vec<bool>,
    seen: &Vec<Option<Place>>,
    value: &Term<Place>,
) -> Result<Got, Stop>
    ensures answer { Agrees got_of result (check_of (map function_of source.now.functions.now) (bounds_of source.now.vars.now) (types_in (see seen.now.items (entries_of context.old.items))) before.now.items None (the_term value.now)) }
    ensures same { IfOk result (λ _. entries_of context.new.items ≡ entries_of context.old.items) }
{
    let flags = flags_of(source.alloc, context)?;
    observe(context, seen);
    let got = check_term(source, context, before, None, value)?;
    restore(context, &flags);
    Ok(got)
}
