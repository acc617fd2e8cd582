// What each form of node comes to. Want of memory is the one refusal of each of these.
ghost use Rattle.std.specs.Prelude.{◌≡◌, IfOk, Ok};
ghost use Rattle.cg_base.specs.Types.{type_of};
ghost use Rattle.cg_core.specs.declared.derivation.Node.TheVariants.{LetBang};
ghost use Rattle.cg_core.specs.Derivations.{derivation_of};
ghost use Rattle.cg_core.specs.Kernels.{the_core};
ghost use Rattle.cg_core.specs.Terms.{arg_of};
ghost use Rattle.cg_check_uses.specs.Marks as splits;
ghost use Rattle.cg_check_uses.specs.Uses as tables;
ghost use Rattle.cg_check_def.specs.Pass.{operated as operated_of, operated_both as operated_both_of};
ghost use Rattle.cg_check_context.specs.View.{Agrees};
ghost use Rattle.cg_check_pieces.specs.Boxed.{in_box};
ghost use Rattle.cg_check_nodes.specs.Closed as parts;
ghost use Rattle.cg_check_nodes.specs.Nodes as forms;
ghost use Rattle.cg_check_nodes.specs.Gots.{got_of};

use crate::got::{Got, Pair, Single, Triple, alone, branched, in_turn, made, paired};
use cg_base::{Items, Memory, Name, Place, Ty};
use cg_check_context::Stop;
use cg_check_pieces::{copied, copied_observers, one_operand, two_operands};
use cg_check_uses::{
    Use, join_seen, keep_new, kept_beside, kept_seen, leave, marks_seen, seen_places, settle,
};
use cg_core::{At, Form, Node, Op, Seen, TyArg};
use std::alloc::Global;

/// An operator with one operand.
#[tactic(auto, using(cg_check_pieces::proofs::CoreSteps::core_steps))]
#[inline(never)]
pub fn operated(alloc: Global, op: Op, place: Place, ty: Box<Ty>, part: Got) -> Result<Got, Stop>
    ensures { Agrees got_of result (Ok (operated_of op place (in_box ty) (got_of part))) }
{
    let Single { part, tree, uses } = alone(alloc, Node::Op, part)?;
    let operands = one_operand(alloc, part)?;
    made(alloc, place, ty, Form::Op(op, operands), tree, uses)
}

/// An operator with two operands.
#[tactic(auto, using(cg_check_pieces::proofs::CoreSteps::core_steps))]
#[inline(never)]
pub fn operated_both(
    alloc: Global,
    op: Op,
    place: Place,
    ty: Box<Ty>,
    left: Got,
    right: Got,
) -> Result<Got, Stop>
    ensures { Agrees got_of result (Ok (operated_both_of op place (in_box ty) (got_of left) (got_of right))) }
{
    let Pair {
        first,
        second,
        tree,
        uses,
    } = in_turn(alloc, Node::Op, left, right)?;
    let operands = two_operands(alloc, first, second)?;
    made(alloc, place, ty, Form::Op(op, operands), tree, uses)
}

/// An application.
#[inline(never)]
pub fn app_node(alloc: Global, place: Place, ty: Box<Ty>, fun: Got, arg: Got) -> Result<Got, Stop>
    ensures { Agrees got_of result (Ok (forms.app_node place (in_box ty) (got_of fun) (got_of arg))) }
{
    let Pair {
        first,
        second,
        tree,
        uses,
    } = in_turn(alloc, Node::App, fun, arg)?;
    made(alloc, place, ty, Form::App(first, second), tree, uses)
}

// The last variable of a part goes out of scope: what the part does with it.
fn leave_last(part: &mut Got) -> Use
    ensures last { result ≡ tables.last (got_of part.old).uses }
    ensures rest { got_of part.new ≡ parts.behind_last (got_of part.old) }
{
    leave(&mut part.uses)
}

// Variables are present in a part.
fn keep_all(part: &mut Got, kept: &Vec<usize>)
    ensures { got_of part.new ≡ parts.keeping kept.now.items (got_of part.old) }
{
    settle(&mut part.tree, kept);
}

// The last variable of a part, which was new at a position, goes out of scope.
fn closed(alloc: Global, at: usize, part: Got) -> Result<Got, Memory>
    ensures { IfOk result (λ got. got_of got ≡ parts.closed at (got_of part)) }
{
    let mut part = part;
    let given = leave_last(&mut part);
    let mut kept = Vec::new(alloc);
    keep_new(&mut kept, at, given)?;
    keep_all(&mut part, &kept);
    Ok(part)
}

/// A `let`, in a context of so many variables.
#[inline(never)]
pub fn let_node(
    alloc: Global,
    count: usize,
    place: Place,
    binder: Place,
    value: Got,
    body: Got,
) -> Result<Got, Stop>
    ensures { Agrees got_of result (Ok (forms.let_node count place binder (got_of value) (got_of body))) }
{
    let body = closed(alloc, count, body)?;
    let ty = copied(alloc, body.ty())?;
    let Pair {
        first,
        second,
        tree,
        uses,
    } = in_turn(alloc, Node::Let, value, body)?;
    made(
        alloc,
        place,
        ty,
        Form::Let(binder, first, second),
        tree,
        uses,
    )
}

// The first part of a `let!` that observes these.
fn observing(alloc: Global, seen: &[Option<Place>], part: Got) -> Result<Got, Memory>
    ensures { IfOk result (λ got. got_of got ≡ parts.observing seen.now (got_of part)) }
{
    let mut part = part;
    let kept = kept_seen(alloc, seen, &part.uses)?;
    keep_all(&mut part, &kept);
    Ok(part)
}

// The second part of a `let!` that observes these, whose last variable was new at a position.
fn behind_observers(
    alloc: Global,
    seen: &[Option<Place>],
    at: usize,
    part: Got,
) -> Result<Got, Memory>
    ensures { IfOk result (λ got. got_of got ≡ parts.behind_observers seen.now at (got_of part)) }
{
    let mut part = part;
    let given = leave_last(&mut part);
    let mut kept = kept_seen(alloc, seen, &part.uses)?;
    keep_new(&mut kept, at, given)?;
    keep_all(&mut part, &kept);
    Ok(part)
}

// The two parts of a `let!` that observes these, with the marks between them.
fn observed_pair(
    alloc: Global,
    seen: &[Option<Place>],
    value: Got,
    body: Got,
) -> Result<Pair, Memory>
    ensures first { IfOk result (λ p. the_core p.first.value ≡ (got_of value).core) }
    ensures second { IfOk result (λ p. the_core p.second.value ≡ (got_of body).core) }
    ensures tree { IfOk result (λ p. derivation_of p.tree
        ≡ splits.two_parts LetBang (splits.marks_seen seen.now (got_of value).uses (got_of body).uses) (got_of value).tree (got_of body).tree) }
    ensures uses { IfOk result (λ p. p.uses.items ≡ tables.join_seen seen.now (got_of value).uses (got_of body).uses) }
{
    let marks = marks_seen(alloc, seen, &value.uses, &body.uses)?;
    let uses = join_seen(alloc, seen, &value.uses, &body.uses)?;
    paired(alloc, Node::LetBang, marks, uses, value, body)
}

// The parts of a `let!` with these observers, the last variable of whose second part was new at a position.
fn let_bang_pair(
    alloc: Global,
    observers: &Items<Seen>,
    at: usize,
    value: Got,
    body: Got,
) -> Result<Pair, Memory>
    ensures first { IfOk result (λ p. the_core p.first.value ≡ (got_of value).core) }
    ensures second { IfOk result (λ p. the_core p.second.value ≡ (got_of body).core) }
    ensures tree { IfOk result (λ p. derivation_of p.tree ≡ parts.observed_tree (tables.seen_places at observers.now) at (got_of value) (got_of body)) }
    ensures uses { IfOk result (λ p. p.uses.items ≡ tables.join_seen (tables.seen_places at observers.now) (got_of value).uses (tables.front (got_of body).uses)) }
{
    let seen = seen_places(alloc, at, observers)?;
    let value = observing(alloc, &seen, value)?;
    let body = behind_observers(alloc, &seen, at, body)?;
    observed_pair(alloc, &seen, value, body)
}

/// A `let!`, in a context of so many variables.
#[inline(never)]
pub fn let_bang_node(
    alloc: Global,
    count: usize,
    place: Place,
    observers: &Items<Seen>,
    binder: Place,
    value: Got,
    body: Got,
) -> Result<Got, Stop>
    ensures { Agrees got_of result (Ok (forms.let_bang_node count (tables.seen_places count observers.now) place observers.now binder (got_of value) (got_of body))) }
{
    let ty = copied(alloc, body.ty())?;
    let Pair {
        first,
        second,
        tree,
        uses,
    } = let_bang_pair(alloc, observers, count, value, body)?;
    let observers = copied_observers(alloc, observers)?;
    let form = Form::LetBang(observers, binder, first, second);
    made(alloc, place, ty, form, tree, uses)
}

// A branch beside another, which does this with each variable.
fn beside(alloc: Global, branch: Got, other: &[Use]) -> Result<Got, Memory>
    ensures { IfOk result (λ got. got_of got ≡ parts.beside other.now (got_of branch)) }
{
    let mut branch = branch;
    let kept = kept_beside(alloc, &branch.uses, other)?;
    keep_all(&mut branch, &kept);
    Ok(branch)
}

// A part of a conditional and its branches.
fn both_beside(alloc: Global, test: Got, first: Got, second: Got) -> Result<Triple, Memory>
    ensures part { IfOk result (λ t. the_core t.part.value ≡ (got_of test).core) }
    ensures first { IfOk result (λ t. the_core t.first.value ≡ (got_of first).core) }
    ensures second { IfOk result (λ t. the_core t.second.value ≡ (got_of second).core) }
    ensures tree { IfOk result (λ t. derivation_of t.tree ≡ parts.chosen_tree (got_of test) (got_of first) (got_of second)) }
    ensures uses { IfOk result (λ t. t.uses.items ≡ tables.join (got_of test).uses (tables.join (got_of first).uses (got_of second).uses)) }
{
    let first = beside(alloc, first, &second.uses)?;
    let second = beside(alloc, second, &first.uses)?;
    branched(alloc, Node::If, test, first, second)
}

/// A conditional.
#[inline(never)]
pub fn if_node(alloc: Global, place: Place, test: Got, first: Got, second: Got) -> Result<Got, Stop>
    ensures { Agrees got_of result (Ok (forms.if_node place (got_of test) (got_of first) (got_of second))) }
{
    let ty = copied(alloc, first.ty())?;
    let Triple {
        part,
        first,
        second,
        tree,
        uses,
    } = both_beside(alloc, test, first, second)?;
    let form = Form::If(part, first, second);
    made(alloc, place, ty, form, tree, uses)
}

/// A value of a variant type.
#[inline(never)]
pub fn con_node(alloc: Global, place: Place, ty: &Ty, name: &Name, part: Got) -> Result<Got, Stop>
    ensures { Agrees got_of result (Ok (forms.con_node place (type_of ty.now) name.now (got_of part))) }
{
    let ty = copied(alloc, ty)?;
    let name = name.copy(alloc)?;
    let Single { part, tree, uses } = alone(alloc, Node::Con, part)?;
    made(alloc, place, ty, Form::Con(name, part), tree, uses)
}

// A branch whose last variable was new at a position and went out of scope, beside another, which does this with each variable.
fn closed_beside(
    alloc: Global,
    at: usize,
    given: Use,
    branch: Got,
    other: &[Use],
) -> Result<Got, Memory>
    ensures { IfOk result (λ got. got_of got ≡ parts.closed_beside at given other.now (got_of branch)) }
{
    let mut branch = branch;
    let mut kept = kept_beside(alloc, &branch.uses, other)?;
    keep_new(&mut kept, at, given)?;
    keep_all(&mut branch, &kept);
    Ok(branch)
}

// A part of a match and its branches, whose last variables were new at a position.
fn matched(alloc: Global, at: usize, value: Got, first: Got, second: Got) -> Result<Triple, Memory>
    ensures part { IfOk result (λ t. the_core t.part.value ≡ (got_of value).core) }
    ensures first { IfOk result (λ t. the_core t.first.value ≡ (got_of first).core) }
    ensures second { IfOk result (λ t. the_core t.second.value ≡ (got_of second).core) }
    ensures tree { IfOk result (λ t. derivation_of t.tree ≡ parts.matched_tree at (got_of value) (got_of first) (got_of second)) }
    ensures uses { IfOk result (λ t. t.uses.items
        ≡ tables.join (got_of value).uses (tables.join (tables.front (got_of first).uses) (tables.front (got_of second).uses))) }
{
    let mut first = first;
    let mut second = second;
    let in_first = leave_last(&mut first);
    let in_second = leave_last(&mut second);
    let first = closed_beside(alloc, at, in_first, first, &second.uses)?;
    let second = closed_beside(alloc, at, in_second, second, &first.uses)?;
    branched(alloc, Node::Case, value, first, second)
}

/// A match on one alternative, in a context of so many variables.
#[inline(never)]
pub fn case_node(
    alloc: Global,
    count: usize,
    place: Place,
    at: &At,
    binder: Place,
    value: Got,
    first: Got,
    second: Got,
) -> Result<Got, Stop>
    ensures { Agrees got_of result (Ok (forms.case_node count place at.now binder (got_of value) (got_of first) (got_of second))) }
{
    let ty = copied(alloc, first.ty())?;
    let at = at.copy(alloc)?;
    let Triple {
        part,
        first,
        second,
        tree,
        uses,
    } = matched(alloc, count, value, first, second)?;
    let form = Form::Case(part, at, binder, first, second);
    made(alloc, place, ty, form, tree, uses)
}

/// A match on the last alternative.
#[inline(never)]
pub fn esac_node(alloc: Global, place: Place, ty: Box<Ty>, at: &At, part: Got) -> Result<Got, Stop>
    ensures { Agrees got_of result (Ok (forms.esac_node place (in_box ty) at.now (got_of part))) }
{
    let at = at.copy(alloc)?;
    let Single { part, tree, uses } = alone(alloc, Node::Esac, part)?;
    made(alloc, place, ty, Form::Esac(at, part), tree, uses)
}

/// A member.
#[inline(never)]
pub fn member_node(
    alloc: Global,
    place: Place,
    ty: Box<Ty>,
    at: &At,
    part: Got,
) -> Result<Got, Stop>
    ensures { Agrees got_of result (Ok (forms.member_node place (in_box ty) at.now (got_of part))) }
{
    let at = at.copy(alloc)?;
    let Single { part, tree, uses } = alone(alloc, Node::Member, part)?;
    made(alloc, place, ty, Form::Member(part, at), tree, uses)
}

// The last two variables of a part, which were new at a position and the next, go out of scope.
fn closed_twice(alloc: Global, at: usize, part: Got) -> Result<Got, Memory>
    ensures { IfOk result (λ got. got_of got ≡ parts.closed_twice at (got_of part)) }
{
    let next = at.checked_add(1).ok_or(Memory)?;
    let mut part = part;
    let last = leave_last(&mut part);
    let given = leave_last(&mut part);
    let mut kept = Vec::new(alloc);
    keep_new(&mut kept, at, given)?;
    keep_new(&mut kept, next, last)?;
    keep_all(&mut part, &kept);
    Ok(part)
}

/// A take, in a context of so many variables.
#[inline(never)]
pub fn take_node(
    alloc: Global,
    count: usize,
    place: Place,
    at: &At,
    rest: Place,
    binder: Place,
    value: Got,
    body: Got,
) -> Result<Got, Stop>
    ensures { Agrees got_of result (Ok (forms.take_node count place at.now rest binder (got_of value) (got_of body))) }
{
    let body = closed_twice(alloc, count, body)?;
    let at = at.copy(alloc)?;
    let ty = copied(alloc, body.ty())?;
    let Pair {
        first,
        second,
        tree,
        uses,
    } = in_turn(alloc, Node::Take, value, body)?;
    let form = Form::Take(first, at, rest, binder, second);
    made(alloc, place, ty, form, tree, uses)
}

/// A put.
#[inline(never)]
pub fn put_node(
    alloc: Global,
    place: Place,
    ty: Box<Ty>,
    at: &At,
    value: Got,
    part: Got,
) -> Result<Got, Stop>
    ensures { Agrees got_of result (Ok (forms.put_node place (in_box ty) at.now (got_of value) (got_of part))) }
{
    let at = at.copy(alloc)?;
    let Pair {
        first,
        second,
        tree,
        uses,
    } = in_turn(alloc, Node::Put, value, part)?;
    made(alloc, place, ty, Form::Put(first, at, second), tree, uses)
}

/// A cast.
#[inline(never)]
pub fn cast_node(alloc: Global, place: Place, ty: &Ty, part: Got) -> Result<Got, Stop>
    ensures { Agrees got_of result (Ok (forms.cast_node place (type_of ty.now) (got_of part))) }
{
    let ty = copied(alloc, ty)?;
    let Single { part, tree, uses } = alone(alloc, Node::Cast, part)?;
    made(alloc, place, ty, Form::Cast(part), tree, uses)
}

/// A term with its type written.
#[inline(never)]
pub fn annot_node(alloc: Global, place: Place, arg: &TyArg, part: Got) -> Result<Got, Stop>
    ensures { Agrees got_of result (Ok (forms.annot_node place (arg_of arg.now) (got_of part))) }
{
    let ty = copied(alloc, &arg.ty)?;
    let written = copied(alloc, &arg.ty)?;
    let Single { part, tree, uses } = alone(alloc, Node::Annot, part)?;
    let arg = TyArg {
        place: arg.place,
        ty: Box::into_inner(written),
    };
    made(alloc, place, ty, Form::Annot(part, arg), tree, uses)
}
