// How the evaluation of a node begins.
#![tactic(auto, using(crate::proofs::Begins::begin_steps))]

ghost use Rattle.std.specs.Prelude.{◌≡◌, ◌||◌, [], ◌∷◌, ◌++◌, ◌+◌, ◌-◌, ◌*◌, ◌≤◌, ◌<◌, map, IfOk, IsTrue, length};
ghost use Rattle.cg_base.specs.declared.place.Place.{Place as Spot};
ghost use Rattle.cg_core.specs.Kernels.{the_core, the_core_form};
ghost use Rattle.cg_core.specs.declared.at.At.{At as Named};
ghost use Rattle.cg_core.specs.Terms.{Note, app, arg_of, case_of, con, esac, fun, if_else, lets, member, op as op_of, put, take_field, to_trees, var};
ghost use Rattle.cg_core.specs.Groups.{is_data, is_leaf};
ghost use Rattle.cg_eval_def.specs.Evaluation.{Table, bind, evaluate, node, node_shape};
ghost use Rattle.cg_eval_machine.specs.Machine.{rest, context_of, Went, weight};

use crate::mentions::mention;
use cg_base::{Fun, Items, Name};
use cg_core::{At, Form, Op, Term, TyArg, Typed};
use cg_eval_machine::{Focus, Frame, Halt, Machine, descend, fields};
use cg_eval_operations::{literal, position, truth, variable};
use cg_value::Value;
use std::alloc::Global;

// An alternative, whose node is paid; its payload costs 1 more.
fn wrap<'a>(
    m: &mut Machine<'a>,
    name: &'a Name,
    payload: &'a Term<Typed>,
) -> Result<Focus<'a>, Halt>
    ensures gives { (table : Table) (note : Note) → Went table m.new
        (bind (node_shape table (evaluate table) note (con name.now (the_core payload.now)) (context_of m.old) m.old.left)
        (rest table m.old.frames.items (context_of m.old))) result }
    ensures falls { IfOk result (λ f. weight m.new f ≤ 3 * m.old.left + 2 * length m.old.frames.items + 2) }
{
    if m.left == 0 {
        return Err(Halt::StepLimit);
    }
    m.left -= 1;
    descend(m, Frame::Wrap(name), payload)
}

// An operation, whose node is paid.
fn operate<'a>(m: &mut Machine<'a>, op: Op, operands: &'a [Term<Typed>]) -> Result<Focus<'a>, Halt>
    ensures gives { (table : Table) (note : Note) → Went table m.new
        (bind (node_shape table (evaluate table) note (op_of op (to_trees (map the_core operands.now))) (context_of m.old) m.old.left)
        (rest table m.old.frames.items (context_of m.old))) result }
    ensures falls { IfOk result (λ f. weight m.new f ≤ 3 * m.old.left + 2 * length m.old.frames.items + 2) }
{
    match operands {
        [operand] => descend(m, Frame::One(op, &operand.note.ty), operand),
        [left, right] => descend(m, Frame::Right(op, &left.note.ty, right), left),
        _ => Err(Halt::Stuck),
    }
}

// A member, whose node is paid.
fn pick<'a>(m: &mut Machine<'a>, whole: &'a Box<Term<Typed>>, at: &'a At) -> Result<Focus<'a>, Halt>
    ensures gives { (table : Table) (note : Note) → Went table m.new
        (bind (node_shape table (evaluate table) note (member (the_core whole.now.value) at.now) (context_of m.old) m.old.left)
        (rest table m.old.frames.items (context_of m.old))) result }
    ensures falls { IfOk result (λ f. weight m.new f ≤ 3 * m.old.left + 2 * length m.old.frames.items + 2) }
{
    let place = position(&at.name, &whole.note.ty);
    descend(m, Frame::Pick(place), whole)
}

// A field that is taken out of a record for a body, whose node is paid.
fn take_out<'a>(
    m: &mut Machine<'a>,
    whole: &'a Box<Term<Typed>>,
    at: &'a At,
    body: &'a Box<Term<Typed>>,
) -> Result<Focus<'a>, Halt>
    ensures gives { (table : Table) (note : Note) (first second : Spot) → Went table m.new
        (bind (node_shape table (evaluate table) note (take_field (the_core whole.now.value) at.now first second (the_core body.now.value)) (context_of m.old) m.old.left)
        (rest table m.old.frames.items (context_of m.old))) result }
    ensures falls { IfOk result (λ f. weight m.new f ≤ 3 * m.old.left + 2 * length m.old.frames.items + 2) }
{
    let place = position(&at.name, &whole.note.ty);
    descend(m, Frame::Open(place, body), whole)
}

// A value that is put into a field of a record, whose node is paid.
fn put_in<'a>(
    m: &mut Machine<'a>,
    whole: &'a Box<Term<Typed>>,
    at: &'a At,
    value: &'a Box<Term<Typed>>,
) -> Result<Focus<'a>, Halt>
    ensures gives { (table : Table) (note : Note) → Went table m.new
        (bind (node_shape table (evaluate table) note (put (the_core whole.now.value) at.now (the_core value.now.value)) (context_of m.old) m.old.left)
        (rest table m.old.frames.items (context_of m.old))) result }
    ensures falls { IfOk result (λ f. weight m.new f ≤ 3 * m.old.left + 2 * length m.old.frames.items + 2) }
{
    let place = position(&at.name, &whole.note.ty);
    descend(m, Frame::Into(place, value), whole)
}

// A variable, whose node is paid.
fn read_variable<'a>(alloc: Global, m: &mut Machine<'a>, at: u32) -> Result<Focus<'a>, Halt>
    ensures gives { (table : Table) (note : Note) → Went table m.new
        (bind (node_shape table (evaluate table) note (var at) (context_of m.old) m.old.left)
        (rest table m.old.frames.items (context_of m.old))) result }
    ensures falls { IfOk result (λ f. weight m.new f ≤ 3 * m.old.left + 2 * length m.old.frames.items + 2) }
{
    Ok(Focus::Have(variable(alloc, &m.values, at)?))
}

// A function at type arguments, whose node is paid.
fn name_function<'a>(
    alloc: Global,
    m: &mut Machine<'a>,
    function: Fun,
    args: &'a Items<TyArg>,
) -> Result<Focus<'a>, Halt>
    ensures gives { (table : Table) (note : Note) → Went table m.new
        (bind (node_shape table (evaluate table) note (fun function (map arg_of args.now)) (context_of m.old) m.old.left)
        (rest table m.old.frames.items (context_of m.old))) result }
    ensures falls { IfOk result (λ f. weight m.new f ≤ 3 * m.old.left + 2 * length m.old.frames.items + 2) }
{
    Ok(Focus::Have(mention(alloc, function, args, &m.types)?))
}

// A call, whose node is paid: its function first.
fn call<'a>(
    m: &mut Machine<'a>,
    function: &'a Box<Term<Typed>>,
    argument: &'a Box<Term<Typed>>,
) -> Result<Focus<'a>, Halt>
    ensures gives { (table : Table) (note : Note) → Went table m.new
        (bind (node_shape table (evaluate table) note (app (the_core function.now.value) (the_core argument.now.value)) (context_of m.old) m.old.left)
        (rest table m.old.frames.items (context_of m.old))) result }
    ensures falls { IfOk result (λ f. weight m.new f ≤ 3 * m.old.left + 2 * length m.old.frames.items + 2) }
{
    descend(m, Frame::Argument(argument), function)
}

// A value with a name for a body, whose node is paid.
fn bind_value<'a>(
    m: &mut Machine<'a>,
    value: &'a Box<Term<Typed>>,
    body: &'a Box<Term<Typed>>,
) -> Result<Focus<'a>, Halt>
    ensures gives { (table : Table) (note : Note) (place : Spot) → Went table m.new
        (bind (node_shape table (evaluate table) note (lets place (the_core value.now.value) (the_core body.now.value)) (context_of m.old) m.old.left)
        (rest table m.old.frames.items (context_of m.old))) result }
    ensures falls { IfOk result (λ f. weight m.new f ≤ 3 * m.old.left + 2 * length m.old.frames.items + 2) }
{
    descend(m, Frame::Body(body), value)
}

// A condition, whose node is paid.
fn choose<'a>(
    m: &mut Machine<'a>,
    test: &'a Box<Term<Typed>>,
    yes: &'a Box<Term<Typed>>,
    no: &'a Box<Term<Typed>>,
) -> Result<Focus<'a>, Halt>
    ensures gives { (table : Table) (note : Note) → Went table m.new
        (bind (node_shape table (evaluate table) note (if_else (the_core test.now.value) (the_core yes.now.value) (the_core no.now.value)) (context_of m.old) m.old.left)
        (rest table m.old.frames.items (context_of m.old))) result }
    ensures falls { IfOk result (λ f. weight m.new f ≤ 3 * m.old.left + 2 * length m.old.frames.items + 2) }
{
    descend(m, Frame::Branches(yes, no), test)
}

// A match on an alternative, whose node is paid.
fn match_on<'a>(
    m: &mut Machine<'a>,
    value: &'a Box<Term<Typed>>,
    at: &'a At,
    found: &'a Box<Term<Typed>>,
    other: &'a Box<Term<Typed>>,
) -> Result<Focus<'a>, Halt>
    ensures gives { (table : Table) (note : Note) (place : Spot) → Went table m.new
        (bind (node_shape table (evaluate table) note (case_of (the_core value.now.value) at.now place (the_core found.now.value) (the_core other.now.value)) (context_of m.old) m.old.left)
        (rest table m.old.frames.items (context_of m.old))) result }
    ensures falls { IfOk result (λ f. weight m.new f ≤ 3 * m.old.left + 2 * length m.old.frames.items + 2) }
{
    descend(m, Frame::Arms(&at.name, found, other), value)
}

// The payload of the last alternative, whose node is paid.
fn unwrap<'a>(m: &mut Machine<'a>, value: &'a Box<Term<Typed>>) -> Result<Focus<'a>, Halt>
    ensures gives { (table : Table) (note : Note) (at : Named) → Went table m.new
        (bind (node_shape table (evaluate table) note (esac at (the_core value.now.value)) (context_of m.old) m.old.left)
        (rest table m.old.frames.items (context_of m.old))) result }
    ensures falls { IfOk result (λ f. weight m.new f ≤ 3 * m.old.left + 2 * length m.old.frames.items + 2) }
{
    descend(m, Frame::Payload, value)
}

// Gives the value of a node without parts, which is paid.
fn leaf<'a>(alloc: Global, m: &mut Machine<'a>, term: &'a Term<Typed>) -> Result<Focus<'a>, Halt>
    requires { IsTrue (is_leaf (the_core_form term.now.form)) }
    ensures gives { (table : Table) → Went table m.new (bind (node table (evaluate table) (the_core term.now) (context_of m.old) m.old.left)
        (rest table m.old.frames.items (context_of m.old))) result }
    ensures falls { IfOk result (λ f. weight m.new f ≤ 3 * m.old.left + 2 * length m.old.frames.items + 2) }
{
    match &term.form {
        Form::Var(at) => read_variable(alloc, m, *at),
        Form::Unit => Ok(Focus::Have(Value::Unit)),
        Form::Bool(answer) => Ok(Focus::Have(Value::Num(truth(*answer)))),
        Form::Lit(number) => Ok(Focus::Have(literal(*number))),
        Form::Fun(function, args) => name_function(alloc, m, *function, args),
        _ => unreachable!(),
    }
}

// Begins the evaluation of a node of variants or of records, or of one without parts, which is paid.
fn begin_data<'a>(
    alloc: Global,
    m: &mut Machine<'a>,
    term: &'a Term<Typed>,
) -> Result<Focus<'a>, Halt>
    requires { IsTrue (is_data (the_core_form term.now.form) || is_leaf (the_core_form term.now.form)) }
    ensures gives { (table : Table) → Went table m.new (bind (node table (evaluate table) (the_core term.now) (context_of m.old) m.old.left)
        (rest table m.old.frames.items (context_of m.old))) result }
    ensures falls { IfOk result (λ f. weight m.new f ≤ 3 * m.old.left + 2 * length m.old.frames.items + 2) }
{
    match &term.form {
        Form::Con(name, payload) => wrap(m, name, payload),
        Form::Case(value, at, _, found, other) => match_on(m, value, at, found, other),
        Form::Esac(_, value) => unwrap(m, value),
        Form::Struct(terms) => fields(m, Items::new(alloc), terms.as_slice()),
        Form::Member(whole, at) => pick(m, whole, at),
        Form::Take(whole, at, _, _, body) => take_out(m, whole, at, body),
        Form::Put(whole, at, value) => put_in(m, whole, at, value),
        _ => leaf(alloc, m, term),
    }
}

// Begins the evaluation of a node that is paid.
fn begin<'a>(alloc: Global, m: &mut Machine<'a>, term: &'a Term<Typed>) -> Result<Focus<'a>, Halt>
    ensures gives { (table : Table) → Went table m.new (bind (node table (evaluate table) (the_core term.now) (context_of m.old) m.old.left)
        (rest table m.old.frames.items (context_of m.old))) result }
    ensures falls { IfOk result (λ f. weight m.new f ≤ 3 * m.old.left + 2 * length m.old.frames.items + 2) }
{
    match &term.form {
        Form::Op(op, operands) => operate(m, *op, operands.as_slice()),
        Form::App(function, argument) => call(m, function, argument),
        Form::Let(_, value, body) => bind_value(m, value, body),
        Form::LetBang(_, _, value, body) => bind_value(m, value, body),
        Form::If(test, yes, no) => choose(m, test, yes, no),
        Form::Cast(inner) => Ok(Focus::Want(inner)),
        Form::Annot(inner, _) => Ok(Focus::Want(inner)),
        _ => begin_data(alloc, m, term),
    }
}

/// Begins the evaluation of a term.
pub(crate) fn want<'a>(
    alloc: Global,
    m: &mut Machine<'a>,
    term: &'a Term<Typed>,
) -> Result<Focus<'a>, Halt>
    ensures gives { (table : Table) → Went table m.new (bind (evaluate table (the_core term.now) (context_of m.old) m.old.left)
        (rest table m.old.frames.items (context_of m.old))) result }
    ensures falls { IfOk result (λ f. weight m.new f < 3 * m.old.left + 2 * length m.old.frames.items) }
{
    if m.left == 0 {
        return Err(Halt::StepLimit);
    }
    m.left -= 1;
    begin(alloc, m, term)
}
