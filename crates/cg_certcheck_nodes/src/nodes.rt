// What each form of node comes to by what its parts came to (`specs/Nodes.antt`): its core, its derivation, which is the node with these
// parts below it and the marks that the certificate lists, and where the pass stands behind it.
#![tactic(auto, using(cg_check_pieces::proofs::CoreSteps::core_steps))]

ghost use Rattle.std.specs.Prelude.{Ok};
ghost use Rattle.cg_base.specs.Types.{type_of};
ghost use Rattle.cg_certcheck_gots.specs.Gots.{got_in};
ghost use Rattle.cg_certcheck_nodes.specs.Nodes as forms;
ghost use Rattle.cg_certcheck_context.specs.View.{Agrees};
ghost use Rattle.cg_check_pieces.specs.Boxed.{in_box};
ghost use Rattle.cg_core.specs.Terms.{arg_of};
ghost use Rattle.cg_certcheck_def.specs.Pass.{operated as operated_of, operated_both as operated_both_of};

use cg_base::{Items, Name, Place, Ty};
use cg_cert::CertFault;
use cg_certcheck_context::Source;
use cg_certcheck_gots::{Got, Pair, Single, Triple, alone, branched, made, paired};
use cg_check_pieces::{copied, copied_observers, one_operand, two_operands};
use cg_core::{At, Form, Mark, Node, Op, Seen, TyArg};

/// An operator with one operand, of this type. Want of memory is its one refusal.
#[inline(never)]
pub fn operated(
    source: &Source,
    op: Op,
    place: Place,
    ty: Box<Ty>,
    part: Got,
) -> Result<Got, CertFault>
    ensures { Agrees (got_in source.now.nodes.now) result (Ok (operated_of op place (in_box ty) (got_in source.now.nodes.now part))) }
{
    let Single { part, end } = alone(source.alloc, Node::Op, part)?;
    let operands = one_operand(source.alloc, part)?;
    made(source, place, ty, Form::Op(op, operands), end)
}

/// An operator with two operands, of this type, with the marks of the split between them; the pass stands where the second operand ends.
/// Want of memory is its one refusal.
#[inline(never)]
pub fn operated_both(
    source: &Source,
    marks: &[Mark],
    op: Op,
    place: Place,
    ty: Box<Ty>,
    left: Got,
    right: Got,
) -> Result<Got, CertFault>
    ensures { Agrees (got_in source.now.nodes.now) result (Ok (operated_both_of marks.now op place (in_box ty) (got_in source.now.nodes.now left) (got_in source.now.nodes.now right) (got_in source.now.nodes.now right).at)) }
{
    let Pair { first, second, end } = paired(source.alloc, Node::Op, marks, left, right)?;
    let operands = two_operands(source.alloc, first, second)?;
    made(source, place, ty, Form::Op(op, operands), end)
}

/// An application, of this type, with the marks of the split between the function and the argument. Want of memory is its one refusal.
#[inline(never)]
pub fn app_node(
    source: &Source,
    marks: &[Mark],
    place: Place,
    ty: Box<Ty>,
    fun: Got,
    arg: Got,
) -> Result<Got, CertFault>
    ensures { Agrees (got_in source.now.nodes.now) result (Ok (forms.app_node marks.now place (in_box ty) (got_in source.now.nodes.now fun) (got_in source.now.nodes.now arg))) }
{
    let Pair { first, second, end } = paired(source.alloc, Node::App, marks, fun, arg)?;
    made(source, place, ty, Form::App(first, second), end)
}

/// A `let`, of its body's type, with the marks of the split between the value and the body. Want of memory is its one refusal.
#[inline(never)]
pub fn let_node(
    source: &Source,
    marks: &[Mark],
    place: Place,
    binder: Place,
    value: Got,
    body: Got,
) -> Result<Got, CertFault>
    ensures { Agrees (got_in source.now.nodes.now) result (Ok (forms.let_node marks.now place binder (got_in source.now.nodes.now value) (got_in source.now.nodes.now body))) }
{
    let ty = copied(source.alloc, body.ty())?;
    let Pair { first, second, end } = paired(source.alloc, Node::Let, marks, value, body)?;
    let form = Form::Let(binder, first, second);
    made(source, place, ty, form, end)
}

/// A `let!` that observes these variables, of its body's type, with the marks of the split between the value and the body. Want of
/// memory is its one refusal.
#[inline(never)]
pub fn let_bang_node(
    source: &Source,
    marks: &[Mark],
    place: Place,
    observers: &Items<Seen>,
    binder: Place,
    value: Got,
    body: Got,
) -> Result<Got, CertFault>
    ensures { Agrees (got_in source.now.nodes.now) result (Ok (forms.let_bang_node marks.now place observers.now binder (got_in source.now.nodes.now value) (got_in source.now.nodes.now body))) }
{
    let observers = copied_observers(source.alloc, observers)?;
    let ty = copied(source.alloc, body.ty())?;
    let Pair { first, second, end } = paired(source.alloc, Node::LetBang, marks, value, body)?;
    let form = Form::LetBang(observers, binder, first, second);
    made(source, place, ty, form, end)
}

/// A conditional, of its first branch's type, with the marks of the split between the test and both branches. Want of memory is its one
/// refusal.
#[inline(never)]
pub fn if_node(
    source: &Source,
    marks: &[Mark],
    place: Place,
    test: Got,
    first: Got,
    second: Got,
) -> Result<Got, CertFault>
    ensures { Agrees (got_in source.now.nodes.now) result (Ok (forms.if_node marks.now place (got_in source.now.nodes.now test) (got_in source.now.nodes.now first) (got_in source.now.nodes.now second))) }
{
    let ty = copied(source.alloc, first.ty())?;
    let Triple {
        part,
        first,
        second,
        end,
    } = branched(source.alloc, Node::If, marks, test, first, second)?;
    made(source, place, ty, Form::If(part, first, second), end)
}

/// A value of this variant type, whose alternative of this name holds the part. Want of memory is its one refusal.
#[inline(never)]
pub fn con_node(
    source: &Source,
    place: Place,
    ty: &Ty,
    name: &Name,
    part: Got,
) -> Result<Got, CertFault>
    ensures { Agrees (got_in source.now.nodes.now) result (Ok (forms.con_node place (type_of ty.now) name.now (got_in source.now.nodes.now part))) }
{
    let ty = copied(source.alloc, ty)?;
    let name = name.copy(source.alloc)?;
    let Single { part, end } = alone(source.alloc, Node::Con, part)?;
    made(source, place, ty, Form::Con(name, part), end)
}

/// A match on one alternative, of its first branch's type, with the marks of the split between the value and both branches. Want of
/// memory is its one refusal.
#[inline(never)]
pub fn case_node(
    source: &Source,
    marks: &[Mark],
    place: Place,
    alternative: &At,
    binder: Place,
    value: Got,
    first: Got,
    second: Got,
) -> Result<Got, CertFault>
    ensures { Agrees (got_in source.now.nodes.now) result (Ok (forms.case_node marks.now place alternative.now binder (got_in source.now.nodes.now value) (got_in source.now.nodes.now first) (got_in source.now.nodes.now second))) }
{
    let alternative = alternative.copy(source.alloc)?;
    let ty = copied(source.alloc, first.ty())?;
    let Triple {
        part,
        first,
        second,
        end,
    } = branched(source.alloc, Node::Case, marks, value, first, second)?;
    let form = Form::Case(part, alternative, binder, first, second);
    made(source, place, ty, form, end)
}

/// A match on the last alternative, of this type. Want of memory is its one refusal.
#[inline(never)]
pub fn esac_node(
    source: &Source,
    place: Place,
    ty: Box<Ty>,
    alternative: &At,
    part: Got,
) -> Result<Got, CertFault>
    ensures { Agrees (got_in source.now.nodes.now) result (Ok (forms.esac_node place (in_box ty) alternative.now (got_in source.now.nodes.now part))) }
{
    let alternative = alternative.copy(source.alloc)?;
    let Single { part, end } = alone(source.alloc, Node::Esac, part)?;
    made(source, place, ty, Form::Esac(alternative, part), end)
}

/// A member of a record, of this type. Want of memory is its one refusal.
#[inline(never)]
pub fn member_node(
    source: &Source,
    place: Place,
    ty: Box<Ty>,
    field: &At,
    part: Got,
) -> Result<Got, CertFault>
    ensures { Agrees (got_in source.now.nodes.now) result (Ok (forms.member_node place (in_box ty) field.now (got_in source.now.nodes.now part))) }
{
    let field = field.copy(source.alloc)?;
    let Single { part, end } = alone(source.alloc, Node::Member, part)?;
    made(source, place, ty, Form::Member(part, field), end)
}

/// A take, of its body's type, with the marks of the split between the record and the body. Want of memory is its one refusal.
#[inline(never)]
pub fn take_node(
    source: &Source,
    marks: &[Mark],
    place: Place,
    field: &At,
    rest: Place,
    binder: Place,
    value: Got,
    body: Got,
) -> Result<Got, CertFault>
    ensures { Agrees (got_in source.now.nodes.now) result (Ok (forms.take_node marks.now place field.now rest binder (got_in source.now.nodes.now value) (got_in source.now.nodes.now body))) }
{
    let field = field.copy(source.alloc)?;
    let ty = copied(source.alloc, body.ty())?;
    let Pair { first, second, end } = paired(source.alloc, Node::Take, marks, value, body)?;
    let form = Form::Take(first, field, rest, binder, second);
    made(source, place, ty, form, end)
}

/// A put, of this type, with the marks of the split between the record and the value. Want of memory is its one refusal.
#[inline(never)]
pub fn put_node(
    source: &Source,
    marks: &[Mark],
    place: Place,
    ty: Box<Ty>,
    field: &At,
    value: Got,
    part: Got,
) -> Result<Got, CertFault>
    ensures { Agrees (got_in source.now.nodes.now) result (Ok (forms.put_node marks.now place (in_box ty) field.now (got_in source.now.nodes.now value) (got_in source.now.nodes.now part))) }
{
    let field = field.copy(source.alloc)?;
    let Pair { first, second, end } = paired(source.alloc, Node::Put, marks, value, part)?;
    let form = Form::Put(first, field, second);
    made(source, place, ty, form, end)
}

/// A cast to this type. Want of memory is its one refusal.
#[inline(never)]
pub fn cast_node(source: &Source, place: Place, ty: &Ty, part: Got) -> Result<Got, CertFault>
    ensures { Agrees (got_in source.now.nodes.now) result (Ok (forms.cast_node place (type_of ty.now) (got_in source.now.nodes.now part))) }
{
    let ty = copied(source.alloc, ty)?;
    let Single { part, end } = alone(source.alloc, Node::Cast, part)?;
    made(source, place, ty, Form::Cast(part), end)
}

/// A term with its type written, of which it is. Want of memory is its one refusal.
#[inline(never)]
pub fn annot_node(source: &Source, place: Place, arg: &TyArg, part: Got) -> Result<Got, CertFault>
    ensures { Agrees (got_in source.now.nodes.now) result (Ok (forms.annot_node place (arg_of arg.now) (got_in source.now.nodes.now part))) }
{
    let Single { part, end } = alone(source.alloc, Node::Annot, part)?;
    let ty = copied(source.alloc, &arg.ty)?;
    let written = copied(source.alloc, &arg.ty)?;
    let arg = TyArg {
        place: arg.place,
        ty: Box::into_inner(written),
    };
    made(source, place, ty, Form::Annot(part, arg), end)
}
