// What waits for a value.
#![tactic(auto, using(crate::proofs::Steps::machine_steps))]

ghost use Rattle.std.specs.Prelude.{◌≡◌, [], ◌∷◌, ◌++◌, ◌+◌, ◌-◌, ◌*◌, ◌≤◌, ◌<◌, IfOk, IsTrue, length};
ghost use Rattle.cg_value.specs.Foreign.{Foreign};
ghost use Rattle.cg_value.specs.Values.{value_of};
ghost use Rattle.cg_eval_def.specs.Evaluation.{Table};
ghost use Rattle.cg_eval_def.specs.Foreigns.{table_of};
ghost use Rattle.cg_eval_machine.specs.Machine.{gives_at_once, on, rest, context_of, Went, weight};

use crate::calls::{
    apply, go_back, leave, next_field, open, put_into, take_arm, take_branch, turned,
};
use crate::halt::Halt;
use crate::machine::{Focus, Machine, descend, with_one};
use cg_base::{Items, Name, Ty};
use cg_core::{FieldTerm, Op, Term, Typed};
use cg_eval_operations::{Turns, alternative, operated, operated_both};
use cg_typing::Checked;
use cg_value::Value;
use std::alloc::Global;

/// What waits for a value.
pub enum Frame<'a> {
    /// The operand of an operator on one, and its type.
    One(Op, &'a Ty),
    /// The second operand of an operator is next, whose first one has this type.
    Right(Op, &'a Ty, &'a Term<Typed>),
    /// The second operand of an operator, whose first one has this type and this value.
    Two(Op, &'a Ty, Value),
    /// The argument of a call is next.
    Argument(&'a Term<Typed>),
    /// The argument of a call of this function.
    Call(Value),
    /// The body of a `let` is next.
    Body(&'a Term<Typed>),
    /// One of two branches is next.
    Branches(&'a Term<Typed>, &'a Term<Typed>),
    /// The payload of an alternative of this name.
    Wrap(&'a Name),
    /// The alternative of this name is matched: the body for it is next, or the one for all others.
    Arms(&'a Name, &'a Term<Typed>, &'a Term<Typed>),
    /// The alternative whose payload is asked for.
    Payload,
    /// A field of a record that is made: the values of those before it, and the fields after it.
    Fields(Items<Value>, &'a [FieldTerm<Typed>]),
    /// The record whose field at this position is asked for.
    Pick(usize),
    /// The record whose field at this position is taken out, and the body that is next.
    Open(usize, &'a Term<Typed>),
    /// The record that gets a field at this position: its value is next.
    Into(usize, &'a Term<Typed>),
    /// The value of the field at this position of this record.
    Place(usize, Value),
    /// A scope ends: so many variables are left.
    Leave(usize),
    /// A call ends: these are the caller's variables, and what its type variables stand for.
    Back(Vec<Value>, Items<Ty>),
    /// The turn of an iterator at this index, over this array.
    Turn(u64, Turns, Value),
}

impl<'a> Drop for Frame<'a> {
    fn drop(self) {
        match self {
            Frame::One(_, _) | Frame::Right(_, _, _) | Frame::Argument(_) | Frame::Body(_) => (),
            Frame::Branches(_, _) | Frame::Wrap(_) | Frame::Arms(_, _, _) | Frame::Payload => (),
            Frame::Pick(_) | Frame::Open(_, _) | Frame::Into(_, _) | Frame::Leave(_) => (),
            Frame::Two(_, _, value) | Frame::Call(value) | Frame::Place(_, value) => drop(value),
            Frame::Fields(values, _) => drop(values),
            Frame::Back(values, types) => {
                drop(values);
                drop(types);
            }
            Frame::Turn(_, turns, array) => {
                drop(turns);
                drop(array);
            }
        }
    }
}

impl<'a> Frame<'a> {
    // A frame that gives a value at once gets the one that it waits for.
    fn give(self, alloc: Global, m: &mut Machine<'a>, value: Value) -> Result<Focus<'a>, Halt>
        requires { IsTrue (gives_at_once self) }
        ensures gives { (table : Table) → Went table m.new (on table self.entry (rest table m.old.frames.items) (context_of m.old) (value_of value) m.old.left) result }
        ensures falls { IfOk result (λ f. weight m.new f ≤ 3 * m.old.left + 2 * length m.old.frames.items + 2) }
    {
        match self {
            Frame::One(op, ty) => Ok(Focus::Have(operated(op, ty, &value))),
            Frame::Two(op, ty, left) => Ok(Focus::Have(operated_both(op, ty, &left, &value))),
            Frame::Wrap(name) => Ok(Focus::Have(alternative(alloc, name, value)?)),
            Frame::Payload => Ok(Focus::Have(value.into_payload())),
            Frame::Pick(at) => Ok(Focus::Have(value.into_field(at))),
            Frame::Place(at, record) => Ok(Focus::Have(record.with_field(at, value))),
            Frame::Leave(count) => Ok(leave(m, count, value)),
            Frame::Back(values, types) => Ok(go_back(m, values, types, value)),
            _ => unreachable!(),
        }
    }

    /// The frame, which is off the stack, gets the value that it waits for. `StepLimit` where the budget is less than what the frame pays
    /// for; `Stuck` where the definition is stuck, as at a call of what is no function; `Memory` for want of memory.
    pub fn resume(
        self,
        alloc: Global,
        checked: &'a Checked,
        m: &mut Machine<'a>,
        value: Value,
    ) -> Result<Focus<'a>, Halt>
        ensures gives { (x : Foreign) → let table = table_of x checked.now in
            Went table m.new (on table self.entry (rest table m.old.frames.items) (context_of m.old) (value_of value) m.old.left) result }
        ensures falls { IfOk result (λ f. weight m.new f ≤ 3 * m.old.left + 2 * length m.old.frames.items + 2) }
    {
        match self {
            Frame::Right(op, ty, right) => descend(m, Frame::Two(op, ty, value), right),
            Frame::Argument(argument) => descend(m, Frame::Call(value), argument),
            Frame::Call(fun) => apply(alloc, checked, m, fun, value),
            Frame::Body(body) => with_one(m, value, body),
            Frame::Branches(yes, no) => take_branch(m, yes, no, value),
            Frame::Arms(name, found, other) => take_arm(m, name, found, other, value),
            Frame::Fields(done, terms) => next_field(m, done, terms, value),
            Frame::Open(at, body) => open(m, at, body, value),
            Frame::Into(at, term) => put_into(m, at, term, value),
            Frame::Turn(at, turns, array) => turned(alloc, checked, m, at, turns, array, value),
            frame => frame.give(alloc, m, value),
        }
    }
}
