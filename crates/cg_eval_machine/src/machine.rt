// The evaluator's own stack.
#![tactic(auto, using(crate::proofs::Steps::machine_steps))]

ghost use Rattle.std.specs.Prelude.{◌≡◌, [], ◌∷◌, ◌++◌, ◌+◌, ◌-◌, ◌*◌, ◌≤◌, ◌<◌, map, IfOk, length};
ghost use Rattle.cg_core.specs.Kernels.{the_core};
ghost use Rattle.cg_value.specs.Values.{value_of};
ghost use Rattle.cg_eval_def.specs.Evaluation.{Table, all_of, bind, evaluate, push};
ghost use Rattle.cg_eval_machine.specs.Machine.{on, rest, context_of, named_of, Went, weight};

use crate::frame::Frame;
use crate::halt::Halt;
use cg_base::{Items, Ty};
use cg_core::{FieldTerm, Term, Typed};
use cg_value::Value;

/// The state of an evaluation, beside what it looks at ([`Focus`]).
pub struct Machine<'a> {
    /// What waits for values, the top one last.
    pub frames: Vec<Frame<'a>>,
    /// The values of the variables of the body that is evaluated, the newest last.
    pub values: Vec<Value>,
    /// The types that stand for the type variables of that body.
    pub types: Items<Ty>,
    /// How much of the budget is left, in nodes.
    pub left: u64,
}

impl<'a> Drop for Machine<'a> {
    fn drop(self) {
        let Machine {
            frames,
            values,
            types,
            left: _,
        } = self;
        drop(frames);
        drop(values);
        drop(types);
    }
}

/// What an evaluation looks at.
#[derive(Drop)]
pub enum Focus<'a> {
    /// A term is evaluated next.
    Want(&'a Term<Typed>),
    /// The top frame gets this value.
    Have(Value),
    /// A function without a body is called on a value.
    Ask(u32, Value),
}

/// A part of a term is evaluated next, and a frame waits for its value. Want of memory is its one refusal.
pub fn descend<'a>(
    m: &mut Machine<'a>,
    frame: Frame<'a>,
    term: &'a Term<Typed>,
) -> Result<Focus<'a>, Halt>
    ensures gives { (table : Table) → Went table m.new (bind (evaluate table (the_core term.now) (context_of m.old) m.old.left)
        (on table frame.entry (rest table m.old.frames.items) (context_of m.old))) result }
    ensures falls { IfOk result (λ f. weight m.new f ≤ 3 * m.old.left + 2 * length m.old.frames.items + 2) }
{
    m.frames.push(frame)?;
    Ok(Focus::Want(term))
}

/// Evaluates a body with one more variable.
pub(crate) fn with_one<'a>(
    m: &mut Machine<'a>,
    value: Value,
    term: &'a Term<Typed>,
) -> Result<Focus<'a>, Halt>
    ensures gives { (table : Table) → Went table m.new (bind (evaluate table (the_core term.now) (push (context_of m.old) (value_of value)) m.old.left)
        (rest table m.old.frames.items (context_of m.old))) result }
    ensures falls { IfOk result (λ f. weight m.new f ≤ 3 * m.old.left + 2 * length m.old.frames.items + 2) }
{
    m.frames.push(Frame::Leave(m.values.len()))?;
    m.values.push(value)?;
    Ok(Focus::Want(term))
}

/// Evaluates a body with two more variables.
pub(crate) fn with_two<'a>(
    m: &mut Machine<'a>,
    first: Value,
    second: Value,
    term: &'a Term<Typed>,
) -> Result<Focus<'a>, Halt>
    ensures gives { (table : Table) → Went table m.new
        (bind (evaluate table (the_core term.now) (push (push (context_of m.old) (value_of first)) (value_of second)) m.old.left)
        (rest table m.old.frames.items (context_of m.old))) result }
    ensures falls { IfOk result (λ f. weight m.new f ≤ 3 * m.old.left + 2 * length m.old.frames.items + 2) }
{
    m.frames.push(Frame::Leave(m.values.len()))?;
    m.values.push(first)?;
    m.values.push(second)?;
    Ok(Focus::Want(term))
}

/// The fields of a record are evaluated from the first of these on, where `done` has the values of those before it. Each takes 1 of
/// the budget beside its nodes: `StepLimit` where nothing is left for it. `Memory` for want of memory.
pub fn fields<'a>(
    m: &mut Machine<'a>,
    done: Items<Value>,
    terms: &'a [FieldTerm<Typed>],
) -> Result<Focus<'a>, Halt>
    ensures gives { (table : Table) → Went table m.new (bind (all_of (evaluate table) (named_of terms.now) (context_of m.old) (map value_of done) m.old.left)
        (rest table m.old.frames.items (context_of m.old))) result }
    ensures falls { IfOk result (λ f. weight m.new f ≤ 3 * m.old.left + 2 * length m.old.frames.items + 2) }
{
    if terms.len() == 0 {
        return Ok(Focus::Have(Value::Fields(done)));
    }
    if m.left == 0 {
        return Err(Halt::StepLimit);
    }
    m.left -= 1;
    let more = &terms[1..];
    descend(m, Frame::Fields(done, more), &terms[0].term)
}
