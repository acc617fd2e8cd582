// The steps of a run.
#![tactic(auto, using(crate::proofs::Forms::statement_steps))]

ghost use Rattle.std.specs.Prelude.{◌≡◌, ◌<◌, ◌≤◌, ◌+◌, ◌^◌, ℕ, suc, IfOk, length};
ghost use Rattle.cg_cmachine_builtins.specs.Called.{state_of};
ghost use Rattle.cg_cmachine_running.specs.declared.machine.Next.TheVariants.{Back, Goes};
ghost use Rattle.cg_cmachine_running.specs.Flat.{IsActionWithin, IsRightWithin, put_at};
ghost use Rattle.cg_cmachine_running.specs.Machine.{Asked, Comes, Follows, IsKont, IsLow, IsNext, IsState, IsTyped, Went, by_names, framed, slack, lay_at, landed_here, on_kont, said, waits, weight};
ghost use Rattle.cg_cmachine_running.specs.Statements.{acts, assigns};
ghost use Rattle.cg_cmachine_resolve.specs.Lines.{IsWhole};
ghost use Rattle.cg_cmachine_resolve.specs.Resolutions.{Resolution};
ghost use Rattle.cg_cmachine_def.specs.Operands.{scalars_of};
ghost use Rattle.cg_cmachine_def.specs.Outcomes.{done};
ghost use Rattle.cg_cmachine_def.specs.Runs.{back as back_of, goes};
ghost use Rattle.cg_cmachine_values.specs.Values.{IsWithin, value_of};
ghost use Rattle.cg_heap.specs.Stored.{Stored};

use crate::calls::{call_aside, call_to, new_to};
use crate::machine::{Frame, Kont, Machine, Next, Run};
use crate::statements::{assign, branch, give_back, switch, turn};
use cg_cmachine_resolve::{Action, Right};
use cg_cmachine_values::{CValue, Place, RunFault, write};
use cg_ctree::Why;
use cg_heap::Store;
use std::alloc::Global;

/// An assignment, whose step is counted.
fn assign_any<'i, 'a, S: Store>(
    alloc: Global,
    run: &Run<'i, 'a>,
    m: &mut Machine<'a>,
    store: &mut S,
    place: Place<'a>,
    right: &Right<'a>,
) -> Result<Next<'a>, RunFault>
    requires within { IsRightWithin (length m.old.frame.slots.items) right.now }
    requires place { IsWithin (length m.old.frame.slots.items) place }
    requires low { IsLow 2 m.old (S.stored store.old) }
    requires small { m.old.frame.at.index + 1 < 2 ^ 64 }
    ensures gives { (asked : Asked) → Follows run.now.program.now asked run.now.budget m.old (assigns run.now.program.now asked run.now.budget m.old (S.stored store.old) place.entry right.now) m.new (S.stored store.new) result }
    ensures state { IsState run.now.program.now m.old → IfOk result (λ next. IsState run.now.program.now m.new × IsNext run.now.program.now m.new next) }
    ensures falls { IfOk result (λ next. weight m.new next ≤ weight m.old Goes + 1) }
    ensures low { IfOk result (λ next. IsLow (slack next) m.new (S.stored store.new)) }
    ensures within { m.new.left ≤ m.old.left }
{
    match right {
        Right::Call(callee, operands) => {
            call_to(alloc, run, m, store, place, *callee, operands.as_slice())
        }
        Right::New(heap, name, shape) => new_to(alloc, m, store, place, heap, name, *shape),
        _ => assign(alloc, m, store, place, right),
    }
}

/// A statement, whose step is counted.
fn begin<'i, 'a, S: Store>(
    alloc: Global,
    run: &Run<'i, 'a>,
    m: &mut Machine<'a>,
    store: &mut S,
    action: &Action<'a>,
) -> Result<Next<'a>, RunFault>
    requires within { IsActionWithin (length m.old.frame.slots.items) action.now }
    requires low { IsLow 2 m.old (S.stored store.old) }
    requires small { m.old.frame.at.index + 1 < 2 ^ 64 }
    ensures gives { (asked : Asked) → Comes run.now.program.now asked run.now.budget m.old (acts run.now.program.now asked run.now.budget m.old (S.stored store.old) action.now) m.new (S.stored store.new) result }
    ensures state { IsState run.now.program.now m.old → IfOk result (λ next. IsState run.now.program.now m.new × IsNext run.now.program.now m.new next) }
    ensures falls { IfOk result (λ next. weight m.new next ≤ weight m.old Goes + 1) }
    ensures low { IfOk result (λ next. IsLow (slack next) m.new (S.stored store.new)) }
    ensures within { m.new.left ≤ m.old.left }
{
    match action {
        Action::Assign(place, right) => assign_any(alloc, run, m, store, *place, right),
        Action::If(operand, yes, no) => branch(alloc, m, store, operand, *yes, *no),
        Action::While(operand, body) => turn(alloc, m, store, operand, *body),
        Action::Switch(operand, cases) => switch(alloc, m, store, operand, cases.as_slice()),
        Action::Call(callee, operands) => {
            call_aside(alloc, run, m, store, *callee, operands.as_slice())
        }
        Action::Return(operand) => give_back(alloc, m, store, operand),
    }
}

/// The statements of a block are done.
fn end<'a>(m: &mut Machine<'a>) -> Result<Next<'a>, RunFault>
    ensures gives { (r : Resolution) (asked : Asked) (n : ℕ) (store : Stored) → Comes r asked n m.old (done (goes (framed r m.old.frame)) (state_of store m.old.changes) m.old.left) m.new store result }
    ensures state { (r : Resolution) → IsState r m.old → IfOk result (λ next. IsState r m.new × IsNext r m.new next) }
    ensures falls { IfOk result (λ next. weight m.new next < weight m.old Goes) }
    ensures low { (store : Stored) → IsLow 1 m.old store → IfOk result (λ next. IsLow (slack next) m.new store) }
    ensures within { m.new.left ≡ m.old.left }
{
    match m.stack.pop() {
        Some(Kont::After(block, index)) => {
            m.frame.at.block = block;
            m.frame.at.index = index;
            Ok(Next::Goes)
        }
        Some(Kont::Return(frame)) => {
            drop(frame);
            Err(RunFault::Stuck(Why::NoReturn))
        }
        None => Err(RunFault::Stuck(Why::NoReturn)),
    }
}

/// One step, or where statements end.
pub fn step<'i, 'a, S: Store>(
    alloc: Global,
    run: &Run<'i, 'a>,
    m: &mut Machine<'a>,
    store: &mut S,
) -> Result<Next<'a>, RunFault>
    requires state { IsState run.now.program.now m.old }
    requires low { IsLow 1 m.old (S.stored store.old) }
    requires small { m.old.left ≤ run.now.budget }
    ensures gives { (asked : Asked) → Went run.now.program.now asked run.now.budget (said run.now.program.now asked run.now.budget m.old (S.stored store.old) Goes) m.new (S.stored store.new) result }
    ensures state { IfOk result (λ next. IsState run.now.program.now m.new × IsNext run.now.program.now m.new next) }
    ensures falls { IfOk result (λ next. weight m.new next < weight m.old Goes) }
    ensures low { IfOk result (λ next. IsLow (slack next) m.new (S.stored store.new)) }
    ensures within { m.new.left ≤ m.old.left }
{
    match run.program.line(m.frame.at) {
        None => end(m),
        Some(line) => {
            if m.left == 0 {
                return Err(RunFault::Budget);
            }
            m.left -= 1;
            begin(alloc, run, m, store, &line.action)
        }
    }
}

/// A value is assigned to a place by the statement at hand, which is done then.
fn put<'a, S: Store>(
    m: &mut Machine<'a>,
    store: &mut S,
    place: Place<'a>,
    value: CValue<'a>,
) -> Result<Next<'a>, RunFault>
    requires place { IsWithin (length m.old.frame.slots.items) place }
    requires small { m.old.frame.at.index + 1 < 2 ^ 64 }
    requires low { IsLow 1 m.old (S.stored store.old) }
    ensures gives { (r : Resolution) (asked : Asked) (n : ℕ) → Follows r asked n m.old (by_names r asked n m.old.frame.at.function
        (put_at m.old.frame.slots.items place.entry (value_of value.entry) (state_of (S.stored store.old) m.old.changes) m.old.left)) m.new (S.stored store.new) result }
    ensures state { (r : Resolution) → IsState r m.old → IfOk result (λ next. IsState r m.new × IsNext r m.new next) }
    ensures falls { IfOk result (λ next. weight m.new next ≤ weight m.old Goes) }
    ensures low { IfOk result (λ next. IsLow (slack next) m.new (S.stored store.new)) }
    ensures within { m.new.left ≡ m.old.left }
{
    match write(store, m.frame.slots.as_mut_slice(), place, value) {
        Ok(()) => {
            m.frame.at.index += 1;
            Ok(Next::Goes)
        }
        Err(why) => Err(RunFault::Stuck(why)),
    }
}

/// A value arrives at the statement at hand, which called: it is assigned, or let go.
pub fn land<'i, 'a, S: Store>(
    run: &Run<'i, 'a>,
    m: &mut Machine<'a>,
    store: &mut S,
    value: CValue<'a>,
) -> Result<Next<'a>, RunFault>
    requires state { IsState run.now.program.now m.old }
    requires low { IsLow 1 m.old (S.stored store.old) }
    ensures gives { (asked : Asked) → IsWhole (value_of value.entry) → Follows run.now.program.now asked run.now.budget m.old
        (landed_here run.now.program.now asked run.now.budget m.old (done (value_of value.entry) (state_of (S.stored store.old) m.old.changes) m.old.left)) m.new (S.stored store.new) result }
    ensures state { IfOk result (λ next. IsState run.now.program.now m.new × IsNext run.now.program.now m.new next) }
    ensures falls { IfOk result (λ next. weight m.new next ≤ weight m.old Goes) }
    ensures low { IfOk result (λ next. IsLow (slack next) m.new (S.stored store.new)) }
    ensures within { m.new.left ≡ m.old.left }
{
    let Some(line) = run.program.line(m.frame.at) else {
        drop(value);
        return Ok(Next::Goes);
    };
    match &line.action {
        Action::Assign(place, _) => put(m, store, *place, value),
        _ => {
            drop(value);
            m.frame.at.index += 1;
            Ok(Next::Goes)
        }
    }
}

/// A value is returned to what waits.
pub fn back<'i, 'a, S: Store>(
    run: &Run<'i, 'a>,
    m: &mut Machine<'a>,
    store: &mut S,
    kont: Kont<'a>,
    value: CValue<'a>,
) -> Result<Next<'a>, RunFault>
    requires state { IsState run.now.program.now m.old }
    requires kont { IsKont run.now.program.now kont }
    requires typed { IsTyped (lay_at run.now.program.now m.old.frame.at.function) (value_of value) }
    requires low { IsLow 1 m.old (S.stored store.old) }
    ensures gives { (asked : Asked) → Went run.now.program.now asked run.now.budget
        (on_kont run.now.program.now asked run.now.budget kont.entry (waits run.now.program.now asked run.now.budget m.old.stack.items) m.old.frame.at.function
        (done (back_of (scalars_of (value_of value.entry))) (state_of (S.stored store.old) m.old.changes) m.old.left)) m.new (S.stored store.new) result }
    ensures state { IfOk result (λ next. IsState run.now.program.now m.new × IsNext run.now.program.now m.new next) }
    ensures falls { IfOk result (λ next. weight m.new next ≤ weight m.old Goes) }
    ensures low { IfOk result (λ next. IsLow (slack next) m.new (S.stored store.new)) }
    ensures within { m.new.left ≡ m.old.left }
{
    match kont {
        Kont::After(_, _) => Ok(Next::Back(value)),
        Kont::Return(frame) => {
            m.frame = frame;
            land(run, m, store, value)
        }
    }
}
