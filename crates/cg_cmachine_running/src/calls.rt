// Calls.
#![tactic(auto, using(crate::proofs::Entries::call_steps))]

ghost use Rattle.std.specs.Prelude.{◌≡◌, ◌<◌, ◌≤◌, ◌+◌, ◌^◌, ◌++◌, ◌-◌, ℕ, IfErr, IfOk, false, true, length, map, replicate};
ghost use Rattle.cg_cmachine_layout.specs.Kinds.{layout_of, shape_layout};
ghost use Rattle.cg_cmachine_builtins.specs.Called.{built_in_of, into_place, state_of};
ghost use Rattle.cg_cmachine_builtins.specs.declared.changes.Changes.{Changes as TheChanges};
ghost use Rattle.cg_cmachine_running.specs.declared.machine.Next.TheVariants.{Goes};
ghost use Rattle.cg_cmachine_running.specs.Machine.{Asked, Enters, Follows, IsLow, IsNext, IsState, slack, by_names, called_in, entered, framed, gathered, landed_here, weight};
ghost use Rattle.cg_cmachine_running.specs.Statements.{assigns, called_aside, called_to};
ghost use Rattle.cg_cmachine_resolve.specs.declared.line.Right.TheVariants.{New};
ghost use Rattle.cg_cmachine_resolve.specs.Resolutions.{Resolution};
ghost use Rattle.cg_cmachine_def.specs.BuiltIns.{called, make_struct};
ghost use Rattle.cg_cmachine_def.specs.Layouts.{size};
ghost use Rattle.cg_cmachine_def.specs.Outcomes.{bind, done, lift};
ghost use Rattle.cg_cmachine_def.specs.Runs.{goes};
ghost use Rattle.cg_cmachine_values.specs.declared.fault.RunFault.TheVariants.{Memory};
ghost use Rattle.cg_cmachine_values.specs.Values.{AreWithin, IsOperandWithin, IsWithin, Tries, judged_all, value_of};
ghost use Rattle.cg_heap.specs.declared.cell.Scalar.TheVariants.{Unset};
ghost use Rattle.cg_heap.specs.Stored.{Stored};

use crate::machine::{Frame, Kont, Machine, Next, Run};
use cg_base::Name;
use cg_cmachine_builtins::{BuiltIn, call, call_into, new_into};
use cg_cmachine_layout::{Kind, Shape};
use cg_cmachine_resolve::{Callee, Head, Position};
use cg_cmachine_values::{CValue, Operand, Place, RunFault, is_of, judge, judge_all, push_scalars};
use cg_ctree::Why;
use cg_heap::{Scalar, Store};
use std::alloc::Global;

/// The frame of a function whose parameters have these slots; its locals begin unset.
pub fn begin<'i, 'a>(
    function: usize,
    head: Head<'i, 'a>,
    slots: Vec<Scalar>,
) -> Result<Frame<'a>, RunFault>
    ensures slots { IfOk result (λ frame. frame.slots.items ≡ slots.items ++ replicate (head.entry.slots - length slots.items) Unset) }
    ensures place { IfOk result (λ frame. frame.at ≡ record { function = function; block = 0; index = 0 }) }
    ensures kind { IfOk result (λ frame. frame.kind ≡ head.entry.kind) }
    ensures wanting { IfErr result (λ fault. fault ≡ Memory) }
{
    let mut slots = slots;
    while slots.len() < head.slots {
        slots.push(Scalar::Unset)?;
    }
    Ok(Frame {
        at: Position {
            function,
            block: 0,
            index: 0,
        },
        kind: head.kind,
        slots,
    })
}

/// The scalars of values that are of these types, one for each; None where one isn't, or there are fewer or more.
pub fn gather<'a>(
    alloc: Global,
    params: &[Kind<'a>],
    values: &[CValue<'a>],
) -> Result<Vec<Scalar>, RunFault>
    ensures { Tries (λ slots. slots.items) (gathered (map layout_of params.now) (map value_of values.now)) result }
{
    if params.len() != values.len() {
        return Err(RunFault::Stuck(Why::KindsDiffer));
    }
    let mut slots = Vec::new(alloc);
    for (i, kind) in params.iter().enumerate() {
        if !is_of(*kind, &values[i]) {
            return Err(RunFault::Stuck(Why::KindsDiffer));
        }
        push_scalars(&mut slots, &values[i])?;
    }
    Ok(slots)
}

/// Enters the function at a place, with these values.
fn enter<'i, 'a>(
    alloc: Global,
    run: &Run<'i, 'a>,
    function: usize,
    values: &[CValue<'a>],
) -> Result<Frame<'a>, RunFault>
    ensures enters { (asked : Asked) (store : Stored) (c : TheChanges) (left : ℕ) → Enters run.now.program.now asked run.now.budget
        (entered run.now.program.now asked run.now.budget function (map value_of values.now) (state_of store c) left) store c left result }
    ensures place { IfOk result (λ frame. frame.at.function ≡ function) }
{
    let Some(head) = run.program.head(function) else {
        return Err(RunFault::Stuck(Why::NoFunction));
    };
    if !head.has_body {
        return Err(RunFault::Stuck(Why::NoBody));
    }
    let slots = gather(alloc, head.params, values)?;
    begin(function, head, slots)
}

/// The function at a place is called by the statement at hand.
fn go_into<'i, 'a>(
    alloc: Global,
    run: &Run<'i, 'a>,
    m: &mut Machine<'a>,
    function: usize,
    values: &[CValue<'a>],
) -> Result<Next<'a>, RunFault>
    ensures gives { (asked : Asked) (store : Stored) → Follows run.now.program.now asked run.now.budget m.old
        (landed_here run.now.program.now asked run.now.budget m.old (entered run.now.program.now asked run.now.budget function (map value_of values.now) (state_of store m.old.changes) m.old.left)) m.new store result }
    ensures state { IsState run.now.program.now m.old → IfOk result (λ next. IsState run.now.program.now m.new × IsNext run.now.program.now m.new next) }
    ensures falls { IfOk result (λ next. weight m.new next ≤ weight m.old Goes + 1) }
    ensures within { m.new.left ≡ m.old.left }
{
    let frame = enter(alloc, run, function, values)?;
    let caller = std::mem::replace(&mut m.frame, frame);
    m.stack.push(Kont::Return(caller))?;
    Ok(Next::Goes)
}

/// A call of other than a built-in, by the statement at hand.
fn call_function<'i, 'a>(
    alloc: Global,
    run: &Run<'i, 'a>,
    m: &mut Machine<'a>,
    callee: Callee<'a>,
    values: Vec<CValue<'a>>,
) -> Result<Next<'a>, RunFault>
    ensures gives { (asked : Asked) (store : Stored) → Follows run.now.program.now asked run.now.budget m.old
        (landed_here run.now.program.now asked run.now.budget m.old (called_in run.now.program.now asked run.now.budget callee.entry (map value_of values.entry.items) (state_of store m.old.changes) m.old.left)) m.new store result }
    ensures state { IsState run.now.program.now m.old → IfOk result (λ next. IsState run.now.program.now m.new × IsNext run.now.program.now m.new next) }
    ensures falls { IfOk result (λ next. weight m.new next ≤ weight m.old Goes + 1) }
    ensures within { m.new.left ≡ m.old.left }
{
    match callee {
        Callee::Own(function) => go_into(alloc, run, m, function, values.as_slice()),
        Callee::Linked(function, name) => Ok(Next::Ask(function, name, values)),
        Callee::Missing | Callee::BuiltIn(_) => Err(RunFault::Stuck(Why::NoFunction)),
    }
}

/// A built-in whose value is assigned, and whose step is counted.
fn built_in_to<'a, S: Store>(
    m: &mut Machine<'a>,
    store: &mut S,
    place: Place<'a>,
    built_in: BuiltIn,
    values: &[CValue<'a>],
) -> Result<Next<'a>, RunFault>
    requires place { IsWithin (length m.old.frame.slots.items) place }
    requires low { IsLow 2 m.old (S.stored store.old) }
    requires small { m.old.frame.at.index + 1 < 2 ^ 64 }
    ensures gives { (r : Resolution) (asked : Asked) (n : ℕ) → Follows r asked n m.old (by_names r asked n m.old.frame.at.function
        (bind (called (built_in_of built_in) true (map value_of values.now) (state_of (S.stored store.old) m.old.changes) m.old.left)
        (into_place (S.stored store.old) m.old.frame.slots.items place.entry))) m.new (S.stored store.new) result }
    ensures state { (r : Resolution) → IsState r m.old → IfOk result (λ next. IsState r m.new × IsNext r m.new next) }
    ensures falls { IfOk result (λ next. weight m.new next ≤ weight m.old Goes + 1) }
    ensures low { IfOk result (λ next. IsLow (slack next) m.new (S.stored store.new)) }
    ensures within { m.new.left ≤ m.old.left }
{
    m.left = call_into(
        store,
        &mut m.changes,
        m.frame.slots.as_mut_slice(),
        m.left,
        built_in,
        values,
        place,
    )?;
    m.frame.at.index += 1;
    Ok(Next::Goes)
}

/// A built-in whose value nobody takes, and whose step is counted.
fn built_in_aside<'a, S: Store>(
    m: &mut Machine<'a>,
    store: &mut S,
    built_in: BuiltIn,
    values: &[CValue<'a>],
) -> Result<Next<'a>, RunFault>
    requires low { IsLow 2 m.old (S.stored store.old) }
    requires small { m.old.frame.at.index + 1 < 2 ^ 64 }
    ensures gives { (r : Resolution) (asked : Asked) (n : ℕ) → Follows r asked n m.old
        (bind (called (built_in_of built_in) false (map value_of values.now) (state_of (S.stored store.old) m.old.changes) m.old.left) (λ g s left.
        done (goes (framed r m.old.frame)) s left)) m.new (S.stored store.new) result }
    ensures state { (r : Resolution) → IsState r m.old → IfOk result (λ next. IsState r m.new × IsNext r m.new next) }
    ensures falls { IfOk result (λ next. weight m.new next ≤ weight m.old Goes + 1) }
    ensures low { IfOk result (λ next. IsLow (slack next) m.new (S.stored store.new)) }
    ensures within { m.new.left ≤ m.old.left }
{
    m.left = call(store, &mut m.changes, m.left, built_in, values)?;
    m.frame.at.index += 1;
    Ok(Next::Goes)
}

/// `cg_new` of an allocator that is judged, whose value is assigned, and whose step is counted.
fn make_to<'a, S: Store>(
    m: &mut Machine<'a>,
    store: &mut S,
    place: Place<'a>,
    heap: &CValue<'a>,
    name: &'a Name,
    shape: Shape<'a>,
) -> Result<Next<'a>, RunFault>
    requires place { IsWithin (length m.old.frame.slots.items) place }
    requires low { IsLow 2 m.old (S.stored store.old) }
    requires small { m.old.frame.at.index + 1 < 2 ^ 64 }
    ensures gives { (r : Resolution) (asked : Asked) (n : ℕ) → Follows r asked n m.old (by_names r asked n m.old.frame.at.function
        (bind (make_struct name.now (size (shape_layout shape.entry)) (value_of heap.now) (state_of (S.stored store.old) m.old.changes) m.old.left)
        (into_place (S.stored store.old) m.old.frame.slots.items place.entry))) m.new (S.stored store.new) result }
    ensures state { (r : Resolution) → IsState r m.old → IfOk result (λ next. IsState r m.new × IsNext r m.new next) }
    ensures falls { IfOk result (λ next. weight m.new next ≤ weight m.old Goes + 1) }
    ensures low { IfOk result (λ next. IsLow (slack next) m.new (S.stored store.new)) }
    ensures within { m.new.left ≤ m.old.left }
{
    m.left = new_into(
        store,
        &mut m.changes,
        m.frame.slots.as_mut_slice(),
        m.left,
        name,
        shape,
        heap,
        place,
    )?;
    m.frame.at.index += 1;
    Ok(Next::Goes)
}

/// `cg_new` whose value is assigned, and whose step is counted.
pub(crate) fn new_to<'a, S: Store>(
    alloc: Global,
    m: &mut Machine<'a>,
    store: &mut S,
    place: Place<'a>,
    heap: &Operand<'a>,
    name: &'a Name,
    shape: Shape<'a>,
) -> Result<Next<'a>, RunFault>
    requires within { IsOperandWithin (length m.old.frame.slots.items) heap.now }
    requires place { IsWithin (length m.old.frame.slots.items) place }
    requires low { IsLow 2 m.old (S.stored store.old) }
    requires small { m.old.frame.at.index + 1 < 2 ^ 64 }
    ensures gives { (r : Resolution) (asked : Asked) (n : ℕ) → Follows r asked n m.old (assigns r asked n m.old (S.stored store.old) place.entry (New heap.now name.entry shape.entry)) m.new (S.stored store.new) result }
    ensures state { (r : Resolution) → IsState r m.old → IfOk result (λ next. IsState r m.new × IsNext r m.new next) }
    ensures falls { IfOk result (λ next. weight m.new next ≤ weight m.old Goes + 1) }
    ensures low { IfOk result (λ next. IsLow (slack next) m.new (S.stored store.new)) }
    ensures within { m.new.left ≤ m.old.left }
{
    let heap = judge(alloc, store, m.frame.slots.as_slice(), heap)?;
    make_to(m, store, place, &heap, name, shape)
}

/// A call whose value is assigned, and whose step is counted.
pub(crate) fn call_to<'i, 'a, S: Store>(
    alloc: Global,
    run: &Run<'i, 'a>,
    m: &mut Machine<'a>,
    store: &mut S,
    place: Place<'a>,
    callee: Callee<'a>,
    operands: &[Operand<'a>],
) -> Result<Next<'a>, RunFault>
    requires within { AreWithin (length m.old.frame.slots.items) operands.now }
    requires place { IsWithin (length m.old.frame.slots.items) place }
    requires low { IsLow 2 m.old (S.stored store.old) }
    requires small { m.old.frame.at.index + 1 < 2 ^ 64 }
    ensures gives { (asked : Asked) → Follows run.now.program.now asked run.now.budget m.old
        (lift (S.stored store.old) (judged_all (S.stored store.old) m.old.frame.slots.items operands.now) (called_to run.now.program.now asked run.now.budget m.old (S.stored store.old) place.entry callee.entry)) m.new (S.stored store.new) result }
    ensures state { IsState run.now.program.now m.old → IfOk result (λ next. IsState run.now.program.now m.new × IsNext run.now.program.now m.new next) }
    ensures falls { IfOk result (λ next. weight m.new next ≤ weight m.old Goes + 1) }
    ensures low { IfOk result (λ next. IsLow (slack next) m.new (S.stored store.new)) }
    ensures within { m.new.left ≤ m.old.left }
{
    let values = judge_all(alloc, store, m.frame.slots.as_slice(), operands)?;
    match callee {
        Callee::BuiltIn(built_in) => built_in_to(m, store, place, built_in, values.as_slice()),
        _ => call_function(alloc, run, m, callee, values),
    }
}

/// A call whose value nobody takes, and whose step is counted.
pub(crate) fn call_aside<'i, 'a, S: Store>(
    alloc: Global,
    run: &Run<'i, 'a>,
    m: &mut Machine<'a>,
    store: &mut S,
    callee: Callee<'a>,
    operands: &[Operand<'a>],
) -> Result<Next<'a>, RunFault>
    requires within { AreWithin (length m.old.frame.slots.items) operands.now }
    requires low { IsLow 2 m.old (S.stored store.old) }
    requires small { m.old.frame.at.index + 1 < 2 ^ 64 }
    ensures gives { (asked : Asked) → Follows run.now.program.now asked run.now.budget m.old
        (lift (S.stored store.old) (judged_all (S.stored store.old) m.old.frame.slots.items operands.now) (called_aside run.now.program.now asked run.now.budget m.old (S.stored store.old) callee.entry)) m.new (S.stored store.new) result }
    ensures state { IsState run.now.program.now m.old → IfOk result (λ next. IsState run.now.program.now m.new × IsNext run.now.program.now m.new next) }
    ensures falls { IfOk result (λ next. weight m.new next ≤ weight m.old Goes + 1) }
    ensures low { IfOk result (λ next. IsLow (slack next) m.new (S.stored store.new)) }
    ensures within { m.new.left ≤ m.old.left }
{
    let values = judge_all(alloc, store, m.frame.slots.as_slice(), operands)?;
    match callee {
        Callee::BuiltIn(built_in) => built_in_aside(m, store, built_in, values.as_slice()),
        _ => call_function(alloc, run, m, callee, values),
    }
}
