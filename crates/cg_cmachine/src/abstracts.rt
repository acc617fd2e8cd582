// Calls of abstract functions.
#![tactic(auto, using(crate::proofs::Asking::abstract_steps))]

ghost use Rattle.std.specs.Prelude.{◌≡◌, ◌<◌, ◌≤◌, ◌+◌, ◌^◌, ◌++◌, Some, IfOk, IfErr, OnOk, map};
ghost use Rattle.cg_cmachine_builtins.specs.Called.{Ends, state_of};
ghost use Rattle.cg_cmachine_layout.specs.Kinds.{layout_of};
ghost use Rattle.cg_cmachine.specs.Abstracts.{Answers, answered_value, read_whole};
ghost use Rattle.cg_cmachine_running.specs.declared.machine.Next.TheVariants.{Ask, Goes};
ghost use Rattle.cg_cmachine_running.specs.Machine.{IsLow, abstract_call, function_at, gathered, IsNext, IsState, Went, slack, said, weight};
ghost use Rattle.cg_cmachine_def.specs.Outcomes.{IsCalm};
ghost use Rattle.cg_cmachine_values.specs.declared.fault.RunFault.TheVariants.{Memory as Wanting};
ghost use Rattle.cg_cmachine_values.specs.Values.{Tries, value_of};
ghost use Rattle.cg_heap.specs.Calls.{Answer};

use cg_base::{Items, Memory, Name};
use cg_cmachine_builtins::Changes;
use cg_cmachine_layout::Kind;
use cg_cmachine_running::{Machine, Next, Run, gather, land};
use cg_cmachine_values::{CValue, RunFault, read_local};
use cg_ctree::Why;
use cg_heap::{Called, ExternHeap, Scalar, Store};
use std::alloc::Global;

/// A list of these items.
pub(crate) fn listed<T: Copy>(alloc: Global, items: &[T]) -> Result<Items<T>, Memory>
    ensures { IfOk result (λ list. list ≡ items.now) }
{
    let mut list = Items::new(alloc);
    for item in items {
        list.push(*item)?;
    }
    Ok(list)
}

/// Adds the addresses of cells that were made and freed.
fn note(changes: &mut Changes, made: &[u64], freed: &[u64]) -> Result<(), RunFault>
    ensures made { OnOk result (changes.new.made.items ≡ changes.old.made.items ++ made.now) }
    ensures freed { OnOk result (changes.new.freed.items ≡ changes.old.freed.items ++ freed.now) }
    ensures wanting { IfErr result (λ fault. fault ≡ Wanting) }
{
    changes.made.extend_from_slice(made)?;
    changes.freed.extend_from_slice(freed)?;
    Ok(())
}

/// The scalars that a call gave; the cells that it made and freed are added to those of the run.
fn taken(changes: &mut Changes, called: Called) -> Result<Items<Scalar>, RunFault>
    ensures value { IfOk result (λ value. value ≡ called.value) }
    ensures made { OnOk result (changes.new.made.items ≡ changes.old.made.items ++ called.made) }
    ensures freed { OnOk result (changes.new.freed.items ≡ changes.old.freed.items ++ called.freed) }
    ensures wanting { IfErr result (λ fault. fault ≡ Wanting) }
{
    let Called { value, made, freed } = called;
    note(changes, made.as_slice(), freed.as_slice())?;
    Ok(value)
}

/// A call that a table answers, whose steps are counted before it runs: the result's scalars, and the steps that are left.
pub(crate) fn call_table<X: ExternHeap, S: Store>(
    alloc: Global,
    table: &X,
    store: &mut S,
    changes: &mut Changes,
    left: u64,
    name: &Name,
    arg: &Items<Scalar>,
) -> Result<(Items<Scalar>, u64), RunFault>
    requires low { (S.stored store.old).top + 65536 < 2 ^ 63 }
    ensures { (answer : Answer) → (X.on_heaps table.now).asked name.now arg.now (S.stored store.old) ≡ Some answer
        → Answers answer (S.stored store.old) changes.old left (S.stored store.new) changes.new result }
{
    let steps = table.steps(name, arg, store);
    if left < steps {
        return Err(RunFault::Budget);
    }
    let called = table.run(alloc, name, arg, store)?;
    let value = taken(changes, called)?;
    Ok((value, left - steps))
}

/// The value of a type that all of these scalars are; they have to be as many as the type has slots.
fn read_result<'a>(
    alloc: Global,
    scalars: &[Scalar],
    kind: Kind<'a>,
) -> Result<CValue<'a>, RunFault>
    ensures { Tries value_of (read_whole (layout_of kind.entry) scalars.now) result }
{
    if scalars.len() != kind.size() as usize {
        return Err(RunFault::Stuck(Why::KindsDiffer));
    }
    read_local(alloc, scalars, 0, kind)
}

/// A call that a table answers, whose steps are counted before it runs: the result as a value of a type, and the steps that are left.
fn call_for_value<'a, X: ExternHeap, S: Store>(
    alloc: Global,
    table: &X,
    store: &mut S,
    changes: &mut Changes,
    left: u64,
    name: &Name,
    arg: &Items<Scalar>,
    kind: Kind<'a>,
) -> Result<(CValue<'a>, u64), RunFault>
    requires low { (S.stored store.old).top + 65536 < 2 ^ 63 }
    ensures { (answer : Answer) → (X.on_heaps table.now).asked name.now arg.now (S.stored store.old) ≡ Some answer
        → Ends value_of (answered_value (layout_of kind.entry) (state_of (S.stored store.old) changes.old) left answer) (S.stored store.new) changes.new result }
{
    let (result, left) = call_table(alloc, table, store, changes, left, name, arg)?;
    let value = read_result(alloc, result.as_slice(), kind)?;
    Ok((value, left))
}

/// The scalars of the arguments of a call.
fn arguments<'a>(
    alloc: Global,
    params: &[Kind<'a>],
    values: &[CValue<'a>],
) -> Result<Items<Scalar>, RunFault>
    ensures { Tries (λ list. list) (gathered (map layout_of params.now) (map value_of values.now)) result }
{
    let slots = gather(alloc, params, values)?;
    Ok(listed(alloc, slots.as_slice())?)
}

/// A call of the abstract function that the function at a place is: its value, and the steps that are left.
fn call_abstract<'i, 'a, X: ExternHeap, S: Store>(
    alloc: Global,
    table: &X,
    run: &Run<'i, 'a>,
    store: &mut S,
    changes: &mut Changes,
    left: u64,
    function: usize,
    name: &Name,
    values: &[CValue<'a>],
) -> Result<(CValue<'a>, u64), RunFault>
    requires low { (S.stored store.old).top + 65536 < 2 ^ 63 }
    ensures { let asked = (X.on_heaps table.now).asked in
        let called = abstract_call run.now.program.now asked run.now.budget (function_at run.now.program.now function) name.now (map value_of values.now) (state_of (S.stored store.old) changes.old) left in
        IsCalm called → Ends value_of called (S.stored store.new) changes.new result }
{
    let Some(head) = run.program.head(function) else {
        return Err(RunFault::Stuck(Why::NoFunction));
    };
    let arg = arguments(alloc, head.params, values)?;
    call_for_value(alloc, table, store, changes, left, name, &arg, head.kind)
}

/// The statement at hand asks an abstract function.
pub(crate) fn ask<'i, 'a, X: ExternHeap, S: Store>(
    alloc: Global,
    table: &X,
    run: &Run<'i, 'a>,
    m: &mut Machine<'a>,
    store: &mut S,
    function: usize,
    name: &'a Name,
    values: Vec<CValue<'a>>,
) -> Result<Next<'a>, RunFault>
    requires state { IsState run.now.program.now m.old }
    requires low { IsLow 2 m.old (S.stored store.old) }
    requires calm { IsCalm (said run.now.program.now ((X.on_heaps table.now).asked) run.now.budget m.old (S.stored store.old) (Ask function name values)) }
    ensures gives { let asked = (X.on_heaps table.now).asked in
        Went run.now.program.now asked run.now.budget (said run.now.program.now asked run.now.budget m.old (S.stored store.old) (Ask function name.entry values.entry)) m.new (S.stored store.new) result }
    ensures state { IfOk result (λ next. IsState run.now.program.now m.new × IsNext run.now.program.now m.new next) }
    ensures falls { IfOk result (λ next. weight m.new next ≤ weight m.old Goes) }
    ensures low { IfOk result (λ next. IsLow (slack next) m.new (S.stored store.new)) }
    ensures within { m.new.left ≤ m.old.left }
{
    let (value, left) = call_abstract(
        alloc,
        table,
        run,
        store,
        &mut m.changes,
        m.left,
        function,
        name,
        values.as_slice(),
    )?;
    m.left = left;
    land(run, m, store, value)
}
