// A run of a program.
#![tactic(auto, using(crate::proofs::Answering::answer_steps))]

ghost use Rattle.std.specs.Prelude.{◌≡◌, ◌<◌, ◌≤◌, ◌^◌, [], Some, false, true, map, nat_eq, IfErr, IfOk, MatchOption, length};
ghost use Rattle.cg_cmachine_layout.specs.Kinds.{layout_of};
ghost use Rattle.cg_cmachine.specs.Answers.{Runs};
ghost use Rattle.cg_cmachine.specs.Answering.{Tells, none_asked, started, sum_sizes};
ghost use Rattle.cg_cmachine_running.specs.declared.machine.Next.TheVariants.{Goes};
ghost use Rattle.cg_cmachine_running.specs.Machine.{IsLow, IsState, said};
ghost use Rattle.cg_cmachine_resolve.specs.Lines.{IsAt, linked};
ghost use Rattle.cg_cmachine_resolve.specs.Resolutions.{IsFirst, IsHead, blocks_in};
ghost use Rattle.cg_cmachine_def.specs.Operands.{scalars_of};
ghost use Rattle.cg_cmachine_def.specs.Outcomes.{IsCalm};
ghost use Rattle.cg_cmachine_def.specs.Runs.{crun, linked_to};
ghost use Rattle.cg_ctree.specs.Trees.{program_of};
ghost use Rattle.cg_cmachine_values.specs.declared.fault.RunFault.TheVariants.{Memory};
ghost use Rattle.cg_cmachine_values.specs.Values.{value_of};

use crate::RunFault;
use crate::abstracts::{call_table, listed};
use crate::going::go_on;
use cg_base::{Items, Name};
use cg_cmachine_builtins::Changes;
use cg_cmachine_layout::Kind;
use cg_cmachine_resolve::{Head, Resolved};
use cg_cmachine_running::{Machine, Run, begin};
use cg_cmachine_values::{CValue, push_scalars};
use cg_ctree::{CProgram, Why};
use cg_heap::{ExternHeap, Link, Scalar, Store};
use cg_value::NoExtern;
use std::alloc::Global;

/// What a run gives: the scalars that the function returns, the steps that it took, and the addresses of the cells that it made and
/// freed, in the order of its steps.
#[derive(Drop)]
pub struct Ran {
    pub value: Items<Scalar>,
    pub steps: u64,
    pub made: Items<u64>,
    pub freed: Items<u64>,
}

/// How many slots values of these types have; None where they are 2^64 or more.
fn sum(kinds: &[Kind<'_>]) -> Option<usize>
    ensures { MatchOption result (2 ^ 64 ≤ sum_sizes (map layout_of kinds.now)) (λ n. n ≡ sum_sizes (map layout_of kinds.now)) }
{
    let mut sum: usize = 0;
    for kind in kinds {
        sum = sum.checked_add(kind.size() as usize)?;
    }
    Some(sum)
}

/// Whether a run's argument has as many scalars as the parameters have slots.
fn fits(params: &[Kind<'_>], arg: &[Scalar]) -> bool
    ensures { result ≡ nat_eq (sum_sizes (map layout_of params.now)) (length arg.now) }
{
    sum(params) == Some(arg.len())
}

/// The addresses of the cells that a run made, and of those that it freed.
fn cells(alloc: Global, changes: &Changes) -> Result<(Items<u64>, Items<u64>), RunFault>
    ensures made { IfOk result (λ lists. lists.0 ≡ changes.now.made.items) }
    ensures freed { IfOk result (λ lists. lists.1 ≡ changes.now.freed.items) }
    ensures wanting { IfErr result (λ fault. fault ≡ Memory) }
{
    let made = listed(alloc, changes.made.as_slice())?;
    let freed = listed(alloc, changes.freed.as_slice())?;
    Ok((made, freed))
}

/// What a run gives.
fn told(alloc: Global, value: Items<Scalar>, steps: u64, changes: &Changes) -> Result<Ran, RunFault>
    ensures told { IfOk result (λ ran. Tells ran value steps changes.now) }
    ensures wanting { IfErr result (λ fault. fault ≡ Memory) }
{
    let (made, freed) = cells(alloc, changes)?;
    Ok(Ran {
        value,
        steps,
        made,
        freed,
    })
}

/// The scalars of a value.
fn scalars(alloc: Global, value: &CValue<'_>) -> Result<Items<Scalar>, RunFault>
    ensures scalars { IfOk result (λ list. list ≡ scalars_of (value_of value.now)) }
    ensures wanting { IfErr result (λ fault. fault ≡ Memory) }
{
    let mut slots = Vec::new(alloc);
    push_scalars(&mut slots, value)?;
    Ok(listed(alloc, slots.as_slice())?)
}

/// Runs to the end, and tells what the run gave.
fn finish<'i, 'a, X: ExternHeap, S: Store>(
    alloc: Global,
    table: &X,
    run: &Run<'i, 'a>,
    m: &mut Machine<'a>,
    store: &mut S,
) -> Result<Ran, RunFault>
    requires state { IsState run.now.program.now m.old }
    requires low { IsLow 1 m.old (S.stored store.old) }
    requires full { m.old.left ≡ run.now.budget }
    requires calm { IsCalm (said run.now.program.now ((X.on_heaps table.now).asked) run.now.budget m.old (S.stored store.old) Goes) }
    ensures { Runs (said run.now.program.now ((X.on_heaps table.now).asked) run.now.budget m.old (S.stored store.old) Goes) run.now.budget (S.stored store.new) result }
{
    let value = go_on(alloc, table, run, m, store)?;
    let scalars = scalars(alloc, &value)?;
    told(alloc, scalars, run.budget - m.left, &m.changes)
}

/// Runs a function with a body.
fn run_body<'i, 'a, X: ExternHeap, S: Store>(
    alloc: Global,
    table: &X,
    run: &Run<'i, 'a>,
    function: usize,
    head: Head<'i, 'a>,
    arg: &[Scalar],
    store: &mut S,
) -> Result<Ran, RunFault>
    requires head { IsAt run.now.program.now.whole function (λ f. IsHead run.now.program.now.whole f head.kind head.params.now head.slots head.has_body) }
    requires first { IsAt run.now.program.now.whole function (λ f. IsFirst f.body (blocks_in run.now.program.now function)) }
    requires body { head.has_body ≡ true }
    requires low { (S.stored store.old).top < 2 ^ 32 }
    requires few { run.now.budget ≤ 2 ^ 46 }
    requires calm { IsCalm (started run.now.program.now ((X.on_heaps table.now).asked) run.now.budget function arg.now (S.stored store.old)) }
    ensures { Runs (started run.now.program.now ((X.on_heaps table.now).asked) run.now.budget function arg.now (S.stored store.old)) run.now.budget (S.stored store.new) result }
{
    if !fits(head.params, arg) {
        return Err(RunFault::Stuck(Why::KindsDiffer));
    }
    let frame = begin(function, head, arg.to_vec(alloc)?)?;
    let mut m = Machine {
        frame,
        stack: Vec::new(alloc),
        left: run.budget,
        changes: Changes {
            made: Vec::new(alloc),
            freed: Vec::new(alloc),
        },
    };
    finish(alloc, table, run, &mut m, store)
}

/// Runs a function that is an abstract one, on an argument that fits its parameters.
fn run_table<'i, 'a, X: ExternHeap, S: Store>(
    alloc: Global,
    table: &X,
    run: &Run<'i, 'a>,
    function: usize,
    head: Head<'i, 'a>,
    name: &Name,
    arg: &Items<Scalar>,
    store: &mut S,
    changes: &mut Changes,
) -> Result<Ran, RunFault>
    requires head { IsAt run.now.program.now.whole function (λ f. IsHead run.now.program.now.whole f head.kind head.params.now head.slots head.has_body) }
    requires body { head.has_body ≡ false }
    requires name { IsAt run.now.program.now.whole function (λ f. linked_to f.name run.now.program.now.whole.links ≡ Some name.now) }
    requires fits { sum_sizes (map layout_of head.params.now) ≡ length arg.now }
    requires made { changes.old.made.items ≡ [] }
    requires freed { changes.old.freed.items ≡ [] }
    requires low { (S.stored store.old).top < 2 ^ 32 }
    requires calm { IsCalm (started run.now.program.now ((X.on_heaps table.now).asked) run.now.budget function arg.now (S.stored store.old)) }
    ensures { Runs (started run.now.program.now ((X.on_heaps table.now).asked) run.now.budget function arg.now (S.stored store.old)) run.now.budget (S.stored store.new) result }
{
    let (value, left) = call_table(alloc, table, store, changes, run.budget, name, arg)?;
    if value.len() != head.kind.size() as usize {
        return Err(RunFault::Stuck(Why::KindsDiffer));
    }
    told(alloc, value, run.budget - left, changes)
}

/// Runs a function that is an abstract one.
fn run_abstract<'i, 'a, X: ExternHeap, S: Store>(
    alloc: Global,
    table: &X,
    run: &Run<'i, 'a>,
    function: usize,
    head: Head<'i, 'a>,
    name: &Name,
    arg: &Items<Scalar>,
    store: &mut S,
) -> Result<Ran, RunFault>
    requires head { IsAt run.now.program.now.whole function (λ f. IsHead run.now.program.now.whole f head.kind head.params.now head.slots head.has_body) }
    requires body { head.has_body ≡ false }
    requires name { IsAt run.now.program.now.whole function (λ f. linked_to f.name run.now.program.now.whole.links ≡ Some name.now) }
    requires low { (S.stored store.old).top < 2 ^ 32 }
    requires calm { IsCalm (started run.now.program.now ((X.on_heaps table.now).asked) run.now.budget function arg.now (S.stored store.old)) }
    ensures { Runs (started run.now.program.now ((X.on_heaps table.now).asked) run.now.budget function arg.now (S.stored store.old)) run.now.budget (S.stored store.new) result }
{
    if !fits(head.params, arg.as_slice()) {
        return Err(RunFault::Stuck(Why::KindsDiffer));
    }
    let mut changes = Changes {
        made: Vec::new(alloc),
        freed: Vec::new(alloc),
    };
    run_table(
        alloc,
        table,
        run,
        function,
        head,
        name,
        arg,
        store,
        &mut changes,
    )
}

/// The same for a program whose names are resolved.
fn run_resolved<X: ExternHeap, S: Store>(
    alloc: Global,
    table: &X,
    program: &Resolved<'_>,
    function: &Name,
    arg: &Items<Scalar>,
    store: &mut S,
    budget: u64,
) -> Result<Ran, RunFault>
    requires low { (S.stored store.old).top < 2 ^ 32 }
    requires few { budget ≤ 2 ^ 46 }
    requires calm { IsCalm (crun (linked program.now.whole ((X.on_heaps table.now).asked)) budget function.now arg.now (S.stored store.old)) }
    ensures { Runs (crun (linked program.now.whole ((X.on_heaps table.now).asked)) budget function.now arg.now (S.stored store.old)) budget (S.stored store.new) result }
{
    let Some(at) = program.find(function) else {
        return Err(RunFault::Stuck(Why::NoFunction));
    };
    let Some(head) = program.head(at) else {
        return Err(RunFault::Stuck(Why::NoFunction));
    };
    let run = Run { program, budget };
    if head.has_body {
        return run_body(alloc, table, &run, at, head, arg.as_slice(), store);
    }
    match program.abstract_name(at) {
        None => Err(RunFault::Stuck(Why::NoBody)),
        Some(name) => run_abstract(alloc, table, &run, at, head, name, arg, store),
    }
}

/// Runs a function of a program on a store, in at most `budget` steps (docs/LANGUAGE.md, "The C subset"): what it gives; or that it is stuck
/// and why; or that it needs more steps; or that memory is wanting. It answers what the definition of a run says; the store is then as the
/// steps that were done made it. A function without a body whose name is a link's is a call of the table's function; each such call in
/// the run has to be one that the table answers. Names are resolved once, in time n log n in the size of the program where no struct holds
/// itself; no step looks one up. A case of a switch is found by a walk over its cases, and a call takes time in the number of slots of its
/// function's variables.
pub fn run_c_with<X: ExternHeap, S: Store>(
    alloc: Global,
    table: &X,
    links: &Items<Link>,
    program: &CProgram,
    function: &Name,
    arg: &Items<Scalar>,
    store: &mut S,
    budget: u64,
) -> Result<Ran, RunFault>
    requires low { (S.stored store.old).top < 2 ^ 32 }
    requires few { budget ≤ 2 ^ 46 }
    requires calm { IsCalm (crun (record { program = program_of program.now; links = links.now; asked = (X.on_heaps table.now).asked }) budget function.now arg.now (S.stored store.old)) }
    ensures { Runs (crun (record { program = program_of program.now; links = links.now; asked = (X.on_heaps table.now).asked }) budget function.now arg.now (S.stored store.old)) budget (S.stored store.new) result }
{
    let resolved = Resolved::new(alloc, program, links.as_slice())?;
    run_resolved(alloc, table, &resolved, function, arg, store, budget)
}

/// The same without abstract functions.
pub fn run_c<S: Store>(
    alloc: Global,
    program: &CProgram,
    function: &Name,
    arg: &Items<Scalar>,
    store: &mut S,
    budget: u64,
) -> Result<Ran, RunFault>
    requires low { (S.stored store.old).top < 2 ^ 32 }
    requires few { budget ≤ 2 ^ 46 }
    ensures { Runs (crun (record { program = program_of program.now; links = []; asked = none_asked }) budget function.now arg.now (S.stored store.old)) budget (S.stored store.new) result }
{
    let links = Items::new(alloc);
    run_c_with(
        alloc, &NoExtern, &links, program, function, arg, store, budget,
    )
}
