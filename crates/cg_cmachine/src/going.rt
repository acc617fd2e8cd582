// A run to its end.
#![tactic(auto, using(cg_cmachine_running::proofs::Forms::statement_steps))]

ghost use Rattle.std.specs.Prelude.{◌≤◌};
ghost use Rattle.cg_cmachine_running.specs.declared.machine.Next.TheVariants.{Goes};
ghost use Rattle.cg_cmachine_running.specs.Machine.{Ends, IsLow, IsState, said};
ghost use Rattle.cg_cmachine_def.specs.Outcomes.{IsCalm};
ghost use Rattle.cg_cmachine_values.specs.Values.{value_of};

use crate::abstracts::ask;
use cg_cmachine_running::{Machine, Next, Run, back, step};
use cg_cmachine_values::{CValue, RunFault};
use cg_heap::{ExternHeap, Store};
use std::alloc::Global;

/// Runs to the end: what is returned.
pub(crate) fn go_on<'i, 'a, X: ExternHeap, S: Store>(
    alloc: Global,
    table: &X,
    run: &Run<'i, 'a>,
    m: &mut Machine<'a>,
    store: &mut S,
) -> Result<CValue<'a>, RunFault>
    requires state { IsState run.now.program.now m.old }
    requires low { IsLow 1 m.old (S.stored store.old) }
    requires small { m.old.left ≤ run.now.budget }
    requires calm { IsCalm (said run.now.program.now ((X.on_heaps table.now).asked) run.now.budget m.old (S.stored store.old) Goes) }
    ensures ends { let asked = (X.on_heaps table.now).asked in
        Ends value_of (said run.now.program.now asked run.now.budget m.old (S.stored store.old) Goes) (S.stored store.new) m.new.changes m.new.left result }
    ensures within { m.new.left ≤ m.old.left }
{
    let mut next = Next::Goes;
    loop {
        match next {
            Next::Goes => {
                next = step(alloc, run, m, store)?;
            }
            Next::Ask(function, name, values) => {
                next = ask(alloc, table, run, m, store, function, name, values)?;
            }
            Next::Back(value) => match m.stack.pop() {
                None => return Ok(value),
                Some(kont) => {
                    next = back(run, m, store, kont, value)?;
                }
            },
        }
    }
}
