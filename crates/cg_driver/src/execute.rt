// Running an entry on what a heap file holds twice: by evaluation, and by the steps of the C of its instance.
ghost use Rattle.std.specs.Prelude.{◌≤◌, ◌^◌, ℕ, IfOk, map};
ghost use Rattle.cg_base.specs.Types.{Tau, type_of};
ghost use Rattle.cg_driver_laws.specs.Laws.{copies_in};
ghost use Rattle.cg_heaptext_contents.specs.Placings.{pair_of};
ghost use Rattle.cg_driver_text.specs.Filled.{filled, no_cells};
ghost use Rattle.cg_value.specs.Values.{Val, value_of};
ghost use Rattle.cg_driver.specs.Built.{IsListed};
ghost use Rattle.cg_driver.specs.Executed.{Gives, IsReady, Machines, Executes, the_argument};
ghost use Rattle.cg_driver.specs.Externs.{no_extern};
ghost use Rattle.cg_driver.specs.Judged.{functions_in, argument_of, CanBeBuilt, HoldsCores};
ghost use Rattle.cg_driver_steps.specs.Parts.{Reports};

use crate::build::emit_text;
use crate::machine::run_on;
use cg_base::{Memory, Ty};
use cg_driver_laws::{entries_are_sound, entries_run, none_are_linked};
use cg_driver_lines::{Machined, ran, step_limit};
use cg_driver_steps::Report;
use cg_eval::{EvalFault, eval, more_budget};
use cg_heap_laws::represented_fits;
use cg_heaptext::Start;
use cg_inst::Instances;
use cg_lower::function_name;
use cg_typing::Checked;
use cg_value::Value;
use std::alloc::Global;

/// Where an entry stands among the functions of its source, and its instance among the instances.
#[derive(Clone, Copy)]
pub(crate) struct Entry {
    pub at: u32,
    pub place: u32,
}

/// What the C of an entry gives on what a heap file holds, on which evaluation gives a value at this cost.
fn machine(
    alloc: Global,
    checked: &Checked,
    list: &Instances,
    chosen: Entry,
    start: Start,
    ty: &Ty,
    cost: u64,
) -> Result<Machined, Memory>
    requires ready { CanBeBuilt checked.now }
    requires gives { (argument : Tau) × (v : Val) × (w : Val) × (steps : ℕ) × (steps ≤ 2 ^ 40)
        × IsReady checked.now list.now chosen.at chosen.place argument (type_of ty.now) (the_argument start.cells start.arg v)
        × Gives no_extern checked.now chosen.at v steps w cost }
    ensures { (argument : Tau) (v w : Val) (steps : ℕ) → steps ≤ 2 ^ 40
        → IsReady checked.now list.now chosen.at chosen.place argument (type_of ty.now) (the_argument start.cells start.arg v)
        → Gives no_extern checked.now chosen.at v steps w cost
        → IfOk result (Machines no_extern (functions_in checked.now) (copies_in checked.now list.now) chosen.place (type_of ty.now) start.arg (filled (map pair_of start.cells) no_cells) w cost) }
{
    let function = function_name(alloc, chosen.place)?;
    let text = emit_text(alloc, checked, list)?;
    more_budget();
    entries_run();
    none_are_linked();
    run_on(alloc, &text, &function, start, ty, cost)
}

/// What is said where evaluation gives a value at this cost.
fn run_both(
    alloc: Global,
    checked: &Checked,
    list: &Instances,
    chosen: Entry,
    start: Start,
    ty: &Ty,
    value: &Value,
    cost: u64,
) -> Result<Report, Memory>
    requires ready { CanBeBuilt checked.now }
    requires cores { HoldsCores checked.now }
    requires gives { (argument : Tau) × (v : Val) × (steps : ℕ) × (steps ≤ 2 ^ 40)
        × IsReady checked.now list.now chosen.at chosen.place argument (type_of ty.now) (the_argument start.cells start.arg v)
        × Gives no_extern checked.now chosen.at v steps (value_of value.now) cost }
    ensures { (argument : Tau) (v : Val) (steps : ℕ) → steps ≤ 2 ^ 40
        → IsReady checked.now list.now chosen.at chosen.place argument (type_of ty.now) (the_argument start.cells start.arg v)
        → Gives no_extern checked.now chosen.at v steps (value_of value.now) cost
        → IfOk result (Reports (Executes no_extern (functions_in checked.now) (copies_in checked.now list.now) chosen.at (type_of ty.now) (the_argument start.cells start.arg v) steps)) }
{
    let run = machine(alloc, checked, list, chosen, start, ty, cost)?;
    ran(alloc, ty, value, cost, &run)
}

/// Runs an entry on what a heap file holds, by evaluation and then by the steps of its C, up to what is printed.
pub(crate) fn execute(
    alloc: Global,
    checked: &Checked,
    list: &Instances,
    chosen: Entry,
    start: Start,
    ty: &Ty,
    steps: u64,
) -> Result<Report, Memory>
    requires ready { CanBeBuilt checked.now }
    requires runs { (argument : Tau) × IsReady checked.now list.now chosen.at chosen.place argument (type_of ty.now) (argument_of start) }
    requires few { steps ≤ 2 ^ 40 }
    requires cores { HoldsCores checked.now }
    ensures { IfOk result (Reports (Executes no_extern (functions_in checked.now) (copies_in checked.now list.now) chosen.at (type_of ty.now) (argument_of start) steps)) }
{
    let Start {
        cells,
        arg,
        value,
        reads,
        writes,
    } = start;
    let rest = Start {
        cells,
        arg,
        value: Value::Gone,
        reads,
        writes,
    };
    entries_are_sound();
    represented_fits();
    match eval(alloc, checked, chosen.at, value, steps) {
        Ok((value, cost)) => run_both(alloc, checked, list, chosen, rest, ty, &value, cost),
        Err(EvalFault::StepLimit) => step_limit(alloc, steps),
        Err(EvalFault::Memory) => Err(Memory),
    }
}
