// The run of the C of an entry on what a heap file holds.
ghost use Rattle.std.specs.Prelude.{◌*◌, ◌+◌, ◌≤◌, ◌^◌, IfOk, IsTrue, map};
ghost use Rattle.cg_base.specs.Types.{type_of};
ghost use Rattle.cg_ctree.specs.Spells.{CSpells};
ghost use Rattle.cg_ctree.specs.Trees.{Program};
ghost use Rattle.cg_driver.specs.Executed.{GivesAlike, ReadsBack, Runs};
ghost use Rattle.cg_heap.specs.FirstOrder.{is_first_order};
ghost use Rattle.cg_heaptext_contents.specs.Placings.{pair_of};
ghost use Rattle.cg_driver_text.specs.Filled.{filled, no_cells, unlinked};
ghost use Rattle.cg_heaptext_def.specs.Placed.{CanBePlaced};
ghost use Rattle.cg_value.specs.Values.{Val};

use cg_base::{Memory, Name, Sigil, Ty};
use cg_cmachine::Ran;
use cg_driver_lines::Machined;
use cg_driver_text::{TextFault, text_run};
use cg_heap::{Store, reached, read_out};
use cg_heaptext::Start;
use std::alloc::Global;

/// What the result of a run represents in its store.
fn read_back<S: Store>(alloc: Global, store: &S, ty: &Ty, ran: Ran) -> Result<Machined, Memory>
    ensures { IfOk result (λ r. ReadsBack (S.stored store.now) (type_of ty.now) ran r) }
{
    let value = read_out(alloc, store, ty, &ran.value)?;
    let kept = reached(alloc, store, ty, &ran.value, Sigil::W)?;
    Ok(Machined {
        value,
        steps: ran.steps,
        made: ran.made,
        freed: ran.freed,
        kept,
    })
}

/// What a function of a C text gives on what a heap file holds, where its run ends with what represents a value.
pub(crate) fn run_on(
    alloc: Global,
    bytes: &[u8],
    function: &Name,
    start: Start,
    ty: &Ty,
    cost: u64,
) -> Result<Machined, Memory>
    requires few { cost ≤ 2 ^ 40 }
    requires placeable { CanBePlaced (map pair_of start.cells) }
    requires plain { IsTrue (is_first_order (type_of ty.now)) }
    requires ends { (program : Program) × (value : Val) × CSpells bytes.now program
        × GivesAlike (unlinked program) function.now start.arg (filled (map pair_of start.cells) no_cells) (type_of ty.now) value cost }
    ensures { (program : Program) (value : Val) → CSpells bytes.now program
        → GivesAlike (unlinked program) function.now start.arg (filled (map pair_of start.cells) no_cells) (type_of ty.now) value cost
        → IfOk result (Runs (unlinked program) function.now start.arg (filled (map pair_of start.cells) no_cells) (32 * cost + 32) (type_of ty.now) value) }
{
    match text_run(alloc, bytes, function, start, 32 * cost + 32) {
        Ok((ran, store)) => read_back(alloc, &store, ty, ran),
        Err(TextFault::Memory) => Err(Memory),
        Err(TextFault::Text(_)) => unreachable!(),
        Err(TextFault::Stuck(_)) => unreachable!(),
        Err(TextFault::Budget) => unreachable!(),
    }
}
