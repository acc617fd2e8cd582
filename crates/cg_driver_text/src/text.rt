// The run of a function of a C text, on a flat store.
ghost use Rattle.std.specs.Prelude.{◌≤◌, ◌^◌, map};
ghost use Rattle.cg_ctree.specs.Trees.{program_of};
ghost use Rattle.cg_driver_text.specs.Filled.{filled, no_cells, unlinked};
ghost use Rattle.cg_driver_text.specs.Texts.{ProgramRuns, TextRuns};
ghost use Rattle.cg_heaptext_contents.specs.Placings.{pair_of};
ghost use Rattle.cg_heaptext_def.specs.Placed.{CanBePlaced};

use cg_base::{Items, Name, Place};
use cg_cmachine::{Ran, RunFault, run_c};
use cg_cread::{CFault, read_c};
use cg_ctree::{CProgram, Why};
use cg_flat::FlatStore;
use cg_heaptext::{Start, fill};
use std::alloc::Global;

/// Why a function of a C text gives nothing: the bytes are no program, and at this place stands the first token that no program goes on
/// with, or the end where none ends; its run is stuck, and why; it needs more steps; or memory is wanting.
#[derive(Clone, Copy, Debug, PartialEq, Eq)]
pub enum TextFault {
    Text(Place),
    Stuck(Why),
    Budget,
    Memory,
}

/// What a function of a program gives on scalars and cells, with the store that it leaves.
fn program_run(
    alloc: Global,
    program: &CProgram,
    function: &Name,
    start: Start,
    budget: u64,
) -> Result<(Ran, FlatStore), TextFault>
    requires few { budget ≤ 2 ^ 46 }
    requires placeable { CanBePlaced (map pair_of start.cells) }
    ensures { ProgramRuns (unlinked (program_of program.now)) function.now start.arg (filled (map pair_of start.cells) no_cells) budget result }
{
    let Start {
        cells,
        arg,
        value,
        reads,
        writes,
    } = start;
    let rest = Start {
        cells,
        arg: Items::new(alloc),
        value,
        reads,
        writes,
    };
    let mut store = FlatStore::new(alloc);
    match fill(rest, &mut store) {
        Ok(()) => {}
        Err(_) => return Err(TextFault::Memory),
    }
    match run_c(alloc, program, function, &arg, &mut store, budget) {
        Ok(ran) => Ok((ran, store)),
        Err(RunFault::Stuck(why)) => Err(TextFault::Stuck(why)),
        Err(RunFault::Budget) => Err(TextFault::Budget),
        Err(RunFault::Memory) => Err(TextFault::Memory),
    }
}

/// Reads a C text and runs one of its functions on scalars and cells, in at most `budget` steps (docs/LANGUAGE.md, "The C subset" and "Flat
/// stores"): what it gives, and the store that it leaves. `Text` comes first, exactly where the bytes spell no program; otherwise the answer is
/// that of the program that they spell. A call that refuses has dropped the store.
pub fn text_run(
    alloc: Global,
    bytes: &[u8],
    function: &Name,
    start: Start,
    budget: u64,
) -> Result<(Ran, FlatStore), TextFault>
    requires few { budget ≤ 2 ^ 46 }
    requires placeable { CanBePlaced (map pair_of start.cells) }
    ensures { TextRuns bytes.now function.now start.arg (filled (map pair_of start.cells) no_cells) budget result }
{
    match read_c(alloc, bytes) {
        Ok(program) => program_run(alloc, &program, function, start, budget),
        Err(CFault::Text(place)) => Err(TextFault::Text(place)),
        Err(CFault::Memory) => Err(TextFault::Memory),
    }
}
