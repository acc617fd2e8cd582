// The command `run`.
ghost use Rattle.std.specs.Prelude.{◌≡◌, ◌≤◌, ◌^◌, ◌++◌, [], ◌∷◌, IfOk, length};
ghost use Rattle.cg_base.specs.Types.{type_of};
ghost use Rattle.cg_typing.specs.Parts.{nodes, type_size};
ghost use Rattle.cg_driver_steps.specs.World.{world};
ghost use Rattle.cg_driver_steps.specs.Steps.{judged_first};
ghost use Rattle.cg_driver_steps.specs.Parts.{Concludes, Rules, Steps};
ghost use Rattle.cg_driver.specs.Built.{CanRun, KeepsCopies};
ghost use Rattle.cg_driver.specs.Entered.{argument_type, result_type};
ghost use Rattle.cg_driver.specs.Commands.{Judges, entry_rules, instanced, run_rules, reads_source, heap_steps, run_steps, ran_lines};
ghost use Rattle.cg_driver.specs.Externs.{no_extern};
ghost use Rattle.cg_driver.specs.Found.{Found, nothing, functions as functions_found};
ghost use Rattle.cg_driver.specs.Judged.{functions_in, CanBeBuilt, HaveEntryTypes, HoldsCores, IsAllowed, IsStartOf, RefusesBytes};

use crate::build::listed;
use crate::entry::{entry_of, entry_types, instance_place};
use crate::execute::{Entry, execute};
use crate::judge::{SOURCE_LIMIT, judge};
use cg_base::{Memory, Ty};
use cg_driver_entry_laws::entries_have_types;
use cg_driver_lines::{beyond, heap_refused};
use cg_driver_steps::{Report, Step, read_file};
use cg_heaptext::{Start, read_heap};
use cg_inst::Instances;
use cg_outside::Files;
use cg_parser_laws::law::spelled_is_shaped;
use cg_typing::Checked;
use std::alloc::Global;

/// No heap file has more bytes.
const HEAP_LIMIT: usize = 16_777_216;

/// What is to be run: the names of the source, of its entry and of the heap file, and the steps at most.
#[derive(Clone, Copy)]
pub(crate) struct Asked<'a> {
    pub file: &'a str,
    pub entry: &'a str,
    pub heap: &'a str,
    pub steps: u64,
}

/// What a heap file holds at the type of the entry's argument.
fn start_of(alloc: Global, heap: &str, bytes: &[u8], ty: &Ty) -> Result<Step<Start>, Memory>
    requires small { nodes (type_of ty.now) ≤ type_size }
    ensures { IfOk result (Steps (IsStartOf bytes.now (type_of ty.now)) (RefusesBytes heap.now bytes.now (type_of ty.now))) }
{
    if bytes.len() > HEAP_LIMIT {
        return Ok(Step::Ends(beyond(alloc, "heap")?));
    }
    match read_heap(alloc, bytes, ty) {
        Ok(start) => Ok(Step::Goes(start)),
        Err(fault) => Ok(Step::Ends(heap_refused(alloc, heap, fault)?)),
    }
}

/// What is said of a run that is ready, once its heap file is read, with what its entry takes and gives.
pub(crate) fn run_bytes(
    alloc: Global,
    asked: &Asked<'_>,
    checked: &Checked,
    list: &Instances,
    chosen: Entry,
    takes: &Ty,
    gives: &Ty,
    bytes: &[u8],
) -> Result<Report, Memory>
    requires ready { CanBeBuilt checked.now }
    requires runs { CanRun checked.now list.now chosen.at chosen.place (type_of takes.now) (type_of gives.now) }
    requires few { asked.now.steps ≤ 2 ^ 40 }
    requires cores { HoldsCores checked.now }
    ensures { (found : Found) → KeepsCopies checked.now list.now found → found.at ≡ chosen.at → found.heap ≡ bytes.now
        → Rules Judges (ran_lines no_extern) (run_rules no_extern asked.now.heap.now asked.now.steps) found result }
{
    match start_of(alloc, asked.heap, bytes, takes) {
        Err(_) => Err(Memory),
        Ok(Step::Ends(report)) => Ok(report),
        Ok(Step::Goes(start)) => {
            execute(alloc, checked, list, chosen, start, gives, asked.steps)
        }
    }
}

/// Reads the heap file of a run that is ready, and runs it.
fn run_ready<F: Files>(
    alloc: Global,
    asked: &Asked<'_>,
    checked: &Checked,
    list: &Instances,
    chosen: Entry,
    files: &mut F,
) -> Result<Report, Memory>
    requires ready { CanBeBuilt checked.now }
    requires runs { CanRun checked.now list.now chosen.at chosen.place (argument_type (functions_in checked.now) chosen.at) (result_type (functions_in checked.now) chosen.at) }
    requires few { asked.now.steps ≤ 2 ^ 40 }
    requires cores { HoldsCores checked.now }
    ensures { (found : Found) → KeepsCopies checked.now list.now found → found.at ≡ chosen.at
        → Concludes Judges (ran_lines no_extern) (heap_steps no_extern asked.now.heap.now asked.now.steps) found
        (world (F.held files.old) (F.failed_reads files.old) (F.failed_writes files.old))
        (world (F.held files.new) (F.failed_reads files.new) (F.failed_writes files.new)) result }
{
    let Some((takes, gives)) = entry_types(checked.kernel().funs.as_slice(), chosen.at) else {
        unreachable!()
    };
    match read_file(alloc, asked.heap, HEAP_LIMIT, files) {
        Err(_) => Err(Memory),
        Ok(Step::Ends(report)) => Ok(report),
        Ok(Step::Goes(bytes)) => {
            run_bytes(alloc, asked, checked, list, chosen, takes, gives, &bytes)
        }
    }
}

/// Lists the instances of a source whose entry was found, and runs it.
fn run_listed<F: Files>(
    alloc: Global,
    asked: &Asked<'_>,
    checked: &Checked,
    at: u32,
    files: &mut F,
) -> Result<Report, Memory>
    requires ready { CanBeBuilt checked.now }
    requires there { IsAllowed (functions_in checked.now) at }
    requires typed { HaveEntryTypes (functions_in checked.now) }
    requires few { asked.now.steps ≤ 2 ^ 40 }
    requires cores { HoldsCores checked.now }
    ensures { (found : Found) → functions_found found ≡ functions_in checked.now → found.at ≡ at
        → Concludes Judges (ran_lines no_extern) (judged_first (instanced ∷ []) (heap_steps no_extern asked.now.heap.now asked.now.steps)) found
        (world (F.held files.old) (F.failed_reads files.old) (F.failed_writes files.old))
        (world (F.held files.new) (F.failed_reads files.new) (F.failed_writes files.new)) result }
{
    match listed(alloc, checked) {
        Err(_) => Err(Memory),
        Ok(Step::Ends(report)) => Ok(report),
        Ok(Step::Goes(list)) => {
            let place = instance_place(alloc, checked, &list, at);
            run_ready(alloc, asked, checked, &list, Entry { at, place }, files)
        }
    }
}

/// Finds the entry of a source that is accepted, and runs it.
fn run_checked<F: Files>(
    alloc: Global,
    asked: &Asked<'_>,
    checked: &Checked,
    files: &mut F,
) -> Result<Report, Memory>
    requires few { asked.now.steps ≤ 2 ^ 40 }
    requires short { length (functions_in checked.now) ≤ 4096 }
    requires cores { HoldsCores checked.now }
    requires ready { CanBeBuilt checked.now }
    requires typed { HaveEntryTypes (functions_in checked.now) }
    ensures { (found : Found) → functions_found found ≡ functions_in checked.now
        → Concludes Judges (ran_lines no_extern) (judged_first (entry_rules asked.now.file.now asked.now.entry.now ++ instanced ∷ []) (heap_steps no_extern asked.now.heap.now asked.now.steps)) found
        (world (F.held files.old) (F.failed_reads files.old) (F.failed_writes files.old))
        (world (F.held files.new) (F.failed_reads files.new) (F.failed_writes files.new)) result }
{
    match entry_of(alloc, asked.file, asked.entry, checked) {
        Err(_) => Err(Memory),
        Ok(Step::Ends(report)) => Ok(report),
        Ok(Step::Goes(at)) => run_listed(alloc, asked, checked, at, files),
    }
}

/// Judges a source that was read, and runs its entry.
fn run_source<F: Files>(
    alloc: Global,
    asked: &Asked<'_>,
    source: &[u8],
    files: &mut F,
) -> Result<Report, Memory>
    requires few { asked.now.steps ≤ 2 ^ 40 }
    ensures { (found : Found) → found.source ≡ source.now
        → Concludes Judges (ran_lines no_extern) (run_steps no_extern asked.now.file.now asked.now.entry.now asked.now.heap.now asked.now.steps) found
        (world (F.held files.old) (F.failed_reads files.old) (F.failed_writes files.old))
        (world (F.held files.new) (F.failed_reads files.new) (F.failed_writes files.new)) result }
{
    match judge(alloc, asked.file, source) {
        Err(_) => Err(Memory),
        Ok(Step::Ends(report)) => Ok(report),
        Ok(Step::Goes(checked)) => {
            entries_have_types();
            spelled_is_shaped();
            run_checked(alloc, asked, &checked, files)
        }
    }
}

/// Reads a source, judges it, and runs its entry on the heap file, up to what is printed.
pub(crate) fn run_file<F: Files>(
    alloc: Global,
    asked: &Asked<'_>,
    files: &mut F,
) -> Result<Report, Memory>
    requires few { asked.now.steps ≤ 2 ^ 40 }
    ensures { Concludes Judges (ran_lines no_extern) (reads_source asked.now.file.now ∷ run_steps no_extern asked.now.file.now asked.now.entry.now asked.now.heap.now asked.now.steps) nothing
        (world (F.held files.old) (F.failed_reads files.old) (F.failed_writes files.old))
        (world (F.held files.new) (F.failed_reads files.new) (F.failed_writes files.new)) result }
{
    match read_file(alloc, asked.file, SOURCE_LIMIT, files) {
        Err(_) => Err(Memory),
        Ok(Step::Ends(report)) => Ok(report),
        Ok(Step::Goes(source)) => run_source(alloc, asked, &source, files),
    }
}
