// The command `gen`.
ghost use Rattle.std.specs.Prelude.{◌≡◌, ◌≤◌, ◌++◌, ◌∷◌, IfOk, length};
ghost use Rattle.cg_driver_steps.specs.Parts.{Rules};
ghost use Rattle.cg_driver.specs.Built.{CanRun, IsListed, IsWritten, KeepsCopies};
ghost use Rattle.cg_driver.specs.Commands.{IsMade, Judges, certifiable, entry_rules, instanced, made, made_name, made_rules, run_rules};
ghost use Rattle.cg_driver.specs.Entered.{argument_type, result_type};
ghost use Rattle.cg_driver.specs.Externs.{no_extern};
ghost use Rattle.cg_driver.specs.Found.{Found, functions as functions_found};
ghost use Rattle.cg_driver.specs.Judged.{CanBeBuilt, HaveEntryTypes, HoldsCores, IsAllowed, functions_in};
ghost use Rattle.cg_driver.specs.Made.{Joins};
ghost use Rattle.cg_driver_words.specs.Words.{default_steps};
ghost use Rattle.cg_gen.specs.Generated.{entry as made_entry, heap as made_heap};

use crate::build::{Built, listed, make};
use crate::entry::{entry_of, entry_types, instance_place};
use crate::execute::Entry;
use crate::judge::judge;
use crate::run::{Asked, run_bytes};
use cg_base::Memory;
use cg_driver_entry_laws::entries_have_types;
use cg_driver_lines::built;
use cg_driver_steps::{Report, Status, Step};
use cg_gen::{entry_name, generate, heap_text};
use cg_inst::Instances;
use cg_parser_laws::law::spelled_is_shaped;
use cg_typing::Checked;
use std::alloc::Global;

/// The name that a refusal of a generated source and its heap would tell.
const MADE: &str = "gen";

/// The steps of a run where none are asked for.
const STEPS: u64 = 10_000_000;

/// A report behind a line: a refusal stands alone.
fn joined(line: Report, report: Report) -> Result<Report, Memory>
    ensures { IfOk result (Joins line.text.items report.status report.text.items) }
{
    match report.status {
        Status::Done => {
            let Report { mut text, .. } = line;
            text.extend_from_slice(&report.text)?;
            Ok(Report {
                status: Status::Done,
                text,
            })
        }
        _ => Ok(report),
    }
}

/// Runs the entry of a generated source behind the line of what is written.
fn run_made(
    alloc: Global,
    checked: &Checked,
    list: &Instances,
    chosen: Entry,
    written: &Built,
) -> Result<Report, Memory>
    requires ready { CanBeBuilt checked.now }
    requires cores { HoldsCores checked.now }
    requires runs { CanRun checked.now list.now chosen.at chosen.place (argument_type (functions_in checked.now) chosen.at) (result_type (functions_in checked.now) chosen.at) }
    ensures { (found : Found) → IsWritten checked.now list.now written.now → KeepsCopies checked.now list.now found → found.at ≡ chosen.at → found.heap ≡ made_heap
        → Rules Judges (IsMade no_extern) (run_rules no_extern made_name default_steps) found result }
{
    let functions = checked.kernel().funs.as_slice();
    let Some((takes, gives)) = entry_types(functions, chosen.at) else {
        unreachable!()
    };
    let line = built(alloc, functions, written.instances)?;
    let asked = Asked {
        file: MADE,
        entry: MADE,
        heap: MADE,
        steps: STEPS,
    };
    let report = run_bytes(
        alloc,
        &asked,
        checked,
        list,
        chosen,
        takes,
        gives,
        heap_text(),
    )?;
    joined(line, report)
}

/// Makes what `build` would write of a generated source, and runs its entry.
fn write_made(
    alloc: Global,
    checked: &Checked,
    list: &Instances,
    chosen: Entry,
) -> Result<Report, Memory>
    requires ready { CanBeBuilt checked.now }
    requires cores { HoldsCores checked.now }
    requires runs { CanRun checked.now list.now chosen.at chosen.place (argument_type (functions_in checked.now) chosen.at) (result_type (functions_in checked.now) chosen.at) }
    ensures { (found : Found) → KeepsCopies checked.now list.now found → found.at ≡ chosen.at → found.heap ≡ made_heap
        → Rules Judges (IsMade no_extern) (certifiable ∷ run_rules no_extern made_name default_steps) found result }
{
    match make(alloc, checked, list) {
        Err(_) => Err(Memory),
        Ok(Step::Ends(report)) => Ok(report),
        Ok(Step::Goes(written)) => run_made(alloc, checked, list, chosen, &written),
    }
}

/// Lists the instances of a generated source, and builds and runs it.
fn list_made(alloc: Global, checked: &Checked, at: u32) -> Result<Report, Memory>
    requires ready { CanBeBuilt checked.now }
    requires cores { HoldsCores checked.now }
    requires there { IsAllowed (functions_in checked.now) at }
    requires typed { HaveEntryTypes (functions_in checked.now) }
    ensures { (found : Found) → functions_found found ≡ functions_in checked.now → found.at ≡ at → found.heap ≡ made_heap
        → Rules Judges (IsMade no_extern) (instanced ∷ certifiable ∷ run_rules no_extern made_name default_steps) found result }
{
    match listed(alloc, checked) {
        Err(_) => Err(Memory),
        Ok(Step::Ends(report)) => Ok(report),
        Ok(Step::Goes(list)) => {
            let place = instance_place(alloc, checked, &list, at);
            write_made(alloc, checked, &list, Entry { at, place })
        }
    }
}

/// Finds the entry of a generated source that is accepted, and builds and runs it.
fn enter_made(alloc: Global, number: u32, checked: &Checked) -> Result<Report, Memory>
    requires short { length (functions_in checked.now) ≤ 4096 }
    requires ready { CanBeBuilt checked.now }
    requires cores { HoldsCores checked.now }
    requires typed { HaveEntryTypes (functions_in checked.now) }
    ensures { (found : Found) → functions_found found ≡ functions_in checked.now → found.heap ≡ made_heap
        → Rules Judges (IsMade no_extern) (entry_rules made_name (made_entry number) ++ instanced ∷ certifiable ∷ run_rules no_extern made_name default_steps) found result }
{
    let entry = entry_name(alloc, number)?;
    match entry_of(alloc, MADE, &entry, checked) {
        Err(_) => Err(Memory),
        Ok(Step::Ends(report)) => Ok(report),
        Ok(Step::Goes(at)) => list_made(alloc, checked, at),
    }
}

/// Makes a source of so many functions and its heap, and does the work of `check`, `build` and `run` on them, up to what is printed.
pub(crate) fn make_and_run(alloc: Global, number: u32) -> Result<Report, Memory>
    requires most { number ≤ 4096 }
    ensures { Rules Judges (IsMade no_extern) (made_rules no_extern number) (made number) result }
{
    let source = generate(alloc, number)?;
    match judge(alloc, MADE, &source) {
        Err(_) => Err(Memory),
        Ok(Step::Ends(report)) => Ok(report),
        Ok(Step::Goes(checked)) => {
            entries_have_types();
            spelled_is_shaped();
            enter_made(alloc, number, &checked)
        }
    }
}
