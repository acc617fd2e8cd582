// The command `check`.
ghost use Rattle.std.specs.Prelude.{◌≡◌, List, ℕ, [], ◌∷◌};
ghost use Rattle.cg_driver_steps.specs.World.{world};
ghost use Rattle.cg_driver_steps.specs.Steps.{judged_first};
ghost use Rattle.cg_driver_steps.specs.Parts.{Concludes, Rules};
ghost use Rattle.cg_driver.specs.Commands.{Judges, source_rules, reads_source, checked_line};
ghost use Rattle.cg_driver.specs.Found.{Found, nothing};

use crate::judge::{SOURCE_LIMIT, judge};
use cg_base::Memory;
use cg_driver_lines::accepted;
use cg_driver_steps::{Report, Step, read_file};
use cg_outside::Files;
use std::alloc::Global;

/// What is said of a source.
fn check_source(alloc: Global, file: &str, source: &[u8]) -> Result<Report, Memory>
    ensures { (found : Found) → found.source ≡ source.now → Rules Judges checked_line (source_rules file.now) found result }
{
    match judge(alloc, file, source) {
        Err(_) => Err(Memory),
        Ok(Step::Ends(report)) => Ok(report),
        Ok(Step::Goes(checked)) => accepted(alloc, checked.kernel().funs.as_slice()),
    }
}

/// Reads a source and judges it, up to what is printed.
pub(crate) fn check_file<F: Files>(
    alloc: Global,
    file: &str,
    files: &mut F,
) -> Result<Report, Memory>
    ensures { Concludes Judges checked_line (reads_source file.now ∷ judged_first (source_rules file.now) []) nothing
        (world (F.held files.old) (F.failed_reads files.old) (F.failed_writes files.old))
        (world (F.held files.new) (F.failed_reads files.new) (F.failed_writes files.new)) result }
{
    match read_file(alloc, file, SOURCE_LIMIT, files) {
        Err(_) => Err(Memory),
        Ok(Step::Ends(report)) => Ok(report),
        Ok(Step::Goes(source)) => check_source(alloc, file, &source),
    }
}
