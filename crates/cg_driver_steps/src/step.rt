// The steps that touch the outside.
ghost use Rattle.std.specs.Prelude.{◌≡◌, ◌<◌, ◌^◌, IfOk};
ghost use Rattle.cg_driver_steps.specs.World.{world};
ghost use Rattle.cg_driver_steps.specs.Steps.{unread_line, unwritten_line};
ghost use Rattle.cg_driver_steps.specs.Parts.{IsLine, HasRead, HasWritten, HasPrinted};

use crate::{Report, Status, Step};
use cg_base::Memory;
use cg_outside::{FileFault, Files, Sink};
use std::alloc::Global;

/// The line of a file that can't be read.
fn unread(alloc: Global, name: &str) -> Result<Report, Memory>
    ensures { IfOk result (λ r. IsLine Status.ReadFault (unread_line name.now) r) }
{
    Ok(Report::of_text(
        Status::ReadFault,
        format!(in alloc; "{name}: cannot be read\n")?,
    ))
}

/// The line of a file that can't be written.
fn unwritten(alloc: Global, name: &str) -> Result<Report, Memory>
    ensures { IfOk result (λ r. IsLine Status.WriteFault (unwritten_line name.now) r) }
{
    Ok(Report::of_text(
        Status::WriteFault,
        format!(in alloc; "{name}: cannot be written\n")?,
    ))
}

/// Reads a file, up to one byte past the limit, by one call. A read that fails ends the command. docs/LANGUAGE.md,
/// "Commands".
pub fn read_file<F: Files>(
    alloc: Global,
    name: &str,
    limit: usize,
    files: &mut F,
) -> Result<Step<Vec<u8>>, Memory>
    requires { limit < 2 ^ 32 }
    ensures { HasRead name.now limit
        (world (F.held files.old) (F.failed_reads files.old) (F.failed_writes files.old))
        (world (F.held files.new) (F.failed_reads files.new) (F.failed_writes files.new)) result }
{
    match files.read(alloc, name, limit) {
        Ok(bytes) => Ok(Step::Goes(bytes)),
        Err(FileFault::Failed) => Ok(Step::Ends(unread(alloc, name)?)),
        Err(FileFault::Memory) => Err(Memory),
    }
}

/// Writes a file, by one call. A write that fails ends the command. docs/LANGUAGE.md, "Commands".
pub fn write_file<F: Files>(
    alloc: Global,
    name: &str,
    bytes: &[u8],
    files: &mut F,
) -> Result<Step<()>, Memory>
    ensures { HasWritten name.now bytes.now
        (world (F.held files.old) (F.failed_reads files.old) (F.failed_writes files.old))
        (world (F.held files.new) (F.failed_reads files.new) (F.failed_writes files.new)) result }
{
    match files.write(name, bytes) {
        Ok(()) => Ok(Step::Goes(())),
        Err(FileFault::Failed) => Ok(Step::Ends(unwritten(alloc, name)?)),
        Err(FileFault::Memory) => Err(Memory),
    }
}

/// Prints a report, by one write, and gives the status at the end: the report's, or that of the write where it fails.
/// docs/LANGUAGE.md, "Statuses".
pub fn print_report<O: Sink>(out: &mut O, report: Report) -> Status
    ensures { HasPrinted report.status report.text.items (O.taken out.old) (O.taken out.new) (O.faults out.old) (O.faults out.new) result }
{
    match out.write(report.text.as_slice()) {
        Ok(()) => report.status,
        Err(FileFault::Failed) => Status::WriteFault,
        Err(FileFault::Memory) => Status::Memory,
    }
}
