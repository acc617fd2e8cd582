// Judging a source.
ghost use Rattle.std.specs.Prelude.{ℕ, ◌≤◌, List, length, Err, IfOk};
ghost use Rattle.cg_core.specs.Kernels.{kernel_of};
ghost use Rattle.cg_core_def.specs.Lawful.{IsLawfulKernel};
ghost use Rattle.cg_resolve_def.specs.Shaped.{IsShaped};
ghost use Rattle.cg_surface.specs.Programs.{Entry, program_of};
ghost use Rattle.cg_resolve.specs.Answers.{Answers as Resolves};
ghost use Rattle.cg_parser.specs.Answers.{Answers as Parses};
ghost use Rattle.cg_driver_steps.specs.Parts.{Reports, Steps};
ghost use Rattle.cg_driver.specs.Found.{source_limit};
ghost use Rattle.cg_driver.specs.Judged.{IsCheckedKernel, IsCheckedSource, IsKernelOf, IsReadSource, RefusesKernel, RefusesProgram, RefusesReading, RefusesSource};

use cg_base::Memory;
use cg_check::{Refusal, check};
use cg_core::Kernel;
use cg_driver_lines::{beyond, broken, fault, limit_name};
use cg_driver_steps::{Report, Step};
use cg_parser::{ParseFault, parse};
use cg_resolve::{Fault, resolve};
use cg_surface::Program;
use cg_typing::Checked;
use std::alloc::Global;

/// No source has more bytes.
pub(crate) const SOURCE_LIMIT: usize = 1_048_576;

/// Judges a kernel by the typing rules and the limit on types.
fn judge_kernel(alloc: Global, file: &str, kernel: Kernel) -> Result<Step<Checked>, Memory>
    requires { IsLawfulKernel (kernel_of kernel) }
    ensures { IfOk result (Steps (IsCheckedKernel (kernel_of kernel)) (RefusesKernel file.now (kernel_of kernel))) }
{
    match check(alloc, kernel) {
        Ok(checked) => Ok(Step::Goes(checked)),
        Err(Refusal::Rule(rule, place)) => Ok(Step::Ends(broken(alloc, file, place, rule)?)),
        Err(Refusal::Limit(limit)) => Ok(Step::Ends(beyond(alloc, limit_name(limit))?)),
        Err(Refusal::Memory) => Err(Memory),
    }
}

/// What is said where a program has no kernel within the limits.
fn not_resolved(alloc: Global, file: &str, found: Fault) -> Result<Report, Memory>
    ensures { (p : List Entry) → Resolves p (Err found) → IfOk result (Reports (RefusesProgram file.now p)) }
{
    match found {
        Fault::N1(place) => fault(alloc, file, place, "N1 unknown name"),
        Fault::N2(place) => fault(alloc, file, place, "N2 name defined twice"),
        Fault::N3(place) => fault(alloc, file, place, "N3 circle of mentions"),
        Fault::N4(place) => fault(alloc, file, place, "N4 wrong number of type arguments"),
        Fault::N5(place) => fault(alloc, file, place, "N5 take of no field"),
        Fault::Limit(limit) => beyond(alloc, limit_name(limit)),
        Fault::Memory => Err(Memory),
    }
}

/// Judges a program's names and what is written in it: its kernel.
fn read_program(alloc: Global, file: &str, program: &Program) -> Result<Step<Kernel>, Memory>
    requires { IsShaped (program_of program.now) }
    ensures { IfOk result (Steps (IsKernelOf (program_of program.now)) (RefusesProgram file.now (program_of program.now))) }
{
    match resolve(alloc, program) {
        Ok(kernel) => Ok(Step::Goes(kernel)),
        Err(found) => Ok(Step::Ends(not_resolved(alloc, file, found)?)),
    }
}

/// What is said where parsing finds no program within the depth.
fn not_read(alloc: Global, file: &str, found: ParseFault) -> Result<Report, Memory>
    ensures { (source : List ℕ) → length source ≤ source_limit → Parses source (Err found) → IfOk result (Reports (RefusesReading file.now source)) }
{
    match found {
        ParseFault::S1(place) => fault(alloc, file, place, "S1 unknown byte"),
        ParseFault::S2(place) => fault(alloc, file, place, "S2 comment not closed"),
        ParseFault::S3(place) => fault(alloc, file, place, "S3 unexpected token"),
        ParseFault::S4(place) => fault(alloc, file, place, "S4 bar in no open match"),
        ParseFault::Nesting => beyond(alloc, "nesting"),
        ParseFault::Memory => Err(Memory),
    }
}

/// Reads a source up to its kernel: its size, the program that it spells, its depth, and then that program's names and what is written
/// in it.
pub(crate) fn read_source(alloc: Global, file: &str, source: &[u8]) -> Result<Step<Kernel>, Memory>
    ensures { IfOk result (Steps (IsReadSource source.now) (RefusesReading file.now source.now)) }
{
    if source.len() > SOURCE_LIMIT {
        return Ok(Step::Ends(beyond(alloc, "source")?));
    }
    match parse(alloc, source) {
        Ok(program) => read_program(alloc, file, &program),
        Err(fault) => Ok(Step::Ends(not_read(alloc, file, fault)?)),
    }
}

/// Judges a source: reads its kernel, and judges that by the typing rules.
pub(crate) fn judge(alloc: Global, file: &str, source: &[u8]) -> Result<Step<Checked>, Memory>
    ensures { IfOk result (Steps (IsCheckedSource source.now) (RefusesSource file.now source.now)) }
{
    match read_source(alloc, file, source) {
        Err(_) => Err(Memory),
        Ok(Step::Ends(report)) => Ok(Step::Ends(report)),
        Ok(Step::Goes(kernel)) => judge_kernel(alloc, file, kernel),
    }
}
