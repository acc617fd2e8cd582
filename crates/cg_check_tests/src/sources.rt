// Sources, read up to their kernels, and checked.
ghost use Rattle.std.specs.Prelude.{IfOk};
ghost use Rattle.cg_core.specs.Kernels.{kernel_of};
ghost use Rattle.cg_core_def.specs.Lawful.{IsLawfulKernel};
ghost use Rattle.cg_resolve_def.specs.Shaped.{IsShaped};
ghost use Rattle.cg_surface.specs.Programs.{program_of};

use cg_check::check;
use cg_core::Kernel;
use cg_parser::parse;
use cg_resolve::resolve;
use cg_surface::Program;
use cg_typing::Checked;
use std::alloc::Global;

/// Why a source has no kernel, or none that is accepted. A fault, a limit and want of memory are told alike.
#[derive(Clone, Copy, Debug)]
pub enum Refused {
    NotSpelled,
    NotNamed,
    NotAccepted,
}

/// The kernel of a program.
fn resolved(alloc: Global, program: &Program) -> Result<Kernel, Refused>
    requires { IsShaped (program_of program.now) }
    ensures { IfOk result (λ k. IsLawfulKernel (kernel_of k)) }
{
    match resolve(alloc, program) {
        Ok(kernel) => Ok(kernel),
        Err(_) => Err(Refused::NotNamed),
    }
}

/// The kernel of a source; an error where it isn't spelled, or a name is at fault.
pub fn kernel_in(alloc: Global, source: &str) -> Result<Kernel, Refused>
    ensures { IfOk result (λ k. IsLawfulKernel (kernel_of k)) }
{
    match parse(alloc, source.as_bytes()) {
        Ok(program) => resolved(alloc, &program),
        Err(_) => Err(Refused::NotSpelled),
    }
}

/// A source, read, resolved and checked; an error where it is refused.
pub fn checked_source(alloc: Global, source: &str) -> Result<Checked, Refused> {
    let kernel = kernel_in(alloc, source)?;
    match check(alloc, kernel) {
        Ok(checked) => Ok(checked),
        Err(_) => Err(Refused::NotAccepted),
    }
}
