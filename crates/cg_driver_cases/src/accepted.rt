// Sources that are accepted.
ghost use Rattle.std.specs.Prelude.{IfSome};
ghost use Rattle.cg_core.specs.Kernels.{kernel_of};
ghost use Rattle.cg_core_def.specs.Lawful.{IsLawfulKernel};
ghost use Rattle.cg_resolve_def.specs.Shaped.{IsShaped};
ghost use Rattle.cg_surface.specs.Programs.{program_of};

use cg_check::check;
use cg_core::Kernel;
use cg_parser::parse;
use cg_resolve::resolve;
use cg_surface::Program;
use cg_typing::Checked;
use std::alloc::Global;

// The kernel of a program, if its names are in order.
fn resolved(alloc: Global, program: &Program) -> Option<Kernel>
    requires { IsShaped (program_of program.now) }
    ensures { IfSome result (λ k. IsLawfulKernel (kernel_of k)) }
{
    match resolve(alloc, program) {
        Ok(kernel) => Some(kernel),
        Err(_) => None,
    }
}

// The kernel of a source, if it is spelled and its names are in order.
fn kernel_in(alloc: Global, source: &[u8]) -> Option<Kernel>
    ensures { IfSome result (λ k. IsLawfulKernel (kernel_of k)) }
{
    match parse(alloc, source) {
        Ok(program) => resolved(alloc, &program),
        Err(_) => None,
    }
}

/// The source that is accepted, if it is.
pub fn checked(alloc: Global, source: &[u8]) -> Option<Checked> {
    let kernel = kernel_in(alloc, source)?;
    check(alloc, kernel).ok()
}
