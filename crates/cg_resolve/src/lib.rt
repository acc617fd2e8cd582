//! Stage: names. A surface program to its kernel: positions for names, synonyms expanded, patterns and matches as terms.
//! Role: public.
//! Promises: `resolve` answers the kernel, the first fault of names or the first limit, exactly; law: `one_answer`.
//! May cite: anything of its stage and of those below; no crate above.
//! docs/LANGUAGE.md, "Names", "Synonyms" and "Desugaring", says what that is.
#![tactic(auto)]

ghost use Rattle.std.specs.Prelude.{IfOk};
ghost use Rattle.cg_core.specs.Kernels.{kernel_of};
ghost use Rattle.cg_core_def.specs.Lawful.{IsLawfulKernel};
ghost use Rattle.cg_surface.specs.Programs.{program_of};
ghost use Rattle.cg_resolve_def.specs.Shaped.{IsShaped};
ghost use Rattle.cg_resolve.specs.Answers.{Answers};

mod copies;
mod counts;
mod fault;
mod functions;
mod law;
mod order;

use cg_core::Kernel;
use cg_resolve_declared::Declarations;
use cg_resolve_names::check_names;
use cg_resolve_takes::check_takes;
use cg_resolve_written::synonyms;
use cg_surface::Program;
use counts::check_counts;
pub use fault::Fault;
use functions::kernel;
pub use law::one_answer;
use order::mention_order;
use std::alloc::Global;

/// The kernel of a program (docs/LANGUAGE.md, "Desugaring"), or its first fault of names: N1, N2 or N4, the first in reading order;
/// else N3; else the first N5; or the first of the limits `functions`, `fields`, `type` and `depth` that it passes. Want of memory is
/// answered too where there are more than 2^32 items, or variables in one scope.
pub fn resolve(alloc: Global, program: &Program) -> Result<Kernel, Fault>
    ensures answers { Answers (program_of program.now) result }
    ensures lawful { IsShaped (program_of program.now) → IfOk result (λ k. IsLawfulKernel (kernel_of k)) }
{
    let declared = Declarations::new(alloc, program.items.as_slice())?;
    check_names(alloc, &declared)?;
    let order = mention_order(alloc, &declared)?;
    check_takes(alloc, &declared, order.as_slice())?;
    check_counts(declared.items)?;
    let synonyms = synonyms(alloc, declared.items, order.as_slice())?;
    Ok(kernel(alloc, &declared, &synonyms)?)
}
