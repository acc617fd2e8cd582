// What a checked source holds.
ghost use Rattle.std.specs.Prelude.{◌≡◌, map};
ghost use Rattle.std.specs.Option.{option_copied};
ghost use Rattle.cg_core.specs.Kernels.{kernel_of};
ghost use Rattle.cg_core_def.specs.Lawful.{IsLawfulKernel};
ghost use Rattle.cg_typing.specs.Kept.{AreKept, maybe_core, maybe_tree};
ghost use Rattle.cg_typing.specs.Once.{lawful_once};

use cg_base::Items;
use cg_core::{Deriv, Kernel, Term, Typed};

/// A lawful kernel that is accepted, with the core and the derivation of each of its bodies (docs/LANGUAGE.md, "Typing").
#[derive(Drop)]
pub struct Checked {
    kernel: Kernel,
    cores: Items<Option<Term<Typed>>>,
    derivs: Items<Option<Deriv>>,
    ghost lawful: { IsLawfulKernel (kernel_of kernel) } by { lawful_once (kernel_of kernel) },
    ghost kept: { ∥ AreKept (kernel_of kernel) (kernel_of kernel) (map maybe_core cores) (map maybe_tree derivs) ∥₁ },
}

impl Checked {
    ghost use Rattle.cg_typing.specs.Holds.{kernel_in, cores_in, trees_in, kept_at};

    /// These three as they are given: one core and one derivation for each function, None exactly where it has no body.
    pub fn new(
        kernel: Kernel,
        cores: Items<Option<Term<Typed>>>,
        derivs: Items<Option<Deriv>>,
    ) -> Checked
        requires lawful { IsLawfulKernel (kernel_of kernel) }
        requires kept { AreKept (kernel_of kernel) (kernel_of kernel) (map maybe_core cores) (map maybe_tree derivs) }
        ensures kernel { kernel_in result ≡ kernel }
        ensures cores { cores_in result ≡ cores }
        ensures trees { trees_in result ≡ derivs }
    {
        Checked {
            kernel,
            cores,
            derivs,
        }
    }

    /// The kernel.
    pub fn kernel(&self) -> &Kernel
        ensures { result.now ≡ kernel_in self.now }
    {
        &self.kernel
    }

    /// The core of a function; None exactly where there is no such function or it has no body.
    pub fn core(&self, fun: u32) -> Option<&Term<Typed>>
        ensures { option_copied result ≡ kept_at (cores_in self.now) fun }
    {
        match self.cores.get(fun as usize) {
            Some(kept) => kept.as_ref(),
            None => None,
        }
    }

    /// The derivation of a function; None exactly where there is no such function or it has no body.
    pub fn deriv(&self, fun: u32) -> Option<&Deriv>
        ensures { option_copied result ≡ kept_at (trees_in self.now) fun }
    {
        match self.derivs.get(fun as usize) {
            Some(kept) => kept.as_ref(),
            None => None,
        }
    }
}
