// Why written types aren't what they would be.
ghost use Rattle.std.specs.Prelude.{◌≡◌};
ghost use Rattle.cg_resolve_written.specs.declared.oversize.Oversize.TheVariants.{Memory};

use std::alloc::AllocFailed;

/// Why a program's written types are refused: one of them is too large (docs/LANGUAGE.md, "Limits"), or want of memory.
#[derive(Clone, Copy, Debug, PartialEq, Eq)]
pub enum Oversize {
    TooLarge,
    Memory,
}

impl From<cg_base::Memory> for Oversize {
    ghost from_gives = { λ _ oversize. oversize ≡ Memory };

    fn from(_: cg_base::Memory) -> Oversize {
        Oversize::Memory
    }
}

impl<T: Drop> From<AllocFailed<T>> for Oversize {
    ghost from_gives = { λ _ oversize. oversize ≡ Memory };

    fn from(_: AllocFailed<T>) -> Oversize {
        Oversize::Memory
    }
}
