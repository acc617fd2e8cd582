// Why a definition has no kernel body.
ghost use Rattle.std.specs.Prelude.{◌≡◌};
ghost use Rattle.cg_resolve_sites.specs.declared.fault.TermFault.TheVariants.{Memory};

use std::alloc::AllocFailed;

/// Why a definition has no kernel body: its term is deeper than the limit (docs/LANGUAGE.md, "Limits"), or want of memory.
#[derive(Clone, Copy, Debug, PartialEq, Eq)]
pub enum TermFault {
    TooDeep,
    Memory,
}

impl From<cg_base::Memory> for TermFault {
    ghost from_gives = { λ _ fault. fault ≡ Memory };

    fn from(_: cg_base::Memory) -> TermFault {
        TermFault::Memory
    }
}

impl<T: Drop> From<AllocFailed<T>> for TermFault {
    ghost from_gives = { λ _ fault. fault ≡ Memory };

    fn from(_: AllocFailed<T>) -> TermFault {
        TermFault::Memory
    }
}
