// Why fields can't be taken.
ghost use Rattle.std.specs.Prelude.{◌≡◌};
ghost use Rattle.cg_resolve_takes.specs.declared.fault.TakeFault.TheVariants.{Memory};

use cg_base::Place;
use std::alloc::AllocFailed;

/// The first place where fields are taken of a type that hasn't them (docs/LANGUAGE.md, "Names"): N5, that of the name that is no field,
/// or of `take` where it stands for all fields of what is no record; or want of memory.
#[derive(Clone, Copy, Debug, PartialEq, Eq)]
pub enum TakeFault {
    N5(Place),
    Memory,
}

impl From<cg_base::Memory> for TakeFault {
    ghost from_gives = { λ _ fault. fault ≡ Memory };

    fn from(_: cg_base::Memory) -> TakeFault {
        TakeFault::Memory
    }
}

impl<T: Drop> From<AllocFailed<T>> for TakeFault {
    ghost from_gives = { λ _ fault. fault ≡ Memory };

    fn from(_: AllocFailed<T>) -> TakeFault {
        TakeFault::Memory
    }
}
