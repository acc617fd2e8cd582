// Why names are at fault.
ghost use Rattle.std.specs.Prelude.{◌≡◌};
ghost use Rattle.cg_resolve_names.specs.declared.fault.NamingFault.TheVariants.{Memory};

use cg_base::Place;
use std::alloc::AllocFailed;

/// The first fault of names that no circle makes (docs/LANGUAGE.md, "Names"): N1, a name that isn't defined where it stands; N2, the
/// later of two; N4, a wrong number of type arguments; or want of memory.
#[derive(Clone, Copy, Debug, PartialEq, Eq)]
pub enum NamingFault {
    N1(Place),
    N2(Place),
    N4(Place),
    Memory,
}

impl From<cg_base::Memory> for NamingFault {
    ghost from_gives = { λ _ fault. fault ≡ Memory };

    fn from(_: cg_base::Memory) -> NamingFault {
        NamingFault::Memory
    }
}

impl<T: Drop> From<AllocFailed<T>> for NamingFault {
    ghost from_gives = { λ _ fault. fault ≡ Memory };

    fn from(_: AllocFailed<T>) -> NamingFault {
        NamingFault::Memory
    }
}
