// Why a program has no kernel.
ghost use Rattle.std.specs.Prelude.{◌≡◌};
ghost use Rattle.cg_resolve.specs.Faults.{of_naming, of_take, of_oversize, of_term};
ghost use Rattle.cg_resolve.specs.declared.fault.Fault.TheVariants.{Memory};

use cg_base::{Limit, Place};
use cg_resolve_names::NamingFault;
use cg_resolve_sites::TermFault;
use cg_resolve_takes::TakeFault;
use cg_resolve_written::Oversize;
use std::alloc::AllocFailed;

/// The first fault of names (docs/LANGUAGE.md, "Names"): N1, a name that isn't defined where it stands; N2, the later of two; N3, the
/// first item that mentions itself through bodies; N4, a wrong number of type arguments; N5, a field that is taken where there is none;
/// or the first limit of written things that is passed (docs/LANGUAGE.md, "Limits"); or want of memory.
#[derive(Clone, Copy, Debug, PartialEq, Eq)]
pub enum Fault {
    N1(Place),
    N2(Place),
    N3(Place),
    N4(Place),
    N5(Place),
    Limit(Limit),
    Memory,
}

impl From<cg_base::Memory> for Fault {
    ghost from_gives = { λ _ fault. fault ≡ Memory };

    fn from(_: cg_base::Memory) -> Fault {
        Fault::Memory
    }
}

impl<T: Drop> From<AllocFailed<T>> for Fault {
    ghost from_gives = { λ _ fault. fault ≡ Memory };

    fn from(_: AllocFailed<T>) -> Fault {
        Fault::Memory
    }
}

impl From<NamingFault> for Fault {
    ghost from_gives = { λ given fault. fault ≡ of_naming given };

    fn from(given: NamingFault) -> Fault {
        match given {
            NamingFault::N1(place) => Fault::N1(place),
            NamingFault::N2(place) => Fault::N2(place),
            NamingFault::N4(place) => Fault::N4(place),
            NamingFault::Memory => Fault::Memory,
        }
    }
}

impl From<TakeFault> for Fault {
    ghost from_gives = { λ given fault. fault ≡ of_take given };

    fn from(given: TakeFault) -> Fault {
        match given {
            TakeFault::N5(place) => Fault::N5(place),
            TakeFault::Memory => Fault::Memory,
        }
    }
}

impl From<Oversize> for Fault {
    ghost from_gives = { λ given fault. fault ≡ of_oversize given };

    fn from(given: Oversize) -> Fault {
        match given {
            Oversize::TooLarge => Fault::Limit(Limit::Ty),
            Oversize::Memory => Fault::Memory,
        }
    }
}

impl From<TermFault> for Fault {
    ghost from_gives = { λ given fault. fault ≡ of_term given };

    fn from(given: TermFault) -> Fault {
        match given {
            TermFault::TooDeep => Fault::Limit(Limit::Depth),
            TermFault::Memory => Fault::Memory,
        }
    }
}
