// Why a C text isn't read.
ghost use Rattle.std.specs.Prelude.{◌≡◌};
ghost use Rattle.cg_cread.specs.declared.fault.CFault.TheVariants.{Memory as Wanting};

use cg_base::{Memory, Place};
use std::alloc::{AllocError, AllocFailed};
use thiserror::Error;

/// Why bytes are no program of the C subset: at this place stands the first token that no program goes on with, or the end
/// where none ends; or memory is wanting.
#[derive(Clone, Copy, Debug, PartialEq, Eq, Error)]
pub enum CFault {
    #[error("unexpected token")]
    Text(Place),
    #[error("out of memory")]
    Memory,
}

impl From<AllocError> for CFault {
    ghost from_gives = { λ _ fault. fault ≡ Wanting };

    fn from(_: AllocError) -> CFault {
        CFault::Memory
    }
}

impl<T: Drop> From<AllocFailed<T>> for CFault {
    ghost from_gives = { λ _ fault. fault ≡ Wanting };

    fn from(_: AllocFailed<T>) -> CFault {
        CFault::Memory
    }
}

impl From<Memory> for CFault {
    ghost from_gives = { λ _ fault. fault ≡ Wanting };

    fn from(_: Memory) -> CFault {
        CFault::Memory
    }
}
