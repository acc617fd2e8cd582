// Why a run has no value.
use cg_base::Memory;
use cg_ctree::Why;
use std::alloc::{AllocError, AllocFailed};
use thiserror::Error;

/// Why a run has no value (docs/LANGUAGE.md, "The C subset"): it is stuck, it needs more steps than its budget, or memory is
/// wanting.
#[derive(Clone, Copy, Debug, PartialEq, Eq, Error)]
pub enum RunFault {
    #[error("stuck")]
    Stuck(Why),
    #[error("more steps are needed")]
    Budget,
    #[error("out of memory")]
    Memory,
}

impl From<AllocError> for RunFault {
    ghost use Rattle.std.specs.Prelude.{◌≡◌};
    ghost use Rattle.cg_cmachine_values.specs.declared.fault.RunFault.TheVariants.{Memory as Wanting};

    ghost from_gives = { λ _ fault. fault ≡ Wanting };

    fn from(_: AllocError) -> RunFault {
        RunFault::Memory
    }
}

impl<T: Drop> From<AllocFailed<T>> for RunFault {
    ghost use Rattle.std.specs.Prelude.{◌≡◌};
    ghost use Rattle.cg_cmachine_values.specs.declared.fault.RunFault.TheVariants.{Memory as Wanting};

    ghost from_gives = { λ _ fault. fault ≡ Wanting };

    fn from(_: AllocFailed<T>) -> RunFault {
        RunFault::Memory
    }
}

impl From<Memory> for RunFault {
    ghost use Rattle.std.specs.Prelude.{◌≡◌};
    ghost use Rattle.cg_cmachine_values.specs.declared.fault.RunFault.TheVariants.{Memory as Wanting};

    ghost from_gives = { λ _ fault. fault ≡ Wanting };

    fn from(_: Memory) -> RunFault {
        RunFault::Memory
    }
}
