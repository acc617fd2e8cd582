// Why there is no list of instances.
use cg_base::{Limit, Memory as OfMemory};
use thiserror::Error;

/// There is no list of instances: a limit is passed, or memory is wanting.
#[derive(Clone, Copy, Debug, PartialEq, Eq, Error)]
pub enum InstFault {
    #[error("a limit is passed")]
    Limit(Limit),
    #[error("out of memory")]
    Memory,
}

impl From<OfMemory> for InstFault {
    ghost use Rattle.std.specs.Prelude.{◌≡◌};
    ghost use Rattle.cg_inst.specs.declared.fault.InstFault.TheVariants.{Memory as Wanting};

    ghost from_gives = { λ _ fault. fault ≡ Wanting };

    fn from(_: OfMemory) -> InstFault {
        InstFault::Memory
    }
}
