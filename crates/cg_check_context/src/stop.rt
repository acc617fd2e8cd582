// Where the pass stops.
use cg_base::{Memory, Place};
use cg_faults::Rule;
use std::alloc::{AllocError, AllocFailed};

/// Where the pass stops: at a rule that fails, at a type that passes the limit, or for want of memory.
#[derive(Clone, Copy)]
pub enum Stop {
    Rule(Rule, Place),
    Size(Place),
    Memory,
}

impl From<Memory> for Stop {
    ghost use Rattle.std.specs.Prelude.{◌≡◌};
    ghost use Rattle.cg_check_context.specs.declared.stop.Stop.TheVariants.{Memory as Wanting};

    ghost from_gives = { λ _ e. e ≡ Wanting };

    fn from(_: Memory) -> Stop {
        Stop::Memory
    }
}

impl From<AllocError> for Stop {
    ghost use Rattle.std.specs.Prelude.{◌≡◌};
    ghost use Rattle.cg_check_context.specs.declared.stop.Stop.TheVariants.{Memory as Wanting};

    ghost from_gives = { λ _ e. e ≡ Wanting };

    fn from(_: AllocError) -> Stop {
        Stop::Memory
    }
}

impl<T: Drop> From<AllocFailed<T>> for Stop {
    ghost use Rattle.std.specs.Prelude.{◌≡◌};
    ghost use Rattle.cg_check_context.specs.declared.stop.Stop.TheVariants.{Memory as Wanting};

    ghost from_gives = { λ _ e. e ≡ Wanting };

    fn from(_: AllocFailed<T>) -> Stop {
        Stop::Memory
    }
}
