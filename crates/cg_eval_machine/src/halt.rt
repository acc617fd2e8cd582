// Why the evaluator's stack halts.
use cg_base::Memory as OfMemory;
use std::alloc::{AllocError, AllocFailed};

/// An evaluation halts without a value.
#[derive(Clone, Copy)]
pub enum Halt {
    /// The budget is spent.
    StepLimit,
    /// Something was asked for that has no meaning: the definition is stuck.
    Stuck,
    /// Memory is wanting.
    Memory,
}

impl From<OfMemory> for Halt {
    ghost use Rattle.std.specs.Prelude.{◌≡◌};
    ghost use Rattle.cg_eval_machine.specs.declared.halt.Halt.TheVariants.{Memory as Wanting};

    ghost from_gives = { λ _ halt. halt ≡ Wanting };

    fn from(_: OfMemory) -> Halt {
        Halt::Memory
    }
}

impl From<AllocError> for Halt {
    ghost use Rattle.std.specs.Prelude.{◌≡◌};
    ghost use Rattle.cg_eval_machine.specs.declared.halt.Halt.TheVariants.{Memory as Wanting};

    ghost from_gives = { λ _ halt. halt ≡ Wanting };

    fn from(_: AllocError) -> Halt {
        Halt::Memory
    }
}

impl<T: Drop> From<AllocFailed<T>> for Halt {
    ghost use Rattle.std.specs.Prelude.{◌≡◌};
    ghost use Rattle.cg_eval_machine.specs.declared.halt.Halt.TheVariants.{Memory as Wanting};

    ghost from_gives = { λ _ halt. halt ≡ Wanting };

    fn from(_: AllocFailed<T>) -> Halt {
        Halt::Memory
    }
}
