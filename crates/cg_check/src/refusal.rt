// Refusals.
use cg_base::{Limit, Memory, Place};
use cg_faults::Rule;
use std::alloc::{AllocError, AllocFailed};

/// Why a kernel is refused: a rule that fails, and where; a type that passes the limit; or want of memory.
#[derive(Clone, Copy, PartialEq, Eq)]
pub enum Refusal {
    Rule(Rule, Place),
    Limit(Limit),
    Memory,
}

impl From<Memory> for Refusal {
    ghost use Rattle.std.specs.Prelude.{◌≡◌};
    ghost use Rattle.cg_check.specs.declared.refusal.Refusal.TheVariants.{Memory as Wanting};

    ghost from_gives = { λ _ e. e ≡ Wanting };

    fn from(_: Memory) -> Refusal {
        Refusal::Memory
    }
}

impl From<AllocError> for Refusal {
    ghost use Rattle.std.specs.Prelude.{◌≡◌};
    ghost use Rattle.cg_check.specs.declared.refusal.Refusal.TheVariants.{Memory as Wanting};

    ghost from_gives = { λ _ e. e ≡ Wanting };

    fn from(_: AllocError) -> Refusal {
        Refusal::Memory
    }
}
