// Why the argument of a heap file isn't judged.
ghost use Rattle.std.specs.Prelude.{◌≡◌};
ghost use Rattle.cg_heaptext_judge_notes.specs.declared.fault.JudgeFault.TheVariants.{Memory as Wanting};

use cg_base::{Memory, Place};
use thiserror::Error;

/// Why the argument of a heap file isn't judged: what is met first that doesn't fit its type stands at this place (docs/LANGUAGE.md, "Heap
/// files", H4); or memory is wanting.
#[derive(Clone, Copy, Debug, PartialEq, Eq, Error)]
pub enum JudgeFault {
    #[error("a value does not fit its type")]
    Misfit(Place),
    #[error("out of memory")]
    Memory,
}

impl From<Memory> for JudgeFault {
    ghost from_gives = { λ _ fault. fault ≡ Wanting };

    fn from(_: Memory) -> JudgeFault {
        JudgeFault::Memory
    }
}
