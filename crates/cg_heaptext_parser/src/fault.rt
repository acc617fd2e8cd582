// Why a heap file isn't read.
ghost use Rattle.std.specs.Prelude.{◌≡◌};
ghost use Rattle.cg_heaptext_parser.specs.declared.fault.TextFault.TheVariants.{Memory as Wanting};

use cg_base::{Memory, Place};
use thiserror::Error;

/// Why bytes are no heap file: at this place stands the first token that no heap file goes on with, or the end where none ends; or memory is
/// wanting.
#[derive(Clone, Copy, Debug, PartialEq, Eq, Error)]
pub enum TextFault {
    #[error("not in the heap grammar")]
    Text(Place),
    #[error("out of memory")]
    Memory,
}

impl From<Memory> for TextFault {
    ghost from_gives = { λ _ fault. fault ≡ Wanting };

    fn from(_: Memory) -> TextFault {
        TextFault::Memory
    }
}
