// Why the entries of a heap file have no places by their addresses.
ghost use Rattle.std.specs.Prelude.{◌≡◌};
ghost use Rattle.cg_heaptext_index.specs.declared.fault.AddressFault.TheVariants.{Memory as Wanting};

use cg_base::{Memory, Place};
use thiserror::Error;

/// Why entries aren't found by their addresses: at this place stands the first entry of the file that has the address of an earlier one
/// (docs/LANGUAGE.md, "Heap files", H2); or memory is wanting.
#[derive(Clone, Copy, Debug, PartialEq, Eq, Error)]
pub enum AddressFault {
    #[error("an entry has the address of an earlier one")]
    Second(Place),
    #[error("out of memory")]
    Memory,
}

impl From<Memory> for AddressFault {
    ghost from_gives = { λ _ fault. fault ≡ Wanting };

    fn from(_: Memory) -> AddressFault {
        AddressFault::Memory
    }
}
