// Why a heap file isn't read.
ghost use Rattle.std.specs.Prelude.{◌≡◌};
ghost use Rattle.cg_heaptext_index.specs.declared.fault.AddressFault.{AddressFault as Address};
ghost use Rattle.cg_heaptext_judge_notes.specs.declared.fault.JudgeFault.{JudgeFault as Judge};
ghost use Rattle.cg_heaptext_parser.specs.declared.fault.TextFault.{TextFault as Text};
ghost use Rattle.cg_heaptext.specs.declared.fault.HeapFault.TheVariants.{Memory as Wanting};
ghost use Rattle.cg_heaptext.specs.Faults.{of_address, of_judge, of_text};

use cg_base::Memory;
use cg_heaptext_index::AddressFault;
use cg_heaptext_judge_notes::JudgeFault;
use cg_heaptext_parser::TextFault;
use thiserror::Error;

/// Why bytes hold no argument of a type: the first of H1 to H7 with its line (docs/LANGUAGE.md, "Heap files"); or memory is wanting.
#[derive(Clone, Copy, Debug, PartialEq, Eq, Error)]
pub enum HeapFault {
    #[error("not in the heap grammar")]
    H1(u32),
    #[error("address defined twice")]
    H2(u32),
    #[error("address is absent")]
    H3(u32),
    #[error("value does not fit its type")]
    H4(u32),
    #[error("number out of range")]
    H5(u32),
    #[error("writable cell reached twice")]
    H6(u32),
    #[error("too many cells or elements")]
    H7(u32),
    #[error("out of memory")]
    Memory,
}

impl From<TextFault> for HeapFault {
    ghost from_gives = { λ text fault. fault ≡ of_text text };

    fn from(fault: TextFault) -> HeapFault {
        match fault {
            TextFault::Text(place) => HeapFault::H1(place.line),
            TextFault::Memory => HeapFault::Memory,
        }
    }
}

impl From<AddressFault> for HeapFault {
    ghost from_gives = { λ address fault. fault ≡ of_address address };

    fn from(fault: AddressFault) -> HeapFault {
        match fault {
            AddressFault::Second(place) => HeapFault::H2(place.line),
            AddressFault::Memory => HeapFault::Memory,
        }
    }
}

impl From<JudgeFault> for HeapFault {
    ghost from_gives = { λ judge fault. fault ≡ of_judge judge };

    fn from(fault: JudgeFault) -> HeapFault {
        match fault {
            JudgeFault::Misfit(place) => HeapFault::H4(place.line),
            JudgeFault::Memory => HeapFault::Memory,
        }
    }
}

impl From<Memory> for HeapFault {
    ghost from_gives = { λ _ fault. fault ≡ Wanting };

    fn from(_: Memory) -> HeapFault {
        HeapFault::Memory
    }
}
