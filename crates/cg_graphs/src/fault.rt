// Why a graph has no order.
ghost use Rattle.std.specs.Prelude.{◌≡◌};
ghost use Rattle.cg_graphs.specs.declared.fault.NoOrder.TheVariants.{Memory};

use std::alloc::AllocFailed;

/// Why a graph has no order: the first node that mentions itself, directly or through others; or want of memory.
#[derive(Clone, Copy, Debug, PartialEq, Eq)]
pub enum NoOrder {
    Circle(usize),
    Memory,
}

impl From<cg_base::Memory> for NoOrder {
    ghost from_gives = { λ _ fault. fault ≡ Memory };

    fn from(_: cg_base::Memory) -> NoOrder {
        NoOrder::Memory
    }
}

impl<T: Drop> From<AllocFailed<T>> for NoOrder {
    ghost from_gives = { λ _ fault. fault ≡ Memory };

    fn from(_: AllocFailed<T>) -> NoOrder {
        NoOrder::Memory
    }
}
