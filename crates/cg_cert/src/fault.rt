// Why a certificate isn't read or doesn't hold.
ghost use Rattle.std.specs.Prelude.{◌≡◌};
ghost use Rattle.cg_cert.specs.declared.fault.CertFault.TheVariants.{Memory as Wanting};

use cg_base::{Limit, Memory};
use std::alloc::{AllocError, AllocFailed};
use thiserror::Error;

/// Why a certificate is refused: C1, a byte of its text can't stand where it stands; C2, a node's row breaks; C3, a node or a name is
/// missing or surplus; a limit; or want of memory. Bytes count from 0, and nodes from 1 through the whole text (docs/LANGUAGE.md,
/// "Certificates").
#[derive(Clone, Copy, Debug, PartialEq, Eq, Error)]
pub enum CertFault {
    #[error("not in the certificate grammar")]
    C1(usize),
    #[error("node breaks its row")]
    C2(u64),
    #[error("node or name missing or surplus")]
    C3(u64),
    #[error("limit")]
    Limit(Limit),
    #[error("out of memory")]
    Memory,
}

impl From<AllocError> for CertFault {
    ghost from_gives = { λ _ fault. fault ≡ Wanting };

    fn from(_: AllocError) -> CertFault {
        CertFault::Memory
    }
}

impl<T: Drop> From<AllocFailed<T>> for CertFault {
    ghost from_gives = { λ _ fault. fault ≡ Wanting };

    fn from(_: AllocFailed<T>) -> CertFault {
        CertFault::Memory
    }
}

impl From<Memory> for CertFault {
    ghost from_gives = { λ _ fault. fault ≡ Wanting };

    fn from(_: Memory) -> CertFault {
        CertFault::Memory
    }
}
