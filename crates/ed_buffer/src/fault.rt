//! Why a step of a base buffer isn't planned.
ghost use Rattle.std.specs.Prelude.{◌≡◌};
ghost use Rattle.ed_buffer.specs.declared.fault.BaseFault.TheVariants.{OutOfMemory};

use ed_base::{OutOfMemory as Oom, RegionNo};
use std::alloc::{AllocError, AllocFailed};
use thiserror::Error;

/// Why a step of a base buffer isn't planned.
#[derive(Clone, Copy, Debug, PartialEq, Eq, Error)]
pub enum BaseFault {
    /// A read-only region denies a change: the one of lowest number that denies the first denied one.
    #[error("a read-only region denies the edit")]
    ReadOnly { region: RegionNo },
    /// The text would have more than 2^22 units: so many.
    #[error("the text would be too long")]
    Units { count: u64 },
    /// Memory was refused.
    #[error("out of memory")]
    OutOfMemory,
}

impl From<AllocError> for BaseFault {
    ghost from_gives = { λ _ fault. fault ≡ OutOfMemory };

    fn from(_: AllocError) -> BaseFault {
        BaseFault::OutOfMemory
    }
}

impl<T: Drop> From<AllocFailed<T>> for BaseFault {
    ghost from_gives = { λ _ fault. fault ≡ OutOfMemory };

    fn from(_: AllocFailed<T>) -> BaseFault {
        BaseFault::OutOfMemory
    }
}

impl From<Oom> for BaseFault {
    ghost from_gives = { λ _ fault. fault ≡ OutOfMemory };

    fn from(_: Oom) -> BaseFault {
        BaseFault::OutOfMemory
    }
}
