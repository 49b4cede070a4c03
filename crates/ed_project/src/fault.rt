//! Why a version of a projection isn't planned.
ghost use Rattle.std.specs.Prelude.{◌≡◌};
ghost use Rattle.ed_project.specs.declared.fault.ProjectionFault.TheVariants.{OutOfMemory};

use ed_base::OutOfMemory as Oom;
use std::alloc::{AllocError, AllocFailed};
use thiserror::Error;

/// Why a version of a projection isn't planned.
#[derive(Clone, Copy, Debug, PartialEq, Eq, Error)]
pub enum ProjectionFault {
    /// The text would have more than 2^22 units: so many.
    #[error("the text would be too long")]
    Units { count: u64 },
    /// Memory was refused.
    #[error("out of memory")]
    OutOfMemory,
}

impl From<AllocError> for ProjectionFault {
    ghost from_gives = { λ _ fault. fault ≡ OutOfMemory };

    fn from(_: AllocError) -> ProjectionFault {
        ProjectionFault::OutOfMemory
    }
}

impl<T: Drop> From<AllocFailed<T>> for ProjectionFault {
    ghost from_gives = { λ _ fault. fault ≡ OutOfMemory };

    fn from(_: AllocFailed<T>) -> ProjectionFault {
        ProjectionFault::OutOfMemory
    }
}

impl From<Oom> for ProjectionFault {
    ghost from_gives = { λ _ fault. fault ≡ OutOfMemory };

    fn from(_: Oom) -> ProjectionFault {
        ProjectionFault::OutOfMemory
    }
}
