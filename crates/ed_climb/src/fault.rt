//! Why nothing is planned.
ghost use Rattle.std.specs.Prelude.{◌≡◌};
ghost use Rattle.ed_climb.specs.declared.fault.PlanFault.TheVariants.{OutOfMemory};

use ed_base::{OutOfMemory as Oom, Refusal};
use std::alloc::{AllocError, AllocFailed};
use thiserror::Error;

/// Why nothing is planned, or no buffer is added.
#[derive(Clone, Copy, Debug, PartialEq, Eq, Error)]
pub enum PlanFault {
    /// A rule or a limit forbids it.
    #[error("it is refused")]
    Refused(Refusal),
    /// Memory was refused.
    #[error("out of memory")]
    OutOfMemory,
}

impl From<AllocError> for PlanFault {
    ghost from_gives = { λ _ fault. fault ≡ OutOfMemory };

    fn from(_: AllocError) -> PlanFault {
        PlanFault::OutOfMemory
    }
}

impl<T: Drop> From<AllocFailed<T>> for PlanFault {
    ghost from_gives = { λ _ fault. fault ≡ OutOfMemory };

    fn from(_: AllocFailed<T>) -> PlanFault {
        PlanFault::OutOfMemory
    }
}

impl From<Oom> for PlanFault {
    ghost from_gives = { λ _ fault. fault ≡ OutOfMemory };

    fn from(_: Oom) -> PlanFault {
        PlanFault::OutOfMemory
    }
}
