ghost use Rattle.std.specs.Prelude.{◌≡◌};
ghost use Rattle.ed_readonly.specs.declared.fault.RegionFault.TheVariants.{OutOfMemory};

use std::alloc::AllocFailed;
use thiserror::Error;

/// Why a region isn't made.
#[derive(Clone, Copy, Debug, PartialEq, Eq, Error)]
pub enum RegionFault {
    /// The buffer would have more live regions than 1,024, or have given more numbers than 2^20:
    /// the count that passes the limit.
    #[error("{count} read-only regions")]
    Limit { count: u64 },
    #[error("out of memory")]
    OutOfMemory,
}

impl<T: Drop> From<AllocFailed<T>> for RegionFault {
    ghost from_gives = { λ _ e. e ≡ OutOfMemory };

    fn from(_: AllocFailed<T>) -> RegionFault {
        RegionFault::OutOfMemory
    }
}
