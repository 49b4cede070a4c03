ghost use Rattle.std.specs.Prelude.{◌≡◌};

use ed_base::OutOfMemory;
use thiserror::Error;

/// Why an edit has no change list.
#[derive(Clone, Copy, Debug, PartialEq, Eq, Error)]
pub enum ChangeFault {
    /// A replace ends past the text. Places are in units.
    #[error("a replace ends at {end}, past the text's length {len}")]
    OutOfRange { end: u64, len: u32 },
    /// Memory was refused.
    #[error("out of memory")]
    OutOfMemory,
}

impl From<OutOfMemory> for ChangeFault {
    ghost use Rattle.ed_change.specs.declared.fault.ChangeFault.{ChangeFault};

    ghost from_gives = { λ _ e. e ≡ ChangeFault.OutOfMemory };

    fn from(_: OutOfMemory) -> ChangeFault {
        ChangeFault::OutOfMemory
    }
}
