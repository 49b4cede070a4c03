ghost use Rattle.std.specs.Prelude.{◌≡◌};

use ed_base::OutOfMemory;
use thiserror::Error;

/// Why members can't stand together. Indices count from 0.
#[derive(Clone, Copy, Debug, PartialEq, Eq, Error)]
pub enum MemberFault {
    /// The inclusive member doesn't cover its source.
    #[error("member {index} doesn't cover its source")]
    Mode { index: u32 },
    /// Two members of one source share a unit, stand out of order, or one is to cover the source.
    #[error("members {index} and {other} conflict")]
    Overlap { index: u32, other: u32 },
    /// Memory was refused.
    #[error("out of memory")]
    OutOfMemory,
}

impl From<OutOfMemory> for MemberFault {
    ghost use Rattle.ed_members.specs.declared.fault.MemberFault.{MemberFault};

    ghost from_gives = { λ _ e. e ≡ MemberFault.OutOfMemory };

    fn from(_: OutOfMemory) -> MemberFault {
        MemberFault::OutOfMemory
    }
}
