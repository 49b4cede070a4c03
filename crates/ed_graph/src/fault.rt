ghost use Rattle.std.specs.Prelude.{◌≡◌};

use ed_base::{BufferNo, OutOfMemory};
use thiserror::Error;

/// Why a buffer can't stand on these sources.
#[derive(Clone, Copy, Debug, PartialEq, Eq, Error)]
pub enum LinkFault {
    /// The buffer would reach itself through this source.
    #[error("the buffer would reach itself")]
    Cycle { via: BufferNo },
    /// Buffers would be stacked higher than 8: the greatest height there would be.
    #[error("buffers would be stacked {height} high")]
    Depth { height: u32 },
    /// Memory was refused.
    #[error("out of memory")]
    OutOfMemory,
}

impl From<OutOfMemory> for LinkFault {
    ghost use Rattle.ed_graph.specs.declared.fault.LinkFault.{LinkFault};

    ghost from_gives = { λ _ e. e ≡ LinkFault.OutOfMemory };

    fn from(_: OutOfMemory) -> LinkFault {
        LinkFault::OutOfMemory
    }
}
