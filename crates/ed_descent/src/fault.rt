//! Why edits can't be sent down.
ghost use Rattle.std.specs.Prelude.{◌≡◌};
ghost use Rattle.ed_descent.specs.Refusals.{told};
ghost use Rattle.ed_descent.specs.declared.fault.DescentFault.TheVariants.{OutOfMemory};

use ed_base::{BufferNo, OutOfMemory as Oom, Refusal};
use ed_resolve::SendFault;
use thiserror::Error;

/// Why edits can't be sent down.
#[derive(Clone, Copy, Debug, PartialEq, Eq, Error)]
pub enum DescentFault {
    /// A projection or an elision buffer can't send on what arrives there.
    #[error("it is refused")]
    Refused(Refusal),
    /// Memory was refused.
    #[error("out of memory")]
    OutOfMemory,
}

impl From<Oom> for DescentFault {
    ghost from_gives = { λ _ fault. fault ≡ OutOfMemory };

    fn from(_: Oom) -> DescentFault {
        DescentFault::OutOfMemory
    }
}

/// Why this carrier can't send, as it is told.
pub fn told(buffer: BufferNo, fault: SendFault) -> DescentFault
    ensures { result ≡ told buffer fault }
{
    match fault {
        SendFault::Literal { span } => DescentFault::Refused(Refusal::Literal { buffer, span }),
        SendFault::NoPlace { gap } => DescentFault::Refused(Refusal::NoPlace { buffer, gap }),
        SendFault::OutOfMemory => DescentFault::OutOfMemory,
    }
}
