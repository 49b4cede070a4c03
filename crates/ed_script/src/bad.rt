//! Why a line is no command.
ghost use Rattle.std.specs.Prelude.{◌≡◌};
ghost use Rattle.ed_script.specs.declared.bad.LineFault.TheVariants.{OutOfMemory};

use ed_base::OutOfMemory as Oom;
use std::alloc::{AllocError, AllocFailed};
use thiserror::Error;

/// Why a line of a script is bad.
#[derive(Clone, Copy, Debug, PartialEq, Eq)]
pub enum BadKind {
    /// The script has too many lines or bytes.
    TooMany,
    /// The line has too many bytes.
    TooLong,
    /// The line isn't JSON (RFC 8259).
    NotJson,
    /// The line's value isn't a command.
    NotCommand,
}

/// A bad line of a script: its number, counted from 1, and why it is bad.
#[derive(Clone, Copy, Debug, PartialEq, Eq)]
pub struct BadLine {
    pub line: u32,
    pub kind: BadKind,
}

/// Why a line gives nothing.
#[derive(Clone, Copy, Debug, PartialEq, Eq, Error)]
pub enum LineFault {
    /// The line isn't JSON (RFC 8259).
    #[error("the line is not JSON")]
    NotJson,
    /// The line's value isn't a command.
    #[error("the line is not a command")]
    NotCommand,
    /// Memory was refused.
    #[error("out of memory")]
    OutOfMemory,
}

impl From<AllocError> for LineFault {
    ghost from_gives = { λ _ fault. fault ≡ OutOfMemory };

    fn from(_: AllocError) -> LineFault {
        LineFault::OutOfMemory
    }
}

impl<T: Drop> From<AllocFailed<T>> for LineFault {
    ghost from_gives = { λ _ fault. fault ≡ OutOfMemory };

    fn from(_: AllocFailed<T>) -> LineFault {
        LineFault::OutOfMemory
    }
}

impl From<Oom> for LineFault {
    ghost from_gives = { λ _ fault. fault ≡ OutOfMemory };

    fn from(_: Oom) -> LineFault {
        LineFault::OutOfMemory
    }
}
