//! Why a command is refused.
use crate::edit::Span;
use crate::numbers::{BufferNo, RegionNo, VersionNo};

/// What a command names and isn't there.
#[derive(Clone, Copy, Debug, PartialEq, Eq)]
pub enum What {
    Version,
    Tagger,
    Region,
    Aggregator,
    Hook,
}

/// Which limit would be passed.
#[derive(Clone, Copy, Debug, PartialEq, Eq)]
pub enum Which {
    Buffers,
    Units,
    Inserted,
    Versions,
    Members,
    Placements,
    Taggers,
    Aggregators,
    Regions,
    Answers,
}

/// Why a command is refused, in the order in which the causes are tested: of several that hold, the
/// first is the one that is answered. They are numbered from 1.
#[derive(Clone, Copy, Debug, PartialEq, Eq)]
pub enum Refusal {
    /// A buffer that is named isn't there.
    NoBuffer,
    /// The new name is in use among its kind, or the buffer has an aggregator.
    NameTaken,
    /// The command isn't for a buffer of that kind.
    WrongKind,
    /// The version that a changing command names isn't the current one, which is `now`.
    Stale { now: VersionNo },
    /// A range or a position ends past the length; the first in the command's order.
    OutOfRange { end: u64, len: u32 },
    /// A part of a literal member of the carrier would be deleted.
    Literal { buffer: BufferNo, span: Span },
    /// What is put in at the gap of the carrier has no place in a source.
    NoPlace { buffer: BufferNo, gap: u32 },
    /// A read-only region of the base denies the edit.
    ReadOnly { buffer: BufferNo, region: RegionNo },
    /// The inclusive member doesn't cover its source.
    Mode { index: u32 },
    /// Two members of one source share a unit or stand out of order.
    Overlap { index: u32, other: u32 },
    /// The buffer would reach itself through this source.
    Cycle { via: BufferNo },
    /// Projections would be stacked too high.
    Depth { height: u32 },
    /// No group is recorded.
    NothingToUndo,
    /// No group was undone.
    NothingToRedo,
    /// What is named isn't there.
    NoSuch { what: What },
    /// A limit would be passed: the count that would be reached.
    Limit { which: Which, count: u64 },
}
