//! What is told, what is answered, and the entries of a history. Plain values.
#![tactic(auto)]

use ed_base::{
    BufferNo, Changes, LineList, NumberList, Refusal, RegionNo, SeatNo, Span, VersionList,
};
use ed_script::Command;
use ed_version::Snapshot;

/// What happens at a seat.
#[derive(Drop)]
pub enum Event {
    /// A command of the script is told.
    Told(Command),
}

/// What is answered to an event.
#[derive(Drop)]
pub enum Reply {
    /// The new buffer's number.
    Made { buffer: BufferNo },
    /// The versions that were made.
    Edited { versions: VersionList },
    /// The new region's number.
    Region { region: RegionNo },
    /// The thing was removed.
    Removed,
    /// The region of lowest number that denies.
    Denied { region: RegionNo },
    /// No region denies.
    Free,
    /// The text of a version.
    Text { snapshot: Snapshot },
    /// The lines of a version, from the first on.
    Lines { lines: LineList },
    /// What leads from a version to the next.
    Changes { changes: Changes },
    /// The number that each version repeats, from version 0 on.
    Versions { numbers: NumberList },
    /// Where a point goes.
    At { pos: u32 },
    /// Where a span goes.
    Span { span: Span },
    /// Why nothing was done.
    Refused(Refusal),
}

/// An event at a seat, with its reply.
#[derive(Drop)]
pub struct Entry {
    pub seat: SeatNo,
    pub event: Event,
    pub reply: Reply,
}
