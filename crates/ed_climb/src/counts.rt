//! Numbers that are limited over all buffers.

/// How much there is over all versions of all buffers: the units of the opening texts of bases and of
/// all changes, the versions, and the tracked members and changes.
#[derive(Clone, Copy)]
pub struct Counts {
    pub inserted: u64,
    pub versions: u64,
    pub placements: u64,
}
