//! The steps of sources, as the members above see them.

use ed_base::{BufferNo, Changes};
use ed_pieces::Trails;

/// A source with one version more: the changes that lead to it, and the way by which each unit of
/// its new text came, which a unit that was put in may have.
#[derive(Drop)]
pub struct SourceStep {
    pub source: BufferNo,
    pub changes: Changes,
    pub trails: Trails,
}
