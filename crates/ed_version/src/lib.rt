//! The versions of a buffer: texts that never change, with what leads from each to the next.
#![tactic(auto)]

mod chain;
mod snapshot;
mod versions;

pub use chain::{Chain, Version};
pub use snapshot::Snapshot;
pub use versions::{HasText, Versions};
