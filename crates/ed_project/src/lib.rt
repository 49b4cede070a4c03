//! Projection buffers: versions that show texts of their own and spans of sources, each at one
//! version.
#![tactic(auto)]

mod fault;
mod kept;
mod next;
mod projection;
mod runs;
mod shown;
mod sources;
mod texts;

pub use fault::ProjectionFault;
pub use next::NextRecord;
pub use projection::Projection;
pub use shown::Shown;
