//! What arrives at a buffer: pieces of text that were sent there, each with the way that it came,
//! brought together to one list of components.
#![tactic(auto)]

mod arrived;
mod landing;
mod order;
mod part;
mod pending;
mod run;
mod trails;

pub use arrived::Arrived;
pub use landing::{Landing, land};
pub use part::Part;
pub use run::{Run, cut_runs};
pub use trails::{TrailRun, Trails};
