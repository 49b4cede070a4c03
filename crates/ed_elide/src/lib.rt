//! Hidden text: sets of places of a source, kept as runs, and the elision buffers that don't show
//! them.
#![tactic(auto)]

mod after;
mod elision;
mod hidden;
mod next;
mod parts;
mod shown;
mod steps;
mod version;

pub use elision::Elision;
pub use hidden::Hidden;
pub use next::NextRecord;
pub use version::ElisionVersion;
