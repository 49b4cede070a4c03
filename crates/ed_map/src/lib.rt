//! Mapping of spans and points through the buffer graph, at any version: from a version of a
//! projection or an elision buffer down to the buffers under it, and up again.
#![tactic(auto)]

mod down;
mod images;
mod layers;
mod lower;
mod points;
mod shown;
mod up;

pub use down::down_span;
pub use layers::{Layers, Placed};
pub use lower::lower_version;
pub use points::{down_point, up_point};
pub use up::up_span;
