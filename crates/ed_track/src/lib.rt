//! Tracking: where points and spans of one version of a text go in another.
#![tactic(auto)]

mod edge;
mod points;
mod spans;
mod through;

pub use points::{back_point, point};
pub use spans::{back_edges, back_span, edges, span};
pub use through::{back_point_through, back_span_through, point_through, span_through};
