//! Texts that never change: what every representation of a text promises, the plain one, and one
//! whose parts are shared.
#![tactic(auto)]

mod leaf;
mod level;
mod node;
mod plain;
mod row;
mod text;
mod tree;

pub use plain::PlainText;
pub use text::{MOST_UNITS, Text};
pub use tree::TreeText;

/// The representation of texts that is in use. Callers rely on nothing of it but `Text`, so that
/// another one can take its place.
pub type DocText = TreeText;
