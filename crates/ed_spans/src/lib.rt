//! Lists of spans of a text as sets of places: joined where they overlap or touch, and what lies
//! between them.
#![tactic(auto)]

mod between;
mod growing;
mod joining;
mod sets;

pub use between::gaps;
pub use growing::put_behind;
pub use joining::{join, join_rising};
pub use sets::{difference, union};
