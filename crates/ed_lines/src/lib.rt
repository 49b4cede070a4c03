//! The lines of a text.
#![tactic(auto)]

mod finding;
mod table;

pub use table::Lines;
