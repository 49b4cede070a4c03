//! Characters as UTF-16 units, texts as they are printed, and line breaks.
#![tactic(auto)]

mod converting;
mod line_breaks;
mod quoting;

pub use converting::to_units;
pub use line_breaks::break_len;
pub use quoting::{write_quoted, write_units};
