//! The output: a line for each entry of a history.
#![tactic(auto)]

mod events;
mod lines;
mod push;
mod refusals;
mod replies;
mod texts;

pub use lines::line;
