//! The core: all buffers with their names, and what an event does to them.
#![tactic(auto)]

mod between;
mod editing;
mod eliding;
mod landing;
mod making;
mod naming;
mod reading;
mod replacing;
mod ruling;
mod state;
mod step;
mod telling;
mod tracking;
mod weights;

pub use state::Core;
