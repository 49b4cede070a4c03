//! Units that stay across a step, run by run: those of a change list, and the change list between two
//! texts of which some units stay.
#![tactic(auto)]

mod between;
mod kept;

pub use between::changes_between;
pub use kept::{KeptRun, kept_by};
