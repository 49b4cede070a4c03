//! All buffers and the graph that they make.
#![tactic(auto)]

mod adding;
mod editing;
mod eliding;
mod judging;
mod listing;
mod making;
mod placing;
mod reading;
mod regions;
mod spanning;
mod spans;
mod stock;

pub use ed_climb::{Group, PlanFault};
pub use ed_landing::BufferEdit;
pub use stock::Stock;
