//! The graph of buffers: who stands on whom, how high, and in which order.
#![tactic(auto)]

mod fault;
mod graph;
mod heights;
mod ordering;
mod reaching;
mod rows;

pub use fault::LinkFault;
pub use graph::Graph;
