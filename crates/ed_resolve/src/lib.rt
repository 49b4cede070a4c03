//! Sending: what a carrier sends on to its sources, of all that arrives at it.
#![tactic(auto)]

mod fault;
mod sending;
mod target;

pub use fault::SendFault;
pub use sending::send_down;
