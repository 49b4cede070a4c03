//! A lock whose holders take turns by tickets, over any machine that is stepped under it. It is the ticket lock of
//! Mellor-Crummey and Scott, Algorithms for Scalable Synchronization on Shared-Memory Multiprocessors (1991).
//!
//! The lock keeps the machine, the history of the calls that were made, and a flag that shuts it. What threads did is
//! one legal history, in which each call got the machine's own reply.
#![tactic(auto)]

mod calls;
mod closing;
mod fault;
mod joining;
mod lock;
mod machine;
mod making;
mod ready;
mod seats;
mod shutting;
mod steps;
mod twice;
mod view;

pub use fault::CallFault;
pub use machine::Machine;
pub use seats::{Seat, Turns};
pub use twice::Twice;
