//! Edits of any buffers, sent down to the bases: what arrives at a projection or an elision buffer is
//! brought together and sent on to its sources, one buffer after another in the reverse of the graph's
//! order, so that all that arrives at one is there before it goes on.
#![tactic(auto)]

mod boxes;
mod descent;
mod edit;
mod fault;
mod passing;

pub use descent::sent_down;
pub use edit::BufferEdit;
pub use fault::DescentFault;
