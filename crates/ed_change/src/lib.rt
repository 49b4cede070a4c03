//! Change lists: the normal form of an edit, the text that a change list leads to, and the way back.
#![tactic(auto)]

mod back;
mod bounds;
mod fault;
mod normal;
mod pending;
mod sorting;
mod text;

pub use back::inverse;
pub use bounds::puts_in_at_most;
pub use fault::ChangeFault;
pub use normal::normalise;
pub use text::apply;
