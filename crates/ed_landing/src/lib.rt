//! Edits of any buffers as the first versions of a group: their pieces are sent down to the bases,
//! and each base that they reach gets a version.
#![tactic(auto)]

mod bases;
mod edits;
mod landings;

pub use ed_descent::BufferEdit;
pub use edits::begun;
