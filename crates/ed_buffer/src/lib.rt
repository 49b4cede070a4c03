//! Base buffers: versions that follow each other, and the read-only regions that follow them.
#![tactic(auto)]

mod base;
mod fault;
mod planned;

pub use base::Base;
pub use ed_base::{Piece, Side, Trail};
pub use ed_pieces::{TrailRun, Trails};
pub use fault::BaseFault;
pub use planned::BaseStep;
