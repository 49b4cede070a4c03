//! A buffer of any kind: its versions, the next one planned and made, what it can be asked and its
//! read-only regions. Nothing here knows other buffers but by their snapshots and steps.
#![tactic(auto)]

mod advances;
mod elides;
mod held;
mod lands;
mod moves;
mod respans;

pub use advances::planned;
pub use elides::rehide;
pub use held::Held;
pub use lands::landing;
pub use moves::{Move, Planned};
pub use respans::{members_with, respan};
