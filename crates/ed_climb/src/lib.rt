//! Groups of new versions: from the first ones, which a command makes by itself, up through the
//! buffers that stand over them, to a group that is planned, or to the first limit that it passes.
#![tactic(auto)]

mod adding_up;
mod beginning;
mod climbing;
mod counts;
mod fault;
mod group;
mod grouping;
mod limits;
mod making;
mod members;
mod rising;
mod sources;

pub use adding_up::is_tracked;
pub use beginning::FirstMoves;
pub use climbing::add;
pub use counts::Counts;
pub use fault::PlanFault;
pub use group::Group;
pub use grouping::group_from;
pub use limits::{members_limit, new_limit, units_limit};
pub use sources::newest;
