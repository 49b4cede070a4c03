//! Members of projections: texts of their own, and tracked spans of sources, in order on each
//! source, which go along when their sources step.
#![tactic(auto)]

mod conflicts;
mod copies;
mod fault;
mod held;
mod members;
mod modes;
mod moving;
mod nexts;
mod sorted;
mod starts;
mod steps;
mod sweeps;
mod ways;

pub use fault::MemberFault;
pub use members::Members;
pub use starts::are_short;
pub use steps::SourceStep;
