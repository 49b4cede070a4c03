//! Read-only regions of a base buffer, after `IReadOnlyRegion` and `IReadOnlyRegionEdit` of the
//! editor SDK: which edits they deny, and how they move with the text.
#![tactic(auto)]

mod fault;
mod region;
mod regions;

pub use fault::RegionFault;
pub use region::ReadOnlyRegion;
pub use regions::Regions;
