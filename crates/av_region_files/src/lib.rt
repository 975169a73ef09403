//! Region files as values, and their names.
#![tactic(auto)]

pub mod files;
pub mod names;

pub use files::{RegionFile, are_in_limits};
pub use names::region_name;
