//! Region files as a world and a rest, and back.
#![tactic(auto)]

mod reading;
mod rest;
mod writing;

pub use av_region_files::RegionFile;
pub use reading::loading::load;
pub use rest::{RegionRest, Rest, Slot};
pub use writing::saving::save;
