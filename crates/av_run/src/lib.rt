//! A run of the whole program: region files, a block table and edits in, region files out.
#![tactic(auto)]

pub mod checked;
mod counts;
pub mod input;
mod release;
mod runs;
mod writing;

pub use av_answers::{Outcome, Ran};
pub use av_region_files::RegionFile;
pub use checked::{read_input, run, run_checked};
pub use input::Input;
