//! The program `anvilwater` below its `main`: from the words that it was called with to what it prints and its status.
#![tactic(auto)]

mod dry_run;
pub mod program;
mod running;

pub use program::run;
