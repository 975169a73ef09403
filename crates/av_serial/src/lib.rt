//! Ticks of a world, one entry after the other.
#![tactic(auto)]

mod runs;
mod schedule;
mod steps;
mod ticks;

pub use runs::{run_ticks, run_ticks_with};
pub use steps::apply;
pub use ticks::{apply_all, tick, turn_all};
