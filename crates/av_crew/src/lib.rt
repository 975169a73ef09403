//! Ticks that are turned by several workers.
#![tactic(auto)]

pub mod counts;
pub mod gates;
pub mod jobs;
mod pages;
pub mod parts;
pub mod runs;
pub mod ticking;
pub mod ticks;
pub mod turns;
pub mod workers;

pub use counts::Workers;
pub use gates::{Gate, NoGate, Step};
pub use jobs::{Done, Job};
pub use runs::run_ticks;
pub use ticks::tick;
pub use turns::work;
