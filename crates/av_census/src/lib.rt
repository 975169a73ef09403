//! The states of region files, and how many blocks have each.
#![tactic(auto)]

mod blocks;
mod counted;
pub mod counting;
pub mod counts;
pub mod lines;
mod regions;
mod tally;

pub use counting::census;
pub use counts::{Census, StateCount};
pub use lines::listing;
