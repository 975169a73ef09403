//! What water does: what comes into a block, and the turn of a block.
#![tactic(auto)]

pub mod coming;
pub mod laws;
mod plan;
mod steps;
pub mod turning;

pub use coming::incoming;
pub use turning::{turn, turn_onto};
