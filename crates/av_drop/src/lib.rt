//! How far it is from a block to a drop: the nearest block where water can go down, over open or flowing blocks.
#![tactic(auto)]

mod around;
mod board;
mod fronts;
pub mod search;

pub use search::{Sides, drop_distance, nearest_sides};
