//! Block light by a flood, over any blocks that are read through a trait.
//!
//! The light of a block is that of its brightest path (`specs/Light.antt`). A flood settles the blocks of each level
//! before those of the next lower one, and looks only where light can come to the chunk from.
#![tactic(auto)]

pub mod blocks;
pub mod board;
mod buckets;
mod bytes;
mod emit;
mod flood;
pub mod near;
mod sides;
mod spots;

pub use blocks::Blocks;
pub use board::Flood;
pub use flood::flooded;
pub use near::may_be_loaded;
