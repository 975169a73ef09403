//! The types that all crates share: positions in the world, scheduled ticks, water and faults.
#![tactic(auto)]

pub mod fault;
pub mod laws;
pub mod limits;
pub mod position;
pub mod tick;
pub mod water;

pub use fault::Fault;
pub use limits::{MOST_FILES, MOST_TICKS, MOST_WORKERS};
pub use position::{ChunkPos, Height, Place, Pos, RegionPos, SectionPos};
pub use tick::{Entry, Made};
pub use water::{Direction, Wet};
