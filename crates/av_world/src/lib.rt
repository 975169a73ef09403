//! Chunks as a world that ticks, and parts of it that are moved out and back.
#![tactic(auto)]

mod appending;
mod blocks;
mod carving;
mod chunks;
mod due;
mod finding;
pub mod laws;
mod lending;
mod notes;
pub mod parcels;
mod preparing;
mod slots;
mod turned;
pub mod worlds;

pub use av_cells::{Cells, set_awake};
pub use parcels::Parcel;
pub use worlds::World;
