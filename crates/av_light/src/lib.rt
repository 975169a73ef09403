//! The block light of a world's chunks: each loaded block's is that of its brightest path, over the whole world.
#![tactic(auto)]

mod all;
mod around;
mod chunk_light;
mod dealt;
mod finding;
mod lamps;
mod near;

pub use all::light_all;
pub use av_flood::Flood;
pub use chunk_light::{flood, light_of_chunk};
