//! The block light of chunks: each loaded block's is that of its brightest path, over the whole world.
#![tactic(auto)]

pub mod chunk_light;
pub mod lamps;
pub mod lit;
mod rows;
pub mod sections;

pub use chunk_light::{flood_in, light_in};
pub use lamps::lamps_in;
pub use lit::Lit;
pub use sections::Sections;
