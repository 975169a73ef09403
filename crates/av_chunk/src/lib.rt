//! Chunks in memory: their sections and scheduled ticks, what else their documents have, and their light.
#![tactic(auto)]

pub mod chunk;
pub mod light;
pub mod rest;

pub use chunk::{Chunk, Reading};
pub use light::ChunkLight;
pub use rest::{ChunkRest, OutsideSection, SectionTags};
