//! Chunks, read from the documents that denote them and written to them (<https://minecraft.wiki/w/Chunk_format>).
#![tactic(auto)]

pub mod block;
mod index;
pub mod payload;
pub mod reading;
pub mod writing;

pub use block::block_at;
pub use payload::read_payload;
pub use reading::{read_chunk, read_known};
pub use writing::write_chunk;
