//! Sections of a chunk: the block states of 16 blocks a side
//! (<https://minecraft.wiki/w/Chunk_format>).
#![tactic(auto)]

mod indices;
pub mod known;
pub mod numbering;
mod order;
mod palette;
mod preparing;
pub mod section;
mod writing;

pub use known::KnownStates;
pub use numbering::Numbering;
pub use section::Section;
