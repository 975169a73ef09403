//! A chunk, and what a document is read as.
use crate::rest::ChunkRest;
use av_section::Section;
use av_ticks::TickList;

/// A chunk's sections and scheduled water ticks.
#[derive(Drop)]
pub struct Chunk {
    /// All sections of the height, the lowest first. None is one that is out.
    pub sections: Vec<Option<Section>>,
    /// The scheduled ticks of its water, in the order of the file.
    pub ticks: TickList,
}

/// What a document is read as.
#[derive(Drop)]
pub enum Reading {
    /// A chunk that is loaded, and what it keeps.
    Full { chunk: Chunk, rest: ChunkRest },
    /// A chunk whose `Status` is not full. Its payload is kept as it is.
    Kept,
}
