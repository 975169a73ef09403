//! What a chunk keeps beside its cells, its water entries and its light.
ghost use Rattle.av_document.specs.Stored.{WasRead};
ghost use Rattle.av_chunk.specs.Rest.{rest_with};

use av_tags::{Named, Tag};
use av_types::{ChunkPos, Height};

/// What a section keeps.
#[derive(Drop)]
pub struct SectionTags {
    /// Its tags in order, with `block_states` and `BlockLight` as empty tags.
    pub tags: Vec<Named>,
    /// The tags of `block_states` other than `palette` and `data`.
    pub states: Vec<Named>,
}

/// A section out of the height, as it was read.
#[derive(Drop)]
pub struct OutsideSection {
    /// Its number, the Byte `Y`.
    pub y: i8,
    /// All its tags in order.
    pub tags: Vec<Named>,
}

/// All that a loaded chunk's document has beside cells, water entries and light, so that it can be written as it was.
/// It was read from a document that a region file's sectors can hold.
///
/// An empty tag is a Byte under the name of the tag that stood there, or that is absent and comes last.
#[derive(Drop)]
pub struct ChunkRest {
    /// The position that the chunk was read at.
    pub pos: ChunkPos,
    /// The height that it was read with.
    pub height: Height,
    /// The root's name.
    pub name: Vec<u8>,
    /// The root's tags in order, with `sections` and `fluid_ticks` as empty tags.
    pub tags: Vec<Named>,
    /// The entries of `fluid_ticks` that are no water, in order.
    pub foreign: Vec<Tag>,
    /// For each section of the height, the lowest first, what it keeps, or None where it is missing.
    pub sections: Vec<Option<SectionTags>>,
    /// The sections out of the height, in the order of the file.
    pub outside: Vec<OutsideSection>,
    pub ghost was_read: { ∥ WasRead pos height (rest_with height name.items tags.items foreign.items sections.items outside.items) ∥₁ },
}
