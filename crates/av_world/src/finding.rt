//! Where chunks and sections are found.
ghost use Rattle.std.specs.Prelude.{◌≡◌, ◌<◌, length, slice_get, option_copied, Some, IfSome, IfNone, true, false};
ghost use Rattle.av_types.specs.Positions.{chunk_of_section};
ghost use Rattle.av_types.specs.declared.position.ChunkPos.{ChunkPos};
ghost use Rattle.av_land.specs.Land.{has_chunk};
ghost use Rattle.av_world.specs.Chunks.{IsChunkOf};
ghost use Rattle.av_world.specs.Index.{slot};
ghost use Rattle.av_world.specs.Inserted.{IsFull};
ghost use Rattle.av_world.specs.Lands.{IsUncarved};
ghost use Rattle.av_world.specs.Views.{positions_of, chunks_of, sections, IsWorldKept};

use crate::chunks::layer;
use crate::slots::slot;
use crate::worlds::World;
use av_chunk::Chunk;
use av_section::Section;
use av_types::{ChunkPos, Pos, SectionPos};

/// A number's remainder by 4.
#[inline(always)]
pub(crate) fn fourth(number: i32) -> usize
    ensures { result < 4 }
{
    number.rem_euclid(4) as usize
}

/// The chunks of a square of 4 by 4 have each another of these.
#[inline(always)]
pub(crate) fn near_index(at: ChunkPos) -> usize
    ensures { result < 16 }
{
    fourth(at.x) + 4 * fourth(at.z)
}

impl World {
    /// Where a chunk stands: where it was looked up last for a turn, or else by a search.
    #[inline(always)]
    pub(crate) fn chunk_slot(&self, at: ChunkPos) -> usize
        ensures { result ≡ slot (positions_of self.now) at }
    {
        let near = self.near[near_index(at)];
        if near < self.positions.len() && self.positions[near] == at {
            return near;
        }
        slot(self.positions.as_slice(), at)
    }

    /// Where a section's chunk stands.
    #[inline(always)]
    pub(crate) fn slot_of(&self, at: SectionPos) -> usize
        ensures { result ≡ slot (positions_of self.now) (chunk_of_section at) }
    {
        self.chunk_slot(at.chunk())
    }

    /// Looks the chunks of some blocks up, so that they are found at once.
    pub(crate) fn look_near(&mut self, at: &[Pos])
        ensures { IsWorldKept self.old self.new }
    {
        for at in at {
            let chunk = at.chunk();
            let slot = self.chunk_slot(chunk);
            self.near[near_index(chunk)] = slot;
        }
    }

    /// A section, where it is loaded.
    #[inline(always)]
    pub(crate) fn section(&self, at: SectionPos) -> Option<&Section>
        ensures { option_copied result ≡ sections self.now at }
    {
        let chunk = self.chunks.get(self.slot_of(at))?;
        layer(chunk.sections.as_slice(), self.height, at)
    }

    /// Where a chunk stands among the positions. None is a chunk that was not inserted.
    pub fn index_of(&self, at: ChunkPos) -> Option<usize>
        ensures found { IfSome result (λ index. slice_get (positions_of self.now) index ≡ Some at) }
        ensures there { IfSome result (λ index. has_chunk (positions_of self.now) at ≡ true) }
        ensures absent { IfNone result (has_chunk (positions_of self.now) at ≡ false) }
        ensures free { IfNone result (slot (positions_of self.now) at
            ≡ length (positions_of self.now)) }
    {
        let index = self.chunk_slot(at);
        if index < self.positions.len() {
            Some(index)
        } else {
            None
        }
    }

    /// The chunk at an index, which is that of its position. A section of it may be out.
    pub fn chunk(&self, index: usize) -> &Chunk
        requires { index < length (positions_of self.now) }
        ensures value { slice_get (chunks_of self.now) index ≡ Some result.now }
        ensures contents { (c : ChunkPos) → slice_get (positions_of self.now) index ≡ Some c
            → IsChunkOf self.now c result.now }
        ensures full { IsUncarved self.now → IsFull result.now }
    {
        &self.chunks[index]
    }

    /// All chunks, in the order of the positions. The world is no more.
    pub fn into_chunks(self) -> Vec<Chunk>
        ensures { result.items ≡ chunks_of self }
    {
        let World { chunks, .. } = self;
        chunks
    }
}
