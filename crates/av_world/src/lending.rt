//! Chunks that are lent out of a world, and taken back.
ghost use Rattle.std.specs.Prelude.{◌≡◌, ◌<◌, ◌||◌, false, true, length, None, All, IfOk, OnOk};
ghost use Rattle.std.specs.List.{AllPairs};
ghost use Rattle.av_types.specs.declared.position.ChunkPos.{ChunkPos};
ghost use Rattle.av_world.specs.declared.worlds.World.{World};
ghost use Rattle.av_cells.specs.Positions.{same_chunk};
ghost use Rattle.av_land.specs.Land.{has_chunk};
ghost use Rattle.av_world.specs.Chunks.{IsChunkOf};
ghost use Rattle.av_world.specs.Index.{slot};
ghost use Rattle.av_world.specs.Inserted.{IsNewChunk};
ghost use Rattle.av_world.specs.Lending.{IsBare, IsExchanged, IsLent, IsTakenBack};
ghost use Rattle.av_world.specs.Views.{grid, height_of, is_broken, lists, positions_of};

use crate::carving::empty_slots;
use crate::worlds::World;
use av_chunk::Chunk;
use av_section::Section;
use av_ticks::TickList;
use av_types::{ChunkPos, Height};
use std::alloc::{AllocError, Global};
use std::mem;

/// Whether a section is out.
fn is_out(section: &Option<Section>) -> bool
    ensures { result ≡ true → section.now ≡ None }
{
    section.is_none()
}

/// Whether all sections are out.
fn are_out(sections: &[Option<Section>]) -> bool
    ensures { result ≡ true → All (λ o. o ≡ None) sections.now }
{
    for section in sections {
        if !is_out(section) {
            return false;
        }
    }
    true
}

/// Whether all sections of a chunk are out, and it has no entries.
fn is_bare(chunk: &Chunk, height: Height) -> bool
    ensures { result ≡ true → IsBare height chunk.now }
{
    chunk.sections.len() == height.sections as usize
        && chunk.ticks.is_empty()
        && are_out(chunk.sections.as_slice())
}

/// A new chunk of which all sections are out, without entries.
fn new_bare(alloc: Global, height: Height) -> Result<Chunk, AllocError>
    ensures { IfOk result (IsBare height) }
{
    let sections = empty_slots(alloc, height.sections as usize)?;
    Ok(Chunk {
        sections,
        ticks: TickList::new(alloc),
    })
}

/// A chunk of which all sections are out, without entries: the last of the spare ones, if it is one, so that no memory is asked
/// for again and again.
fn bare_chunk(spares: &mut Vec<Chunk>, alloc: Global, height: Height) -> Result<Chunk, AllocError>
    ensures { IfOk result (IsBare height) }
{
    if let Some(spare) = spares.pop() {
        if is_bare(&spare, height) {
            return Ok(spare);
        }
    }
    new_bare(alloc, height)
}

/// Keeps a chunk, unless memory is refused: then it goes.
fn keep(spares: &mut Vec<Chunk>, chunk: Chunk) {
    let _ = spares.push(chunk);
}

impl World {
    /// Exchanges a chunk that is there.
    fn exchange_chunk(&mut self, at: ChunkPos, chunk: Chunk) -> Chunk
        requires there { slot (positions_of self.old) at < length (positions_of self.old) }
        requires fits { IsNewChunk at (height_of self.old) chunk }
        ensures exchanged { IsExchanged self.old self.new at chunk }
        ensures out { IsChunkOf self.old at result }
        ensures new { IsNewChunk at (height_of self.old) result }
    {
        let index = self.chunk_slot(at);
        mem::replace(&mut self.chunks[index], chunk)
    }

    /// Makes room for so many chunks more.
    fn make_room(&mut self, count: usize) -> Result<(), AllocError>
        ensures grid { grid self.new ≡ grid self.old }
        ensures lists { lists self.new ≡ lists self.old }
        ensures height { height_of self.new ≡ height_of self.old }
        ensures positions { positions_of self.new ≡ positions_of self.old }
        ensures broken { is_broken self.new ≡ is_broken self.old }
    {
        self.positions.reserve(count)?;
        self.chunks.reserve(count)?;
        Ok(())
    }

    /// Lends a chunk more.
    fn lend_one(&mut self, at: ChunkPos, lent: &mut World) -> Result<(), AllocError>
        requires there { slot (positions_of self.old) at < length (positions_of self.old) }
        requires absent { has_chunk (positions_of lent.old) at ≡ false }
        requires height { height_of lent.old ≡ height_of self.old }
        ensures lent { OnOk result ((old : World) → IsLent old self.old lent.old
            → IsLent old self.new lent.new) }
        ensures chunks { OnOk result ((c : ChunkPos) → has_chunk (positions_of lent.new) c
            ≡ (same_chunk at c || has_chunk (positions_of lent.old) c)) }
        ensures broken { is_broken lent.new ≡ is_broken lent.old }
    {
        let alloc = *self.positions.allocator();
        let bare = bare_chunk(&mut self.spares, alloc, self.height)?;
        let chunk = self.exchange_chunk(at, bare);
        let Ok(()) = lent.insert(at, chunk) else {
            return Err(AllocError);
        };
        Ok(())
    }

    /// Lends chunks that are there, each named once, as a world of their own, which is broken if this one is. Until they are taken
    /// back their sections are out here, and they have no entries.
    ///
    /// # Errors
    /// Where memory is refused. Then chunks may be gone, and the world is to be given up.
    pub fn lend(&mut self, at: &[ChunkPos]) -> Result<World, AllocError>
        requires there { All (λ c. slot (positions_of self.old) c < length (positions_of self.old))
            at.now }
        requires distinct { AllPairs (λ c d. same_chunk c d ≡ false) at.now }
        ensures lent { IfOk result (IsLent self.old self.new) }
        ensures chunks { IfOk result (λ lent. (c : ChunkPos) → has_chunk (positions_of lent) c
            ≡ has_chunk at.now c) }
        ensures broken { IfOk result (λ lent. is_broken lent ≡ is_broken self.old) }
    {
        let mut lent = World::new(*self.positions.allocator(), self.height);
        lent.broken = self.broken;
        lent.make_room(at.len())?;
        for at in at {
            self.lend_one(*at, &mut lent)?;
        }
        Ok(lent)
    }

    /// Takes a lent world's chunks back, as they then are.
    pub fn take_back(&mut self, lent: World)
        requires there { All (λ c. slot (positions_of self.old) c < length (positions_of self.old))
            (positions_of lent) }
        requires height { height_of lent ≡ height_of self.old }
        ensures { IsTakenBack self.old self.new lent }
    {
        let World {
            positions,
            chunks,
            ..
        } = lent;
        let mut index = 0;
        for chunk in chunks {
            let out = self.exchange_chunk(positions[index], chunk);
            keep(&mut self.spares, out);
            index += 1;
        }
    }
}
