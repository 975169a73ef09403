//! A world: chunks in order, with the entries of their scheduled water ticks.
ghost use Rattle.std.specs.Prelude.{◌≡◌, false, true, length, None, OnOk, OnErr, IfErr, []};
ghost use Rattle.std.proofs.Props.{props};
ghost use Rattle.av_types.specs.declared.fault.Fault.TheVariants.{OutOfMemory};
ghost use Rattle.av_ticks.specs.Ticks.{entries};
ghost use Rattle.av_world.specs.Index.{IsRising};
ghost use Rattle.av_world.specs.Lawful.{IsWorld};

use crate::slots::{insert_at, insertion_index};
use av_chunk::Chunk;
use av_types::{ChunkPos, Fault, Height};
use std::alloc::Global;

/// The chunks that are loaded, in order of their positions by z and then by x. A section of one may be out.
#[derive(Drop)]
pub struct World {
    pub(crate) height: Height,
    pub(crate) positions: Vec<ChunkPos>,
    pub(crate) chunks: Vec<Chunk>,
    pub(crate) broken: bool,

    /// Where the chunks stand that were looked up last, by their x and z modulo 4. A look-up checks it.
    pub(crate) near: [usize; 16],

    /// Chunks that came out where others were taken back. Those without sections and entries are used again where chunks are lent.
    pub(crate) spares: Vec<Chunk>,
    pub ghost lawful: { IsWorld height positions.items chunks.items } by { Prim.hlevel props },
}

impl World {
    ghost use Rattle.av_types.specs.declared.position.ChunkPos.{ChunkPos};
    ghost use Rattle.av_types.specs.declared.position.SectionPos.{SectionPos};
    ghost use Rattle.av_types.specs.Positions.{region_of, IsInLimits};
    ghost use Rattle.av_world.specs.Index.{slot};
    ghost use Rattle.av_world.specs.Inserted.{IsNewChunk, IsFull, Inserts, chunk_grid, with_chunk, with_list};
    ghost use Rattle.av_world.specs.Lands.{land_of, IsUncarved};
    ghost use Rattle.av_world.specs.Views.{height_of, positions_of, is_broken, grid, lists};

    /// A world without chunks.
    pub fn new(alloc: Global, height: Height) -> World
        ensures grid { (s : SectionPos) → grid result s ≡ None }
        ensures height { height_of result ≡ height }
        ensures broken { is_broken result ≡ false }
        ensures positions { positions_of result ≡ [] }
        ensures lists { (c : ChunkPos) → lists result c ≡ [] }
        ensures whole { IsUncarved result }
    {
        World {
            height,
            positions: Vec::new(alloc),
            chunks: Vec::new(alloc),
            broken: false,
            near: [0; 16],
            spares: Vec::new(alloc),
        }
    }

    /// Puts a chunk into the world, at a position within the limits where none is.
    ///
    /// # Errors
    /// `OutOfMemory`. Then the world is as before, and the chunk is dropped.
    pub fn insert(&mut self, at: ChunkPos, chunk: Chunk) -> Result<(), Fault>
        requires limits { IsInLimits (region_of at) }
        requires absent { slot (positions_of self.old) at ≡ length (positions_of self.old) }
        requires fits { IsNewChunk at (height_of self.old) chunk }
        ensures grid { OnOk result (grid self.new ≡ with_chunk (grid self.old) at
            (chunk_grid (height_of self.old) chunk)) }
        ensures lists { OnOk result (lists self.new
            ≡ with_list (lists self.old) at (entries chunk.ticks)) }
        ensures positions { OnOk result (Inserts (positions_of self.old) at
            (positions_of self.new)) }
        ensures height { height_of self.new ≡ height_of self.old }
        ensures broken { is_broken self.new ≡ is_broken self.old }
        ensures whole { OnOk result (IsUncarved self.old → IsFull chunk → IsUncarved self.new) }
        ensures same_grid { OnErr result (grid self.new ≡ grid self.old) }
        ensures same_lists { OnErr result (lists self.new ≡ lists self.old) }
        ensures same_positions { OnErr result (positions_of self.new ≡ positions_of self.old) }
        ensures memory { IfErr result (λ e. e ≡ OutOfMemory) }
    {
        let index = insertion_index(self.positions.as_slice(), at);
        self.positions.reserve(1)?;
        self.chunks.reserve(1)?;
        insert_at(&mut self.positions, index, at);
        insert_at(&mut self.chunks, index, chunk);
        Ok(())
    }

    /// The positions of the chunks that were inserted, by z and then by x.
    pub fn positions(&self) -> &[ChunkPos]
        ensures value { result.now ≡ positions_of self.now }
        ensures rising { IsRising result.now }
    {
        self.positions.as_slice()
    }

    /// The height.
    pub fn height(&self) -> Height
        ensures { result ≡ height_of self.now }
    {
        self.height
    }

    /// Whether the world is broken: a tick ran out of memory.
    pub fn broken(&self) -> bool
        ensures { result ≡ is_broken self.now }
    {
        self.broken
    }

    /// Breaks the world, as a tick does that runs out of memory. Its chunks and lists stay as they are.
    pub fn give_up(&mut self)
        ensures broken { is_broken self.new ≡ true }
        ensures grid { grid self.new ≡ grid self.old }
        ensures land { land_of self.new ≡ land_of self.old }
    {
        self.broken = true;
    }
}
