//! Room for turns and sets to come.
ghost use Rattle.std.specs.Prelude.{◌≡◌, ◌≤◌, ◌<◌, length, true, IsTrue, IsOk, OnOk, All, [], ◌∷◌};
ghost use Rattle.av_cells.specs.Grid.{is_here};
ghost use Rattle.av_cells.specs.Positions.{IsNearOrigin, around};
ghost use Rattle.av_world.specs.Turned.{corners, turned, HasRoomAt, HasChunkRoom, CanSetAll};
ghost use Rattle.av_world.specs.Index.{slot};
ghost use Rattle.av_world.specs.Views.{grid, blocks, room, positions_of, CanSetAt, IsWorldKept};

use crate::chunks::{is_high, offset, prepare_in, reserve_in};
use crate::turned::{around, corners, turned};
use crate::worlds::World;
use av_types::{ChunkPos, Pos, SectionPos};
use std::alloc::AllocError;

impl World {
    /// Makes room for so many more entries of a chunk, where it is there.
    pub(crate) fn reserve_chunk(&mut self, at: ChunkPos, count: usize) -> Result<(), AllocError>
        ensures kept { IsWorldKept self.old self.new }
        ensures room { OnOk result (slot (positions_of self.old) at < length (positions_of self.old)
            → count ≤ room self.new at) }
        ensures succeeds { count ≤ room self.old at → IsOk result }
    {
        let chunk = self.chunk_slot(at);
        if chunk >= self.chunks.len() {
            return Ok(());
        }
        reserve_in(&mut self.chunks[chunk], count)
    }

    /// Makes room for so many more entries of a block's chunk, where the block is loaded. Whether it is loaded is asked only
    /// where memory ran out.
    fn reserve_at(&mut self, at: Pos, count: usize) -> Result<(), AllocError>
        ensures kept { IsWorldKept self.old self.new }
        ensures room { OnOk result (HasRoomAt self.new count at) }
        ensures succeeds { HasRoomAt self.old count at → IsOk result }
    {
        let section = at.section();
        let Err(refused) = self.reserve_chunk(section.chunk(), count) else {
            return Ok(());
        };
        if self.section(section).is_none() {
            return Ok(());
        }
        Err(refused)
    }

    /// Makes room for so many more entries of the chunks of some blocks, where they are loaded.
    fn reserve_all(&mut self, at: &[Pos], count: usize) -> Result<(), AllocError>
        ensures kept { IsWorldKept self.old self.new }
        ensures room { OnOk result (All (HasRoomAt self.new count) at.now) }
        ensures succeeds { All (HasRoomAt self.old count) at.now → IsOk result }
    {
        for at in at {
            self.reserve_at(*at, count)?;
        }
        Ok(())
    }

    /// Makes room for so many more entries of the chunks of some blocks, where these are there, and says whether that
    /// was done.
    fn reserve_chunks(&mut self, at: &[Pos], count: usize) -> bool
        ensures kept { IsWorldKept self.old self.new }
        ensures room { result ≡ true → All (HasChunkRoom self.new count) at.now }
    {
        for at in at {
            let reserved = self.reserve_chunk(at.chunk(), count);
            if reserved.is_err() {
                return false;
            }
        }
        true
    }

    /// Makes room for the entries of a turn in the chunks of a block's reach, which are looked up for it.
    fn reserve_reach(&mut self, pos: Pos) -> Result<(), AllocError>
        requires { IsNearOrigin pos }
        ensures kept { IsWorldKept self.old self.new }
        ensures room { OnOk result (All (HasRoomAt self.new 42) (corners pos)) }
        ensures succeeds { All (HasRoomAt self.old 42) (corners pos) → IsOk result }
    {
        let corners = corners(pos);
        // The upper corners are in the chunks of the lower ones.
        self.look_near(&corners[..4]);
        let reserved = self.reserve_chunks(&corners[..4], 42);
        if reserved {
            return Ok(());
        }
        self.reserve_all(&corners, 42)
    }

    /// Makes room for numbers in a section, where it is loaded.
    fn prepare_section(&mut self, at: SectionPos, numbers: &[u16]) -> Result<(), AllocError>
        ensures kept { IsWorldKept self.old self.new }
        ensures prepared { OnOk result (IsTrue (is_here (grid self.new at))
            → All (CanSetAt self.new at) numbers.now) }
        ensures succeeds { (IsTrue (is_here (grid self.old at))
            → All (CanSetAt self.old at) numbers.now) → IsOk result }
    {
        let chunk = self.slot_of(at);
        if chunk >= self.chunks.len() {
            return Ok(());
        }
        if !is_high(self.height, at) {
            return Ok(());
        }
        let offset = offset(self.height, at);
        prepare_in(&mut self.chunks[chunk], offset, numbers)
    }

    /// Makes room for numbers in a section, where it is loaded, unless it is one that has room for them.
    fn prepare_other(
        &mut self,
        at: SectionPos,
        ready: SectionPos,
        numbers: &[u16],
    ) -> Result<(), AllocError>
        requires ready { IsTrue (is_here (grid self.old ready))
            → All (CanSetAt self.old ready) numbers.now }
        ensures kept { IsWorldKept self.old self.new }
        ensures prepared { OnOk result (IsTrue (is_here (grid self.new at))
            → All (CanSetAt self.new at) numbers.now) }
        ensures succeeds { (IsTrue (is_here (grid self.old at))
            → All (CanSetAt self.old at) numbers.now) → IsOk result }
    {
        if at == ready {
            return Ok(());
        }
        self.prepare_section(at, numbers)
    }

    /// Makes room for numbers in the sections of some blocks, where they are loaded. Most are that of the first block.
    fn prepare_all(&mut self, at: &[Pos], numbers: &[u16]) -> Result<(), AllocError>
        requires { 0 < length at.now }
        ensures kept { IsWorldKept self.old self.new }
        ensures prepared { OnOk result (All (CanSetAll self.new numbers.now) at.now) }
        ensures succeeds { All (CanSetAll self.old numbers.now) at.now → IsOk result }
    {
        let first = at[0].section();
        self.prepare_section(first, numbers)?;
        for pos in at {
            self.prepare_other(pos.section(), first, numbers)?;
        }
        Ok(())
    }

    /// Makes room for the next turn of a block.
    pub(crate) fn prepare_turn(&mut self, pos: Pos) -> Result<(), AllocError>
        requires { IsNearOrigin pos }
        ensures kept { IsWorldKept self.old self.new }
        ensures room { OnOk result (All (HasRoomAt self.new 42) (corners pos)) }
        ensures prepared { OnOk result (All (CanSetAll self.new
            (0 ∷ 1 ∷ 2 ∷ 3 ∷ 4 ∷ 5 ∷ 6 ∷ 7 ∷ 8 ∷ 9 ∷ [])) (turned pos)) }
        ensures succeeds { All (HasRoomAt self.old 42) (corners pos)
            → All (CanSetAll self.old (0 ∷ 1 ∷ 2 ∷ 3 ∷ 4 ∷ 5 ∷ 6 ∷ 7 ∷ 8 ∷ 9 ∷ [])) (turned pos) → IsOk result }
    {
        self.reserve_reach(pos)?;
        self.prepare_all(&turned(pos), &[0, 1, 2, 3, 4, 5, 6, 7, 8, 9])
    }

    /// Makes room for the next set of a block with its waking.
    pub(crate) fn prepare_one(&mut self, pos: Pos, number: u16) -> Result<(), AllocError>
        requires { IsNearOrigin pos }
        ensures kept { IsWorldKept self.old self.new }
        ensures room { OnOk result (All (HasRoomAt self.new 7) (around pos)) }
        ensures prepared { OnOk result (CanSetAll self.new (number ∷ []) pos) }
        ensures succeeds { All (HasRoomAt self.old 7) (around pos)
            → CanSetAll self.old (number ∷ []) pos → IsOk result }
    {
        let around = around(pos);
        self.look_near(&around);
        self.reserve_all(&around, 7)?;
        self.prepare_section(pos.section(), &[number])
    }
}
