//! The blocks of a world: read, set, and made to wait.
ghost use Rattle.std.specs.Prelude.{◌≡◌, ◌≤◌, ◌<◌, ◌+◌, ℕ, IsTrue, true, false, if◌then◌else◌};
ghost use Rattle.av_types.specs.declared.position.ChunkPos.{ChunkPos};
ghost use Rattle.av_types.specs.declared.position.SectionPos.{SectionPos};
ghost use Rattle.av_types.specs.Positions.{chunk_of, section_of};
ghost use Rattle.av_cells.specs.Positions.{same_chunk};
ghost use Rattle.av_cells.specs.World.{with_number, with_entry_if, listed_if};
ghost use Rattle.av_world.specs.Near.{cells_near};
ghost use Rattle.av_world.specs.Views.{blocks, lists, room, site, CanSetAt};

use crate::chunks::{add_in, offset, set_in};
use crate::worlds::World;
use av_cells::Cells;
use av_types::{Entry, Fault, Pos};

impl World {
    /// Sets a loaded block.
    fn set_number(&mut self, pos: Pos, number: u16)
        requires prepared { CanSetAt self.old (section_of pos) number }
        ensures changed { blocks self.new ≡ with_number (blocks self.old) pos number }
        ensures lists { lists self.new ≡ lists self.old }
        ensures site { site self.new ≡ site self.old }
        ensures room { (c : ChunkPos) → room self.new c ≡ room self.old c }
        ensures prepared { (s : SectionPos) (n : ℕ) → CanSetAt self.old s n
            → CanSetAt self.new s n }
    {
        let at = pos.section();
        let chunk = self.slot_of(at);
        let offset = offset(self.height, at);
        set_in(&mut self.chunks[chunk], offset, pos.place(), number);
    }

    /// Appends the entry of a loaded block that is not pending.
    pub(crate) fn add_new(&mut self, entry: Entry)
        requires loaded { IsTrue ((blocks self.old).loaded entry.pos) }
        requires room { 0 < room self.old (chunk_of entry.pos) }
        requires new { (blocks self.old).pending entry.pos ≡ false }
        ensures changed { blocks self.new ≡ with_entry_if true (blocks self.old) entry }
        ensures lists { lists self.new ≡ listed_if true (lists self.old) entry }
        ensures site { site self.new ≡ site self.old }
        ensures room { (c : ChunkPos) → room self.old c
            ≤ room self.new c + (if same_chunk c (chunk_of entry.pos) then 1 else 0) }
        ensures prepared { (s : SectionPos) (n : ℕ) → CanSetAt self.old s n
            → CanSetAt self.new s n }
    {
        let at = entry.pos.section();
        let chunk = self.slot_of(at);
        let offset = offset(self.height, at);
        add_in(&mut self.chunks[chunk], offset, entry);
    }
}

impl Cells for World {
    ghost world = { blocks };

    ghost lists = { lists };

    ghost room = { λ w p. room w (chunk_of p) };

    ghost can_set = { λ w p n. CanSetAt w (section_of p) n };

    ghost site = { site };

    ghost near = { λ w p h. cells_near w.height w.positions.items w.chunks.items w.lawful p h };

    fn loaded(&self, pos: Pos) -> bool {
        self.section(pos.section()).is_some()
    }

    fn number(&self, pos: Pos) -> u16 {
        match self.section(pos.section()) {
            None => 0,
            Some(section) => section.get(pos.place()),
        }
    }

    #[inline(always)]
    fn number_at(&self, pos: Pos) -> Option<u16> {
        match self.section(pos.section()) {
            None => None,
            Some(section) => Some(section.get(pos.place())),
        }
    }

    fn pending(&self, pos: Pos) -> bool {
        match self.section(pos.section()) {
            None => false,
            Some(section) => section.pending(pos.place()),
        }
    }

    fn set(&mut self, pos: Pos, number: u16) {
        self.set_number(pos, number);
    }

    fn add(&mut self, entry: Entry) -> bool {
        if self.pending(entry.pos) {
            return false;
        }
        self.add_new(entry);
        true
    }

    fn prepare(&mut self, pos: Pos) -> Result<(), Fault> {
        self.prepare_turn(pos)?;
        Ok(())
    }

    fn prepare_set(&mut self, pos: Pos, number: u16) -> Result<(), Fault> {
        self.prepare_one(pos, number)?;
        Ok(())
    }
}
