//! Entries appended to the lists of a world.
ghost use Rattle.std.specs.Prelude.{◌≡◌, ◌≤◌, ◌<◌, ◌+◌, ℕ, replicate, IsTrue, true, false, length, nat_eq, slice_index_or, OnOk, OnErr, IfOk, IfErr, All, if◌then◌else◌};
ghost use Rattle.std.specs.List.{AllPairs};
ghost use Rattle.av_types.specs.declared.fault.Fault.TheVariants.{OutOfMemory, Broken};
ghost use Rattle.av_types.specs.declared.position.ChunkPos.{ChunkPos};
ghost use Rattle.av_types.specs.Positions.{chunk_of, chunk_of_section};
ghost use Rattle.av_cells.specs.Positions.{same_chunk, same_pos};
ghost use Rattle.av_cells.specs.World.{with_entry_if, listed_if, listed_all};
ghost use Rattle.av_world.specs.Appended.{entries_made, with_entries, with_listed};
ghost use Rattle.av_world.specs.Appending.{entered_all, CanAppend, count_at, HasRoomForAll};
ghost use Rattle.av_world.specs.Index.{slot};
ghost use Rattle.av_world.specs.Lands.{land_of};
ghost use Rattle.av_world.specs.Views.{blocks, lists, room, site, positions_of, is_broken, IsWorldKept};

use crate::worlds::World;
use av_types::{Entry, Fault, Made, SectionPos};
use std::alloc::{AllocError, Global};

/// So many zeros.
fn zeros(alloc: Global, count: usize) -> Result<Vec<usize>, AllocError>
    ensures value { IfOk result (λ zeros. zeros.items ≡ replicate count 0) }
{
    vec![in alloc; 0usize; count]
}

/// Counts one more entry of the chunk at an index, if it is there. No count exceeds `most`.
fn count_one(counts: &mut Vec<usize>, index: usize, most: usize)
    requires { index < length counts.old.items → slice_index_or counts.old.items index 0 < most }
    ensures count { length counts.new.items ≡ length counts.old.items }
    ensures each { (k : ℕ) → k < length counts.old.items → slice_index_or counts.new.items k 0
        ≡ (if nat_eq index k then 1 else 0) + slice_index_or counts.old.items k 0 }
{
    if index < counts.len() {
        counts[index] += 1;
    }
}

impl World {
    /// Where a section's chunk stands. It is looked for first where the last one was found.
    fn slot_from(&self, last: usize, at: SectionPos) -> usize
        ensures { result ≡ slot (positions_of self.now) (chunk_of_section at) }
    {
        if last < self.positions.len() && self.positions[last] == at.chunk() {
            return last;
        }
        self.slot_of(at)
    }

    /// How many of these entries each chunk is to get.
    fn count_made(&self, made: &[Made]) -> Result<Vec<usize>, AllocError>
        ensures count { IfOk result (λ counts. length counts.items
            ≡ length (positions_of self.now)) }
        ensures each { IfOk result (λ counts. (k : ℕ) → k < length (positions_of self.now)
            → slice_index_or counts.items k 0 ≡ count_at (positions_of self.now) k (entries_made made.now)) }
    {
        let alloc = *self.positions.allocator();
        let mut counts = zeros(alloc, self.positions.len())?;
        let most = made.len();
        let mut last = 0;
        for one in made {
            let index = self.slot_from(last, one.entry.pos.section());
            count_one(&mut counts, index, most);
            last = index;
        }
        Ok(counts)
    }

    /// Makes room for so many more entries of the chunk at an index.
    fn reserve_count(&mut self, index: usize, count: usize) -> Result<(), AllocError>
        requires { index < length (positions_of self.old) }
        ensures kept { IsWorldKept self.old self.new }
        ensures room { OnOk result ((d : ChunkPos)
            → count ≤ room self.new (slice_index_or (positions_of self.old) index d)) }
    {
        if count == 0 {
            return Ok(());
        }
        let at = self.positions[index];
        self.reserve_chunk(at, count)
    }

    /// Makes room for so many more entries of each chunk.
    fn reserve_counts(&mut self, counts: &[usize]) -> Result<(), AllocError>
        requires { length counts.now ≡ length (positions_of self.old) }
        ensures kept { IsWorldKept self.old self.new }
        ensures room { OnOk result ((k : ℕ) (d : ChunkPos) → k < length counts.now
            → slice_index_or counts.now k 0 ≤ room self.new (slice_index_or (positions_of self.old) k d)) }
    {
        for (index, count) in counts.iter().enumerate() {
            self.reserve_count(index, *count)?;
        }
        Ok(())
    }

    /// Makes room in each list for those of these entries that it is to get.
    fn reserve_made(&mut self, made: &[Made]) -> Result<(), AllocError>
        ensures kept { IsWorldKept self.old self.new }
        ensures room { OnOk result (HasRoomForAll self.new (entries_made made.now)) }
    {
        let counts = self.count_made(made)?;
        self.reserve_counts(counts.as_slice())
    }

    /// Appends the entry of a loaded block that is not pending. Its chunk is then found at once.
    fn add_near(&mut self, entry: Entry)
        requires loaded { IsTrue ((blocks self.old).loaded entry.pos) }
        requires room { 0 < room self.old (chunk_of entry.pos) }
        requires new { (blocks self.old).pending entry.pos ≡ false }
        ensures changed { blocks self.new ≡ with_entry_if true (blocks self.old) entry }
        ensures lists { lists self.new ≡ listed_if true (lists self.old) entry }
        ensures site { site self.new ≡ site self.old }
        ensures room { (c : ChunkPos) → room self.old c
            ≤ room self.new c + (if same_chunk c (chunk_of entry.pos) then 1 else 0) }
    {
        self.look_near(&[entry.pos]);
        self.add_new(entry);
    }

    /// Appends entries, for which there is room.
    fn add_all(&mut self, made: &[Made])
        requires new { CanAppend (blocks self.old) (entries_made made.now) }
        requires room { HasRoomForAll self.old (entries_made made.now) }
        ensures blocks { blocks self.new ≡ entered_all (blocks self.old) (entries_made made.now) }
        ensures lists { lists self.new ≡ listed_all (lists self.old) (entries_made made.now) }
        ensures site { site self.new ≡ site self.old }
    {
        for one in made {
            self.add_near(one.entry);
        }
    }

    /// Appends entries that were made to the lists of their chunks, in the order given. Each is of a loaded block of
    /// which no entry waits, and no two are of one block. A broken world takes any.
    ///
    /// # Errors
    /// `Broken` of a broken world, and else `OutOfMemory`. Also then the world is as before, with what was prepared, and
    /// has room for no fewer entries.
    pub fn append(&mut self, made: &[Made]) -> Result<(), Fault>
        requires loaded { is_broken self.old ≡ false
            → All (λ m. IsTrue ((blocks self.old).loaded m.entry.pos)) made.now }
        requires fresh { is_broken self.old ≡ false
            → All (λ m. (blocks self.old).pending m.entry.pos ≡ false) made.now }
        requires distinct { is_broken self.old ≡ false
            → AllPairs (λ a b. same_pos b.entry.pos a.entry.pos ≡ false) made.now }
        ensures lists { OnOk result (lists self.new
            ≡ listed_all (lists self.old) (entries_made made.now)) }
        ensures blocks { OnOk result (blocks self.new
            ≡ with_entries (blocks self.old) (entries_made made.now)) }
        ensures land { OnOk result (land_of self.new
            ≡ with_listed (land_of self.old) (entries_made made.now)) }
        ensures site { site self.new ≡ site self.old }
        ensures unbroken { OnOk result (is_broken self.old ≡ false) }
        ensures same_blocks { OnErr result (blocks self.new ≡ blocks self.old) }
        ensures same_land { OnErr result (land_of self.new ≡ land_of self.old) }
        ensures kept { OnErr result (IsWorldKept self.old self.new) }
        ensures err { IfErr result (λ e. e ≡ (if is_broken self.old then Broken else OutOfMemory)) }
    {
        if self.broken {
            return Err(Fault::Broken);
        }
        self.reserve_made(made)?;
        self.add_all(made);
        Ok(())
    }
}
