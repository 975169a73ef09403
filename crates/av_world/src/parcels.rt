//! Parcels: sections that are out of a world, with the entries that were put aside for it.
ghost use Rattle.std.specs.Prelude.{◌≡◌, ◌≤◌, ◌<◌, ◌+◌, ℕ, IsTrue, IsOk, true, false, length, option_copied, OnOk, All, [], ◌∷◌};
ghost use Rattle.std.proofs.Props.{props};
ghost use Rattle.av_ticks.specs.Ticks.{entries};
ghost use Rattle.av_types.specs.declared.position.SectionPos.{SectionPos};
ghost use Rattle.av_world.specs.Parcels.{IsParcel, AreAbsent, AreMarked};
ghost use Rattle.av_world.specs.Parts.{index};

use crate::chunks::{append, prepare_slot, set_slot};
use crate::notes::{Notes, near_index};
use crate::turned::{corners, turned};
use av_cells::Cells;
use av_section::Section;
use av_ticks::TickList;
use av_types::{Entry, Fault, Pos, SectionPos};
use std::alloc::AllocError;

/// Sections that are out of a world. What is added to it is put aside.
#[derive(Drop)]
pub struct Parcel {
    pub(crate) positions: Vec<SectionPos>,
    pub(crate) sections: Vec<Option<Section>>,
    pub(crate) aside: TickList,
    pub(crate) notes: Box<Notes>,
    pub ghost lawful: { IsParcel positions.items sections.items (entries aside) } by { Prim.hlevel props },
    pub ghost nowhere: { AreAbsent positions.items notes.value.absent } by { Prim.hlevel props },
    pub ghost marked: { AreMarked (entries aside) notes.value.marks } by { Prim.hlevel props },
}

/// The index of a section, and the length where it is not there.
fn index(positions: &[SectionPos], at: SectionPos) -> usize
    ensures { result ≡ index positions.now at }
{
    for (index, position) in positions.iter().enumerate() {
        if *position == at {
            return index;
        }
    }
    positions.len()
}

impl Parcel {
    ghost use Rattle.av_types.specs.declared.position.Pos.{Pos};
    ghost use Rattle.av_types.specs.declared.position.SectionPos.{SectionPos};
    ghost use Rattle.av_types.specs.Positions.{section_of};
    ghost use Rattle.av_cells.specs.Positions.{IsNearOrigin};
    ghost use Rattle.av_cells.specs.Grid.{is_here};
    ghost use Rattle.av_cells.specs.World.{with_number, with_entry_if, listed_if};
    ghost use Rattle.av_ticks.specs.Entries.{is_pending};
    ghost use Rattle.av_world.specs.ParcelViews.{parts, kept_grid, aside, blocks, lists, room, CanSetAt, CanSetAll, IsParcelKept};
    ghost use Rattle.av_world.specs.Turned.{turned};

    /// Where a section stands, by a search, unless it was looked up last and is not there.
    #[inline(never)]
    fn search(&self, at: SectionPos) -> usize
        ensures { result ≡ index self.now.positions.items at }
    {
        if self.notes.absent[near_index(at)] == at {
            return self.positions.len();
        }
        index(self.positions.as_slice(), at)
    }

    /// Where a section stands: where it was looked up last for a turn, or else by a search.
    #[inline(always)]
    fn slot_of(&self, at: SectionPos) -> usize
        ensures { result ≡ index self.now.positions.items at }
    {
        let near = self.notes.near[near_index(at)];
        if near < self.positions.len() && self.positions[near] == at {
            return near;
        }
        self.search(at)
    }

    /// Notes where a section stands, so that it is found at once.
    fn note(&mut self, section: SectionPos, slot: usize)
        requires { slot ≡ index self.old.positions.items section }
        ensures { IsParcelKept self.old self.new }
    {
        let cell = near_index(section);
        self.notes.near[cell] = slot;
        if slot == self.positions.len() {
            self.notes.absent[cell] = section;
        }
    }

    /// Looks the sections of some blocks up, so that they are found at once.
    fn look_near(&mut self, at: &[Pos])
        ensures { IsParcelKept self.old self.new }
    {
        for at in at {
            let section = at.section();
            let slot = self.slot_of(section);
            self.note(section, slot);
        }
    }

    /// A section, where it is there.
    #[inline(always)]
    fn section(&self, at: SectionPos) -> Option<&Section>
        ensures { option_copied result ≡ parts self.now at }
    {
        let index = self.slot_of(at);
        if index < self.sections.len() {
            self.sections[index].as_ref()
        } else {
            None
        }
    }

    /// Sets a block.
    fn set_number(&mut self, pos: Pos, number: u16)
        requires prepared { CanSetAt self.old (section_of pos) number }
        ensures changed { blocks self.new ≡ with_number (blocks self.old) pos number }
        ensures lists { lists self.new ≡ lists self.old }
        ensures room { room self.new ≡ room self.old }
        ensures prepared { (s : SectionPos) (n : ℕ) → CanSetAt self.old s n
            → CanSetAt self.new s n }
    {
        let index = self.slot_of(pos.section());
        set_slot(&mut self.sections[index], pos.place(), number);
    }

    /// Whether an entry of a block was put aside. Most blocks of which none was are known by their place, at once.
    #[inline(always)]
    fn has_aside(&self, pos: Pos) -> bool
        ensures { result ≡ is_pending pos (aside self.now) }
    {
        self.notes.marks.contains(pos.place()) && self.aside.has(pos)
    }

    /// Puts the entry of a block aside that is not pending.
    fn add_new(&mut self, entry: Entry)
        requires room { 0 < room self.old }
        requires new { (blocks self.old).pending entry.pos ≡ false }
        ensures changed { blocks self.new ≡ with_entry_if true (blocks self.old) entry }
        ensures lists { lists self.new ≡ listed_if true (lists self.old) entry }
        ensures room { room self.old ≤ room self.new + 1 }
        ensures prepared { (s : SectionPos) (n : ℕ) → CanSetAt self.old s n
            → CanSetAt self.new s n }
    {
        self.notes.marks.insert(entry.pos.place());
        append(&mut self.aside, entry);
    }

    /// Makes room for so many more entries.
    fn reserve_aside(&mut self, count: usize) -> Result<(), AllocError>
        ensures kept { IsParcelKept self.old self.new }
        ensures room { OnOk result (count ≤ room self.new) }
        ensures succeeds { count ≤ room self.old → IsOk result }
    {
        if self.aside.reserve_indexed(count).is_err() {
            return Err(AllocError);
        }
        Ok(())
    }

    /// Makes room for numbers in a section, where it is there.
    fn prepare_section(&mut self, at: SectionPos, numbers: &[u16]) -> Result<(), AllocError>
        ensures kept { IsParcelKept self.old self.new }
        ensures prepared { OnOk result (IsTrue (is_here (kept_grid self.new at))
            → All (CanSetAt self.new at) numbers.now) }
        ensures succeeds { (IsTrue (is_here (kept_grid self.old at))
            → All (CanSetAt self.old at) numbers.now) → IsOk result }
    {
        let index = self.slot_of(at);
        if index >= self.sections.len() {
            return Ok(());
        }
        prepare_slot(&mut self.sections[index], numbers)
    }

    /// Makes room for numbers in a section, where it is there, unless it is one that has room for them.
    fn prepare_other(
        &mut self,
        at: SectionPos,
        ready: SectionPos,
        numbers: &[u16],
    ) -> Result<(), AllocError>
        requires ready { IsTrue (is_here (kept_grid self.old ready))
            → All (CanSetAt self.old ready) numbers.now }
        ensures kept { IsParcelKept self.old self.new }
        ensures prepared { OnOk result (IsTrue (is_here (kept_grid self.new at))
            → All (CanSetAt self.new at) numbers.now) }
        ensures succeeds { (IsTrue (is_here (kept_grid self.old at))
            → All (CanSetAt self.old at) numbers.now) → IsOk result }
    {
        if at == ready {
            return Ok(());
        }
        self.prepare_section(at, numbers)
    }

    /// Makes room for numbers in the sections of some blocks, where they are there. Most are that of the first block.
    fn prepare_all(&mut self, at: &[Pos], numbers: &[u16]) -> Result<(), AllocError>
        requires { 0 < length at.now }
        ensures kept { IsParcelKept self.old self.new }
        ensures prepared { OnOk result (All (CanSetAll self.new numbers.now) at.now) }
        ensures succeeds { All (CanSetAll self.old numbers.now) at.now → IsOk result }
    {
        let first = at[0].section();
        self.prepare_section(first, numbers)?;
        for pos in at {
            self.prepare_other(pos.section(), first, numbers)?;
        }
        Ok(())
    }

    /// Makes room for the next turn of a block.
    fn prepare_turn(&mut self, pos: Pos) -> Result<(), AllocError>
        requires { IsNearOrigin pos }
        ensures kept { IsParcelKept self.old self.new }
        ensures room { OnOk result (42 ≤ room self.new) }
        ensures prepared { OnOk result (All (CanSetAll self.new
            (0 ∷ 1 ∷ 2 ∷ 3 ∷ 4 ∷ 5 ∷ 6 ∷ 7 ∷ 8 ∷ 9 ∷ [])) (turned pos)) }
        ensures succeeds { 42 ≤ room self.old → All
            (CanSetAll self.old (0 ∷ 1 ∷ 2 ∷ 3 ∷ 4 ∷ 5 ∷ 6 ∷ 7 ∷ 8 ∷ 9 ∷ [])) (turned pos)
            → IsOk result }
    {
        self.look_near(&corners(pos));
        self.reserve_aside(42)?;
        self.prepare_all(&turned(pos), &[0, 1, 2, 3, 4, 5, 6, 7, 8, 9])
    }

    /// Makes room for the next set of a block with its waking.
    fn prepare_one(&mut self, pos: Pos, number: u16) -> Result<(), AllocError>
        ensures kept { IsParcelKept self.old self.new }
        ensures room { OnOk result (7 ≤ room self.new) }
        ensures prepared { OnOk result (CanSetAll self.new (number ∷ []) pos) }
        ensures succeeds { 7 ≤ room self.old → CanSetAll self.old (number ∷ []) pos → IsOk result }
    {
        self.reserve_aside(7)?;
        self.prepare_section(pos.section(), &[number])
    }
}

impl Cells for Parcel {
    ghost use Rattle.av_types.specs.Positions.{section_of};
    ghost use Rattle.av_world.specs.ParcelViews.{blocks, lists, room, site, CanSetAt};
    ghost use Rattle.av_world.specs.Parcels.{parcel_near};

    ghost world = { blocks };

    ghost lists = { lists };

    ghost room = { λ c _. room c };

    ghost can_set = { λ c p n. CanSetAt c (section_of p) n };

    ghost site = { site };

    ghost near = { λ c p h. parcel_near c.positions.items c.sections.items (entries c.aside) c.lawful p h };

    fn loaded(&self, pos: Pos) -> bool {
        self.section(pos.section()).is_some()
    }

    fn number(&self, pos: Pos) -> u16 {
        match self.section(pos.section()) {
            None => 0,
            Some(section) => section.get(pos.place()),
        }
    }

    #[inline(always)]
    fn number_at(&self, pos: Pos) -> Option<u16> {
        match self.section(pos.section()) {
            None => None,
            Some(section) => Some(section.get(pos.place())),
        }
    }

    fn pending(&self, pos: Pos) -> bool {
        if self.has_aside(pos) {
            return true;
        }
        match self.section(pos.section()) {
            None => false,
            Some(section) => section.pending(pos.place()),
        }
    }

    fn set(&mut self, pos: Pos, number: u16) {
        self.set_number(pos, number);
    }

    fn add(&mut self, entry: Entry) -> bool {
        if self.pending(entry.pos) {
            return false;
        }
        self.add_new(entry);
        true
    }

    fn prepare(&mut self, pos: Pos) -> Result<(), Fault> {
        self.prepare_turn(pos)?;
        Ok(())
    }

    fn prepare_set(&mut self, pos: Pos, number: u16) -> Result<(), Fault> {
        self.prepare_one(pos, number)?;
        Ok(())
    }
}
