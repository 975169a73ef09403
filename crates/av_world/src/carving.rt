//! Sections taken out of a world, and put back.
ghost use Rattle.std.specs.Prelude.{◌≡◌, IsTrue, false, None, length, OnOk, OnErr, IfOk, IfErr, All, [], if◌then◌else◌};
ghost use Rattle.std.specs.List.{AllPairs};
ghost use Rattle.av_types.specs.declared.fault.Fault.TheVariants.{OutOfMemory, Broken};
ghost use Rattle.av_types.specs.declared.position.SectionPos.{SectionPos};
ghost use Rattle.av_cells.specs.Grid.{is_here, with_filling, among, only, without, over, cells_of};
ghost use Rattle.av_cells.specs.Positions.{same_section};
ghost use Rattle.av_world.specs.Lawful.{IsTied};
ghost use Rattle.av_world.specs.OutOf.{IsPartOf, put_filling, mended, IsWorldSection};
ghost use Rattle.av_world.specs.ParcelViews.{kept_grid, aside, blocks as parcel_blocks, lists as parcel_lists};
ghost use Rattle.av_world.specs.Parts.{part_grid, IsTiedIn};
ghost use Rattle.av_world.specs.Sections.{filling_in};
ghost use Rattle.av_world.specs.Views.{sections, grid, blocks, lists, height_of, positions_of, is_broken, IsSameButBlocks, IsWorldKept};

use crate::chunks::{exchange_in, offset};
use crate::finding::near_index;
use crate::notes::Notes;
use crate::parcels::Parcel;
use crate::worlds::World;
use av_section::Section;
use av_ticks::TickList;
use av_types::{Fault, SectionPos};
use std::alloc::{AllocError, Global};

/// So many slots without sections.
pub(crate) fn empty_slots(alloc: Global, count: usize) -> Result<Vec<Option<Section>>, AllocError>
    ensures count { IfOk result (λ slots. length slots.items ≡ count) }
    ensures none { IfOk result (λ slots. All (λ o. o ≡ None) slots.items) }
{
    let mut slots = Vec::with_capacity(alloc, count)?;
    for _ in 0..count {
        slots.push(None)?;
    }
    Ok(slots)
}

impl World {
    /// Exchanges a section of a chunk that is there, which is then found at once. What comes in is pending exactly where
    /// the chunk's list has an entry.
    fn exchange(&mut self, at: SectionPos, section: Option<Section>) -> Option<Section>
        requires section { IsWorldSection (height_of self.old) (positions_of self.old) at }
        requires tied { IsTiedIn section at (lists self.old) }
        ensures changed { grid self.new ≡ with_filling (grid self.old) at (filling_in section) }
        ensures out { result ≡ sections self.old at }
        ensures same { IsSameButBlocks self.old self.new }
    {
        let chunk = self.slot_of(at);
        self.near[near_index(at.chunk())] = chunk;
        let offset = offset(self.height, at);
        exchange_in(&mut self.chunks[chunk], offset, section)
    }

    /// Takes sections that are there out of the world, into slots that are empty.
    fn take_out(
        &mut self,
        at: &[SectionPos],
        mut slots: Vec<Option<Section>>,
    ) -> Vec<Option<Section>>
        requires here { All (λ s. IsTrue (is_here (grid self.old s))) at.now }
        requires distinct { AllPairs (λ s t. same_section t s ≡ false) at.now }
        requires count { length slots.items ≡ length at.now }
        ensures grid { grid self.new ≡ without (among at.now) (grid self.old) }
        ensures out { part_grid at.now result.items ≡ only (among at.now) (grid self.old) }
        ensures count { length result.items ≡ length at.now }
        ensures same { IsSameButBlocks self.old self.new }
    {
        for (index, at) in at.iter().enumerate() {
            slots[index] = self.exchange(*at, None);
        }
        slots
    }

    /// Puts a section where it belongs, if it is there.
    fn put_in(&mut self, at: SectionPos, slot: &mut Option<Section>)
        requires section { IsTrue (is_here (filling_in slot.old))
            → IsWorldSection (height_of self.old) (positions_of self.old) at }
        requires tied { IsTiedIn slot.old at (lists self.old) }
        ensures changed { grid self.new ≡ put_filling (grid self.old) at (filling_in slot.old) }
        ensures same { IsSameButBlocks self.old self.new }
    {
        if let Some(section) = slot.take() {
            self.exchange(at, Some(section));
        }
    }

    /// Puts sections where they belong, if they are there.
    fn put_back(&mut self, at: &[SectionPos], slots: &mut [Option<Section>])
        requires sections { (s : SectionPos) → IsTrue (is_here (part_grid at.now slots.old s))
            → IsWorldSection (height_of self.old) (positions_of self.old) s }
        requires tied { IsTied (cells_of (part_grid at.now slots.old)) (lists self.old) }
        requires distinct { AllPairs (λ s t. same_section t s ≡ false) at.now }
        requires count { length slots.old ≡ length at.now }
        ensures grid { grid self.new ≡ over (part_grid at.now slots.old) (grid self.old) }
        ensures same { IsSameButBlocks self.old self.new }
    {
        for (index, at) in at.iter().enumerate() {
            self.put_in(*at, &mut slots[index]);
        }
    }

    /// Takes sections out, which are loaded and distinct. Until they are mended, their blocks are not loaded here.
    /// Lists stay.
    ///
    /// # Errors
    /// `Broken` of a broken world, and else `OutOfMemory`. Also then the world is as before, with what was prepared.
    pub fn carve(&mut self, at: &[SectionPos]) -> Result<Parcel, Fault>
        requires loaded { is_broken self.old ≡ false
            → All (λ s. IsTrue (is_here (grid self.old s))) at.now }
        requires distinct { is_broken self.old ≡ false
            → AllPairs (λ s t. same_section t s ≡ false) at.now }
        ensures out { IfOk result (λ c. kept_grid c ≡ only (among at.now) (grid self.old)) }
        ensures nothing_aside { IfOk result (λ c. aside c ≡ []) }
        ensures part { IfOk result (λ c. IsPartOf (height_of self.new) (positions_of self.new)
            (lists self.new) (parcel_blocks c) (parcel_lists c)) }
        ensures left { OnOk result (grid self.new ≡ without (among at.now) (grid self.old)) }
        ensures same { IsSameButBlocks self.old self.new }
        ensures unbroken { OnOk result (is_broken self.old ≡ false) }
        ensures unchanged { OnErr result (grid self.new ≡ grid self.old) }
        ensures kept { OnErr result (IsWorldKept self.old self.new) }
        ensures err { IfErr result (λ e. e ≡ (if is_broken self.old then Broken else OutOfMemory)) }
    {
        if self.broken {
            return Err(Fault::Broken);
        }
        let alloc = *self.positions.allocator();
        let positions = Vec::from_slice(alloc, at)?;
        let notes = Box::new(alloc, Notes::new())?;
        let slots = empty_slots(alloc, at.len())?;
        let sections = self.take_out(at, slots);
        Ok(Parcel {
            positions,
            sections,
            aside: TickList::new(alloc),
            notes,
        })
    }

    /// Puts the sections of a parcel of this world back, as they then are, and forgets what was put aside. Takes no
    /// memory.
    pub fn mend(&mut self, parcel: Parcel)
        requires { IsPartOf (height_of self.old) (positions_of self.old) (lists self.old)
            (parcel_blocks parcel) (parcel_lists parcel) }
        ensures grid { grid self.new ≡ over (kept_grid parcel) (grid self.old) }
        ensures blocks { blocks self.new ≡ mended (lists self.old) (parcel_blocks parcel)
            (blocks self.old) }
        ensures same { IsSameButBlocks self.old self.new }
    {
        let Parcel {
            positions,
            mut sections,
            ..
        } = parcel;
        self.put_back(positions.as_slice(), sections.as_mut_slice());
    }
}
