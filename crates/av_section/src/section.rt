//! A section in memory: numbers of block states by place.
ghost use Rattle.std.specs.Prelude.{◌≡◌, ◌≢◌, ◌<◌, ◌≤◌, ◌↔◌, IsTrue, IfOk, IfErr, length};
ghost use Rattle.av_types.specs.declared.fault.Fault.TheVariants.{OutOfMemory, TooManyStates};
ghost use Rattle.av_pack.specs.Packing.{bits_for, unpacked};
ghost use Rattle.av_pack.specs.Order.{AreInOrder};
ghost use Rattle.av_section.specs.Packed.{HasAllBelow, IsPackedSection};
ghost use Rattle.std.proofs.Props.{props};

use crate::indices::{Once, distinct, index_of, judged_longs, mapped, unpacked};
use crate::numbering::Numbering;
use crate::order::written_order;
use crate::palette::palette_entries;
use crate::writing::{indices_tag, palette_tag};
use av_pack::{PlaceSet, bits_for, cleaned, get_at, pack, set_at, used_in_order};
use av_state::StateTable;
use av_tags::Tag;
use av_types::{Fault, Place};
use std::alloc::{AllocError, Global};

/// A section: the number of a block state at each of its 4,096 places, and the set of the places that are pending.
///
/// The numbers stand in a palette, which may hold some that no place has. The index of each place into it is packed
/// into longs, of 4 to 16 bits by the palette's length. A section of one number needs no longs.
#[derive(Drop)]
pub struct Section {
    pub(crate) palette: Vec<u16>,
    pub(crate) longs: Vec<i64>,
    pub(crate) bits: u32,
    pending: Box<PlaceSet>,

    /// Each number below it is in the palette.
    pub(crate) ready: u16,
    pub ghost packed: { IsPackedSection palette.items longs.items bits } by { Prim.hlevel props },
    pub ghost known: { HasAllBelow palette.items ready } by { Prim.hlevel props },
}

impl Section {
    ghost use Rattle.std.specs.Prelude.{All, IsSome, Some, true, false, option_map};
    ghost use Rattle.std.specs.Option.{option_copied};
    ghost use Rattle.av_tags.specs.View.{view};
    ghost use Rattle.av_state.specs.Table.{states};
    ghost use Rattle.av_section.specs.BlockStates.{palette_tag, data_tag, indices_in, packed_indices};
    ghost use Rattle.av_section.specs.Distinct.{AreEachOnce};
    ghost use Rattle.av_section.specs.WrittenPalette.{numbers_of};
    ghost use Rattle.av_section.specs.Known.{IsPlaced};
    ghost use Rattle.av_section.specs.Indexed.{HasNumbers};
    ghost use Rattle.av_section.specs.Section.{number_at, is_pending, CanSet, SetsNumber, SetsPending, IsFilled, AreParts, HasNumbersBelow, section_states};
    ghost use Rattle.av_section.specs.Reading.{IsRead, IsStatesRefusal, OnlyGrows};

    /// The section of a palette tag and a data tag. The palette's states have the numbers that are given them.
    ///
    /// Refuses a palette of another shape with `BadPalette`, indices that do not fit it with `BadPacked`, and what `Numbering::number`
    /// refuses: the first fault that holds, but where it takes no new states, `TooManyStates` says only that not all are known.
    pub fn read<N: Numbering>(
        alloc: Global,
        palette: Option<&Tag>,
        longs: Option<&Tag>,
        numbering: &mut N,
    ) -> Result<Self, Fault>
        ensures ok { IfOk result (IsRead (option_map view (option_copied palette.entry))
            (option_map view (option_copied longs.entry)) (states (N.table numbering.old))
            (states (N.table numbering.new))) }
        ensures err { IfErr result (λ e. (N.takes ≡ false → e ≢ TooManyStates) → IsStatesRefusal
            (option_map view (option_copied palette.entry))
            (option_map view (option_copied longs.entry)) (states (N.table numbering.old)) e) }
        ensures table { OnlyGrows (states (N.table numbering.old))
            (states (N.table numbering.new)) }
        ensures same { N.takes ≡ false
            → states (N.table numbering.new) ≡ states (N.table numbering.old) }
    {
        let entries = palette_entries(palette)?;
        let longs = judged_longs(alloc, entries, longs)?;
        let numbers = numbering.number(alloc, entries)?;
        let section = Section::placed(alloc, numbers, longs)?;
        Ok(section)
    }

    /// The section of the numbers of a palette's entries and the longs that hold the index of each place into them. Refuses with
    /// OutOfMemory alone.
    fn placed(alloc: Global, numbers: Vec<u16>, longs: &[i64]) -> Result<Self, Fault>
        requires some { 0 < length numbers.items }
        requires few { length numbers.items ≤ 4096 }
        requires fit { IsSome (indices_in (length numbers.items) longs.now) }
        ensures ok { IfOk result (IsPlaced numbers.items
            (indices_in (length numbers.items) longs.now)) }
        ensures memory { IfErr result (λ e. e ≡ OutOfMemory) }
    {
        if longs.is_empty() {
            let section = Section::filled(alloc, numbers[0])?;
            return Ok(section);
        }
        let section = Section::indexed(alloc, numbers, longs)?;
        Ok(section)
    }

    /// The section of numbers and the longs that hold the index of each place into them. The longs stay as they are, and
    /// nothing is unpacked, unless a number is there twice.
    fn indexed(alloc: Global, numbers: Vec<u16>, longs: &[i64]) -> Result<Self, AllocError>
        requires some { 0 < length numbers.items }
        requires few { length numbers.items ≤ 4096 }
        requires indices { packed_indices (length numbers.items) longs.now
            ≡ Some (unpacked (bits_for (length numbers.items)) longs.now) }
        ensures ok { IfOk result (HasNumbers numbers.items
            (unpacked (bits_for (length numbers.items)) longs.now)) }
    {
        let once = distinct(alloc, numbers)?;
        if once.numbers.len() != once.ranks.len() {
            return Section::repeated(alloc, once, longs);
        }
        Ok(Section {
            bits: bits_for(once.numbers.len()),
            palette: once.numbers,
            longs: Vec::from_slice(alloc, longs)?,
            pending: PlaceSet::boxed(alloc)?,
            ready: 0,
        })
    }

    /// The same where a number is there twice: each index is that of its number among the distinct ones.
    fn repeated(alloc: Global, once: Once, longs: &[i64]) -> Result<Self, AllocError>
        requires palette { AreEachOnce (numbers_of once.numbers.items once.ranks.items)
            once.numbers.items }
        requires ranks { All (λ rank. rank < length once.numbers.items) once.ranks.items }
        requires few { length once.ranks.items ≤ 4096 }
        requires indices { packed_indices (length once.ranks.items) longs.now
            ≡ Some (unpacked (bits_for (length once.ranks.items)) longs.now) }
        ensures ok { IfOk result (HasNumbers (numbers_of once.numbers.items once.ranks.items)
            (unpacked (bits_for (length once.ranks.items)) longs.now)) }
    {
        let indices = unpacked(alloc, longs, bits_for(once.ranks.len()))?;
        let indices = mapped(indices, once.ranks.as_slice());
        let bits = bits_for(once.numbers.len());
        let Ok(longs) = pack(alloc, indices.as_slice(), bits) else {
            return Err(AllocError);
        };
        Ok(Section {
            palette: once.numbers,
            longs,
            bits,
            pending: PlaceSet::boxed(alloc)?,
            ready: 0,
        })
    }

    /// The number of the state at a place.
    pub fn get(&self, place: Place) -> u16
        ensures { result ≡ number_at self.now place.index }
    {
        if self.longs.is_empty() {
            return self.palette[0];
        }
        self.palette[usize::from(get_at(self.longs.as_slice(), self.bits, place))]
    }

    /// The palette, the packed longs and the bits of an index.
    pub fn parts(&self) -> (&[u16], &[i64], u32)
        ensures { AreParts self.now result.0.now result.1.now result.2 }
    {
        (self.palette.as_slice(), self.longs.as_slice(), self.bits)
    }

    /// Whether a place is pending.
    pub fn pending(&self, place: Place) -> bool
        ensures { result ≡ is_pending self.now place.index }
    {
        self.pending.contains(place)
    }

    /// Makes a place pending.
    pub fn add_pending(&mut self, place: Place)
        ensures { SetsPending self.old self.new place.index true }
    {
        self.pending.insert(place);
    }

    /// Makes a place not pending.
    pub fn remove_pending(&mut self, place: Place)
        ensures { SetsPending self.old self.new place.index false }
    {
        self.pending.remove(place);
    }

    /// A section with one number at every place and nothing pending, as one that a chunk does not have is filled with air.
    /// Refuses with OutOfMemory alone.
    pub fn filled(alloc: Global, number: u16) -> Result<Self, Fault>
        ensures ok { IfOk result (λ s. IsFilled s number) }
        ensures memory { IfErr result (λ e. e ≡ OutOfMemory) }
    {
        let mut palette = Vec::new(alloc);
        palette.push(number)?;
        Ok(Section {
            palette,
            longs: Vec::new(alloc),
            bits: 4,
            pending: PlaceSet::boxed(alloc)?,
            ready: 0,
        })
    }

    /// Sets a place to a number that was prepared, or that was read into the palette. Takes no memory.
    pub fn set(&mut self, place: Place, number: u16)
        requires { CanSet self.old number }
        ensures { SetsNumber self.old self.new place.index number }
    {
        if self.longs.is_empty() {
            return;
        }
        let index = index_of(self.palette.as_slice(), number);
        set_at(self.longs.as_mut_slice(), self.bits, place, index as u16);
    }

    /// The palette tag, and the data tag where the palette has more than one entry. The palette has the states of the
    /// section's places, each once, in the order of their first place. The numbers of the places are the table's.
    /// Refuses with OutOfMemory alone.
    pub fn write(&self, alloc: Global, table: &StateTable) -> Result<(Tag, Option<Tag>), Fault>
        requires { HasNumbersBelow self.now (length (states table.now)) }
        ensures palette { IfOk result (λ tags. view tags.0
            ≡ palette_tag (section_states (states table.now) self.now)) }
        ensures longs { IfOk result (λ tags. option_map view tags.1
            ≡ data_tag (section_states (states table.now) self.now)) }
        ensures memory { IfErr result (λ e. e ≡ OutOfMemory) }
    {
        if self.palette.len() == 1 {
            return Ok(self.write_one(alloc, table)?);
        }
        Ok(self.write_any(alloc, table)?)
    }

    /// What is written of a palette of one entry, which is at every place.
    fn write_one(&self, alloc: Global, table: &StateTable) -> Result<(Tag, Option<Tag>), AllocError>
        requires below { HasNumbersBelow self.now (length (states table.now)) }
        requires one { length self.now.palette.items ≡ 1 }
        ensures palette { IfOk result (λ tags. view tags.0
            ≡ palette_tag (section_states (states table.now) self.now)) }
        ensures longs { IfOk result (λ tags. option_map view tags.1
            ≡ data_tag (section_states (states table.now) self.now)) }
    {
        let palette = palette_tag(alloc, table, self.palette.as_slice())?;
        Ok((palette, None))
    }

    /// What is written of a palette of several entries.
    fn write_any(&self, alloc: Global, table: &StateTable) -> Result<(Tag, Option<Tag>), AllocError>
        requires below { HasNumbersBelow self.now (length (states table.now)) }
        requires several { length self.now.palette.items ≢ 1 }
        ensures palette { IfOk result (λ tags. view tags.0
            ≡ palette_tag (section_states (states table.now) self.now)) }
        ensures longs { IfOk result (λ tags. option_map view tags.1
            ≡ data_tag (section_states (states table.now) self.now)) }
    {
        // Most palettes stand as they are written: then nothing is unpacked.
        if self.is_in_order() {
            return self.write_in_order(alloc, table);
        }
        self.write_reordered(alloc, table)
    }

    /// Whether each entry of the palette is at some place that has only earlier ones before it.
    fn is_in_order(&self) -> bool
        requires { length self.now.palette.items ≢ 1 }
        ensures { IsTrue result ↔ AreInOrder (length self.now.palette.items)
            (unpacked self.now.bits self.now.longs.items) }
    {
        used_in_order(self.longs.as_slice(), self.bits, self.palette.len())
    }

    /// What is written of a palette of several entries that stand in the order of their first places.
    fn write_in_order(
        &self,
        alloc: Global,
        table: &StateTable,
    ) -> Result<(Tag, Option<Tag>), AllocError>
        requires below { HasNumbersBelow self.now (length (states table.now)) }
        requires several { length self.now.palette.items ≢ 1 }
        requires ordered { AreInOrder (length self.now.palette.items)
            (unpacked self.now.bits self.now.longs.items) }
        ensures palette { IfOk result (λ tags. view tags.0
            ≡ palette_tag (section_states (states table.now) self.now)) }
        ensures longs { IfOk result (λ tags. option_map view tags.1
            ≡ data_tag (section_states (states table.now) self.now)) }
    {
        let palette = palette_tag(alloc, table, self.palette.as_slice())?;
        let longs = cleaned(alloc, self.longs.as_slice(), self.bits)?;
        Ok((palette, Some(Tag::long_array(longs))))
    }

    /// What is written of a palette of several entries that stand in any order.
    fn write_reordered(
        &self,
        alloc: Global,
        table: &StateTable,
    ) -> Result<(Tag, Option<Tag>), AllocError>
        requires below { HasNumbersBelow self.now (length (states table.now)) }
        requires several { length self.now.palette.items ≢ 1 }
        ensures palette { IfOk result (λ tags. view tags.0
            ≡ palette_tag (section_states (states table.now) self.now)) }
        ensures longs { IfOk result (λ tags. option_map view tags.1
            ≡ data_tag (section_states (states table.now) self.now)) }
    {
        let indices = unpacked(alloc, self.longs.as_slice(), self.bits)?;
        let order = written_order(alloc, self.palette.as_slice(), indices.as_slice())?;
        let palette = palette_tag(alloc, table, order.numbers.as_slice())?;
        let longs = indices_tag(alloc, order.indices.as_slice(), order.numbers.len())?;
        Ok((palette, longs))
    }
}
