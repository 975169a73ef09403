//! Changes of one section of a chunk.
ghost use Rattle.std.specs.Prelude.{IsOk, ◌≡◌, ◌<◌, ◌≤◌, ◌+◌, ◌++◌, ◌∷◌, [], length, slice_index_or, slice_set, option_copied, Some, None, true, false, OnOk};
ghost use Rattle.av_types.specs.Positions.{is_section_of, place_of, section_index, is_block_of};
ghost use Rattle.av_section.specs.declared.section.Section.{Section};
ghost use Rattle.av_ticks.specs.Entries.{is_pending};
ghost use Rattle.av_ticks.specs.Ticks.{entries, room};
ghost use Rattle.av_world.specs.Sections.{layer_at, CanSetIn};
ghost use Rattle.av_world.specs.Changes.{SlotSets, SlotAdds, SlotKeeps, HaveNumbers, SlotRemoves, ClearsSlots, leaves_at};
ghost use Rattle.std.specs.Prelude.{All, filter, not};
ghost use Rattle.std.specs.List.{list_any};
ghost use Rattle.av_ticks.specs.Entries.{is_due};

use av_chunk::Chunk;
use av_section::Section;
use av_ticks::TickList;
use av_types::{Entry, Height, Place, SectionPos};
use std::alloc::AllocError;
use std::mem;

/// Whether a section's number is in the height.
#[inline(always)]
pub(crate) fn is_high(height: Height, at: SectionPos) -> bool
    ensures { result ≡ is_section_of height at.y }
{
    height.has_section(at.y)
}

/// Where a section stands among those of its chunk.
#[inline(always)]
pub(crate) fn offset(height: Height, at: SectionPos) -> usize
    requires { is_section_of height at.y ≡ true }
    ensures value { result ≡ section_index height at.y }
    ensures bound { result < height.sections }
{
    (at.y - height.min_section) as usize
}

/// The section at a position, of those of its chunk.
#[inline(always)]
pub(crate) fn layer(
    sections: &[Option<Section>],
    height: Height,
    at: SectionPos,
) -> Option<&Section>
    requires { length sections.now ≡ height.sections }
    ensures { option_copied result ≡ layer_at height sections.now at.y }
{
    if is_high(height, at) {
        sections[offset(height, at)].as_ref()
    } else {
        None
    }
}

/// Sets a place of a section.
pub(crate) fn set_slot(slot: &mut Option<Section>, place: Place, number: u16)
    requires { CanSetIn slot.old number }
    ensures { SlotSets slot.old slot.new place.index number }
{
    if let Some(section) = slot {
        section.set(place, number);
    }
}

/// Makes a place of a section pending.
fn add_slot(slot: &mut Option<Section>, place: Place)
    ensures { SlotAdds slot.old slot.new place.index }
{
    if let Some(section) = slot {
        section.add_pending(place);
    }
}

/// Makes room for numbers in a section.
pub(crate) fn prepare_slot(slot: &mut Option<Section>, numbers: &[u16]) -> Result<(), AllocError>
    ensures same { SlotKeeps slot.old slot.new }
    ensures ok { OnOk result (HaveNumbers slot.new numbers.now) }
    ensures succeeds { HaveNumbers slot.old numbers.now → IsOk result }
{
    if let Some(section) = slot {
        if section.prepare(numbers).is_err() {
            return Err(AllocError);
        }
    }
    Ok(())
}

/// Appends the entry of a position that is not pending, for which there is room.
pub(crate) fn append(ticks: &mut TickList, entry: Entry)
    requires room { 0 < room ticks.old }
    requires new { is_pending entry.pos (entries ticks.old) ≡ false }
    ensures entries { entries ticks.new ≡ entries ticks.old ++ entry ∷ [] }
    ensures room { room ticks.old ≤ room ticks.new + 1 }
{
    ticks.add_new(entry);
}

/// Sets a place of the section at an offset.
pub(crate) fn set_in(chunk: &mut Chunk, offset: usize, place: Place, number: u16)
    requires inside { offset < length chunk.old.sections.items }
    requires prepared { CanSetIn (slice_index_or chunk.old.sections.items offset None) number }
    ensures slots { chunk.new.sections.items
        ≡ slice_set chunk.old.sections.items offset (slice_index_or chunk.new.sections.items offset None) }
    ensures slot { SlotSets (slice_index_or chunk.old.sections.items offset None)
        (slice_index_or chunk.new.sections.items offset None) place.index number }
    ensures ticks { chunk.new.ticks ≡ chunk.old.ticks }
{
    set_slot(&mut chunk.sections[offset], place, number);
}

/// Appends an entry, and makes its place of the section at an offset pending.
pub(crate) fn add_in(chunk: &mut Chunk, offset: usize, entry: Entry)
    requires inside { offset < length chunk.old.sections.items }
    requires room { 0 < room chunk.old.ticks }
    requires new { is_pending entry.pos (entries chunk.old.ticks) ≡ false }
    ensures slots { chunk.new.sections.items
        ≡ slice_set chunk.old.sections.items offset (slice_index_or chunk.new.sections.items offset None) }
    ensures slot { SlotAdds (slice_index_or chunk.old.sections.items offset None)
        (slice_index_or chunk.new.sections.items offset None) (place_of entry.pos) }
    ensures entries { entries chunk.new.ticks ≡ entries chunk.old.ticks ++ entry ∷ [] }
    ensures room { room chunk.old.ticks ≤ room chunk.new.ticks + 1 }
{
    add_slot(&mut chunk.sections[offset], entry.pos.place());
    append(&mut chunk.ticks, entry);
}

/// Makes room for numbers in the section at an offset.
pub(crate) fn prepare_in(
    chunk: &mut Chunk,
    offset: usize,
    numbers: &[u16],
) -> Result<(), AllocError>
    requires inside { offset < length chunk.old.sections.items }
    ensures slots { chunk.new.sections.items
        ≡ slice_set chunk.old.sections.items offset (slice_index_or chunk.new.sections.items offset None) }
    ensures slot { SlotKeeps (slice_index_or chunk.old.sections.items offset None)
        (slice_index_or chunk.new.sections.items offset None) }
    ensures ok { OnOk result (HaveNumbers (slice_index_or chunk.new.sections.items offset None)
        numbers.now) }
    ensures ticks { chunk.new.ticks ≡ chunk.old.ticks }
    ensures succeeds { HaveNumbers (slice_index_or chunk.old.sections.items offset None) numbers.now
        → IsOk result }
{
    prepare_slot(&mut chunk.sections[offset], numbers)
}

/// Makes room for so many more entries.
pub(crate) fn reserve_in(chunk: &mut Chunk, count: usize) -> Result<(), AllocError>
    ensures sections { chunk.new.sections ≡ chunk.old.sections }
    ensures entries { entries chunk.new.ticks ≡ entries chunk.old.ticks }
    ensures grows { room chunk.old.ticks ≤ room chunk.new.ticks }
    ensures ok { OnOk result (count ≤ room chunk.new.ticks) }
    ensures succeeds { count ≤ room chunk.old.ticks → IsOk result }
{
    if chunk.ticks.reserve(count).is_err() {
        return Err(AllocError);
    }
    Ok(())
}

/// Exchanges the section at an offset.
pub(crate) fn exchange_in(
    chunk: &mut Chunk,
    offset: usize,
    section: Option<Section>,
) -> Option<Section>
    requires inside { offset < length chunk.old.sections.items }
    ensures slots { chunk.new.sections.items ≡ slice_set chunk.old.sections.items offset section }
    ensures out { result ≡ slice_index_or chunk.old.sections.items offset None }
    ensures ticks { chunk.new.ticks ≡ chunk.old.ticks }
{
    mem::replace(&mut chunk.sections[offset], section)
}

/// Makes a place of a section not pending.
fn remove_slot(slot: &mut Option<Section>, place: Place)
    ensures { SlotRemoves slot.old slot.new place.index }
{
    if let Some(section) = slot {
        section.remove_pending(place);
    }
}

/// Makes an entry's place not pending, if it is due.
fn clear_if_due(sections: &mut Vec<Option<Section>>, entry: Entry, height: Height, now: u32)
    requires count { length sections.old.items ≡ height.sections }
    requires inside { is_block_of height entry.pos.y ≡ true }
    ensures { ClearsSlots sections.old.items sections.new.items
        (λ o i. leaves_at height now o i entry) }
{
    if entry.due > i64::from(now) {
        return;
    }
    let offset = offset(height, entry.pos.section());
    remove_slot(&mut sections[offset], entry.pos.place());
}

/// Makes the places of entries that are due not pending.
fn clear_due(sections: &mut Vec<Option<Section>>, entries: &[Entry], height: Height, now: u32)
    requires count { length sections.old.items ≡ height.sections }
    requires inside { All (λ e. is_block_of height e.pos.y ≡ true) entries.now }
    ensures { ClearsSlots sections.old.items sections.new.items
        (λ o i. list_any (leaves_at height now o i) entries.now) }
{
    for entry in entries {
        clear_if_due(sections, *entry, height, now);
    }
}

/// Takes the entries that are due out of a chunk's list, and makes their places not pending.
pub(crate) fn leave_in(chunk: &mut Chunk, height: Height, now: u32)
    requires count { length chunk.old.sections.items ≡ height.sections }
    requires inside { All (λ e. is_block_of height e.pos.y ≡ true) (entries chunk.old.ticks) }
    ensures sections { ClearsSlots chunk.old.sections.items chunk.new.sections.items
        (λ o i. list_any (leaves_at height now o i) (entries chunk.old.ticks)) }
    ensures entries { entries chunk.new.ticks ≡ filter (λ e. not (is_due now e))
        (entries chunk.old.ticks) }
    ensures room { room chunk.old.ticks ≤ room chunk.new.ticks }
{
    if !chunk.ticks.has_due(now) {
        return;
    }
    clear_due(&mut chunk.sections, chunk.ticks.due_part(now), height, now);
    chunk.ticks.drop_due(now);
}
