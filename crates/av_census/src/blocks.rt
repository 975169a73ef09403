//! The blocks of a chunk, counted by the numbers of their states.
ghost use Rattle.std.specs.Prelude.{◌≡◌, ℕ, ◌+◌, ◌<◌, ◌≤◌, ◌^◌, None, length, slice_index, slice_index_or, slice_set, IfOk, IfSome};
ghost use Rattle.std.specs.Option.{option_copied};
ghost use Rattle.av_section.specs.Section.{number_at, HasNumbersBelow, section_states};
ghost use Rattle.av_census.specs.Counting.{AreSlotCounts, CountsMore, SlotBelow, SlotsBelow, first_places, slot_states};

use av_section::Section;
use av_types::Place;
use std::alloc::{AllocError, Global};

/// How many places a section has.
const PLACES: u16 = 4096;

/// Counts more blocks of a number.
fn raise(counts: &mut Vec<u64>, number: u16, more: u64)
    requires within { number < length counts.old.items }
    requires room { slice_index counts.old.items number + more < 2 ^ 64 }
    ensures { counts.new.items ≡ slice_set counts.old.items number
        (slice_index counts.old.items number + more) }
{
    counts[usize::from(number)] += more;
}

/// Counts the block at a place of a section.
fn count_place(counts: &mut Vec<u64>, section: &Section, index: u16)
    requires place { index < 4096 }
    requires below { HasNumbersBelow section.now (length counts.old.items) }
    requires room { (k : ℕ) → slice_index counts.old.items k + 1 < 2 ^ 64 }
    ensures { counts.new.items ≡ slice_set counts.old.items (number_at section.now index)
        (slice_index counts.old.items (number_at section.now index) + 1) }
{
    raise(counts, section.get(Place::new(index)), 1);
}

/// Counts the blocks of a section place by place.
fn count_places(counts: &mut Vec<u64>, section: &Section)
    requires below { HasNumbersBelow section.now (length counts.old.items) }
    requires room { (k : ℕ) → slice_index counts.old.items k + 4096 < 2 ^ 64 }
    ensures { CountsMore counts.old.items counts.new.items
        (λ table. first_places table section.now 4096) 4096 }
{
    for index in 0..PLACES {
        count_place(counts, section, index);
    }
}

/// The number that all places of a section have, where the section is stored so.
fn only_number(section: &Section) -> Option<u16>
    ensures { IfSome result (λ n. (i : ℕ) → i < 4096 → number_at section.now i ≡ n) }
{
    let (palette, longs, _) = section.parts();
    if longs.is_empty() {
        Some(palette[0])
    } else {
        None
    }
}

/// Counts the blocks of a section. One of a single state, as most are of air, is counted at once.
fn count_section(counts: &mut Vec<u64>, section: &Section)
    requires below { HasNumbersBelow section.now (length counts.old.items) }
    requires room { (k : ℕ) → slice_index counts.old.items k + 4096 < 2 ^ 64 }
    ensures { CountsMore counts.old.items counts.new.items
        (λ table. section_states table section.now) 4096 }
{
    match only_number(section) {
        Some(number) => raise(counts, number, u64::from(PLACES)),
        None => count_places(counts, section),
    }
}

/// Counts the blocks of a section that may be out.
fn count_slot(counts: &mut Vec<u64>, slot: Option<&Section>)
    requires below { SlotBelow (length counts.old.items) (option_copied slot) }
    requires room { (k : ℕ) → slice_index counts.old.items k + 4096 < 2 ^ 64 }
    ensures { CountsMore counts.old.items counts.new.items
        (λ table. slot_states table (option_copied slot.entry)) 4096 }
{
    if let Some(section) = slot {
        count_section(counts, section);
    }
}

/// The section at an index, where it is not out.
fn slot_at(slots: &[Option<Section>], index: usize) -> Option<&Section>
    ensures { option_copied result ≡ slice_index_or slots.now index None }
{
    slots.get(index)?.as_ref()
}

/// How many blocks of sections have each of so many numbers.
pub(crate) fn count_blocks(
    alloc: Global,
    slots: &[Option<Section>],
    numbers: usize,
) -> Result<Vec<u64>, AllocError>
    requires few { length slots.now ≤ 64 }
    requires below { SlotsBelow numbers slots.now }
    ensures { IfOk result (λ counts. AreSlotCounts slots.now numbers
        (length slots.now) counts.items) }
{
    let mut counts = vec![in alloc; 0; numbers]?;
    for index in 0..slots.len() {
        count_slot(&mut counts, slot_at(slots, index));
    }
    Ok(counts)
}
