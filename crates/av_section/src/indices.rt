//! The indices of a section's places into its palette.
ghost use Rattle.std.specs.Prelude.{◌≡◌, ◌<◌, ◌≤◌, ◌^◌, ◌⊎◌, ℕ, ◌-◌, IsTrue, Some, None, is_some, true, false, map, option_map, length, slice_index, slice_index_or, All, Contains, IfOk, IfErr, IfSome, IfNone, OnOk};
ghost use Rattle.std.specs.List.Sorted.{IsStrictlyIncreasing};
ghost use Rattle.std.specs.Option.{option_copied};
ghost use Rattle.av_tags.specs.Shape.{each};
ghost use Rattle.av_tags.specs.View.{view, views};
ghost use Rattle.av_pack.specs.Packing.{bits_for, longs_for, packed_at, unpacked};
ghost use Rattle.av_section.specs.BlockStates.{data_of, indices_in, indices_of, are_below};
ghost use Rattle.av_section.specs.Distinct.{AreEachOnce, AreOwnRanks, AreRanks, IsRisingOf, with_number};
ghost use Rattle.av_section.specs.Known.{ArePacked, AreUnfit};
ghost use Rattle.av_section.specs.Palette.{state_in};
ghost use Rattle.av_section.specs.Packed.{HasAllBelow, IsRepacked};

use crate::palette::entry_states;
use av_pack::{bits_for, entries_below, longs_for, pack, unpack};
use av_tags::Tag;
use av_types::Fault;
use std::alloc::{AllocError, Global};

/// Up to how many numbers each is compared with each other.
const FEW: usize = 32;

/// The longs of a data tag, none where there is no tag.
pub(crate) fn data_longs<'a>(tag: Option<&'a Tag>) -> Option<&'a [i64]>
    ensures { option_copied result ≡ data_of (option_map view (option_copied tag.entry)) }
{
    match tag {
        None => Some(&[]),
        Some(tag) => tag.as_longs(),
    }
}

/// Whether each index is below a number.
pub(crate) fn are_below(indices: &[u16], count: usize) -> bool
    ensures { result ≡ are_below count indices.now }
{
    indices.iter().all(|index| usize::from(*index) < count)
}

/// Whether longs hold indices into a palette of so many entries: as many longs as it needs, and each index below its length.
/// No longs do where it has one entry. They are looked through as they are, and no list is made.
fn hold_indices(longs: &[i64], count: usize) -> bool
    requires { count ≤ 65536 }
    ensures { result ≡ is_some (indices_in count longs.now) }
{
    if longs.is_empty() {
        return count == 1;
    }
    let bits = bits_for(count);
    if longs.len() != longs_for(bits) {
        return false;
    }
    if !entries_below(longs, bits, count) {
        return false;
    }
    true
}

/// The longs of a data tag, where they hold indices into a palette of so many entries.
fn fitting_longs<'a>(longs: Option<&'a Tag>, count: usize) -> Option<&'a [i64]>
    requires { count ≤ 65536 }
    ensures some { IfSome result (λ found. ArePacked
        (option_map view (option_copied longs.entry)) count found.now) }
    ensures none { IfNone result (indices_of count (option_map view (option_copied longs.entry))
        ≡ None) }
{
    let longs = data_longs(longs)?;
    if !hold_indices(longs, count) {
        return None;
    }
    Some(longs)
}

/// The longs of a data tag, which are judged before any entry of the palette is looked up. Refuses an entry that is no state
/// with `BadPalette`, and else longs that do not fit the palette with `BadPacked`.
pub(crate) fn judged_longs<'a>(
    alloc: Global,
    entries: &[Tag],
    longs: Option<&'a Tag>,
) -> Result<&'a [i64], Fault>
    requires { length entries.now ≤ 4096 }
    ensures ok { IfOk result (λ found. ArePacked (option_map view (option_copied longs.entry))
        (length entries.now) found.now) }
    ensures err { IfErr result (AreUnfit (each state_in (views entries.now))
        (option_map view (option_copied longs.entry))) }
{
    let Some(longs) = fitting_longs(longs, entries.len()) else {
        // the palette's fault comes first
        let _ = entry_states(alloc, entries)?;
        return Err(Fault::BadPacked);
    };
    Ok(longs)
}

/// The indices that longs hold. The longs are as many as these need, so nothing but memory can be wanted.
pub(crate) fn unpacked(alloc: Global, longs: &[i64], bits: u32) -> Result<Vec<u16>, AllocError>
    requires low { 4 ≤ bits }
    requires high { bits ≤ 16 }
    requires count { length longs.now ≡ longs_for bits }
    ensures { IfOk result (λ indices. indices.items ≡ unpacked bits longs.now) }
{
    match unpack(alloc, longs, bits) {
        Ok(indices) => Ok(indices),
        Err(Fault::OutOfMemory) => Err(AllocError),
        Err(_) => unreachable!(),
    }
}

/// The same indices with `wider` bits each.
pub(crate) fn repacked(
    alloc: Global,
    longs: &[i64],
    bits: u32,
    wider: u32,
) -> Result<Vec<i64>, AllocError>
    requires low { 4 ≤ bits }
    requires high { bits ≤ 16 }
    requires wider_low { 4 ≤ wider }
    requires wider_high { wider ≤ 16 }
    requires count { length longs.now ≡ longs_for bits }
    requires fit { (i : ℕ) → i < 4096 → packed_at bits longs.now i < 2 ^ wider }
    ensures ok { IfOk result (λ new. IsRepacked bits longs.now wider new.items) }
{
    let indices = unpacked(alloc, longs, bits)?;
    let Ok(longs) = pack(alloc, indices.as_slice(), wider) else {
        return Err(AllocError);
    };
    Ok(longs)
}

/// The numbers of a list, each once, and the rank of each of the list among them, which is how many stand before it. Where none is twice they are the list.
#[derive(Drop)]
pub(crate) struct Once {
    pub numbers: Vec<u16>,
    pub ranks: Vec<u16>,
}

/// The rank of a number in a list: how many stand before it. Where it is not there yet, it is put at the end.
fn rank_in(once: &mut Vec<u16>, number: u16) -> Result<usize, AllocError>
    ensures items { OnOk result (once.new.items ≡ with_number once.old.items number) }
    ensures bound { IfOk result (λ rank. rank < length once.new.items) }
    ensures value { IfOk result (λ rank. slice_index once.new.items rank ≡ number) }
{
    if once.contains(&number) {
        return Ok(index_of(once.as_slice(), number));
    }
    let rank = once.len();
    once.push(number)?;
    Ok(rank)
}

/// What `distinct` answers, by comparing each number with those before it.
fn distinct_by_pairs(alloc: Global, numbers: Vec<u16>) -> Result<Once, AllocError>
    requires few { length numbers.items ≤ 65536 }
    ensures numbers { IfOk result (λ once. AreEachOnce numbers.items once.numbers.items) }
    ensures ranks { IfOk result (λ once. AreRanks once.numbers.items numbers.items
        once.ranks.items) }
{
    let mut once = Vec::with_capacity(alloc, numbers.len())?;
    let mut ranks = numbers;
    for index in 0..ranks.len() {
        ranks[index] = rank_in(&mut once, ranks[index])? as u16;
    }
    Ok(Once {
        numbers: once,
        ranks,
    })
}

/// The rank of a number in a list that rises.
fn rank_among(rising: &[u16], number: u16) -> u16
    requires rising { IsStrictlyIncreasing rising.now }
    requires there { Contains rising.now number }
    requires few { length rising.now ≤ 65536 }
    ensures bound { result < length rising.now }
    ensures value { slice_index rising.now result ≡ number }
{
    rising.binary_search(&number).unwrap() as u16
}

/// Where each of a list stands in one that rises.
fn ranks_among(rising: &[u16], numbers: Vec<u16>) -> Vec<u16>
    requires rising { IsStrictlyIncreasing rising.now }
    requires there { All (Contains rising.now) numbers.items }
    requires few { length rising.now ≤ 65536 }
    ensures { AreRanks rising.now numbers.items result.items }
{
    let mut ranks = numbers;
    for index in 0..ranks.len() {
        ranks[index] = rank_among(rising, ranks[index]);
    }
    ranks
}

/// Where each of a list stands in itself, written over a list as long.
fn own_ranks(list: Vec<u16>) -> Vec<u16>
    requires few { length list.items ≤ 65536 }
    ensures { AreOwnRanks (length list.items) result.items }
{
    let mut ranks = list;
    for index in 0..ranks.len() {
        ranks[index] = index as u16;
    }
    ranks
}

/// The numbers of a list from the least up, each once. A sort costs the same whichever numbers a file has.
fn in_order(alloc: Global, numbers: &[u16]) -> Result<Vec<u16>, AllocError>
    ensures { IfOk result (λ rising. IsRisingOf numbers.now rising.items) }
{
    let mut rising = Vec::from_slice(alloc, numbers)?;
    rising.sort_unstable();
    rising.dedup();
    Ok(rising)
}

/// What `distinct` answers, by their order. A list that has none twice stays as it is, and nothing is looked up.
fn distinct_by_order(alloc: Global, numbers: Vec<u16>) -> Result<Once, AllocError>
    requires few { length numbers.items ≤ 65536 }
    ensures numbers { IfOk result (λ once. AreEachOnce numbers.items once.numbers.items) }
    ensures ranks { IfOk result (λ once. AreRanks once.numbers.items numbers.items
        once.ranks.items) }
{
    let rising = in_order(alloc, numbers.as_slice())?;
    if rising.len() == numbers.len() {
        return Ok(Once {
            numbers,
            ranks: own_ranks(rising),
        });
    }
    let ranks = ranks_among(rising.as_slice(), numbers);
    Ok(Once {
        numbers: rising,
        ranks,
    })
}

/// The numbers of a list, each once. Where each stands is written over a list that is at hand, so that it takes no memory
/// of its own.
pub(crate) fn distinct(alloc: Global, numbers: Vec<u16>) -> Result<Once, AllocError>
    requires few { length numbers.items ≤ 65536 }
    ensures numbers { IfOk result (λ once. AreEachOnce numbers.items once.numbers.items) }
    ensures ranks { IfOk result (λ once. AreRanks once.numbers.items numbers.items
        once.ranks.items) }
{
    if numbers.len() <= FEW {
        return distinct_by_pairs(alloc, numbers);
    }
    distinct_by_order(alloc, numbers)
}

/// The index of a number that is in the palette. One that was just put at its end is found there at once.
pub(crate) fn index_of(palette: &[u16], number: u16) -> usize
    requires { Contains palette.now number }
    ensures bound { result < length palette.now }
    ensures value { slice_index palette.now result ≡ number }
{
    if ends_with(palette, number) {
        return palette.len() - 1;
    }
    palette.iter().position(|known| *known == number).unwrap()
}

/// Whether a number is the last one.
fn ends_with(palette: &[u16], number: u16) -> bool
    ensures { IsTrue result → (0 < length palette.now)
        × (slice_index palette.now (length palette.now - 1) ≡ number) }
{
    match palette.last() {
        Some(last) => *last == number,
        None => false,
    }
}

/// Marks a number, if it is one of those that are marked.
fn mark(marks: &mut [bool; 16], number: u16)
    ensures { (i : ℕ) → slice_index_or marks.new i false ≡ true
        → (slice_index_or marks.old i false ≡ true) ⊎ (i ≡ number) }
{
    if number < 16 {
        marks[usize::from(number)] = true;
    }
}

/// Which of the numbers below 16 are in a palette.
fn marks_of(palette: &[u16]) -> [bool; 16]
    ensures { (i : ℕ) → slice_index_or result i false ≡ true → Contains palette.now i }
{
    let mut marks = [false; 16];
    for number in palette {
        mark(&mut marks, *number);
    }
    marks
}

/// A number, at most 16, below which each is in a palette: the first one that is not.
pub(crate) fn first_missing(palette: &[u16]) -> u16
    ensures { HasAllBelow palette.now result }
{
    let marks = marks_of(palette);
    for number in 0..16 {
        if !marks[number] {
            return number as u16;
        }
    }
    16
}

/// The rank of each index.
pub(crate) fn mapped(indices: Vec<u16>, ranks: &[u16]) -> Vec<u16>
    requires { All (λ index. index < length ranks.now) indices.items }
    ensures { result.items ≡ map (slice_index ranks.now) indices.items }
{
    let mut found = indices;
    for at in 0..found.len() {
        found[at] = ranks[usize::from(found[at])];
    }
    found
}
