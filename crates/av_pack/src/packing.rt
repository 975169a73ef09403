//! The 4,096 block indices of a section, packed into longs
//! (<https://minecraft.wiki/w/Chunk_format#Block_format>): entries stand in each long from the low
//! bits up, and none spans two longs. An entry has 4 to 16 bits.
ghost use Rattle.std.specs.Prelude.{◌≡◌, ◌≢◌, ◌<◌, ◌≤◌, ◌+◌, ◌*◌, ◌/◌, ◌%◌, ◌-◌, ◌^◌, ◌↔◌, ◌⊎◌, ◌++◌, ℕ, Err, IfOk, IfErr, OnOk, length, take, All};
ghost use Rattle.std.specs.Int.{cast_signed, w64};
ghost use Rattle.av_types.specs.declared.fault.Fault.TheVariants.{OutOfMemory, BadPacked};
ghost use Rattle.av_pack.specs.Packing.{bits_for, longs_for, packed_at, low_first, packed, unpacked, IsPacked, SetsEntry};
ghost use Rattle.av_pack.specs.Fields.{with_field, entries_of, DividesPlaces};

use av_types::{Fault, Place};
use std::alloc::{AllocError, Global};

/// How many entries a section has.
pub(crate) const ENTRIES: usize = 4096;

/// The bits of an entry for a palette of `len` entries, at most 65,536: the least that will do,
/// and at least 4.
pub fn bits_for(len: usize) -> u32
    requires { len ≤ 65536 }
    ensures value { result ≡ bits_for len }
    ensures low { 4 ≤ result }
    ensures high { result ≤ 16 }
    ensures enough { len ≤ 2 ^ result }
    ensures least { (bits : ℕ) → 4 ≤ bits → len ≤ 2 ^ bits → result ≤ bits }
{
    let mut bits = 4;
    while len > 1 << bits {
        bits += 1;
    }
    bits
}

/// How many longs hold the 4,096 entries of a section, of 4 to 16 bits each.
#[tactic(auto, unfolding(crate::specs::Packing::longs_for))]
pub fn longs_for(bits: u32) -> usize
    requires low { 4 ≤ bits }
    requires high { bits ≤ 16 }
    ensures { result ≡ longs_for bits }
{
    ENTRIES.div_ceil(64 / bits as usize)
}

/// Where an entry stands: in which long, and from which of its bits on.
#[derive(Clone, Copy)]
struct Slot {
    long: usize,
    shift: u32,
}

/// How many entries a long holds, and 65,536 by that number, rounded up: with it a place is divided
/// by a multiplication and a shift.
#[derive(Clone, Copy)]
struct PerLong {
    count: u32,
    reciprocal: u32,
}

/// The entries of a long, for entries of 4 to 16 bits.
fn per_long(bits: u32) -> PerLong
    requires low { 4 ≤ bits }
    requires high { bits ≤ 16 }
    ensures count { result.count ≡ 64 / bits }
    ensures divides { DividesPlaces result.count result.reciprocal }
{
    match bits {
        4 => PerLong {
            count: 16,
            reciprocal: 4096,
        },
        5 => PerLong {
            count: 12,
            reciprocal: 5462,
        },
        6 => PerLong {
            count: 10,
            reciprocal: 6554,
        },
        7 => PerLong {
            count: 9,
            reciprocal: 7282,
        },
        8 => PerLong {
            count: 8,
            reciprocal: 8192,
        },
        9 => PerLong {
            count: 7,
            reciprocal: 9363,
        },
        10 => PerLong {
            count: 6,
            reciprocal: 10923,
        },
        11 | 12 => PerLong {
            count: 5,
            reciprocal: 13108,
        },
        _ => PerLong {
            count: 4,
            reciprocal: 16384,
        },
    }
}

/// Where the entry of a place stands.
#[tactic(auto, using(crate::proofs::Slots::slot_in_range))]
fn slot_of(bits: u32, place: Place) -> Slot
    requires low { 4 ≤ bits }
    requires high { bits ≤ 16 }
    ensures long { result.long ≡ place.index / (64 / bits) }
    ensures shift { result.shift ≡ bits * (place.index % (64 / bits)) }
    ensures in_range { result.long < longs_for bits }
    ensures within { result.shift + bits ≤ 64 }
{
    let per_long = per_long(bits);
    let index = u32::from(place.index);
    let long = index * per_long.reciprocal >> 16;
    Slot {
        long: long as usize,
        shift: bits * (index - long * per_long.count),
    }
}

/// So many bits of a long, from bit `shift` on.
#[inline(always)]
#[tactic(auto, using(crate::proofs::Fields::field_is))]
pub(crate) fn field(long: u64, shift: u32, bits: u32) -> u16
    requires low { 4 ≤ bits }
    requires high { bits ≤ 16 }
    requires within { shift + bits ≤ 64 }
    ensures value { result ≡ long / 2 ^ shift % 2 ^ bits }
{
    (long >> shift & ((1 << bits) - 1)) as u16
}

/// The long with these bits replaced.
#[tactic(auto, using(crate::proofs::Fields::with_field_is))]
fn with_field(long: u64, shift: u32, bits: u32, value: u16) -> u64
    requires low { 4 ≤ bits }
    requires high { bits ≤ 16 }
    requires within { shift + bits ≤ 64 }
    requires fits { value < 2 ^ bits }
    ensures { result ≡ with_field long shift bits value }
{
    let mask = (1 << bits) - 1;
    long & !(mask << shift) | u64::from(value) << shift
}

/// The entry of a place. The longs are as many as `longs_for` says.
pub fn get_at(longs: &[i64], bits: u32, place: Place) -> u16
    requires low { 4 ≤ bits }
    requires high { bits ≤ 16 }
    requires count { length longs.now ≡ longs_for bits }
    ensures value { result ≡ packed_at bits longs.now place.index }
    ensures bound { result < 2 ^ bits }
{
    let slot = slot_of(bits, place);
    field(longs[slot.long].cast_unsigned(), slot.shift, bits)
}

/// Sets the entry of a place, and leaves every other bit. `value` is below 2^`bits`, and the longs
/// are as many as `longs_for` says.
pub fn set_at(longs: &mut [i64], bits: u32, place: Place, value: u16)
    requires low { 4 ≤ bits }
    requires high { bits ≤ 16 }
    requires count { length longs.old ≡ longs_for bits }
    requires fits { value < 2 ^ bits }
    ensures { SetsEntry bits longs.old longs.new place.index value }
{
    let slot = slot_of(bits, place);
    let long = longs[slot.long].cast_unsigned();
    longs[slot.long] = with_field(long, slot.shift, bits, value).cast_signed();
}

/// How many entries a long holds, of 4 to 16 bits each.
#[inline(always)]
#[tactic(auto, using(crate::proofs::Slots::few_in_long))]
pub(crate) fn entries_in_long(bits: u32) -> usize
    requires low { 4 ≤ bits }
    requires high { bits ≤ 16 }
    ensures value { result ≡ 64 / bits }
    ensures few { result ≤ 16 }
{
    (64 / bits) as usize
}

/// All entries of a long, in front of places that are left.
#[inline(always)]
fn entries_of(long: u64, bits: u32) -> [u16; 16]
    requires low { 4 ≤ bits }
    requires high { bits ≤ 16 }
    ensures { take (64 / bits) result ≡ entries_of bits long (64 / bits) }
{
    let mut entries = [0; 16];
    for i in 0..entries_in_long(bits) {
        entries[i] = field(long, bits * i as u32, bits);
    }
    entries
}

/// Appends all entries of a long.
#[inline(always)]
fn push_entries(values: &mut Vec<u16>, long: u64, bits: u32) -> Result<(), AllocError>
    requires low { 4 ≤ bits }
    requires high { bits ≤ 16 }
    ensures { OnOk result (values.new.items ≡ values.old.items
        ++ entries_of bits long (64 / bits)) }
{
    let entries = entries_of(long, bits);
    values.extend_from_slice(&entries[..entries_in_long(bits)])
}

/// The 4,096 entries of the longs, as `unpack` gives them.
#[inline(always)]
fn unpack_by(alloc: Global, longs: &[i64], bits: u32) -> Result<Vec<u16>, Fault>
    requires low { 4 ≤ bits }
    requires high { bits ≤ 16 }
    ensures ok { IfOk result (λ values. values.items ≡ unpacked bits longs.now) }
    ensures bad_packed { (result ≡ Err BadPacked) ↔ (length longs.now ≢ longs_for bits) }
    ensures others { IfErr result (λ e. (e ≡ BadPacked) ⊎ (e ≡ OutOfMemory)) }
{
    if longs.len() != longs_for(bits) {
        return Err(Fault::BadPacked);
    }
    // The last long can have up to 15 entries too many.
    let mut values = Vec::with_capacity(alloc, ENTRIES + 15)?;
    for long in longs {
        push_entries(&mut values, long.cast_unsigned(), bits)?;
    }
    values.truncate(ENTRIES);
    Ok(values)
}

/// The 4,096 entries of the longs, or `BadPacked` where the longs are not as many as `longs_for`
/// says. The bits that hold no entry are not looked at. Most sections have entries of 4 to 8 bits, so
/// each of these has a loop of its own.
pub fn unpack(alloc: Global, longs: &[i64], bits: u32) -> Result<Vec<u16>, Fault>
    requires low { 4 ≤ bits }
    requires high { bits ≤ 16 }
    ensures ok { IfOk result (λ values. values.items ≡ unpacked bits longs.now) }
    ensures bad_packed { (result ≡ Err BadPacked) ↔ (length longs.now ≢ longs_for bits) }
    ensures others { IfErr result (λ e. (e ≡ BadPacked) ⊎ (e ≡ OutOfMemory)) }
{
    match bits {
        4 => unpack_by(alloc, longs, 4),
        5 => unpack_by(alloc, longs, 5),
        6 => unpack_by(alloc, longs, 6),
        7 => unpack_by(alloc, longs, 7),
        8 => unpack_by(alloc, longs, 8),
        _ => unpack_by(alloc, longs, bits),
    }
}

/// The long that holds values, the first one in its lowest bits.
fn long_of(values: &[u16], bits: u32) -> i64
    requires low { 4 ≤ bits }
    requires room { bits * length values.now ≤ 64 }
    requires fit { All (λ value. value < 2 ^ bits) values.now }
    ensures { result ≡ cast_signed w64 (low_first bits values.now) }
{
    let mut long = 0;
    for (i, value) in values.iter().enumerate() {
        long |= u64::from(*value) << (bits * i as u32);
    }
    long.cast_signed()
}

/// The long that as many values fill as it holds, the first one in its lowest bits.
#[inline(always)]
fn full_long(values: &[u16], bits: u32) -> i64
    requires low { 4 ≤ bits }
    requires high { bits ≤ 16 }
    requires count { length values.now ≡ 64 / bits }
    requires fit { All (λ value. value < 2 ^ bits) values.now }
    ensures { result ≡ cast_signed w64 (low_first bits values.now) }
{
    let mut long = 0;
    for i in 0..entries_in_long(bits) {
        long |= u64::from(values[i]) << (bits * i as u32);
    }
    long.cast_signed()
}

/// The long that holds values, the first one in its lowest bits. Most longs are full.
#[inline(always)]
fn packed_long(values: &[u16], bits: u32) -> i64
    requires low { 4 ≤ bits }
    requires high { bits ≤ 16 }
    requires room { bits * length values.now ≤ 64 }
    requires fit { All (λ value. value < 2 ^ bits) values.now }
    ensures { result ≡ cast_signed w64 (low_first bits values.now) }
{
    if values.len() == entries_in_long(bits) {
        full_long(values, bits)
    } else {
        long_of(values, bits)
    }
}

/// The longs that hold 4,096 values, as `pack` gives them.
#[inline(always)]
fn pack_by(alloc: Global, values: &[u16], bits: u32) -> Result<Vec<i64>, AllocError>
    requires low { 4 ≤ bits }
    requires high { bits ≤ 16 }
    requires count { length values.now ≡ 4096 }
    requires fit { All (λ value. value < 2 ^ bits) values.now }
    ensures layout { IfOk result (λ longs. longs.items ≡ packed bits values.now) }
    ensures meaning { IfOk result (λ longs. IsPacked bits values.now longs.items) }
{
    let per_long = (64 / bits) as usize;
    let count = longs_for(bits);
    let mut longs = Vec::with_capacity(alloc, count)?;
    let mut rest = values;
    for _ in 0..count {
        let (first, others) = rest.split_at(per_long.min(rest.len()));
        longs.push(packed_long(first, bits))?;
        rest = others;
    }
    Ok(longs)
}

/// The longs that hold 4,096 values, each below 2^`bits`. The bits that hold no value are 0. Most sections have
/// entries of 4 to 8 bits, so each of these has a loop of its own.
pub fn pack(alloc: Global, values: &[u16], bits: u32) -> Result<Vec<i64>, Fault>
    requires low { 4 ≤ bits }
    requires high { bits ≤ 16 }
    requires count { length values.now ≡ 4096 }
    requires fit { All (λ value. value < 2 ^ bits) values.now }
    ensures layout { IfOk result (λ longs. longs.items ≡ packed bits values.now) }
    ensures meaning { IfOk result (λ longs. IsPacked bits values.now longs.items) }
    ensures memory { IfErr result (λ e. e ≡ OutOfMemory) }
{
    Ok(match bits {
        4 => pack_by(alloc, values, 4)?,
        5 => pack_by(alloc, values, 5)?,
        6 => pack_by(alloc, values, 6)?,
        7 => pack_by(alloc, values, 7)?,
        8 => pack_by(alloc, values, 8)?,
        _ => pack_by(alloc, values, bits)?,
    })
}
