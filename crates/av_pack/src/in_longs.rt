//! Packed entries that are looked through in their longs, without a list of them.
ghost use Rattle.std.specs.Prelude.{◌≡◌, ◌<◌, ◌≤◌, ◌+◌, ◌*◌, ◌/◌, ◌%◌, ◌-◌, ◌^◌, ℕ, IfOk, IsTrue, ◌↔◌, length, min, nat_lt};
ghost use Rattle.std.specs.List.{list_all};
ghost use Rattle.std.specs.Int.{cast_signed, cast_unsigned, w64};
ghost use Rattle.av_pack.specs.Packing.{longs_for, packed_at, packed, unpacked};
ghost use Rattle.av_pack.specs.Fields.{ones, entry_of, entries_of, IsHalfBelow};
ghost use Rattle.av_pack.specs.Order.{AreInOrder};
ghost use Rattle.av_pack.specs.Seen.{seen_with, seen_after};

use crate::packing::{ENTRIES, entries_in_long, field};
use std::alloc::{AllocError, Global};

/// What stands for "one was left out": more than any number of entries.
const LEFT_OUT: usize = 65537;

/// How many of the 4,096 entries a long holds, which is the one of an index.
#[inline(always)]
#[tactic(auto, using(crate::proofs::InLongs::begins_below))]
fn entries_held(bits: u32, index: usize) -> usize
    requires low { 4 ≤ bits }
    requires high { bits ≤ 16 }
    requires within { index < longs_for bits }
    ensures value { result ≡ min (64 / bits) (4096 - 64 / bits * index) }
    ensures some { 0 < result }
    ensures few { result ≤ 64 / bits }
{
    let full = entries_in_long(bits);
    full.min(ENTRIES - full * index)
}

/// A one at the lowest bit of every other entry of a long, from the first one on.
#[inline(always)]
fn ones(bits: u32) -> u64
    requires low { 4 ≤ bits }
    requires high { bits ≤ 16 }
    ensures value { result ≡ ones (2 * bits) ((64 / bits + 1) / 2) }
    ensures room { (2 ^ (bits + 1) - 1) * result < 2 ^ 64 }
{
    match bits {
        4 => 0x0101_0101_0101_0101,
        5 => 0x0004_0100_4010_0401,
        6 => 0x0001_0010_0100_1001,
        7 => 0x0100_0400_1000_4001,
        8 => 0x0001_0001_0001_0001,
        9 => 0x0040_0010_0004_0001,
        10 => 0x0000_0100_0010_0001,
        11 => 0x0000_1000_0040_0001,
        12 => 0x0001_0000_0100_0001,
        13 => 0x0000_0000_0400_0001,
        14 => 0x0000_0000_1000_0001,
        15 => 0x0000_0000_4000_0001,
        _ => 0x0000_0001_0000_0001,
    }
}

/// Whether every other entry of a long, from the first one on, is below a number, seen at once: each has the bits of the
/// next one as room, and what is added to it carries into that room where it is not below. A bit that holds no entry
/// may deny it.
#[inline(always)]
fn half_below(long: u64, bits: u32, count: usize) -> bool
    requires low { 4 ≤ bits }
    requires high { bits ≤ 16 }
    ensures { IsTrue result → IsHalfBelow bits count long }
{
    let ones = ones(bits);
    let most = (1 << bits) - 1;
    let added = (1usize << bits).saturating_sub(count) as u64;
    (long & most * ones) + added * ones & ones << bits == 0
}

/// Whether all entries of a long are below a number, seen at once. A bit that holds no entry may deny it.
#[inline(always)]
fn all_below(long: u64, bits: u32, count: usize) -> bool
    requires low { 4 ≤ bits }
    requires high { bits ≤ 16 }
    ensures { IsTrue result → (i : ℕ) → i < 64 / bits → entry_of bits long i < count }
{
    half_below(long, bits, count) && half_below(long >> bits, bits, count)
}

/// Whether the first entries of a long are below a number, one after the other.
#[inline(always)]
fn first_below(long: u64, bits: u32, few: usize, count: usize) -> bool
    requires low { 4 ≤ bits }
    requires high { bits ≤ 16 }
    requires few { few ≤ 64 / bits }
    ensures { result ≡ list_all (λ entry. nat_lt entry count) (entries_of bits long few) }
{
    for i in 0..few {
        if usize::from(field(long, bits * i as u32, bits)) >= count {
            return false;
        }
    }
    true
}

/// Whether the first entries of a long are below a number. Most longs are seen to be at once.
#[inline(always)]
fn long_below(long: u64, bits: u32, few: usize, count: usize) -> bool
    requires low { 4 ≤ bits }
    requires high { bits ≤ 16 }
    requires few { few ≤ 64 / bits }
    ensures { result ≡ list_all (λ entry. nat_lt entry count) (entries_of bits long few) }
{
    if all_below(long, bits, count) {
        return true;
    }
    first_below(long, bits, few, count)
}

/// Whether each entry is below a number, as `entries_below` says.
#[inline(always)]
fn below_by(longs: &[i64], bits: u32, count: usize) -> bool
    requires low { 4 ≤ bits }
    requires high { bits ≤ 16 }
    requires count { length longs.now ≡ longs_for bits }
    ensures { result ≡ list_all (λ entry. nat_lt entry count) (unpacked bits longs.now) }
{
    for (i, long) in longs.iter().enumerate() {
        if !long_below(long.cast_unsigned(), bits, entries_held(bits, i), count) {
            return false;
        }
    }
    true
}

/// Whether each of the 4,096 entries is below a number. The longs are as many as `longs_for` says. Entries of 4 to 8
/// bits, which most sections have, have loops of their own, and where every entry is small enough none is looked at.
pub fn entries_below(longs: &[i64], bits: u32, count: usize) -> bool
    requires low { 4 ≤ bits }
    requires high { bits ≤ 16 }
    requires count { length longs.now ≡ longs_for bits }
    ensures { result ≡ list_all (λ entry. nat_lt entry count) (unpacked bits longs.now) }
{
    if count >= 1 << bits {
        return true;
    }
    match bits {
        4 => below_by(longs, 4, count),
        5 => below_by(longs, 5, count),
        6 => below_by(longs, 6, count),
        7 => below_by(longs, 7, count),
        8 => below_by(longs, 8, count),
        _ => below_by(longs, bits, count),
    }
}

/// Below which number all entries came, once one more came.
#[inline(always)]
fn seen_with(next: usize, entry: u16) -> usize
    requires { next ≤ 65537 }
    ensures value { result ≡ seen_with next entry }
    ensures bound { result ≤ 65537 }
{
    let entry = usize::from(entry);
    if entry == next {
        return next + 1;
    }
    if entry < next {
        return next;
    }
    LEFT_OUT
}

/// The same once the first entries of a long came, one after the other.
#[inline(always)]
fn seen_with_each(long: u64, bits: u32, few: usize, start: usize) -> usize
    requires low { 4 ≤ bits }
    requires high { bits ≤ 16 }
    requires few { few ≤ 64 / bits }
    requires start { start ≤ 65537 }
    ensures value { result ≡ seen_after start (entries_of bits long few) }
    ensures bound { result ≤ 65537 }
{
    let mut next = start;
    for i in 0..few {
        next = seen_with(next, field(long, bits * i as u32, bits));
    }
    next
}

/// The same once the first entries of a long came. Most longs are seen at once to have none that is new.
#[inline(always)]
fn seen_in_long(long: u64, bits: u32, few: usize, start: usize) -> usize
    requires low { 4 ≤ bits }
    requires high { bits ≤ 16 }
    requires few { few ≤ 64 / bits }
    requires start { start ≤ 65537 }
    ensures value { result ≡ seen_after start (entries_of bits long few) }
    ensures bound { result ≤ 65537 }
{
    if all_below(long, bits, start) {
        return start;
    }
    seen_with_each(long, bits, few, start)
}

/// Whether the entries come in order, as `used_in_order` says.
#[inline(always)]
fn in_order_by(longs: &[i64], bits: u32, count: usize) -> bool
    requires low { 4 ≤ bits }
    requires high { bits ≤ 16 }
    requires count { length longs.now ≡ longs_for bits }
    requires few { count ≤ 65536 }
    requires below { (i : ℕ) → i < 4096 → packed_at bits longs.now i < count }
    ensures { IsTrue result ↔ AreInOrder count (unpacked bits longs.now) }
{
    let mut next = 0;
    for (i, long) in longs.iter().enumerate() {
        // All came, or one was left out: what is left changes nothing.
        if next >= count {
            return next == count;
        }
        next = seen_in_long(long.cast_unsigned(), bits, entries_held(bits, i), next);
    }
    next == count
}

/// Whether each number below `count` is one of the 4,096 entries, with smaller ones alone before it. The longs are as many
/// as `longs_for` says, and each entry is below `count`. Entries of 4 to 8 bits, which most sections have, have loops of
/// their own.
pub fn used_in_order(longs: &[i64], bits: u32, count: usize) -> bool
    requires low { 4 ≤ bits }
    requires high { bits ≤ 16 }
    requires count { length longs.now ≡ longs_for bits }
    requires few { count ≤ 65536 }
    requires below { (i : ℕ) → i < 4096 → packed_at bits longs.now i < count }
    ensures { IsTrue result ↔ AreInOrder count (unpacked bits longs.now) }
{
    match bits {
        4 => in_order_by(longs, 4, count),
        5 => in_order_by(longs, 5, count),
        6 => in_order_by(longs, 6, count),
        7 => in_order_by(longs, 7, count),
        8 => in_order_by(longs, 8, count),
        _ => in_order_by(longs, bits, count),
    }
}

/// How many bits of the long of an index hold entries.
#[inline(always)]
#[tactic(auto, using(crate::proofs::InLongs::width_few))]
fn bits_held(bits: u32, index: usize) -> u32
    requires low { 4 ≤ bits }
    requires high { bits ≤ 16 }
    requires within { index < longs_for bits }
    ensures value { result ≡ bits * min (64 / bits) (4096 - 64 / bits * index) }
    ensures few { result ≤ 64 }
{
    bits * entries_held(bits, index) as u32
}

/// The low bits of a long, so many of them.
#[inline(always)]
#[tactic(auto, using(crate::proofs::InLongs::masked))]
fn low_bits(long: u64, width: u32) -> u64
    requires { width ≤ 64 }
    ensures { result ≡ long % 2 ^ width }
{
    if width == 64 {
        return long;
    }
    long & ((1 << width) - 1)
}

/// A long with 0 in all but its low bits.
#[inline(always)]
fn low_long(long: i64, width: u32) -> i64
    requires { width ≤ 64 }
    ensures { result ≡ cast_signed w64 (cast_unsigned w64 long % 2 ^ width) }
{
    low_bits(long.cast_unsigned(), width).cast_signed()
}

/// The longs of the same 4,096 entries, with 0 in all bits that hold none: what `pack` gives of what `unpack` gives. The
/// longs are as many as `longs_for` says.
pub fn cleaned(alloc: Global, longs: &[i64], bits: u32) -> Result<Vec<i64>, AllocError>
    requires low { 4 ≤ bits }
    requires high { bits ≤ 16 }
    requires count { length longs.now ≡ longs_for bits }
    ensures { IfOk result (λ cleaned. cleaned.items ≡ packed bits (unpacked bits longs.now)) }
{
    let mut cleaned = Vec::with_capacity(alloc, longs.len())?;
    for (i, long) in longs.iter().enumerate() {
        cleaned.push(low_long(*long, bits_held(bits, i)))?;
    }
    Ok(cleaned)
}
