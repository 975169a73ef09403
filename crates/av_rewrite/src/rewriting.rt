//! Reading every chunk of a region, and writing a region of what was read.
ghost use Rattle.std.specs.Prelude.{◌≤◌, IfOk, List, length, map, option_map, ℕ};
ghost use Rattle.av_types.specs.declared.position.Height.{Height};
ghost use Rattle.av_state.specs.Table.{states};
ghost use Rattle.av_section.specs.Reading.{OnlyGrows};
ghost use Rattle.av_region.specs.Region.{Holds};
ghost use Rattle.av_chunk.specs.Light.{section_count};
ghost use Rattle.av_codec.specs.Writing.{states_of_kinds};
ghost use Rattle.av_rewrite.specs.Regions.{AreMadeOf, IsMadeOf, IsRegionMadeOf};
ghost use Rattle.av_rewrite.specs.Rewriting.{AreSlots, IsRewritten, IsSlotRead, SlotWasRead, SlotsWereRead};

use crate::recoding::stamps_of;
use av_chunk::{Chunk, ChunkLight, ChunkRest, Reading};
use av_codec::{read_chunk, write_chunk};
use av_nbt::{decode, encode};
use av_region::{CHUNKS, Region, write};
use av_rules::{Kinds, Rules};
use av_state::StateTable;
use av_types::{Fault, Height, RegionPos};
use std::alloc::Global;

/// The region that is read and written.
const REGION: RegionPos = RegionPos { x: 0, z: 0 };

/// What a region has at an index.
#[derive(Drop)]
enum Slot<'a> {
    Absent,
    Kept(&'a [u8]),
    Full { chunk: Chunk, rest: ChunkRest },
}

/// A payload that the region holds at an index, read.
fn read_payload<'a>(
    alloc: Global,
    payload: &'a [u8],
    index: usize,
    height: Height,
    table: &mut StateTable,
) -> Result<Slot<'a>, Fault>
    requires index { index ≤ 1023 }
    requires small { length payload.now ≤ 1044475 }
    ensures slot { (region : List ℕ) → Holds region index payload.now
        → IfOk result (IsSlotRead height region (states table.new) index) }
    ensures table { OnlyGrows (states table.old) (states table.new) }
{
    let root = decode(alloc, payload)?;
    match read_chunk(alloc, root, REGION.chunk_at(index), height, table)? {
        Reading::Kept => Ok(Slot::Kept(payload)),
        Reading::Full { chunk, rest } => Ok(Slot::Full { chunk, rest }),
    }
}

/// What the region holds at an index, read.
fn read_slot<'a>(
    alloc: Global,
    region: &Region<'a>,
    index: usize,
    height: Height,
    table: &mut StateTable,
) -> Result<Slot<'a>, Fault>
    requires { index ≤ 1023 }
    ensures slot { IfOk result (IsSlotRead height region.now.bytes.now (states table.new) index) }
    ensures table { OnlyGrows (states table.old) (states table.new) }
{
    match region.payload(index)? {
        None => Ok(Slot::Absent),
        Some(payload) => read_payload(alloc, payload, index, height, table),
    }
}

fn read_slots<'a>(
    alloc: Global,
    region: &Region<'a>,
    height: Height,
    table: &mut StateTable,
) -> Result<Vec<Slot<'a>>, Fault>
    ensures { IfOk result (λ slots. AreSlots height region.now.bytes.now
        (states table.new) 1024 slots.items) }
{
    let mut slots = Vec::new(alloc);
    for index in 0..CHUNKS {
        slots.push(read_slot(alloc, region, index, height, table)?)?;
    }
    Ok(slots)
}

/// The bytes for a chunk, dark and with no tick run.
fn dark_bytes(
    alloc: Global,
    chunk: Chunk,
    rest: ChunkRest,
    kinds: &Kinds,
    light: &ChunkLight,
) -> Result<Vec<u8>, Fault>
    requires { SlotWasRead (states_of_kinds kinds.now) (section_count light.now)
        (Slot.Full chunk rest) }
    ensures { (h : Height) (region : List ℕ) (index : ℕ) → IsSlotRead h region (states_of_kinds kinds.now) index (Slot.Full chunk rest)
        → IfOk result (λ bytes. IsMadeOf (IsRewritten h) region index (Some bytes.items)) }
{
    let root = write_chunk(alloc, &chunk, &rest, kinds, light, 0)?;
    encode(alloc, &root)
}

/// What is written for an index.
fn write_slot(
    alloc: Global,
    slot: Slot<'_>,
    kinds: &Kinds,
    light: &ChunkLight,
) -> Result<Option<Vec<u8>>, Fault>
    requires { SlotWasRead (states_of_kinds kinds.now) (section_count light.now) slot }
    ensures { (h : Height) (region : List ℕ) (index : ℕ) → IsSlotRead h region (states_of_kinds kinds.now) index slot.entry
        → IfOk result (λ made. IsMadeOf (IsRewritten h) region index (option_map (λ v. v.items) made)) }
{
    match slot {
        Slot::Absent => Ok(None),
        Slot::Kept(payload) => Ok(Some(Vec::from_slice(alloc, payload)?)),
        Slot::Full { chunk, rest } => Ok(Some(dark_bytes(alloc, chunk, rest, kinds, light)?)),
    }
}

/// What is written for each index. A chunk leaves memory once it was written.
fn write_slots(
    alloc: Global,
    slots: Vec<Slot<'_>>,
    kinds: &Kinds,
    light: &ChunkLight,
) -> Result<Vec<Option<Vec<u8>>>, Fault>
    requires { SlotsWereRead (states_of_kinds kinds.now) (section_count light.now) slots.items }
    ensures { (h : Height) (region : List ℕ) (count : ℕ) → AreSlots h region (states_of_kinds kinds.now) count slots.entry.items
        → IfOk result (λ payloads. AreMadeOf (IsRewritten h) region count (map (option_map (λ v. v.items)) payloads.items)) }
{
    let mut payloads = Vec::new(alloc);
    for slot in slots {
        payloads.push(write_slot(alloc, slot, kinds, light)?)?;
    }
    Ok(payloads)
}

/// A region file for (0, 0) with every full chunk of another one read and written again, dark, with no tick run and with no
/// block table, at its index and with its timestamp. The others are kept byte for byte.
///
/// # Errors
/// What `Region::read`, `Region::payload`, `decode` and `read_chunk` refuse, and what the new file can't hold. `OutOfMemory`.
pub fn rewrite(alloc: Global, bytes: &[u8], height: Height) -> Result<Vec<u8>, Fault>
    ensures { IfOk result (λ file. IsRegionMadeOf (IsRewritten height) bytes.now file.items) }
{
    let region = Region::read(bytes)?;
    let mut table = StateTable::new(alloc)?;
    let slots = read_slots(alloc, &region, height, &mut table)?;
    let kinds = Kinds::new(alloc, table, &Rules::read(alloc, b"version = 1")?)?;
    let light = ChunkLight::new(alloc, height.sections)?;
    let payloads = write_slots(alloc, slots, &kinds, &light)?;
    let stamps = stamps_of(alloc, &region)?;
    write(alloc, REGION, payloads.as_slice(), stamps.as_slice())
}
