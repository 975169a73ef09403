//! What is written at an index of a region.
ghost use Rattle.std.specs.Prelude.{◌≡◌, ◌≢◌, IfOk, IfErr, OnOk, Some, None, length, map, option_map, true};
ghost use Rattle.av_types.specs.Positions.{IsInLimits};
ghost use Rattle.av_types.specs.declared.fault.Fault.TheVariants.{OutOfMemory, ChunkTooLarge};
ghost use Rattle.av_nbt.specs.Writing.{written_document};
ghost use Rattle.av_land.specs.Land.{has_chunk};
ghost use Rattle.av_codec.specs.Writing.{CanWrite, written};
ghost use Rattle.av_world.specs.Views.{height_of, positions_of};
ghost use Rattle.av_image.specs.Views.{file_in};
ghost use Rattle.av_image.specs.Saving.{CanSave, IsSlotOf};
ghost use Rattle.av_image.specs.SavingSteps.{payload_items, loaded_bytes, slot_payload, file_with, too_large_among};

use crate::rest::{RegionRest, Slot};
use av_chunk::{Chunk, ChunkLight, ChunkRest};
use av_codec::write_chunk;
use av_nbt::encode;
use av_region_files::RegionFile;
use av_rules::Kinds;
use av_types::{ChunkPos, Fault};
use av_world::World;
use std::alloc::{AllocError, Global};
use std::convert::AsSlice;

/// What is written for a chunk.
#[derive(Drop)]
pub(crate) enum Payload<'a> {
    /// The payload of a chunk that is not full, as it was read.
    Kept(&'a [u8]),
    /// The payload of a loaded chunk.
    Written(Vec<u8>),
}

/// The bytes of a payload.
impl AsSlice<u8> for Payload<'_> {
    ghost use Rattle.av_image.specs.SavingSteps.{payload_items};

    ghost items = { payload_items };

    fn as_slice(&self) -> &[u8] {
        match self {
            Payload::Kept(payload) => payload,
            Payload::Written(payload) => payload.as_slice(),
        }
    }
}

/// The payload of a chunk. To write and to encode it can only want memory.
fn written_chunk(
    alloc: Global,
    chunk: &Chunk,
    rest: &ChunkRest,
    kinds: &Kinds,
    light: &ChunkLight,
    elapsed: u32,
) -> Result<Vec<u8>, AllocError>
    requires { CanWrite chunk.now rest.now kinds.now light.now elapsed }
    ensures { IfOk result (λ bytes. bytes.items ≡ written_document
        (written chunk.now rest.now kinds.now light.now elapsed)) }
{
    let Ok(root) = write_chunk(alloc, chunk, rest, kinds, light, elapsed) else {
        return Err(AllocError);
    };
    let Ok(bytes) = encode(alloc, &root) else {
        return Err(AllocError);
    };
    Ok(bytes)
}

/// The payload of the world's chunk at a position.
pub(crate) fn loaded_payload(
    alloc: Global,
    world: &World,
    at: ChunkPos,
    rest: &ChunkRest,
    kinds: &Kinds,
    lights: &[ChunkLight],
    elapsed: u32,
) -> Result<Vec<u8>, AllocError>
    requires can { CanSave world.now kinds.now lights.now elapsed }
    requires there { has_chunk (positions_of world.now) at ≡ true }
    requires own { rest.now.pos ≡ at }
    requires height { rest.now.height ≡ height_of world.now }
    ensures { IfOk result (λ bytes. bytes.items ≡ loaded_bytes world.now kinds.now lights.now
        elapsed at rest.now) }
{
    let Some(index) = world.index_of(at) else {
        unreachable!()
    };
    written_chunk(
        alloc,
        world.chunk(index),
        rest,
        kinds,
        &lights[index],
        elapsed,
    )
}

/// What is written at an index, where a region keeps this.
pub(crate) fn payload_from<'a>(
    alloc: Global,
    world: &World,
    at: ChunkPos,
    slot: &'a Slot,
    kinds: &Kinds,
    lights: &[ChunkLight],
    elapsed: u32,
) -> Result<Option<Payload<'a>>, AllocError>
    requires can { CanSave world.now kinds.now lights.now elapsed }
    requires slot { IsSlotOf (height_of world.now) (positions_of world.now) at slot.now }
    ensures { IfOk result (λ p. option_map payload_items p
        ≡ slot_payload world.now kinds.now lights.now elapsed at (Some slot.now)) }
{
    match slot {
        Slot::Absent => Ok(None),
        Slot::Kept(payload) => Ok(Some(Payload::Kept(payload.as_slice()))),
        Slot::Loaded(rest) => {
            let bytes = loaded_payload(alloc, world, at, rest, kinds, lights, elapsed)?;
            Ok(Some(Payload::Written(bytes)))
        }
    }
}

/// The file of a region with these payloads.
pub(crate) fn region_of(
    alloc: Global,
    region: &RegionRest,
    payloads: &[Option<Payload<'_>>],
) -> Result<RegionFile, Fault>
    requires limits { IsInLimits region.now.pos }
    requires stamps { length region.now.stamps.items ≡ 1024 }
    requires payloads { length payloads.now ≡ 1024 }
    ensures ok { IfOk result (λ file. file_in file
        ≡ file_with region.now (map (option_map payload_items) payloads.now)) }
    ensures fits { OnOk result (too_large_among region.now
        (map (option_map payload_items) payloads.now) ≡ None) }
    ensures err { IfErr result (λ e. e ≢ OutOfMemory
        → option_map ChunkTooLarge (too_large_among region.now
        (map (option_map payload_items) payloads.now)) ≡ Some e) }
{
    let bytes = av_region::write(alloc, region.pos, payloads, region.stamps.as_slice())?;
    Ok(RegionFile {
        pos: region.pos,
        bytes,
    })
}
