//! What was read of regions, split into a world and a rest.
ghost use Rattle.std.specs.Prelude.{◌≡◌, ◌<◌, ◌≤◌, ◌++◌, IfOk, OnOk, false, length, map};
ghost use Rattle.std.specs.List.{All, flat_map};
ghost use Rattle.av_types.specs.Positions.{IsInLimits, region_of};
ghost use Rattle.av_world.specs.Inserted.{IsNewChunk};
ghost use Rattle.av_world.specs.Views.{is_broken};
ghost use Rattle.av_image.specs.Splits.{slot_of, positioned_of, positioned_from, positioned_in, IsSplit, AreSplit, ArePositionedOnce, IsWorldOf};

use crate::reading::regions::ReadRegion;
use crate::reading::stored::Stored;
use crate::rest::{RegionRest, Slot};
use av_chunk::Chunk;
use av_types::{ChunkPos, Height, RegionPos};
use av_world::World;
use std::alloc::{AllocError, Global};

/// A loaded chunk and its position.
#[derive(Drop)]
pub(crate) struct LoadedChunk {
    pub(crate) at: ChunkPos,
    pub(crate) chunk: Chunk,
}

/// What stays of an index. A chunk goes to those that were found.
fn split_one(item: Stored, at: ChunkPos, found: &mut Vec<LoadedChunk>) -> Result<Slot, AllocError>
    ensures slot { IfOk result (λ slot. slot ≡ slot_of item) }
    ensures found { OnOk result (found.new.items ≡ found.old.items ++ positioned_of at item) }
{
    match item {
        Stored::Absent => Ok(Slot::Absent),
        Stored::Kept(payload) => Ok(Slot::Kept(payload)),
        Stored::Full { chunk, rest } => {
            found.push(LoadedChunk { at, chunk })?;
            Ok(Slot::Loaded(rest))
        }
    }
}

/// What stays of all indices of a region.
fn split_all(
    alloc: Global,
    stored: Vec<Stored>,
    pos: RegionPos,
    found: &mut Vec<LoadedChunk>,
) -> Result<Vec<Slot>, AllocError>
    requires limits { IsInLimits pos }
    requires count { length stored.items ≤ 1024 }
    ensures slots { IfOk result (λ slots. slots.items ≡ map slot_of stored.items) }
    ensures found { OnOk result (found.new.items ≡ found.old.items
        ++ positioned_from pos 0 stored.items) }
{
    let mut slots = Vec::new(alloc);
    for item in stored {
        let at = pos.chunk_at(slots.len());
        slots.push(split_one(item, at, found)?)?;
    }
    Ok(slots)
}

/// What stays of a region.
fn split_region(
    alloc: Global,
    region: ReadRegion,
    found: &mut Vec<LoadedChunk>,
) -> Result<RegionRest, AllocError>
    requires limits { IsInLimits region.pos }
    requires count { length region.stored.items ≤ 1024 }
    ensures rest { IfOk result (IsSplit region) }
    ensures found { OnOk result (found.new.items ≡ found.old.items ++ positioned_in region) }
{
    let ReadRegion {
        pos,
        stamps,
        stored,
    } = region;
    let slots = split_all(alloc, stored, pos, found)?;
    Ok(RegionRest { pos, stamps, slots })
}

/// What stays of regions.
pub(crate) fn split_regions(
    alloc: Global,
    regions: Vec<ReadRegion>,
    found: &mut Vec<LoadedChunk>,
) -> Result<Vec<RegionRest>, AllocError>
    requires limits { All (λ r. IsInLimits r.pos) regions.items }
    requires count { All (λ r. length r.stored.items ≤ 1024) regions.items }
    ensures rest { IfOk result (λ rests. AreSplit regions.items rests.items) }
    ensures found { OnOk result (found.new.items ≡ found.old.items
        ++ flat_map positioned_in regions.items) }
{
    let mut rests = Vec::new(alloc);
    for region in regions {
        rests.push(split_region(alloc, region, found)?)?;
    }
    Ok(rests)
}

/// A world of chunks, in the order of their positions.
pub(crate) fn world_of(
    alloc: Global,
    height: Height,
    found: Vec<LoadedChunk>,
) -> Result<World, AllocError>
    requires limits { All (λ x. IsInLimits (region_of x.at)) found.items }
    requires fits { All (λ x. IsNewChunk x.at height x.chunk) found.items }
    requires once { ArePositionedOnce found.items }
    ensures world { IfOk result (IsWorldOf height found.items) }
    ensures sound { IfOk result (λ w. is_broken w ≡ false) }
{
    let mut world = World::new(alloc, height);
    for positioned in found {
        let Ok(()) = world.insert(positioned.at, positioned.chunk) else {
            return Err(AllocError);
        };
    }
    Ok(world)
}
