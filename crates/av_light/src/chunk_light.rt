//! The light of one chunk of a world.
ghost use Rattle.std.specs.Prelude.{◌≡◌, false, OnOk, IfOk, IfErr, if◌then◌else◌};
ghost use Rattle.av_types.specs.Positions.{chunk_of};
ghost use Rattle.av_types.specs.declared.position.Pos.{Pos};
ghost use Rattle.av_types.specs.declared.fault.Fault.TheVariants.{OutOfMemory, Broken};
ghost use Rattle.av_flood.specs.Light.{IsLight};
ghost use Rattle.av_flood.specs.Board.{light_of};
ghost use Rattle.av_world.specs.Views.{height_of, blocks, is_broken};
ghost use Rattle.av_section_light.specs.Light.{terrain_of, IsChunkLight};

use crate::around::Around;
use crate::lamps::Lamps;
use crate::near::lists_beside;
use av_chunk::ChunkLight;
use av_flood::Flood;
use av_rules::Kinds;
use av_section_light::{flood_in, light_in};
use av_types::{ChunkPos, Fault};
use av_world::World;
use std::alloc::{AllocError, Global};

/// A board on which each block of a chunk has its light: that of its brightest path in the whole world. The nine
/// chunks around it are looked through for what gives light; for the light of many chunks, `light_all` does that once.
///
/// # Errors
/// `Broken` of a broken world, and else `OutOfMemory`.
pub fn flood(alloc: Global, world: &World, kinds: &Kinds, chunk: ChunkPos) -> Result<Flood, Fault>
    ensures chunk { IfOk result (λ f. f.chunk ≡ chunk) }
    ensures height { IfOk result (λ f. f.height ≡ height_of world.now) }
    ensures light { IfOk result (λ f. (p : Pos) → chunk_of p ≡ chunk
        → IsLight (terrain_of kinds.now (blocks world.now)) p (light_of f p)) }
    ensures sound { OnOk result (is_broken world.now ≡ false) }
    ensures err { IfErr result (λ e. e ≡ (if is_broken world.now then Broken else OutOfMemory)) }
{
    if world.broken() {
        return Err(Fault::Broken);
    }
    let lists = lists_beside(alloc, world, kinds, chunk)?;
    let around = Around::new(world, lists.as_slice(), chunk);
    flood_in(alloc, &around, kinds, chunk, None)
}

/// The light of a chunk of a world, broken or not. A board is used again, and left for the next chunk.
pub(crate) fn light_at(
    alloc: Global,
    lamps: &Lamps<'_>,
    chunk: ChunkPos,
    board: &mut Option<Flood>,
) -> Result<ChunkLight, AllocError>
    ensures { IfOk result (IsChunkLight lamps.now.kinds.now (blocks lamps.now.world.now)
        (height_of lamps.now.world.now) chunk) }
{
    let around = Around::new(lamps.world, lamps.lists.as_slice(), chunk);
    let Ok(light) = light_in(alloc, &around, lamps.kinds, chunk, board) else {
        return Err(AllocError);
    };
    Ok(light)
}

/// The light of a chunk's sections: the half byte of each block is its light. It costs what `flood` does.
///
/// # Errors
/// `Broken` of a broken world, and else `OutOfMemory`.
pub fn light_of_chunk(
    alloc: Global,
    world: &World,
    kinds: &Kinds,
    chunk: ChunkPos,
) -> Result<ChunkLight, Fault>
    ensures light { IfOk result (IsChunkLight kinds.now (blocks world.now)
        (height_of world.now) chunk) }
    ensures sound { OnOk result (is_broken world.now ≡ false) }
    ensures err { IfErr result (λ e. e ≡ (if is_broken world.now then Broken else OutOfMemory)) }
{
    if world.broken() {
        return Err(Fault::Broken);
    }
    let lists = lists_beside(alloc, world, kinds, chunk)?;
    let around = Around::new(world, lists.as_slice(), chunk);
    light_in(alloc, &around, kinds, chunk, &mut None)
}
