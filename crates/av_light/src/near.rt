//! The blocks that give light to one chunk.
ghost use Rattle.std.specs.Prelude.{◌≡◌, ◌↔◌, ◌-ℤ◌, ◌≤ℤ◌, pos, negsuc, map, IsTrue, IfOk};
ghost use Rattle.av_flood.specs.Blocks.{AreKnown};
ghost use Rattle.av_world.specs.Views.{blocks};
ghost use Rattle.av_section_light.specs.Light.{terrain_of};
ghost use Rattle.av_section_light.specs.Lamps.{HasLamps};
ghost use Rattle.av_light.specs.Lamps.{lamps_at, IsStep, IsBeside};

use crate::lamps::lamps_of;
use av_rules::Kinds;
use av_types::{ChunkPos, Pos};
use av_world::World;
use std::alloc::{AllocError, Global};

/// How many after one coordinate another is.
fn steps(from: i32, to: i32) -> i64
    ensures is { result ≡ to -ℤ from }
    ensures low { negsuc 4294967295 ≤ℤ result }
    ensures high { result ≤ℤ pos 4294967295 }
{
    i64::from(to) - i64::from(from)
}

/// Whether so many chunks east and south is at most one each way.
fn is_step(x: i64, z: i64) -> bool
    ensures { IsTrue result ↔ IsStep x z }
{
    -1 <= x && x <= 1 && -1 <= z && z <= 1
}

/// Whether a chunk is one of the nine around another.
fn is_beside(chunk: ChunkPos, other: ChunkPos) -> bool
    ensures { IsTrue result ↔ IsBeside chunk other }
{
    let x = steps(chunk.x, other.x);
    let z = steps(chunk.z, other.z);
    is_step(x, z)
}

/// The blocks of a chunk that give light, if it is one of the nine around another.
fn lamps_beside(
    alloc: Global,
    world: &World,
    kinds: &Kinds,
    chunk: ChunkPos,
    other: ChunkPos,
) -> Result<Vec<Pos>, AllocError>
    ensures { IfOk result (λ lamps. IsBeside chunk other
        → HasLamps (terrain_of kinds.now (blocks world.now)) other lamps.items) }
{
    if !is_beside(chunk, other) {
        return Ok(Vec::new(alloc));
    }
    lamps_of(alloc, world, kinds, other)
}

/// The blocks that give light in the nine chunks around one, a list for each chunk of the world. Those of other chunks are
/// empty, and no block of them is looked at.
pub(crate) fn lists_beside(
    alloc: Global,
    world: &World,
    kinds: &Kinds,
    chunk: ChunkPos,
) -> Result<Vec<Vec<Pos>>, AllocError>
    ensures { IfOk result (λ lists. AreKnown (terrain_of kinds.now (blocks world.now))
        (lamps_at world.now (map (λ v. v.items) lists.items)) chunk) }
{
    let positions = world.positions();
    let mut lists = Vec::with_capacity(alloc, positions.len())?;
    for other in positions {
        let lamps = lamps_beside(alloc, world, kinds, chunk, *other)?;
        lists.push(lamps)?;
    }
    Ok(lists)
}
