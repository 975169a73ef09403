//! Worlds whose blocks are set one by one.
ghost use Rattle.std.specs.Prelude.{IfOk};
ghost use Rattle.av_types.specs.declared.position.ChunkPos.{ChunkPos};
ghost use Rattle.av_world.specs.Inserted.{IsNewChunk};

use av_cells::Cells;
use av_chunk::Chunk;
use av_section::Section;
use av_ticks::TickList;
use av_types::{ChunkPos, Fault, Height, Pos};
use av_world::World;
use std::alloc::Global;

/// A chunk of air.
fn air_chunk(alloc: Global, height: Height) -> Result<Chunk, Fault>
    ensures { IfOk result (λ chunk. (at : ChunkPos) → IsNewChunk at height chunk) }
{
    let mut sections = Vec::new(alloc);
    for made in 0..height.sections {
        let air = Section::filled(alloc, 0)?;
        sections.push(Some(air))?;
    }
    Ok(Chunk {
        sections,
        ticks: TickList::new(alloc),
    })
}

/// Puts a chunk of air at a position within the limits, unless one is there.
fn add_air(alloc: Global, world: &mut World, at: ChunkPos) -> Result<(), Fault> {
    if !at.region().is_in_limits() {
        return Ok(());
    }
    let None = world.index_of(at) else {
        return Ok(());
    };
    let height = world.height();
    let chunk = air_chunk(alloc, height)?;
    world.insert(at, chunk)
}

/// A world with a chunk of air at each position.
pub fn air(alloc: Global, height: Height, chunks: &[(i32, i32)]) -> Result<World, Fault> {
    let mut world = World::new(alloc, height);
    for (x, z) in chunks {
        add_air(alloc, &mut world, ChunkPos { x: *x, z: *z })?;
    }
    Ok(world)
}

/// Sets a block to a number, where it is loaded.
pub fn put(world: &mut World, pos: Pos, number: u16) -> Result<(), Fault> {
    if !world.loaded(pos) {
        return Ok(());
    }
    world.prepare_set(pos, number)?;
    world.set(pos, number);
    Ok(())
}
