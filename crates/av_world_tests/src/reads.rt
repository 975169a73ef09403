//! What stands in a world: numbers of blocks, water, and entries.
ghost use Rattle.std.specs.Prelude.{◌<◌, pos};

use av_cells::Cells;
use av_types::{ChunkPos, Entry, Fault, Pos};
use av_world::World;
use std::alloc::Global;

/// How many blocks two chunks of the game's height have.
const BLOCKS: u32 = 196608;

/// The number of a block, if it is loaded.
pub fn number_at<C: Cells>(cells: &C, pos: Pos) -> Option<u16> {
    cells.number_at(pos)
}

/// The blocks of the chunks (0, 0) and (1, 0), by y, z and x.
fn block_of(index: u32) -> Pos
    requires { index < 196608 }
{
    Pos {
        x: (index % 32) as i32,
        y: (index / 512) as i32 - 64,
        z: (index / 32 % 16) as i32,
    }
}

/// A block of water with its level, where it is one.
fn water_at<C: Cells>(cells: &C, pos: Pos) -> Option<(i32, i32, i32, u16)> {
    match number_at(cells, pos) {
        Some(number) => {
            if 1 <= number && number <= 9 {
                Some((pos.x, pos.y, pos.z, number - 1))
            } else {
                None
            }
        }
        None => None,
    }
}

/// The blocks of water in the chunks (0, 0) and (1, 0), each with its x, y, z and level, by y, z and x. Level 8 falls.
pub fn water_in<C: Cells>(alloc: Global, cells: &C) -> Result<Vec<(i32, i32, i32, u16)>, Fault> {
    let mut found = Vec::new(alloc);
    for index in 0..BLOCKS {
        if let Some(block) = water_at(cells, block_of(index)) {
            found.push(block)?;
        }
    }
    Ok(found)
}

/// The list of a chunk, which is empty where the chunk is not there.
pub fn list_of(world: &World, chunk: ChunkPos) -> &[Entry] {
    match world.index_of(chunk) {
        None => &[],
        Some(index) => world.chunk(index).ticks.as_slice(),
    }
}

/// The entries of a chunk's list, in order.
pub fn entries_in(alloc: Global, world: &World, chunk: ChunkPos) -> Result<Vec<Entry>, Fault> {
    Ok(Vec::from_slice(alloc, list_of(world, chunk))?)
}
