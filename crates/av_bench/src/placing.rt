//! Where the entries are.
ghost use Rattle.std.specs.Prelude.{All, IsTrue, IfOk, OnOk};
ghost use Rattle.av_world.specs.Views.{blocks};

use av_cells::Cells;
use av_types::{ChunkPos, Entry, Fault, Height, Pos};
use av_world::World;
use av_world_tests::worlds::flat_world;
use std::alloc::Global;

/// How the entries lie.
#[derive(Clone, Copy)]
pub(crate) enum Layout {
    /// One layer of water, row after row.
    Lake,
    /// Anywhere.
    Spread,
    /// In the middles of sections, so that each section is a part of its own.
    Pools,
}

pub(crate) fn layout_of(word: &str) -> Option<Layout> {
    match word {
        "lake" => Some(Layout::Lake),
        "spread" => Some(Layout::Spread),
        "pools" => Some(Layout::Pools),
        _ => None,
    }
}

/// A world of 32 chunks a side.
pub(crate) fn square(alloc: Global) -> Result<World, Fault> {
    let mut chunks = Vec::new(alloc);
    for z in 0..32 {
        for x in 0..32 {
            chunks.push(ChunkPos { x, z })?;
        }
    }
    flat_world(alloc, Height::game(), chunks.as_slice())
}

fn in_lake(number: u32) -> Pos {
    Pos {
        x: (number % 512) as i32,
        y: 62,
        z: (number / 512 % 512) as i32,
    }
}

fn anywhere(mixed: u32) -> Pos {
    Pos {
        x: (mixed / 1024 % 512) as i32,
        y: (mixed / 524_288 % 384) as i32 - 64,
        z: (mixed % 512) as i32,
    }
}

fn in_pools(low: u32, mixed: u32) -> Pos {
    Pos {
        x: (low % 32 * 16 + 6 + mixed % 4) as i32,
        y: (mixed / 16 % 24 * 16) as i32 - 60,
        z: (low / 32 * 16 + 6 + mixed / 4 % 4) as i32,
    }
}

/// The block of the entry with a number.
fn block_of(layout: Layout, number: u32) -> Pos {
    let mixed = number.wrapping_mul(2_654_435_761);
    match layout {
        Layout::Lake => in_lake(number),
        Layout::Spread => anywhere(mixed),
        Layout::Pools => in_pools(number % 1024, mixed / 65_536),
    }
}

/// One entry more, of a loaded block.
fn push_loaded(world: &World, entries: &mut Vec<Entry>, pos: Pos) -> Result<(), Fault>
    requires { All (λ e. IsTrue ((blocks world.now).loaded e.pos)) entries.old.items }
    ensures { OnOk result (All (λ e. IsTrue ((blocks world.now).loaded e.pos)) entries.new.items) }
{
    if !world.loaded(pos) {
        return Err(Fault::EditOutside(0));
    }
    entries.push(Entry {
        pos,
        due: 5,
        priority: 0,
    })?;
    Ok(())
}

/// So many entries of loaded blocks.
pub(crate) fn entries_of(
    alloc: Global,
    world: &World,
    layout: Layout,
    count: u32,
) -> Result<Vec<Entry>, Fault>
    ensures { IfOk result (λ entries. All (λ e. IsTrue ((blocks world.now).loaded e.pos))
        entries.items) }
{
    let mut entries = Vec::new(alloc);
    for number in 0..count {
        push_loaded(world, &mut entries, block_of(layout, number))?;
    }
    Ok(entries)
}
