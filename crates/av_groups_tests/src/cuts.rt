//! Groups by hand. An entry's reach is five blocks to each side. A tile is four chunks side by side: of those at z 0 the first has x 0,
//! of those at z 1 it has x -2.
use crate::groups::groups_of;
use av_groups::groups::{Group, Groups};
use av_groups::stretches::stretch_count;
use av_types::{ChunkPos, Entry, Fault, Height, Pos};
use av_world_tests::worlds::flat_world;
use std::alloc::{AllocError, Global};
use std::process::Abort;
use std::test::Fail;

/// An entry of a block at y 64.
pub(crate) fn entry(x: i32, z: i32) -> Entry {
    Entry {
        pos: Pos { x, y: 64, z },
        due: 1,
        priority: 0,
    }
}

/// Chunks in a row, from one x up to another one.
fn row_of(alloc: Global, z: i32, from: i32, to: i32) -> Result<Vec<ChunkPos>, AllocError> {
    let mut chunks = Vec::new(alloc);
    for x in from..=to {
        chunks.push(ChunkPos { x, z })?;
    }
    Ok(chunks)
}

/// The groups of entries in a flat world of these chunks.
fn cut_of(alloc: Global, chunks: &[ChunkPos], entries: &[Entry]) -> Result<Groups, Fault> {
    let world = flat_world(alloc, Height::game(), chunks)?;
    groups_of(alloc, &world, entries)
}

/// Three by three chunks, from (0, 0) to (2, 2).
const SQUARE: [ChunkPos; 9] = [
    ChunkPos { x: 0, z: 0 },
    ChunkPos { x: 1, z: 0 },
    ChunkPos { x: 2, z: 0 },
    ChunkPos { x: 0, z: 1 },
    ChunkPos { x: 1, z: 1 },
    ChunkPos { x: 2, z: 1 },
    ChunkPos { x: 0, z: 2 },
    ChunkPos { x: 1, z: 2 },
    ChunkPos { x: 2, z: 2 },
];

/// A chunk by its x and z, and the number of groups that come before there.
type Touched = (i32, i32, usize);

/// A group has these entries, of all of them, and touches these chunks, in this order.
fn expect_group(
    rt: &impl Abort,
    all: &[Entry],
    group: &Group,
    entries: &[Entry],
    touches: &[Touched],
) {
    assert_eq!(rt; all.get(group.from..group.to), Some(entries));
    assert_eq!(rt; group.touches.len(), touches.len());
    for (touch, want) in group.touches.iter().zip(touches) {
        let found = (touch.chunk.x, touch.chunk.z, touch.before);
        assert_eq!(rt; found, *want);
    }
}

/// Entries in the square are one group, which touches these chunks first of all, and these are the numbers of last groups.
fn expect_one(
    rt: &impl Abort,
    alloc: Global,
    entries: &[Entry],
    touches: &[Touched],
    last: [usize; 9],
) -> Result<(), Fault> {
    let cut = cut_of(alloc, &SQUARE, entries)?;
    assert_eq!(rt; cut.groups.len(), 1);
    expect_group(rt, cut.entries.as_slice(), &cut.groups[0], entries, touches);
    assert_eq!(rt; cut.last.as_slice(), last.as_slice());
    Ok(())
}

/// An entry in the middle of a chunk touches that one alone.
#[test]
fn the_middle_of_a_chunk(rt: HostRuntime) -> Result<(), Fail> {
    let last = [0, 0, 0, 0, 1, 0, 0, 0, 0];
    expect_one(&rt, rt.alloc(), &[entry(24, 24)], &[(1, 1, 0)], last)?;
    Ok(())
}

/// An entry at a chunk's corner touches four chunks: those to the north-west, north-east, south-west and south-east.
#[test]
fn the_corner_of_a_chunk(rt: HostRuntime) -> Result<(), Fail> {
    let touches = [(0, 0, 0), (1, 0, 0), (0, 1, 0), (1, 1, 0)];
    let last = [1, 1, 0, 1, 1, 0, 0, 0, 0];
    expect_one(&rt, rt.alloc(), &[entry(16, 16)], &touches, last)?;
    Ok(())
}

/// A group touches a chunk once, however many of its entries reach it, in the order in which they come to it.
#[test]
fn a_chunk_is_touched_once(rt: HostRuntime) -> Result<(), Fail> {
    let entries = [entry(24, 24), entry(25, 24), entry(31, 24), entry(24, 24)];
    let last = [0, 0, 0, 0, 1, 1, 0, 0, 0];
    expect_one(&rt, rt.alloc(), &entries, &[(1, 1, 0), (2, 1, 0)], last)?;
    Ok(())
}

/// The reach along x: from x 20 it ends at 15 in the west, from 21 at 16, from 26 at 31 in the east, and from 27 at 32.
#[test]
fn the_reach_along_x(rt: HostRuntime) -> Result<(), Fail> {
    let alloc = rt.alloc();
    let alone = [0, 0, 0, 0, 1, 0, 0, 0, 0];
    let west = [0, 0, 0, 1, 1, 0, 0, 0, 0];
    let east = [0, 0, 0, 0, 1, 1, 0, 0, 0];
    expect_one(&rt, alloc, &[entry(20, 24)], &[(0, 1, 0), (1, 1, 0)], west)?;
    expect_one(&rt, alloc, &[entry(21, 24)], &[(1, 1, 0)], alone)?;
    expect_one(&rt, alloc, &[entry(26, 24)], &[(1, 1, 0)], alone)?;
    expect_one(&rt, alloc, &[entry(27, 24)], &[(1, 1, 0), (2, 1, 0)], east)?;
    Ok(())
}

/// The same along z.
#[test]
fn the_reach_along_z(rt: HostRuntime) -> Result<(), Fail> {
    let alloc = rt.alloc();
    let alone = [0, 0, 0, 0, 1, 0, 0, 0, 0];
    let north = [0, 1, 0, 0, 1, 0, 0, 0, 0];
    let south = [0, 0, 0, 0, 1, 0, 0, 1, 0];
    expect_one(&rt, alloc, &[entry(24, 20)], &[(1, 0, 0), (1, 1, 0)], north)?;
    expect_one(&rt, alloc, &[entry(24, 21)], &[(1, 1, 0)], alone)?;
    expect_one(&rt, alloc, &[entry(24, 26)], &[(1, 1, 0)], alone)?;
    expect_one(&rt, alloc, &[entry(24, 27)], &[(1, 1, 0), (1, 2, 0)], south)?;
    Ok(())
}

/// Chunks that are not there are not touched: at the world's corner three of four are none, and at its edge two.
#[test]
fn the_edge_of_the_world(rt: HostRuntime) -> Result<(), Fail> {
    let alloc = rt.alloc();
    let corner = [1, 0, 0, 0, 0, 0, 0, 0, 0];
    expect_one(&rt, alloc, &[entry(0, 0)], &[(0, 0, 0)], corner)?;
    let edge = [0, 0, 1, 0, 0, 1, 0, 0, 0];
    expect_one(&rt, alloc, &[entry(47, 20)], &[(2, 0, 0), (2, 1, 0)], edge)?;
    Ok(())
}

/// At which indices the chunks stand that a group touches.
fn expect_indices(rt: &impl Abort, group: &Group, indices: &[usize]) {
    assert_eq!(rt; group.touches.len(), indices.len());
    for (touch, want) in group.touches.iter().zip(indices) {
        assert_eq!(rt; touch.index, *want);
    }
}

/// A chunk's index counts those before it by z and then by x.
#[test]
fn the_index_of_a_touched_chunk(rt: HostRuntime) -> Result<(), Fail> {
    let cut = cut_of(rt.alloc(), &SQUARE, &[entry(16, 16), entry(40, 24)])?;
    assert_eq!(rt; cut.groups.len(), 2);
    expect_indices(&rt, &cut.groups[0], &[0, 1, 3, 4]);
    expect_indices(&rt, &cut.groups[1], &[5]);
    Ok(())
}

/// With no entries there is no group, and no chunk has a last one.
#[test]
fn no_entries(rt: HostRuntime) -> Result<(), Fail> {
    let cut = cut_of(rt.alloc(), &SQUARE, &[])?;
    assert_eq!(rt; cut.groups.len(), 0);
    assert_eq!(rt; cut.last.as_slice(), [0; 9].as_slice());
    Ok(())
}

/// Entries of the tile of chunks 0 to 3, then of that of chunks 4 to 7, and then of the first one again. The last of them
/// reach chunk 0, which the second group does not touch, and chunk 3, which it does.
fn back_and_forth() -> [Entry; 5] {
    [
        entry(62, 8),
        entry(8, 8),
        entry(67, 8),
        entry(8, 9),
        entry(56, 8),
    ]
}

/// They are three groups. The third comes behind the first in chunk 0, and behind the second in chunk 3. No group touches chunks
/// 1, 2 and 5.
#[test]
fn a_tile_that_comes_again_is_another_group(rt: HostRuntime) -> Result<(), Fail> {
    let row = row_of(rt.alloc(), 0, 0, 5)?;
    let entries = back_and_forth();
    let cut = cut_of(rt.alloc(), row.as_slice(), &entries)?;
    assert_eq!(rt; cut.groups.len(), 3);
    let [a, b, c, d, e] = entries;
    let first = [(3, 0, 0), (4, 0, 0), (0, 0, 0)];
    let all = cut.entries.as_slice();
    expect_group(&rt, all, &cut.groups[0], &[a, b], &first);
    expect_group(&rt, all, &cut.groups[1], &[c], &[(3, 0, 1), (4, 0, 1)]);
    expect_group(&rt, all, &cut.groups[2], &[d, e], &[(0, 0, 1), (3, 0, 2)]);
    assert_eq!(rt; cut.last.as_slice(), [3, 0, 0, 3, 2, 0].as_slice());
    Ok(())
}

/// The middle of a chunk.
fn middle(chunk: ChunkPos) -> Entry {
    entry(
        chunk.x.wrapping_mul(16).wrapping_add(8),
        chunk.z.wrapping_mul(16).wrapping_add(8),
    )
}

/// How many entries each group has, with one in the middle of each of these chunks.
fn sizes_of(alloc: Global, chunks: &[ChunkPos]) -> Result<Vec<usize>, Fault> {
    let mut entries = Vec::new(alloc);
    for chunk in chunks {
        entries.push(middle(*chunk))?;
    }
    let cut = cut_of(alloc, chunks, entries.as_slice())?;
    let mut sizes = Vec::new(alloc);
    for group in cut.groups.as_slice() {
        sizes.push(group.to.wrapping_sub(group.from))?;
    }
    Ok(sizes)
}

/// Four chunks of a row are a tile, and those beside them lie in others.
fn expect_tile(rt: &impl Abort, alloc: Global, z: i32, first: i32) -> Result<(), Fault> {
    let row = row_of(alloc, z, first.wrapping_sub(1), first.wrapping_add(4))?;
    let sizes = sizes_of(alloc, row.as_slice())?;
    assert_eq!(rt; sizes.as_slice(), [1, 4, 1].as_slice());
    Ok(())
}

/// Of the chunks at z 0 those of x 0 to 3 are a tile, and those of -4 to -1; at z 1 those of -2 to 1; at z -1 those of 2 to 5; and at
/// z 3 those of -6 to -3.
#[test]
fn tiles_are_four_chunks_of_a_row(rt: HostRuntime) -> Result<(), Fail> {
    for (z, first) in [(0, 0), (0, -4), (1, -2), (-1, 2), (3, -6)] {
        expect_tile(&rt, rt.alloc(), z, first)?;
    }
    Ok(())
}

/// Chunks of two rows lie in two tiles, though they have the same x.
#[test]
fn each_row_has_its_tiles(rt: HostRuntime) -> Result<(), Fail> {
    let column = [ChunkPos { x: 0, z: 0 }, ChunkPos { x: 0, z: 1 }];
    let sizes = sizes_of(rt.alloc(), &column)?;
    assert_eq!(rt; sizes.as_slice(), [1, 1].as_slice());
    Ok(())
}

/// How many stretches there are of entries in the middle of each of these chunks.
fn stretches_of(alloc: Global, chunks: &[ChunkPos]) -> Result<usize, AllocError> {
    let mut entries = Vec::new(alloc);
    for chunk in chunks {
        entries.push(middle(*chunk))?;
    }
    Ok(stretch_count(entries.as_slice()))
}

/// Of no entries there is no stretch. Going back and forth makes three. Of a row from x -1 to 4 the first and the last lie in other
/// tiles than the four between, at z 0, and so do at z 1 those of x -3 and 2.
#[test]
fn stretches_are_counted(rt: HostRuntime) -> Result<(), Fail> {
    let alloc = rt.alloc();
    assert_eq!(rt; stretch_count(&[]), 0);
    assert_eq!(rt; stretch_count(&back_and_forth()), 3);
    for (z, from, to) in [(0, -1, 4), (1, -3, 2), (-1, 1, 6)] {
        let row = row_of(alloc, z, from, to)?;
        assert_eq!(rt; stretches_of(alloc, row.as_slice())?, 3);
    }
    let column = [ChunkPos { x: 0, z: 0 }, ChunkPos { x: 0, z: 1 }];
    assert_eq!(rt; stretches_of(alloc, &column)?, 2);
    Ok(())
}
