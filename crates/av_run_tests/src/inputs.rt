//! What a run begins with.
use crate::given::{at, flat, table_with};
use av_image_tests::flat::flat_region;
use av_run::{Input, RegionFile, read_input};
use av_types::{ChunkPos, RegionPos};
use std::alloc::Global;
use std::process::Abort;
use std::test::Fail;
use std::thread::Threads;

/// What a run of 2 ticks over one flat chunk begins with.
fn input_with(rt: &(impl Threads + Sync), alloc: Global, edits: &str) -> Result<Input, Fail> {
    let table = table_with(alloc, "version = 1")?;
    let pos = RegionPos { x: 0, z: 0 };
    let bytes = flat_region(alloc, flat(&[], &[]), 1)?;
    let mut files = Vec::new(alloc);
    files.push(RegionFile { pos, bytes })?;
    let input = read_input(rt, alloc, files, table.as_slice(), edits.as_bytes(), 2)?;
    Ok(input)
}

/// The world has the chunk of the file.
#[test]
fn chunks_of_the_files(rt: HostRuntime) -> Result<(), Fail> {
    let alloc = rt.alloc();
    let input = input_with(&rt, alloc, "")?;
    let chunk = ChunkPos { x: 0, z: 0 };
    assert_eq!(rt; input.world.positions(), [chunk].as_slice());
    Ok(())
}

/// The edits are numbered by their lines, and the last tick may have one.
#[test]
fn edits_by_their_lines(rt: HostRuntime) -> Result<(), Fail> {
    let alloc = rt.alloc();
    let input = input_with(&rt, alloc, "# x\n2 8 64 8 minecraft:stone")?;
    let edit = input.edits.first().ok_or("no edit")?;
    assert_eq!(rt; (edit.line, edit.tick, edit.pos), (2, 2, at(8, 64, 8)));
    Ok(())
}
