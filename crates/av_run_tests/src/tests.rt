//! Runs of folders without loaded chunks, and the order in which input is judged.
use crate::given::{Given, run_files, table_with};
use av_image_tests::flat::region;
use av_run::{Outcome, RegionFile};
use av_types::{Fault, RegionPos};
use std::alloc::Global;
use std::process::Abort;
use std::sync::Wait;
use std::test::Fail;
use std::thread::Threads;

/// A run of 10 ticks without edits, on files of zeros: each region's x and z, and its length.
fn run_zeros(
    rt: &(impl Threads + Wait + Sync),
    alloc: Global,
    regions: &[(i32, i32, usize)],
    table: &[u8],
    workers: u32,
) -> Result<Outcome, Fault> {
    let mut files = Vec::new(alloc);
    for (x, z, len) in regions {
        files.push(RegionFile {
            pos: RegionPos { x: *x, z: *z },
            bytes: vec![in alloc; 0u8; *len]?,
        })?;
    }
    let given = Given {
        table,
        edits: "",
        ticks: 10,
        workers,
    };
    run_files(rt, alloc, files, given)
}

/// A file is that of this region, and has 8,192 zeros.
fn expect_zeros(rt: &impl Abort, file: &RegionFile, x: i32, z: i32) {
    assert_eq!(rt; file.pos, RegionPos { x, z });
    assert_eq!(rt; file.bytes.len(), 8192);
    assert!(rt; file.bytes.iter().all(|byte| *byte == 0));
}

/// A region without chunks comes out as it was, and a file of no bytes is such a region. Files come by z and then by x.
#[test]
fn empty_regions(rt: HostRuntime) -> Result<(), Fail> {
    let regions = [(1, 0, 8192), (0, 1, 0), (0, -1, 0), (-1, 0, 8192)];
    let outcome = run_zeros(&rt, rt.alloc(), regions.as_slice(), b"version = 1", 2)?;
    let counts = (outcome.turns, outcome.chunks, outcome.files.len());
    assert_eq!(rt; counts, (0, 0, 4));
    let order = [(0, -1), (-1, 0), (1, 0), (0, 1)];
    for (file, (x, z)) in outcome.files.iter().zip(order.iter()) {
        expect_zeros(&rt, file, *x, *z);
    }
    Ok(())
}

/// The payload of a chunk that is not full.
const KEPT: &[u8] = b"\x0a\0\0\x01\0\x08sections\x05\x08\0\x06Status\0\x12minecraft:features\0";

/// A region of such a chunk.
fn kept_region(alloc: Global) -> Result<Vec<u8>, Fail> {
    let mut payloads = Vec::new(alloc);
    payloads.push(Vec::from_slice(alloc, KEPT)?)?;
    Ok(region(alloc, payloads.as_slice())?)
}

/// A run of three ticks without edits, on one region.
fn run_three(
    rt: &(impl Threads + Wait + Sync),
    alloc: Global,
    pos: RegionPos,
    bytes: Vec<u8>,
) -> Result<Outcome, Fail> {
    let table = table_with(alloc, "version = 1")?;
    let given = Given {
        table: table.as_slice(),
        edits: "",
        ticks: 3,
        workers: 1,
    };
    let mut files = Vec::new(alloc);
    files.push(RegionFile { pos, bytes })?;
    Ok(run_files(rt, alloc, files, given)?)
}

/// A chunk that is not full is written byte for byte, and its stamp with those of absent chunks.
#[test]
fn a_chunk_that_is_kept(rt: HostRuntime) -> Result<(), Fail> {
    let pos = RegionPos { x: -1, z: 2 };
    let bytes = kept_region(rt.alloc())?;
    let outcome = run_three(&rt, rt.alloc(), pos, bytes.clone()?)?;
    assert_eq!(rt; (outcome.chunks, outcome.files.len()), (0, 1));
    for file in &outcome.files {
        assert_eq!(rt; file.pos, pos);
        assert!(rt; file.bytes == bytes);
    }
    Ok(())
}

/// The line of the fault for which files of zeros are refused.
fn refusal(
    rt: &(impl Threads + Wait + Sync),
    alloc: Global,
    regions: &[(i32, i32, usize)],
    table: &[u8],
    workers: u32,
) -> Result<String, Fail> {
    let fault = run_zeros(rt, alloc, regions, table, workers)
        .err()
        .ok_or("no fault")?;
    Ok(fault.to_string(alloc)?)
}

/// Of two faults the first in their order is answered: counts, the table, the list of regions, the bytes of a file.
#[test]
fn refused_input(rt: HostRuntime) -> Result<(), Fail> {
    let short = [(0, 0, 100)];
    let twice = [(0, 0, 100), (0, 0, 8192)];
    let none: &[u8] = b"no table";
    let table: &[u8] = b"version = 1";
    for (regions, table, workers, line) in [
        (twice.as_slice(), none, 9, "fault 23: BadCount"),
        (twice.as_slice(), none, 8, "fault 19: BadTable"),
        (twice.as_slice(), table, 8, "fault 03: RepeatedRegion"),
        (short.as_slice(), table, 8, "fault 04: ShortHeader"),
    ] {
        let said = refusal(&rt, rt.alloc(), regions, table, workers)?;
        assert_eq!(rt; said.as_str(), line);
    }
    Ok(())
}
