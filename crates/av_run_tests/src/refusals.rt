//! Input that is refused, and files that are cut.
use crate::given::{Given, at, file_after, flat, run_region, table_with};
use av_image_tests::flat::{flat_region, push_chunk, push_pad, region};
use av_run::RegionFile;
use av_types::ChunkPos;
use std::alloc::Global;
use std::process::Abort;
use std::sync::Wait;
use std::test::Fail;
use std::thread::Threads;

/// The line of the fault for which a run of 10 ticks on one chunk is refused.
fn expect_fault(
    rt: &(impl Abort + Threads + Wait + Sync),
    alloc: Global,
    head: &str,
    bytes: Vec<u8>,
    edits: &str,
    line: &str,
) -> Result<(), Fail> {
    let table = table_with(alloc, head)?;
    let given = Given {
        table: table.as_slice(),
        edits,
        ticks: 2,
        workers: 2,
    };
    let fault = run_region(rt, alloc, bytes, given).err().ok_or("no fault")?;
    assert_eq!(rt; fault.to_string(alloc)?.as_str(), line, "{edits}");
    Ok(())
}

/// Of lines the first with a fault, also behind lines that state nothing. A height has its own outside.
#[test]
fn edits_that_are_refused(rt: HostRuntime) -> Result<(), Fail> {
    let alloc = rt.alloc();
    let game = "version = 1";
    let low = "version = 3\nmin_section = 0\nsections = 16";
    for (head, edits, line) in [
        (game, "# x\n1 8 64 8 Stone", "fault 20: BadEdit 2"),
        (game, "0 8 64 8 minecraft:stone", "fault 21: EditTick 1"),
        (game, "3 8 64 8 minecraft:stone", "fault 21: EditTick 1"),
        (
            game,
            "1 8 320 8 minecraft:stone\nx",
            "fault 22: EditOutside 1",
        ),
        (low, "1 8 256 8 minecraft:stone", "fault 22: EditOutside 1"),
        (low, "1 8 -1 8 minecraft:stone", "fault 22: EditOutside 1"),
    ] {
        let bytes = flat_region(alloc, flat(&[], &[]), 1)?;
        expect_fault(&rt, alloc, head, bytes, edits, line)?;
    }
    Ok(())
}

/// An entry above the height is a bad tick, and in the game's height it is none.
#[test]
fn an_entry_above_the_height(rt: HostRuntime) -> Result<(), Fail> {
    let alloc = rt.alloc();
    let entries = [(at(8, 300, 8), 1, false)];
    let bytes = flat_region(alloc, flat(&[], entries.as_slice()), 1)?;
    assert!(rt; file_after(&rt, alloc, bytes.clone()?, "", 0)? == bytes);
    let low = "version = 3\nmin_section = 0\nsections = 16";
    expect_fault(&rt, alloc, low, bytes, "", "fault 16: BadTick")
}

/// Where the data of a file's first chunk ends.
fn end_of_data(file: &[u8]) -> Option<usize> {
    let length = file.get(8192..8196)?;
    let mut data = 0;
    for byte in length {
        data = data << 8 | usize::from(*byte);
    }
    Some(8196 + (data & 0xFF_FFFF))
}

/// So many bytes of a file.
fn cut(alloc: Global, file: &[u8], end: usize) -> Result<Vec<u8>, Fail> {
    let bytes = file.get(..end).ok_or("no data")?;
    Ok(Vec::from_slice(alloc, bytes)?)
}

/// A file may be cut in the padding behind its last chunk, and not before.
#[test]
fn files_that_are_cut(rt: HostRuntime) -> Result<(), Fail> {
    let alloc = rt.alloc();
    let whole = flat_region(alloc, flat(&[], &[]), 1)?;
    let end = end_of_data(&whole).ok_or("no chunk")?;
    let file = file_after(&rt, alloc, cut(alloc, &whole, end)?, "", 0)?;
    assert!(rt; file == whole);
    let short = cut(alloc, &whole, end.saturating_sub(1))?;
    let line = "fault 06: TruncatedChunk";
    expect_fault(&rt, alloc, "version = 1", short, "", line)
}

/// The region of the largest chunk that a file can have, without sections.
fn largest_chunk(alloc: Global) -> Result<Vec<u8>, Fail> {
    let mut payload = Vec::new(alloc);
    push_chunk(&mut payload, ChunkPos { x: 0, z: 0 }, 0)?;
    push_pad(&mut payload, 1_044_475)?;
    if payload.len() != 1_044_475 {
        return Err(Fail::new("another length"));
    }
    let mut payloads = Vec::new(alloc);
    payloads.push(payload)?;
    Ok(region(alloc, payloads.as_slice())?)
}

/// The largest chunk that a file can have, without sections: with those that are missing it is too large.
#[test]
fn a_chunk_that_grows_too_large(rt: HostRuntime) -> Result<(), Fail> {
    let bytes = largest_chunk(rt.alloc())?;
    let line = "fault 24: ChunkTooLarge 0 0";
    expect_fault(&rt, rt.alloc(), "version = 1", bytes, "", line)
}
