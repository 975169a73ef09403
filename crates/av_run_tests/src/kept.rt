//! Water and edits beside a chunk that is not full: what flows, and what stays.
use crate::given::{Given, at, flat, flows, only_file, run_region, springs, table_with, wet};
use av_image_tests::flat::{Flat, Waiting, chunk, chunk_of, region};
use av_run::Outcome;
use av_types::{ChunkPos, Fault};
use std::alloc::Global;
use std::sync::Wait;
use std::test::Fail;
use std::thread::Threads;

const ORIGIN: ChunkPos = ChunkPos { x: 0, z: 0 };

/// The chunk east of it, which is kept.
const EAST: ChunkPos = ChunkPos { x: 1, z: 0 };

/// An overdue entry of the kept chunk.
fn overdue() -> [Waiting; 1] {
    [(at(16, 64, 9), 0, true)]
}

/// A region of a chunk, and of one that is not full with a source by the edge of the two and an entry of it.
fn beside_kept(alloc: Global, loaded: Flat<'_>) -> Result<Vec<u8>, Fail> {
    let source = [wet(16, 9, 0)];
    let entries = overdue();
    let kept = flat(source.as_slice(), entries.as_slice());
    let mut payloads = Vec::new(alloc);
    payloads.push(chunk(alloc, loaded, ORIGIN)?)?;
    payloads.push(chunk_of(alloc, kept, EAST, "features")?)?;
    Ok(region(alloc, payloads.as_slice())?)
}

/// Six ticks with these edits of a flat chunk beside the kept one.
fn six_ticks(
    rt: &(impl Threads + Wait + Sync),
    alloc: Global,
    bytes: Vec<u8>,
    edits: &str,
) -> Result<Result<Outcome, Fault>, Fail> {
    let table = table_with(alloc, "version = 1")?;
    let given = Given {
        table: table.as_slice(),
        edits,
        ticks: 6,
        workers: 2,
    };
    Ok(run_region(rt, alloc, bytes, given))
}

/// A source by the edge flows to its other sides, and not over the edge. The source over there makes no third one with it at
/// (15, 64, 9), its entry is not taken, and the kept chunk stays byte for byte.
#[test]
fn water_flows_along_a_kept_chunk(rt: HostRuntime) -> Result<(), Fail> {
    let alloc = rt.alloc();
    let before = beside_kept(alloc, flat(&[], &[]))?;
    let edits = "1 15 64 8 minecraft:water[level=0]";
    let outcome = six_ticks(&rt, alloc, before, edits)??;
    assert_eq!(rt; (outcome.chunks, outcome.turns), (1, 1));
    let blocks = [wet(15, 7, 1), wet(15, 8, 0), wet(15, 9, 1), wet(14, 8, 1)];
    let woken = [flows(15, 7), springs(15, 8), flows(15, 9), flows(14, 8)];
    let after = beside_kept(alloc, flat(blocks.as_slice(), woken.as_slice()))?;
    assert!(rt; only_file(outcome)? == after);
    Ok(())
}

/// No block of a kept chunk is loaded, so none is set.
#[test]
fn a_kept_chunk_takes_no_edit(rt: HostRuntime) -> Result<(), Fail> {
    let alloc = rt.alloc();
    let before = beside_kept(alloc, flat(&[], &[]))?;
    let refused = six_ticks(&rt, alloc, before, "1 16 64 8 minecraft:stone")?;
    assert!(rt; refused.err() == Some(Fault::EditOutside(1)));
    Ok(())
}
