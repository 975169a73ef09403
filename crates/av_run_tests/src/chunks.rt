//! Several chunks, their light, and other heights than the game's.
use crate::gates::Holding;
use crate::given::{
    Given, at, expect, expect_by, file_after, flat, flows, one_region, only_file, run_gated,
    springs, table_with, wet,
};
use av_crew::{Gate, NoGate};
use av_image_tests::flat::Block::{Glowstone, Water};
use av_image_tests::flat::{Block, Flat, flat_region, up_to_light};
use av_region::Region;
use av_types::{ChunkPos, Height, Pos};
use std::alloc::Global;
use std::process::Abort;
use std::sync::Wait;
use std::test::Fail;
use std::thread::Threads;

const TWO: &str = "1 8 64 8 minecraft:water[level=0]\n1 24 64 8 minecraft:water[level=0]\n";

const THREE: &str =
    "1 8 64 8 minecraft:water[level=0]\n1 24 64 8 minecraft:water[level=0]\n1 15 64 8 minecraft:water[level=0]";

/// Entries of two chunks, each in its own chunk's list.
#[test]
fn water_in_two_chunks(rt: HostRuntime) -> Result<(), Fail> {
    let blocks = [
        wet(8, 7, 1),
        wet(8, 8, 0),
        wet(8, 9, 1),
        wet(7, 8, 1),
        wet(9, 8, 1),
        wet(24, 7, 1),
        wet(24, 8, 0),
        wet(24, 9, 1),
        wet(23, 8, 1),
        wet(25, 8, 1),
    ];
    let woken = [
        flows(8, 7),
        springs(8, 8),
        flows(8, 9),
        flows(7, 8),
        flows(9, 8),
        flows(24, 7),
        springs(24, 8),
        flows(24, 9),
        flows(23, 8),
        flows(25, 8),
    ];
    let after = flat(&blocks, &woken);
    expect(&rt, rt.alloc(), flat(&[], &[]), TWO, (6, 2, 2), after)
}

/// The chunks, the turns and the file after six ticks of two chunks with these edits, with so many workers and a gate.
fn by_workers<G: Gate + Sync>(
    rt: &(impl Threads + Wait + Sync),
    alloc: Global,
    edits: &str,
    workers: u32,
    gate: &G,
) -> Result<(u64, u128, Vec<u8>), Fail> {
    let table = table_with(alloc, "version = 1")?;
    let given = Given {
        table: table.as_slice(),
        edits,
        ticks: 6,
        workers,
    };
    let files = one_region(alloc, flat_region(alloc, flat(&[], &[]), 2)?)?;
    let outcome = run_gated(rt, alloc, files, given, gate)?;
    Ok((outcome.chunks, outcome.turns, only_file(outcome)?))
}

/// These edits lead to so many turns and to the same file by one, two, three and eight workers: on the world itself, and as so many
/// jobs for a gate that watches.
fn expect_same(
    rt: &(impl Abort + Threads + Wait + Sync),
    alloc: Global,
    edits: &str,
    turns: u128,
    jobs: u64,
) -> Result<(), Fail> {
    let alone = by_workers(rt, alloc, edits, 1, &NoGate)?;
    assert_eq!(rt; (alone.0, alone.1), (2, turns));
    for workers in [1, 2, 3, 8] {
        let same = by_workers(rt, alloc, edits, workers, &NoGate)? == alone;
        assert!(rt; same, "{workers} workers");
        let gate = Holding::of(true, 0);
        let same = by_workers(rt, alloc, edits, workers, &gate)? == alone;
        assert!(rt; same, "{workers} workers and a gate");
        assert_eq!(rt; gate.counts(), (jobs, 0), "{workers} workers");
    }
    Ok(())
}

/// Two sources, which are parts of their own, and with a third one by the edge of their chunks, which makes them one part.
#[test]
fn workers_make_no_difference(rt: HostRuntime) -> Result<(), Fail> {
    expect_same(&rt, rt.alloc(), TWO, 2, 2)?;
    expect_same(&rt, rt.alloc(), THREE, 3, 1)
}

/// The byte of a chunk's light with the blocks of these places, in the section of y 64.
fn light_byte(alloc: Global, file: &[u8], lit: Flat<'_>, x: i32, byte: usize) -> Result<u8, Fail> {
    let at = ChunkPos { x, z: 0 };
    let region = Region::read(file)?;
    let payload = region.payload(at.index())?.ok_or("no chunk")?;
    let start = up_to_light(alloc, lit, at, 4)?.len();
    let light = payload.get(start..).ok_or("no light")?;
    Ok(*light.get(byte).ok_or("no byte")?)
}

/// Glowstone by the edge of two chunks.
fn glowing() -> [(Pos, Block); 1] {
    [(at(15, 64, 8), Glowstone)]
}

/// Light goes over the edge of a chunk.
#[test]
fn light_of_two_chunks(rt: HostRuntime) -> Result<(), Fail> {
    let blocks = glowing();
    let lit = flat(blocks.as_slice(), &[]);
    let before = flat_region(rt.alloc(), lit, 2)?;
    let file = file_after(&rt, rt.alloc(), before, "", 0)?;
    for (x, byte, want) in [(1, 64, 0xDE), (1, 70, 0x12), (1, 71, 0), (0, 71, 0xFE)] {
        let found = light_byte(rt.alloc(), file.as_slice(), lit, x, byte)?;
        assert_eq!(rt; found, want, "byte {byte} of chunk {x}");
    }
    Ok(())
}

/// It goes with its emitter.
#[test]
fn light_that_goes(rt: HostRuntime) -> Result<(), Fail> {
    let blocks = glowing();
    let lit = flat(blocks.as_slice(), &[]);
    let edits = "1 15 64 8 minecraft:air";
    expect(&rt, rt.alloc(), lit, edits, (1, 2, 0), flat(&[], &[]))
}

/// Sections 0 to 15, by a table of version 3.
#[test]
fn a_height_of_16_sections(rt: HostRuntime) -> Result<(), Fail> {
    let height = Height {
        min_section: 0,
        sections: 16,
    };
    let dry = Flat {
        height,
        blocks: &[],
        entries: &[],
    };
    let blocks = [
        (at(8, 0, 7), Water(1)),
        (at(8, 0, 8), Water(0)),
        (at(8, 0, 9), Water(1)),
        (at(7, 0, 8), Water(1)),
        (at(9, 0, 8), Water(1)),
    ];
    let woken = [
        (at(8, 0, 7), 5, false),
        (at(8, 0, 8), 5, true),
        (at(8, 0, 9), 5, false),
        (at(7, 0, 8), 5, false),
        (at(9, 0, 8), 5, false),
    ];
    let after = Flat {
        height,
        blocks: &blocks,
        entries: &woken,
    };
    let head = "version = 3\nmin_section = 0\nsections = 16";
    expect_by(
        &rt,
        rt.alloc(),
        head,
        dry,
        "1 8 0 8 minecraft:water[level=0]",
        (6, 1, 1),
        after,
    )
}

/// The game's height, by a table of version 3.
#[test]
fn the_height_of_the_game(rt: HostRuntime) -> Result<(), Fail> {
    let waits = [(at(8, 64, 8), 1, true)];
    let source = [(at(8, 64, 8), Water(0))];
    let after = flat(source.as_slice(), waits.as_slice());
    let head = "version = 3\nmin_section = -4\nsections = 24";
    expect_by(
        &rt,
        rt.alloc(),
        head,
        flat(&[], &[]),
        "1 8 64 8 minecraft:water[level=0]",
        (5, 1, 0),
        after,
    )
}
