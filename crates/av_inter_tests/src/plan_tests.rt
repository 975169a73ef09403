//! Territories and plans by hand, on chunks with stone at y 63 and air elsewhere.
use crate::parts::{EAST, ORIGIN, at, plan_of, poured, territory_of};
use av_cluster::Cluster;
use av_types::{ChunkPos, Fault, Height, Pos, SectionPos};
use av_world::World;
use av_world_tests::worlds::flat_world;
use std::alloc::Global;
use std::process::Abort;
use std::test::Fail;

/// A section by its x, y and z.
fn section(x: i32, y: i32, z: i32) -> SectionPos {
    SectionPos { x, y, z }
}

/// The territory of a block is these sections, in this order.
fn expect_territory(
    rt: &impl Abort,
    world: &World,
    at: Pos,
    want: &[SectionPos],
) -> Result<(), Fault> {
    let sections = territory_of(world, at)?;
    assert_eq!(rt; sections.as_slice(), want, "{at:?}");
    Ok(())
}

/// A turn reaches five blocks to the east and west, two down and one up, and only what is loaded counts.
#[test]
fn territories_are_what_turns_reach(rt: HostRuntime) -> Result<(), Fail> {
    let world = flat_world(rt.alloc(), Height::game(), [ORIGIN, EAST].as_slice())?;
    let west = [section(0, 3, 0), section(0, 4, 0)];
    let east = [section(1, 3, 0), section(1, 4, 0)];
    let both = [west[0], west[1], east[0], east[1]];
    let (lowest, highest) = ([section(0, -4, 0)], [section(0, 19, 0)]);
    let (fourth, fifth) = ([west[1]], [west[1], section(0, 5, 0)]);
    for (pos, want) in [
        (at(8, 64, 8), west.as_slice()),
        (at(10, 64, 8), west.as_slice()),
        (at(11, 64, 8), both.as_slice()),
        (at(15, 64, 8), both.as_slice()),
        (at(20, 64, 8), both.as_slice()),
        (at(21, 64, 8), east.as_slice()),
        (at(24, 64, 8), east.as_slice()),
        (at(8, 65, 8), west.as_slice()),
        (at(8, 66, 8), fourth.as_slice()),
        (at(8, 78, 8), fourth.as_slice()),
        (at(8, 79, 8), fifth.as_slice()),
        (at(8, -64, 8), lowest.as_slice()),
        (at(8, 319, 8), highest.as_slice()),
    ] {
        expect_territory(&rt, &world, pos, want)?;
    }
    Ok(())
}

/// Eight sections, by z, then by x, then by y.
#[test]
fn a_territory_of_eight_sections(rt: HostRuntime) -> Result<(), Fail> {
    let (south, last) = (ChunkPos { x: 0, z: 1 }, ChunkPos { x: 1, z: 1 });
    let chunks = [last, EAST, south, ORIGIN];
    let world = flat_world(rt.alloc(), Height::game(), chunks.as_slice())?;
    let want = [
        section(0, 3, 0),
        section(0, 4, 0),
        section(1, 3, 0),
        section(1, 4, 0),
        section(0, 3, 1),
        section(0, 4, 1),
        section(1, 3, 1),
        section(1, 4, 1),
    ];
    let north = [want[0], want[1]];
    let along = [want[0], want[1], want[4], want[5]];
    let south = [want[4], want[5]];
    for (pos, want) in [
        (at(15, 64, 15), want.as_slice()),
        (at(8, 64, 10), north.as_slice()),
        (at(8, 64, 11), along.as_slice()),
        (at(8, 64, 20), along.as_slice()),
        (at(8, 64, 21), south.as_slice()),
    ] {
        expect_territory(&rt, &world, pos, want)?;
    }
    Ok(())
}

/// The parts of tick 6, of a flat world with sources.
fn parts_of(alloc: Global, chunks: &[ChunkPos], sources: &[Pos]) -> Result<Vec<Cluster>, Fault> {
    let mut world = poured(alloc, chunks, sources)?;
    let due = world.take_due(6)?;
    plan_of(alloc, &world, due.as_slice())
}

/// A part has entries of these blocks, with their indices, and these sections, in some order.
fn expect_part(rt: &impl Abort, part: &Cluster, entries: &[(u64, Pos)], sections: &[SectionPos]) {
    assert_eq!(rt; part.entries.len(), entries.len());
    for (one, (index, pos)) in part.entries.iter().zip(entries) {
        assert_eq!(rt; one.index, *index);
        assert_eq!(rt; one.entry.pos, *pos);
    }
    assert_eq!(rt; part.sections.len(), sections.len());
    for section in sections {
        assert!(rt; part.sections.as_slice().contains(section), "{section:?}");
    }
}

/// Two entries whose territories share no section are in two parts, in the tick's order.
#[test]
fn entries_that_are_apart_are_in_two_parts(rt: HostRuntime) -> Result<(), Fail> {
    let sources = [at(24, 64, 8), at(8, 64, 8)];
    let parts = parts_of(rt.alloc(), &[ORIGIN, EAST], sources.as_slice())?;
    assert_eq!(rt; parts.len(), 2);
    let west = [section(0, 3, 0), section(0, 4, 0)];
    expect_part(&rt, &parts[0], &[(0, at(8, 64, 8))], west.as_slice());
    let east = [section(1, 3, 0), section(1, 4, 0)];
    expect_part(&rt, &parts[1], &[(1, at(24, 64, 8))], east.as_slice());
    Ok(())
}

/// A third entry that shares sections with both links them: one part, in the tick's order.
#[test]
fn a_chain_links_entries(rt: HostRuntime) -> Result<(), Fail> {
    let sources = [at(8, 64, 8), at(24, 64, 8), at(15, 64, 8)];
    let parts = parts_of(rt.alloc(), &[ORIGIN, EAST], sources.as_slice())?;
    assert_eq!(rt; parts.len(), 1);
    let entries = [(0, at(8, 64, 8)), (1, at(15, 64, 8)), (2, at(24, 64, 8))];
    let sections = [
        section(0, 3, 0),
        section(0, 4, 0),
        section(1, 3, 0),
        section(1, 4, 0),
    ];
    expect_part(&rt, &parts[0], entries.as_slice(), sections.as_slice());
    Ok(())
}

/// Parts are of sections, not of chunks. Their numbers go by their first entries, not by height.
#[test]
fn two_parts_in_one_chunk(rt: HostRuntime) -> Result<(), Fail> {
    let sources = [at(8, 72, 8), at(8, 40, 8)];
    let parts = parts_of(rt.alloc(), &[ORIGIN], sources.as_slice())?;
    assert_eq!(rt; parts.len(), 2);
    expect_part(&rt, &parts[0], &[(0, at(8, 72, 8))], &[section(0, 4, 0)]);
    expect_part(&rt, &parts[1], &[(1, at(8, 40, 8))], &[section(0, 2, 0)]);
    Ok(())
}

/// A part's entries need not follow each other in the tick, and a tick without entries has no part.
#[test]
fn parts_interleave(rt: HostRuntime) -> Result<(), Fail> {
    let sources = [at(8, 72, 8), at(8, 40, 8), at(3, 74, 3)];
    let parts = parts_of(rt.alloc(), &[ORIGIN], sources.as_slice())?;
    assert_eq!(rt; parts.len(), 2);
    let first = [(0, at(8, 72, 8)), (2, at(3, 74, 3))];
    expect_part(&rt, &parts[0], first.as_slice(), &[section(0, 4, 0)]);
    expect_part(&rt, &parts[1], &[(1, at(8, 40, 8))], &[section(0, 2, 0)]);
    assert_eq!(rt; parts_of(rt.alloc(), &[ORIGIN], &[])?.len(), 0);
    Ok(())
}
