//! Runs that are stopped and resumed, of one flat chunk with stone at y 63.
use crate::given::{
    Given, at, file_after, flat, only_file, run_edits, run_region, table_with, wet_at,
};
use av_image_tests::flat::flat_region;
use av_types::Wet;
use std::alloc::Global;
use std::process::Abort;
use std::sync::Wait;
use std::test::Fail;
use std::thread::Threads;

const SOURCE: &str = "1 8 64 8 minecraft:water[level=0]\n";

/// The water at a column, by its distance from the source at x 8, z 8.
fn wet_around(x: u8, z: u8) -> Wet {
    let distance = x.abs_diff(8).saturating_add(z.abs_diff(8));
    match 8u8.saturating_sub(distance) {
        8 => Wet::Source,
        0 => Wet::Dry,
        amount => Wet::Flow(amount),
    }
}

/// Water stands at each distance from the source up to 7.
fn expect_distances(rt: &impl Abort, alloc: Global, file: &[u8]) -> Result<(), Fail> {
    for x in 0..16 {
        for z in 0..16 {
            let pos = at(i32::from(x), 64, i32::from(z));
            let found = wet_at(alloc, file, pos)?;
            assert!(rt; found == wet_around(x, z), "{x} {z}");
        }
    }
    Ok(())
}

/// After 36 ticks water stands at each distance from the source up to 7, and 16 ticks on the files of 20 give these files.
#[test]
fn water_by_its_distance(rt: HostRuntime) -> Result<(), Fail> {
    let alloc = rt.alloc();
    let whole = run_edits(&rt, alloc, SOURCE, 36)?;
    expect_distances(&rt, alloc, whole.as_slice())?;
    let stopped = run_edits(&rt, alloc, SOURCE, 20)?;
    assert!(rt; file_after(&rt, alloc, stopped, "", 16)? == whole);
    Ok(())
}

/// The same with edits before and after the stop. Those of tick 20 are of the stopped run, and those of tick 21 of tick 1 of the
/// resumed one. The order of the lines of two ticks tells nothing.
#[test]
fn edits_are_split(rt: HostRuntime) -> Result<(), Fail> {
    let alloc = rt.alloc();
    let edits =
        "21 8 64 8 minecraft:air\n20 8 64 10 minecraft:stone\n1 8 64 8 minecraft:water[level=0]";
    let whole = run_edits(&rt, alloc, edits, 36)?;
    let first = "1 8 64 8 minecraft:water[level=0]\n20 8 64 10 minecraft:stone";
    let stopped = run_edits(&rt, alloc, first, 20)?;
    let resumed = file_after(&rt, alloc, stopped, "1 8 64 8 minecraft:air", 16)?;
    assert!(rt; resumed == whole);
    assert!(rt; resumed != run_edits(&rt, alloc, first, 36)?);
    Ok(())
}

/// The turns of a run of a region with 2 workers, and its file.
fn turns_of(
    rt: &(impl Threads + Wait + Sync),
    alloc: Global,
    bytes: Vec<u8>,
    edits: &str,
    ticks: u32,
) -> Result<(u128, Vec<u8>), Fail> {
    let table = table_with(alloc, "version = 1")?;
    let given = Given {
        table: table.as_slice(),
        edits,
        ticks,
        workers: 2,
    };
    let outcome = run_region(rt, alloc, bytes, given)?;
    Ok((outcome.turns, only_file(outcome)?))
}

/// Of the six turns in eleven ticks of a source one is in the first six, and five are in the five ticks after these.
#[test]
fn turns_are_split(rt: HostRuntime) -> Result<(), Fail> {
    let alloc = rt.alloc();
    let bytes = flat_region(alloc, flat(&[], &[]), 1)?;
    let (turns, stopped) = turns_of(&rt, alloc, bytes, SOURCE, 6)?;
    assert_eq!(rt; turns, 1);
    let (turns, _) = turns_of(&rt, alloc, stopped, "", 5)?;
    assert_eq!(rt; turns, 5);
    Ok(())
}
