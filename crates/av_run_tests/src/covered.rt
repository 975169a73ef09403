//! Runs that ask for a row for each state.
use crate::given::{at, flat, one_region};
use av_crew::NoGate;
use av_image_tests::flat::Block::Glowstone;
use av_image_tests::flat::flat_region;
use av_run::{Ran, run_checked};
use av_types::Fault;
use std::alloc::Global;
use std::process::Abort;
use std::sync::Wait;
use std::test::Fail;
use std::thread::Threads;

const STONE_ROW: &[u8] = b"version = 1
[[block]]
name = \"minecraft:stone\"
open = false
floor = true
opacity = 15
emission = 0
";

/// A run of one tick, of a flat world with a block of glowstone.
fn ran(
    rt: &(impl Threads + Wait + Sync),
    alloc: Global,
    table: &[u8],
    edits: &[u8],
    strict: bool,
) -> Result<Ran, Fault> {
    let blocks = [(at(8, 64, 8), Glowstone)];
    let bytes = flat_region(alloc, flat(&blocks, &[]), 1)?;
    let files = one_region(alloc, bytes)?;
    run_checked(rt, alloc, files, table, edits, 1, 1, strict, &NoGate)
}

/// A run that is done.
fn expect_done(
    rt: &(impl Threads + Wait + Sync + Abort),
    table: &[u8],
    edits: &[u8],
    strict: bool,
    want: u32,
    alloc: Global,
) -> Result<(), Fail> {
    match ran(rt, alloc, table, edits, strict)? {
        Ran::Done {
            outcome,
            without_row,
        } => {
            assert_eq!(rt; without_row, want);
            assert_eq!(rt; outcome.files.len(), 1);
        }
        Ran::Uncovered(_) => return Err("not run".into()),
    }
    Ok(())
}

/// Stone and glowstone have no row in an empty table; air and water always have one. A state that only an edit brings is not
/// counted.
#[test]
fn states_without_a_row(rt: HostRuntime) -> Result<(), Fail> {
    let alloc = rt.alloc();
    let edit: &[u8] = b"1 4 70 4 minecraft:dirt";
    expect_done(&rt, b"version = 1", b"", false, 2, alloc)?;
    expect_done(&rt, STONE_ROW, edit, false, 1, alloc)?;
    Ok(())
}

/// Where each state is to have a row, nothing is run if one has none.
#[test]
fn a_strict_run(rt: HostRuntime) -> Result<(), Fail> {
    let alloc = rt.alloc();
    match ran(&rt, alloc, STONE_ROW, b"", true)? {
        Ran::Done { .. } => Err("run all the same".into()),
        Ran::Uncovered(count) => {
            assert_eq!(&rt; count, 1);
            Ok(())
        }
    }
}
