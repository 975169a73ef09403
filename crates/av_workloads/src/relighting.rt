//! Regions that are read, lit and written.
use crate::digest::Digest;
use crate::jobs::{only, ran};
use crate::pool::Pool;
use crate::regions::{Country, region};
use crate::tables::TABLE;
use anyhow::Result;
use av_run::RegionFile;
use av_types::RegionPos;
use std::alloc::{AllocError, Global};
use std::sync::Wait;
use std::thread::Threads;

/// A region of so many chunks a side, and a small one east of it.
fn files(alloc: Global, seed: u32, side: u32) -> Result<Vec<RegionFile>, AllocError> {
    let pool = Pool::new(alloc, seed)?;
    let here = RegionPos { x: 0, z: 0 };
    let east = RegionPos { x: 1, z: 0 };
    let first = region(alloc, &pool, seed, here, side, Country::Settled)?;
    let second = region(alloc, &pool, seed ^ 1, east, side / 4, Country::Settled)?;
    let mut files = only(alloc, first.file)?;
    files.push(second.file)?;
    Ok(files)
}

/// Relights two regions, no tick. The line has the digest of the written files.
pub(crate) fn relight<R: Threads + Wait + Sync>(
    rt: &R,
    alloc: Global,
    seed: u32,
    side: u32,
) -> Result<String> {
    let files = files(alloc, seed, side)?;
    let mut digest = Digest::default();
    let _written = ran(rt, alloc, files, TABLE, "", 0, 1, &mut digest)?;
    let sum = digest.sum;
    Ok(format!(in alloc; "relight {sum}")?)
}
