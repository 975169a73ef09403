//! A run of the whole program, digested.
use crate::digest::Digest;
use av_crew::NoGate;
use av_run::{Outcome, RegionFile, run};
use av_types::Fault;
use std::alloc::{AllocError, Global};
use std::sync::Wait;
use std::thread::Threads;

/// One file as a list.
pub(crate) fn only(alloc: Global, file: RegionFile) -> Result<Vec<RegionFile>, AllocError> {
    let mut files = Vec::new(alloc);
    files.push(file)?;
    Ok(files)
}

/// Runs files, adds what it answers to the digest, and hands the written files on.
pub(crate) fn ran<R: Threads + Wait + Sync>(
    rt: &R,
    alloc: Global,
    files: Vec<RegionFile>,
    table: &str,
    edits: &str,
    ticks: u32,
    workers: u32,
    digest: &mut Digest,
) -> Result<Vec<RegionFile>, Fault> {
    let Outcome {
        files,
        turns,
        chunks,
    } = run(
        rt,
        alloc,
        files,
        table.as_bytes(),
        edits.as_bytes(),
        ticks,
        workers,
        &NoGate,
    )?;
    digest.add((turns % 0x1_0000_0000_0000_0000) as u64);
    digest.add(chunks);
    digest.add_files(files.as_slice());
    Ok(files)
}
