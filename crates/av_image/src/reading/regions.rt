//! All indices of region files, whose payloads several threads read ahead.
ghost use Rattle.std.specs.Prelude.{◌≡◌, ◌≢◌, ◌+◌, ◌<◌, ◌^◌, IfOk, IfErr, OnOk, map};
ghost use Rattle.std.specs.List.{All};
ghost use Rattle.av_types.specs.declared.fault.Fault.TheVariants.{OutOfMemory};
ghost use Rattle.av_types.specs.Positions.{IsInLimits};
ghost use Rattle.av_state.specs.Table.{states};
ghost use Rattle.av_section.specs.Reading.{OnlyGrows};
ghost use Rattle.av_dealt.specs.Dealt.{AreAtIndices};
ghost use Rattle.av_files.specs.Layout.{indices};
ghost use Rattle.av_files.specs.FirstFault.{IsFirstOfIndices, IsFirstOfFile, IsFirstOfFiles};
ghost use Rattle.av_image.specs.Ahead.{IsMadeBy};
ghost use Rattle.av_image.specs.RegionsRead.{AreIndicesRead, IsRegionRead, AreRegionsRead, file_of, are_stamps};
ghost use Rattle.av_image.specs.Ways.{GoesOn, Stops};

use crate::reading::ahead::{read_ahead, take_at};
use crate::reading::batch::{Batch, extent_from};
use crate::reading::stored::{Stored, read_stored};
use av_chunk::Reading;
use av_region::{CHUNKS, Region};
use av_region_files::RegionFile;
use av_state::StateTable;
use av_types::{Fault, Height, RegionPos};
use std::alloc::{AllocError, Global};
use std::thread::Threads;

/// A region that was read.
#[derive(Drop)]
pub(crate) struct ReadRegion {
    pub(crate) pos: RegionPos,
    pub(crate) stamps: Vec<u32>,
    pub(crate) stored: Vec<Stored>,
}

/// All timestamps of a region.
pub(crate) fn read_stamps(alloc: Global, region: &Region<'_>) -> Result<Vec<u32>, AllocError>
    ensures ok { IfOk result (λ stamps. stamps.items ≡ are_stamps region.now.bytes.now 1024) }
    ensures small { IfOk result (λ stamps. All (λ n. n < 2 ^ 32) stamps.items) }
{
    let mut stamps = Vec::new(alloc);
    for index in 0..CHUNKS {
        stamps.push(region.stamp(index))?;
    }
    Ok(stamps)
}

/// Reads the indices of a batch, behind those before it, but for those that were read ahead.
fn read_batch(
    alloc: Global,
    batch: &Batch<'_>,
    mut ahead: Vec<Option<Reading>>,
    table: &mut StateTable,
    stored: &mut Vec<Stored>,
) -> Result<(), Fault>
    requires ahead { AreAtIndices (IsMadeBy batch.now (states table.old)) ahead.items }
    ensures ok { OnOk result (GoesOn batch.now.height
        (file_of batch.now.pos batch.now.region.bytes.now)
        (states table.old) batch.now.first stored.old.items (states table.new)
        (batch.now.first + batch.now.extent.count) stored.new.items) }
    ensures err { IfErr result (λ e. e ≢ OutOfMemory
        → Stops batch.now.height (file_of batch.now.pos batch.now.region.bytes.now)
        (states table.old) batch.now.first stored.old.items e) }
    ensures table { OnlyGrows (states table.old) (states table.new) }
{
    for offset in 0..batch.extent.count {
        let item = read_stored(
            alloc,
            &batch.region,
            take_at(&mut ahead, offset),
            batch.pos,
            batch.first + offset,
            batch.height,
            table,
        )?;
        stored.push(item)?;
    }
    Ok(())
}

/// What a region has at all its indices, in order. Only a batch is read ahead, by the states that those before it left:
/// all would take much memory, and most of the work on a region that is refused early would be for nothing.
fn read_all(
    rt: &(impl Threads + Sync),
    alloc: Global,
    region: &Region<'_>,
    pos: RegionPos,
    height: Height,
    table: &mut StateTable,
) -> Result<Vec<Stored>, Fault>
    requires { IsInLimits pos }
    ensures ok { IfOk result (λ stored. AreIndicesRead height (states table.old) (states table.new)
        (file_of pos region.now.bytes.now) stored.items) }
    ensures err { IfErr result (λ e. e ≢ OutOfMemory
        → IsFirstOfIndices height (states table.old) (file_of pos region.now.bytes.now) indices e) }
    ensures table { OnlyGrows (states table.old) (states table.new) }
{
    let mut stored = Vec::new(alloc);
    let mut first = 0;
    while first < CHUNKS {
        let batch = Batch {
            region: *region,
            pos,
            height,
            first,
            extent: extent_from(region, first),
        };
        let ahead = read_ahead(rt, alloc, &batch, table)?;
        read_batch(alloc, &batch, ahead, table, &mut stored)?;
        first += batch.extent.count;
    }
    Ok(stored)
}

/// A region's file, read. Its bytes are let go.
fn read_region(
    rt: &(impl Threads + Sync),
    alloc: Global,
    file: RegionFile,
    height: Height,
    table: &mut StateTable,
) -> Result<ReadRegion, Fault>
    requires { IsInLimits file.pos }
    ensures ok { IfOk result (IsRegionRead height (states table.old) (states table.new)
        (file_of file.pos file.bytes.items)) }
    ensures err { IfErr result (λ e. e ≢ OutOfMemory
        → IsFirstOfFile height (states table.old) (file_of file.pos file.bytes.items) e) }
    ensures table { OnlyGrows (states table.old) (states table.new) }
{
    let region = Region::read(file.bytes.as_slice())?;
    let stamps = read_stamps(alloc, &region)?;
    let stored = read_all(rt, alloc, &region, file.pos, height, table)?;
    Ok(ReadRegion {
        pos: file.pos,
        stamps,
        stored,
    })
}

/// Region files, one after the other.
pub(crate) fn read_regions(
    rt: &(impl Threads + Sync),
    alloc: Global,
    files: Vec<RegionFile>,
    height: Height,
    table: &mut StateTable,
) -> Result<Vec<ReadRegion>, Fault>
    requires { All (λ f. IsInLimits f.pos) files.items }
    ensures ok { IfOk result (λ regions. AreRegionsRead height (states table.old) (states table.new)
        (map (λ f. file_of f.pos f.bytes.items) files.items) regions.items) }
    ensures err { IfErr result (λ e. e ≢ OutOfMemory
        → IsFirstOfFiles height (states table.old) (map
        (λ f. file_of f.pos f.bytes.items) files.items) e) }
    ensures table { OnlyGrows (states table.old) (states table.new) }
{
    let mut regions = Vec::new(alloc);
    for file in files {
        regions.push(read_region(rt, alloc, file, height, table)?)?;
    }
    Ok(regions)
}
