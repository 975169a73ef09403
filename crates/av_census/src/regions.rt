//! The blocks of files, counted by their states.
ghost use Rattle.std.specs.Prelude.{◌<◌, ◌≤◌, List, ℕ, IfOk, length};
ghost use Rattle.std.specs.List.{All};
ghost use Rattle.av_types.specs.Positions.{IsInLimits, chunk_at};
ghost use Rattle.av_state.specs.BlockState.{BlockState};
ghost use Rattle.av_census.specs.Counting.{AreFew, HasRoom, IsAdded, IsCountOf, TalliesAt, TalliesFile, TalliesFiles, TalliesUpTo};

use crate::counted::{Counted, counted_at};
use crate::tally::{Tally, add_all};
use av_region::{CHUNKS, Region};
use av_region_files::RegionFile;
use av_types::{Height, RegionPos};
use std::alloc::{AllocError, Global};
use std::collections::BTreeMap;

/// Counts the blocks at an index, and answers how many chunks it left out.
fn add_counted(tally: &mut Tally, counted: &Counted) -> Result<u64, AllocError>
    requires few { AreFew counted.now }
    requires room { HasRoom tally.old 262144 }
    ensures { IfOk result (λ left_out. (blocks : List BlockState) (n : ℕ)
        → IsCountOf blocks n counted.now → IsAdded tally.old tally.new blocks n left_out) }
{
    match counted {
        Counted::Nothing => Ok(0),
        Counted::Blocks { table, counts } => {
            add_all(tally, table, counts.as_slice())?;
            Ok(0)
        }
        Counted::LeftOut => Ok(1),
    }
}

/// Counts the blocks of the chunk at an index of a region, and answers how many chunks it left out.
fn tally_index(
    alloc: Global,
    tally: &mut Tally,
    region: &Region<'_>,
    pos: RegionPos,
    index: usize,
    height: Height,
) -> Result<u64, AllocError>
    requires limits { IsInLimits pos }
    requires index { index < 1024 }
    requires room { HasRoom tally.old 262144 }
    ensures { IfOk result (TalliesAt height region.now.bytes.now
        (chunk_at pos index) index tally.old tally.new) }
{
    let counted = counted_at(alloc, region, pos, index, height)?;
    add_counted(tally, &counted)
}

/// Counts the blocks of a region, and answers how many chunks it left out.
fn tally_region(
    alloc: Global,
    tally: &mut Tally,
    region: &Region<'_>,
    pos: RegionPos,
    height: Height,
) -> Result<u64, AllocError>
    requires limits { IsInLimits pos }
    requires room { HasRoom tally.old 268435456 }
    ensures { IfOk result (TalliesUpTo height pos region.now.bytes.now 1024 tally.old tally.new) }
{
    let mut left_out = 0;
    for index in 0..CHUNKS {
        let more = tally_index(alloc, tally, region, pos, index, height)?;
        left_out += more;
    }
    Ok(left_out)
}

/// Counts the blocks of a file, and answers how many chunks were left out, or 1 where the file is cut short.
fn tally_file(
    alloc: Global,
    tally: &mut Tally,
    file: &RegionFile,
    height: Height,
) -> Result<u64, AllocError>
    requires limits { IsInLimits file.now.pos }
    requires room { HasRoom tally.old 268435456 }
    ensures { IfOk result (TalliesFile height file.now tally.old tally.new) }
{
    match Region::read(file.bytes.as_slice()) {
        Err(_) => Ok(1),
        Ok(region) => tally_region(alloc, tally, &region, file.pos, height),
    }
}

/// What was counted of files.
#[derive(Drop)]
pub(crate) struct Totals {
    pub(crate) tally: Tally,
    /// How many chunks and files were left out.
    pub(crate) left_out: u64,
}

/// Counts the blocks of files, one after the other. A file's bytes are given back before the next is looked at.
pub(crate) fn tally_files(
    alloc: Global,
    files: Vec<RegionFile>,
    height: Height,
) -> Result<Totals, AllocError>
    requires limits { All (λ f. IsInLimits f.pos) files.items }
    requires few { length files.items ≤ 1024 }
    ensures { IfOk result (λ totals. TalliesFiles height files.items totals.tally totals.left_out) }
{
    let mut tally = BTreeMap::new(alloc);
    let mut left_out = 0;
    for file in files {
        let more = tally_file(alloc, &mut tally, &file, height)?;
        left_out += more;
    }
    Ok(Totals { tally, left_out })
}
