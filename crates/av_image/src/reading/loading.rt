//! Region files, read as a world and a rest by several threads.
ghost use Rattle.std.specs.Prelude.{◌≡◌, ◌≢◌, IfOk, IfErr, false, map, List};
ghost use Rattle.std.specs.List.{All};
ghost use Rattle.av_types.specs.declared.fault.Fault.TheVariants.{OutOfMemory};
ghost use Rattle.av_types.specs.Positions.{IsInLimits};
ghost use Rattle.av_state.specs.BlockState.{BlockState};
ghost use Rattle.av_state.specs.Table.{states};
ghost use Rattle.av_section.specs.Reading.{OnlyGrows};
ghost use Rattle.av_types.specs.Order.{ordered};
ghost use Rattle.av_files.specs.Files.{File, in_order, regions_rise};
ghost use Rattle.av_files.specs.FirstFault.{IsFilesFaultAfter};
ghost use Rattle.av_files.specs.Layers.{IsLoadAfter};
ghost use Rattle.av_world.specs.Lands.{land_of, IsUncarved};
ghost use Rattle.av_world.specs.Views.{positions_of, is_broken};
ghost use Rattle.av_image.specs.Views.{rest_in, file_in};
ghost use Rattle.av_image.specs.RegionsRead.{WereFilesRead, AreRegionsRead};
ghost use Rattle.av_image.specs.Saving.{IsRestOf};
ghost use Rattle.av_image.specs.Loading.{positioned_order, region_before, comes_after, AreFilesInOrder, IsRegionsFault};

use crate::reading::regions::{ReadRegion, read_regions};
use crate::reading::splits::{LoadedChunk, split_regions, world_of};
use crate::rest::Rest;
use av_region_files::{RegionFile, are_in_limits};
use av_rules::Rules;
use av_state::StateTable;
use av_types::{Fault, Height, RegionPos};
use av_world::World;
use std::alloc::{AllocError, Global};
use std::thread::Threads;

/// The files by (z, x) of their regions.
fn files_in_order(files: Vec<RegionFile>) -> Result<Vec<RegionFile>, AllocError>
    ensures { IfOk result (λ fs. map file_in fs.items ≡ in_order (map file_in files.items)) }
{
    let mut files = files;
    files.sort_by_key(|f| (f.pos.z, f.pos.x))?;
    Ok(files)
}

/// The chunks by (z, x).
fn chunks_in_order(found: Vec<LoadedChunk>) -> Result<Vec<LoadedChunk>, AllocError>
    ensures { IfOk result (λ xs. xs.items ≡ ordered positioned_order found.items) }
{
    let mut found = found;
    found.sort_by_key(|loaded| (loaded.at.z, loaded.at.x))?;
    Ok(found)
}

/// Whether a region comes before another.
fn is_before(a: RegionPos, b: RegionPos) -> bool
    ensures { result ≡ region_before a b }
{
    a.z < b.z || a.z == b.z && a.x < b.x
}

/// Whether a region comes after another, where there is one.
fn is_after(last: Option<RegionPos>, pos: RegionPos) -> bool
    ensures { result ≡ comes_after last pos }
{
    match last {
        None => true,
        Some(last) => is_before(last, pos),
    }
}

/// Whether each region comes after the one before it.
fn do_rise(files: &[RegionFile]) -> bool
    ensures { result ≡ regions_rise (map (λ f. f.pos) files.now) }
{
    let mut last = None;
    for file in files {
        if !is_after(last, file.pos) {
            return false;
        }
        last = Some(file.pos);
    }
    true
}

/// Files of regions within the limits, each region once, in their order.
fn judged(files: Vec<RegionFile>) -> Result<Vec<RegionFile>, Fault>
    ensures ok { IfOk result (λ fs. AreFilesInOrder (map file_in files.items)
        (map file_in fs.items)) }
    ensures limits { IfOk result (λ fs. All (λ f. IsInLimits f.pos) fs.items) }
    ensures err { IfErr result (λ e. e ≢ OutOfMemory → IsRegionsFault (map file_in files.items) e) }
{
    if !are_in_limits(files.as_slice()) {
        return Err(Fault::RegionRange);
    }
    let files = files_in_order(files)?;
    if !do_rise(files.as_slice()) {
        return Err(Fault::RepeatedRegion);
    }
    Ok(files)
}

/// The world and the rest of regions that were read of files in their order, by a table that has grown to this one.
fn world_and_rest(
    alloc: Global,
    regions: Vec<ReadRegion>,
    height: Height,
    table: &StateTable,
) -> Result<(World, Rest), AllocError>
    requires { WereFilesRead height (states table.now) regions.items }
    ensures ok { IfOk result (λ read. (old : List BlockState) → (files sorted : List File)
        → AreFilesInOrder files sorted → AreRegionsRead height old
        (states table.now) sorted regions.items → IsLoadAfter height old files (states table.now)
        (land_of read.0) (rest_in read.1)) }
    ensures whole { IfOk result (λ read. IsUncarved read.0) }
    ensures rest { IfOk result (λ read. IsRestOf height (positions_of read.0) read.1) }
    ensures sound { IfOk result (λ read. is_broken read.0 ≡ false) }
{
    let mut found = Vec::new(alloc);
    let regions = split_regions(alloc, regions, &mut found)?;
    let found = chunks_in_order(found)?;
    let world = world_of(alloc, height, found)?;
    Ok((world, Rest { regions }))
}

/// The world and the rest that region files denote, at a height.
fn load_at(
    rt: &(impl Threads + Sync),
    alloc: Global,
    files: Vec<RegionFile>,
    height: Height,
    table: &mut StateTable,
) -> Result<(World, Rest), Fault>
    ensures ok { IfOk result (λ read. IsLoadAfter height (states table.old)
        (map file_in files.items) (states table.new) (land_of read.0) (rest_in read.1)) }
    ensures whole { IfOk result (λ read. IsUncarved read.0) }
    ensures rest { IfOk result (λ read. IsRestOf height (positions_of read.0) read.1) }
    ensures sound { IfOk result (λ read. is_broken read.0 ≡ false) }
    ensures err { IfErr result (λ e. e ≢ OutOfMemory
        → IsFilesFaultAfter height (states table.old) (map file_in files.items) e) }
    ensures table { OnlyGrows (states table.old) (states table.new) }
{
    let files = judged(files)?;
    let regions = read_regions(rt, alloc, files, height, table)?;
    Ok(world_and_rest(alloc, regions, height, table)?)
}

/// The world and the rest that region files denote, in the height of the rules. States that the table has not are numbered
/// after those that it has, in the order of the files by (z, x) of their regions, of the chunks by index, and of each
/// chunk's palettes. Older numbers keep their states, whatever is answered.
///
/// No section of the world is out, it is not broken, and the rest is that of its loaded chunks.
///
/// Payloads, a batch of at most 1 MiB of them at a time, are decoded by as many threads as there are processors, and read by
/// them where the table had all their states before that batch. All others are read one after the other.
///
/// # Errors
/// The first of these, in this order: `RegionRange` where a region is out of the limits; `RepeatedRegion` where one comes
/// twice; and then the first fault of the regions by (z, x), of each `ShortHeader` before those of its chunks by index,
/// of a chunk the least-numbered one from `BadLocation` to `TooManyStates`. `OutOfMemory` may stand in place of any.
pub fn load(
    rt: &(impl Threads + Sync),
    alloc: Global,
    files: Vec<RegionFile>,
    rules: &Rules,
    table: &mut StateTable,
) -> Result<(World, Rest), Fault>
    ensures ok { IfOk result (λ read. IsLoadAfter rules.now.height (states table.old)
        (map file_in files.items) (states table.new) (land_of read.0) (rest_in read.1)) }
    ensures whole { IfOk result (λ read. IsUncarved read.0) }
    ensures rest { IfOk result (λ read. IsRestOf rules.now.height (positions_of read.0) read.1) }
    ensures sound { IfOk result (λ read. is_broken read.0 ≡ false) }
    ensures err { IfErr result (λ e. e ≢ OutOfMemory
        → IsFilesFaultAfter rules.now.height (states table.old) (map file_in files.items) e) }
    ensures table { OnlyGrows (states table.old) (states table.new) }
{
    load_at(rt, alloc, files, rules.height(), table)
}
