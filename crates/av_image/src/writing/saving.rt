//! A world and a rest, written as region files by several threads.
ghost use Rattle.std.specs.Prelude.{◌≡◌, ◌≢◌, IfOk, IfErr, OnOk, Err, None, map, option_map, true, false};
ghost use Rattle.av_types.specs.declared.fault.Fault.TheVariants.{OutOfMemory, Broken, ChunkTooLarge};
ghost use Rattle.av_world.specs.Views.{height_of, positions_of, is_broken};
ghost use Rattle.av_image.specs.Views.{file_in};
ghost use Rattle.av_image.specs.Saving.{CanSave, IsRegionOf, IsRestOf, IsSaveFault, saved, unsaved};
ghost use Rattle.av_image.specs.SavingSteps.{region_file, region_unsaved};

use crate::rest::{RegionRest, Rest};
use crate::writing::dealt::payloads_by;
use crate::writing::job::RegionJob;
use crate::writing::payloads::region_of;
use av_chunk::ChunkLight;
use av_region_files::RegionFile;
use av_rules::Kinds;
use av_types::Fault;
use av_world::World;
use std::alloc::Global;
use std::thread::Threads;

/// The file of a region.
fn saved_region(
    rt: &(impl Threads + Sync),
    alloc: Global,
    world: &World,
    region: &RegionRest,
    kinds: &Kinds,
    lights: &[ChunkLight],
    elapsed: u32,
) -> Result<RegionFile, Fault>
    requires can { CanSave world.now kinds.now lights.now elapsed }
    requires region { IsRegionOf (height_of world.now) (positions_of world.now) region.now }
    ensures ok { IfOk result (λ file. file_in file
        ≡ region_file world.now kinds.now lights.now elapsed region.now) }
    ensures fits { OnOk result (region_unsaved world.now kinds.now lights.now elapsed region.now
        ≡ None) }
    ensures err { IfErr result (λ e. e ≢ OutOfMemory
        → option_map ChunkTooLarge (region_unsaved world.now kinds.now lights.now elapsed
        region.now) ≡ Some e) }
{
    let job = RegionJob {
        world,
        region,
        kinds,
        lights,
        elapsed,
    };
    let payloads = payloads_by(rt, alloc, &job)?;
    region_of(alloc, region, payloads.as_slice())
}

/// The files of regions.
fn saved_regions(
    rt: &(impl Threads + Sync),
    alloc: Global,
    world: &World,
    rest: &Rest,
    kinds: &Kinds,
    lights: &[ChunkLight],
    elapsed: u32,
) -> Result<Vec<RegionFile>, Fault>
    requires can { CanSave world.now kinds.now lights.now elapsed }
    requires rest { IsRestOf (height_of world.now) (positions_of world.now) rest.now }
    ensures ok { IfOk result (λ files. map file_in files.items
        ≡ saved world.now rest.now kinds.now lights.now elapsed) }
    ensures fits { OnOk result (unsaved world.now rest.now kinds.now lights.now elapsed ≡ None) }
    ensures err { IfErr result (λ e. e ≢ OutOfMemory
        → option_map ChunkTooLarge (unsaved world.now rest.now kinds.now lights.now elapsed)
        ≡ Some e) }
{
    let mut files = Vec::new(alloc);
    for region in &rest.regions {
        files.push(saved_region(rt, alloc, world, region, kinds, lights, elapsed)?)?;
    }
    Ok(files)
}

/// The region files that a world and a rest are written as after so many ticks, by z and then by x of their regions.
///
/// `rest` is that of the world's loaded chunks, as `load` answers it, and `lights` has the light of each of them in the
/// order of the world's positions. The numbers of the world are those of `kinds`, and each entry's time less `elapsed`
/// fits an Int. Nothing of this is asked of a broken world.
///
/// The chunks of a region are encoded by as many threads as there are processors, and the regions are gone through one after the
/// other, so one region's payloads are in memory at a time.
///
/// # Errors
/// `Broken` of a broken world, and of no other. `ChunkTooLarge` for the first chunk, by its region and its index there,
/// that does not fit the 255 sectors which a location can count. Else `OutOfMemory`.
pub fn save(
    rt: &(impl Threads + Sync),
    alloc: Global,
    world: &World,
    rest: &Rest,
    kinds: &Kinds,
    lights: &[ChunkLight],
    elapsed: u32,
) -> Result<Vec<RegionFile>, Fault>
    requires can { is_broken world.now ≡ false → CanSave world.now kinds.now lights.now elapsed }
    requires rest { is_broken world.now ≡ false → IsRestOf (height_of world.now)
        (positions_of world.now) rest.now }
    ensures ok { IfOk result (λ files. map file_in files.items
        ≡ saved world.now rest.now kinds.now lights.now elapsed) }
    ensures fits { OnOk result (unsaved world.now rest.now kinds.now lights.now elapsed ≡ None) }
    ensures broken { is_broken world.now ≡ true → result ≡ Err Broken }
    ensures err { IfErr result (λ e. e ≢ OutOfMemory
        → IsSaveFault world.now rest.now kinds.now lights.now elapsed e) }
{
    if world.broken() {
        return Err(Fault::Broken);
    }
    saved_regions(rt, alloc, world, rest, kinds, lights, elapsed)
}
