//! A world, lit and written.
ghost use Rattle.std.specs.Prelude.{◌≡◌, ◌≢◌, IfOk, IfErr, false, map};
ghost use Rattle.av_types.specs.declared.fault.Fault.TheVariants.{OutOfMemory};
ghost use Rattle.av_rules.specs.Rows.{BlockTable};
ghost use Rattle.av_rules.specs.Kinds.{kind_count};
ghost use Rattle.av_land.specs.Good.{Good, IsTimely};
ghost use Rattle.av_world.specs.Lands.{land_of, IsUncarved};
ghost use Rattle.av_world.specs.Views.{height_of, positions_of, is_broken};
ghost use Rattle.av_image.specs.Views.{rest_in, file_in};
ghost use Rattle.av_image.specs.Saving.{IsRestOf, states_in};
ghost use Rattle.av_run.specs.Written.{AreFilesOf, IsNotWritten};
ghost use Rattle.av_run.specs.Input.{AreKindsBy};

use av_crew::{Gate, Step};
use av_image::{Rest, save};
use av_light::light_all;
use av_region_files::RegionFile;
use av_rules::Kinds;
use av_types::Fault;
use av_world::World;
use std::alloc::Global;
use std::thread::Threads;

/// The files that a world with its rest is written as after so many ticks, with its light. The gate is told of both before
/// they are made.
pub(crate) fn written<G: Gate>(
    rt: &(impl Threads + Sync),
    alloc: Global,
    world: &World,
    rest: &Rest,
    kinds: &Kinds,
    ticks: u32,
    gate: &G,
) -> Result<Vec<RegionFile>, Fault>
    requires whole { IsUncarved world.now }
    requires sound { is_broken world.now ≡ false }
    requires good { Good (kind_count kinds.now) (IsTimely ticks) (land_of world.now) }
    requires rest { IsRestOf (height_of world.now) (positions_of world.now) rest.now }
    ensures ok { IfOk result (λ files. (t : BlockTable) → AreKindsBy t kinds.now
        → AreFilesOf t (states_in kinds.now world.now) (rest_in rest.now) ticks
        (map file_in files.items)) }
    ensures err { IfErr result (λ e. e ≢ OutOfMemory → (t : BlockTable) → AreKindsBy t kinds.now
        → IsNotWritten t (states_in kinds.now world.now) (rest_in rest.now) ticks e) }
{
    gate.reached(Step::Light {
        chunks: world.positions().len() as u64,
    });
    let lights = light_all(rt, alloc, world, kinds)?;
    gate.reached(Step::Files {
        files: rest.regions.len() as u64,
    });
    save(rt, alloc, world, rest, kinds, lights.as_slice(), ticks)
}
