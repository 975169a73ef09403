//! Parcels of a tick's parts: carved out of the world, and mended.
ghost use Rattle.std.specs.Prelude.{◌≡◌, ◌≤◌, ◌+◌, ◌<◌, ◌++◌, ◌∷◌, ◌||◌, List, [], OnOk, OnErr, IfOk, IfErr, is_some, false, vec_len, vec_capacity};
ghost use Rattle.std.specs.List.{All, flat_map, list_any};
ghost use Rattle.av_types.specs.declared.fault.Fault.TheVariants.{OutOfMemory};
ghost use Rattle.av_types.specs.declared.tick.Entry.{Entry};
ghost use Rattle.av_world.specs.Views.{grid, blocks, lists, is_broken, IsSameButBlocks};
ghost use Rattle.av_world.specs.ParcelViews.{blocks as parcel_blocks};
ghost use Rattle.av_crew.specs.Jobs.{mended_all, AreJobs, IsCarved};
ghost use Rattle.av_cluster.specs.Clusters.{parts_of};
ghost use Rattle.av_crew.specs.Parts.{IsCut, picks_of, IsPartIn, HaveParts, CanCarve, CarvesOne};

use crate::jobs::{Done, Job};
use av_cluster::Cluster;
use av_types::{Fault, Made};
use av_world::World;
use std::alloc::AllocError;

/// Carves a part's sections out, as a job of that number.
fn carve_one(world: &mut World, cluster: Cluster, number: u32) -> Result<Job, AllocError>
    requires whole { is_broken world.old ≡ false }
    requires can { CanCarve (grid world.old) cluster }
    ensures ok { IfOk result (λ job. CarvesOne world.old world.new cluster number job) }
    ensures same { IsSameButBlocks world.old world.new }
    ensures unchanged { OnErr result (grid world.new ≡ grid world.old) }
{
    let Cluster { entries, sections } = cluster;
    let Ok(parcel) = world.carve(sections.as_slice()) else {
        return Err(AllocError);
    };
    Ok(Job {
        number,
        entries,
        parcel,
    })
}

/// Carves a parcel for each part, as the job of its number.
///
/// # Errors
/// `OutOfMemory`, and then only some first parts are carved: `jobs` has their sections, and the world, which does not turn
/// broken by it, has all others. The sections of no part are as before, whatever the answer.
pub fn carve_all(
    world: &mut World,
    clusters: Vec<Cluster>,
    jobs: &mut Vec<Job>,
) -> Result<(), Fault>
    requires whole { is_broken world.old ≡ false }
    requires empty { jobs.old.items ≡ [] }
    requires few { vec_len clusters ≤ 4294967295 }
    requires cut { (entries : List Entry) × IsCut (grid world.old) entries clusters.items }
    ensures jobs { OnOk result (AreJobs (grid world.old) (parts_of clusters.items)
        (picks_of clusters.items) 0 jobs.new.items) }
    ensures count { OnOk result (vec_len jobs.new ≡ vec_len clusters) }
    ensures carved { IsCarved (grid world.old) (picks_of clusters.items) (vec_len clusters)
        (grid world.new) }
    ensures parts { OnOk result (HaveParts world.new jobs.new.items) }
    ensures same { IsSameButBlocks world.old world.new }
    ensures memory { IfErr result (λ e. e ≡ OutOfMemory) }
{
    let mut number: u32 = 0;
    for cluster in clusters {
        jobs.reserve(1)?;
        jobs.push_reserved(carve_one(world, cluster, number)?);
        number += 1;
    }
    Ok(())
}

/// Mends a parcel, and keeps what its turns made. Says whether memory was refused to its worker.
fn mend_one(world: &mut World, done: Done, made: &mut Vec<Vec<Made>>) -> bool
    requires part { IsPartIn world.old done.parcel }
    requires room { vec_len made.old < vec_capacity made.old }
    ensures mended { blocks world.new ≡ mended_all (λ d. parcel_blocks d.parcel) (lists world.old)
        (done ∷ []) (blocks world.old) }
    ensures same { IsSameButBlocks world.old world.new }
    ensures made { made.new.items ≡ made.old.items ++ done.made ∷ [] }
    ensures capacity { vec_capacity made.new ≡ vec_capacity made.old }
    ensures refused { result ≡ is_some done.fault }
{
    let Done {
        number: _,
        parcel,
        made: mine,
        fault,
    } = done;
    world.mend(parcel);
    made.push_reserved(mine);
    fault.is_some()
}

/// Whether one of two holds.
fn either(first: bool, second: bool) -> bool
    ensures { result ≡ (first || second) }
{
    first || second
}

/// Mends all parcels, and says whether memory was refused to one of the workers. Then some parts are mended of which only
/// some first entries were turned.
pub fn mend_all(world: &mut World, dones: Vec<Done>, made: &mut Vec<Vec<Made>>) -> bool
    requires parts { All (λ d. IsPartIn world.old d.parcel) dones.items }
    requires room { vec_len made.old + vec_len dones ≤ vec_capacity made.old }
    ensures mended { blocks world.new ≡ mended_all (λ d. parcel_blocks d.parcel)
        (lists world.old) dones.items (blocks world.old) }
    ensures same { IsSameButBlocks world.old world.new }
    ensures made { flat_map (λ m. m.items) made.new.items
        ≡ flat_map (λ m. m.items) made.old.items ++ flat_map (λ d. d.made.items) dones.items }
    ensures refused { result ≡ list_any (λ d. is_some d.fault) dones.items }
{
    let mut refused = false;
    for done in dones {
        let failed = mend_one(world, done, made);
        refused = either(refused, failed);
    }
    refused
}
