//! A core made from a world and a plan, and ended.
ghost use Rattle.std.specs.Prelude.{◌≡◌, IfOk, IfErr, OnOk, false, replicate};
ghost use Rattle.av_types.specs.declared.fault.Fault.TheVariants.{OutOfMemory};
ghost use Rattle.av_rules.specs.Kinds.{kind_count};
ghost use Rattle.av_cells.specs.Kinds.{kinds_of};
ghost use Rattle.av_cells.specs.Rule.{HasKinds};
ghost use Rattle.av_world.specs.Views.{blocks, lists, site, is_broken};
ghost use Rattle.av_play.specs.declared.event.Stage.{Stage};
ghost use Rattle.av_cluster.specs.Clusters.{parts_of};
ghost use Rattle.av_inter.specs.Starting.{IsPlanOf, SameWorld};

use crate::machine::Core;
use crate::parcels::{carve_all, mend_all};
use crate::refused::Refused;
use crate::stages::all_back;
use av_cluster::Cluster;
use av_play::Stage;
use av_rules::Kinds;
use av_ticks::merge_made;
use av_types::Fault;
use av_world::World;
use std::alloc::{AllocError, Global};
use std::slice;

/// So many parts that wait.
fn all_waiting(alloc: Global, count: usize) -> Result<Vec<Stage>, AllocError>
    ensures { IfOk result (λ stages. stages.items ≡ replicate count Stage.Waits) }
{
    let mut stages = Vec::new(alloc);
    for index in 0..count {
        stages.push(Stage::Waits)?;
    }
    Ok(stages)
}

impl<'a> Core<'a> {
    ghost use Rattle.av_play.specs.Play.{start, outcome, AllBack};
    ghost use Rattle.av_inter.specs.Refusals.{IsUnfinished};
    ghost use Rattle.av_inter.specs.Starting.{outcome_of};
    ghost use Rattle.av_inter.specs.Views.{state_of, parts_in, kinds_in, now_in, site_in, IsSameTick};

    /// The start of tick `now`: nothing is put aside, and every part waits. The world is one whose due entries have
    /// left their lists, and the parts are the plan of those entries.
    ///
    /// # Errors
    /// `OutOfMemory`. Then the world comes back with its blocks and lists as they were.
    pub fn new(
        alloc: Global,
        world: World,
        kinds: &'a Kinds,
        now: u32,
        clusters: Vec<Cluster>,
    ) -> Result<Core<'a>, (Fault, World)>
        requires unbroken { is_broken world ≡ false }
        requires kinds { HasKinds (kind_count kinds.now) (blocks world) }
        requires plan { IsPlanOf (blocks world) clusters.items }
        ensures start { IfOk result (λ core. state_of core
            ≡ start (blocks world) (lists world) (parts_of clusters.items)) }
        ensures parts { IfOk result (λ core. parts_in core ≡ parts_of clusters.items) }
        ensures kinds { IfOk result (λ core. kinds_in core ≡ kinds_of kinds.now) }
        ensures now { IfOk result (λ core. now_in core ≡ now) }
        ensures site { IfOk result (λ core. site_in core ≡ site world) }
        ensures memory { IfErr result (λ e. e.0 ≡ OutOfMemory) }
        ensures back { IfErr result (λ e. SameWorld world e.1) }
    {
        let mut world = world;
        let Ok(stages) = all_waiting(alloc, clusters.len()) else {
            return Err((Fault::OutOfMemory, world));
        };
        let Ok(mut parcels) = Vec::with_capacity(alloc, clusters.len()) else {
            return Err((Fault::OutOfMemory, world));
        };
        match carve_all(&mut world, clusters.as_slice(), &mut parcels) {
            Err(_) => {
                mend_all(&mut world, parcels);
                Err((Fault::OutOfMemory, world))
            }
            Ok(()) => Ok(Core {
                world,
                kinds,
                now,
                clusters,
                parcels,
                stages,
                made: Vec::new(alloc),
            }),
        }
    }

    /// The world after the tick, where all parts are back: what was put aside is appended to the chunks' lists, by the
    /// index of its maker in the tick and then by its number.
    ///
    /// # Errors
    /// `NotDone` where a part is not back, and `NoMemory`. Then the core comes back as it was.
    pub fn finish(self) -> Result<World, (Refused, Core<'a>)>
        ensures ok { IfOk result (λ world. outcome_of world ≡ outcome (state_of self.entry)) }
        ensures site { IfOk result (λ world. site world ≡ site_in self.entry) }
        ensures done { OnOk result (AllBack (state_of self.entry)) }
        ensures refused { IfErr result (λ e. IsUnfinished (state_of self.entry) e.0) }
        ensures unchanged { IfErr result (λ e. state_of e.1 ≡ state_of self.entry) }
        ensures same { IfErr result (λ e. IsSameTick self.entry e.1) }
    {
        if !all_back(self.stages.as_slice()) {
            return Err((Refused::NotDone, self));
        }
        let alloc = *self.made.allocator();
        let Ok(made) = merge_made(alloc, slice::from_ref(&self.made)) else {
            return Err((Refused::NoMemory, self));
        };
        let mut core = self;
        match core.world.append(made.as_slice()) {
            Err(_) => Err((Refused::NoMemory, core)),
            Ok(()) => {
                let Core { world, .. } = core;
                Ok(world)
            }
        }
    }
}
