//! The machine: a tick whose parts workers take, turn and give back.
ghost use Rattle.std.specs.Prelude.{◌≡◌, ◌<◌, Some, false, OnOk, OnErr, IfErr};
ghost use Rattle.std.proofs.Props.{props};
ghost use Rattle.av_rules.specs.Kinds.{kind_count};
ghost use Rattle.av_world.specs.Views.{blocks, lists, height_of, positions_of, is_broken};
ghost use Rattle.av_play.specs.declared.event.Event.{Event};
ghost use Rattle.av_play.specs.declared.event.Stage.{Stage};
ghost use Rattle.av_cluster.specs.Clusters.{parts_of, sections_of};
ghost use Rattle.av_inter.specs.Out.{outs};
ghost use Rattle.av_inter.specs.Lawful.{IsCore};

use crate::parcels::mend_one;
use crate::refused::Refused;
use crate::stages::{count_of, done_by, entry_after, waits};
use crate::turning::turn_in;
use av_cluster::Cluster;
use av_play::{Event, Stage};
use av_rules::Kinds;
use av_types::Made;
use av_world::{Parcel, World};

/// A tick whose parts are turned by several workers. Each part's sections are in a parcel of its own until the part is
/// back.
#[derive(Drop)]
pub struct Core<'a> {
    pub(crate) world: World,
    pub(crate) kinds: &'a Kinds,
    pub(crate) now: u32,
    pub(crate) clusters: Vec<Cluster>,
    pub(crate) parcels: Vec<Option<Parcel>>,
    pub(crate) stages: Vec<Stage>,
    pub(crate) made: Vec<Made>,
    pub ghost lawful: { IsCore (kind_count kinds.now) (height_of world) (positions_of world) (lists world) (blocks world) (sections_of clusters.items) (parts_of clusters.items) stages.items (outs parcels.items) made.items } by { Prim.hlevel props },
    pub ghost unbroken: { is_broken world ≡ false },
}

impl<'a> Core<'a> {
    ghost use Rattle.av_play.specs.Play.{after, moved, IsLawfulEvent};
    ghost use Rattle.av_inter.specs.Refusals.{IsEventRefusal};
    ghost use Rattle.av_inter.specs.Views.{state_of, parts_in, kinds_in, now_in, IsSameTick};

    /// A part that waits is held by the worker from then on.
    fn take(&mut self, worker: u32, part: u32) -> Result<(), Refused>
        ensures ok { OnOk result (state_of self.new
            ≡ moved (state_of self.old) part (Stage.Held worker 0)) }
        ensures lawful { OnOk result (IsLawfulEvent (parts_in self.old) (state_of self.old)
            (Event.Take worker part)) }
        ensures refused { IfErr result (λ e. IsEventRefusal (parts_in self.old) (state_of self.old)
            (Event.Take worker part) e) }
        ensures unchanged { OnErr result (state_of self.new ≡ state_of self.old) }
        ensures same { IsSameTick self.old self.new }
    {
        if !waits(self.stages.as_slice(), part) {
            return Err(Refused::NotWaiting);
        }
        self.stages[part as usize] = Stage::Held(worker, 0);
        Ok(())
    }

    /// The next entry of a part that the worker holds is turned, and what that makes is put aside.
    fn turn_next(&mut self, worker: u32, part: u32) -> Result<(), Refused>
        ensures ok { OnOk result (state_of self.new
            ≡ after (kinds_in self.old) (now_in self.old) (parts_in self.old) (state_of self.old)
            (Event.Turn worker part)) }
        ensures lawful { OnOk result (IsLawfulEvent (parts_in self.old) (state_of self.old)
            (Event.Turn worker part)) }
        ensures refused { IfErr result (λ e. IsEventRefusal (parts_in self.old) (state_of self.old)
            (Event.Turn worker part) e) }
        ensures unchanged { OnErr result (state_of self.new ≡ state_of self.old) }
        ensures same { IsSameTick self.old self.new }
    {
        let Some(done) = done_by(self.stages.as_slice(), worker, part) else {
            return Err(Refused::NotHolder);
        };
        let Some(next) = entry_after(self.clusters.as_slice(), part, done) else {
            return Err(Refused::NoEntry);
        };
        let slot = &mut self.parcels[part as usize];
        match turn_in(slot, self.kinds, self.now, next, &mut self.made) {
            Err(_) => Err(Refused::NoMemory),
            Ok(()) => {
                self.stages[part as usize] = Stage::Held(worker, done + 1);
                Ok(())
            }
        }
    }

    /// A part that the worker holds, all of whose entries were turned, is back from then on: its parcel is mended.
    fn back(&mut self, worker: u32, part: u32) -> Result<(), Refused>
        ensures ok { OnOk result (state_of self.new ≡ moved (state_of self.old) part Stage.Ended) }
        ensures lawful { OnOk result (IsLawfulEvent (parts_in self.old) (state_of self.old)
            (Event.Back worker part)) }
        ensures refused { IfErr result (λ e. IsEventRefusal (parts_in self.old) (state_of self.old)
            (Event.Back worker part) e) }
        ensures unchanged { OnErr result (state_of self.new ≡ state_of self.old) }
        ensures same { IsSameTick self.old self.new }
    {
        let Some(done) = done_by(self.stages.as_slice(), worker, part) else {
            return Err(Refused::NotHolder);
        };
        if done != count_of(self.clusters.as_slice(), part) {
            return Err(Refused::NotDone);
        }
        let slot = self.parcels[part as usize].take();
        mend_one(&mut self.world, slot);
        self.stages[part as usize] = Stage::Ended;
        Ok(())
    }

    /// Lets one event happen: a part is taken, the next entry of one is turned, or one is given back.
    ///
    /// # Errors
    /// `NotWaiting`, `NotHolder`, `NoEntry` or `NotDone` where the event is not lawful, as each of them says, and
    /// `NoMemory` where memory is refused to a lawful turn. Nothing changes then.
    pub fn step(&mut self, event: Event) -> Result<(), Refused>
        ensures ok { OnOk result (state_of self.new
            ≡ after (kinds_in self.old) (now_in self.old) (parts_in self.old)
            (state_of self.old) event) }
        ensures lawful { OnOk result (IsLawfulEvent (parts_in self.old) (state_of self.old) event) }
        ensures refused { IfErr result (λ e. IsEventRefusal (parts_in self.old)
            (state_of self.old) event e) }
        ensures unchanged { OnErr result (state_of self.new ≡ state_of self.old) }
        ensures same { IsSameTick self.old self.new }
    {
        match event {
            Event::Take(worker, part) => self.take(worker, part),
            Event::Turn(worker, part) => self.turn_next(worker, part),
            Event::Back(worker, part) => self.back(worker, part),
        }
    }
}
