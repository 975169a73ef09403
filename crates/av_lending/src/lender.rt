//! What of a tick's world is lent, and taking it back.
ghost use Rattle.std.specs.Prelude.{◌≡◌, ◌<◌, ℕ, ◌+◌, ◌++◌, ◌∷◌, [], true, List, Option, Some, IfOk, OnOk, IfNone, IfSome, All, length, map, slice_get};
ghost use Rattle.av_world.specs.Views.{positions_of};
ghost use Rattle.av_types.specs.declared.position.ChunkPos.{ChunkPos};
ghost use Rattle.av_world.specs.declared.worlds.World.{World};
ghost use Rattle.av_groups.specs.Groups.{HasOwnIndex};
ghost use Rattle.av_groups.specs.declared.groups.Group.{Group};
ghost use Rattle.av_lending.specs.Plans.{IsPlanOf, IsLentAfter, IsUnderWay, IsFinished, IsPlan};
ghost use Rattle.av_lending.specs.Brought.{IsReadyAt, IsNext, IsBringing, AreBrought};

use crate::lent::Lent;
use crate::plans::Plan;
use crate::waiting::Waiting;
use av_groups::groups::{Group, Groups, Touch};
use av_rules::Kinds;
use av_types::ChunkPos;
use av_world::World;
use std::alloc::{AllocError, Global};
use std::marker::Model;

/// What of a tick's world is lent. It lends for each group the chunks that it touches, once all groups that come before it
/// there are taken back.
#[derive(Drop)]
pub struct Lender {
    /// Of each chunk, after how many groups it is. None: it may be lent.
    stages: Vec<Option<usize>>,
    waiting: Waiting,
    /// How many groups are still to be taken back.
    left: usize,
    /// How many groups more may be lent at once.
    room: usize,
}

impl Model for Lender {
    ghost Value = { List (Option ℕ) };

    ghost view = { λ lender. lender.stages.items };
}

/// The chunks that a group touches.
fn chunks_of(alloc: Global, touches: &[Touch]) -> Result<Vec<ChunkPos>, AllocError>
    ensures { IfOk result (λ chunks. chunks.items ≡ map (λ touch. touch.chunk) touches.now) }
{
    let mut chunks = Vec::with_capacity(alloc, touches.len())?;
    for touch in touches {
        chunks.push(touch.chunk)?;
    }
    Ok(chunks)
}

/// Whether a chunk is as a group that touches it needs it.
fn is_ready(stages: &[Option<usize>], touch: &Touch) -> bool
    ensures { result ≡ true → IsReadyAt stages.now touch.now }
{
    if touch.index >= stages.len() {
        return false;
    }
    match stages[touch.index] {
        Some(stage) => stage == touch.before,
        None => false,
    }
}

/// The stage of a chunk that is not yet as a group needs it: as the group before leaves it there. None: the group is ready.
fn blocked(stages: &[Option<usize>], touches: &[Touch]) -> Option<usize>
    ensures { IfNone result (All (IsReadyAt stages.now) touches.now) }
{
    for touch in touches {
        if !is_ready(stages, touch) {
            return Some(touch.before);
        }
    }
    None
}

/// The next group that is ready.
fn find(stages: &[Option<usize>], waiting: &mut Waiting, groups: &[Group]) -> Option<usize>
    ensures { IfSome result (λ number. (group : Group) × (slice_get groups.now number ≡ Some group)
        × IsNext stages.now group) }
{
    for _ in 0..=groups.len() {
        let number = waiting.take()?;
        if number >= groups.len() {
            return None;
        }
        match blocked(stages, groups[number].touches.as_slice()) {
            Some(stage) => waiting.wait(number, stage),
            None => return Some(number),
        }
    }
    None
}

/// A chunk comes to a stage.
fn bring_one(stages: &mut Vec<Option<usize>>, touch: &Touch, stage: Option<usize>)
    ensures { (w : World) (chunks : List ChunkPos) (before : List (Option ℕ))
        → HasOwnIndex (positions_of w) touch.now
        → IsBringing (positions_of w) chunks stage before stages.old.items
        → IsBringing (positions_of w) (chunks ++ touch.now.chunk ∷ []) stage before stages.new.items }
{
    if touch.index < stages.len() {
        stages[touch.index] = stage;
    }
}

/// The chunks that a group touches come to a stage.
fn bring(stages: &mut Vec<Option<usize>>, touches: &[Touch], stage: Option<usize>)
    ensures { AreBrought touches.now stage stages.old.items stages.new.items }
{
    for touch in touches {
        bring_one(stages, touch, stage);
    }
}

/// Whether all chunks are at their last stages.
fn are_at(stages: &[Option<usize>], last: &[usize]) -> bool
    ensures { result ≡ true → stages.now ≡ map Some last.now }
{
    if stages.len() != last.len() {
        return false;
    }
    for (index, stage) in last.iter().enumerate() {
        if stages[index] != Some(*stage) {
            return false;
        }
    }
    true
}

/// So many chunks that no group has turned.
fn unturned(alloc: Global, chunks: usize) -> Result<Vec<Option<usize>>, AllocError>
    ensures long { IfOk result (λ stages. length stages.items ≡ chunks) }
    ensures zero { IfOk result (λ stages. All (λ stage. stage ≡ Some 0) stages.items) }
{
    let mut stages = Vec::with_capacity(alloc, chunks)?;
    for _ in 0..chunks {
        stages.push(Some(0))?;
    }
    Ok(stages)
}

impl Lender {
    /// Nothing of the world with which the plan begins is lent. At most `room` groups are lent at once: a bare chunk stands in the
    /// world for each chunk that is.
    ///
    /// # Errors
    /// Where memory is refused.
    pub fn new(
        alloc: Global,
        plan: &Plan,
        world: &World,
        groups: &Groups,
        room: usize,
    ) -> Result<Self, AllocError>
        requires start { plan.now.start.value ≡ world.now }
        requires plan { IsPlan plan.now }
        ensures { IfOk result (IsUnderWay plan.now world.now) }
    {
        let chunks = world.positions().len();
        let groups = groups.groups.len();
        Ok(Lender {
            stages: unturned(alloc, chunks)?,
            waiting: Waiting::new(alloc, groups)?,
            left: groups,
            room,
        })
    }

    /// Lends the chunks of a group that is ready.
    fn lend_group(
        &mut self,
        alloc: Global,
        plan: &Plan,
        world: &mut World,
        kinds: &Kinds,
        groups: &Groups,
        number: usize,
    ) -> Result<Lent, AllocError>
        requires plan { IsPlanOf plan.now kinds.now groups.now }
        requires under_way { IsUnderWay plan.now world.old self.old }
        requires next { (group : Group) × (slice_get groups.now.groups.items number ≡ Some group)
            × IsNext self.old group }
        ensures under_way { OnOk result (IsUnderWay plan.now world.new self.new) }
        ensures lent { IfOk result (λ lent. IsLentAfter plan.now lent.number lent.number lent.world) }
    {
        let touches = groups.groups[number].touches.as_slice();
        let chunks = chunks_of(alloc, touches)?;
        let lent = world.lend(chunks.as_slice())?;
        bring(&mut self.stages, touches, None);
        self.room = self.room.saturating_sub(1);
        Ok(Lent {
            number,
            world: lent,
        })
    }

    /// Lends the chunks of the next group that is ready. None: those that are left wait for groups that are not taken back, or as
    /// many are lent as may be at once.
    ///
    /// # Errors
    /// Where memory is refused. Then chunks may be gone, and the world is to be given up.
    pub fn lend(
        &mut self,
        alloc: Global,
        plan: &Plan,
        world: &mut World,
        kinds: &Kinds,
        groups: &Groups,
    ) -> Result<Option<Lent>, AllocError>
        requires plan { IsPlanOf plan.now kinds.now groups.now }
        requires under_way { IsUnderWay plan.now world.old self.old }
        ensures under_way { OnOk result (IsUnderWay plan.now world.new self.new) }
        ensures lent { IfOk result (λ some. IfSome some
            (λ lent. IsLentAfter plan.now lent.number lent.number lent.world)) }
    {
        if self.room == 0 {
            return Ok(None);
        }
        let all = groups.groups.as_slice();
        match find(self.stages.as_slice(), &mut self.waiting, all) {
            Some(number) => {
                let lent = self.lend_group(alloc, plan, world, kinds, groups, number)?;
                Ok(Some(lent))
            }
            None => Ok(None),
        }
    }

    /// Takes back what was lent for a group, after its turns.
    pub fn take_back(
        &mut self,
        plan: &Plan,
        world: &mut World,
        kinds: &Kinds,
        groups: &Groups,
        number: usize,
        back: World,
    )
        requires plan { IsPlanOf plan.now kinds.now groups.now }
        requires under_way { IsUnderWay plan.now world.old self.old }
        requires turned { IsLentAfter plan.now number (number + 1) back }
        ensures { IsUnderWay plan.now world.new self.new }
    {
        let touches = groups.groups[number].touches.as_slice();
        let stage = Some(number + 1);
        world.take_back(back);
        bring(&mut self.stages, touches, stage);
        self.waiting.release(number.saturating_add(1));
        self.left = self.left.saturating_sub(1);
        self.room = self.room.saturating_add(1);
    }

    /// Whether all groups are taken back.
    pub fn is_done(&self, plan: &Plan, world: &World, kinds: &Kinds, groups: &Groups) -> bool
        requires plan { IsPlanOf plan.now kinds.now groups.now }
        requires under_way { IsUnderWay plan.now world.now self.now }
        ensures { result ≡ true → IsFinished plan.now world.now }
    {
        // The chunks are looked at only once no group is left.
        self.left == 0 && are_at(self.stages.as_slice(), groups.last.as_slice())
    }
}
