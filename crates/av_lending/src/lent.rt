//! Worlds that are lent for a group.
ghost use Rattle.std.specs.Prelude.{◌+◌, IfOk};
ghost use Rattle.av_lending.specs.Plans.{IsPlanOf, IsLentAfter};

use crate::plans::Plan;
use av_groups::groups::Groups;
use av_rules::Kinds;
use av_serial::turn_all;
use av_world::World;
use std::alloc::AllocError;

/// The chunks that a group touches, lent for its turns, and the group's number.
#[derive(Drop)]
pub struct Lent {
    pub number: usize,
    pub world: World,
}

/// A group's number, and its chunks after its turns. Where memory was refused they are gone.
#[derive(Drop)]
pub struct Turned {
    pub number: usize,
    pub world: Result<World, AllocError>,
}

/// Turns the entries of a group in the chunks that are lent for it. What is due leaves their lists before: that of a chunk by the
/// thread that turns it first, all threads at once, and then their caches have it.
pub fn turn_lent(plan: &Plan, kinds: &Kinds, groups: &Groups, lent: Lent) -> Turned
    requires plan { IsPlanOf plan.now kinds.now groups.now }
    requires lent { IsLentAfter plan.now lent.number lent.number lent.world }
    ensures turned { IfOk result.world (IsLentAfter plan.now result.number (result.number + 1)) }
{
    let Lent { number, mut world } = lent;
    let group = &groups.groups[number];
    let entries = &groups.entries[group.from..group.to];
    world.leave_due(plan.tick);
    let Ok(()) = turn_all(&mut world, kinds, plan.tick, entries) else {
        return Turned {
            number,
            world: Err(AllocError),
        };
    };
    Turned {
        number,
        world: Ok(world),
    }
}
