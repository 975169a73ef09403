//! Ticks that are turned in groups, on one thread.
ghost use Rattle.std.specs.Prelude.{◌≡◌, All, OnOk};
ghost use Rattle.av_rules.specs.Kinds.{kind_count};
ghost use Rattle.av_cells.specs.Kinds.{kinds_of};
ghost use Rattle.av_land.specs.Tick.{turned_all, without_due};
ghost use Rattle.av_world.specs.Lands.{land_of};
ghost use Rattle.av_serial.specs.Ready.{IsReady};
ghost use Rattle.av_world_tests.specs.Flat.{IsPlain};
ghost use Rattle.av_lending.specs.Plans.{IsPlanOf, IsUnderWay, IsLentAfter, IsFinished};

use crate::groups::groups_of;
use av_groups::groups::Groups;
use av_lending::{Lender, Lent, Plan, Turned, turn_lent};
use av_rules::Kinds;
use av_types::{Entry, Fault};
use av_world::World;
use std::alloc::{AllocError, Global};

/// The numbers of groups in the order in which they were lent, each behind the number of those that were taken back before.
pub type Told = Vec<(usize, usize)>;

/// Lends for all groups that are ready, one after the other, until none is.
fn lend_ready(
    alloc: Global,
    plan: &Plan,
    lender: &mut Lender,
    world: &mut World,
    kinds: &Kinds,
    groups: &Groups,
    lent: &mut Vec<Lent>,
    back: usize,
    told: &mut Told,
) -> Result<(), AllocError>
    requires plan { IsPlanOf plan.now kinds.now groups.now }
    requires under_way { IsUnderWay plan.now world.old lender.old }
    requires lent { All (λ one. IsLentAfter plan.now one.number one.number one.world)
        lent.old.items }
    ensures under_way { OnOk result (IsUnderWay plan.now world.new lender.new) }
    ensures lent { OnOk result (All (λ one. IsLentAfter plan.now one.number one.number one.world)
        lent.new.items) }
{
    for _ in 0..=groups.groups.len() {
        let Some(one) = lender.lend(alloc, plan, world, kinds, groups)? else {
            return Ok(());
        };
        told.push((back, one.number))?;
        lent.push(one)?;
    }
    Ok(())
}

/// Turns the group that was lent for last, and takes its chunks back.
fn turn_last(
    plan: &Plan,
    lender: &mut Lender,
    world: &mut World,
    kinds: &Kinds,
    groups: &Groups,
    lent: &mut Vec<Lent>,
) -> Result<(), Fault>
    requires plan { IsPlanOf plan.now kinds.now groups.now }
    requires under_way { IsUnderWay plan.now world.old lender.old }
    requires lent { All (λ one. IsLentAfter plan.now one.number one.number one.world)
        lent.old.items }
    ensures under_way { OnOk result (IsUnderWay plan.now world.new lender.new) }
    ensures lent { OnOk result (All (λ one. IsLentAfter plan.now one.number one.number one.world)
        lent.new.items) }
{
    let Some(last) = lent.pop() else {
        return Err(Fault::BadCount);
    };
    let turned = turn_lent(plan, kinds, groups, last);
    let Turned {
        number,
        world: left,
    } = turned;
    let Ok(back) = left else {
        return Err(Fault::OutOfMemory);
    };
    lender.take_back(plan, world, kinds, groups, number, back);
    Ok(())
}

/// Turns all groups: again and again lends for all that are ready, and then turns the one that was lent for last.
///
/// # Errors
/// `BadCount` where groups are left and none is ready, or where all is said to be done before the last one is back or not then.
fn turn_plan(
    alloc: Global,
    plan: &Plan,
    world: &mut World,
    kinds: &Kinds,
    groups: &Groups,
    room: usize,
) -> Result<Told, Fault>
    requires plan { IsPlanOf plan.now kinds.now groups.now }
    requires start { plan.now.start.value ≡ world.old }
    ensures { OnOk result (IsFinished plan.now world.new) }
{
    let mut lender = Lender::new(alloc, plan, world, groups, room)?;
    let mut lent = Vec::new(alloc);
    let mut told = Vec::new(alloc);
    for back in 0..groups.groups.len() {
        if lender.is_done(plan, world, kinds, groups) {
            return Err(Fault::BadCount);
        }
        lend_ready(
            alloc,
            plan,
            &mut lender,
            world,
            kinds,
            groups,
            &mut lent,
            back,
            &mut told,
        )?;
        turn_last(plan, &mut lender, world, kinds, groups, &mut lent)?;
    }
    if !lender.is_done(plan, world, kinds, groups) {
        return Err(Fault::BadCount);
    }
    Ok(told)
}

/// Turns entries of loaded blocks in tick `now`, in groups, of which `room` may be lent at once. What is due leaves the lists.
pub fn turn_in_groups(
    alloc: Global,
    world: &mut World,
    kinds: &Kinds,
    now: u32,
    entries: &[Entry],
    room: usize,
) -> Result<Told, Fault>
    requires { IsReady (kind_count kinds.now) world.old }
    ensures { OnOk result (land_of world.new ≡ turned_all
        (kinds_of kinds.now) now entries.now (without_due now (land_of world.old))) }
{
    let cut = groups_of(alloc, world, entries)?;
    let plan = Plan::new(now, kinds, world, &cut);
    let told = turn_plan(alloc, &plan, world, kinds, &cut, room)?;
    world.leave_due(now);
    Ok(told)
}

/// A world after entries were turned in tick `now`, in groups, of which `room` may be lent at once.
pub fn turned_in_groups(
    alloc: Global,
    mut world: World,
    kinds: &Kinds,
    now: u32,
    entries: &[Entry],
    room: usize,
) -> Result<(World, Told), Fault>
    requires { IsPlain world }
{
    if kinds.count() < 11 {
        return Err(Fault::BadTable);
    }
    let told = turn_in_groups(alloc, &mut world, kinds, now, entries, room)?;
    Ok((world, told))
}
