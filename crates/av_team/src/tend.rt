//! What a thread does with the tick's world while it has it: it takes groups back and lends others.
ghost use Rattle.std.specs.Prelude.{◌≡◌, IfOk, OnOk};
ghost use Rattle.av_lending.specs.Handed.{IsKeeperOf, IsTurnedOf};
ghost use Rattle.av_team.specs.Lines.{ArePassesOf, IsDeskOf};

use crate::lines::{Desk, Passes, end_all, hand_out, put_in};
use av_lending::{Keeper, Turned, Work};
use av_rules::Kinds;
use std::alloc::{AllocError, Global};
use std::sync::Wait;
use std::sync::atomic::Ordering;

/// Takes a group back.
///
/// # Errors
/// Where memory was refused to its turns.
fn take_back(
    desk: &Desk,
    kinds: &Kinds,
    keeper: &mut Keeper,
    turned: Turned,
) -> Result<(), AllocError>
    requires desk { IsDeskOf desk.now kinds.now }
    requires keeper { IsKeeperOf desk.now.plan keeper.old }
    requires turned { IsTurnedOf desk.now.plan turned }
    ensures { OnOk result (IsKeeperOf desk.now.plan keeper.new) }
{
    let Turned {
        number,
        world: back,
    } = turned;
    let Ok(back) = back else {
        return Err(AllocError);
    };
    let world = &mut keeper.world;
    keeper
        .lender
        .take_back(&desk.plan, world, kinds, &desk.groups, number, back);
    Ok(())
}

/// Takes all groups back that are turned.
fn take_all_back<R: Wait>(
    rt: &R,
    desk: &Desk,
    passes: &mut Passes,
    kinds: &Kinds,
    keeper: &mut Keeper,
) -> Result<(), AllocError>
    requires desk { IsDeskOf desk.now kinds.now }
    requires passes { ArePassesOf desk.now passes.old }
    requires keeper { IsKeeperOf desk.now.plan keeper.old }
    ensures passes { passes.new ≡ passes.old }
    ensures keeper { OnOk result (IsKeeperOf desk.now.plan keeper.new) }
{
    for _ in rt.forever() {
        let Some(turned) = desk.backs.take(rt, &mut passes.backs) else {
            break;
        };
        take_back(desk, kinds, keeper, turned)?;
    }
    Ok(())
}

/// Lends all groups that are ready, and hands them out.
fn lend_all<R: Wait>(
    rt: &R,
    alloc: Global,
    desk: &Desk,
    passes: &mut Passes,
    kinds: &Kinds,
    keeper: &mut Keeper,
) -> Result<(), AllocError>
    requires desk { IsDeskOf desk.now kinds.now }
    requires passes { ArePassesOf desk.now passes.old }
    requires keeper { IsKeeperOf desk.now.plan keeper.old }
    ensures passes { passes.new ≡ passes.old }
    ensures keeper { OnOk result (IsKeeperOf desk.now.plan keeper.new) }
{
    for _ in rt.forever() {
        let lent = keeper
            .lender
            .lend(alloc, &desk.plan, &mut keeper.world, kinds, &desk.groups)?;
        let Some(lent) = lent else {
            break;
        };
        hand_out(rt, desk, passes, Work::Turn(lent));
    }
    Ok(())
}

/// Takes back what is turned, hands out what is ready, and where all groups are taken back hands the end out, once.
///
/// # Errors
/// Where memory is refused, here or to a group's turns. Then the world is lost.
fn tended<R: Wait>(
    rt: &R,
    alloc: Global,
    desk: &Desk,
    passes: &mut Passes,
    kinds: &Kinds,
    keeper: Keeper,
) -> Result<Keeper, AllocError>
    requires desk { IsDeskOf desk.now kinds.now }
    requires passes { ArePassesOf desk.now passes.old }
    requires keeper { IsKeeperOf desk.now.plan keeper }
    ensures passes { passes.new ≡ passes.old }
    ensures keeper { IfOk result (IsKeeperOf desk.now.plan) }
{
    let mut keeper = keeper;
    take_all_back(rt, desk, passes, kinds, &mut keeper)?;
    lend_all(rt, alloc, desk, passes, kinds, &mut keeper)?;
    if !keeper.has_ended
        && keeper
            .lender
            .is_done(&desk.plan, &keeper.world, kinds, &desk.groups)
    {
        keeper.has_ended = true;
        end_all(rt, desk, passes);
    }
    Ok(keeper)
}

/// Takes back what is turned and hands out what is ready, unless another thread has the world: that one then does it, since it looks
/// again whether a group came back meanwhile.
pub(crate) fn tend<R: Wait>(rt: &R, alloc: Global, desk: &Desk, passes: &mut Passes, kinds: &Kinds)
    requires desk { IsDeskOf desk.now kinds.now }
    requires passes { ArePassesOf desk.now passes.old }
    ensures { passes.new ≡ passes.old }
{
    for _ in rt.forever() {
        let turned = desk.turned.load(Ordering::SeqCst);
        let Some(keeper) = desk.keepers.take(rt, &mut passes.keepers) else {
            return;
        };
        match tended(rt, alloc, desk, passes, kinds, keeper) {
            Ok(keeper) => put_in(rt, &desk.keepers, &mut passes.keepers, keeper),
            Err(_) => {
                // without a keeper nothing more is handed out
                end_all(rt, desk, passes);
                return;
            }
        }
        if desk.turned.load(Ordering::SeqCst) == turned {
            return;
        }
    }
}
