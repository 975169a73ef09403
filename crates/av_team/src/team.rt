//! A tick's entries turned in groups.
ghost use Rattle.std.specs.Prelude.{◌≡◌, true, IfOk, OnOk};
ghost use Rattle.std.specs.List.{list_all};
ghost use Rattle.av_rules.specs.Kinds.{kind_count};
ghost use Rattle.av_cells.specs.Kinds.{kinds_of};
ghost use Rattle.av_land.specs.Tick.{turned_all, without_due};
ghost use Rattle.av_world.specs.Lands.{land_of};
ghost use Rattle.av_world.specs.Views.{blocks};
ghost use Rattle.av_serial.specs.Ready.{IsReady, HasSameChunks};
ghost use Rattle.av_groups.specs.Groups.{AreGroups};
ghost use Rattle.av_lending.specs.Handed.{IsKeeperOf};
ghost use Rattle.av_lending.specs.Plans.{IsFinished};
ghost use Rattle.av_team.specs.Lines.{ArePassesOf, IsDeskOf, IsPassOf};
ghost use Rattle.av_team.specs.Turned.{AreTurned};

use crate::bell::Bell;
use crate::here::turn_here;
use crate::lines::{Desk, Passes, put_in};
use crate::serve::{serve, start_all};
use crate::worth::{are_long, gain_a_third};
use av_groups::cutting::cut;
use av_groups::groups::Groups;
use av_lending::{Keeper, Lender, Plan};
use av_line::{Line, LinePass};
use av_rules::Kinds;
use av_types::Entry;
use av_world::World;
use std::alloc::{AllocError, Global};
use std::sync::Wait;
use std::sync::atomic::AtomicU64;
use std::thread::{Scope, Threads};
use std::{mem, thread};

/// So many groups may be lent at once for each thread, with the one that it turns: enough that none waits for one that another could
/// lend. More would only take chunks out of the caches, and memory for those that stand in for them.
const AHEAD: usize = 3;

/// Turns all groups, by this thread and the others, which end before it returns. The keeper is in its line before they are started,
/// so that each begins at once.
///
/// # Errors
/// Where a thread can't be started. The others turn all groups all the same.
fn in_scope<'s, E, R: Wait + Sync>(
    scope: &'s Scope<'s, E>,
    rt: &'s R,
    desk: &'s Desk,
    mut passes: Passes,
    kinds: &'s Kinds,
    keeper: Keeper,
) -> Result<(), AllocError>
    requires desk { IsDeskOf desk.now kinds.now }
    requires passes { ArePassesOf desk.now passes }
    requires keeper { IsKeeperOf desk.now.plan keeper }
{
    put_in(rt, &desk.keepers, &mut passes.keepers, keeper);
    let started = start_all(scope, rt, desk, &mut passes, kinds);
    serve(rt, desk, passes, kinds);
    started
}

/// Turns all groups, by this thread and the others. Then the keeper is in its line again, unless memory was refused.
///
/// # Errors
/// Where a thread can't be started.
fn in_threads<R: Threads + Wait + Sync>(
    rt: &R,
    desk: &Desk,
    passes: Passes,
    kinds: &Kinds,
    keeper: Keeper,
) -> Result<(), AllocError>
    requires desk { IsDeskOf desk.now kinds.now }
    requires passes { ArePassesOf desk.now passes }
    requires keeper { IsKeeperOf desk.now.plan keeper }
{
    thread::scope(
        thread::scope_env(),
        rt,
        |scope| -> Result<(), AllocError>
            requires { IsDeskOf desk.now kinds.now × ArePassesOf desk.now passes
                × IsKeeperOf desk.now.plan keeper }
        { in_scope(scope, rt, desk, passes, kinds, keeper) },
    )
}

/// The world that the keeper leaves in its line.
///
/// # Errors
/// Where there is none: memory was refused to a thread.
fn finish<R: Wait>(
    rt: &R,
    desk: &Desk,
    mut pass: LinePass<Keeper, Plan>,
    kinds: &Kinds,
) -> Result<World, AllocError>
    requires desk { IsDeskOf desk.now kinds.now }
    requires pass { IsPassOf desk.now.keepers desk.now.plan pass }
    ensures { IfOk result (IsFinished desk.now.plan) }
{
    let Some(keeper) = desk.keepers.take(rt, &mut pass) else {
        return Err(AllocError);
    };
    let Keeper { lender, world, .. } = keeper;
    if lender.is_done(&desk.plan, &world, kinds, &desk.groups) {
        Ok(world)
    } else {
        Err(AllocError)
    }
}

/// What the threads of a tick share, the passes of the first of them, and one more of the keeper's line.
type Opened = (Desk, Passes, LinePass<Keeper, Plan>);

/// Opens the lines of tick `now`, with which this world begins, in these groups.
///
/// # Errors
/// Where memory is refused.
fn open_desk<R: Wait>(
    rt: &R,
    alloc: Global,
    world: &World,
    kinds: &Kinds,
    now: u32,
    groups: Groups,
    threads: usize,
) -> Result<Opened, AllocError>
    requires ready { IsReady (kind_count kinds.now) world.now }
    requires groups { AreGroups (land_of world.now) groups }
    ensures desk { IfOk result (λ opened. IsDeskOf opened.0 kinds.now) }
    ensures passes { IfOk result (λ opened. ArePassesOf opened.0 opened.1) }
    ensures last { IfOk result (λ opened. IsPassOf opened.0.keepers opened.0.plan opened.2) }
    ensures tick { IfOk result (λ opened. opened.0.plan.tick ≡ now) }
    ensures start { IfOk result (λ opened. opened.0.plan.start.value ≡ world.now) }
    ensures groups { IfOk result (λ opened. opened.0.groups ≡ groups) }
{
    // Of groups that are lent, and of ends: of each line no more can stand in it.
    let room = threads.saturating_mul(AHEAD + 1);
    let plan = Plan::new(now, kinds, world, &groups);
    let works_plan = Plan::new(now, kinds, world, &groups);
    let (works, works_pass) = Line::open(rt, alloc, works_plan, room)?;
    let backs_plan = Plan::new(now, kinds, world, &groups);
    let (backs, backs_pass) = Line::open(rt, alloc, backs_plan, room)?;
    let keepers_plan = Plan::new(now, kinds, world, &groups);
    let (keepers, mut keepers_pass) = Line::open(rt, alloc, keepers_plan, 1)?;
    let last_pass = keepers.another(&mut keepers_pass);
    let passes = Passes {
        works: works_pass,
        backs: backs_pass,
        keepers: keepers_pass,
    };
    let desk = Desk {
        works,
        backs,
        keepers,
        plan,
        groups,
        threads,
        bell: Bell::new(),
        turned: AtomicU64::new(0),
    };
    Ok((desk, passes, last_pass))
}

/// What all groups leave of a world, by so many threads. What is due and of no group may still stand in its lists.
///
/// # Errors
/// Where memory is refused, also where a thread can't be started. Then all threads have ended.
fn turned<R: Threads + Wait + Sync>(
    rt: &R,
    alloc: Global,
    world: World,
    kinds: &Kinds,
    now: u32,
    groups: Groups,
    threads: usize,
) -> Result<World, AllocError>
    requires ready { IsReady (kind_count kinds.now) world }
    requires groups { AreGroups (land_of world) groups }
    ensures { IfOk result (AreTurned kinds.now now groups.entries.items world) }
{
    let (desk, passes, last_pass) = open_desk(rt, alloc, &world, kinds, now, groups, threads)?;
    let ahead = threads.saturating_mul(AHEAD);
    let lender = Lender::new(alloc, &desk.plan, &world, &desk.groups, ahead)?;
    let keeper = Keeper {
        lender,
        world,
        has_ended: false,
    };
    in_threads(rt, &desk, passes, kinds, keeper)?;
    let left = finish(rt, &desk, last_pass, kinds)?;
    Ok(left)
}

/// Takes the entries that are due in tick `now` out of their lists, and turns their blocks in these groups, by so many threads.
///
/// # Errors
/// Where memory is refused, also where a thread can't be started. Then all threads have ended, and the world is to be given up.
fn turn_groups<R: Threads + Wait + Sync>(
    rt: &R,
    alloc: Global,
    world: &mut World,
    kinds: &Kinds,
    now: u32,
    groups: Groups,
    threads: usize,
) -> Result<(), AllocError>
    requires ready { IsReady (kind_count kinds.now) world.old }
    requires groups { AreGroups (land_of world.old) groups }
    ensures done { OnOk result (land_of world.new ≡ turned_all (kinds_of kinds.now) now
        groups.entries.items (without_due now (land_of world.old))) }
    ensures ready { OnOk result (IsReady (kind_count kinds.now) world.new) }
    ensures chunks { OnOk result (HasSameChunks world.old world.new) }
{
    let height = world.height();
    let whole = mem::replace(world, World::new(alloc, height));
    let turned = turned(rt, alloc, whole, kinds, now, groups, threads)?;
    *world = turned;
    // What is due has left each chunk that was lent, and so all. This looks at each once, and makes it certain.
    world.leave_due(now);
    Ok(())
}

/// Takes the entries that are due in tick `now` out of their lists, and turns their blocks, one after the other: in groups that
/// the calling thread and others share out among them, `workers` in all, or where that gains too little by the calling thread alone.
/// `entries` are those that are due, in order.
///
/// # Errors
/// Where memory is refused, also where a thread can't be started. Then all threads have ended, and the world is to be
/// given up.
pub fn turn_in_groups<R: Threads + Wait + Sync>(
    rt: &R,
    alloc: Global,
    world: &mut World,
    kinds: &Kinds,
    now: u32,
    entries: Vec<Entry>,
    workers: usize,
) -> Result<(), AllocError>
    requires ready { IsReady (kind_count kinds.now) world.old }
    requires loaded { list_all (λ e. (blocks world.old).loaded e.pos) entries.items ≡ true }
    ensures done { OnOk result (land_of world.new ≡ turned_all (kinds_of kinds.now) now entries.items
        (without_due now (land_of world.old))) }
    ensures ready { OnOk result (IsReady (kind_count kinds.now) world.new) }
    ensures chunks { OnOk result (HasSameChunks world.old world.new) }
{
    if !are_long(entries.as_slice()) {
        return turn_here(world, kinds, now, entries.as_slice());
    }
    let groups = cut(alloc, world, entries)?;
    if !gain_a_third(alloc, &groups)? {
        return turn_here(world, kinds, now, groups.entries.as_slice());
    }
    let threads = workers.min(groups.groups.len()).max(1);
    turn_groups(rt, alloc, world, kinds, now, groups, threads)
}
