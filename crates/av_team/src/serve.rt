//! Threads that turn groups.
ghost use Rattle.std.specs.Prelude.{◌≡◌};
ghost use Rattle.av_lending.specs.Plans.{IsLentAfter};
ghost use Rattle.av_team.specs.Lines.{ArePassesOf, IsDeskOf};

use crate::lines::{Desk, Passes, another, put_in};
use crate::tend::tend;
use av_lending::{Lent, Work, turn_lent};
use av_rules::Kinds;
use std::alloc::AllocError;
use std::sync::Wait;
use std::sync::atomic::Ordering;
use std::thread;
use std::thread::Scope;

/// Turns a group, and hands it back.
fn turn_one<R: Wait>(rt: &R, desk: &Desk, passes: &mut Passes, kinds: &Kinds, lent: Lent)
    requires desk { IsDeskOf desk.now kinds.now }
    requires passes { ArePassesOf desk.now passes.old }
    requires lent { IsLentAfter desk.now.plan lent.number lent.number lent.world }
    ensures { passes.new ≡ passes.old }
{
    let turned = turn_lent(&desk.plan, kinds, &desk.groups, lent);
    put_in(rt, &desk.backs, &mut passes.backs, turned);
    desk.turned.fetch_add(1, Ordering::SeqCst);
}

/// Turns the groups that are handed out, and tends the tick's world while no other thread does, until the end is handed out. A thread
/// that finds nothing to turn waits for it, and leaves the world to the others.
pub(crate) fn serve<R: Wait>(rt: &R, desk: &Desk, mut passes: Passes, kinds: &Kinds)
    requires desk { IsDeskOf desk.now kinds.now }
    requires passes { ArePassesOf desk.now passes }
{
    let alloc = *desk.groups.groups.allocator();
    tend(rt, alloc, desk, &mut passes, kinds);
    for _ in rt.forever() {
        let heard = desk.bell.rings();
        match desk.works.take(rt, &mut passes.works) {
            Some(Work::Turn(lent)) => {
                turn_one(rt, desk, &mut passes, kinds, lent);
                tend(rt, alloc, desk, &mut passes, kinds);
            }
            Some(Work::End) => break,
            None => {
                if !desk.bell.wait(rt, heard) {
                    tend(rt, alloc, desk, &mut passes, kinds);
                }
            }
        }
    }
}

/// Starts a thread that turns groups. It ends once the end is handed to it.
fn start_one<'s, E, R: Wait + Sync>(
    scope: &'s Scope<'s, E>,
    rt: &'s R,
    desk: &'s Desk,
    passes: Passes,
    kinds: &'s Kinds,
) -> Result<(), AllocError>
    requires desk { IsDeskOf desk.now kinds.now }
    requires passes { ArePassesOf desk.now passes }
{
    let started = scope.spawn(
        move ||
            requires { IsDeskOf desk.now kinds.now × ArePassesOf desk.now passes }
        { serve(rt, desk, passes, kinds) },
    );
    match started {
        Ok(_) => Ok(()),
        Err(_) => Err(AllocError),
    }
}

/// Starts all threads but the calling one.
///
/// # Errors
/// Where one can't be started. Those that are started run.
pub(crate) fn start_all<'s, E, R: Wait + Sync>(
    scope: &'s Scope<'s, E>,
    rt: &'s R,
    desk: &'s Desk,
    passes: &mut Passes,
    kinds: &'s Kinds,
) -> Result<(), AllocError>
    requires desk { IsDeskOf desk.now kinds.now }
    requires passes { ArePassesOf desk.now passes.old }
    ensures { passes.new ≡ passes.old }
{
    for _ in 1..desk.threads {
        let theirs = another(desk, passes);
        start_one(scope, rt, desk, theirs, kinds)?;
    }
    Ok(())
}
