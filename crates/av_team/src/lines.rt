//! What the threads of a tick share, and the lines over which they hand groups to each other.
ghost use Rattle.std.specs.Prelude.{◌≡◌};
ghost use Rattle.av_lending.specs.Handed.{IsWorkOf};

use crate::bell::Bell;
use av_groups::groups::Groups;
use av_lending::{Keeper, Plan, Turned, Work};
use av_line::{Fits, Line, LinePass};
use std::sync::Wait;
use std::sync::atomic::AtomicU64;

/// What the threads of a tick share: the line of groups that may be turned, that of groups that are, that of the tick's world,
/// which is empty while a thread has it, and the tick's plan and groups.
#[derive(Drop)]
pub(crate) struct Desk {
    pub(crate) works: Line<Work, Plan>,
    pub(crate) backs: Line<Turned, Plan>,
    pub(crate) keepers: Line<Keeper, Plan>,
    pub(crate) plan: Plan,
    pub(crate) groups: Groups,
    /// How many threads there are, with the calling one.
    pub(crate) threads: usize,
    /// Rings whenever something is put into `works`.
    pub(crate) bell: Bell,
    /// How many groups were put into `backs`.
    pub(crate) turned: AtomicU64,
}

/// A thread's passes of the lines.
#[derive(Drop)]
pub(crate) struct Passes {
    pub(crate) works: LinePass<Work, Plan>,
    pub(crate) backs: LinePass<Turned, Plan>,
    pub(crate) keepers: LinePass<Keeper, Plan>,
}

/// Passes for one thread more.
pub(crate) fn another(desk: &Desk, passes: &mut Passes) -> Passes
    requires works { passes.old.works.line ≡ desk.now.works.line }
    requires backs { passes.old.backs.line ≡ desk.now.backs.line }
    requires keepers { passes.old.keepers.line ≡ desk.now.keepers.line }
    ensures same { passes.new ≡ passes.old }
    ensures another { result ≡ passes.old }
{
    Passes {
        works: desk.works.another(&mut passes.works),
        backs: desk.backs.another(&mut passes.backs),
        keepers: desk.keepers.another(&mut passes.keepers),
    }
}

/// Puts an item in as soon as there is room.
pub(crate) fn put_in<T: Fits<Plan> + Drop + Send, R: Wait>(
    rt: &R,
    line: &Line<T, Plan>,
    pass: &mut LinePass<T, Plan>,
    item: T,
)
    requires line { pass.old.line ≡ line.now.line }
    requires fits { T.fits pass.old.plan item }
    ensures { pass.new ≡ pass.old }
{
    let mut item = item;
    for _ in rt.forever() {
        match line.put(rt, pass, item) {
            Ok(()) => return,
            Err(back) => item = back,
        }
    }
}

/// Hands work out.
pub(crate) fn hand_out<R: Wait>(rt: &R, desk: &Desk, passes: &mut Passes, work: Work)
    requires works { passes.old.works.line ≡ desk.now.works.line }
    requires fits { IsWorkOf passes.old.works.plan work }
    ensures { passes.new ≡ passes.old }
{
    put_in(rt, &desk.works, &mut passes.works, work);
    desk.bell.ring();
}

/// Hands the end out, once for each thread.
pub(crate) fn end_all<R: Wait>(rt: &R, desk: &Desk, passes: &mut Passes)
    requires { passes.old.works.line ≡ desk.now.works.line }
    ensures { passes.new ≡ passes.old }
{
    for _ in 0..desk.threads {
        hand_out(rt, desk, passes, Work::End);
    }
}
