//! The work on a job: its entries turned in its own sections, one after the other.
ghost use Rattle.std.specs.Prelude.{◌≡◌, [], IsTrue, OnOk, OnErr, length};
ghost use Rattle.std.specs.List.{All};
ghost use Rattle.av_types.specs.declared.fault.Fault.TheVariants.{OutOfMemory};
ghost use Rattle.av_rules.specs.Kinds.{kind_count};
ghost use Rattle.av_cells.specs.Kinds.{kinds_of};
ghost use Rattle.av_cells.specs.Rule.{HasKinds};
ghost use Rattle.av_crew.specs.Work.{AreTurned, AreBegun, CanWork, IsDoneOf};

use crate::gates::Gate;
use crate::jobs::{Done, Job};
use arrayvec::ArrayVec;
use av_cells::Cells;
use av_play::{DueEntry, turn_one};
use av_rules::Kinds;
use av_types::{Fault, Made};
use std::alloc::AllocError;

/// Turns entries one after the other, and puts aside what they make. Where memory is refused some first ones were turned.
fn turn_all<C: Cells>(
    cells: &mut C,
    kinds: &Kinds,
    now: u32,
    entries: &[DueEntry],
    made: &mut Vec<Made>,
) -> Result<(), AllocError>
    requires empty { made.old.items ≡ [] }
    requires kinds { HasKinds (kind_count kinds.now) (C.world cells.old) }
    requires loaded { All (λ x. IsTrue ((C.world cells.old).loaded x.entry.pos)) entries.now }
    ensures ok { OnOk result (AreTurned (kinds_of kinds.now) now (length entries.now) entries.now
        (C.world cells.old) (C.world cells.new) (C.lists cells.old)
        (C.lists cells.new) made.new.items) }
    ensures err { OnErr result (AreBegun (kinds_of kinds.now) now entries.now (C.world cells.old)
        (C.world cells.new) (C.lists cells.old) (C.lists cells.new) made.new.items) }
{
    let mut added = ArrayVec::new();
    for entry in entries {
        turn_one(cells, kinds, now, *entry, &mut added, made)?;
    }
    Ok(())
}

/// Works a job off: turns its entries in its own sections, one after the other. The answer has the job's number, its
/// sections as the turns left them, and the entries that were made, each with its maker's index and its number in the
/// turn. Where memory is refused, its fault is `OutOfMemory`, and only some first entries were turned.
pub fn work<G: Gate>(job: Job, kinds: &Kinds, now: u32, gate: &G) -> Done
    requires { CanWork kinds.now job }
    ensures done { IsDoneOf (kinds_of kinds.now) now job result }
    ensures before { G.saw_job gate.now job }
    ensures after { G.saw_done gate.now result }
{
    gate.before(&job);
    let Job {
        number,
        entries,
        mut parcel,
    } = job;
    let mut made = Vec::new(*entries.allocator());
    let fault = match turn_all(&mut parcel, kinds, now, entries.as_slice(), &mut made) {
        Ok(()) => None,
        Err(refused) => Some(Fault::from(refused)),
    };
    let done = Done {
        number,
        parcel,
        made,
        fault,
    };
    gate.after(&done);
    done
}
