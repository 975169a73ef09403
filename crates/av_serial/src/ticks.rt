//! Ticks.
ghost use Rattle.std.specs.Prelude.{nat_eq, ◌≡◌, ◌<◌, true, false, All, OnOk, OnErr, IfOk, IfErr, if◌then◌else◌, length};
ghost use Rattle.std.specs.List.{list_all};
ghost use Rattle.av_types.specs.declared.fault.Fault.TheVariants.{OutOfMemory, Broken};
ghost use Rattle.av_rules.specs.Kinds.{kind_count};
ghost use Rattle.av_cells.specs.Kinds.{kinds_of};
ghost use Rattle.av_land.specs.Tick.{set_in, edited, turned_all, ticked, tick_count, due_entries, without_due};
ghost use Rattle.av_world.specs.Views.{is_broken, blocks};
ghost use Rattle.av_world.specs.Lands.{land_of};
ghost use Rattle.av_edits.specs.Numbered.{number_sets};
ghost use Rattle.av_serial.specs.Ready.{IsReady, HasSameChunks, CanApply};
ghost use Rattle.av_serial.specs.Begun.{AreTurnsBegun, AreEditsBegun};

use crate::steps::{set_block, turn_block};
use av_edits::Edit;
use av_rules::Kinds;
use av_types::{Entry, Fault};
use av_world::World;
use std::alloc::AllocError;

/// Turns the blocks of some entries in tick `now`, one after the other. The entries themselves are in no list any more.
///
/// # Errors
/// Where memory is refused, and then only some first blocks are turned, in order, and not all.
#[tactic(auto, using(crate::proofs::Begun::turns_begun))]
pub fn turn_all(
    world: &mut World,
    kinds: &Kinds,
    now: u32,
    entries: &[Entry],
) -> Result<(), AllocError>
    requires ready { IsReady (kind_count kinds.now) world.old }
    requires loaded { list_all (λ e. (blocks world.old).loaded e.pos) entries.now ≡ true }
    ensures done { OnOk result (land_of world.new ≡ turned_all (kinds_of kinds.now) now entries.now
        (land_of world.old)) }
    ensures begun { OnErr result (AreTurnsBegun (kinds_of kinds.now) now entries.now
        (land_of world.old) (land_of world.new)) }
    ensures ready { IsReady (kind_count kinds.now) world.new }
    ensures chunks { HasSameChunks world.old world.new }
{
    for entry in entries {
        turn_block(world, kinds, now, entry.pos)?;
    }
    Ok(())
}

/// Applies an edit, if it is of this tick.
fn apply_now(world: &mut World, kinds: &Kinds, now: u32, edit: &Edit) -> Result<(), AllocError>
    requires ready { IsReady (kind_count kinds.now) world.old }
    requires edit { CanApply (kind_count kinds.now) world.old edit.now }
    ensures done { OnOk result (land_of world.new ≡
        (if nat_eq edit.now.tick now then set_in (kinds_of kinds.now) now edit.now.pos
        edit.now.number (land_of world.old) else land_of world.old)) }
    ensures undone { OnErr result (land_of world.new ≡ land_of world.old) }
    ensures ready { IsReady (kind_count kinds.now) world.new }
    ensures chunks { HasSameChunks world.old world.new }
{
    if edit.tick == now {
        set_block(world, kinds, now, edit)?;
    }
    Ok(())
}

/// Applies the edits of tick `now` to a world that is not broken, in order. Those of other ticks change nothing.
///
/// # Errors
/// `OutOfMemory`, and then only some first edits are applied, in order, and not all.
#[tactic(auto, using(crate::proofs::Begun::edits_begun))]
pub fn apply_all(world: &mut World, kinds: &Kinds, now: u32, edits: &[Edit]) -> Result<(), Fault>
    requires ready { IsReady (kind_count kinds.now) world.old }
    requires sound { is_broken world.old ≡ false }
    requires edits { All (CanApply (kind_count kinds.now) world.old) edits.now }
    ensures done { OnOk result (land_of world.new ≡ edited (kinds_of kinds.now) now
        (number_sets edits.now) (land_of world.old)) }
    ensures begun { OnErr result (AreEditsBegun (kinds_of kinds.now) now edits.now
        (land_of world.old) (land_of world.new)) }
    ensures ready { IsReady (kind_count kinds.now) world.new }
    ensures chunks { HasSameChunks world.old world.new }
    ensures memory { IfErr result (λ e. e ≡ OutOfMemory) }
{
    for edit in edits {
        apply_now(world, kinds, now, edit)?;
    }
    Ok(())
}

/// Takes what is due, and turns it.
fn turn_due(world: &mut World, kinds: &Kinds, now: u32) -> Result<u64, AllocError>
    requires ready { IsReady (kind_count kinds.now) world.old }
    requires sound { is_broken world.old ≡ false }
    ensures done { OnOk result (land_of world.new ≡ turned_all (kinds_of kinds.now) now
        (due_entries now (land_of world.old)) (without_due now (land_of world.old))) }
    ensures count { IfOk result (λ n. n ≡ length (due_entries now (land_of world.old))) }
    ensures ready { IsReady (kind_count kinds.now) world.new }
    ensures chunks { HasSameChunks world.old world.new }
{
    let Ok(due) = world.take_due(now) else {
        return Err(AllocError);
    };
    turn_all(world, kinds, now, due.as_slice())?;
    Ok(due.len() as u64)
}

/// The edits of a tick, and then the entries that are due.
fn work(world: &mut World, kinds: &Kinds, now: u32, edits: &[Edit]) -> Result<u64, AllocError>
    requires ready { IsReady (kind_count kinds.now) world.old }
    requires sound { is_broken world.old ≡ false }
    requires edits { All (CanApply (kind_count kinds.now) world.old) edits.now }
    ensures done { OnOk result (land_of world.new ≡ ticked (kinds_of kinds.now) now
        (number_sets edits.now) (land_of world.old)) }
    ensures count { IfOk result (λ n. n ≡ tick_count (kinds_of kinds.now) now
        (number_sets edits.now) (land_of world.old)) }
    ensures ready { IsReady (kind_count kinds.now) world.new }
    ensures chunks { HasSameChunks world.old world.new }
{
    if apply_all(world, kinds, now, edits).is_err() {
        return Err(AllocError);
    }
    turn_due(world, kinds, now)
}

/// Tick `now`: its edits, in order, and then the entries that are due leave their lists and are turned one after the
/// other. Returns how many they are.
///
/// # Errors
/// `Broken` of a broken world, which stays as it is. `OutOfMemory`, and then the world is broken.
pub fn tick(world: &mut World, kinds: &Kinds, now: u32, edits: &[Edit]) -> Result<u64, Fault>
    requires ready { is_broken world.old ≡ false → IsReady (kind_count kinds.now) world.old }
    requires edits { is_broken world.old ≡ false → All
        (CanApply (kind_count kinds.now) world.old) edits.now }
    ensures done { OnOk result (land_of world.new ≡ ticked (kinds_of kinds.now) now
        (number_sets edits.now) (land_of world.old)) }
    ensures count { IfOk result (λ n. n ≡ tick_count (kinds_of kinds.now) now
        (number_sets edits.now) (land_of world.old)) }
    ensures ready { OnOk result (IsReady (kind_count kinds.now) world.new) }
    ensures chunks { OnOk result (HasSameChunks world.old world.new) }
    ensures sound { OnOk result (is_broken world.old ≡ false) }
    ensures broken { OnErr result (is_broken world.new ≡ true) }
    ensures unchanged { is_broken world.old ≡ true → world.new ≡ world.old }
    ensures err { IfErr result (λ e. e ≡ (if is_broken world.old then Broken else OutOfMemory)) }
{
    if world.broken() {
        return Err(Fault::Broken);
    }
    match work(world, kinds, now, edits) {
        Ok(count) => Ok(count),
        Err(_) => {
            world.give_up();
            Err(Fault::OutOfMemory)
        }
    }
}
