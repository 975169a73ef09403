//! One edit and one turn.
ghost use Rattle.std.specs.Prelude.{◌≡◌, IsTrue, false, OnOk, OnErr, IfErr, if◌then◌else◌};
ghost use Rattle.av_types.specs.declared.fault.Fault.TheVariants.{OutOfMemory, Broken};
ghost use Rattle.av_rules.specs.Kinds.{kind_count};
ghost use Rattle.av_cells.specs.Kinds.{kinds_of};
ghost use Rattle.av_land.specs.Tick.{set_in, turned};
ghost use Rattle.av_world.specs.Views.{is_broken, blocks};
ghost use Rattle.av_world.specs.Lands.{land_of};
ghost use Rattle.av_serial.specs.Ready.{IsReady, HasSameChunks, IsStillPrepared, CanApply};

use av_cells::{Cells, set_awake};
use av_edits::Edit;
use av_rules::Kinds;
use av_types::{Fault, Pos};
use av_water::turn;
use av_world::World;
use std::alloc::AllocError;

/// Sets a block, after its room was made.
pub(crate) fn set_block(
    world: &mut World,
    kinds: &Kinds,
    now: u32,
    edit: &Edit,
) -> Result<(), AllocError>
    requires ready { IsReady (kind_count kinds.now) world.old }
    requires edit { CanApply (kind_count kinds.now) world.old edit.now }
    ensures done { OnOk result (land_of world.new ≡ set_in
        (kinds_of kinds.now) now edit.now.pos edit.now.number (land_of world.old)) }
    ensures undone { OnErr result (land_of world.new ≡ land_of world.old) }
    ensures kept { OnErr result (IsStillPrepared world.old world.new) }
    ensures ready { IsReady (kind_count kinds.now) world.new }
    ensures chunks { HasSameChunks world.old world.new }
{
    if world.prepare_set(edit.pos, edit.number).is_err() {
        return Err(AllocError);
    }
    set_awake(world, kinds, now, edit.pos, edit.number);
    Ok(())
}

/// Sets the block of an edit in tick `now`, and wakes it and those next to it.
///
/// # Errors
/// `Broken` of a broken world, and else `OutOfMemory`. Also then the world is as before, with what was prepared, and has
/// room for no fewer entries.
pub fn apply(world: &mut World, kinds: &Kinds, now: u32, edit: &Edit) -> Result<(), Fault>
    requires ready { is_broken world.old ≡ false → IsReady (kind_count kinds.now) world.old }
    requires edit { is_broken world.old ≡ false → CanApply
        (kind_count kinds.now) world.old edit.now }
    ensures done { OnOk result (land_of world.new ≡ set_in
        (kinds_of kinds.now) now edit.now.pos edit.now.number (land_of world.old)) }
    ensures undone { OnErr result (land_of world.new ≡ land_of world.old) }
    ensures kept { OnErr result (IsStillPrepared world.old world.new) }
    ensures ready { is_broken world.old ≡ false → IsReady (kind_count kinds.now) world.new }
    ensures chunks { HasSameChunks world.old world.new }
    ensures whole_world { OnOk result (is_broken world.old ≡ false) }
    ensures err { IfErr result (λ e. e ≡ (if is_broken world.old then Broken else OutOfMemory)) }
{
    if world.broken() {
        return Err(Fault::Broken);
    }
    set_block(world, kinds, now, edit)?;
    Ok(())
}

/// Turns a block, after its room was made.
pub(crate) fn turn_block(
    world: &mut World,
    kinds: &Kinds,
    now: u32,
    pos: Pos,
) -> Result<(), AllocError>
    requires ready { IsReady (kind_count kinds.now) world.old }
    requires loaded { IsTrue ((blocks world.old).loaded pos) }
    ensures done { OnOk result (land_of world.new ≡ turned (kinds_of kinds.now) now pos
        (land_of world.old)) }
    ensures undone { OnErr result (land_of world.new ≡ land_of world.old) }
    ensures ready { IsReady (kind_count kinds.now) world.new }
    ensures chunks { HasSameChunks world.old world.new }
{
    if world.prepare(pos).is_err() {
        return Err(AllocError);
    }
    turn(world, kinds, now, pos);
    Ok(())
}
