//! A tick's entries turned on the world itself.
ghost use Rattle.std.specs.Prelude.{◌≡◌, true, OnOk};
ghost use Rattle.std.specs.List.{list_all};
ghost use Rattle.av_rules.specs.Kinds.{kind_count};
ghost use Rattle.av_cells.specs.Kinds.{kinds_of};
ghost use Rattle.av_land.specs.Tick.{turned_all, without_due};
ghost use Rattle.av_world.specs.Lands.{land_of};
ghost use Rattle.av_world.specs.Views.{blocks};
ghost use Rattle.av_serial.specs.Ready.{IsReady, HasSameChunks};

use av_rules::Kinds;
use av_serial::turn_all;
use av_types::Entry;
use av_world::World;
use std::alloc::AllocError;

/// Takes the entries that are due in tick `now` out of their lists, and turns their blocks, all by the calling thread. `entries` are
/// those that are due, in order.
///
/// # Errors
/// Where memory is refused. Then the world is to be given up.
pub(crate) fn turn_here(
    world: &mut World,
    kinds: &Kinds,
    now: u32,
    entries: &[Entry],
) -> Result<(), AllocError>
    requires ready { IsReady (kind_count kinds.now) world.old }
    requires loaded { list_all (λ e. (blocks world.old).loaded e.pos) entries.now ≡ true }
    ensures done { OnOk result (land_of world.new ≡ turned_all (kinds_of kinds.now) now entries.now
        (without_due now (land_of world.old))) }
    ensures ready { OnOk result (IsReady (kind_count kinds.now) world.new) }
    ensures chunks { OnOk result (HasSameChunks world.old world.new) }
{
    world.leave_due(now);
    turn_all(world, kinds, now, entries)
}
