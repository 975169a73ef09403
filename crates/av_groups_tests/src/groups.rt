//! Groups of the entries of a world.
ghost use Rattle.std.specs.Prelude.{◌≡◌, true, All, IsTrue, IfOk};
ghost use Rattle.av_world.specs.Lands.{land_of};
ghost use Rattle.av_world.specs.Views.{blocks};
ghost use Rattle.av_groups.specs.Groups.{AreGroups};

use av_cells::Cells;
use av_groups::cutting::cut;
use av_groups::groups::Groups;
use av_types::{Entry, Fault};
use av_world::World;
use std::alloc::Global;

/// Whether the block of each entry is loaded.
fn all_loaded(world: &World, entries: &[Entry]) -> bool
    ensures { result ≡ true → All (λ e. IsTrue ((blocks world.now).loaded e.pos)) entries.now }
{
    for entry in entries {
        if !world.loaded(entry.pos) {
            return false;
        }
    }
    true
}

/// The entries in groups. They must be of loaded blocks.
pub fn groups_of(alloc: Global, world: &World, entries: &[Entry]) -> Result<Groups, Fault>
    ensures entries { IfOk result (λ cut. cut.entries.items ≡ entries.now) }
    ensures groups { IfOk result (AreGroups (land_of world.now)) }
{
    if !all_loaded(world, entries) {
        return Err(Fault::EditOutside(0));
    }
    let own = Vec::from_slice(alloc, entries)?;
    let groups = cut(alloc, world, own)?;
    Ok(groups)
}
