//! Parcels carved out of a world, and put back.
ghost use Rattle.std.specs.Prelude.{◌≡◌, ◌≤◌, OnOk, [], List, false, length, vec_capacity};
ghost use Rattle.av_types.specs.declared.position.SectionPos.{SectionPos};
ghost use Rattle.av_world.specs.Views.{grid, blocks, lists, is_broken, IsSameButBlocks};
ghost use Rattle.av_cells.specs.Grid.{Grid};
ghost use Rattle.av_cluster.specs.Clusters.{sections_of};
ghost use Rattle.av_inter.specs.Cut.{CanCut, AreCut, ArePartsOf, HoldsPartOf, put_grid, put_blocks};
ghost use Rattle.av_inter.specs.Out.{out_in};

use av_cluster::Cluster;
use av_world::{Parcel, World};
use std::alloc::AllocError;

/// Carves the sections of each part into a parcel of its own, until memory is refused. There is room for the parcels.
pub(crate) fn carve_all(
    world: &mut World,
    clusters: &[Cluster],
    parcels: &mut Vec<Option<Parcel>>,
) -> Result<(), AllocError>
    requires unbroken { is_broken world.old ≡ false }
    requires empty { parcels.old.items ≡ [] }
    requires room { length clusters.now ≤ vec_capacity parcels.old }
    requires can { CanCut (grid world.old) (sections_of clusters.now) }
    ensures cut { AreCut (grid world.old) (sections_of clusters.now) world.new parcels.new.items }
    ensures all { OnOk result (length parcels.new.items ≡ length clusters.now) }
    ensures same { IsSameButBlocks world.old world.new }
{
    for cluster in clusters {
        let Ok(parcel) = world.carve(cluster.sections.as_slice()) else {
            return Err(AllocError);
        };
        parcels.push_reserved(Some(parcel));
    }
    Ok(())
}

/// Puts a parcel back, if it is out.
pub(crate) fn mend_one(world: &mut World, slot: Option<Parcel>)
    requires { HoldsPartOf world.old slot }
    ensures blocks { blocks world.new ≡ put_blocks (lists world.old) (out_in slot)
        (blocks world.old) }
    ensures grid { grid world.new ≡ put_grid slot (grid world.old) }
    ensures same { IsSameButBlocks world.old world.new }
{
    if let Some(parcel) = slot {
        world.mend(parcel);
    }
}

/// Puts the parcels back, the last one first.
pub(crate) fn mend_all(world: &mut World, mut parcels: Vec<Option<Parcel>>)
    requires { ArePartsOf world.old parcels.items }
    ensures grid { (g : Grid) (sections : List (List SectionPos)) → CanCut g sections
        → AreCut g sections world.old parcels.items → grid world.new ≡ g }
    ensures same { IsSameButBlocks world.old world.new }
{
    while let Some(slot) = parcels.pop() {
        mend_one(world, slot);
    }
}
