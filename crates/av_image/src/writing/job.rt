//! A region that is to be written.
ghost use Rattle.std.proofs.Props.{props};
ghost use Rattle.av_world.specs.Views.{height_of, positions_of};
ghost use Rattle.av_image.specs.Saving.{CanSave, IsRegionOf};
ghost use Rattle.av_image.specs.SlotFacts.{IsSlotOf-prop};

use crate::rest::RegionRest;
use av_chunk::ChunkLight;
use av_rules::Kinds;
use av_world::World;

/// A region that is to be written, and what it is written of.
#[derive(Drop)]
pub(crate) struct RegionJob<'a> {
    pub world: &'a World,
    pub region: &'a RegionRest,
    pub kinds: &'a Kinds,
    pub lights: &'a [ChunkLight],
    pub elapsed: u32,
    pub ghost can: { CanSave world.now kinds.now lights.now elapsed } by { Prim.hlevel props },
    pub ghost kept: { IsRegionOf (height_of world.now) (positions_of world.now) region.now } by { Prim.hlevel (props, IsSlotOf-prop) },
}
