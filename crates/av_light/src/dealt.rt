//! Chunks that several threads light, each the next that none has taken.
ghost use Rattle.std.specs.Prelude.{◌≡◌, length, IfOk, IfSome};
ghost use Rattle.std.specs.List.{AllZip};
ghost use Rattle.av_dealt.specs.Dealt.{AreAtIndices};
ghost use Rattle.av_world.specs.Views.{height_of, positions_of, blocks};
ghost use Rattle.av_section_light.specs.Light.{IsChunkLight};
ghost use Rattle.av_light.specs.AtIndex.{IsChunkLightAt};

use crate::chunk_light::light_at;
use crate::lamps::Lamps;
use av_chunk::ChunkLight;
use av_dealt::Maker;
use av_flood::Flood;
use av_types::ChunkPos;
use std::alloc::{AllocError, Global};

/// Makes the light of each chunk. One board serves all that a thread makes.
impl<'a> Maker for Lamps<'a> {
    type Thing = ChunkLight;

    type Bench = Option<Flood>;

    ghost count = { λ l. length (positions_of l.world.now) };

    ghost is_of = { λ l. IsChunkLightAt l.kinds.now l.world.now };

    fn count(&self) -> usize {
        self.world.positions().len()
    }

    fn bench(&self) -> Option<Flood> {
        None
    }

    fn make(
        &self,
        alloc: Global,
        index: usize,
        board: &mut Option<Flood>,
    ) -> Result<Option<ChunkLight>, AllocError> {
        let positions = self.world.positions();
        let light = light_at(alloc, self, positions[index], board)?;
        Ok(Some(light))
    }
}

/// The light of a chunk: what its slot has, or else found here.
fn light_of(
    alloc: Global,
    lamps: &Lamps<'_>,
    chunk: ChunkPos,
    slot: Option<ChunkLight>,
) -> Result<ChunkLight, AllocError>
    requires { IfSome slot (IsChunkLight lamps.now.kinds.now (blocks lamps.now.world.now)
        (height_of lamps.now.world.now) chunk) }
    ensures { IfOk result (IsChunkLight lamps.now.kinds.now (blocks lamps.now.world.now)
        (height_of lamps.now.world.now) chunk) }
{
    match slot {
        Some(light) => Ok(light),
        None => light_at(alloc, lamps, chunk, &mut None),
    }
}

/// The light of each chunk of a world, in order, from slots of which some may be empty: a chunk that no thread took is lit here.
pub(crate) fn in_order(
    alloc: Global,
    lamps: &Lamps<'_>,
    mut slots: Vec<Option<ChunkLight>>,
) -> Result<Vec<ChunkLight>, AllocError>
    requires long { length slots.items ≡ length (positions_of lamps.now.world.now) }
    requires own { AreAtIndices (IsChunkLightAt lamps.now.kinds.now lamps.now.world.now)
        slots.items }
    ensures { IfOk result (λ lights. AllZip (IsChunkLight lamps.now.kinds.now
        (blocks lamps.now.world.now) (height_of lamps.now.world.now))
        (positions_of lamps.now.world.now) lights.items) }
{
    let positions = lamps.world.positions();
    let mut lights = Vec::with_capacity(alloc, positions.len())?;
    for index in 0..positions.len() {
        let light = light_of(alloc, lamps, positions[index], slots[index].take())?;
        lights.push(light)?;
    }
    Ok(lights)
}
