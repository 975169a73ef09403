//! Where loaded blocks can lie.
ghost use Rattle.std.specs.Prelude.{IsTrue, ◌↔◌};
ghost use Rattle.av_flood.specs.Blocks.{MayBeLoaded};

use av_types::ChunkPos;

/// Whether loaded blocks can lie in a chunk.
pub fn may_be_loaded(chunk: ChunkPos) -> bool
    ensures { IsTrue result ↔ MayBeLoaded chunk }
{
    -1920031 <= chunk.x && chunk.x <= 1920031 && -1920031 <= chunk.z && chunk.z <= 1920031
}
