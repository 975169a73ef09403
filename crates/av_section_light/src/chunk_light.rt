//! The light of one chunk.
ghost use Rattle.std.specs.Prelude.{◌≡◌, IfOk, IfErr};
ghost use Rattle.av_types.specs.Positions.{chunk_of};
ghost use Rattle.av_types.specs.declared.position.Pos.{Pos};
ghost use Rattle.av_types.specs.declared.fault.Fault.TheVariants.{OutOfMemory};
ghost use Rattle.av_cells.specs.Grid.{cells_of};
ghost use Rattle.av_flood.specs.Light.{IsLight};
ghost use Rattle.av_flood.specs.Board.{light_of};
ghost use Rattle.av_flood.specs.Blocks.{AreKnown};
ghost use Rattle.av_section_light.specs.Light.{terrain_of, IsChunkLight};

use crate::lit::Lit;
use crate::sections::Sections;
use av_chunk::ChunkLight;
use av_flood::{Flood, flooded};
use av_rules::Kinds;
use av_types::{ChunkPos, Fault};
use std::alloc::Global;

/// A board on which each block of a chunk has its light, in the memory of one that was used. Refuses with `OutOfMemory` alone.
pub fn flood_in<S: Sections>(
    alloc: Global,
    sections: &S,
    kinds: &Kinds,
    chunk: ChunkPos,
    used: Option<Flood>,
) -> Result<Flood, Fault>
    requires { AreKnown (terrain_of kinds.now (cells_of (S.grid sections.now)))
        (S.lamps sections.now) chunk }
    ensures chunk { IfOk result (λ f. f.chunk ≡ chunk) }
    ensures height { IfOk result (λ f. f.height ≡ S.tall sections.now) }
    ensures light { IfOk result (λ f. (p : Pos) → chunk_of p ≡ chunk
        → IsLight (terrain_of kinds.now (cells_of (S.grid sections.now))) p (light_of f p)) }
    ensures memory { IfErr result (λ e. e ≡ OutOfMemory) }
{
    let blocks = Lit { sections, kinds };
    let flood = flooded(alloc, &blocks, chunk, used)?;
    Ok(flood)
}

/// The light of a chunk's sections: the half byte of each block is its light. A board is used again, and left for the next
/// chunk. Refuses with `OutOfMemory` alone.
pub fn light_in<S: Sections>(
    alloc: Global,
    sections: &S,
    kinds: &Kinds,
    chunk: ChunkPos,
    board: &mut Option<Flood>,
) -> Result<ChunkLight, Fault>
    requires { AreKnown (terrain_of kinds.now (cells_of (S.grid sections.now)))
        (S.lamps sections.now) chunk }
    ensures light { IfOk result (IsChunkLight kinds.now (cells_of (S.grid sections.now))
        (S.tall sections.now) chunk) }
    ensures memory { IfErr result (λ e. e ≡ OutOfMemory) }
{
    let flood = flood_in(alloc, sections, kinds, chunk, board.take())?;
    let bytes = flood.half_bytes(alloc)?;
    *board = Some(flood);
    let height = sections.height();
    Ok(ChunkLight::from_bytes(height.sections, bytes))
}
