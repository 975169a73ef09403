//! A chunk's parts, put together.
ghost use Rattle.std.specs.Prelude.{◌<◌, List};
ghost use Rattle.av_tags.specs.Nbt.{Document};
ghost use Rattle.av_state.specs.BlockState.{BlockState};
ghost use Rattle.av_chunk.specs.Reading.{IsReading};
ghost use Rattle.av_codec.specs.Assembly.{IsTakenApart};

use crate::reading::pending::mark_pending;
use crate::reading::sections::Sections;
use crate::reading::water::Ticks;
use av_chunk::{Chunk, ChunkRest, Reading};
use av_tags::Named;
use av_types::{ChunkPos, Height};

/// A chunk of the parts that its document was taken apart into: the places of its entries are made pending, and what is not
/// its cells or its water goes to the rest.
pub(crate) fn assembled(
    name: Vec<u8>,
    tags: Vec<Named>,
    mut read: Sections,
    ticks: Ticks,
    at: ChunkPos,
    height: Height,
) -> Reading
    requires { (d : Document) × (old : List BlockState) × (new : List BlockState)
        × IsTakenApart at height d old new name.items tags.items read ticks }
    ensures { (d : Document) → (old new : List BlockState)
        → IsTakenApart at height d old new name.items tags.items read ticks
        → IsReading at height d old new result }
{
    mark_pending(&mut read.sections, ticks.water.as_slice(), height);
    Reading::Full {
        chunk: Chunk {
            sections: read.sections,
            ticks: ticks.water,
        },
        rest: ChunkRest {
            pos: at,
            height,
            name,
            tags,
            foreign: ticks.foreign,
            sections: read.kept,
            outside: read.outside,
        },
    }
}
