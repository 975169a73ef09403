//! A chunk, read from its payload.
ghost use Rattle.std.specs.Prelude.{◌≢◌, ◌≤◌, IfOk, IfErr, length};
ghost use Rattle.av_types.specs.declared.fault.Fault.TheVariants.{OutOfMemory};
ghost use Rattle.av_state.specs.Table.{states};
ghost use Rattle.av_section.specs.Reading.{OnlyGrows};
ghost use Rattle.av_codec.specs.Payload.{IsPayloadReading, IsPayloadFault};

use crate::reading::read_chunk;
use av_chunk::Reading;
use av_nbt::decode;
use av_state::StateTable;
use av_types::{ChunkPos, Fault, Height};
use std::alloc::Global;

/// What the payload of the chunk at a position is read as: its document, read as by `read_chunk`. A payload has at most
/// 1,044,475 bytes, as each has that is found in a region's file.
///
/// Refuses bytes that spell no document (`BadNbt`), and then the first fault of the document. After a refusal the table
/// may have gained states at its end.
pub fn read_payload(
    alloc: Global,
    payload: &[u8],
    at: ChunkPos,
    height: Height,
    table: &mut StateTable,
) -> Result<Reading, Fault>
    requires { length payload.now ≤ 1044475 }
    ensures ok { IfOk result (IsPayloadReading at height payload.now (states table.old)
        (states table.new)) }
    ensures err { IfErr result (λ e. e ≢ OutOfMemory
        → IsPayloadFault at height payload.now (states table.old) e) }
    ensures table { OnlyGrows (states table.old) (states table.new) }
{
    let root = decode(alloc, payload)?;
    read_chunk(alloc, root, at, height, table)
}
