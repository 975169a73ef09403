//! One index of a region file.
ghost use Rattle.std.specs.Prelude.{◌≢◌, ◌≤◌, ◌<◌, IfOk, IfErr, IfSome, length};
ghost use Rattle.av_types.specs.declared.fault.Fault.TheVariants.{OutOfMemory};
ghost use Rattle.av_types.specs.Positions.{IsInLimits, chunk_at};
ghost use Rattle.av_state.specs.Table.{states};
ghost use Rattle.av_section.specs.Reading.{OnlyGrows};
ghost use Rattle.av_codec.specs.Payload.{IsPayloadReading, IsPayloadFault};
ghost use Rattle.av_files.specs.FirstFault.{IsFaultAt};
ghost use Rattle.av_image.specs.Ahead.{IsMadeAt};
ghost use Rattle.av_image.specs.RegionsRead.{IsReadAt, IsPayloadRead};

use av_chunk::{Chunk, ChunkRest, Reading};
use av_codec::read_payload;
use av_region::Region;
use av_state::StateTable;
use av_types::{ChunkPos, Fault, Height, RegionPos};
use std::alloc::Global;

/// What a region has at an index.
#[derive(Drop)]
pub(crate) enum Stored {
    /// No chunk.
    Absent,
    /// The payload of a chunk that is not full.
    Kept(Vec<u8>),
    /// A chunk that is loaded, and what it keeps.
    Full { chunk: Chunk, rest: ChunkRest },
}

/// What a payload is read as, unless it was read before.
fn reading(
    alloc: Global,
    payload: &[u8],
    ahead: Option<Reading>,
    at: ChunkPos,
    height: Height,
    table: &mut StateTable,
) -> Result<Reading, Fault>
    requires small { length payload.now ≤ 1044475 }
    requires ahead { IfSome ahead (IsPayloadReading at height payload.now (states table.old)
        (states table.old)) }
    ensures ok { IfOk result (IsPayloadReading at height payload.now (states table.old)
        (states table.new)) }
    ensures err { IfErr result (λ e. e ≢ OutOfMemory
        → IsPayloadFault at height payload.now (states table.old) e) }
    ensures table { OnlyGrows (states table.old) (states table.new) }
{
    match ahead {
        Some(reading) => Ok(reading),
        None => read_payload(alloc, payload, at, height, table),
    }
}

/// What a payload is read as. That of a chunk that is not full is copied.
fn held(
    alloc: Global,
    payload: &[u8],
    ahead: Option<Reading>,
    at: ChunkPos,
    height: Height,
    table: &mut StateTable,
) -> Result<Stored, Fault>
    requires small { length payload.now ≤ 1044475 }
    requires ahead { IfSome ahead (IsPayloadReading at height payload.now (states table.old)
        (states table.old)) }
    ensures ok { IfOk result (IsPayloadRead height (states table.old)
        (states table.new) payload.now at) }
    ensures err { IfErr result (λ e. e ≢ OutOfMemory
        → IsPayloadFault at height payload.now (states table.old) e) }
    ensures table { OnlyGrows (states table.old) (states table.new) }
{
    match reading(alloc, payload, ahead, at, height, table)? {
        Reading::Kept => Ok(Stored::Kept(Vec::from_slice(alloc, payload)?)),
        Reading::Full { chunk, rest } => Ok(Stored::Full { chunk, rest }),
    }
}

/// What a region holds at an index, unless its payload was read before.
pub(crate) fn read_stored(
    alloc: Global,
    region: &Region<'_>,
    ahead: Option<Reading>,
    pos: RegionPos,
    index: usize,
    height: Height,
    table: &mut StateTable,
) -> Result<Stored, Fault>
    requires limits { IsInLimits pos }
    requires index { index < 1024 }
    requires ahead { IfSome ahead (IsMadeAt height (states table.old) region.now.bytes.now
        (chunk_at pos index) index) }
    ensures ok { IfOk result (IsReadAt height (states table.old)
        (states table.new) region.now.bytes.now (chunk_at pos index) index) }
    ensures err { IfErr result (λ e. e ≢ OutOfMemory
        → IsFaultAt height (states table.old) region.now.bytes.now
        (chunk_at pos index) index e) }
    ensures table { OnlyGrows (states table.old) (states table.new) }
{
    match region.payload(index)? {
        None => Ok(Stored::Absent),
        Some(payload) => held(alloc, payload, ahead, pos.chunk_at(index), height, table),
    }
}
