//! One chunk of a region's file.
ghost use Rattle.std.specs.Prelude.{◌≡◌, ◌≢◌, ◌≤◌, ◌<◌, IfOk, length};
ghost use Rattle.av_types.specs.Positions.{IsInLimits, chunk_at};
ghost use Rattle.av_types.specs.declared.fault.Fault.TheVariants.{OutOfMemory};
ghost use Rattle.av_census.specs.Counting.{IsCountedAt, IsCountedIn};

use crate::blocks::count_blocks;
use av_chunk::chunk::Reading;
use av_codec::read_payload;
use av_region::Region;
use av_state::StateTable;
use av_types::{ChunkPos, Fault, Height, RegionPos};
use std::alloc::{AllocError, Global};

/// What stands at an index of a region.
#[derive(Drop)]
pub(crate) enum Counted {
    /// No blocks.
    Nothing,
    /// So many blocks of each number of a table.
    Blocks { table: StateTable, counts: Vec<u64> },
    /// A chunk with a fault.
    LeftOut,
}

/// A fault for which a chunk is left out, or want of memory, which is none of a file.
fn left_out(fault: Fault) -> Result<Counted, AllocError>
    ensures { IfOk result (λ counted. (fault ≢ OutOfMemory) × (counted ≡ Counted.LeftOut)) }
{
    match fault {
        Fault::OutOfMemory => Err(AllocError),
        _ => Ok(Counted::LeftOut),
    }
}

/// The blocks of a payload, whose states are numbered alone. A payload has at most 1,044,475 bytes.
fn counted_in(
    alloc: Global,
    payload: &[u8],
    at: ChunkPos,
    height: Height,
) -> Result<Counted, AllocError>
    requires { length payload.now ≤ 1044475 }
    ensures { IfOk result (IsCountedIn height payload.now at) }
{
    let Ok(mut table) = StateTable::new(alloc) else {
        return Err(AllocError);
    };
    match read_payload(alloc, payload, at, height, &mut table) {
        Ok(Reading::Kept) => Ok(Counted::Nothing),
        Ok(Reading::Full { chunk, rest: _ }) => {
            let counts = count_blocks(alloc, chunk.sections.as_slice(), table.len())?;
            Ok(Counted::Blocks { table, counts })
        }
        Err(fault) => left_out(fault),
    }
}

/// The blocks of the chunk at an index of a region.
pub(crate) fn counted_at(
    alloc: Global,
    region: &Region<'_>,
    pos: RegionPos,
    index: usize,
    height: Height,
) -> Result<Counted, AllocError>
    requires limits { IsInLimits pos }
    requires index { index < 1024 }
    ensures { IfOk result (IsCountedAt height region.now.bytes.now (chunk_at pos index) index) }
{
    let Ok(found) = region.payload(index) else {
        return Ok(Counted::LeftOut);
    };
    let Some(payload) = found else {
        return Ok(Counted::Nothing);
    };
    counted_in(alloc, payload, pos.chunk_at(index), height)
}
