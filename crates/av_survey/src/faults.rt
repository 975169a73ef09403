//! One chunk of a region's file.
ghost use Rattle.std.specs.Prelude.{◌≡◌, ◌≢◌, ◌≤◌, ◌<◌, IfOk, Some, length};
ghost use Rattle.av_types.specs.declared.fault.Fault.TheVariants.{OutOfMemory};
ghost use Rattle.av_types.specs.Positions.{IsInLimits, chunk_at};
ghost use Rattle.av_survey.specs.Survey.{IsFirstAt, IsFirstIn};

use av_codec::read_payload;
use av_region::Region;
use av_state::StateTable;
use av_types::{ChunkPos, Fault, Height, RegionPos};
use std::alloc::{AllocError, Global};

/// A fault that is found, or want of memory, which is none of a file.
fn found(fault: Fault) -> Result<Option<Fault>, AllocError>
    ensures { IfOk result (λ o. (fault ≢ OutOfMemory) × (o ≡ Some fault)) }
{
    match fault {
        Fault::OutOfMemory => Err(AllocError),
        fault => Ok(Some(fault)),
    }
}

/// The first fault of a payload, whose states are numbered alone. A payload has at most 1,044,475 bytes.
fn fault_in(
    alloc: Global,
    payload: &[u8],
    at: ChunkPos,
    height: Height,
) -> Result<Option<Fault>, AllocError>
    requires { length payload.now ≤ 1044475 }
    ensures { IfOk result (IsFirstIn height payload.now at) }
{
    let Ok(mut table) = StateTable::new(alloc) else {
        return Err(AllocError);
    };
    match read_payload(alloc, payload, at, height, &mut table) {
        Ok(_) => Ok(None),
        Err(fault) => found(fault),
    }
}

/// The first fault of the chunk at an index of a region.
pub(crate) fn fault_at(
    alloc: Global,
    region: &Region<'_>,
    pos: RegionPos,
    index: usize,
    height: Height,
) -> Result<Option<Fault>, AllocError>
    requires limits { IsInLimits pos }
    requires index { index < 1024 }
    ensures { IfOk result (IsFirstAt height region.now.bytes.now (chunk_at pos index) index) }
{
    match region.payload(index) {
        Err(fault) => Ok(Some(fault)),
        Ok(None) => Ok(None),
        Ok(Some(payload)) => fault_in(alloc, payload, pos.chunk_at(index), height),
    }
}
