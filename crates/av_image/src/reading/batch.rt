//! Indices of a region that are read together.
ghost use Rattle.std.specs.Prelude.{◌≡◌, ◌+◌, ◌<◌, ◌≤◌, ◌^◌, IfSome};
ghost use Rattle.std.proofs.Props.{props};
ghost use Rattle.av_types.specs.Positions.{IsInLimits};

use av_region::{CHUNKS, Region};
use av_types::{Height, RegionPos};

/// How many bytes the payloads of a batch have together at most. What is made of them stands at once, and a document can take
/// some sixty times the bytes of its payload. A single payload has fewer.
const MOST_BYTES: usize = 1 << 20;

/// How far a batch goes.
#[derive(Clone, Copy)]
pub(crate) struct Extent {
    pub count: usize,
    /// How many of the indices have a payload.
    pub payloads: usize,
    /// How many bytes these have together.
    pub bytes: usize,
}

/// Indices of a region that are read together, from an index on, as chunks of a height.
#[derive(Clone, Copy)]
pub(crate) struct Batch<'a> {
    pub region: Region<'a>,
    pub pos: RegionPos,
    pub height: Height,
    pub first: usize,
    pub extent: Extent,
    pub ghost limits: { IsInLimits pos } by { Prim.hlevel props },
    pub ghost within: { first + extent.count ≤ 1024 },
}

impl Extent {
    /// With one index more, whose payload has so many bytes. One without a payload has none.
    fn with(self, bytes: usize) -> Extent
        requires count { self.count < 1024 }
        requires payloads { self.payloads ≤ self.count }
        requires bytes { self.bytes + bytes < 2 ^ 32 }
        ensures count { result.count ≡ self.count + 1 }
        ensures payloads { result.payloads ≤ result.count }
        ensures bytes { result.bytes ≡ self.bytes + bytes }
    {
        let payloads = if bytes == 0 {
            self.payloads
        } else {
            self.payloads + 1
        };
        Extent {
            count: self.count + 1,
            payloads,
            bytes: self.bytes + bytes,
        }
    }
}

/// How many bytes the payload at an index has, 0 where there is no chunk. None where the index is refused.
fn payload_bytes(region: &Region<'_>, index: usize) -> Option<usize>
    requires { index < 1024 }
    ensures { IfSome result (λ bytes. bytes ≤ 1044475) }
{
    match region.payload(index) {
        Ok(Some(payload)) => Some(payload.len()),
        Ok(None) => Some(0),
        Err(_) => None,
    }
}

/// How far a batch goes that begins at an index: it ends before an index that is refused, since nothing behind one is wanted, and
/// before the payload that would be too much. An index that is refused is a batch of its own.
pub(crate) fn extent_from(region: &Region<'_>, first: usize) -> Extent
    requires { first < 1024 }
    ensures some { 0 < result.count }
    ensures within { first + result.count ≤ 1024 }
    ensures payloads { result.payloads ≤ result.count }
    ensures bytes { result.bytes ≤ 1048576 }
{
    let mut extent = Extent {
        count: 0,
        payloads: 0,
        bytes: 0,
    };
    for index in first..CHUNKS {
        let Some(bytes) = payload_bytes(region, index) else {
            break;
        };
        if extent.bytes + bytes > MOST_BYTES {
            break;
        }
        extent = extent.with(bytes);
    }
    Extent {
        count: extent.count.max(1),
        ..extent
    }
}
