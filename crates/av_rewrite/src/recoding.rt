//! Decoding every chunk of a region, and writing a region of what was decoded.
ghost use Rattle.std.specs.Prelude.{◌≤◌, IfOk, map, option_map};
ghost use Rattle.av_rewrite.specs.Regions.{AreMadeOf, AreStamps, IsMadeOf, IsRecoded, IsRegionMadeOf};

use av_nbt::{decode, encode};
use av_region::{CHUNKS, Region, write};
use av_types::{Fault, RegionPos};
use std::alloc::Global;

/// A payload, decoded and encoded again.
fn recode_payload(alloc: Global, payload: &[u8]) -> Result<Vec<u8>, Fault>
    ensures { IfOk result (λ bytes. IsRecoded payload.now bytes.items) }
{
    let root = decode(alloc, payload)?;
    encode(alloc, &root)
}

/// The chunk at an index, if there is one, decoded and encoded again.
fn recode_chunk(alloc: Global, region: &Region<'_>, index: usize) -> Result<Option<Vec<u8>>, Fault>
    requires { index ≤ 1023 }
    ensures { IfOk result (λ made. IsMadeOf (λ _. IsRecoded) region.now.bytes.now index
        (option_map (λ v. v.items) made)) }
{
    match region.payload(index)? {
        None => Ok(None),
        Some(payload) => Ok(Some(recode_payload(alloc, payload)?)),
    }
}

fn recode_chunks(alloc: Global, region: &Region<'_>) -> Result<Vec<Option<Vec<u8>>>, Fault>
    ensures { IfOk result (λ payloads. AreMadeOf (λ _. IsRecoded) region.now.bytes.now 1024
        (map (option_map (λ v. v.items)) payloads.items)) }
{
    let mut payloads = Vec::new(alloc);
    for index in 0..CHUNKS {
        payloads.push(recode_chunk(alloc, region, index)?)?;
    }
    Ok(payloads)
}

/// The timestamps of a region.
pub(crate) fn stamps_of(alloc: Global, region: &Region<'_>) -> Result<Vec<u32>, Fault>
    ensures { IfOk result (λ stamps. AreStamps region.now.bytes.now 1024 stamps.items) }
{
    let mut stamps = Vec::new(alloc);
    for index in 0..CHUNKS {
        stamps.push(region.stamp(index))?;
    }
    Ok(stamps)
}

/// A region file for (0, 0) with every chunk of another one decoded and encoded again, at its index and with its timestamp.
///
/// # Errors
/// What `Region::read`, `Region::payload` and `decode` refuse, and what the new file can't hold. `OutOfMemory`.
pub fn recode(alloc: Global, bytes: &[u8]) -> Result<Vec<u8>, Fault>
    ensures { IfOk result (λ file. IsRegionMadeOf (λ _. IsRecoded) bytes.now file.items) }
{
    let region = Region::read(bytes)?;
    let payloads = recode_chunks(alloc, &region)?;
    let stamps = stamps_of(alloc, &region)?;
    write(
        alloc,
        RegionPos { x: 0, z: 0 },
        payloads.as_slice(),
        stamps.as_slice(),
    )
}
