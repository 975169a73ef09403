//! Writing a region file.
ghost use Rattle.std.specs.Prelude.{◌≡◌, ◌+◌, ◌*◌, ◌<◌, ◌≤◌, ◌^◌, ◌++◌, false, [], List, Some, None, Err, OnOk, IfOk, IfErr, MatchOption, length, map, option_map};
ghost use Rattle.av_types.specs.Positions.{IsInLimits, chunk_at};
ghost use Rattle.av_types.specs.declared.fault.Fault.TheVariants.{OutOfMemory, ChunkTooLarge};
ghost use Rattle.std.specs.Int.{w32, to_be_bytes};
ghost use Rattle.std.specs.List.{flat_map, sum_by};
ghost use Rattle.av_region.specs.Layout.{sectors_for, location_for, locations_from, chunk_bytes, region_bytes, is_too_large, first_too_large, HoldsAll};

use crate::layout::{CHUNK_HEADER, HEADER, SECTOR, UNCOMPRESSED};
use av_types::{Fault, RegionPos};
use std::alloc::{AllocError, Global};
use std::convert::AsSlice;

/// The sector after the header, where the first chunk stands.
const FIRST_SECTOR: u32 = 2;

/// The greatest number that a chunk's length field can have in 255 sectors, which is as many as a
/// location can count.
const GREATEST_LENGTH: usize = 1_044_476;

/// Whether a chunk with that payload would have more than 255 sectors.
fn is_too_large<P: AsSlice<u8>>(payload: &Option<P>) -> bool
    ensures { result ≡ is_too_large (option_map P.items payload.now) }
{
    match payload {
        Some(payload) => GREATEST_LENGTH <= payload.as_slice().len(),
        None => false,
    }
}

/// The first index at which a payload is too large.
fn first_too_large<P: AsSlice<u8>>(payloads: &[Option<P>]) -> Option<usize>
    ensures { result ≡ first_too_large (map (option_map P.items) payloads.now) }
{
    for (index, payload) in payloads.iter().enumerate() {
        if is_too_large(payload) {
            return Some(index);
        }
    }
    None
}

/// How many sectors a chunk with that payload fills.
fn sectors_for<P: AsSlice<u8>>(payload: &Option<P>) -> u32
    requires { is_too_large (option_map P.items payload.now) ≡ false }
    ensures value { result ≡ sectors_for (option_map P.items payload.now) }
    ensures bound { result ≤ 255 }
{
    match payload {
        Some(payload) => (payload.as_slice().len() + CHUNK_HEADER).div_ceil(SECTOR) as u32,
        None => 0,
    }
}

/// The location of a chunk with that payload which begins at a sector.
fn location_for<P: AsSlice<u8>>(sector: u32, payload: &Option<P>) -> u32
    requires small { is_too_large (option_map P.items payload.now) ≡ false }
    requires sector { sector < 2 ^ 23 }
    ensures { result ≡ location_for sector (option_map P.items payload.now) }
{
    if payload.is_some() {
        256 * sector + sectors_for(payload)
    } else {
        0
    }
}

/// How many sectors all chunks fill.
fn total_sectors<P: AsSlice<u8>>(payloads: &[Option<P>]) -> u32
    requires small { first_too_large (map (option_map P.items) payloads.now) ≡ None }
    requires count { length payloads.now ≤ 1024 }
    ensures value { result ≡ sum_by sectors_for (map (option_map P.items) payloads.now) }
    ensures bound { result ≤ 255 * length payloads.now }
{
    let mut sectors = 0;
    for payload in payloads {
        sectors += sectors_for(payload);
    }
    sectors
}

/// Appends the header's locations.
fn write_locations<P: AsSlice<u8>>(
    file: &mut Vec<u8>,
    payloads: &[Option<P>],
) -> Result<(), AllocError>
    requires small { first_too_large (map (option_map P.items) payloads.now) ≡ None }
    requires count { length payloads.now ≤ 1024 }
    ensures { OnOk result (file.new.items ≡ file.old.items
        ++ locations_from 2 (map (option_map P.items) payloads.now)) }
{
    let mut sector = FIRST_SECTOR;
    for payload in payloads {
        let location = location_for(sector, payload);
        file.extend_from_slice(&location.to_be_bytes())?;
        sector += sectors_for(payload);
    }
    Ok(())
}

/// Appends the header's timestamps.
fn write_stamps(file: &mut Vec<u8>, stamps: &[u32]) -> Result<(), AllocError>
    ensures { OnOk result (file.new.items ≡ file.old.items
        ++ flat_map (to_be_bytes w32) stamps.now) }
{
    for stamp in stamps {
        file.extend_from_slice(&stamp.to_be_bytes())?;
    }
    Ok(())
}

/// Appends a chunk: its length field, its type, the payload and zeros to whole sectors.
fn write_chunk<P: AsSlice<u8>>(file: &mut Vec<u8>, chunk: &Option<P>) -> Result<(), AllocError>
    requires { is_too_large (option_map P.items chunk.now) ≡ false }
    ensures { OnOk result (file.new.items ≡ file.old.items
        ++ chunk_bytes (option_map P.items chunk.now)) }
{
    let Some(payload) = chunk else {
        return Ok(());
    };
    let payload = payload.as_slice();
    let length = payload.len() as u32 + 1;
    let padding = SECTOR * sectors_for(chunk) as usize - (payload.len() + CHUNK_HEADER);
    file.extend_from_slice(&length.to_be_bytes())?;
    file.push(UNCOMPRESSED)?;
    file.extend_from_slice(payload)?;
    file.resize(file.len() + padding, 0)?;
    Ok(())
}

/// Appends all chunks.
fn write_chunks<P: AsSlice<u8>>(
    file: &mut Vec<u8>,
    payloads: &[Option<P>],
) -> Result<(), AllocError>
    requires { first_too_large (map (option_map P.items) payloads.now) ≡ None }
    ensures { OnOk result (file.new.items ≡ file.old.items
        ++ flat_map chunk_bytes (map (option_map P.items) payloads.now)) }
{
    for payload in payloads {
        write_chunk(file, payload)?;
    }
    Ok(())
}

/// A region file with these payloads and timestamps, 1,024 of each by index. Chunks stand by their
/// index from the third sector on without gaps, not compressed, padded with zeros to whole sectors.
/// An absent chunk, `None`, keeps its timestamp. Without chunks the file has 8,192 bytes.
///
/// Answers `ChunkTooLarge`, with the chunk's place in the world, for the first payload that needs
/// more than 255 sectors. `region`, which is within the limits, is only named there. Else it refuses with
/// `OutOfMemory` alone.
pub fn write<P: AsSlice<u8>>(
    alloc: Global,
    region: RegionPos,
    payloads: &[Option<P>],
    stamps: &[u32],
) -> Result<Vec<u8>, Fault>
    requires limits { IsInLimits region }
    requires payloads { length payloads.now ≡ 1024 }
    requires stamps { length stamps.now ≡ 1024 }
    ensures ok { IfOk result (λ file. file.items ≡ region_bytes
        (map (option_map P.items) payloads.now) stamps.now) }
    ensures holds { IfOk result (λ file. HoldsAll file.items
        (map (option_map P.items) payloads.now) stamps.now) }
    ensures err { MatchOption (first_too_large (map (option_map P.items) payloads.now))
        (IfErr result (λ e. e ≡ OutOfMemory)) (λ index. result
        ≡ Err (ChunkTooLarge (chunk_at region index))) }
{
    if let Some(index) = first_too_large(payloads) {
        return Err(Fault::ChunkTooLarge(region.chunk_at(index)));
    }
    let size = HEADER + SECTOR * total_sectors(payloads) as usize;
    let mut file = Vec::with_capacity(alloc, size)?;
    write_locations(&mut file, payloads)?;
    write_stamps(&mut file, stamps)?;
    write_chunks(&mut file, payloads)?;
    Ok(file)
}
