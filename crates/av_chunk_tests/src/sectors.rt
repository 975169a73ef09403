//! Where chunks lie in a region's file.
use crate::expecting::expect_equal;
use av_codec::block_at;
use av_region::{Region, write};
use av_types::{ChunkPos, Fault, Height, Pos, RegionPos};
use std::alloc::{AllocError, Global};
use std::process::Abort;
use std::test::Fail;

/// A file of 16,384 bytes with two locations and, in the third sector, a length and a type.
fn file_of(
    alloc: Global,
    first: [u8; 4],
    second: [u8; 4],
    length: u32,
    kind: u8,
) -> Result<Vec<u8>, AllocError> {
    let mut file = Vec::from_slice(alloc, &first)?;
    file.extend_from_slice(&second)?;
    file.resize(8192, 0)?;
    file.extend_from_slice(&length.to_be_bytes())?;
    file.push(kind)?;
    file.resize(16384, 7)?;
    Ok(file)
}

/// The payload of a file's chunk is refused with this fault.
fn expect_fault(rt: &impl Abort, file: &[u8], want: &Fault) -> Result<(), Fault> {
    let region = Region::read(file)?;
    let fault = region.payload(0).err();
    expect_equal(rt, fault.as_ref(), Some(want));
    Ok(())
}

/// A file's chunk of this index has this payload.
fn expect_payload(
    rt: &impl Abort,
    file: &[u8],
    index: usize,
    want: Option<&[u8]>,
) -> Result<(), Fault> {
    let region = Region::read(file)?;
    assert!(rt; index < 1024);
    expect_equal(rt, region.payload(index), Ok(want));
    Ok(())
}

#[test]
fn only_four_zero_bytes_are_no_chunk(rt: HostRuntime) -> Result<(), Fail> {
    let file = file_of(rt.alloc(), [0, 0, 0, 1], [0, 0, 0, 0], 5, 3)?;
    expect_fault(&rt, &file, &Fault::BadLocation)?;
    expect_payload(&rt, &file, 1, None)?;
    Ok(())
}

#[test]
fn the_bytes_of_the_length_count(rt: HostRuntime) -> Result<(), Fail> {
    let file = file_of(rt.alloc(), [0, 0, 2, 1], [0; 4], 4092, 3)?;
    let found = Region::read(&file)?.payload(0)?;
    expect_equal(&rt, found.map_or(0, |bytes| bytes.len()), 4091);
    Ok(())
}

#[test]
fn a_length_is_not_above_that_of_its_sectors(rt: HostRuntime) -> Result<(), Fail> {
    let file = file_of(rt.alloc(), [0, 0, 2, 1], [0; 4], 4093, 3)?;
    expect_fault(&rt, &file, &Fault::BadLength)?;
    Ok(())
}

#[test]
fn type_128_is_external(rt: HostRuntime) -> Result<(), Fail> {
    let file = file_of(rt.alloc(), [0, 0, 2, 1], [0; 4], 5, 127)?;
    expect_fault(&rt, &file, &Fault::Compression(127))?;
    for kind in [128, 255] {
        let file = file_of(rt.alloc(), [0, 0, 2, 1], [0; 4], 5, kind)?;
        expect_fault(&rt, &file, &Fault::ExternalChunk)?;
    }
    Ok(())
}

#[test]
fn two_chunks_may_share_their_sectors(rt: HostRuntime) -> Result<(), Fail> {
    let file = file_of(rt.alloc(), [0, 0, 2, 2], [0, 0, 2, 1], 5, 3)?;
    expect_payload(&rt, &file, 0, Some(&[7, 7, 7, 7]))?;
    expect_payload(&rt, &file, 1, Some(&[7, 7, 7, 7]))?;
    Ok(())
}

#[test]
fn a_short_header_comes_before_another_region(rt: HostRuntime) -> Result<(), Fail> {
    let file = vec![in rt.alloc(); 0u8; 100]?;
    let pos = Pos { x: 1, y: 64, z: -1 };
    let found = block_at(
        rt.alloc(),
        &file,
        RegionPos { x: -1, z: -1 },
        pos,
        Height::game(),
    );
    expect_equal(&rt, found.err(), Some(Fault::ShortHeader));
    Ok(())
}

#[test]
fn an_index_counts_x_within_z(rt: HostRuntime) {
    let region = RegionPos { x: -1, z: 2 };
    expect_equal(&rt, ChunkPos { x: 1, z: 0 }.index(), 1);
    expect_equal(&rt, ChunkPos { x: 0, z: 1 }.index(), 32);
    expect_equal(&rt, region.chunk_at(1), ChunkPos { x: -31, z: 64 });
    expect_equal(&rt, region.chunk_at(32), ChunkPos { x: -32, z: 65 });
}

/// The payloads of a region whose chunk of index 1000 alone is there, with one byte too many.
fn one_payload(alloc: Global) -> Result<Vec<Option<Vec<u8>>>, AllocError> {
    let mut payloads = Vec::new(alloc);
    for _ in 0..1000 {
        payloads.push(None)?;
    }
    payloads.push(Some(vec![in alloc; 0u8; 1_044_476]?))?;
    payloads.resize_with(1024, || None)?;
    Ok(payloads)
}

#[test]
fn a_chunk_that_is_too_large_is_named(rt: HostRuntime) -> Result<(), Fail> {
    let payloads = one_payload(rt.alloc())?;
    let stamps = vec![in rt.alloc(); 0u32; 1024]?;
    assert!(rt; payloads.len() == 1024);
    let region = RegionPos { x: -1, z: 2 };
    let fault = write(rt.alloc(), region, &payloads, &stamps).err();
    let chunk = ChunkPos { x: -24, z: 95 };
    expect_equal(&rt, fault, Some(Fault::ChunkTooLarge(chunk)));
    Ok(())
}
