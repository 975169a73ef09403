//! Regions by hand.
use crate::expecting::expect_equal;
use av_region::{Region, write, written_holds};
use av_types::{ChunkPos, Fault, RegionPos};
use std::alloc::Global;
use std::test::Fail;

const REGION: RegionPos = RegionPos { x: -1, z: 2 };

/// A region of one chunk at index 0, with that location and those bytes in the third sector.
fn region_with(alloc: Global, location: [u8; 4], chunk: &[u8]) -> Result<Vec<u8>, Fault> {
    let mut file = Vec::from_slice(alloc, &location)?;
    file.resize(8192, 0)?;
    file.extend_from_slice(chunk)?;
    file.resize(12288, 0)?;
    Ok(file)
}

#[test]
fn files_without_chunks(rt: HostRuntime) -> Result<(), Fail> {
    for len in [0, 8192] {
        let file = vec![in rt.alloc(); 0u8; len]?;
        let region = Region::read(&file)?;
        expect_equal(&rt, region.payload(0)?, None);
        expect_equal(&rt, region.payload(1023)?, None);
        expect_equal(&rt, region.stamp(1023), 0);
    }
    Ok(())
}

#[test]
fn short_files(rt: HostRuntime) -> Result<(), Fail> {
    for len in [1, 100, 8191] {
        let file = vec![in rt.alloc(); 0u8; len]?;
        expect_equal(&rt, Region::read(&file).err(), Some(Fault::ShortHeader));
    }
    Ok(())
}

#[test]
fn faults_of_a_chunk(rt: HostRuntime) -> Result<(), Fail> {
    let cases: [([u8; 4], &[u8], Fault); 12] = [
        ([0, 0, 1, 1], &[0, 0, 0, 5, 3], Fault::BadLocation),
        ([0, 0, 2, 0], &[0, 0, 0, 5, 3], Fault::BadLocation),
        ([0, 0, 3, 1], &[0, 0, 0, 5, 3], Fault::TruncatedChunk),
        ([0, 0, 2, 1], &[0, 0, 16, 0, 3], Fault::TruncatedChunk),
        // the length is an unsigned number
        (
            [0, 0, 2, 255],
            &[255, 255, 255, 255, 3],
            Fault::TruncatedChunk,
        ),
        ([0, 0, 2, 1], &[0, 0, 0, 0], Fault::BadLength),
        ([0, 0, 1, 1], &[0, 0, 0, 0], Fault::BadLocation),
        // the length comes before the type
        ([0, 0, 2, 1], &[0, 0, 0, 0, 2], Fault::BadLength),
        ([0, 0, 2, 1], &[0, 0, 0, 1, 0x83], Fault::ExternalChunk),
        (
            [0, 0, 2, 1],
            &[0, 0, 0, 5, 2, 10, 0, 0, 0],
            Fault::Compression(2),
        ),
        ([0, 0, 2, 1], &[0, 0, 0, 5, 0], Fault::Compression(0)),
        ([0, 0, 2, 1], &[0, 0, 0, 5, 127], Fault::Compression(127)),
    ];
    for (location, chunk, fault) in cases {
        let file = region_with(rt.alloc(), location, chunk)?;
        expect_equal(&rt, Region::read(&file)?.payload(0), Err(fault));
    }
    Ok(())
}

/// What is read of chunk 0 where the file is cut after no byte, or after so many from 8,192 on. Its length field, in
/// sector 2, is 5: the file is whole from 8,196 + 5 bytes on.
fn cut_payload(len: usize) -> Result<Option<&'static [u8]>, Fault> {
    if len == 0 {
        Ok(None)
    } else if len < 8201 {
        Err(Fault::TruncatedChunk)
    } else {
        Ok(Some(&[10, 0, 0, 0]))
    }
}

#[test]
fn a_file_that_is_cut(rt: HostRuntime) -> Result<(), Fail> {
    let chunk = [0, 0, 0, 5, 3, 10, 0, 0, 0];
    let mut file = region_with(rt.alloc(), [0, 0, 2, 1], &chunk)?;
    for cut in 0..12289 {
        let len = 12288 - cut;
        file.truncate(len);
        if 1 <= len && len < 8192 {
            expect_equal(&rt, Region::read(&file).err(), Some(Fault::ShortHeader));
            continue;
        }
        let region = Region::read(&file)?;
        expect_equal(&rt, region.payload(0), cut_payload(len));
        expect_equal(&rt, region.payload(1), Ok(None));
    }
    Ok(())
}

/// A written region of one chunk at index 0.
fn written_alone(alloc: Global, payload: &[u8]) -> Result<Vec<u8>, Fault> {
    let mut payloads: [Option<&[u8]>; 1024] = [None; 1024];
    payloads[0] = Some(payload);
    write(alloc, REGION, &payloads, &[0; 1024])
}

#[test]
fn written_sizes(rt: HostRuntime) -> Result<(), Fail> {
    // the payload's bytes, the file's bytes and the count of sectors
    for (len, size, count) in [
        (4091, 12288, 1),
        (4092, 16384, 2),
        (1_044_475, 1_052_672, 255),
    ] {
        let payload = vec![in rt.alloc(); 7u8; len]?;
        let file = written_alone(rt.alloc(), &payload)?;
        expect_equal(&rt, file.len(), size);
        expect_equal(&rt, file.get(..4), Some([0, 0, 2, count].as_slice()));
        expect_equal(
            &rt,
            Region::read(&file)?.payload(0)?,
            Some(payload.as_slice()),
        );
    }
    Ok(())
}

/// A written region of the first chunk and the last, of a byte each, or of no chunk. The stamp at index 1 is 0x01020304.
fn written_ends(alloc: Global, has_chunks: bool) -> Result<Vec<u8>, Fault> {
    let mut payloads: [Option<&[u8]>; 1024] = [None; 1024];
    let mut stamps = [0; 1024];
    stamps[1] = 0x0102_0304;
    if has_chunks {
        payloads[0] = Some(&[5]);
        payloads[1023] = Some(&[6]);
    }
    write(alloc, REGION, &payloads, &stamps)
}

#[test]
fn timestamps_are_written_without_chunks(rt: HostRuntime) -> Result<(), Fail> {
    let file = written_ends(rt.alloc(), false)?;
    expect_equal(&rt, file.len(), 8192);
    expect_equal(&rt, file.get(4100..4104), Some([1, 2, 3, 4].as_slice()));
    Ok(())
}

#[test]
fn chunks_are_written_without_gaps(rt: HostRuntime) -> Result<(), Fail> {
    let file = written_ends(rt.alloc(), true)?;
    expect_equal(&rt, file.len(), 16384);
    let last = Some([0, 0, 3, 1].as_slice());
    expect_equal(&rt, file.get(4092..4096), last);
    for (at, payload) in [(8192, 5), (12288, 6)] {
        let want = [0, 0, 0, 2, 3, payload, 0];
        expect_equal(&rt, file.get(at..at + 7), Some(want.as_slice()));
    }
    Ok(())
}

#[test]
fn stamps_of_a_written_region(rt: HostRuntime) -> Result<(), Fail> {
    let file = written_ends(rt.alloc(), true)?;
    let region = Region::read(&file)?;
    expect_equal(&rt, region.payload(1)?, None);
    expect_equal(&rt, region.stamp(1), 0x0102_0304);
    written_holds();
    Ok(())
}

#[test]
fn a_chunk_of_256_sectors(rt: HostRuntime) -> Result<(), Fail> {
    let payload = vec![in rt.alloc(); 0u8; 1_044_476]?;
    let fault = written_alone(rt.alloc(), &payload).err();
    let first = ChunkPos { x: -32, z: 64 };
    expect_equal(&rt, fault, Some(Fault::ChunkTooLarge(first)));
    Ok(())
}

/// The first of two in the order of the indices is named.
#[test]
fn two_chunks_of_256_sectors(rt: HostRuntime) -> Result<(), Fail> {
    let payload = vec![in rt.alloc(); 0u8; 1_044_476]?;
    let mut payloads: [Option<&[u8]>; 1024] = [None; 1024];
    payloads[33] = Some(payload.as_slice());
    payloads[1000] = Some(payload.as_slice());
    let fault = write(rt.alloc(), REGION, &payloads, &[0; 1024]).err();
    // the chunk at index 33 is 1 to the east and 1 to the south of the region's first
    let named = ChunkPos { x: -31, z: 65 };
    expect_equal(&rt, fault, Some(Fault::ChunkTooLarge(named)));
    Ok(())
}
