//! What is found wrong with small region files.
use crate::chunks::{Layer, add_chunk};
use crate::expecting::expect_equal;
use av_region_files::RegionFile;
use av_survey::{count_chunks, survey};
use av_types::{ChunkPos, Fault, Height, RegionPos};
use std::alloc::{AllocError, Global};
use std::process::Abort;
use std::test::Fail;

/// A region of two chunks: that at index 0 is compressed in another way, and that at index 33 has the length 0.
fn two_chunks(alloc: Global) -> Result<Vec<u8>, AllocError> {
    let mut bytes = Vec::from_slice(alloc, b"\0\0\x02\x01")?;
    bytes.resize(132, 0)?;
    bytes.extend_from_slice(b"\0\0\x03\x01")?;
    bytes.resize(8192, 0)?;
    bytes.extend_from_slice(b"\0\0\0\x05\x02\x0a\0\0\0")?;
    bytes.resize(16384, 0)?;
    Ok(bytes)
}

/// The index is x + 32 z, so 33 is the chunk one to the east and one to the south.
#[test]
fn the_first_fault_of_each_chunk(rt: HostRuntime) -> Result<(), Fail> {
    let alloc = rt.alloc();
    let pos = RegionPos { x: 0, z: 0 };
    let mut files = Vec::new(alloc);
    files.push(RegionFile {
        pos,
        bytes: two_chunks(alloc)?,
    })?;
    let found = survey(alloc, files, Height::game())?;
    let wanted = [
        (ChunkPos { x: 0, z: 0 }, Fault::Compression(2)),
        (ChunkPos { x: 1, z: 1 }, Fault::BadLength),
    ];
    expect_equal(&rt, found.len(), 2);
    for (finding, (chunk, fault)) in found.iter().zip(wanted.iter()) {
        expect_equal(&rt, finding.region, pos);
        expect_equal(&rt, finding.chunk, Some(*chunk));
        expect_equal(&rt, &finding.fault, fault);
    }
    Ok(())
}

/// A chunk with a fault counts. A file that is cut short has none, even where its first location is not 0.
#[test]
fn chunks_by_their_headers(rt: HostRuntime) -> Result<(), Fail> {
    let alloc = rt.alloc();
    let mut files = Vec::new(alloc);
    let mut short = two_chunks(alloc)?;
    short.truncate(8191);
    for bytes in [
        two_chunks(alloc)?,
        short,
        Vec::new(alloc),
        two_chunks(alloc)?,
    ] {
        files.push(RegionFile {
            pos: RegionPos { x: 0, z: 0 },
            bytes,
        })?;
    }
    for (count, want) in [(0, 0), (1, 2), (2, 2), (3, 2), (4, 4)] {
        let first = files.as_slice().get(..count).ok_or("too few files")?;
        expect_equal(&rt, count_chunks(first), want);
    }
    Ok(())
}

/// Regions come by z and then by x, as numbers. An empty file has nothing wrong.
#[test]
fn files_that_are_cut_short(rt: HostRuntime) -> Result<(), Fail> {
    let alloc = rt.alloc();
    let mut files = Vec::new(alloc);
    for (x, z, len) in [
        (10, 0, 1),
        (2, 0, 8191),
        (5, -1, 100),
        (-7, -1, 0),
        (0, 1, 1),
    ] {
        files.push(RegionFile {
            pos: RegionPos { x, z },
            bytes: vec![in alloc; 0; len]?,
        })?;
    }
    let found = survey(alloc, files, Height::game())?;
    expect_equal(&rt, found.len(), 4);
    for (finding, (x, z)) in found.iter().zip([(5, -1), (2, 0), (10, 0), (0, 1)].iter()) {
        expect_equal(&rt, finding.region, RegionPos { x: *x, z: *z });
        expect_equal(&rt, finding.chunk, None);
        expect_equal(&rt, &finding.fault, &Fault::ShortHeader);
    }
    Ok(())
}

/// The fault for which files of these regions are not looked at.
fn refusal(alloc: Global, regions: &[(i32, i32)]) -> Result<Option<Fault>, Fail> {
    let mut files = Vec::new(alloc);
    for (x, z) in regions {
        files.push(RegionFile {
            pos: RegionPos { x: *x, z: *z },
            bytes: Vec::new(alloc),
        })?;
    }
    Ok(survey(alloc, files, Height::game()).err())
}

/// A region beyond the limits comes before one that is there twice.
#[test]
fn lists_that_are_refused(rt: HostRuntime) -> Result<(), Fail> {
    let alloc = rt.alloc();
    expect_equal(
        &rt,
        refusal(alloc, [(0, 0), (0, 0), (0, 60001)].as_slice())?,
        Some(Fault::RegionRange),
    );
    expect_equal(
        &rt,
        refusal(alloc, [(0, 0), (1, 0), (0, 0)].as_slice())?,
        Some(Fault::RepeatedRegion),
    );
    expect_equal(
        &rt,
        refusal(alloc, [(60000, -60000), (-60000, 60000)].as_slice())?,
        None,
    );
    Ok(())
}

/// Expects one fault of the file of a region, that of the chunk at (x, 0).
fn expect_one(
    rt: &impl Abort,
    alloc: Global,
    bytes: Vec<u8>,
    x: i32,
    fault: &Fault,
) -> Result<(), Fail> {
    let mut files = Vec::new(alloc);
    files.push(RegionFile {
        pos: RegionPos { x: 0, z: 0 },
        bytes,
    })?;
    let found = survey(alloc, files, Height::game())?;
    expect_equal(rt, found.len(), 1);
    for finding in &found {
        expect_equal(rt, finding.chunk, Some(ChunkPos { x, z: 0 }));
        expect_equal(rt, &finding.fault, fault);
    }
    Ok(())
}

/// The second chunk has the states of the first, and then a section of two states whose indices are missing. The third has
/// the states of both. 16 states have 4 bits each, so their indices are 256 longs.
#[test]
fn a_fault_behind_known_states(rt: HostRuntime) -> Result<(), Fail> {
    let alloc = rt.alloc();
    let known = Layer {
        letter: b'k',
        states: 16,
        longs: 256,
    };
    let bare = Layer {
        letter: b'm',
        states: 2,
        longs: 0,
    };
    let more = Layer {
        letter: b'm',
        states: 16,
        longs: 256,
    };
    let mut bytes = Vec::new(alloc);
    add_chunk(alloc, &mut bytes, 0, &[known])?;
    add_chunk(alloc, &mut bytes, 1, &[known, bare])?;
    add_chunk(alloc, &mut bytes, 2, &[known, more])?;
    expect_one(&rt, alloc, bytes, 1, &Fault::BadPacked)
}

/// So many sections of 4,096 states each, with letters from `a` on. 4,096 states have 12 bits each, five to a long, so
/// their indices are 820 longs.
fn sections_of_many(alloc: Global, count: u8) -> Result<Vec<Layer>, AllocError> {
    let mut layers = Vec::new(alloc);
    for section in 0..count {
        layers.push(Layer {
            letter: b'a'.wrapping_add(section),
            states: 4096,
            longs: 820,
        })?;
    }
    Ok(layers)
}

/// A table has 65,535 states at most, of which ten are there from the start. The first chunk has 1,000 and the second
/// 65,040 others: together these are too many, and each alone they are not. The third has 65,536. 1,000 states have 10 bits
/// each, six to a long, so their indices are 683 longs.
#[test]
fn states_that_are_too_many_together(rt: HostRuntime) -> Result<(), Fail> {
    let alloc = rt.alloc();
    let few = Layer {
        letter: b'z',
        states: 1000,
        longs: 683,
    };
    let mut many = sections_of_many(alloc, 15)?;
    many.push(Layer {
        letter: b'y',
        states: 3600,
        longs: 820,
    })?;
    let mut bytes = Vec::new(alloc);
    add_chunk(alloc, &mut bytes, 0, &[few])?;
    add_chunk(alloc, &mut bytes, 1, many.as_slice())?;
    add_chunk(
        alloc,
        &mut bytes,
        2,
        sections_of_many(alloc, 16)?.as_slice(),
    )?;
    expect_one(&rt, alloc, bytes, 2, &Fault::TooManyStates)
}
