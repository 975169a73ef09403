//! What would change in small region files.
use crate::expecting::expect_equal;
use av_changes::{
    CHANGED, Change, WOULD_CHANGE, add_change, by_name, changed_chunks, write_changes,
};
use av_region_files::RegionFile;
use av_types::RegionPos;
use std::alloc::{AllocError, Global};
use std::test::Fail;

/// A region of these locations, of which the first has that timestamp. Its sectors from 2 on have a payload of one byte each.
fn region(
    alloc: Global,
    locations: &[u8],
    stamp: u8,
    payloads: &[u8],
) -> Result<Vec<u8>, AllocError> {
    let mut bytes = Vec::from_slice(alloc, locations)?;
    bytes.resize(4099, 0)?;
    bytes.push(stamp)?;
    bytes.resize(8192, 0)?;
    for payload in payloads {
        bytes.extend_from_slice(&[0, 0, 0, 2, 3, *payload])?;
        bytes.extend_from_slice(&[0; 4090])?;
    }
    Ok(bytes)
}

/// The chunks 0 and 1, with the payloads 7 and 8.
const TWO: &[u8] = b"\0\0\x02\x01\0\0\x03\x01";

#[test]
fn chunks_that_change(rt: HostRuntime) -> Result<(), Fail> {
    let alloc = rt.alloc();
    let old = region(alloc, TWO, 1, &[7, 8])?;
    let cases: [(&[u8], &[u8], usize); 6] = [
        // The same.
        (TWO, &[7, 8], 0),
        // The same in other sectors.
        (b"\0\0\x03\x01\0\0\x02\x01", &[8, 7], 0),
        // Another payload of chunk 1.
        (TWO, &[7, 9], 1),
        // Chunk 0 alone.
        (b"\0\0\x02\x01", &[7], 1),
        // The payload 7 as that of chunk 1, and no chunk 0.
        (b"\0\0\0\0\0\0\x02\x01", &[7], 2),
        // Chunk 0 as it was, chunk 1 behind the file's end, and chunk 2 new.
        (b"\0\0\x02\x01\0\0\x09\x01\0\0\x03\x01", &[7, 8], 2),
    ];
    for (locations, payloads, want) in cases {
        let new = region(alloc, locations, 2, payloads)?;
        expect_equal(&rt, changed_chunks(old.as_slice(), new.as_slice()), want);
        expect_equal(&rt, changed_chunks(new.as_slice(), old.as_slice()), want);
    }
    Ok(())
}

/// A file of 0 bytes has no chunk, and one that ends within its header counts as such. A chunk with a fault is another one even
/// beside its own bytes.
#[test]
fn files_that_are_not_whole(rt: HostRuntime) -> Result<(), Fail> {
    let alloc = rt.alloc();
    let new = region(alloc, TWO, 1, &[7, 8])?;
    expect_equal(&rt, changed_chunks(&[], new.as_slice()), 2);
    expect_equal(&rt, changed_chunks(&[], &[]), 0);
    let cut = new.as_slice().get(..8191).ok_or("no header")?;
    expect_equal(&rt, changed_chunks(cut, new.as_slice()), 2);
    expect_equal(&rt, changed_chunks(new.as_slice(), cut), 2);
    expect_equal(&rt, changed_chunks(cut, &[]), 0);
    let without_chunks = new.as_slice().get(..8192).ok_or("no header")?;
    expect_equal(&rt, changed_chunks(without_chunks, without_chunks), 2);
    Ok(())
}

/// A file that is there with the same bytes is none that changes. `1` stands before `2` in the order of bytes.
#[test]
fn changes_by_name(rt: HostRuntime) -> Result<(), Fail> {
    let alloc = rt.alloc();
    let old = region(alloc, TWO, 1, &[7, 8])?;
    let mut changes: Vec<Change> = Vec::new(alloc);
    for (x, payload, stamp) in [(2, 9, 1), (3, 8, 1), (10, 8, 2)] {
        let file = RegionFile {
            pos: RegionPos { x, z: -1 },
            bytes: region(alloc, TWO, stamp, &[7, payload])?,
        };
        add_change(alloc, &mut changes, &file, Some(old.as_slice()))?;
    }
    let file = RegionFile {
        pos: RegionPos { x: -4, z: 0 },
        bytes: old,
    };
    add_change(alloc, &mut changes, &file, None)?;
    let changes = by_name(changes)?;
    let mut told = Vec::new(alloc);
    write_changes(&mut told, changes.as_slice(), WOULD_CHANGE)?;
    write_changes(&mut told, changes.as_slice(), CHANGED)?;
    let want = b"r.-4.0.mca: 2 chunks would change
r.10.-1.mca: 0 chunks would change
r.2.-1.mca: 1 chunks would change
r.-4.0.mca: 2 chunks changed
r.10.-1.mca: 0 chunks changed
r.2.-1.mca: 1 chunks changed
";
    expect_equal(&rt, told.as_slice(), want.as_slice());
    Ok(())
}
