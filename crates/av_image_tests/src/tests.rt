//! Small region files, read as a world and a rest.
use crate::flat::{Block, Flat, Waiting, chunk, flat_region, push_chunk, push_pad, region};
use crate::saves::{saved, saved_broken};
use av_image::{Rest, Slot, load};
use av_region_files::RegionFile;
use av_rules::Rules;
use av_state::StateTable;
use av_types::{ChunkPos, Fault, Height, Pos, RegionPos};
use av_world::World;
use std::alloc::{AllocError, Global};
use std::process::Abort;
use std::test::Fail;
use std::thread::Threads;

/// What files of these regions are read as, under a table without rows.
fn read(
    rt: &(impl Threads + Sync),
    alloc: Global,
    files: Vec<RegionFile>,
) -> Result<(World, Rest), Fault> {
    let rules = Rules::read(alloc, b"version = 1")?;
    let mut table = StateTable::new(alloc)?;
    load(rt, alloc, files, &rules, &mut table)
}

/// One file.
fn one(alloc: Global, pos: RegionPos, bytes: Vec<u8>) -> Result<Vec<RegionFile>, AllocError> {
    let mut files = Vec::new(alloc);
    files.push(RegionFile { pos, bytes })?;
    Ok(files)
}

/// That nothing is loaded and there is one region, whose chunks are absent from this index on.
fn has_no_chunk_from(rt: &impl Abort, read: &(World, Rest), index: usize) {
    assert!(rt; read.0.positions().is_empty());
    assert_eq!(rt; read.1.regions.len(), 1);
    for region in &read.1.regions {
        assert_eq!(rt; region.slots.len(), 1024);
        assert_eq!(rt; region.stamps.len(), 1024);
        for slot in region.slots.iter().skip(index) {
            assert!(rt; matches!(slot, Slot::Absent));
        }
    }
}

/// A file of 0 bytes is one of 8,192 zeros.
#[test]
fn regions_without_chunks(rt: HostRuntime) -> Result<(), Fail> {
    let alloc = rt.alloc();
    for len in [0, 8192] {
        let pos = RegionPos { x: 3, z: -2 };
        let files = one(alloc, pos, vec![in alloc; 0; len]?)?;
        let read = read(&rt, alloc, files)?;
        has_no_chunk_from(&rt, &read, 0);
        for region in &read.1.regions {
            assert_eq!(rt; region.pos, pos);
            assert!(rt; region.stamps.iter().all(|stamp| *stamp == 0));
        }
    }
    Ok(())
}

/// The tags of a chunk whose `Status` is `empty`.
const KEPT: &[u8] = b"\x0a\0\0\x08\0\x06Status\0\x05empty\0";

/// A region with that chunk at index 0, of 20 bytes and a byte for its type, and with the stamps 1 to 4 at the bytes of
/// index 0 and 5 at the last byte of index 1023.
fn kept_region(alloc: Global) -> Result<Vec<u8>, AllocError> {
    let mut bytes = Vec::from_slice(alloc, b"\0\0\x02\x01")?;
    bytes.resize(4096, 0)?;
    bytes.extend_from_slice(b"\x01\x02\x03\x04")?;
    bytes.resize(8191, 0)?;
    bytes.extend_from_slice(b"\x05\0\0\0\x15\x03")?;
    bytes.extend_from_slice(KEPT)?;
    bytes.resize(12288, 0)?;
    Ok(bytes)
}

/// A chunk that is not full stays as its payload, and a stamp stays also where no chunk is.
#[test]
fn payloads_and_stamps_that_are_kept(rt: HostRuntime) -> Result<(), Fail> {
    let alloc = rt.alloc();
    let files = one(alloc, RegionPos { x: 0, z: 0 }, kept_region(alloc)?)?;
    let read = read(&rt, alloc, files)?;
    has_no_chunk_from(&rt, &read, 1);
    let region = read.1.regions.first().ok_or("no region")?;
    assert!(rt; region.stamps.first() == Some(&0x0102_0304));
    assert!(rt; region.stamps.last() == Some(&5));
    let slot = region.slots.first().ok_or("no slot")?;
    let Slot::Kept(payload) = slot else {
        return Err("the chunk is not kept".into());
    };
    assert_eq!(rt; payload.as_slice(), KEPT);
    Ok(())
}

/// Files of these regions, each of so many zeros.
fn zeros(alloc: Global, regions: &[(i32, i32, usize)]) -> Result<Vec<RegionFile>, AllocError> {
    let mut files = Vec::new(alloc);
    for (x, z, len) in regions {
        files.push(RegionFile {
            pos: RegionPos { x: *x, z: *z },
            bytes: vec![in alloc; 0; *len]?,
        })?;
    }
    Ok(files)
}

/// The list of files is judged before any file, and its limits before regions that are there twice.
#[test]
fn files_that_are_refused(rt: HostRuntime) -> Result<(), Fail> {
    let alloc = rt.alloc();
    for (regions, fault) in [
        ([(0, 0, 1), (0, 0, 0), (60001, 0, 0)], Fault::RegionRange),
        ([(0, 0, 1), (1, 0, 0), (0, 0, 0)], Fault::RepeatedRegion),
        ([(0, 0, 0), (1, 0, 8191), (2, 0, 8192)], Fault::ShortHeader),
    ] {
        let files = zeros(alloc, regions.as_slice())?;
        assert!(rt; read(&rt, alloc, files).err() == Some(fault));
    }
    Ok(())
}

/// Of two files with a fault that of the first is answered, by z and then by x: `BadNbt` of a payload that is cut, and
/// `ShortHeader`. So the region (1, 0) comes before (0, 1).
#[test]
fn the_first_fault_of_files(rt: HostRuntime) -> Result<(), Fail> {
    let alloc = rt.alloc();
    for (cut, short, fault) in [
        ((1, 0), (0, 1), Fault::BadNbt),
        ((0, 1), (1, 0), Fault::ShortHeader),
    ] {
        let mut payloads = Vec::new(alloc);
        payloads.push(Vec::from_slice(alloc, b"\x0a\0")?)?;
        let bytes = region(alloc, payloads.as_slice())?;
        let mut files = zeros(alloc, &[(short.0, short.1, 8191)])?;
        let pos = RegionPos { x: cut.0, z: cut.1 };
        files.push(RegionFile { pos, bytes })?;
        assert!(rt; read(&rt, alloc, files).err() == Some(fault));
    }
    Ok(())
}

/// A region of so many chunks that are not full, from index 0 on, of which some have other payloads.
fn kept_chunks(
    alloc: Global,
    count: usize,
    others: &[(usize, Vec<u8>)],
) -> Result<Vec<RegionFile>, AllocError> {
    let mut payloads = Vec::new(alloc);
    for index in 0..count {
        let other = others.iter().find(|other| other.0 == index);
        let payload = match other {
            Some(other) => other.1.as_slice(),
            None => KEPT,
        };
        payloads.push(Vec::from_slice(alloc, payload)?)?;
    }
    let bytes = region(alloc, payloads.as_slice())?;
    one(alloc, RegionPos { x: 0, z: 0 }, bytes)
}

/// Several threads read what one does, of no payload, of one, and of more than are decoded together.
#[test]
fn payloads_that_threads_read(rt: HostRuntime) -> Result<(), Fail> {
    let alloc = rt.alloc();
    for count in [0, 1, 2, 70] {
        let read = read(&rt, alloc, kept_chunks(alloc, count, &[])?)?;
        has_no_chunk_from(&rt, &read, count);
        let region = read.1.regions.first().ok_or("no region")?;
        for slot in region.slots.iter().take(count) {
            let Slot::Kept(payload) = slot else {
                return Err("a chunk is not kept".into());
            };
            assert_eq!(rt; payload.as_slice(), KEPT);
        }
    }
    Ok(())
}

/// Of several faults that of the first index is answered, whichever thread is done first: `BadNbt` of a payload that is cut,
/// and `WrongPlace` of the chunk (5, 5), which index 165 has.
#[test]
fn the_first_fault_of_a_region(rt: HostRuntime) -> Result<(), Fail> {
    let alloc = rt.alloc();
    for (cut, elsewhere, fault) in [
        (0, 1, Fault::BadNbt),
        (1, 0, Fault::WrongPlace),
        (63, 64, Fault::BadNbt),
        (64, 63, Fault::WrongPlace),
    ] {
        let mut payload = Vec::new(alloc);
        push_chunk(&mut payload, ChunkPos { x: 5, z: 5 }, 0)?;
        push_pad(&mut payload, 0)?;
        let others = [
            (cut, Vec::from_slice(alloc, b"\x0a\0")?),
            (elsewhere, payload),
        ];
        let files = kept_chunks(alloc, 66, others.as_slice())?;
        assert!(rt; read(&rt, alloc, files).err() == Some(fault));
    }
    Ok(())
}

/// The height of a chunk that has the section of y 48 to 63 alone.
const ONE_SECTION: Height = Height {
    min_section: 3,
    sections: 1,
};

/// The least corner of the layer of stone of the chunk that begins at (x, z).
fn corner(x: i32, z: i32) -> Pos {
    Pos { x, y: 63, z }
}

/// The chunk of one section that has this block at the least corner of its layer of stone.
fn small_chunk(alloc: Global, corner: Pos, block: Block) -> Result<Vec<u8>, AllocError> {
    let flat = Flat {
        height: ONE_SECTION,
        blocks: &[(corner, block)],
        entries: &[],
    };
    chunk(alloc, flat, corner.chunk())
}

/// The number of the state at a block whose y is from 48 to 63.
fn number_at(world: &World, pos: Pos) -> Option<u16> {
    let index = world.index_of(pos.chunk())?;
    let section = world.chunk(index).sections.get(7)?.as_ref()?;
    Some(section.get(pos.place()))
}

/// Of chunks that are read together, some have states that are known, and others one that is new. Stone is number 10, behind
/// air and water, and glowstone, which only the second 64 places have, is 11.
#[test]
fn states_that_are_known_and_new(rt: HostRuntime) -> Result<(), Fail> {
    let alloc = rt.alloc();
    let chunks = [
        (0, corner(0, 0), Block::Stone, 10),
        (64, corner(0, 32), Block::Stone, 10),
        (65, corner(16, 32), Block::Glowstone, 11),
        (66, corner(32, 32), Block::Stone, 10),
        (67, corner(48, 32), Block::Glowstone, 11),
    ];
    let mut payloads = Vec::new(alloc);
    for (index, corner, block, _) in chunks {
        payloads.push((index, small_chunk(alloc, corner, block)?))?;
    }
    let files = kept_chunks(alloc, 68, payloads.as_slice())?;
    let rules = Rules::read(alloc, b"version = 1")?;
    let mut table = StateTable::new(alloc)?;
    let (world, _) = load(&rt, alloc, files, &rules, &mut table)?;
    assert_eq!(rt; table.len(), 12);
    assert_eq!(rt; world.positions().len(), 5);
    for (_, corner, _, number) in chunks {
        assert!(rt; number_at(&world, corner) == Some(number));
    }
    Ok(())
}

/// So many flat chunks, the first with water and entries, of which one is overdue.
fn watered(alloc: Global, chunks: u64) -> Result<Vec<u8>, AllocError> {
    let pos = Pos { x: 8, y: 64, z: 8 };
    let entries: [Waiting; 2] = [(pos, -3, true), (Pos { x: 7, ..pos }, 2, false)];
    let flat = Flat {
        height: Height::game(),
        blocks: &[
            (pos, Block::Water(0)),
            (Pos { x: 7, ..pos }, Block::Water(1)),
        ],
        entries: entries.as_slice(),
    };
    flat_region(alloc, flat, chunks)
}

/// A region of so many chunks, and one of a chunk that is not full.
fn two_regions(alloc: Global, chunks: u64) -> Result<Vec<RegionFile>, AllocError> {
    let mut files = one(alloc, RegionPos { x: 0, z: 0 }, watered(alloc, chunks)?)?;
    files.push(RegionFile {
        pos: RegionPos { x: 7, z: -1 },
        bytes: kept_region(alloc)?,
    })?;
    Ok(files)
}

/// That the files written are those regions, in order.
fn expect_regions(
    rt: &impl Abort,
    written: &[RegionFile],
    alloc: Global,
    chunks: u64,
) -> Result<(), Fail> {
    assert_eq!(rt; written.len(), 2);
    let want = [
        (RegionPos { x: 7, z: -1 }, kept_region(alloc)?),
        (RegionPos { x: 0, z: 0 }, watered(alloc, chunks)?),
    ];
    for (file, (pos, bytes)) in written.iter().zip(want.iter()) {
        assert_eq!(rt; file.pos, *pos);
        assert!(rt; file.bytes == *bytes);
    }
    Ok(())
}

/// What is saved of files is what they were, where nothing is missing in them: blocks, entries, payloads and stamps. One region
/// has no chunk that is loaded, the other one, or more than there are threads.
#[test]
fn files_that_are_saved(rt: HostRuntime) -> Result<(), Fail> {
    let alloc = rt.alloc();
    for chunks in [1, 32] {
        let written = saved(&rt, alloc, two_regions(alloc, chunks)?)?;
        expect_regions(&rt, written.as_slice(), alloc, chunks)?;
    }
    Ok(())
}

/// A world that was given up is broken, with chunks or without.
#[test]
fn a_broken_world_is_not_saved(rt: HostRuntime) -> Result<(), Fail> {
    let alloc = rt.alloc();
    let pos = RegionPos { x: 0, z: 0 };
    for bytes in [Vec::new(alloc), watered(alloc, 2)?] {
        let files = one(alloc, pos, bytes)?;
        assert!(rt; saved_broken(&rt, alloc, files).err() == Some(Fault::Broken));
    }
    Ok(())
}

/// The largest chunk that can be read, without sections: with the sections that are missing it is too large.
fn large_chunk(alloc: Global, at: ChunkPos) -> Result<Vec<u8>, AllocError> {
    let mut payload = Vec::new(alloc);
    push_chunk(&mut payload, at, 0)?;
    push_pad(&mut payload, 1_044_475)?;
    Ok(payload)
}

/// A region with a chunk that is not full at index 0, and behind it those that are too large, at these x.
fn large_region(alloc: Global, row: &[i32]) -> Result<Vec<RegionFile>, AllocError> {
    let mut payloads = Vec::new(alloc);
    payloads.push(Vec::from_slice(alloc, KEPT)?)?;
    for x in row {
        payloads.push(large_chunk(alloc, ChunkPos { x: *x, z: 64 })?)?;
    }
    let bytes = region(alloc, payloads.as_slice())?;
    one(alloc, RegionPos { x: -1, z: 2 }, bytes)
}

/// It is told by its position, and nothing is written.
#[test]
fn a_chunk_that_is_too_large(rt: HostRuntime) -> Result<(), Fail> {
    let alloc = rt.alloc();
    let at = ChunkPos { x: -31, z: 64 };
    let files = large_region(alloc, &[-31])?;
    assert!(rt; saved(&rt, alloc, files).err() == Some(Fault::ChunkTooLarge(at)));
    Ok(())
}

/// Of several the first by its index is told, whichever thread is done first.
#[test]
fn the_first_chunk_that_is_too_large(rt: HostRuntime) -> Result<(), Fail> {
    let alloc = rt.alloc();
    let at = ChunkPos { x: -31, z: 64 };
    let files = large_region(alloc, &[-31, -30, -29, -28, -27, -26])?;
    assert!(rt; saved(&rt, alloc, files).err() == Some(Fault::ChunkTooLarge(at)));
    Ok(())
}

/// No proper beginning of a document is one.
#[test]
fn payloads_that_are_cut(rt: HostRuntime) -> Result<(), Fail> {
    let alloc = rt.alloc();
    let pos = RegionPos { x: 0, z: 0 };
    for length in 0..=KEPT.len() {
        let mut payloads = Vec::new(alloc);
        let payload = KEPT.get(..length).ok_or("too long")?;
        payloads.push(Vec::from_slice(alloc, payload)?)?;
        let bytes = region(alloc, payloads.as_slice())?;
        let fault = read(&rt, alloc, one(alloc, pos, bytes)?).err();
        let want = if length < KEPT.len() {
            Some(Fault::BadNbt)
        } else {
            None
        };
        assert!(rt; fault == want, "{length} bytes");
    }
    Ok(())
}
