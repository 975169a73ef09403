//! Scheduled ticks of documents, read and written back.
use crate::documents::{DARK, LOW, MOST_BYTES, Y_0, read, rewritten_after, written};
use crate::expecting::{expect_equal, expect_true};
use crate::pieces::Piece::{Longs, Tick};
use crate::pieces::{Piece, joined, push_all};
use crate::tags::{
    DATA, END, FLOWING, LAVA, LEVEL_0, LEVEL_3, LEVEL_8, NO_LIST, PALETTE_5, ROOT, SECTIONS_1,
    SLAB, STATES, STILL, STONE, TICKS_1, TICKS_6, TICKS_7, WATER,
};
use av_chunk::{Chunk, ChunkLight, Reading};
use av_types::{Entry, Fault, Height, Pos};
use std::alloc::{AllocError, Global};
use std::process::Abort;
use std::test::Fail;

/// Ticks of five blocks from (16, 0, -32) on: a source, two flows, a soaked slab, and stone. Each has its fluid as it was
/// read, and below as it is written.
const READ_TICKS: &[Piece<'static>] = &[
    Tick(STILL, [20, 0, -32, 9, 0]),
    Tick(FLOWING, [16, 0, -32, 7, -1]),
    Tick(FLOWING, [19, 0, -32, -3, 0]),
    Tick(STILL, [17, 0, -32, 7, 0]),
    Tick(FLOWING, [18, 0, -32, 2, 5]),
];

const WRITTEN_TICKS: &[Piece<'static>] = &[
    Tick(FLOWING, [20, 0, -32, 9, 0]),
    Tick(STILL, [16, 0, -32, 7, -1]),
    Tick(STILL, [19, 0, -32, -3, 0]),
    Tick(FLOWING, [17, 0, -32, 7, 0]),
    Tick(FLOWING, [18, 0, -32, 2, 5]),
];

/// The same five ticks after they were read.
const TICKS_AFTER_5: &[Piece<'static>] = &[
    Tick(FLOWING, [20, 0, -32, 4, 0]),
    Tick(STILL, [16, 0, -32, 2, -1]),
    Tick(STILL, [19, 0, -32, -8, 0]),
    Tick(FLOWING, [17, 0, -32, 2, 0]),
    Tick(FLOWING, [18, 0, -32, -3, 5]),
];

/// A second entry of a block, which is dropped.
const SECOND: Piece<'static> = Tick(FLOWING, [16, 0, -32, 0, 0]);

const LOW_LAVA: Piece<'static> = Tick(LAVA, [16, 0, -32, 1, 0]);

/// Stone is the first of five states, and the last that is found.
const OLD_FIVE: Piece<'static> = Longs([0, 0, 0, 0, 0, 0, 0x43, 0x21], 0);

const NEW_FIVE: Piece<'static> = Longs([68, 68, 68, 68, 68, 68, 0x32, 0x10], 68);

/// What follows the ticks of a chunk of five states, as it is read.
const READ_FIVE: &[Piece<'static>] = &[
    SECOND, LOW_LAVA, SECTIONS_1, Y_0, STATES, PALETTE_5, STONE, WATER, LEVEL_0, WATER, LEVEL_3,
    WATER, LEVEL_8, SLAB, DATA, OLD_FIVE, END, END, END,
];

/// The same as it is written.
const WRITTEN_FIVE: &[Piece<'static>] = &[
    SECTIONS_1, Y_0, STATES, PALETTE_5, WATER, LEVEL_0, WATER, LEVEL_3, WATER, LEVEL_8, SLAB,
    STONE, DATA, NEW_FIVE, END, DARK, END, END,
];

/// That chunk is written so, so many ticks after it was read.
fn expect_ticks_after(
    rt: &impl Abort,
    alloc: Global,
    ticks: u32,
    ticks_written: &[Piece],
) -> Result<(), Fail> {
    let light = ChunkLight::new(alloc, 1)?;
    let bytes = joined(alloc, &[&[ROOT, TICKS_7], READ_TICKS, READ_FIVE])?;
    let written = rewritten_after(alloc, &bytes, &light, ticks)?;
    let mut want = joined(alloc, &[&[ROOT, TICKS_6, LOW_LAVA]])?;
    push_all(&mut want, ticks_written)?;
    push_all(&mut want, WRITTEN_FIVE)?;
    expect_equal(rt, written, want);
    Ok(())
}

#[test]
fn water_ticks_keep_their_order(rt: HostRuntime) -> Result<(), Fail> {
    expect_ticks_after(&rt, rt.alloc(), 0, WRITTEN_TICKS)
}

#[test]
fn water_ticks_come_sooner_by_the_ticks_that_were_run(rt: HostRuntime) -> Result<(), Fail> {
    expect_ticks_after(&rt, rt.alloc(), 5, TICKS_AFTER_5)
}

/// A root of no section, with one entry at y 300.
fn high_entry(alloc: Global) -> Result<Vec<u8>, AllocError> {
    let entry = Tick(STILL, [16, 300, -32, 4, -2]);
    joined(alloc, &[&[ROOT, NO_LIST, TICKS_1, entry, END]])
}

/// What a chunk is read as.
fn full(alloc: Global, bytes: &[u8], height: Height) -> Result<Chunk, Fail> {
    if bytes.len() > MOST_BYTES {
        return Err(Fail::new("too many bytes"));
    }
    match read(alloc, bytes, height)? {
        Reading::Full { chunk, rest: _ } => Ok(chunk),
        Reading::Kept => Err(Fail::new("a chunk that is not full")),
    }
}

/// Whether a block is pending in the section of this index.
fn is_pending(chunk: &Chunk, pos: Pos, index: usize) -> bool {
    match chunk.sections.get(index) {
        Some(Some(section)) => section.pending(pos.place()),
        _ => false,
    }
}

/// The one entry of a chunk of the game's height is pending in the section of this index.
fn expect_entry(rt: &impl Abort, chunk: &Chunk, entry: Entry, index: usize) {
    expect_equal(rt, chunk.ticks.as_slice(), [entry].as_slice());
    expect_equal(rt, chunk.sections.len(), 24);
    expect_true(rt, is_pending(chunk, entry.pos, index));
}

/// An entry at y 300 is in section 18 of the game's height, the 23rd.
#[test]
fn an_entry_lies_in_the_height(rt: HostRuntime) -> Result<(), Fail> {
    let bytes = high_entry(rt.alloc())?;
    let pos = Pos {
        x: 16,
        y: 300,
        z: -32,
    };
    let entry = Entry {
        pos,
        due: 4,
        priority: -2,
    };
    let chunk = full(rt.alloc(), &bytes, Height::game())?;
    expect_entry(&rt, &chunk, entry, 22);
    Ok(())
}

/// An entry at y 300 lies out of 16 sections from 0 on.
#[test]
fn an_entry_lies_out_of_the_height(rt: HostRuntime) -> Result<(), Fail> {
    let bytes = high_entry(rt.alloc())?;
    assert!(rt; bytes.len() <= MOST_BYTES);
    expect_equal(
        &rt,
        read(rt.alloc(), &bytes, LOW).err(),
        Some(Fault::BadTick),
    );
    Ok(())
}
