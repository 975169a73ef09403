//! Chunks that are read by a table that others share.
ghost use Rattle.std.specs.Prelude.{◌≤◌, length};

use crate::expecting::{expect_equal, expect_true};
use crate::pieces::Piece::{Longs, Number, Tick};
use crate::pieces::{Piece, joined};
use crate::tags::{
    AIR, DATA, END, FLOWING, LEVEL_0, LEVEL_3, LEVEL_8, NO_LIST, PALETTE_2, PALETTE_5, ROOT,
    SECTIONS_1, SLAB, STATES, STILL, STONE, TICKS_1, WATER,
};
use av_chunk::{Chunk, ChunkRest, Reading};
use av_codec::{read_chunk, read_known};
use av_nbt::decode;
use av_state::StateTable;
use av_types::{ChunkPos, Entry, Fault, Height, Place, Pos};
use std::alloc::Global;
use std::process::Abort;
use std::test::Fail;

const POSITION: ChunkPos = ChunkPos { x: 1, z: -2 };

const TWO: Height = Height {
    min_section: 0,
    sections: 2,
};

/// What the chunk that bytes spell is read as, at its position.
fn read(alloc: Global, bytes: &[u8], table: &mut StateTable) -> Result<Reading, Fault>
    requires { length bytes.now ≤ 1044475 }
{
    let root = decode(alloc, bytes)?;
    read_chunk(alloc, root, POSITION, TWO, table)
}

/// The same, where a table knows its states.
fn read_by_known(alloc: Global, bytes: &[u8], table: &StateTable) -> Result<Option<Reading>, Fault>
    requires { length bytes.now ≤ 1044475 }
{
    let root = decode(alloc, bytes)?;
    Ok(read_known(alloc, root, POSITION, TWO, table)?)
}

/// A table with the states of the chunk that bytes spell.
fn table_of(alloc: Global, bytes: &[u8]) -> Result<StateTable, Fault>
    requires { length bytes.now ≤ 1044475 }
{
    let mut table = StateTable::new(alloc)?;
    let _reading = read(alloc, bytes, &mut table)?;
    Ok(table)
}

/// Places 0 to 3 have the last four of five states, and all others the first.
const FIVE: Piece<'static> = Longs([0, 0, 0, 0, 0, 0, 0x43, 0x21], 0);

/// Section 1 of five states, and a scheduled tick in it. Section 0 is missing.
const CHUNK: &[Piece<'static>] = &[
    ROOT,
    TICKS_1,
    Tick(STILL, [17, 16, -32, 7, -1]),
    SECTIONS_1,
    Number(1),
    STATES,
    PALETTE_5,
    STONE,
    WATER,
    LEVEL_0,
    WATER,
    LEVEL_3,
    WATER,
    LEVEL_8,
    SLAB,
    DATA,
    FIVE,
    END,
    END,
    END,
];

/// The chunk and the rest of a reading.
fn parts(reading: Option<Reading>) -> Option<(Chunk, ChunkRest)> {
    match reading? {
        Reading::Full { chunk, rest } => Some((chunk, rest)),
        Reading::Kept => None,
    }
}

/// The number of a place of a section, and whether it is pending.
fn found(chunk: &Chunk, section: usize, place: u16) -> Option<(u16, bool)> {
    let Some(Some(section)) = chunk.sections.get(section) else {
        return None;
    };
    if place >= 4096 {
        return None;
    }
    let place = Place::new(place);
    Some((section.get(place), section.pending(place)))
}

/// The places of section 1 have the numbers of their states: water that falls is 9, stone is 10 and a wet slab 11. Those of the
/// missing section have air.
fn expect_numbers(rt: &impl Abort, chunk: &Chunk) {
    expect_equal(rt, chunk.sections.len(), 2);
    for (section, place, number, pending) in [
        (1, 0, 1, false),
        (1, 1, 4, true),
        (1, 2, 9, false),
        (1, 3, 11, false),
        (1, 4, 10, false),
        (1, 4095, 10, false),
        (0, 1, 0, false),
    ] {
        expect_equal(rt, found(chunk, section, place), Some((number, pending)));
    }
}

/// The one entry of the chunk.
fn expect_entry(rt: &impl Abort, chunk: &Chunk) {
    let pos = Pos {
        x: 17,
        y: 16,
        z: -32,
    };
    let entry = Entry {
        pos,
        due: 7,
        priority: -1,
    };
    expect_equal(rt, chunk.ticks.as_slice(), [entry].as_slice());
}

/// A table that lacks stone and the slab reads nothing. One that has them reads the chunk.
#[test]
fn a_chunk_of_known_states_is_read(rt: HostRuntime) -> Result<(), Fail> {
    let bytes = joined(rt.alloc(), &[CHUNK])?;
    assert!(rt; bytes.len() <= 1_044_475);
    let fresh = StateTable::new(rt.alloc())?;
    expect_true(&rt, read_by_known(rt.alloc(), &bytes, &fresh)?.is_none());
    let table = table_of(rt.alloc(), &bytes)?;
    let known = parts(read_by_known(rt.alloc(), &bytes, &table)?);
    let (chunk, rest) = known.ok_or(Fault::BadChunk)?;
    expect_numbers(&rt, &chunk);
    expect_entry(&rt, &chunk);
    expect_equal(&rt, rest.tags.len(), 5);
    Ok(())
}

/// Whatever else its document has.
#[test]
fn a_chunk_that_is_not_full_is_kept(rt: HostRuntime) -> Result<(), Fail> {
    let bytes = b"\x0a\x00\x00\x08\x00\x06Status\x00\x05empty\x00";
    let table = StateTable::new(rt.alloc())?;
    let reading = read_by_known(rt.alloc(), bytes, &table)?;
    expect_true(&rt, matches!(reading, Some(Reading::Kept)));
    Ok(())
}

/// Nothing is read of a chunk without a list of sections, of indices that do not fit, and of a tick that lies above the height.
#[test]
fn a_chunk_that_is_refused_is_not_read(rt: HostRuntime) -> Result<(), Fail> {
    let table = StateTable::new(rt.alloc())?;
    let longs: &[Piece] = &[
        ROOT,
        SECTIONS_1,
        Number(0),
        STATES,
        PALETTE_2,
        AIR,
        AIR,
        DATA,
        FIVE,
        END,
        END,
        END,
    ];
    let high = Tick(FLOWING, [16, 32, -32, 5, 0]);
    let cases: [&[Piece]; 3] = [&[ROOT, END], longs, &[ROOT, NO_LIST, TICKS_1, high, END]];
    for pieces in cases {
        let bytes = joined(rt.alloc(), &[pieces])?;
        assert!(rt; bytes.len() <= 1_044_475);
        expect_true(&rt, read_by_known(rt.alloc(), &bytes, &table)?.is_none());
    }
    Ok(())
}
