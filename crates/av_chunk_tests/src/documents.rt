//! Chunks of documents that were put together by hand, read and written back.
ghost use Rattle.std.specs.Int.{w32};
ghost use Rattle.std.specs.Prelude.{◌≡◌, ◌≤◌, ◌-ℤ◌, IfOk, IsTrue, All, length, pos};
ghost use Rattle.std.specs.Int.RustNames.{FitsSigned};
ghost use Rattle.av_state.specs.Table.{states};
ghost use Rattle.av_rules.specs.declared.kinds.Kinds.{Kinds};
ghost use Rattle.av_codec.specs.Writing.{CanWrite, states_of_kinds};

use crate::expecting::{expect_equal, expect_true};
use crate::pieces::Piece::{Light, Longs, Number, Tick};
use crate::pieces::{Piece, joined, push_all, push_light};
use crate::tags::{
    ABOVE, AIR, BARE, BEGIN, BELOW, BIOMES, DATA, END, EXTRA, FACING, FLOWING, FURNACE, LAST, LAVA,
    LEVEL_0, LEVEL_3, LEVEL_8, LEVEL_12, LIT, LIT_AIR, NO_LIST, ODD_TICK, PALETTE_1, PALETTE_2,
    ROOT, SECTIONS_1, SECTIONS_4, SECTIONS_5, SECTIONS_17, SKY, STATES, STATUS, STONE, TICKS_0,
    TICKS_4, UNKNOWN, WATER, Z_POS,
};
use av_chunk::{Chunk, ChunkLight, ChunkRest, Reading};
use av_codec::{read_chunk, write_chunk};
use av_nbt::{decode, encode};
use av_rules::{Kinds, Rules};
use av_state::StateTable;
use av_types::{ChunkPos, Entry, Fault, Height};
use std::alloc::{AllocError, Global};
use std::process::Abort;
use std::test::Fail;

/// The most bytes that a region's sectors hold of a chunk.
pub(crate) const MOST_BYTES: usize = 1_044_475;

const POSITION: ChunkPos = ChunkPos { x: 1, z: -2 };

pub(crate) const LOW: Height = Height {
    min_section: 0,
    sections: 16,
};

/// What the chunk that bytes spell is read as, at its position.
pub(crate) fn read(alloc: Global, bytes: &[u8], height: Height) -> Result<Reading, Fault>
    requires { length bytes.now ≤ 1044475 }
{
    let root = decode(alloc, bytes)?;
    let mut table = StateTable::new(alloc)?;
    read_chunk(alloc, root, POSITION, height, &mut table)
}

/// The kinds of a table's states.
fn kinds_of(alloc: Global, table: StateTable) -> Result<Kinds, Fault>
    ensures { IfOk result (λ kinds. states_of_kinds kinds ≡ states table) }
{
    let rules = Rules::read(alloc, b"version = 2")?;
    Kinds::new(alloc, table, &rules)
}

/// What is written of a chunk, so many ticks after it was read.
pub(crate) fn written(
    alloc: Global,
    chunk: &Chunk,
    rest: &ChunkRest,
    kinds: &Kinds,
    light: &ChunkLight,
    ticks: u32,
) -> Result<Vec<u8>, Fault>
    requires { CanWrite chunk.now rest.now kinds.now light.now ticks }
{
    let root = write_chunk(alloc, chunk, rest, kinds, light, ticks)?;
    encode(alloc, &root)
}

/// The same, by the table of its states.
fn written_by(
    alloc: Global,
    chunk: &Chunk,
    rest: &ChunkRest,
    table: StateTable,
    light: &ChunkLight,
    ticks: u32,
) -> Result<Vec<u8>, Fault>
    requires { (kinds : Kinds) → states_of_kinds kinds ≡ states table
        → CanWrite chunk.now rest.now kinds light.now ticks }
{
    let kinds = kinds_of(alloc, table)?;
    written(alloc, chunk, rest, &kinds, light, ticks)
}

/// Whether the time of an entry fits an Int so many ticks later.
fn fits_after(entry: &Entry, ticks: u32) -> bool
    ensures { IsTrue result → FitsSigned w32 (entry.now.due -ℤ pos ticks) }
{
    match entry.due.checked_sub(i64::from(ticks)) {
        Some(due) => i32::try_from(due).is_ok(),
        None => false,
    }
}

/// Whether the times of all entries do.
fn fit_after(entries: &[Entry], ticks: u32) -> bool
    ensures { IsTrue result → All (λ e. FitsSigned w32 (e.due -ℤ pos ticks)) entries.now }
{
    entries.iter().all(|entry| fits_after(entry, ticks))
}

/// What is written of the chunk that bytes spell, so many ticks after it was read. The light is that of all sections from 0 up.
pub(crate) fn rewritten_after(
    alloc: Global,
    bytes: &[u8],
    light: &ChunkLight,
    ticks: u32,
) -> Result<Vec<u8>, Fail> {
    let sections = light.len();
    if bytes.len() > MOST_BYTES || sections < 1 || sections > 64 {
        return Err(Fail::new("too many bytes or sections"));
    }
    let height = Height {
        min_section: 0,
        sections,
    };
    let root = decode(alloc, bytes)?;
    let mut table = StateTable::new(alloc)?;
    let reading = read_chunk(alloc, root, POSITION, height, &mut table)?;
    let Reading::Full { chunk, rest } = reading else {
        return Err(Fail::new("a chunk that is not full"));
    };
    if !fit_after(chunk.ticks.as_slice(), ticks) {
        return Err(Fail::new("an entry that is due too early"));
    }
    Ok(written_by(alloc, &chunk, &rest, table, light, ticks)?)
}

/// The same before any tick.
pub(crate) fn rewritten(alloc: Global, bytes: &[u8], light: &ChunkLight) -> Result<Vec<u8>, Fail> {
    rewritten_after(alloc, bytes, light, 0)
}

/// A document is written as another one, with this light.
fn expect_written(
    rt: &impl Abort,
    alloc: Global,
    light: &ChunkLight,
    document: &[&[Piece]],
    want: &[&[Piece]],
) -> Result<(), Fail> {
    let bytes = joined(alloc, document)?;
    let written = rewritten(alloc, &bytes, light)?;
    expect_equal(rt, written, joined(alloc, want)?);
    Ok(())
}

/// Light of three sections, each with one byte throughout.
fn three_lights(alloc: Global, bytes: [u8; 3]) -> Result<ChunkLight, Fail> {
    let mut light = Vec::new(alloc);
    for byte in bytes {
        push_light(&mut light, byte)?;
    }
    if light.len() != 6144 {
        return Err(Fail::new("not three sections"));
    }
    Ok(ChunkLight::from_bytes(3, light))
}

pub(crate) const Y_0: Piece<'static> = Number(0);

const Y_1: Piece<'static> = Number(1);

const Y_2: Piece<'static> = Number(2);

pub(crate) const DARK: Piece<'static> = Light(0);

const LIGHT_0: Piece<'static> = Light(0x1a);

const LIGHT_1: Piece<'static> = Light(0x2b);

const LIGHT_2: Piece<'static> = Light(0x3c);

const WATER_1: Piece<'static> = Tick(FLOWING, [16, 0, -32, 5, 0]);

const WATER_2: Piece<'static> = Tick(FLOWING, [31, 47, -17, 4, -1]);

const HIGH_LAVA: Piece<'static> = Tick(LAVA, [0, 400, 0, 3, 0]);

/// The first block is air, and all others are stone: by a palette of stone and air, and by one of air and stone.
const OLD_DATA: Piece<'static> = Longs([0, 0, 0, 0, 0, 0, 0, 1], 0);

const NEW_DATA: Piece<'static> = Longs([17, 17, 17, 17, 17, 17, 17, 16], 17);

/// Sections in no order: two are out of the height, one has no `block_states`, and one is missing. Section 1 has the
/// light of another.
const IN_NO_ORDER: &[Piece<'static>] = &[
    BEGIN, TICKS_4, WATER_1, HIGH_LAVA, WATER_2, ODD_TICK, STATUS, SECTIONS_4, ABOVE, BIOMES,
    LIGHT_0, Y_1, SKY, STATES, EXTRA, DATA, OLD_DATA, PALETTE_2, STONE, AIR, END, LAST, END, BELOW,
    Y_0, BIOMES, END, Z_POS, UNKNOWN, END,
];

/// The same as it is written: section -1, then 0, 1 and 2, and then 3.
const IN_ORDER: &[Piece<'static>] = &[
    BEGIN, TICKS_4, HIGH_LAVA, ODD_TICK, WATER_1, WATER_2, STATUS, SECTIONS_5, BELOW, Y_0, BIOMES,
    STATES, PALETTE_1, AIR, END, LIGHT_0, END, BIOMES, LIGHT_1, Y_1, SKY, STATES, PALETTE_2, AIR,
    STONE, DATA, NEW_DATA, EXTRA, END, LAST, END, Y_2, STATES, PALETTE_1, AIR, END, LIGHT_2, END,
    ABOVE, Z_POS, UNKNOWN, END,
];

#[test]
fn all_tags_stay_where_they_stood(rt: HostRuntime) -> Result<(), Fail> {
    let light = three_lights(rt.alloc(), [0x1a, 0x2b, 0x3c])?;
    expect_written(&rt, rt.alloc(), &light, &[IN_NO_ORDER], &[IN_ORDER])?;
    expect_written(&rt, rt.alloc(), &light, &[IN_ORDER], &[IN_ORDER])
}

/// Missing ticks come last, as what is missing of a section does. Both lists are of Compounds.
#[test]
fn what_is_absent_comes_last(rt: HostRuntime) -> Result<(), Fail> {
    let light = ChunkLight::new(rt.alloc(), 1)?;
    let written: &[Piece] = &[
        ROOT, SECTIONS_1, Y_0, STATES, PALETTE_1, AIR, END, DARK, END, UNKNOWN, TICKS_0, END,
    ];
    let document: &[Piece] = &[ROOT, NO_LIST, UNKNOWN, END];
    expect_written(&rt, rt.alloc(), &light, &[document], &[written])
}

/// What stands behind the one state of a section.
const WITH_DATA: &[Piece<'static>] = &[DATA, ZEROS, END, END, TICKS_0, END];

const WITHOUT_DATA: &[Piece<'static>] = &[END, END, TICKS_0, END];

/// A section of one state.
fn one_state(alloc: Global, state: &[Piece], rest: &[Piece]) -> Result<Vec<u8>, AllocError> {
    let mut bytes = joined(alloc, &[&[ROOT, SECTIONS_1, Y_0, DARK, STATES, PALETTE_1]])?;
    push_all(&mut bytes, state)?;
    push_all(&mut bytes, rest)?;
    Ok(bytes)
}

/// `data` of 256 longs, all 0.
const ZEROS: Piece<'static> = Longs([0; 8], 0);

/// A section of this state, with `data`, is written as that one, without.
fn expect_form(
    rt: &impl Abort,
    alloc: Global,
    light: &ChunkLight,
    state: &[Piece],
    want: &[Piece],
) -> Result<(), Fail> {
    let bytes = one_state(alloc, state, WITH_DATA)?;
    let written = rewritten(alloc, &bytes, light)?;
    expect_equal(rt, written, one_state(alloc, want, WITHOUT_DATA)?);
    Ok(())
}

/// A palette of one entry is written without `data`, air without properties, water with its level alone, and all other
/// states with their keys in order.
#[test]
fn states_are_written_in_their_form(rt: HostRuntime) -> Result<(), Fail> {
    let light = ChunkLight::new(rt.alloc(), 1)?;
    let cases: [(&[Piece], &[Piece]); 5] = [
        (&[WATER, LIT, LEVEL_12], &[WATER, LEVEL_8]),
        (&[WATER, LEVEL_3], &[WATER, LEVEL_3]),
        (&[BARE], &[WATER, LEVEL_0]),
        (&[LIT_AIR], &[AIR]),
        (
            &[FURNACE, LIT, FACING, END, END],
            &[FURNACE, FACING, LIT, END, END],
        ),
    ];
    for (state, want) in cases {
        expect_form(&rt, rt.alloc(), &light, state, want)?;
    }
    Ok(())
}

/// Section -1, and 16 sections of air from 0 on.
fn seventeen_sections(alloc: Global) -> Result<Vec<u8>, AllocError> {
    let mut bytes = joined(alloc, &[&[ROOT, SECTIONS_17, BELOW]])?;
    for y in 0..16u8 {
        push_all(
            &mut bytes,
            &[Number(y), STATES, PALETTE_1, AIR, END, DARK, END],
        )?;
    }
    push_all(&mut bytes, &[TICKS_0, END])?;
    Ok(bytes)
}

/// A section of number -1, in a height of 16 sections from 0 on.
#[test]
fn a_section_below_the_height_stands_first(rt: HostRuntime) -> Result<(), Fail> {
    let light = ChunkLight::new(rt.alloc(), 16)?;
    let bytes = joined(rt.alloc(), &[&[ROOT, SECTIONS_1, BELOW, TICKS_0, END]])?;
    let written = rewritten(rt.alloc(), &bytes, &light)?;
    expect_equal(&rt, written, seventeen_sections(rt.alloc())?);
    Ok(())
}

/// Whatever else its document has.
#[test]
fn a_chunk_that_is_not_full_is_kept(rt: HostRuntime) -> Result<(), Fail> {
    let bytes = b"\x0a\x00\x00\x08\x00\x06Status\x00\x05empty\x00";
    let reading = read(rt.alloc(), bytes, LOW)?;
    expect_true(&rt, matches!(reading, Reading::Kept));
    Ok(())
}

#[test]
fn new_light_is_dark(rt: HostRuntime) -> Result<(), Fail> {
    let dark = vec![in rt.alloc(); 0u8; 4096]?;
    assert_eq!(rt; dark.len(), 4096);
    expect_equal(
        &rt,
        ChunkLight::new(rt.alloc(), 2)?,
        ChunkLight::from_bytes(2, dark),
    );
    Ok(())
}

/// The bytes of two sections: the last byte of the one is 1, the first of the other is 2, and all others are 0.
fn two_sections(alloc: Global) -> Result<Vec<u8>, AllocError> {
    let mut bytes = vec![in alloc; 0u8; 2047]?;
    bytes.extend_from_slice(&[1, 2])?;
    bytes.resize(4096, 0)?;
    Ok(bytes)
}

/// A section's light has 2,048 bytes, and these at its ends.
fn expect_ends(rt: &impl Abort, section: &[u8], first: u8, last: u8) {
    expect_equal(rt, section.len(), 2048);
    expect_equal(rt, section.first(), Some(&first));
    expect_equal(rt, section.last(), Some(&last));
}

#[test]
fn light_goes_by_sections(rt: HostRuntime) -> Result<(), Fail> {
    let bytes = two_sections(rt.alloc())?;
    assert_eq!(rt; bytes.len(), 4096);
    let light = ChunkLight::from_bytes(2, bytes);
    assert_eq!(rt; light.len(), 2);
    expect_ends(&rt, light.section(0), 0, 1);
    expect_ends(&rt, light.section(1), 2, 0);
    Ok(())
}
