//! Chunks, read and written back.
use crate::documents::rewritten;
use crate::expecting::expect_equal;
use crate::parts::Part::{Byte, Bytes, Compound, End, Int, List, Text, Tick};
use crate::parts::{FULL, Part, document, push_all};
use av_chunk::ChunkLight;
use std::alloc::{AllocError, Global};
use std::process::Abort;
use std::test::Fail;

/// The position of the chunks.
const X: Part<'static> = Int("xPos", 1);

const Z: Part<'static> = Int("zPos", -2);

const ONE: Part<'static> = List("sections", 10, 1);

const PALETTE: Part<'static> = List("palette", 10, 1);

const AIR: Part<'static> = Text("Name", "minecraft:air");

const DARK: Part<'static> = Bytes("BlockLight", 2048);

/// A root's tags before its two ticks.
const HEAD: &[Part<'static>] = &[X, Z, FULL, List("fluid_ticks", 10, 2)];

/// Water of this x, with another tag.
fn push_odd_tick(bytes: &mut Vec<u8>, x: i32) -> Result<(), AllocError> {
    push_all(bytes, &[Text("i", "minecraft:water"), Int("x", x)])?;
    push_all(bytes, ODD_REST)
}

const ODD_REST: &[Part<'static>] = &[
    Int("y", 0),
    Int("z", -32),
    Int("t", 1),
    Int("p", 0),
    Byte("a", 1),
    End,
];

/// A section of air, as it is written, and the root's end.
const AIR_SECTION: &[Part<'static>] = &[
    ONE,
    Byte("Y", 0),
    Compound("block_states"),
    PALETTE,
    AIR,
    End,
    End,
    DARK,
    End,
    End,
];

/// A chunk with that water after another entry.
fn with_odd_tick(alloc: Global, x: i32) -> Result<Vec<u8>, AllocError> {
    let mut bytes = document(alloc, HEAD)?;
    push_all(&mut bytes, &[Tick(17, 9)])?;
    push_odd_tick(&mut bytes, x)?;
    push_all(&mut bytes, AIR_SECTION)?;
    Ok(bytes)
}

/// The same with that water before the other entry.
fn odd_tick_first(alloc: Global, x: i32) -> Result<Vec<u8>, AllocError> {
    let mut bytes = document(alloc, HEAD)?;
    push_odd_tick(&mut bytes, x)?;
    push_all(&mut bytes, &[Tick(17, 9)])?;
    push_all(&mut bytes, AIR_SECTION)?;
    Ok(bytes)
}

/// A chunk is written so, in the dark.
fn expect(rt: &impl Abort, alloc: Global, bytes: &[u8], want: &[u8]) -> Result<(), Fail> {
    let dark = ChunkLight::new(alloc, 1)?;
    let written = rewritten(alloc, bytes, &dark)?;
    expect_equal(rt, written.as_slice(), want);
    Ok(())
}

/// Wherever it stands, and before all entries of water.
#[test]
fn water_with_another_tag_is_kept_and_not_run(rt: HostRuntime) -> Result<(), Fail> {
    for x in [16, 0] {
        let bytes = with_odd_tick(rt.alloc(), x)?;
        expect(&rt, rt.alloc(), &bytes, &odd_tick_first(rt.alloc(), x)?)?;
    }
    Ok(())
}

/// A chunk of a section of air with this tag for its light.
fn with_light(alloc: Global, light: &[Part]) -> Result<Vec<u8>, AllocError> {
    let head = [X, Z, FULL, List("fluid_ticks", 10, 0), ONE, Byte("Y", 0)];
    let mut bytes = document(alloc, head.as_slice())?;
    push_all(&mut bytes, light)?;
    push_all(&mut bytes, &[Compound("block_states"), PALETTE, AIR])?;
    push_all(&mut bytes, &[End, End, End, End])?;
    Ok(bytes)
}

#[test]
fn odd_light_is_replaced_where_it_stood(rt: HostRuntime) -> Result<(), Fail> {
    let bytes = with_light(rt.alloc(), &[Int("BlockLight", 5)])?;
    let want = with_light(rt.alloc(), &[DARK])?;
    expect(&rt, rt.alloc(), &bytes, &want)
}
