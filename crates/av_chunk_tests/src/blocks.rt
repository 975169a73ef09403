//! Blocks of small regions, written by hand.
use crate::expecting::expect_true;
use crate::parts::region;
use av_codec::block_at;
use av_state::State;
use av_types::{Fault, Height, Pos, RegionPos};
use std::alloc::{AllocError, Global};
use std::process::Abort;
use std::test::Fail;

/// The root's begin: `xPos` and `zPos` of -1.
pub(crate) const POSITION: &[u8] =
    b"\x0a\x00\x00\x03\x00\x04xPos\xff\xff\xff\xff\x03\x00\x04zPos\xff\xff\xff\xff";

pub(crate) const FULL: &[u8] = b"\x08\x00\x06Status\x00\x04full";

const SECTIONS: &[u8] = b"\x09\x00\x08sections\x0a\x00\x00\x00\x01";

/// A section's number and the begin of its `block_states`.
const FOURTH: &[u8] = b"\x01\x00\x01Y\x04\x0a\x00\x0cblock_states";

pub(crate) const AIR: &[u8] = b"\x08\x00\x04Name\x00\x0dminecraft:air\x00";

pub(crate) const STONE: &[u8] = b"\x08\x00\x04Name\x00\x0fminecraft:stone\x00";

pub(crate) const WATER_17: &[u8] =
    b"\x08\x00\x04Name\x00\x0fminecraft:water\x0a\x00\x0aProperties\x08\x00\x05level\x00\x0217\x00\x00";

/// The ends of `block_states`, of the section and of the root.
const ENDS: &[u8] = b"\x00\x00\x00";

/// The root's begin, with an `xPos` of -2.
const OTHER_POSITION: &[u8] =
    b"\x0a\x00\x00\x03\x00\x04xPos\xff\xff\xff\xfe\x03\x00\x04zPos\xff\xff\xff\xff";

const NO_SECTIONS: &[u8] = b"\x09\x00\x08sections\x0a\x00\x00\x00\x00";

const TWO_SECTIONS: &[u8] = b"\x09\x00\x08sections\x0a\x00\x00\x00\x02";

/// The number of another section and the begin of its `block_states`.
const THIRD: &[u8] = b"\x01\x00\x01Y\x03\x0a\x00\x0cblock_states";

/// A palette of one entry.
const PALETTE: &[u8] = b"\x09\x00\x07palette\x0a\x00\x00\x00\x01";

/// An entry without a name.
const NAMELESS: &[u8] = b"\x08\x00\x04name\x00\x01a\x00";

/// One long, where a palette of one entry has none or 256.
const ONE_LONG: &[u8] = b"\x0c\x00\x04data\x00\x00\x00\x01\x00\x00\x00\x00\x00\x00\x00\x00";

/// Water at (0, 64, -1), which is of the next chunk.
const TICK_OUTSIDE: &[u8] = b"\x09\x00\x0bfluid_ticks\x0a\x00\x00\x00\x01\
\x08\x00\x01i\x00\x0fminecraft:water\x03\x00\x01x\x00\x00\x00\x00\x03\x00\x01y\x00\x00\x00\x40\
\x03\x00\x01z\xff\xff\xff\xff\x03\x00\x01t\x00\x00\x00\x00\x03\x00\x01p\x00\x00\x00\x00\x00";

/// A tick without a fluid.
pub(crate) const TICK_OF_NOTHING: &[u8] =
    b"\x09\x00\x0bfluid_ticks\x0a\x00\x00\x00\x01\x01\x00\x01i\x00\x00";

const END: &[u8] = b"\x00";

/// Parts of a document, one after the other.
pub(crate) fn joined(alloc: Global, parts: &[&[u8]]) -> Result<Vec<u8>, AllocError> {
    let mut bytes = Vec::new(alloc);
    for part in parts {
        bytes.extend_from_slice(*part)?;
    }
    Ok(bytes)
}

/// A palette of so many entries, all but the first of which are `last`.
fn push_palette(payload: &mut Vec<u8>, count: u8, last: &[u8]) -> Result<(), AllocError> {
    payload.extend_from_slice(b"\x09\x00\x07palette\x0a\x00\x00\x00")?;
    payload.push(count)?;
    payload.extend_from_slice(AIR)?;
    for _ in 1..count {
        payload.extend_from_slice(last)?;
    }
    Ok(())
}

/// `data` of so many longs of 8 bytes.
fn push_longs(payload: &mut Vec<u8>, longs: u16, fill: u8) -> Result<(), AllocError> {
    payload.extend_from_slice(b"\x0c\x00\x04data\x00\x00")?;
    payload.extend_from_slice(&longs.to_be_bytes())?;
    for index in 0..longs {
        // the first entry of long 15 is at place 240, and its last one at place 255
        let first = if index == 15 { 0x10 } else { fill };
        payload.extend_from_slice(&[first, 0, 0, 0, 0, 0, 0, 0])?;
    }
    Ok(())
}

/// The region of a chunk with one section, of such a palette and such longs.
fn region_of(
    alloc: Global,
    count: u8,
    last: &[u8],
    longs: u16,
    fill: u8,
) -> Result<Vec<u8>, AllocError> {
    let mut payload = joined(alloc, &[POSITION, FULL, SECTIONS, FOURTH])?;
    push_palette(&mut payload, count, last)?;
    push_longs(&mut payload, longs, fill)?;
    payload.extend_from_slice(ENDS)?;
    region(alloc, &payload)
}

fn found(alloc: Global, file: &[u8], x: i32, y: i32) -> Result<Option<State>, Fault> {
    let region = RegionPos { x: -1, z: -1 };
    block_at(alloc, file, region, Pos { x, y, z: -1 }, Height::game())
}

fn is_named(found: &Result<Option<State>, Fault>, name: &[u8]) -> bool {
    match found {
        Ok(Some(state)) => state.name.as_slice() == name,
        _ => false,
    }
}

fn is_unloaded(found: &Result<Option<State>, Fault>) -> bool {
    match found {
        Ok(None) => true,
        _ => false,
    }
}

fn is_refused(found: &Result<Option<State>, Fault>, fault: &Fault) -> bool {
    match found {
        Err(e) => e == fault,
        _ => false,
    }
}

/// The block at (x, y, -1) of a region's file has a state of this name.
fn expect_named(rt: &impl Abort, alloc: Global, file: &[u8], x: i32, y: i32, name: &[u8]) {
    expect_true(rt, is_named(&found(alloc, file, x, y), name));
}

/// The block at (x, y, -1) of a region's file is of no chunk that is full.
fn expect_unloaded(rt: &impl Abort, alloc: Global, file: &[u8], x: i32, y: i32) {
    expect_true(rt, is_unloaded(&found(alloc, file, x, y)));
}

/// The block at (-1, y, -1) of a region's file is refused with this fault.
fn expect_refused(rt: &impl Abort, alloc: Global, file: &[u8], y: i32, fault: &Fault) {
    expect_true(rt, is_refused(&found(alloc, file, -1, y), fault));
}

#[test]
fn empty_and_short_files(rt: HostRuntime) -> Result<(), Fail> {
    for length in [0, 8192] {
        let file = vec![in rt.alloc(); 0u8; length]?;
        expect_unloaded(&rt, rt.alloc(), &file, -1, 64);
    }
    let file = vec![in rt.alloc(); 0u8; 100]?;
    expect_refused(&rt, rt.alloc(), &file, 64, &Fault::ShortHeader);
    Ok(())
}

#[test]
fn states_of_a_palette(rt: HostRuntime) -> Result<(), Fail> {
    let file = region_of(rt.alloc(), 2, STONE, 256, 0)?;
    expect_named(&rt, rt.alloc(), &file, -1, 64, b"minecraft:stone");
    expect_named(&rt, rt.alloc(), &file, -2, 64, b"minecraft:air");
    // a missing section is air, and out of the height and out of the region nothing is loaded
    expect_named(&rt, rt.alloc(), &file, -1, 0, b"minecraft:air");
    expect_unloaded(&rt, rt.alloc(), &file, -1, 320);
    expect_unloaded(&rt, rt.alloc(), &file, 1, 64);
    Ok(())
}

/// Bits that hold no index are ignored: with 17 entries an index has 5 bits, and 12 of them leave 4 bits.
#[test]
fn bits_of_no_index_are_ignored(rt: HostRuntime) -> Result<(), Fail> {
    let file = region_of(rt.alloc(), 17, STONE, 342, 0xf0)?;
    expect_named(&rt, rt.alloc(), &file, -1, 64, b"minecraft:air");
    Ok(())
}

/// 255 longs, and an index beyond a palette of one entry; a fault counts whatever the y is.
#[test]
fn palettes_and_longs(rt: HostRuntime) -> Result<(), Fail> {
    for (count, last, longs) in [(2, STONE, 255), (1, STONE, 256), (2, WATER_17, 255)] {
        let file = region_of(rt.alloc(), count, last, longs, 0)?;
        expect_refused(&rt, rt.alloc(), &file, 320, &Fault::BadPacked);
    }
    let file = region_of(rt.alloc(), 2, WATER_17, 256, 0)?;
    expect_refused(&rt, rt.alloc(), &file, 320, &Fault::BadWaterLevel);
    Ok(())
}

/// A chunk of this payload is refused with this fault.
fn expect_bad(rt: &impl Abort, alloc: Global, payload: &[u8], fault: &Fault) -> Result<(), Fail> {
    let file = region(alloc, payload)?;
    expect_refused(rt, alloc, &file, 64, fault);
    Ok(())
}

#[test]
fn chunks_that_are_not_read(rt: HostRuntime) -> Result<(), Fail> {
    let no_status: &[u8] = b"\x0a\x00\x00\x00";
    let no_position: &[u8] = b"\x0a\x00\x00\x08\x00\x06Status\x00\x04full\x00";
    let old: &[u8] = b"\x0a\x00\x00\x01\x00\x05Level\x00\x00";
    for payload in [no_status, no_position] {
        expect_bad(&rt, rt.alloc(), payload, &Fault::BadChunk)?;
    }
    expect_bad(&rt, rt.alloc(), b"\x0a\x00\x00", &Fault::BadNbt)?;
    expect_bad(&rt, rt.alloc(), old, &Fault::OldLayout)
}

#[test]
fn a_chunk_that_is_not_full_is_not_loaded(rt: HostRuntime) -> Result<(), Fail> {
    let empty = b"\x0a\x00\x00\x08\x00\x06Status\x00\x05empty\x00";
    let kept = region(rt.alloc(), empty)?;
    expect_unloaded(&rt, rt.alloc(), &kept, -1, 64);
    Ok(())
}

/// A chunk of these parts is refused with this fault. Of several faults the first by its number is answered, wherever
/// its cause stands.
fn expect_first(
    rt: &impl Abort,
    alloc: Global,
    parts: &[&[u8]],
    fault: &Fault,
) -> Result<(), Fail> {
    let payload = joined(alloc, parts)?;
    expect_bad(rt, alloc, &payload, fault)
}

#[test]
fn a_wrong_place_comes_after_a_missing_list(rt: HostRuntime) -> Result<(), Fail> {
    let alloc = rt.alloc();
    let parts = [OTHER_POSITION, FULL, NO_SECTIONS, END];
    expect_first(&rt, alloc, parts.as_slice(), &Fault::WrongPlace)?;
    let parts = [OTHER_POSITION, FULL, END];
    expect_first(&rt, alloc, parts.as_slice(), &Fault::BadChunk)
}

#[test]
fn a_bad_palette_comes_after_a_wrong_place(rt: HostRuntime) -> Result<(), Fail> {
    let alloc = rt.alloc();
    let parts = [
        OTHER_POSITION,
        FULL,
        SECTIONS,
        FOURTH,
        PALETTE,
        NAMELESS,
        ENDS,
    ];
    expect_first(&rt, alloc, parts.as_slice(), &Fault::WrongPlace)?;
    let parts = [POSITION, FULL, SECTIONS, FOURTH, PALETTE, NAMELESS, ENDS];
    expect_first(&rt, alloc, parts.as_slice(), &Fault::BadPalette)
}

#[test]
fn a_bad_palette_comes_before_bad_longs(rt: HostRuntime) -> Result<(), Fail> {
    let parts = [
        POSITION,
        FULL,
        TWO_SECTIONS,
        THIRD,
        PALETTE,
        AIR,
        ONE_LONG,
        END,
        END,
        FOURTH,
        PALETTE,
        NAMELESS,
        ENDS,
    ];
    expect_first(&rt, rt.alloc(), parts.as_slice(), &Fault::BadPalette)
}

#[test]
fn ticks_out_of_the_chunk_and_of_nothing(rt: HostRuntime) -> Result<(), Fail> {
    for tick in [TICK_OUTSIDE, TICK_OF_NOTHING] {
        let parts = [POSITION, FULL, tick, NO_SECTIONS, END];
        expect_first(&rt, rt.alloc(), parts.as_slice(), &Fault::BadTick)?;
    }
    Ok(())
}

#[test]
fn bad_longs_come_before_a_bad_tick(rt: HostRuntime) -> Result<(), Fail> {
    let parts = [
        POSITION,
        FULL,
        TICK_OUTSIDE,
        SECTIONS,
        FOURTH,
        PALETTE,
        AIR,
        ONE_LONG,
        ENDS,
    ];
    expect_first(&rt, rt.alloc(), parts.as_slice(), &Fault::BadPacked)
}

#[test]
fn a_bad_tick_comes_before_a_bad_level(rt: HostRuntime) -> Result<(), Fail> {
    let parts = [
        POSITION,
        FULL,
        TICK_OF_NOTHING,
        SECTIONS,
        FOURTH,
        PALETTE,
        WATER_17,
        ENDS,
    ];
    expect_first(&rt, rt.alloc(), parts.as_slice(), &Fault::BadTick)?;
    let parts = [POSITION, FULL, SECTIONS, FOURTH, PALETTE, WATER_17, ENDS];
    expect_first(&rt, rt.alloc(), parts.as_slice(), &Fault::BadWaterLevel)
}
