//! Payloads by hand, read as chunks.
use crate::expecting::expect_equal;
use av_chunk::Reading;
use av_codec::read_payload;
use av_state::StateTable;
use av_types::{ChunkPos, Fault, Height};
use std::alloc::Global;
use std::process::Abort;
use std::test::Fail;

/// A full chunk at (-1, 2) with no section and no tick.
const FULL: &[u8] = b"\x0a\x00\x00\x03\x00\x04xPos\xff\xff\xff\xff\x03\x00\x04zPos\x00\x00\x00\x02\
\x08\x00\x06Status\x00\x04full\x09\x00\x08sections\x0a\x00\x00\x00\x00\x00";

/// A chunk whose making has begun, with nothing else.
const BEGUN: &[u8] = b"\x0a\x00\x00\x08\x00\x06Status\x00\x05empty\x00";

/// How many sections the chunk of a payload has, or None where it is kept as it is.
fn sections_of(alloc: Global, payload: &[u8], x: i32, z: i32) -> Result<Option<usize>, Fault> {
    if payload.len() > 1_044_475 {
        return Err(Fault::BadNbt);
    }
    let mut table = StateTable::new(alloc)?;
    match read_payload(
        alloc,
        payload,
        ChunkPos { x, z },
        Height::game(),
        &mut table,
    )? {
        Reading::Full { chunk, rest: _ } => Ok(Some(chunk.sections.len())),
        Reading::Kept => Ok(None),
    }
}

/// A payload is no document.
fn expect_bad_nbt(rt: &impl Abort, alloc: Global, payload: &[u8], x: i32, z: i32) {
    expect_equal(rt, sections_of(alloc, payload, x, z), Err(Fault::BadNbt));
}

/// A chunk whose making has begun is kept, wherever it stands.
fn expect_kept(rt: &impl Abort, alloc: Global, x: i32, z: i32) {
    expect_equal(rt, sections_of(alloc, BEGUN, x, z), Ok(None));
}

#[test]
fn payloads_are_read_as_their_documents(rt: HostRuntime) {
    let alloc = rt.alloc();
    // The game's height has 24 sections, whichever of them the payload names.
    expect_equal(&rt, sections_of(alloc, FULL, -1, 2), Ok(Some(24)));
    // x before z: (2, -1) is another chunk.
    expect_equal(&rt, sections_of(alloc, FULL, 2, -1), Err(Fault::WrongPlace));
    expect_kept(&rt, alloc, -1, 2);
    // A chunk that is kept has no position.
    expect_kept(&rt, alloc, 2, -1);
}

/// Bytes before any of the document's faults: an end too few, and a byte too many.
#[test]
fn payloads_are_whole_documents(rt: HostRuntime) -> Result<(), Fail> {
    let (short, _) = FULL.split_at(FULL.len() - 1);
    expect_bad_nbt(&rt, rt.alloc(), short, 2, -1);
    let mut long = Vec::from_slice(rt.alloc(), BEGUN)?;
    long.push(0)?;
    expect_bad_nbt(&rt, rt.alloc(), long.as_slice(), -1, 2);
    Ok(())
}
