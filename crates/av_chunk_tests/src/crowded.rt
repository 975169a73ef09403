//! Chunks of more states than a table takes.
use crate::blocks::{AIR, FULL, POSITION, STONE, TICK_OF_NOTHING, WATER_17, joined};
use crate::expecting::{expect_equal, expect_true};
use crate::parts::fault_of;
use av_types::Fault;
use std::alloc::{AllocError, Global};
use std::process::Abort;
use std::test::Fail;

/// Palette entries with names of two bytes, so many from a number on.
fn push_states(payload: &mut Vec<u8>, first: u16, count: u16) -> Result<(), AllocError> {
    let mut name = first;
    for _ in 0..count {
        payload.extend_from_slice(b"\x08\x00\x04Name\x00\x02")?;
        payload.extend_from_slice(&name.to_be_bytes())?;
        payload.push(0)?;
        name = name.wrapping_add(1);
    }
    Ok(())
}

/// The begin of a section of a number, and of a palette of so many entries.
fn push_section(payload: &mut Vec<u8>, y: u8, count: u16) -> Result<(), AllocError> {
    payload.extend_from_slice(&[1, 0, 1, b'Y', y])?;
    payload.extend_from_slice(b"\x0a\x00\x0cblock_states\x09\x00\x07palette\x0a\x00\x00")?;
    payload.extend_from_slice(&count.to_be_bytes())?;
    Ok(())
}

/// `data` of 820 longs of 0, and the ends of `block_states` and of the section.
fn push_zeros(payload: &mut Vec<u8>) -> Result<(), AllocError> {
    payload.extend_from_slice(b"\x0c\x00\x04data\x00\x00\x03\x34")?;
    for _ in 0..820 {
        payload.extend_from_slice(&[0; 8])?;
    }
    payload.extend_from_slice(&[0, 0])
}

/// The begin of a chunk of 16 sections, with 15 of them, of 4,096 states each.
fn full_sections(alloc: Global) -> Result<Vec<u8>, AllocError> {
    let sixteen = b"\x09\x00\x08sections\x0a\x00\x00\x00\x10";
    let mut payload = joined(alloc, &[POSITION, FULL, sixteen])?;
    let mut name = 0u16;
    for y in 0..15 {
        push_section(&mut payload, y, 4096)?;
        push_states(&mut payload, name, 4096)?;
        push_zeros(&mut payload)?;
        name = name.wrapping_add(4096);
    }
    Ok(payload)
}

/// 16 sections: 15 of 4,096 states each, and one of so many and then the last. No name comes twice.
fn crowded(alloc: Global, count: u16, last: &[u8], rest: &[u8]) -> Result<Vec<u8>, AllocError> {
    let mut payload = full_sections(alloc)?;
    push_section(&mut payload, 15, count.saturating_add(1))?;
    // 15 times 4,096 names were before
    push_states(&mut payload, 61440, count)?;
    payload.extend_from_slice(last)?;
    push_zeros(&mut payload)?;
    payload.extend_from_slice(rest)?;
    payload.push(0)?;
    Ok(payload)
}

/// A crowded chunk is refused with this fault.
fn expect_crowded(
    rt: &impl Abort,
    alloc: Global,
    count: u16,
    last: &[u8],
    rest: &[u8],
    want: &Fault,
) -> Result<(), AllocError> {
    let payload = crowded(alloc, count, last, rest)?;
    let fault = fault_of(alloc, &payload)?;
    expect_equal(rt, fault.as_ref(), Some(want));
    Ok(())
}

/// A table begins with ten states, so 65,525 more are as many as it has.
#[test]
fn states_can_be_too_many(rt: HostRuntime) -> Result<(), Fail> {
    let most = crowded(rt.alloc(), 4085, AIR, &[])?;
    let fault = fault_of(rt.alloc(), &most)?;
    expect_true(&rt, fault.is_none());
    expect_crowded(&rt, rt.alloc(), 4085, STONE, &[], &Fault::TooManyStates)?;
    Ok(())
}

#[test]
fn a_bad_level_comes_before_too_many_states(rt: HostRuntime) -> Result<(), Fail> {
    expect_crowded(&rt, rt.alloc(), 4086, WATER_17, &[], &Fault::BadWaterLevel)?;
    Ok(())
}

/// A bad tick comes before one state too many.
#[test]
fn a_bad_tick_comes_before_too_many_states(rt: HostRuntime) -> Result<(), Fail> {
    expect_crowded(
        &rt,
        rt.alloc(),
        4085,
        STONE,
        TICK_OF_NOTHING,
        &Fault::BadTick,
    )?;
    Ok(())
}
