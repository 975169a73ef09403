//! Documents from their tags, and what they are read as.
use crate::expecting::expect_equal;
use av_codec::block_at;
use av_types::{Fault, Height, Pos, RegionPos};
use std::alloc::{AllocError, Global};
use std::process::Abort;

/// A part of a document. A list is followed by the payloads of its elements, a compound by its tags and an end.
#[derive(Clone, Copy, Drop)]
pub enum Part<'a> {
    Byte(&'a str, u8),
    Int(&'a str, i32),
    Long(&'a str),
    Text(&'a str, &'a str),
    /// The number of its elements' kind, and how many they are.
    List(&'a str, u8, i32),
    Compound(&'a str),
    /// So many bytes, all zero.
    Bytes(&'a str, u16),
    /// Of no element.
    Ints(&'a str),
    /// The payload of an Int.
    Element(i32),
    /// An entry of flowing water at (x, 0, -32): x, and the ticks until it is due.
    Tick(i32, i32),
    End,
}

/// The tags of the position of chunk (-1, -1).
pub const X: Part<'static> = Part::Int("xPos", -1);

pub const Z: Part<'static> = Part::Int("zPos", -1);

pub const FULL: Part<'static> = Part::Text("Status", "full");

/// A list of no section.
pub const NONE: Part<'static> = Part::List("sections", 10, 0);

fn push_head(bytes: &mut Vec<u8>, kind: u8, name: &str) -> Result<(), AllocError> {
    bytes.push(kind)?;
    bytes.extend_from_slice(&u16::try_from(name.len()).unwrap_or(u16::MAX).to_be_bytes())?;
    bytes.extend_from_slice(name.as_bytes())?;
    Ok(())
}

fn push_number(bytes: &mut Vec<u8>, number: i32) -> Result<(), AllocError> {
    bytes.extend_from_slice(&number.to_be_bytes())?;
    Ok(())
}

fn push_text(bytes: &mut Vec<u8>, text: &str) -> Result<(), AllocError> {
    bytes.extend_from_slice(&u16::try_from(text.len()).unwrap_or(u16::MAX).to_be_bytes())?;
    bytes.extend_from_slice(text.as_bytes())?;
    Ok(())
}

fn push_zeros(bytes: &mut Vec<u8>, count: u16) -> Result<(), AllocError> {
    for _ in 0..count {
        bytes.push(0)?;
    }
    Ok(())
}

fn push_tick(bytes: &mut Vec<u8>, x: i32, due: i32) -> Result<(), AllocError> {
    push_head(bytes, 8, "i")?;
    push_text(bytes, "minecraft:flowing_water")?;
    for (name, value) in [("x", x), ("y", 0), ("z", -32), ("t", due), ("p", 0)] {
        push_head(bytes, 3, name)?;
        push_number(bytes, value)?;
    }
    bytes.push(0)?;
    Ok(())
}

fn push(bytes: &mut Vec<u8>, part: Part) -> Result<(), AllocError> {
    match part {
        Part::Byte(name, value) => {
            push_head(bytes, 1, name)?;
            bytes.push(value)?;
        }
        Part::Int(name, value) => {
            push_head(bytes, 3, name)?;
            push_number(bytes, value)?;
        }
        Part::Long(name) => {
            push_head(bytes, 4, name)?;
            push_zeros(bytes, 8)?;
        }
        Part::Text(name, value) => {
            push_head(bytes, 8, name)?;
            push_text(bytes, value)?;
        }
        Part::List(name, element, count) => {
            push_head(bytes, 9, name)?;
            bytes.push(element)?;
            push_number(bytes, count)?;
        }
        Part::Compound(name) => push_head(bytes, 10, name)?,
        Part::Bytes(name, count) => {
            push_head(bytes, 7, name)?;
            push_number(bytes, i32::from(count))?;
            push_zeros(bytes, count)?;
        }
        Part::Ints(name) => {
            push_head(bytes, 11, name)?;
            push_number(bytes, 0)?;
        }
        Part::Element(value) => push_number(bytes, value)?,
        Part::Tick(x, due) => push_tick(bytes, x, due)?,
        Part::End => bytes.push(0)?,
    }
    Ok(())
}

/// More parts of a document.
pub fn push_all(bytes: &mut Vec<u8>, parts: &[Part]) -> Result<(), AllocError> {
    for part in parts {
        push(bytes, *part)?;
    }
    Ok(())
}

/// The root of these parts, which has no name.
pub fn document(alloc: Global, parts: &[Part]) -> Result<Vec<u8>, AllocError> {
    let mut bytes = Vec::from_slice(alloc, b"\x0a\x00\x00")?;
    push_all(&mut bytes, parts)?;
    Ok(bytes)
}

/// The region of the chunk (-1, -1) alone, in all the sectors that a chunk can have, with that payload.
pub fn region(alloc: Global, payload: &[u8]) -> Result<Vec<u8>, AllocError> {
    let mut file = vec![in alloc; 0u8; 4092]?;
    file.extend_from_slice(&[0, 0, 2, 255])?;
    file.resize(8192, 0)?;
    let length = u32::try_from(payload.len()).unwrap_or(u32::MAX);
    file.extend_from_slice(&length.saturating_add(1).to_be_bytes())?;
    file.push(3)?;
    file.extend_from_slice(payload)?;
    Ok(file)
}

/// The fault of chunk (-1, -1) with that payload.
pub fn fault_of(alloc: Global, payload: &[u8]) -> Result<Option<Fault>, AllocError> {
    let file = region(alloc, payload)?;
    let region = RegionPos { x: -1, z: -1 };
    let pos = Pos {
        x: -1,
        y: 64,
        z: -1,
    };
    Ok(block_at(alloc, &file, region, pos, Height::game()).err())
}

/// The root of these parts is refused with this fault, or read where there is none.
fn expect(
    rt: &impl Abort,
    alloc: Global,
    parts: &[Part],
    want: Option<&Fault>,
) -> Result<(), AllocError> {
    let payload = document(alloc, parts)?;
    let fault = fault_of(alloc, &payload)?;
    expect_equal(rt, fault.as_ref(), want);
    Ok(())
}

/// The root of these parts is refused with this fault.
pub fn expect_fault(
    rt: &impl Abort,
    alloc: Global,
    parts: &[Part],
    want: &Fault,
) -> Result<(), AllocError> {
    expect(rt, alloc, parts, Some(want))
}

/// The root of these parts is read.
pub fn expect_read(rt: &impl Abort, alloc: Global, parts: &[Part]) -> Result<(), AllocError> {
    expect(rt, alloc, parts, None)
}
