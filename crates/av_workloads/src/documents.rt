//! The bytes of named tags (<https://minecraft.wiki/w/NBT_format>), appended to others.
use std::alloc::AllocError;

/// The numbers of tags.
pub(crate) const BYTE: u8 = 1;

pub(crate) const INT: u8 = 3;

pub(crate) const LONG: u8 = 4;

pub(crate) const BYTES: u8 = 7;

pub(crate) const TEXT: u8 = 8;

pub(crate) const LIST: u8 = 9;

pub(crate) const COMPOUND: u8 = 10;

pub(crate) const LONGS: u8 = 12;

/// A text behind its length. It has less than 65,536 bytes.
pub(crate) fn put_text(out: &mut Vec<u8>, text: &[u8]) -> Result<(), AllocError> {
    let length = (text.len() % 65536) as u16;
    out.extend_from_slice(length.to_be_bytes().as_slice())?;
    out.extend_from_slice(text)
}

/// A tag's number and its name.
pub(crate) fn put_head(out: &mut Vec<u8>, number: u8, name: &[u8]) -> Result<(), AllocError> {
    out.push(number)?;
    put_text(out, name)
}

/// The end of a Compound.
pub(crate) fn put_end(out: &mut Vec<u8>) -> Result<(), AllocError> {
    out.push(0)?;
    Ok(())
}

pub(crate) fn put_byte(out: &mut Vec<u8>, name: &[u8], value: u8) -> Result<(), AllocError> {
    put_head(out, BYTE, name)?;
    out.push(value)?;
    Ok(())
}

pub(crate) fn put_int(out: &mut Vec<u8>, name: &[u8], value: i32) -> Result<(), AllocError> {
    put_head(out, INT, name)?;
    out.extend_from_slice(value.to_be_bytes().as_slice())
}

pub(crate) fn put_long(out: &mut Vec<u8>, name: &[u8], value: u64) -> Result<(), AllocError> {
    put_head(out, LONG, name)?;
    out.extend_from_slice(value.to_be_bytes().as_slice())
}

pub(crate) fn put_named_text(
    out: &mut Vec<u8>,
    name: &[u8],
    value: &[u8],
) -> Result<(), AllocError> {
    put_head(out, TEXT, name)?;
    put_text(out, value)
}

/// The number of elements of a List or an array.
pub(crate) fn put_count(out: &mut Vec<u8>, count: usize) -> Result<(), AllocError> {
    let count = (count % 0x8000_0000) as u32;
    out.extend_from_slice(count.to_be_bytes().as_slice())
}

/// A List up to its first element. An empty one has the element number 0, as the game writes it.
pub(crate) fn put_list(
    out: &mut Vec<u8>,
    name: &[u8],
    element: u8,
    count: usize,
) -> Result<(), AllocError> {
    put_head(out, LIST, name)?;
    out.push(if count == 0 { 0 } else { element })?;
    put_count(out, count)
}

pub(crate) fn put_bytes(out: &mut Vec<u8>, name: &[u8], value: &[u8]) -> Result<(), AllocError> {
    put_head(out, BYTES, name)?;
    put_count(out, value.len())?;
    out.extend_from_slice(value)
}

pub(crate) fn put_longs(out: &mut Vec<u8>, name: &[u8], value: &[u64]) -> Result<(), AllocError> {
    put_head(out, LONGS, name)?;
    put_count(out, value.len())?;
    for long in value {
        out.extend_from_slice(long.to_be_bytes().as_slice())?;
    }
    Ok(())
}
