//! Documents from pieces of bytes.
use std::alloc::{AllocError, Global};

/// A piece of a document.
#[derive(Clone, Copy, Drop)]
pub(crate) enum Piece<'a> {
    Bytes(&'a [u8]),
    /// `Y`, which is a section's number.
    Number(u8),
    /// 256 longs, from the first one and the byte that all others are made of.
    Longs([u8; 8], u8),
    /// `BlockLight` of 2,048 bytes that are all the same.
    Light(u8),
    /// A tick of a fluid, with the end: the block's x, y and z, the ticks until it is due, and its priority.
    Tick(&'a [u8], [i32; 5]),
}

fn push_longs(bytes: &mut Vec<u8>, first: [u8; 8], others: u8) -> Result<(), AllocError> {
    bytes.extend_from_slice(&first)?;
    for _ in 0..255 {
        bytes.extend_from_slice(&[others; 8])?;
    }
    Ok(())
}

/// 2,048 times a byte.
pub(crate) fn push_light(bytes: &mut Vec<u8>, byte: u8) -> Result<(), AllocError> {
    for _ in 0..256 {
        bytes.extend_from_slice(&[byte; 8])?;
    }
    Ok(())
}

fn push_tick(bytes: &mut Vec<u8>, fluid: &[u8], numbers: [i32; 5]) -> Result<(), AllocError> {
    let [x, y, z, t, p] = numbers;
    bytes.extend_from_slice(fluid)?;
    for (name, number) in [(b'x', x), (b'y', y), (b'z', z), (b't', t), (b'p', p)] {
        bytes.extend_from_slice(&[3, 0, 1, name])?;
        bytes.extend_from_slice(&number.to_be_bytes())?;
    }
    bytes.extend_from_slice(&[0])
}

fn push(bytes: &mut Vec<u8>, piece: Piece) -> Result<(), AllocError> {
    match piece {
        Piece::Bytes(more) => bytes.extend_from_slice(more),
        Piece::Number(y) => bytes.extend_from_slice(&[1, 0, 1, b'Y', y]),
        Piece::Longs(first, others) => push_longs(bytes, first, others),
        Piece::Light(byte) => {
            bytes.extend_from_slice(b"\x07\x00\x0aBlockLight\x00\x00\x08\x00")?;
            push_light(bytes, byte)
        }
        Piece::Tick(fluid, numbers) => push_tick(bytes, fluid, numbers),
    }
}

/// More pieces of a document.
pub(crate) fn push_all(bytes: &mut Vec<u8>, pieces: &[Piece]) -> Result<(), AllocError> {
    for piece in pieces {
        push(bytes, *piece)?;
    }
    Ok(())
}

/// Pieces of a document, list after list.
pub(crate) fn joined(alloc: Global, lists: &[&[Piece]]) -> Result<Vec<u8>, AllocError> {
    let mut bytes = Vec::new(alloc);
    for pieces in lists {
        push_all(&mut bytes, *pieces)?;
    }
    Ok(bytes)
}
