//! Region files of chunks that are full, by hand.
use std::alloc::{AllocError, Global};

/// A section: a palette of so many states, and so many longs of zeros as its indices. A state is named by four letters,
/// of which the first is that of its palette, and has no properties.
#[derive(Clone, Copy)]
pub(crate) struct Layer {
    pub(crate) letter: u8,
    pub(crate) states: u16,
    pub(crate) longs: u16,
}

/// One of the 16 letters from `a` on.
fn letter(number: u16) -> u8 {
    b'a' + (number % 16) as u8
}

fn add_state(bytes: &mut Vec<u8>, first: u8, number: u16) -> Result<(), AllocError> {
    bytes.extend_from_slice(b"\x08\0\x04Name\0\x04")?;
    bytes.push(first)?;
    bytes.push(letter(number / 256))?;
    bytes.push(letter(number / 16))?;
    bytes.push(letter(number))?;
    bytes.extend_from_slice(b"\0")
}

fn add_palette(bytes: &mut Vec<u8>, first: u8, states: u16) -> Result<(), AllocError> {
    bytes.extend_from_slice(b"\x09\0\x07palette\x0a\0\0")?;
    bytes.extend_from_slice(&states.to_be_bytes())?;
    for number in 0..states {
        add_state(bytes, first, number)?;
    }
    Ok(())
}

fn add_longs(bytes: &mut Vec<u8>, longs: u16) -> Result<(), AllocError> {
    bytes.extend_from_slice(b"\x0c\0\x04data\0\0")?;
    bytes.extend_from_slice(&longs.to_be_bytes())?;
    for _ in 0..longs {
        bytes.extend_from_slice(&[0; 8])?;
    }
    Ok(())
}

fn add_section(bytes: &mut Vec<u8>, y: u8, layer: &Layer) -> Result<(), AllocError> {
    bytes.extend_from_slice(b"\x01\0\x01Y")?;
    bytes.push(y)?;
    bytes.extend_from_slice(b"\x0a\0\x0cblock_states")?;
    add_palette(bytes, layer.letter, layer.states)?;
    add_longs(bytes, layer.longs)?;
    bytes.extend_from_slice(b"\0\0")
}

/// The chunk at (x, 0), with its sections from 0 upward.
fn payload(alloc: Global, x: u8, layers: &[Layer]) -> Result<Vec<u8>, AllocError> {
    let mut bytes = Vec::from_slice(alloc, b"\x0a\0\0\x03\0\x04xPos\0\0\0")?;
    bytes.push(x)?;
    bytes.extend_from_slice(b"\x03\0\x04zPos\0\0\0\0\x08\0\x06Status\0\x04full")?;
    bytes.extend_from_slice(b"\x09\0\x08sections\x0a\0\0\0")?;
    bytes.push((layers.len() % 256) as u8)?;
    let mut y = 0u8;
    for layer in layers {
        add_section(&mut bytes, y, layer)?;
        y = y.wrapping_add(1);
    }
    bytes.push(0)?;
    Ok(bytes)
}

/// Puts the chunk at index x behind those before it: each has 254 sectors, from the third on.
pub(crate) fn add_chunk(
    alloc: Global,
    file: &mut Vec<u8>,
    x: u8,
    layers: &[Layer],
) -> Result<(), AllocError> {
    let payload = payload(alloc, x, layers)?;
    let start = 8192 + 1_040_384 * usize::from(x);
    file.resize(start, 0)?;
    let entry = 4 * usize::from(x);
    let [high, low] = (2 + 254 * u16::from(x)).to_be_bytes();
    file[entry + 1] = high;
    file[entry + 2] = low;
    file[entry + 3] = 254;
    let length = (payload.len() % 1_048_576) as u32 + 1;
    file.extend_from_slice(&length.to_be_bytes())?;
    file.push(3)?;
    file.extend_from_slice(payload.as_slice())?;
    file.resize(start + 1_040_384, 0)
}
