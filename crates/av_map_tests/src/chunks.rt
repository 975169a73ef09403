//! Region files of one chunk, by hand.
use std::alloc::{AllocError, Global};

/// A section: its number, the names of its palette, the places that have another state than the first, each with its index, and the
/// byte that its light consists of.
#[derive(Clone, Copy)]
pub(crate) struct Layer<'a> {
    pub(crate) y: u8,
    pub(crate) names: &'a [&'a [u8]],
    pub(crate) places: &'a [(u16, u8)],
    pub(crate) light: u8,
}

fn add_text(bytes: &mut Vec<u8>, text: &[u8]) -> Result<(), AllocError> {
    bytes.extend_from_slice(&((text.len() % 65536) as u16).to_be_bytes())?;
    bytes.extend_from_slice(text)
}

fn add_palette(bytes: &mut Vec<u8>, names: &[&[u8]]) -> Result<(), AllocError> {
    bytes.extend_from_slice(b"\x09\0\x07palette\x0a\0\0\0")?;
    bytes.push((names.len() % 256) as u8)?;
    for name in names {
        bytes.extend_from_slice(b"\x08\0\x04Name")?;
        add_text(bytes, *name)?;
        bytes.push(0)?;
    }
    Ok(())
}

/// The index at a place, 0 where none is given.
fn index_at(places: &[(u16, u8)], place: u16) -> u8 {
    for (known, index) in places {
        if *known == place {
            return *index;
        }
    }
    0
}

/// 256 longs of 16 indices of 4 bits, of which the first is in the lowest bits: so in each byte the second index comes first, and the
/// last byte of a long comes first.
fn add_data(bytes: &mut Vec<u8>, places: &[(u16, u8)]) -> Result<(), AllocError> {
    bytes.extend_from_slice(b"\x0c\0\x04data\0\0\x01\0")?;
    for byte in 0..2048u16 {
        let place = 16 * (byte / 8) + 2 * (7 - byte % 8);
        let low = index_at(places, place) % 16;
        let high = index_at(places, place + 1) % 16;
        bytes.push(16 * high + low)?;
    }
    Ok(())
}

fn add_light(bytes: &mut Vec<u8>, light: u8) -> Result<(), AllocError> {
    bytes.extend_from_slice(b"\x07\0\x0aBlockLight\0\0\x08\0")?;
    for _ in 0..2048 {
        bytes.push(light)?;
    }
    Ok(())
}

fn add_section(bytes: &mut Vec<u8>, layer: &Layer<'_>) -> Result<(), AllocError> {
    bytes.extend_from_slice(b"\x01\0\x01Y")?;
    bytes.push(layer.y)?;
    bytes.extend_from_slice(b"\x0a\0\x0cblock_states")?;
    add_palette(bytes, layer.names)?;
    if layer.names.len() > 1 {
        add_data(bytes, layer.places)?;
    }
    bytes.push(0)?;
    add_light(bytes, layer.light)?;
    bytes.push(0).map_err(|_| AllocError)
}

/// The chunk at (x, z), which lies from -128 to 127.
fn payload(alloc: Global, x: i8, z: i8, layers: &[Layer<'_>]) -> Result<Vec<u8>, AllocError> {
    let mut bytes = Vec::from_slice(alloc, b"\x0a\0\0\x03\0\x04xPos")?;
    bytes.extend_from_slice(&i32::from(x).to_be_bytes())?;
    bytes.extend_from_slice(b"\x03\0\x04zPos")?;
    bytes.extend_from_slice(&i32::from(z).to_be_bytes())?;
    bytes.extend_from_slice(b"\x08\0\x06Status\0\x04full\x09\0\x08sections\x0a\0\0\0")?;
    bytes.push((layers.len() % 256) as u8)?;
    for layer in layers {
        add_section(&mut bytes, layer)?;
    }
    bytes.push(0)?;
    Ok(bytes)
}

/// The file of a region with one chunk, at an index, in 8 sectors from the third on.
pub(crate) fn region(
    alloc: Global,
    index: u8,
    x: i8,
    z: i8,
    layers: &[Layer<'_>],
) -> Result<Vec<u8>, AllocError> {
    let payload = payload(alloc, x, z, layers)?;
    let mut file = vec![in alloc; 0; 4 * usize::from(index)]?;
    file.extend_from_slice(b"\0\0\x02\x08")?;
    file.resize(8192, 0)?;
    let length = (payload.len() % 32_768) as u32 + 1;
    file.extend_from_slice(&length.to_be_bytes())?;
    file.push(3)?;
    file.extend_from_slice(payload.as_slice())?;
    file.resize(40_960, 0)?;
    Ok(file)
}
