//! Region files of flat chunks, byte for byte as they are written: stone at y 63, and air elsewhere, but for some blocks.
use av_types::{ChunkPos, Height, Place, Pos, SectionPos};
use std::alloc::{AllocError, Global};

/// What stands at a block.
#[derive(Clone, Copy, PartialEq, Eq, Drop)]
pub enum Block {
    Air,
    Stone,
    Glowstone,
    /// Of a level from 0 to 8.
    Water(u8),
}

/// An entry of water: its block, the ticks until it is due, and whether a source stands there.
pub type Waiting = (Pos, i32, bool);

/// The flat world with other blocks and with entries.
#[derive(Clone, Copy, Drop)]
pub struct Flat<'a> {
    pub height: Height,
    pub blocks: &'a [(Pos, Block)],
    pub entries: &'a [Waiting],
}

/// A text behind its length.
fn push_text(bytes: &mut Vec<u8>, text: &str) -> Result<(), AllocError> {
    bytes.extend_from_slice(&u16::try_from(text.len()).unwrap_or(u16::MAX).to_be_bytes())?;
    bytes.extend_from_slice(text.as_bytes())?;
    Ok(())
}

/// The number of a tag's kind, and its name.
fn push_head(bytes: &mut Vec<u8>, kind: u8, name: &str) -> Result<(), AllocError> {
    bytes.push(kind)?;
    push_text(bytes, name)
}

fn push_int(bytes: &mut Vec<u8>, name: &str, value: i32) -> Result<(), AllocError> {
    push_head(bytes, 3, name)?;
    bytes.extend_from_slice(&value.to_be_bytes())?;
    Ok(())
}

fn push_string(bytes: &mut Vec<u8>, name: &str, value: &str) -> Result<(), AllocError> {
    push_head(bytes, 8, name)?;
    push_text(bytes, value)
}

fn push_count(bytes: &mut Vec<u8>, count: usize) -> Result<(), AllocError> {
    bytes.extend_from_slice(&u32::try_from(count).unwrap_or(u32::MAX).to_be_bytes())?;
    Ok(())
}

/// A list of so many Compounds, which come behind it.
fn push_list(bytes: &mut Vec<u8>, name: &str, count: usize) -> Result<(), AllocError> {
    push_head(bytes, 9, name)?;
    bytes.push(10)?;
    push_count(bytes, count)
}

/// So many bytes more, all zero.
pub fn push_zeros(bytes: &mut Vec<u8>, count: usize) -> Result<(), AllocError> {
    for _ in 0..count {
        bytes.push(0)?;
    }
    Ok(())
}

/// The block at a place of a section.
fn block_of(blocks: &[(Pos, Block)], at: SectionPos, place: Place) -> Block {
    for (pos, block) in blocks {
        if pos.section() == at && pos.place() == place {
            return *block;
        }
    }
    if at.y == 3 && place.index >= 3840 {
        Block::Stone
    } else {
        Block::Air
    }
}

/// The different blocks of a section, in the order of their first places.
fn palette_of(
    alloc: Global,
    blocks: &[(Pos, Block)],
    at: SectionPos,
) -> Result<Vec<Block>, AllocError> {
    let mut palette = Vec::new(alloc);
    for index in 0..4096 {
        let block = block_of(blocks, at, Place::new(index));
        if !palette.contains(&block) {
            palette.push(block)?;
        }
    }
    Ok(palette)
}

/// Where a block stands in a palette of at most 16.
fn index_in(palette: &[Block], block: Block) -> u8 {
    let index = palette.iter().position(|other| *other == block);
    u8::try_from(index.unwrap_or(0)).unwrap_or(0) & 15
}

/// The indices of a section, 4 bits for each, in longs whose last byte has the first places.
fn push_indices(
    bytes: &mut Vec<u8>,
    blocks: &[(Pos, Block)],
    at: SectionPos,
    palette: &[Block],
) -> Result<(), AllocError> {
    for long in 0..256u16 {
        for byte in 0..8u16 {
            let place = 16 * long + 2 * (7 - byte);
            let low = index_in(palette, block_of(blocks, at, Place::new(place)));
            let high = index_in(palette, block_of(blocks, at, Place::new(place + 1)));
            bytes.push(high << 4 | low)?;
        }
    }
    Ok(())
}

/// A block's entry of a palette.
fn push_state(bytes: &mut Vec<u8>, block: Block) -> Result<(), AllocError> {
    match block {
        Block::Air => push_string(bytes, "Name", "minecraft:air")?,
        Block::Stone => push_string(bytes, "Name", "minecraft:stone")?,
        Block::Glowstone => push_string(bytes, "Name", "minecraft:glowstone")?,
        Block::Water(level) => {
            push_string(bytes, "Name", "minecraft:water")?;
            push_head(bytes, 10, "Properties")?;
            push_head(bytes, 8, "level")?;
            bytes.extend_from_slice(&[0, 1, b'0' | level & 15, 0])?;
        }
    }
    bytes.push(0)?;
    Ok(())
}

/// The tag `block_states` of a section.
fn push_blocks(
    alloc: Global,
    bytes: &mut Vec<u8>,
    blocks: &[(Pos, Block)],
    at: SectionPos,
) -> Result<(), AllocError> {
    let palette = palette_of(alloc, blocks, at)?;
    push_head(bytes, 10, "block_states")?;
    push_list(bytes, "palette", palette.len())?;
    for block in &palette {
        push_state(bytes, *block)?;
    }
    if palette.len() > 1 {
        push_head(bytes, 12, "data")?;
        push_count(bytes, 256)?;
        push_indices(bytes, blocks, at, palette.as_slice())?;
    }
    bytes.push(0)?;
    Ok(())
}

/// A section up to the bytes of its light.
fn push_section(
    alloc: Global,
    bytes: &mut Vec<u8>,
    blocks: &[(Pos, Block)],
    at: SectionPos,
) -> Result<(), AllocError> {
    push_head(bytes, 1, "Y")?;
    bytes.push((at.y & 255) as u8)?;
    push_blocks(alloc, bytes, blocks, at)?;
    push_head(bytes, 7, "BlockLight")?;
    push_count(bytes, 2048)
}

/// The tags of a chunk of a status before those of its sections, which are so many.
fn push_chunk_of(
    bytes: &mut Vec<u8>,
    at: ChunkPos,
    status: &str,
    sections: usize,
) -> Result<(), AllocError> {
    push_head(bytes, 10, "")?;
    push_int(bytes, "xPos", at.x)?;
    push_int(bytes, "zPos", at.z)?;
    push_string(bytes, "Status", status)?;
    push_list(bytes, "sections", sections)
}

/// The same of a full chunk.
pub fn push_chunk(bytes: &mut Vec<u8>, at: ChunkPos, sections: usize) -> Result<(), AllocError> {
    push_chunk_of(bytes, at, "full", sections)
}

/// A tag of zeros, with which a root has so many bytes, and its end.
pub fn push_pad(bytes: &mut Vec<u8>, total: usize) -> Result<(), AllocError> {
    push_head(bytes, 7, "pad")?;
    let count = total.saturating_sub(bytes.len()).saturating_sub(5);
    push_count(bytes, count)?;
    push_zeros(bytes, count)?;
    bytes.push(0)?;
    Ok(())
}

/// An entry of water, as it is written.
fn push_entry(bytes: &mut Vec<u8>, entry: Waiting) -> Result<(), AllocError> {
    let (pos, left, source) = entry;
    let name = if source {
        "minecraft:water"
    } else {
        "minecraft:flowing_water"
    };
    push_string(bytes, "i", name)?;
    push_int(bytes, "x", pos.x)?;
    push_int(bytes, "y", pos.y)?;
    push_int(bytes, "z", pos.z)?;
    push_int(bytes, "t", left)?;
    push_int(bytes, "p", 0)?;
    bytes.push(0)?;
    Ok(())
}

/// The entries of a chunk, as the last tag of its root.
fn push_entries(bytes: &mut Vec<u8>, at: ChunkPos, entries: &[Waiting]) -> Result<(), AllocError> {
    let own = entries.iter().filter(|entry| entry.0.chunk() == at).count();
    push_list(bytes, "fluid_ticks", own)?;
    for entry in entries {
        if entry.0.chunk() == at {
            push_entry(bytes, *entry)?;
        }
    }
    bytes.push(0)?;
    Ok(())
}

/// The sections of a chunk of a status below the one of that y, and that one up to the bytes of its light.
fn up_to_light_of(
    alloc: Global,
    flat: Flat<'_>,
    at: ChunkPos,
    status: &str,
    y: i32,
) -> Result<Vec<u8>, AllocError> {
    let mut bytes = Vec::new(alloc);
    push_chunk_of(&mut bytes, at, status, flat.height.sections as usize)?;
    for section in flat.height.min_section..y {
        push_section(
            alloc,
            &mut bytes,
            flat.blocks,
            SectionPos {
                x: at.x,
                y: section,
                z: at.z,
            },
        )?;
        push_zeros(&mut bytes, 2048)?;
        bytes.push(0)?;
    }
    push_section(
        alloc,
        &mut bytes,
        flat.blocks,
        SectionPos {
            x: at.x,
            y,
            z: at.z,
        },
    )?;
    Ok(bytes)
}

/// The same of a full chunk.
pub fn up_to_light(
    alloc: Global,
    flat: Flat<'_>,
    at: ChunkPos,
    y: i32,
) -> Result<Vec<u8>, AllocError> {
    up_to_light_of(alloc, flat, at, "full", y)
}

/// A chunk of a status, without light.
pub fn chunk_of(
    alloc: Global,
    flat: Flat<'_>,
    at: ChunkPos,
    status: &str,
) -> Result<Vec<u8>, AllocError> {
    let last = flat.height.min_section + flat.height.sections as i32 - 1;
    let mut bytes = up_to_light_of(alloc, flat, at, status, last)?;
    push_zeros(&mut bytes, 2048)?;
    bytes.push(0)?;
    push_entries(&mut bytes, at, flat.entries)?;
    Ok(bytes)
}

/// A full chunk without light.
pub fn chunk(alloc: Global, flat: Flat<'_>, at: ChunkPos) -> Result<Vec<u8>, AllocError> {
    chunk_of(alloc, flat, at, "full")
}

/// How many sectors a payload takes, with its length and its type.
fn sectors_of(payload: &[u8]) -> u32 {
    let whole = u32::try_from(payload.len()).unwrap_or(0) / 4096;
    let over = payload.len() % 4096;
    if over <= 4091 { whole + 1 } else { whole + 2 }
}

/// A region that has these payloads from index 0 on, and the stamp 7 at each index.
pub fn region(alloc: Global, payloads: &[Vec<u8>]) -> Result<Vec<u8>, AllocError> {
    let mut bytes = Vec::new(alloc);
    let mut next = 2u32;
    for payload in payloads {
        let sectors = sectors_of(payload.as_slice());
        bytes.extend_from_slice(&(next << 8 | sectors & 255).to_be_bytes())?;
        next = next.saturating_add(sectors);
    }
    bytes.resize(4096, 0)?;
    for _ in 0..1024 {
        bytes.extend_from_slice(&[0, 0, 0, 7])?;
    }
    for payload in payloads {
        push_count(&mut bytes, payload.len().saturating_add(1))?;
        bytes.push(3)?;
        bytes.extend_from_slice(payload.as_slice())?;
        let over = bytes.len() % 4096;
        push_zeros(&mut bytes, (4096 - over) % 4096)?;
    }
    Ok(bytes)
}

/// The region of so many flat chunks: (0, 0), (1, 0), and so on.
pub fn flat_region(alloc: Global, flat: Flat<'_>, chunks: u64) -> Result<Vec<u8>, AllocError> {
    let mut payloads = Vec::new(alloc);
    for x in 0..chunks {
        let x = i32::try_from(x).unwrap_or(0);
        let at = ChunkPos { x, z: 0 };
        payloads.push(chunk(alloc, flat, at)?)?;
    }
    region(alloc, payloads.as_slice())
}
