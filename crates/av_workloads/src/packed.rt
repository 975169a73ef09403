//! The `block_states` of a section: its palette and its packed indices.
ghost use Rattle.std.specs.Prelude.{◌<◌, ◌≤◌};

use crate::documents::{COMPOUND, LIST, put_end, put_head, put_list, put_longs};
use crate::states::put_state;
use std::alloc::{AllocError, Global};

/// In which order a palette stands.
#[derive(Clone, Copy)]
pub(crate) enum Order {
    /// That of the first places, as it is written.
    FirstUse,
    /// The same, behind an entry that no place uses any more.
    WithSpare(u8),
    /// Backwards, as after many changes.
    Backwards,
}

/// The bits of an index into a palette of so many entries.
pub(crate) fn bits_of(count: usize) -> u32
    ensures low { 4 ≤ result }
    ensures high { result ≤ 12 }
{
    for bits in 4..12u32 {
        if count <= 1 << bits {
            return bits;
        }
    }
    12
}

/// Indices in longs, from the low bits up, none across two longs.
pub(crate) fn packed(alloc: Global, indices: &[u16], bits: u32) -> Result<Vec<u64>, AllocError>
    requires low { 4 ≤ bits }
    requires high { bits ≤ 12 }
{
    let per_long = 64 / bits;
    let mut longs = Vec::with_capacity(alloc, 820)?;
    let mut long = 0u64;
    let mut filled = 0u32;
    for index in indices {
        long |= u64::from(*index) << (bits.wrapping_mul(filled) % 64);
        filled = filled.wrapping_add(1);
        if filled >= per_long {
            longs.push(long)?;
            long = 0;
            filled = 0;
        }
    }
    if filled > 0 {
        longs.push(long)?;
    }
    Ok(longs)
}

/// Each state of the cells once, in the order of its first place.
fn first_uses(alloc: Global, cells: &[u8]) -> Result<Vec<u8>, AllocError> {
    let mut seen = [false; 256];
    let mut palette = Vec::with_capacity(alloc, 256)?;
    for cell in cells {
        let known = &mut seen[usize::from(*cell)];
        if !*known {
            *known = true;
            palette.push(*cell)?;
        }
    }
    Ok(palette)
}

fn ordered(alloc: Global, cells: &[u8], order: Order) -> Result<Vec<u8>, AllocError> {
    let mut palette = first_uses(alloc, cells)?;
    match order {
        Order::FirstUse => {}
        Order::Backwards => palette.reverse(),
        Order::WithSpare(spare) => {
            if !palette.as_slice().contains(&spare) {
                palette.insert(0, spare)?;
            }
        }
    }
    Ok(palette)
}

/// Where each state stands in a palette.
fn indices_in(palette: &[u8]) -> [u16; 256] {
    let mut indices = [0; 256];
    for (index, state) in palette.iter().enumerate() {
        indices[usize::from(*state)] = (index % 4096) as u16;
    }
    indices
}

fn indices_of(alloc: Global, cells: &[u8], palette: &[u8]) -> Result<Vec<u16>, AllocError> {
    let known = indices_in(palette);
    let mut indices = Vec::with_capacity(alloc, cells.len())?;
    for cell in cells {
        indices.push(known[usize::from(*cell)])?;
    }
    Ok(indices)
}

/// The tag `block_states` of 4,096 cells.
pub(crate) fn block_states(
    alloc: Global,
    cells: &[u8],
    order: Order,
) -> Result<Vec<u8>, AllocError> {
    let palette = ordered(alloc, cells, order)?;
    let mut out = Vec::with_capacity(alloc, 8192)?;
    put_head(&mut out, COMPOUND, b"block_states")?;
    put_list(&mut out, b"palette", COMPOUND, palette.len())?;
    for state in &palette {
        put_state(&mut out, *state)?;
    }
    if palette.len() > 1 {
        let indices = indices_of(alloc, cells, palette.as_slice())?;
        let longs = packed(alloc, indices.as_slice(), bits_of(palette.len()))?;
        put_longs(&mut out, b"data", longs.as_slice())?;
    }
    put_end(&mut out)?;
    Ok(out)
}

/// The tag `biomes` of a section with one biome.
pub(crate) fn put_biomes(out: &mut Vec<u8>, name: &[u8]) -> Result<(), AllocError> {
    put_head(out, COMPOUND, b"biomes")?;
    put_head(out, LIST, b"palette")?;
    out.push(crate::documents::TEXT)?;
    crate::documents::put_count(out, 1)?;
    crate::documents::put_text(out, name)?;
    put_end(out)
}
