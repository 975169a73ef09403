//! Bytes of a board and half bytes of light.
ghost use Rattle.std.specs.Prelude.{◌≡◌, ◌≤◌, ◌<◌, ◌+◌, ◌-◌, ◌*◌, ◌/◌, ◌%◌, ℕ, true, false, vec_len, length, IfOk, OnOk, slice_index, slice_index_or};
ghost use Rattle.av_flood.specs.Offsets.{away, apart};
ghost use Rattle.av_flood.specs.Quiet.{IsQuiet, IsFenced, AreDark};
ghost use Rattle.av_flood.specs.Board.{HasLightSoFar};

use std::alloc::{AllocError, Global};

/// How many blocks of a board lie in a row.
pub(crate) const ROW: usize = 44;

/// How many blocks of a board lie in a layer.
pub(crate) const LAYER: usize = 1936;

/// The byte of a block that light was brought to, and of what is beside the board: no light is better.
pub(crate) const SEEN: u8 = 64;

/// How far from the chunk's sixteen one of the board's forty-four blocks along x or z is.
fn away(steps: u8) -> u8
    requires { steps < 44 }
    ensures { result ≡ away steps }
{
    14u8.saturating_sub(steps) + steps.saturating_sub(29)
}

/// Sets the bytes of a row to how far its blocks are from the chunk.
fn set_row(layer: &mut [u8; 1936], z: u8)
    requires z { z < 44 }
    ensures here { (x : ℕ) → x < 44 → slice_index layer.new (44 * z + x) ≡ apart (44 * z + x) }
    ensures others { (i : ℕ) → i < 44 * z → slice_index layer.new i ≡ slice_index layer.old i }
{
    for x in 0..44u8 {
        layer[ROW * z as usize + x as usize] = away(z) + away(x);
    }
}

/// The bytes of a layer in which none was touched: how far each block is from the chunk. No light of so much or less
/// reaches the chunk from there.
pub(crate) fn dark_layer() -> [u8; 1936]
    ensures count { length result ≡ 1936 }
    ensures bytes { (i : ℕ) → i < 1936 → slice_index result i ≡ apart i }
{
    let mut layer = [0; 1936];
    for z in 0..44u8 {
        set_row(&mut layer, z);
    }
    layer
}

/// The bytes of a board of so many layers in which none was touched, between two layers of no blocks.
pub(crate) fn dark_bytes(alloc: Global, layers: usize) -> Result<Vec<u8>, AllocError>
    requires { layers ≤ 1024 }
    ensures long { IfOk result (λ light. vec_len light ≡ 1936 * layers + 3872) }
    ensures dark { IfOk result (λ light. AreDark layers light.items) }
{
    let dark = dark_layer();
    let size = LAYER * (layers + 2);
    let mut light = Vec::with_capacity(alloc, size)?;
    light.resize(LAYER, SEEN)?;
    for _layer in 0..layers {
        light.extend_from_slice(dark.as_slice())?;
    }
    light.resize(size, SEEN)?;
    Ok(light)
}

/// Makes the bytes of a layer dark, if any was touched.
pub(crate) fn clear(light: &mut Vec<u8>, touched: &mut Vec<bool>, layer: usize, dark: &[u8])
    requires long { vec_len light.old ≡ 1936 * vec_len touched.old + 3872 }
    requires layer { layer < vec_len touched.old }
    requires count { length dark.now ≡ 1936 }
    requires dark { (i : ℕ) → i < 1936 → slice_index dark.now i ≡ apart i }
    requires quiet { IsQuiet touched.old.items light.old.items }
    requires fenced { IsFenced (1936 * vec_len touched.old + 1936) light.old.items }
    ensures light { vec_len light.new ≡ vec_len light.old }
    ensures touched { vec_len touched.new ≡ vec_len touched.old }
    ensures quiet { IsQuiet touched.new.items light.new.items }
    ensures fenced { IsFenced (1936 * vec_len touched.old + 1936) light.new.items }
    ensures here { slice_index_or touched.new.items layer true ≡ false }
    ensures others { (s : ℕ) → slice_index_or touched.old.items s true ≡ false
        → slice_index_or touched.new.items s true ≡ false }
{
    if !touched[layer] {
        return;
    }
    let start = LAYER * (layer + 1);
    light.as_mut_slice()[start..start + LAYER].copy_from_slice(dark);
    touched[layer] = false;
}

/// Appends the light of a layer in which all is dark.
pub(crate) fn push_dark(bytes: &mut Vec<u8>) -> Result<(), AllocError>
    requires { vec_len bytes.old ≤ 131072 }
    ensures count { OnOk result (vec_len bytes.new ≡ vec_len bytes.old + 128) }
    ensures halves { OnOk result ((light : ℕ → ℕ) → HasLightSoFar light bytes.old.items
        → ((j : ℕ) → 2 * vec_len bytes.old ≤ j → j < 2 * vec_len bytes.old + 256 → light j ≡ 0) → HasLightSoFar light bytes.new.items) }
{
    let length = bytes.len() + 128;
    bytes.resize(length, 0)?;
    Ok(())
}

/// The light of two blocks in one byte, that of the first in its low half.
pub(crate) fn two_halves(first: u8, second: u8) -> u8
    requires first { first < 144 }
    requires second { second < 144 }
    ensures low { result % 16 ≡ first - 128 }
    ensures high { result / 16 ≡ second - 128 }
{
    first.saturating_sub(128) + 16 * second.saturating_sub(128)
}

/// Puts a row of sixteen bytes in its place of a layer of the chunk.
pub(crate) fn put_row(layer: &mut [u8; 256], z: usize, row: &[u8])
    requires z { z < 16 }
    requires length { length row.now ≡ 16 }
    ensures here { (x : ℕ) → x < 16 → slice_index layer.new (16 * z + x) ≡ slice_index row.now x }
    ensures others { (i : ℕ) → i < 16 * z → slice_index layer.new i ≡ slice_index layer.old i }
{
    layer[16 * z..16 * z + 16].copy_from_slice(row);
}

/// The light of a layer of the chunk, two blocks in each byte. A whole layer at once, so that many are done in one step.
pub(crate) fn halves(layer: &[u8; 256]) -> [u8; 128]
    requires { (j : ℕ) → j < 256 → slice_index layer.now j < 144 }
    ensures count { length result ≡ 128 }
    ensures low { (k : ℕ) → k < 128 → slice_index result k % 16
        ≡ slice_index layer.now (2 * k) - 128 }
    ensures high { (k : ℕ) → k < 128 → slice_index result k / 16
        ≡ slice_index layer.now (2 * k + 1) - 128 }
{
    let mut halves = [0; 128];
    for pair in 0..128 {
        halves[pair] = two_halves(layer[2 * pair], layer[2 * pair + 1]);
    }
    halves
}
