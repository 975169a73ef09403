//! The blocks of a chunk that give light.
ghost use Rattle.std.specs.Prelude.{◌≡◌, ◌<◌, ◌≤◌, ℕ, true, false, IsTrue, IfOk, OnOk, Contains, length, slice_index_or};
ghost use Rattle.av_types.specs.Positions.{section_of, block_at};
ghost use Rattle.av_types.specs.declared.position.Pos.{Pos};
ghost use Rattle.av_pack.specs.Packing.{packed_at, longs_for};
ghost use Rattle.av_rules.specs.Kinds.{row_at};
ghost use Rattle.av_section.specs.Section.{number_at};
ghost use Rattle.av_cells.specs.Grid.{cells_of};
ghost use Rattle.av_section_light.specs.Light.{terrain_of};
ghost use Rattle.av_section_light.specs.Lamps.{IsNearSection, section_at, HasLamps};

use crate::rows::{are_shining, is_dark};
use crate::sections::Sections;
use av_flood::may_be_loaded;
use av_pack::unpack;
use av_rules::Kinds;
use av_section::Section;
use av_types::{ChunkPos, Height, Place, Pos, SectionPos};
use std::alloc::{AllocError, Global};

/// The block at a place of a section.
fn block_at(section: SectionPos, place: Place) -> Pos
    requires { IsNearSection section }
    ensures { result ≡ block_at section place.index }
{
    Pos {
        x: 16 * section.x + i32::from(place.index % 16),
        y: 16 * section.y + i32::from(place.index / 256),
        z: 16 * section.z + i32::from(place.index / 16 % 16),
    }
}

/// Appends all blocks of a section.
fn push_all(at: SectionPos, lamps: &mut Vec<Pos>) -> Result<(), AllocError>
    requires { IsNearSection at }
    ensures kept { OnOk result ((p : Pos) → Contains lamps.old.items p
        → Contains lamps.new.items p) }
    ensures all { OnOk result ((i : ℕ) → i < 4096 → Contains lamps.new.items (block_at at i)) }
{
    for index in 0..4096u16 {
        lamps.push(block_at(at, Place::new(index)))?;
    }
    Ok(())
}

/// Appends the block at a place of a section if it gives light.
fn push_lamp(
    shines: bool,
    at: SectionPos,
    place: Place,
    lamps: &mut Vec<Pos>,
) -> Result<(), AllocError>
    requires { IsNearSection at }
    ensures kept { OnOk result ((p : Pos) → Contains lamps.old.items p
        → Contains lamps.new.items p) }
    ensures lit { OnOk result (IsTrue shines → Contains lamps.new.items (block_at at place.index)) }
{
    if !shines {
        return Ok(());
    }
    lamps.push(block_at(at, place))?;
    Ok(())
}

/// Appends the blocks of a section whose index is that of a state that gives light. An index of each place is packed into
/// the longs.
fn push_shining(
    alloc: Global,
    shining: &[bool],
    longs: &[i64],
    bits: u32,
    at: SectionPos,
    lamps: &mut Vec<Pos>,
) -> Result<(), AllocError>
    requires near { IsNearSection at }
    requires low { 4 ≤ bits }
    requires high { bits ≤ 16 }
    requires below { (i : ℕ) → i < 4096 → packed_at bits longs.now i < length shining.now }
    requires count { length longs.now ≡ longs_for bits }
    ensures kept { OnOk result ((p : Pos) → Contains lamps.old.items p
        → Contains lamps.new.items p) }
    ensures lit { OnOk result ((i : ℕ) → i < 4096 → slice_index_or shining.now
        (packed_at bits longs.now i) false ≡ true → Contains lamps.new.items (block_at at i)) }
{
    let Ok(indices) = unpack(alloc, longs, bits) else {
        return Err(AllocError);
    };
    for place in 0..4096u16 {
        let index = indices[usize::from(place)];
        push_lamp(shining[usize::from(index)], at, Place::new(place), lamps)?;
    }
    Ok(())
}

/// Appends the blocks of a section that give light.
fn push_lamps(
    alloc: Global,
    kinds: &Kinds,
    section: &Section,
    at: SectionPos,
    lamps: &mut Vec<Pos>,
) -> Result<(), AllocError>
    requires { IsNearSection at }
    ensures kept { OnOk result ((p : Pos) → Contains lamps.old.items p
        → Contains lamps.new.items p) }
    ensures lit { OnOk result ((i : ℕ) → i < 4096 → 0
        < (row_at kinds.now (number_at section.now i)).emission
        → Contains lamps.new.items (block_at at i)) }
{
    if is_dark(kinds, section) {
        return Ok(());
    }
    let (palette, longs, bits) = section.parts();
    if longs.is_empty() {
        return push_all(at, lamps);
    }
    let shining = are_shining(alloc, kinds, palette)?;
    push_shining(alloc, shining.as_slice(), longs, bits, at, lamps)
}

/// A section of a chunk, by its place from the lowest up.
fn section_at(chunk: ChunkPos, height: Height, number: u32) -> SectionPos
    requires { number < height.sections }
    ensures { result ≡ section_at chunk height number }
{
    SectionPos {
        x: chunk.x,
        y: height.min_section + number as i32,
        z: chunk.z,
    }
}

/// Appends the blocks that give light of the section at a position.
fn push_lamps_at<S: Sections>(
    alloc: Global,
    sections: &S,
    kinds: &Kinds,
    at: SectionPos,
    lamps: &mut Vec<Pos>,
) -> Result<(), AllocError>
    requires { IsNearSection at }
    ensures kept { OnOk result ((p : Pos) → Contains lamps.old.items p
        → Contains lamps.new.items p) }
    ensures lit { OnOk result ((p : Pos) → section_of p ≡ at → IsTrue ((terrain_of kinds.now (cells_of (S.grid sections.now))).loaded p)
        → 0 < (terrain_of kinds.now (cells_of (S.grid sections.now))).emission p → Contains lamps.new.items p) }
{
    let Some(section) = sections.section(at) else {
        return Ok(());
    };
    push_lamps(alloc, kinds, section, at, lamps)?;
    Ok(())
}

/// Blocks of a chunk, among them each that gives light.
///
/// # Errors
/// A growth was refused.
pub fn lamps_in<S: Sections>(
    alloc: Global,
    sections: &S,
    kinds: &Kinds,
    chunk: ChunkPos,
) -> Result<Vec<Pos>, AllocError>
    ensures { IfOk result (λ lamps. HasLamps (terrain_of kinds.now (cells_of (S.grid sections.now)))
        chunk lamps.items) }
{
    let mut lamps = Vec::new(alloc);
    if !may_be_loaded(chunk) {
        return Ok(lamps);
    }
    let height = sections.height();
    for number in 0..height.sections {
        push_lamps_at(
            alloc,
            sections,
            kinds,
            section_at(chunk, height, number),
            &mut lamps,
        )?;
    }
    Ok(lamps)
}
