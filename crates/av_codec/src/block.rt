//! One block of a region file.
ghost use Rattle.std.specs.Prelude.{◌≡◌, ◌≤◌, ◌<◌, IfOk, IfErr, option_map, length, slice_get, Some, true};
ghost use Rattle.av_types.specs.Positions.{is_block_of};
ghost use Rattle.av_state.specs.States.{state_of};
ghost use Rattle.av_state.specs.Table.{states};
ghost use Rattle.av_chunk.specs.Views.{number_in};
ghost use Rattle.av_chunk.specs.Reading.{HasAllSections};
ghost use Rattle.av_codec.specs.Block.{is_of_region, IsFound, IsBlockRefused, IsDenoted, IsPayloadRefused, IsNumbered, found_in};

use crate::index::section_index;
use crate::payload::read_payload;
use av_chunk::{Chunk, Reading};
use av_region::Region;
use av_state::{State, StateTable};
use av_types::{Fault, Height, Pos, RegionPos};
use std::alloc::{AllocError, Global};

/// Whether a position is one of a region.
fn is_of_region(region: RegionPos, pos: Pos) -> bool
    ensures { result ≡ is_of_region region pos }
{
    pos.chunk().region() == region
}

/// Whether a block at that y is in the height.
fn is_in_height(height: Height, y: i32) -> bool
    ensures { result ≡ is_block_of height y }
{
    height.has_block(y)
}

/// The number of a block's state. The block is in the height.
fn number_in(chunk: &Chunk, pos: Pos, height: Height) -> Option<u16>
    requires inside { is_block_of height pos.y ≡ true }
    requires count { length chunk.now.sections.items ≡ height.sections }
    ensures { result ≡ number_in height chunk.now pos }
{
    match &chunk.sections[section_index(height, pos.section().y)] {
        None => None,
        Some(section) => Some(section.get(pos.place())),
    }
}

/// A copy of the state of a number.
fn state_of_number(table: &StateTable, number: u16) -> Result<State, AllocError>
    requires { number < length (states table.now) }
    ensures { IfOk result (λ s. slice_get (states table.now) number ≡ Some (state_of s)) }
{
    table.state(number).clone()
}

/// The state of a block, None where that is out of the height.
fn state_in(
    chunk: &Chunk,
    table: &StateTable,
    pos: Pos,
    height: Height,
) -> Result<Option<State>, AllocError>
    requires whole { HasAllSections height chunk.now }
    requires numbered { IsNumbered (states table.now) height chunk.now pos }
    ensures { IfOk result (λ found. option_map state_of found
        ≡ found_in (states table.now) height chunk.now pos) }
{
    if !is_in_height(height, pos.y) {
        return Ok(None);
    }
    match number_in(chunk, pos, height) {
        None => Ok(None),
        Some(number) => Ok(Some(state_of_number(table, number)?)),
    }
}

/// The state of a block in the payload of its chunk. A payload has at most 1,044,475 bytes.
fn block_in_payload(
    alloc: Global,
    payload: &[u8],
    pos: Pos,
    height: Height,
) -> Result<Option<State>, Fault>
    requires { length payload.now ≤ 1044475 }
    ensures ok { IfOk result (λ found. IsDenoted payload.now height pos
        (option_map state_of found)) }
    ensures err { IfErr result (IsPayloadRefused payload.now height pos) }
{
    let mut table = StateTable::new(alloc)?;
    match read_payload(alloc, payload, pos.chunk(), height, &mut table)? {
        Reading::Kept => Ok(None),
        Reading::Full { chunk, rest: _ } => Ok(state_in(&chunk, &table, pos, height)?),
    }
}

/// The state of a block in the bytes of a region's file, or None where the position is of another region, its chunk is
/// absent or not full, or it is out of the height. Only the position's own chunk is looked at.
///
/// Refuses a header that is cut short (`ShortHeader`), and of a position of this region, whatever its y, the first fault
/// of its chunk: those of `Region::payload`, `BadNbt`, and those of `read_chunk`. The chunk's states are numbered alone.
pub fn block_at(
    alloc: Global,
    bytes: &[u8],
    region: RegionPos,
    pos: Pos,
    height: Height,
) -> Result<Option<State>, Fault>
    ensures ok { IfOk result (λ found. IsFound bytes.now region height pos
        (option_map state_of found)) }
    ensures err { IfErr result (IsBlockRefused bytes.now region height pos) }
{
    let file = Region::read(bytes)?;
    if !is_of_region(region, pos) {
        return Ok(None);
    }
    match file.payload(pos.chunk().index())? {
        None => Ok(None),
        Some(payload) => block_in_payload(alloc, payload, pos, height),
    }
}
