//! The columns of a chunk, seen from above. A column's blocks are counted from the lowest of the height, and the columns of a
//! chunk from the north-west, row by row.
ghost use Rattle.std.specs.Prelude.{◌≡◌, ◌≤◌, ◌<◌, ◌+◌, ◌*◌, ◌%◌, ℕ, get_or, length, map, slice_index, IfOk, IfSome, Some, true};
ghost use Rattle.std.specs.List.{range_with_len};
ghost use Rattle.av_map.specs.Columns.{block_sight, depth_in, light_sight, sight_at, top_in};
ghost use Rattle.av_map.specs.Sections.{air_look, level_at, look_at, section_look, sight_by};
ghost use Rattle.av_map.specs.Light.{level_in};
ghost use Rattle.av_map.specs.Arrays.{arrays_of};

use crate::colour::Colour;
use crate::look::Look;
use crate::sight::Sight;
use crate::view::View;
use av_pack::nibble;
use av_section::Section;
use av_types::Place;
use std::alloc::{AllocError, Global};

/// A chunk in memory: its sections, the lowest first, what the blocks of each number show, and the sections' arrays of light
/// where the light is drawn.
#[derive(Clone, Copy)]
pub(crate) struct Seen<'a> {
    pub sections: &'a [Option<Section>],
    pub looks: &'a [Look],
    pub lights: &'a [Option<Vec<u8>>],
}

/// What the blocks of a number show.
fn look_of_number(looks: &[Look], number: u16) -> Look
    ensures { result ≡ get_or looks.now number air_look }
{
    match looks.get(usize::from(number)) {
        Some(look) => *look,
        None => Look::AIR,
    }
}

/// Where a column's block stands in its section.
fn place_in(column: usize, block: usize) -> Place
    requires { column < 256 }
    ensures { result.index ≡ 256 * (block % 16) + column }
{
    Place::new((256 * (block % 16) + column) as u16)
}

/// What the block at a place of a section shows.
fn section_look(looks: &[Look], section: &Option<Section>, place: Place) -> Look
    ensures { result ≡ section_look looks.now section.now place.index }
{
    match section {
        Some(section) => look_of_number(looks, section.get(place)),
        None => Look::AIR,
    }
}

/// Whether all numbers of a palette are air.
fn are_air(looks: &[Look], palette: &[u16]) -> bool
    ensures { result ≡ true → (k : ℕ) → k < length palette.now
        → (get_or looks.now (slice_index palette.now k) air_look).is_air ≡ true }
{
    for number in palette {
        if !look_of_number(looks, *number).is_air {
            return false;
        }
    }
    true
}

/// Whether a section has nothing but air, by its palette alone.
fn is_all_air(looks: &[Look], section: &Option<Section>) -> bool
    ensures { result ≡ true → (place : ℕ) → place < 4096
        → (section_look looks.now section.now place).is_air ≡ true }
{
    match section {
        Some(section) => are_air(looks, section.parts().0),
        None => true,
    }
}

/// The level at a place of an array.
fn level_in(bytes: &[u8], place: Place) -> u8
    ensures value { result ≡ level_in (Some bytes.now) place.index }
    ensures bound { result ≤ 15 }
{
    if bytes.len() != 2048 {
        return 0;
    }
    nibble(bytes, place)
}

impl Seen<'_> {
    /// What a column's block shows.
    fn look_at(&self, column: usize, block: usize) -> Look
        requires { column < 256 }
        ensures { result ≡ look_at self.now.sections.now self.now.looks.now column block }
    {
        match self.sections.get(block / 16) {
            Some(section) => section_look(self.looks, section, place_in(column, block)),
            None => Look::AIR,
        }
    }

    /// The light of a column's block.
    fn level_at(&self, column: usize, block: usize) -> u8
        requires { column < 256 }
        ensures value { result ≡ level_at (arrays_of self.now.lights.now) column block }
        ensures bound { result ≤ 15 }
    {
        match self.lights.get(block / 16) {
            Some(Some(bytes)) => level_in(bytes.as_slice(), place_in(column, block)),
            _ => 0,
        }
    }

    /// Above which block all columns have nothing but air. Whole sections of air are passed over at once.
    pub(crate) fn ceiling(&self) -> usize
        ensures bound { result ≤ 16 * length self.now.sections.now }
        ensures air { (column block : ℕ) → column < 256 → result ≤ block
            → (look_at self.now.sections.now self.now.looks.now column block).is_air ≡ true }
    {
        let mut count = self.sections.len();
        while count > 0 && is_all_air(self.looks, &self.sections[count - 1]) {
            count -= 1;
        }
        16 * count
    }

    /// The highest of the first blocks that is not air.
    fn top(&self, column: usize, blocks: usize) -> Option<usize>
        requires { column < 256 }
        ensures value { result ≡ top_in (look_at self.now.sections.now self.now.looks.now column)
            blocks }
        ensures bound { IfSome result (λ top. top < blocks) }
    {
        let mut block = blocks;
        while block > 0 {
            block -= 1;
            if !self.look_at(column, block).is_air {
                return Some(block);
            }
        }
        None
    }

    /// How many blocks are water from the top of the first blocks down.
    fn depth(&self, column: usize, blocks: usize) -> usize
        requires { column < 256 }
        ensures { result ≡ depth_in (look_at self.now.sections.now self.now.looks.now column)
            blocks }
    {
        let mut block = blocks;
        while block > 0 {
            if !self.look_at(column, block - 1).is_water {
                return blocks - block;
            }
            block -= 1;
        }
        blocks
    }

    /// The colour of a column's block as the top.
    fn block_colour(&self, column: usize, top: usize) -> Colour
        requires column { column < 256 }
        requires top { top < 65536 }
        ensures { result ≡ (sight_at (look_at self.now.sections.now self.now.looks.now column)
            top).colour }
    {
        let look = self.look_at(column, top);
        if look.is_water {
            look.colour.deepened(self.depth(column, top + 1))
        } else {
            look.colour
        }
    }

    /// What a column shows as the top of the first blocks.
    fn block_sight(&self, column: usize, blocks: usize) -> Option<Sight>
        requires column { column < 256 }
        requires blocks { blocks ≤ 1024 }
        ensures { result ≡ block_sight (look_at self.now.sections.now self.now.looks.now column)
            blocks }
    {
        let top = self.top(column, blocks)?;
        Some(Sight {
            top: top as u16,
            colour: self.block_colour(column, top),
            is_sloped: !self.look_at(column, top).is_water,
        })
    }

    /// The light that falls on the top of the first blocks.
    fn light_sight(&self, column: usize, blocks: usize) -> Option<Sight>
        requires column { column < 256 }
        requires blocks { blocks ≤ 1024 }
        ensures { result ≡ light_sight (look_at self.now.sections.now self.now.looks.now column)
            (level_at (arrays_of self.now.lights.now) column) blocks }
    {
        let top = self.top(column, blocks)?;
        Some(Sight {
            top: top as u16,
            colour: Colour::grey(self.level_at(column, top + 1)),
            is_sloped: false,
        })
    }

    /// What a column shows, of which all blocks from a ceiling on are air.
    fn sight(&self, view: View, column: usize, ceiling: usize) -> Option<Sight>
        requires column { column < 256 }
        requires bound { ceiling ≤ 16 * length self.now.sections.now }
        requires few { length self.now.sections.now ≤ 64 }
        requires air { (block : ℕ) → ceiling ≤ block
            → (look_at self.now.sections.now self.now.looks.now column block).is_air ≡ true }
        ensures { result ≡ sight_by view self.now.sections.now self.now.looks.now
            (arrays_of self.now.lights.now) column }
    {
        match view {
            View::Blocks => self.block_sight(column, ceiling),
            View::Light => self.light_sight(column, ceiling),
        }
    }

    /// What the 256 columns show.
    pub(crate) fn sights(&self, alloc: Global, view: View) -> Result<Vec<Option<Sight>>, AllocError>
        requires { length self.now.sections.now ≤ 64 }
        ensures { IfOk result (λ sights. sights.items
            ≡ map (sight_by view self.now.sections.now self.now.looks.now
            (arrays_of self.now.lights.now)) (range_with_len 0 256)) }
    {
        let ceiling = self.ceiling();
        let mut sights = Vec::with_capacity(alloc, 256)?;
        for column in 0..256 {
            sights.push(self.sight(view, column, ceiling))?;
        }
        Ok(sights)
    }
}
