//! Where a world's chunks and sections are found.
ghost use Rattle.std.specs.Prelude.{◌≡◌, length, map, slice_index_or, [], option_copied};
ghost use Rattle.av_types.specs.Positions.{chunk_of_section};
ghost use Rattle.av_world.specs.Index.{slot};
ghost use Rattle.av_world.specs.Sections.{layer_at};
ghost use Rattle.av_world.specs.Views.{positions_of, grid};
ghost use Rattle.av_section_light.specs.Sections.{filling_in};

use av_section::Section;
use av_types::{ChunkPos, Height, Pos, SectionPos};
use av_world::World;

/// Where a chunk stands, and the number of chunks where it is not loaded.
pub(crate) fn slot(world: &World, at: ChunkPos) -> usize
    ensures { result ≡ slot (positions_of world.now) at }
{
    match world.index_of(at) {
        Some(index) => index,
        None => world.positions().len(),
    }
}

/// One of several lists, and an empty one beyond the last.
#[tactic(auto, using(crate::proofs::LampLists::list_within, crate::proofs::LampLists::list_past))]
pub(crate) fn list_at(lists: &[Vec<Pos>], index: usize) -> &[Pos]
    ensures { result.now ≡ slice_index_or (map (λ v. v.items) lists.now) index [] }
{
    if index >= lists.len() {
        return &[];
    }
    lists[index].as_slice()
}

/// The section at a position, of those of its chunk.
#[inline(always)]
fn layer(sections: &[Option<Section>], height: Height, at: SectionPos) -> Option<&Section>
    requires { length sections.now ≡ height.sections }
    ensures { option_copied result ≡ layer_at height sections.now at.y }
{
    if height.has_section(at.y) {
        sections[height.section_index(at.y)].as_ref()
    } else {
        None
    }
}

/// The section at a position, from where its chunk stands.
#[inline(always)]
pub(crate) fn section_in(world: &World, index: usize, at: SectionPos) -> Option<&Section>
    requires { index ≡ slot (positions_of world.now) (chunk_of_section at) }
    ensures { filling_in (option_copied result) ≡ grid world.now at }
{
    if index >= world.positions().len() {
        return None;
    }
    let chunk = world.chunk(index);
    layer(chunk.sections.as_slice(), world.height(), at)
}
