//! One section of a chunk, written.
ghost use Rattle.std.specs.Prelude.{◌≡◌, ◌<◌, length, [], ◌++◌, option_map, IfOk};
ghost use Rattle.std.specs.Option.{option_copied};
ghost use Rattle.av_tags.specs.Nbt.{byte};
ghost use Rattle.av_tags.specs.View.{view, named_views};
ghost use Rattle.av_state.specs.Table.{states};
ghost use Rattle.av_section.specs.Section.{HasNumbersBelow, section_states};
ghost use Rattle.av_document.specs.Layout.{data_tags, states_layout};
ghost use Rattle.av_chunk.specs.Rest.{tags_of, missing, section_or_missing, found_outside};
ghost use Rattle.av_codec.specs.WritingSteps.{section_with};

use crate::writing::build::{appended, copied, joined, tagged};
use av_chunk::{OutsideSection, SectionTags};
use av_section::Section;
use av_state::StateTable;
use av_tags::{Named, Tag};
use std::alloc::{AllocError, Global};

/// The packed indices, where there are any, after other tags.
fn with_data(alloc: Global, tags: Vec<Named>, packed: Option<Tag>) -> Result<Vec<Named>, AllocError>
    ensures { IfOk result (λ new. named_views new.items
        ≡ named_views tags.items ++ data_tags (option_map view packed)) }
{
    match packed {
        Some(longs) => appended(alloc, tags, b"data", longs),
        None => Ok(tags),
    }
}

/// The `block_states` of a section, from its states and the other tags that were read there.
fn states_tag(
    alloc: Global,
    section: &Section,
    table: &StateTable,
    others: Vec<Named>,
) -> Result<Tag, AllocError>
    requires { HasNumbersBelow section.now (length (states table.now)) }
    ensures { IfOk result (λ tag. view tag ≡ states_layout (named_views others.items)
        (section_states (states table.now) section.now)) }
{
    let (palette, packed) = section.write(alloc, table).map_err(|_| AllocError)?;
    let tags = appended(alloc, Vec::new(alloc), b"palette", palette)?;
    let tags = with_data(alloc, tags, packed)?;
    Ok(Tag::compound(joined(tags, others)?))
}

/// What is kept of a section that is missing.
fn missing_section(alloc: Global, y: i8) -> Result<SectionTags, AllocError>
    ensures { IfOk result (λ kept. tags_of kept ≡ missing y) }
{
    let tags = appended(alloc, Vec::new(alloc), b"Y", Tag::byte(y))?;
    let tags = tagged(alloc, tags, b"block_states", Tag::byte(0))?;
    let tags = tagged(alloc, tags, b"BlockLight", Tag::byte(0))?;
    Ok(SectionTags {
        tags,
        states: Vec::new(alloc),
    })
}

/// A copy of what a section keeps.
pub(crate) fn kept_section(
    alloc: Global,
    y: i8,
    kept: Option<&SectionTags>,
) -> Result<SectionTags, AllocError>
    ensures { IfOk result (λ copy. tags_of copy ≡ section_or_missing y (option_copied kept.entry)) }
{
    match kept {
        None => missing_section(alloc, y),
        Some(section) => Ok(SectionTags {
            tags: copied(alloc, section.tags.as_slice())?,
            states: copied(alloc, section.states.as_slice())?,
        }),
    }
}

/// The tags of a section in the height.
pub(crate) fn section_tags(
    alloc: Global,
    kept: SectionTags,
    section: &Section,
    table: &StateTable,
    light: &[u8],
) -> Result<Vec<Named>, AllocError>
    requires { HasNumbersBelow section.now (length (states table.now)) }
    ensures { IfOk result (λ tags. named_views tags.items
        ≡ section_with (tags_of kept) (section_states (states table.now) section.now) light.now) }
{
    let SectionTags {
        tags,
        states: others,
    } = kept;
    let states = states_tag(alloc, section, table, others)?;
    let tags = tagged(alloc, tags, b"block_states", states)?;
    let light = Tag::byte_array(Vec::from_slice(alloc, light)?);
    tagged(alloc, tags, b"BlockLight", light)
}

/// The first kept section out of the height that has a number.
fn find_outside(outside: &[OutsideSection], y: i8) -> Option<&[Named]>
    ensures { option_map named_views (option_copied result) ≡ found_outside y outside.now }
{
    for section in outside {
        if section.y == y {
            return Some(section.tags.as_slice());
        }
    }
    None
}

/// A copy of the section out of the height that has a number.
pub(crate) fn outside_section(
    alloc: Global,
    outside: &[OutsideSection],
    y: i8,
) -> Result<Option<Vec<Named>>, AllocError>
    ensures { IfOk result (λ found. option_map (λ tags. named_views tags.items) found
        ≡ found_outside y outside.now) }
{
    match find_outside(outside, y) {
        None => Ok(None),
        Some(tags) => Ok(Some(copied(alloc, tags)?)),
    }
}
