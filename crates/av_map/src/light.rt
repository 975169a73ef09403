//! The block light of a chunk's document.
ghost use Rattle.std.specs.Prelude.{◌≡◌, [], option_map, IfOk};
ghost use Rattle.std.specs.Option.{option_copied};
ghost use Rattle.av_tags.specs.Shape.{compound_of, or_else};
ghost use Rattle.av_tags.specs.View.{document, named_views, view, views};
ghost use Rattle.av_document.specs.Chunk.{is_number, numbered, root_tags, section_number};
ghost use Rattle.av_chunk.specs.Rest.{opened};
ghost use Rattle.av_map.specs.Arrays.{arrays_of, bytes_in};
ghost use Rattle.av_map.specs.Light.{array_at, array_of, bytes_of, sections_in};
ghost use Rattle.av_map.specs.Sections.{AreLights};

use av_tags::{Named, Root, Tag, find};
use av_types::Height;
use std::alloc::{AllocError, Global};

/// The bytes of a Byte Array.
fn bytes_of(tag: &Tag) -> Option<&[u8]>
    ensures { option_copied result ≡ bytes_of (view tag.now) }
{
    match tag {
        Tag::ByteArray(bytes) => Some(bytes.as_slice()),
        _ => None,
    }
}

/// The array of light of a section's tags.
fn array_of(tags: &[Named]) -> Option<&[u8]>
    ensures { option_copied result ≡ array_of (named_views tags.now) }
{
    bytes_of(find(tags, b"BlockLight")?)
}

/// The number of a section's tags.
fn number_of(tags: &[Named]) -> Option<i8>
    ensures { result ≡ section_number (named_views tags.now) }
{
    find(tags, b"Y")?.as_byte()
}

/// Whether a section has that number.
fn is_number(y: i32, number: Option<i8>) -> bool
    ensures { result ≡ is_number y number }
{
    match number {
        Some(number) => y == i32::from(number),
        None => false,
    }
}

/// The tags of a Compound, or none of another tag.
fn members(tag: &Tag) -> &[Named]
    ensures { named_views result.now ≡ or_else [] (compound_of (view tag.now)) }
{
    tag.as_members().unwrap_or(&[])
}

/// The tags of the section of a number.
fn section_of(sections: &[Tag], y: i32) -> Option<&[Named]>
    ensures { option_map named_views (option_copied result)
        ≡ numbered y (opened (views sections.now)) }
{
    for section in sections {
        let tags = members(section);
        if is_number(y, number_of(tags)) {
            return Some(tags);
        }
    }
    None
}

/// The tags of the List `sections`, or none.
fn sections_of(tags: &[Named]) -> &[Tag]
    ensures { views result.now ≡ sections_in (named_views tags.now) }
{
    match find(tags, b"sections") {
        Some(tag) => tag.as_items().unwrap_or(&[]),
        None => &[],
    }
}

/// The array of light of the section of a number.
fn light_array(sections: &[Tag], y: i32) -> Option<&[u8]>
    ensures { option_copied result ≡ array_at (views sections.now) y }
{
    array_of(section_of(sections, y)?)
}

/// A copy of it.
fn copied(alloc: Global, bytes: Option<&[u8]>) -> Result<Option<Vec<u8>>, AllocError>
    ensures { IfOk result (λ copy. bytes_in copy ≡ option_copied bytes.entry) }
{
    match bytes {
        Some(bytes) => Ok(Some(Vec::from_slice(alloc, bytes)?)),
        None => Ok(None),
    }
}

/// The arrays of light of the sections of a height, the lowest first.
pub(crate) fn lights(
    alloc: Global,
    root: &Root,
    height: Height,
) -> Result<Vec<Option<Vec<u8>>>, AllocError>
    ensures { IfOk result (λ lights. AreLights (root_tags (document root.now)) height
        (arrays_of lights.items)) }
{
    let sections = sections_of(root.tags.as_slice());
    let mut lights = Vec::new(alloc);
    for index in 0..height.sections {
        let y = height.min_section + index as i32;
        lights.push(copied(alloc, light_array(sections, y))?)?;
    }
    Ok(lights)
}
