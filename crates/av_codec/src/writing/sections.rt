//! The sections of a chunk, written.
ghost use Rattle.std.specs.Prelude.{◌≡◌, ◌<◌, ◌++◌, true, map, option_map, None, slice_index_or, IfOk, OnOk};
ghost use Rattle.std.specs.Option.{option_copied};
ghost use Rattle.av_types.specs.Positions.{is_section_of};
ghost use Rattle.av_tags.specs.View.{views, named_views};
ghost use Rattle.av_document.specs.Layout.{compound_with, kept_section};
ghost use Rattle.av_codec.specs.WritingSteps.{CanWriteSections, number_at, inside_layout, written_section, first_sections};

use crate::index::section_index;
use crate::writing::section::{kept_section, outside_section, section_tags};
use av_chunk::{Chunk, ChunkLight, ChunkRest, SectionTags};
use av_rules::Kinds;
use av_section::Section;
use av_tags::{Named, Tag};
use av_types::Height;
use std::alloc::{AllocError, Global};

/// The number of a section, by its index among all that there can be.
fn number_at(index: u16) -> i8
    requires { index < 256 }
    ensures { result ≡ number_at index }
{
    (index as i16 - 128) as i8
}

/// The section at an index, where it is not out.
pub(crate) fn section_at(chunk: &Chunk, index: usize) -> Option<&Section>
    ensures { option_copied result ≡ slice_index_or chunk.now.sections.items index None }
{
    chunk.sections.get(index)?.as_ref()
}

/// What is kept of the section at an index.
fn kept_at(rest: &ChunkRest, index: usize) -> Option<&SectionTags>
    ensures { option_copied result ≡ slice_index_or rest.now.sections.items index None }
{
    rest.sections.get(index)?.as_ref()
}

/// The tags of the section in the height that has a number.
fn inside_section(
    alloc: Global,
    chunk: &Chunk,
    rest: &ChunkRest,
    kinds: &Kinds,
    light: &ChunkLight,
    y: i8,
) -> Result<Vec<Named>, AllocError>
    requires can { CanWriteSections chunk.now rest.now kinds.now light.now }
    requires inside { is_section_of rest.now.height y ≡ true }
    ensures { IfOk result (λ tags. named_views tags.items
        ≡ inside_layout chunk.now rest.now kinds.now light.now y) }
{
    let index = section_index(rest.height, i32::from(y));
    let Some(section) = section_at(chunk, index) else {
        unreachable!()
    };
    let kept = kept_section(alloc, y, kept_at(rest, index))?;
    section_tags(
        alloc,
        kept,
        section,
        kinds.table(),
        light.section(index as u32),
    )
}

/// The tags of the section of a number, if there is one.
fn section_of(
    alloc: Global,
    chunk: &Chunk,
    rest: &ChunkRest,
    kinds: &Kinds,
    light: &ChunkLight,
    y: i8,
) -> Result<Option<Vec<Named>>, AllocError>
    requires { CanWriteSections chunk.now rest.now kinds.now light.now }
    ensures { IfOk result (λ found. option_map (λ tags. named_views tags.items) found
        ≡ written_section chunk.now rest.now kinds.now light.now y) }
{
    if rest.height.has_section(i32::from(y)) {
        let tags = inside_section(alloc, chunk, rest, kinds, light, y)?;
        Ok(Some(tags))
    } else {
        outside_section(alloc, rest.outside.as_slice(), y)
    }
}

/// A section, where there is one, after others.
fn push_section(sections: &mut Vec<Tag>, tags: Option<Vec<Named>>) -> Result<(), AllocError>
    ensures { OnOk result (views sections.new.items
        ≡ views sections.old.items ++ map compound_with
        (kept_section (option_map (λ t. named_views t.items) tags))) }
{
    if let Some(tags) = tags {
        sections.push(Tag::compound(tags))?;
    }
    Ok(())
}

/// All sections, from the lowest number that there can be to the highest.
pub(crate) fn all_sections(
    alloc: Global,
    chunk: &Chunk,
    rest: &ChunkRest,
    kinds: &Kinds,
    light: &ChunkLight,
) -> Result<Vec<Tag>, AllocError>
    requires { CanWriteSections chunk.now rest.now kinds.now light.now }
    ensures { IfOk result (λ sections. views sections.items
        ≡ first_sections chunk.now rest.now kinds.now light.now 256) }
{
    let mut sections = Vec::new(alloc);
    for index in 0..256u16 {
        let tags = section_of(alloc, chunk, rest, kinds, light, number_at(index))?;
        push_section(&mut sections, tags)?;
    }
    Ok(sections)
}
