//! Palettes whose states a table knows: nearly all, after the first sections of a world. Each entry is looked up by the texts
//! of its tags, and no state is made.
ghost use Rattle.std.specs.Prelude.{◌≡◌, Some, true, length, option_map, IfOk, IfSome};
ghost use Rattle.std.specs.Option.{option_copied};
ghost use Rattle.av_tags.specs.Shape.{each};
ghost use Rattle.av_tags.specs.View.{view, views, named_view, named_views};
ghost use Rattle.av_state.specs.BlockState.{in_order};
ghost use Rattle.av_state.specs.Table.{states};
ghost use Rattle.av_state.specs.Texts.{property_told, properties_told};
ghost use Rattle.av_section.specs.Known.{IsKnown, AreKnown};
ghost use Rattle.av_section.specs.Palette.{property_in, properties_in, written_state, state_in};

use crate::palette::{NAME, PROPERTIES, are_of_entry};
use av_state::{PropertyText, StateTable};
use av_tags::{Named, Tag, find};
use std::alloc::{AllocError, Global};

/// The states that a table knows. Palettes are read by it where several threads share the table, which stays as it is.
#[derive(Drop)]
pub struct KnownStates<'a> {
    pub table: &'a StateTable,
}

/// The texts of a property's tag.
fn property_text(named: &Named) -> Option<PropertyText<'_>>
    ensures { option_map property_told result ≡ property_in (named_view named.now) }
{
    let value = named.tag().as_text()?;
    Some(PropertyText {
        key: named.name(),
        value,
    })
}

/// Puts the texts of properties in the place of others. False where a tag is no property.
fn read_texts<'a>(tags: &'a [Named], texts: &mut Vec<PropertyText<'a>>) -> Result<bool, AllocError>
    ensures { IfOk result (λ all. all ≡ true → each property_in (named_views tags.now)
        ≡ Some (properties_told texts.new.items)) }
{
    texts.clear();
    for named in tags {
        let Some(text) = property_text(named) else {
            return Ok(false);
        };
        texts.push(text)?;
    }
    Ok(true)
}

/// The same of a `Properties` tag. No tag is no properties.
fn read_properties<'a>(
    tag: Option<&'a Tag>,
    texts: &mut Vec<PropertyText<'a>>,
) -> Result<bool, AllocError>
    ensures { IfOk result (λ all. all ≡ true → properties_in
        (option_map view (option_copied tag.entry)) ≡ Some
        (in_order (properties_told texts.new.items))) }
{
    let Some(tag) = tag else {
        texts.clear();
        return Ok(true);
    };
    let Some(members) = tag.as_members() else {
        return Ok(false);
    };
    read_texts(members, texts)
}

/// The number of a palette entry's tags, where they are a state that the table knows.
fn tags_number<'a>(
    tags: &'a [Named],
    texts: &mut Vec<PropertyText<'a>>,
    table: &StateTable,
) -> Result<Option<u16>, AllocError>
    ensures { IfOk result (λ found. IfSome found (IsKnown (states table.now)
        (written_state (named_views tags.now)))) }
{
    let Some(name) = find(tags, NAME) else {
        return Ok(None);
    };
    let Some(name) = name.as_text() else {
        return Ok(None);
    };
    if !are_of_entry(tags) || !read_properties(find(tags, PROPERTIES), texts)? {
        return Ok(None);
    }
    let Ok(number) = table.number_of_texts(name, texts) else {
        return Err(AllocError);
    };
    Ok(number)
}

/// The number of a palette entry, where it is a state that the table knows.
fn entry_number<'a>(
    entry: &'a Tag,
    texts: &mut Vec<PropertyText<'a>>,
    table: &StateTable,
) -> Result<Option<u16>, AllocError>
    ensures { IfOk result (λ found. IfSome found (IsKnown (states table.now)
        (state_in (view entry.now)))) }
{
    let Some(tags) = entry.as_members() else {
        return Ok(None);
    };
    tags_number(tags, texts, table)
}

/// The numbers of palette entries in the forms that they take, where the table knows them all.
pub(crate) fn known_numbers(
    alloc: Global,
    entries: &[Tag],
    table: &StateTable,
) -> Result<Option<Vec<u16>>, AllocError>
    ensures known { IfOk result (λ found. IfSome found
        (λ numbers. AreKnown (states table.now) (each state_in (views entries.now))
        numbers.items)) }
    ensures many { IfOk result (λ found. IfSome found
        (λ numbers. length numbers.items ≡ length entries.now)) }
{
    let mut numbers = Vec::with_capacity(alloc, entries.len())?;
    let mut texts = Vec::new(alloc);
    for entry in entries {
        let Some(number) = entry_number(entry, &mut texts, table)? else {
            return Ok(None);
        };
        numbers.push(number)?;
    }
    Ok(Some(numbers))
}
