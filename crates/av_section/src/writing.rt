//! The palette of a section as its tags are written.
ghost use Rattle.std.specs.Prelude.{◌≡◌, ◌<◌, ◌≤◌, ◌∷◌, map, option_map, length, IfOk, All, slice_index_or};
ghost use Rattle.av_tags.specs.Nbt.{text, compound, members_of};
ghost use Rattle.av_tags.specs.View.{view, views, named_view, named_views};
ghost use Rattle.av_state.specs.BlockState.{air};
ghost use Rattle.av_state.specs.Views.{property_of, properties_of};
ghost use Rattle.av_state.specs.States.{state_of};
ghost use Rattle.av_state.specs.Table.{states};
ghost use Rattle.av_section.specs.BlockStates.{indices_tag};
ghost use Rattle.av_section.specs.Palette.{name_key, properties_key, property_tag, properties_tags, state_tag, states_tag};

use crate::palette::{NAME, PROPERTIES};
use av_pack::{bits_for, pack};
use av_state::{Property, State, StateTable};
use av_tags::{Named, Tag, TagType};
use std::alloc::{AllocError, Global};

/// A property as a named text.
fn property_tag(alloc: Global, property: &Property) -> Result<Named, AllocError>
    ensures { IfOk result (λ tag. named_view tag ≡ property_tag (property_of property.now)) }
{
    let key = Vec::from_slice(alloc, property.key.as_slice())?;
    let value = Vec::from_slice(alloc, property.value.as_slice())?;
    Ok(Named::new(key, Tag::text(value)))
}

/// Properties as named texts, in order.
fn property_tags(alloc: Global, properties: &[Property]) -> Result<Vec<Named>, AllocError>
    ensures { IfOk result (λ tags. named_views tags.items
        ≡ map property_tag (properties_of properties.now)) }
{
    let mut tags = Vec::with_capacity(alloc, properties.len())?;
    for property in properties {
        tags.push(property_tag(alloc, property)?)?;
    }
    Ok(tags)
}

/// The name of a state as a named text.
fn name_member(alloc: Global, state: &State) -> Result<Named, AllocError>
    ensures { IfOk result (λ tag. named_view tag ≡ record
        { name = name_key; tag = text (state_of state.now).name }) }
{
    let key = Vec::from_slice(alloc, NAME)?;
    let name = Vec::from_slice(alloc, state.name.as_slice())?;
    Ok(Named::new(key, Tag::text(name)))
}

/// Properties as a named Compound.
fn properties_member(alloc: Global, properties: &[Property]) -> Result<Named, AllocError>
    ensures { IfOk result (λ tag. named_view tag ≡ record {
      name = properties_key;
      tag = compound (members_of (map property_tag (properties_of properties.now)));
    }) }
{
    let key = Vec::from_slice(alloc, PROPERTIES)?;
    let tags = property_tags(alloc, properties)?;
    Ok(Named::new(key, Tag::compound(tags)))
}

/// The members of a state's palette entry: its name, and its properties where it has some.
fn state_members(alloc: Global, state: &State) -> Result<Vec<Named>, AllocError>
    ensures { IfOk result (λ tags. named_views tags.items
        ≡ record { name = name_key; tag = text (state_of state.now).name }
        ∷ properties_tags (state_of state.now).properties) }
{
    let mut members = Vec::new(alloc);
    members.push(name_member(alloc, state)?)?;
    if state.properties.is_empty() {
        return Ok(members);
    }
    members.push(properties_member(alloc, state.properties.as_slice())?)?;
    Ok(members)
}

/// The palette entry of a state.
fn state_tag(alloc: Global, state: &State) -> Result<Tag, AllocError>
    ensures { IfOk result (λ tag. view tag ≡ state_tag (state_of state.now)) }
{
    let members = state_members(alloc, state)?;
    Ok(Tag::compound(members))
}

/// The palette entries of numbers that the table has.
fn state_tags(alloc: Global, table: &StateTable, numbers: &[u16]) -> Result<Vec<Tag>, AllocError>
    requires { All (λ number. number < length (states table.now)) numbers.now }
    ensures { IfOk result (λ tags. views tags.items
        ≡ map (λ n. state_tag (slice_index_or (states table.now) n air)) numbers.now) }
{
    let mut tags = Vec::with_capacity(alloc, numbers.len())?;
    for number in numbers {
        tags.push(state_tag(alloc, table.state(*number))?)?;
    }
    Ok(tags)
}

/// The palette tag of numbers that the table has.
pub(crate) fn palette_tag(
    alloc: Global,
    table: &StateTable,
    numbers: &[u16],
) -> Result<Tag, AllocError>
    requires { All (λ number. number < length (states table.now)) numbers.now }
    ensures { IfOk result (λ tag. view tag ≡ states_tag
        (map (λ n. slice_index_or (states table.now) n air) numbers.now)) }
{
    let tags = state_tags(alloc, table, numbers)?;
    Ok(Tag::list(TagType::Compound, tags))
}

/// The data tag of indices into a palette of so many entries: none where there is one entry.
pub(crate) fn indices_tag(
    alloc: Global,
    indices: &[u16],
    count: usize,
) -> Result<Option<Tag>, AllocError>
    requires long { length indices.now ≡ 4096 }
    requires few { count ≤ 4096 }
    requires below { All (λ index. index < count) indices.now }
    ensures ok { IfOk result (λ tag. option_map view tag ≡ indices_tag count indices.now) }
{
    if count <= 1 {
        return Ok(None);
    }
    let Ok(longs) = pack(alloc, indices, bits_for(count)) else {
        return Err(AllocError);
    };
    Ok(Some(Tag::long_array(longs)))
}
