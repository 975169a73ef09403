//! The palette of a section as its tags have it.
ghost use Rattle.std.specs.Prelude.{◌≡◌, ◌<◌, ◌≤◌, Some, length, option_map, map, IfOk, IfErr};
ghost use Rattle.std.specs.Option.{option_copied};
ghost use Rattle.std.specs.List.{list_all};
ghost use Rattle.av_tags.specs.Shape.{each};
ghost use Rattle.av_tags.specs.View.{view, views, named_view, named_views};
ghost use Rattle.av_state.specs.BlockState.{in_order};
ghost use Rattle.av_state.specs.Views.{property_of, properties_of};
ghost use Rattle.av_state.specs.States.{state_of};
ghost use Rattle.av_section.specs.Judged.{IsNoPalette};
ghost use Rattle.av_section.specs.Palette.{property_in, properties_in, is_of_entry, written_state, state_in, palette_of};

use av_state::{Property, State};
use av_tags::{Named, Tag, find};
use av_types::Fault;
use std::alloc::Global;

/// The name of a palette entry's name.
pub(crate) const NAME: &[u8] = b"Name";
/// The name of a palette entry's properties.
pub(crate) const PROPERTIES: &[u8] = b"Properties";
/// The most entries that a palette in a file has.
const MOST_ENTRIES: usize = 4096;

/// The property of a tag, which is a text.
fn property(alloc: Global, named: &Named) -> Result<Property, Fault>
    ensures ok { IfOk result (λ p. property_in (named_view named.now) ≡ Some (property_of p)) }
    ensures err { IfErr result (IsNoPalette (property_in (named_view named.now))) }
{
    let Some(value) = named.tag().as_text() else {
        return Err(Fault::BadPalette);
    };
    Ok(Property {
        key: Vec::from_slice(alloc, named.name())?,
        value: Vec::from_slice(alloc, value)?,
    })
}

/// The properties of tags, in the order of the tags.
fn properties(alloc: Global, tags: &[Named]) -> Result<Vec<Property>, Fault>
    ensures ok { IfOk result (λ ps. each property_in (named_views tags.now)
        ≡ Some (properties_of ps.items)) }
    ensures err { IfErr result (IsNoPalette (each property_in (named_views tags.now))) }
{
    let mut found = Vec::new(alloc);
    for named in tags {
        found.push(property(alloc, named)?)?;
    }
    Ok(found)
}

/// The properties of a `Properties` tag, in no order. No tag is no properties.
fn entry_properties(alloc: Global, tag: Option<&Tag>) -> Result<Vec<Property>, Fault>
    ensures ok { IfOk result (λ ps. properties_in (option_map view (option_copied tag.entry))
        ≡ Some (in_order (properties_of ps.items))) }
    ensures err { IfErr result (IsNoPalette (properties_in
        (option_map view (option_copied tag.entry)))) }
{
    let Some(tag) = tag else {
        return Ok(Vec::new(alloc));
    };
    let Some(members) = tag.as_members() else {
        return Err(Fault::BadPalette);
    };
    let found = properties(alloc, members)?;
    Ok(found)
}

/// Whether a tag is a `Name` or `Properties`.
fn is_of_entry(named: &Named) -> bool
    ensures { result ≡ is_of_entry (named_view named.now) }
{
    NAME == named.name() || PROPERTIES == named.name()
}

/// Whether each tag is a `Name` or `Properties`.
pub(crate) fn are_of_entry(tags: &[Named]) -> bool
    ensures { result ≡ list_all is_of_entry (named_views tags.now) }
{
    for named in tags {
        if !is_of_entry(named) {
            return false;
        }
    }
    true
}

/// The state of a palette entry's tags, as it is written there. Refuses tags that describe none with `BadPalette`, and
/// so a text of more than 65,535 bytes or a key that is there twice, as no file has.
fn entry_state(alloc: Global, tags: &[Named]) -> Result<State, Fault>
    ensures ok { IfOk result (λ s. written_state (named_views tags.now) ≡ Some (state_of s)) }
    ensures err { IfErr result (IsNoPalette (written_state (named_views tags.now))) }
{
    let Some(name) = find(tags, NAME) else {
        return Err(Fault::BadPalette);
    };
    let Some(name) = name.as_text() else {
        return Err(Fault::BadPalette);
    };
    let properties = entry_properties(alloc, find(tags, PROPERTIES))?;
    if !are_of_entry(tags) {
        return Err(Fault::BadPalette);
    }
    let Some(state) = State::new(Vec::from_slice(alloc, name)?, properties)? else {
        return Err(Fault::BadPalette);
    };
    Ok(state)
}

/// The state of a palette entry, as it is written there.
fn state(alloc: Global, entry: &Tag) -> Result<State, Fault>
    ensures ok { IfOk result (λ s. state_in (view entry.now) ≡ Some (state_of s)) }
    ensures err { IfErr result (IsNoPalette (state_in (view entry.now))) }
{
    let Some(tags) = entry.as_members() else {
        return Err(Fault::BadPalette);
    };
    let state = entry_state(alloc, tags)?;
    Ok(state)
}

/// The states of palette entries, as they are written there. Refuses one that is none with `BadPalette`.
pub(crate) fn entry_states(alloc: Global, entries: &[Tag]) -> Result<Vec<State>, Fault>
    ensures ok { IfOk result (λ found. each state_in (views entries.now)
        ≡ Some (map state_of found.items)) }
    ensures err { IfErr result (IsNoPalette (each state_in (views entries.now))) }
{
    let mut found = Vec::new(alloc);
    for entry in entries {
        found.push(state(alloc, entry)?)?;
    }
    Ok(found)
}

/// The 1 to 4,096 entries of a palette tag. Refuses a palette of another shape with `BadPalette`.
pub(crate) fn palette_entries(palette: Option<&Tag>) -> Result<&[Tag], Fault>
    ensures ok { IfOk result (λ entries. palette_of (option_map view (option_copied palette.entry))
        ≡ each state_in (views entries.now)) }
    ensures some { IfOk result (λ entries. 0 < length entries.now) }
    ensures few { IfOk result (λ entries. length entries.now ≤ 4096) }
    ensures err { IfErr result (IsNoPalette (palette_of
        (option_map view (option_copied palette.entry)))) }
{
    let Some(palette) = palette else {
        return Err(Fault::BadPalette);
    };
    let Some(entries) = palette.as_items() else {
        return Err(Fault::BadPalette);
    };
    if entries.is_empty() || entries.len() > MOST_ENTRIES {
        return Err(Fault::BadPalette);
    }
    Ok(entries)
}
