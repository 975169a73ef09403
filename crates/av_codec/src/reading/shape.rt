//! What every chunk has, and where it stands: what is looked at before anything is taken apart.
ghost use Rattle.std.specs.Prelude.{◌≡◌, ◌<◌, [], Ok};
ghost use Rattle.av_tags.specs.ByName.{tag_of};
ghost use Rattle.av_tags.specs.Shape.{compound_of, compounds_of};
ghost use Rattle.av_tags.specs.View.{view, views, named_views};
ghost use Rattle.av_document.specs.Chunk.{is_other, is_bad_list, sections_of, is_full_name, is_bad_chunk, is_elsewhere};
ghost use Rattle.av_codec.specs.Working.{has_other, are_bad_items, admitted, checked_number, flag_of};

use crate::reading::tags::{byte_at, int_at, items_at, text_at};
use av_tags::{Named, Tag, find};
use av_types::{ChunkPos, Fault, Height};

/// Whether a tag among them is no Compound.
fn has_other(items: &[Tag]) -> bool
    ensures { result ≡ has_other (views items.now) }
{
    for item in items {
        if item.as_members().is_none() {
            return true;
        }
    }
    false
}

/// Whether the tag of a name is there and is no Compound.
fn is_no_compound(tags: &[Named], name: &[u8]) -> bool
    ensures { result ≡ is_other compound_of (tag_of name.now (named_views tags.now)) }
{
    match find(tags, name) {
        None => false,
        Some(tag) => tag.as_members().is_none(),
    }
}

/// Whether the tag of a name is there and is no List of Compounds.
fn is_no_list_of_compounds(tags: &[Named], name: &[u8]) -> bool
    ensures { result ≡ is_other compounds_of (tag_of name.now (named_views tags.now)) }
{
    match find(tags, name) {
        None => false,
        Some(tag) => match tag.as_items() {
            None => true,
            Some(items) => has_other(items),
        },
    }
}

/// The number of a section, or None where it has none or its `block_states` are of another kind.
fn checked_number(section: &Tag, height: Height) -> Option<i8>
    ensures { result ≡ checked_number height (compound_of (view section.now)) }
{
    let tags = section.as_members()?;
    let y = byte_at(tags, b"Y")?;
    if height.has_section(i32::from(y)) && is_no_compound(tags, b"block_states") {
        return None;
    }
    Some(y)
}

/// Where a section's number is noted: from 0 to 255.
fn flag_of(y: i8) -> usize
    ensures value { result ≡ flag_of y }
    ensures bound { result < 256 }
{
    (i16::from(y) + 128) as usize
}

/// Whether a section is refused: it has no number, a number that came before, or `block_states` of another kind.
fn has_bad_section(items: &[Tag], height: Height) -> bool
    ensures { result ≡ are_bad_items height [] (views items.now) }
{
    let mut seen = [false; 256];
    for item in items {
        let Some(y) = checked_number(item, height) else {
            return true;
        };
        let flag = flag_of(y);
        if seen[flag] {
            return true;
        }
        seen[flag] = true;
    }
    false
}

/// Whether `sections` are missing, of another kind, or have a bad section.
fn is_bad_list(tags: &[Named], height: Height) -> bool
    ensures { result ≡ is_bad_list height (sections_of (named_views tags.now)) }
{
    match items_at(tags, b"sections") {
        None => true,
        Some(items) => has_bad_section(items, height),
    }
}

/// Whether a tag that every chunk has is missing or of another kind.
fn is_bad_chunk(tags: &[Named], height: Height) -> bool
    ensures { result ≡ is_bad_chunk height (named_views tags.now) }
{
    int_at(tags, b"xPos").is_none()
        || int_at(tags, b"zPos").is_none()
        || is_bad_list(tags, height)
        || is_no_list_of_compounds(tags, b"fluid_ticks")
}

/// Whether a chunk is not at its position.
fn is_elsewhere(tags: &[Named], at: ChunkPos) -> bool
    ensures { result ≡ is_elsewhere at (named_views tags.now) }
{
    match (int_at(tags, b"xPos"), int_at(tags, b"zPos")) {
        (Some(x), Some(z)) => x != at.x || z != at.z,
        _ => true,
    }
}

/// Whether a `Status` is that of a chunk that is to be loaded.
fn is_full(status: &[u8]) -> bool
    ensures { result ≡ is_full_name status.now }
{
    status == b"full".as_slice() || status == b"minecraft:full".as_slice()
}

/// Whether a chunk is to be loaded, judged by all that is looked at before it is taken apart: `OldLayout`, `BadChunk`
/// and `WrongPlace`, in this order.
pub(crate) fn admitted(tags: &[Named], at: ChunkPos, height: Height) -> Result<bool, Fault>
    ensures { result ≡ admitted height at (named_views tags.now) }
{
    if find(tags, b"Level").is_some() {
        return Err(Fault::OldLayout);
    }
    let Some(status) = text_at(tags, b"Status") else {
        return Err(Fault::BadChunk);
    };
    if !is_full(status) {
        return Ok(false);
    }
    if is_bad_chunk(tags, height) {
        return Err(Fault::BadChunk);
    }
    if is_elsewhere(tags, at) {
        return Err(Fault::WrongPlace);
    }
    Ok(true)
}
