//! How many bytes are written of a document: the room that is asked for before it is written. A number above the greatest
//! `usize` counts as that.
ghost use Rattle.std.specs.Prelude.{◌≡◌, length};
ghost use Rattle.av_tags.specs.Nbt.{items_of, members_of};
ghost use Rattle.av_tags.specs.View.{document, view, views, named_view, named_views};
ghost use Rattle.av_nbt.specs.Writing.{written, written_items, written_members, written_named, written_document};
ghost use Rattle.av_nbt.specs.Size.{capped};

use av_tags::{Named, Root, Tag};

/// The bytes of the tags of a List.
#[cycle(sizing)]
fn items_size(items: &[Tag]) -> usize
    ensures { result ≡ capped (length (written_items (items_of (views items.now)))) }
{
    let mut size: usize = 0;
    for item in items {
        size = size.saturating_add(tag_size(item));
    }
    size
}

/// The bytes of a tag with its type and its name.
#[cycle(sizing)]
fn named_size(named: &Named) -> usize
    ensures { result ≡ capped (length (written_named (named_view named.now))) }
{
    tag_size(&named.tag)
        .saturating_add(named.name.len())
        .saturating_add(3)
}

/// The bytes of the tags of a Compound, and of its end.
#[cycle(sizing)]
fn members_size(members: &[Named]) -> usize
    ensures { result ≡ capped (length (written_members (members_of (named_views members.now)))) }
{
    let mut size: usize = 0;
    for named in members {
        size = size.saturating_add(named_size(named));
    }
    size.saturating_add(1)
}

/// The bytes of a tag.
#[cycle(sizing)]
fn tag_size(tag: &Tag) -> usize
    ensures { result ≡ capped (length (written (view tag.now))) }
{
    match tag {
        Tag::Byte(_) => 1,
        Tag::Short(_) => 2,
        Tag::Int(_) | Tag::Float(_) => 4,
        Tag::Long(_) | Tag::Double(_) => 8,
        Tag::ByteArray(bytes) => bytes.len().saturating_add(4),
        Tag::Text(text) => text.len().saturating_add(2),
        Tag::List(_, items) => items_size(items.as_slice()).saturating_add(5),
        Tag::Compound(members) => members_size(members.as_slice()),
        Tag::IntArray(ints) => ints.len().saturating_mul(4).saturating_add(4),
        Tag::LongArray(longs) => longs.len().saturating_mul(8).saturating_add(4),
    }
}

/// The bytes of a document.
pub(crate) fn root_size(root: &Root) -> usize
    ensures { result ≡ capped (length (written_document (document root.now))) }
{
    members_size(root.tags.as_slice())
        .saturating_add(root.name.len())
        .saturating_add(3)
}
