//! Tags written as bytes.
ghost use Rattle.std.specs.Prelude.{◌≡◌, ◌<◌, ◌^◌, ◌++◌, [], length, IfErr, IfOk};
ghost use Rattle.std.specs.List.{flat_map};
ghost use Rattle.std.specs.Int.{w32, w64, to_be_bytes};
ghost use Rattle.av_types.specs.declared.fault.Fault.TheVariants.{OutOfMemory};
ghost use Rattle.av_tags.specs.Nbt.{list, items_of, members_of};
ghost use Rattle.av_tags.specs.View.{document, view, views, named_view, named_views};
ghost use Rattle.av_nbt.specs.Laws.{WrittenSpells, WrittenReadsBack};
ghost use Rattle.av_nbt.specs.Appending.{Writes};
ghost use Rattle.av_nbt.specs.Writing.{signed_bytes, text_bytes, written, written_items, written_members, written_named, written_document, IsWellFormed, Fits, FitItems, FitMembers};

use crate::size::root_size;
use av_tags::{Named, Root, Tag, TagType};
use av_types::Fault;
use std::alloc::{AllocError, Global};

/// Some bytes.
#[inline]
fn write_bytes(out: &mut Vec<u8>, bytes: &[u8]) -> Result<(), AllocError>
    ensures { Writes result bytes.now out.old.items out.new.items }
{
    out.extend_from_slice(bytes)
}

/// The length of a List or an array.
#[inline]
fn write_length(out: &mut Vec<u8>, length: usize) -> Result<(), AllocError>
    requires { length < 2 ^ 31 }
    ensures { Writes result (to_be_bytes w32 length) out.old.items out.new.items }
{
    write_bytes(out, &(length as u32).to_be_bytes())
}

/// A text, after its length.
#[inline]
fn write_text(out: &mut Vec<u8>, text: &[u8]) -> Result<(), AllocError>
    requires { length text.now < 2 ^ 16 }
    ensures { Writes result (text_bytes text.now) out.old.items out.new.items }
{
    write_bytes(out, &(text.len() as u16).to_be_bytes())?;
    write_bytes(out, text)
}

/// The bytes of a Byte Array, after their number.
fn write_byte_array(out: &mut Vec<u8>, bytes: &[u8]) -> Result<(), AllocError>
    requires { length bytes.now < 2 ^ 31 }
    ensures { Writes result (to_be_bytes w32 (length bytes.now) ++ bytes.now) out.old.items
        out.new.items }
{
    write_length(out, bytes.len())?;
    write_bytes(out, bytes)
}

/// The numbers of an Int Array.
fn write_ints(out: &mut Vec<u8>, ints: &[i32]) -> Result<(), AllocError>
    ensures { Writes result (flat_map (signed_bytes w32) ints.now) out.old.items out.new.items }
{
    for int in ints {
        write_bytes(out, &int.to_be_bytes())?;
    }
    Ok(())
}

/// The numbers of a Long Array.
fn write_longs(out: &mut Vec<u8>, longs: &[i64]) -> Result<(), AllocError>
    ensures { Writes result (flat_map (signed_bytes w64) longs.now) out.old.items out.new.items }
{
    for long in longs {
        write_bytes(out, &long.to_be_bytes())?;
    }
    Ok(())
}

/// The numbers of an Int Array, after their count.
fn write_int_array(out: &mut Vec<u8>, ints: &[i32]) -> Result<(), AllocError>
    requires { length ints.now < 2 ^ 31 }
    ensures { Writes result (to_be_bytes w32 (length ints.now)
        ++ flat_map (signed_bytes w32) ints.now) out.old.items out.new.items }
{
    write_length(out, ints.len())?;
    write_ints(out, ints)
}

/// The numbers of a Long Array, after their count.
fn write_long_array(out: &mut Vec<u8>, longs: &[i64]) -> Result<(), AllocError>
    requires { length longs.now < 2 ^ 31 }
    ensures { Writes result (to_be_bytes w32 (length longs.now)
        ++ flat_map (signed_bytes w64) longs.now) out.old.items out.new.items }
{
    write_length(out, longs.len())?;
    write_longs(out, longs)
}

/// The tags of a List, one after the other.
#[cycle(writing)]
fn write_items(out: &mut Vec<u8>, items: &[Tag]) -> Result<(), AllocError>
    requires { FitItems (items_of (views items.now)) }
    ensures { Writes result (written_items (items_of (views items.now))) out.old.items
        out.new.items }
{
    for item in items {
        write_tag(out, item)?;
    }
    Ok(())
}

/// A List's type, its length and its tags.
#[cycle(writing)]
#[tactic(auto, using(crate::proofs::Written::item_count_views))]
fn write_list(out: &mut Vec<u8>, tag_type: TagType, items: &[Tag]) -> Result<(), AllocError>
    requires { Fits (list tag_type (items_of (views items.now))) }
    ensures { Writes result (written (list tag_type (items_of (views items.now)))) out.old.items
        out.new.items }
{
    out.push(tag_type.number())?;
    write_length(out, items.len())?;
    write_items(out, items)
}

/// A tag's type, its name and the tag.
#[cycle(writing)]
fn write_named(out: &mut Vec<u8>, named: &Named) -> Result<(), AllocError>
    requires name { length (named_view named.now).name < 2 ^ 16 }
    requires tag { Fits (named_view named.now).tag }
    ensures { Writes result (written_named (named_view named.now)) out.old.items out.new.items }
{
    out.push(named.tag.tag_type().number())?;
    write_text(out, named.name.as_slice())?;
    write_tag(out, &named.tag)
}

/// The tags of a Compound, and its end.
#[cycle(writing)]
fn write_members(out: &mut Vec<u8>, members: &[Named]) -> Result<(), AllocError>
    requires { FitMembers (members_of (named_views members.now)) }
    ensures { Writes result (written_members (members_of (named_views members.now))) out.old.items
        out.new.items }
{
    for named in members {
        write_named(out, named)?;
    }
    out.push(TagType::End.number())?;
    Ok(())
}

/// A tag.
#[cycle(writing)]
fn write_tag(out: &mut Vec<u8>, tag: &Tag) -> Result<(), AllocError>
    requires { Fits (view tag.now) }
    ensures { Writes result (written (view tag.now)) out.old.items out.new.items }
{
    match tag {
        Tag::Byte(value) => write_bytes(out, &value.to_be_bytes()),
        Tag::Short(value) => write_bytes(out, &value.to_be_bytes()),
        Tag::Int(value) => write_bytes(out, &value.to_be_bytes()),
        Tag::Long(value) => write_bytes(out, &value.to_be_bytes()),
        Tag::Float(value) => write_bytes(out, &value.to_be_bytes()),
        Tag::Double(value) => write_bytes(out, &value.to_be_bytes()),
        Tag::ByteArray(bytes) => write_byte_array(out, bytes.as_slice()),
        Tag::Text(text) => write_text(out, text.as_slice()),
        Tag::List(tag_type, items) => write_list(out, *tag_type, items.as_slice()),
        Tag::Compound(members) => write_members(out, members.as_slice()),
        Tag::IntArray(ints) => write_int_array(out, ints.as_slice()),
        Tag::LongArray(longs) => write_long_array(out, longs.as_slice()),
    }
}

/// A document, whose lengths fit their places.
fn write_root(out: &mut Vec<u8>, root: &Root) -> Result<(), AllocError>
    requires name { length root.now.name.items < 2 ^ 16 }
    requires tags { FitMembers (members_of (named_views root.now.tags.items)) }
    ensures { Writes result (written_document (document root.now)) out.old.items out.new.items }
{
    out.push(TagType::Compound.number())?;
    write_text(out, root.name.as_slice())?;
    write_members(out, root.tags.as_slice())
}

/// The written spelling of a document that has one: of its spellings, the one in which empty Lists have length 0.
/// Their types stay. The only fault is `OutOfMemory`, where a growth was refused.
///
/// A document has a spelling where each List's tags are of its type, no name stands twice in a Compound, names and
/// Texts have at most 65,535 bytes, Lists and arrays fewer than 2^31 tags or numbers, and Lists and Compounds nest at
/// most 512 deep, the root's own Compound among them. What `decode` answered has one.
pub fn encode(alloc: Global, root: &Root) -> Result<Vec<u8>, Fault>
    requires { IsWellFormed (document root.now) }
    ensures written { IfOk result (λ bytes. bytes.items ≡ written_document (document root.now)) }
    ensures memory { IfErr result (λ e. e ≡ OutOfMemory) }
{
    // memory is asked for once, where a vector that doubles would copy its bytes
    let mut out = Vec::with_capacity(alloc, root_size(root))?;
    write_root(&mut out, root)?;
    Ok(out)
}

/// What is written of a document that has a spelling spells it, and no other. A law of the format, which takes no value.
pub fn written_is_spelling()
    ensures spells { WrittenSpells }
    ensures reads_back { WrittenReadsBack }
{}
