//! Tags by hand.
use crate::documents::ALL_KINDS;
use crate::expecting::expect_equal;
use av_nbt::decode;
use av_tags::{Named, Tag, TagType, copy_tags, exchange, find, put, remove};
use av_types::Fault;
use std::alloc::{AllocError, Global};
use std::process::Abort;
use std::test::Fail;

/// A Byte under a name of one byte.
fn byte(alloc: Global, name: u8, value: i8) -> Result<Named, AllocError> {
    Ok(Named::new(Vec::from_slice(alloc, &[name])?, Tag::byte(value)))
}

/// Bytes under names of one byte, in this order.
fn bytes_in_order(alloc: Global, values: &[(u8, i8)]) -> Result<Vec<Named>, AllocError> {
    let mut tags = Vec::new(alloc);
    for (name, value) in values {
        tags.push(byte(alloc, *name, *value)?)?;
    }
    Ok(tags)
}

/// Bytes under names of one byte, put one after the other.
fn bytes_put(alloc: Global, values: &[(u8, i8)]) -> Result<Vec<Named>, Fault> {
    let mut tags = Vec::new(alloc);
    for (name, value) in values {
        put(&mut tags, byte(alloc, *name, *value)?)?;
    }
    Ok(tags)
}

/// The tag of a name is this Byte, or there is none.
fn expect_found(rt: &impl Abort, tags: &[Named], name: u8, want: Option<i8>) {
    expect_equal(rt, find(tags, &[name]), want.map(Tag::byte).as_ref());
}

/// A Byte takes the place of this one of its name, or there was none.
fn expect_exchanged(
    rt: &impl Abort,
    tags: &mut Vec<Named>,
    new: Named,
    want: Option<i8>,
) -> Result<(), Fault> {
    expect_equal(rt, exchange(tags, new)?, want.map(Tag::byte));
    Ok(())
}

/// The tag of a name that is taken out is this Byte, or there was none.
fn expect_removed(rt: &impl Abort, tags: &mut Vec<Named>, name: u8, want: Option<i8>) {
    expect_equal(rt, remove(tags, &[name]), want.map(Tag::byte));
}

#[test]
fn tags_by_name(rt: HostRuntime) -> Result<(), Fail> {
    let alloc = rt.alloc();
    let mut tags = bytes_put(alloc, &[(b'a', 1), (b'b', 2), (b'c', 3)])?;
    expect_found(&rt, &tags, b'b', Some(2));
    expect_found(&rt, &tags, b'd', None);
    expect_exchanged(&rt, &mut tags, byte(alloc, b'a', 4)?, Some(1))?;
    expect_exchanged(&rt, &mut tags, byte(alloc, b'd', 5)?, None)?;
    expect_removed(&rt, &mut tags, b'b', Some(2));
    expect_removed(&rt, &mut tags, b'b', None);
    expect_equal(
        &rt,
        tags,
        bytes_in_order(alloc, &[(b'a', 4), (b'c', 3), (b'd', 5)])?,
    );
    Ok(())
}

/// Of two tags of one name the first is found, and both are taken out.
#[test]
fn two_tags_of_one_name(rt: HostRuntime) -> Result<(), Fail> {
    let mut tags = bytes_in_order(rt.alloc(), &[(b'a', 4), (b'c', 3), (b'd', 5), (b'a', 6)])?;
    expect_found(&rt, &tags, b'a', Some(4));
    expect_removed(&rt, &mut tags, b'a', Some(4));
    expect_equal(&rt, tags.len(), 2);
    Ok(())
}

/// Numbers and names of types, from the table of minecraft.wiki, "NBT format".
#[test]
fn kinds_by_number(rt: HostRuntime) {
    let tag_types = [
        TagType::End,
        TagType::Byte,
        TagType::Short,
        TagType::Int,
        TagType::Long,
        TagType::Float,
        TagType::Double,
        TagType::ByteArray,
        TagType::Text,
        TagType::List,
        TagType::Compound,
        TagType::IntArray,
        TagType::LongArray,
    ];
    for number in 0..13u8 {
        let tag_type = tag_types[usize::from(number)];
        expect_equal(&rt, tag_type.number(), number);
        expect_equal(&rt, TagType::from_number(number), Some(tag_type));
        expect_equal(&rt, tag_type.is_end(), number == 0);
        expect_equal(&rt, tag_type.is_compound(), number == 10);
    }
    expect_equal(&rt, TagType::from_number(13), None);
    expect_equal(&rt, TagType::from_number(255), None);
}

#[test]
fn numbers_that_are_made(rt: HostRuntime) {
    expect_equal(&rt, Tag::byte(-7), Tag::Byte(-7));
    expect_equal(&rt, Tag::int(70_000), Tag::Int(70_000));
}

#[test]
fn a_text_that_is_made(rt: HostRuntime) -> Result<(), Fail> {
    let text = Tag::text(Vec::from_slice(rt.alloc(), b"stone")?);
    expect_equal(&rt, text.as_text(), Some(b"stone".as_slice()));
    Ok(())
}

#[test]
fn a_byte_array_that_is_made(rt: HostRuntime) -> Result<(), Fail> {
    let bytes = Tag::byte_array(Vec::from_slice(rt.alloc(), &[1, 255])?);
    expect_equal(&rt, bytes.tag_type(), TagType::ByteArray);
    expect_equal(&rt, bytes.as_text(), None);
    Ok(())
}

#[test]
fn a_long_array_that_is_made(rt: HostRuntime) -> Result<(), Fail> {
    let longs = Tag::long_array(Vec::from_slice(rt.alloc(), &[-1, 2])?);
    expect_equal(&rt, longs.as_longs(), Some([-1, 2].as_slice()));
    Ok(())
}

#[test]
fn a_list_that_is_made(rt: HostRuntime) -> Result<(), Fail> {
    let items = vec![in rt.alloc(); Tag::byte(1), Tag::byte(2)]?;
    let list = Tag::list(TagType::Byte, items);
    expect_equal(&rt, list.tag_type(), TagType::List);
    expect_equal(
        &rt,
        list.as_items(),
        Some([Tag::Byte(1), Tag::Byte(2)].as_slice()),
    );
    Ok(())
}

#[test]
fn a_compound_that_is_made(rt: HostRuntime) -> Result<(), Fail> {
    let compound = Tag::compound(bytes_in_order(rt.alloc(), &[(b'a', 1)])?);
    let members = bytes_in_order(rt.alloc(), &[(b'a', 1)])?;
    expect_equal(&rt, compound.as_members(), Some(members.as_slice()));
    expect_equal(&rt, compound.as_items(), None);
    Ok(())
}

#[test]
fn a_text_that_is_taken_out(rt: HostRuntime) -> Result<(), Fail> {
    let text = Tag::text(Vec::from_slice(rt.alloc(), b"air")?);
    let want = Vec::from_slice(rt.alloc(), b"air")?;
    expect_equal(&rt, text.into_text(), Some(want));
    expect_equal(&rt, Tag::byte(1).into_text(), None);
    Ok(())
}

#[test]
fn longs_that_are_taken_out(rt: HostRuntime) -> Result<(), Fail> {
    let longs = Tag::long_array(Vec::from_slice(rt.alloc(), &[3])?);
    let want = Vec::from_slice(rt.alloc(), &[3])?;
    expect_equal(&rt, longs.into_longs(), Some(want));
    Ok(())
}

#[test]
fn items_that_are_taken_out(rt: HostRuntime) -> Result<(), Fail> {
    let list = Tag::list(TagType::Int, vec![in rt.alloc(); Tag::int(4)]?);
    let want = vec![in rt.alloc(); Tag::int(4)]?;
    expect_equal(&rt, list.into_items(), Some(want));
    Ok(())
}

#[test]
fn members_that_are_taken_out(rt: HostRuntime) -> Result<(), Fail> {
    let compound = Tag::compound(bytes_in_order(rt.alloc(), &[(b'x', 5)])?);
    let want = bytes_in_order(rt.alloc(), &[(b'x', 5)])?;
    expect_equal(&rt, compound.into_members(), Some(want));
    Ok(())
}

#[test]
fn parts_of_a_named_tag(rt: HostRuntime) -> Result<(), Fail> {
    let named = byte(rt.alloc(), b'y', 6)?;
    expect_equal(&rt, named.name(), b"y".as_slice());
    expect_equal(&rt, named.tag(), &Tag::Byte(6));
    expect_equal(&rt, named.into_tag(), Tag::Byte(6));
    Ok(())
}

/// The tag of a name.
pub(crate) fn tag<'a>(tags: &'a [Named], name: &[u8]) -> Result<&'a Tag, Fail> {
    Ok(find(tags, name).ok_or("missing")?)
}

/// Of the tags of `ALL_KINDS`, the numbers have these values.
fn expect_numbers(rt: &impl Abort, tags: &[Named]) -> Result<(), Fail> {
    expect_equal(rt, tag(tags, b"a")?.as_byte(), Some(-1));
    let int = tag(tags, b"c")?;
    expect_equal(rt, int.as_int(), Some(0x01020304));
    expect_equal(rt, int.as_byte(), None);
    expect_equal(rt, tag(tags, b"d")?.tag_type(), TagType::Long);
    Ok(())
}

/// Of the tags of `ALL_KINDS`, the text, the lists and the Compound have these values.
fn expect_slices(rt: &impl Abort, tags: &[Named]) -> Result<(), Fail> {
    let text = tag(tags, b"h")?.as_text();
    expect_equal(rt, text, Some([b'a', 255, 0].as_slice()));
    let longs = tag(tags, b"l")?.as_longs();
    expect_equal(rt, longs, Some([0x0102030405060708].as_slice()));
    let items = tag(tags, b"i")?.as_items();
    expect_equal(rt, items, Some([Tag::Byte(5), Tag::Byte(6)].as_slice()));
    let members = tag(tags, b"j")?.as_members().ok_or("no Compound")?;
    expect_equal(rt, members.len(), 1);
    Ok(())
}

#[test]
fn values_by_type(rt: HostRuntime) -> Result<(), Fail> {
    let root = decode(rt.alloc(), &ALL_KINDS)?;
    expect_numbers(&rt, &root.tags)?;
    expect_slices(&rt, &root.tags)
}

#[test]
fn a_copy_has_the_same_tags(rt: HostRuntime) -> Result<(), Fail> {
    let root = decode(rt.alloc(), &ALL_KINDS)?;
    expect_equal(&rt, copy_tags(rt.alloc(), &root.tags)?, root.tags);
    Ok(())
}

/// A value is read of a tag of its own type alone: of an Int and not of a Byte or a Short, of a Long Array and not of an
/// Int Array.
#[test]
fn values_of_other_types(rt: HostRuntime) -> Result<(), Fail> {
    let root = decode(rt.alloc(), &ALL_KINDS)?;
    for named in &root.tags {
        expect_values_of_its_type(&rt, named.name(), named.tag());
    }
    Ok(())
}

/// The tag of this name in `ALL_KINDS` has a value of its own type alone.
fn expect_values_of_its_type(rt: &impl Abort, name: &[u8], tag: &Tag) {
    expect_equal(rt, tag.as_byte().is_some(), name == b"a".as_slice());
    expect_equal(rt, tag.as_int().is_some(), name == b"c".as_slice());
    expect_equal(rt, tag.as_text().is_some(), name == b"h".as_slice());
    expect_equal(rt, tag.as_items().is_some(), name == b"i".as_slice());
    expect_equal(rt, tag.as_members().is_some(), name == b"j".as_slice());
    expect_equal(rt, tag.as_longs().is_some(), name == b"l".as_slice());
}
