//! Documents by hand.
use crate::expecting::expect_equal;
use crate::tags::tag;
use av_nbt::{decode, encode, spelling_is_unique, written_is_spelling};
use av_tags::{Named, Tag, TagType, find};
use av_types::Fault;
use std::alloc::{AllocError, Global};
use std::process::Abort;
use std::test::Fail;

/// A document that holds a tag of each type, with the bytes `01 02 ..` as its values. The List has two Bytes.
pub(crate) const ALL_KINDS: [u8; 124] = [
    10, 0, 2, b'h', b'i', // the root
    1, 0, 1, b'a', 255, // Byte
    2, 0, 1, b'b', 1, 2, // Short
    3, 0, 1, b'c', 1, 2, 3, 4, // Int
    4, 0, 1, b'd', 1, 2, 3, 4, 5, 6, 7, 8, // Long
    5, 0, 1, b'e', 1, 2, 3, 4, // Float
    6, 0, 1, b'f', 1, 2, 3, 4, 5, 6, 7, 8, // Double
    7, 0, 1, b'g', 0, 0, 0, 2, 1, 2, // Byte Array
    8, 0, 1, b'h', 0, 3, b'a', 255, 0, // String
    9, 0, 1, b'i', 1, 0, 0, 0, 2, 5, 6, // List
    10, 0, 1, b'j', 1, 0, 0, 7, 0, // Compound, of a Byte without a name
    11, 0, 1, b'k', 0, 0, 0, 1, 255, 255, 255, 254, // Int Array
    12, 0, 1, b'l', 0, 0, 0, 1, 1, 2, 3, 4, 5, 6, 7, 8, // Long Array
    0, // the end
];

/// A document of one List in another, so many of them.
fn lists(alloc: Global, count: usize) -> Result<Vec<u8>, AllocError> {
    let mut bytes = Vec::from_slice(alloc, &[10, 0, 0, 9, 0, 0])?;
    for _ in 1..count {
        bytes.extend_from_slice(&[9, 0, 0, 0, 1])?;
    }
    bytes.extend_from_slice(&[0, 0, 0, 0, 0, 0])?;
    Ok(bytes)
}

/// A document of one Compound in another, so many of them, of 4 bytes each.
fn compounds(alloc: Global, count: usize) -> Result<Vec<u8>, AllocError> {
    let mut bytes = Vec::new(alloc);
    for _ in 0..count {
        bytes.extend_from_slice(&[10, 0, 0])?;
    }
    for _ in 0..count {
        bytes.push(0)?;
    }
    Ok(bytes)
}

/// What is written of the document that the bytes spell.
fn rewritten(alloc: Global, bytes: &[u8]) -> Result<Vec<u8>, Fault> {
    let root = decode(alloc, bytes)?;
    encode(alloc, &root)
}

/// What is written of the document that these bytes spell is this.
fn expect_written(rt: &impl Abort, alloc: Global, bytes: &[u8], want: &[u8]) -> Result<(), Fault> {
    let out = rewritten(alloc, bytes)?;
    expect_equal(rt, out.as_slice(), want);
    Ok(())
}

/// These bytes spell no document.
fn expect_refused(rt: &impl Abort, alloc: Global, bytes: &[u8]) {
    assert_eq!(rt;
        decode(alloc, bytes).err(),
        Some(Fault::BadNbt),
        "{bytes:?}"
    );
}

#[test]
fn documents_are_read_and_written(rt: HostRuntime) -> Result<(), Fail> {
    let cases: [(&[u8], &[u8]); 5] = [
        (&[10, 0, 0, 0], &[10, 0, 0, 0]),
        // minecraft.wiki, "NBT format": hello_world.nbt
        (
            b"\x0a\x00\x0bhello world\x08\x00\x04name\x00\x09Bananrama\x00",
            b"\x0a\x00\x0bhello world\x08\x00\x04name\x00\x09Bananrama\x00",
        ),
        // an empty List of length -1
        (
            &[10, 0, 0, 9, 0, 1, 97, 0, 255, 255, 255, 255, 0],
            &[10, 0, 0, 9, 0, 1, 97, 0, 0, 0, 0, 0, 0],
        ),
        // its element number stays
        (
            &[10, 0, 0, 9, 0, 1, 97, 3, 255, 255, 255, 255, 0],
            &[10, 0, 0, 9, 0, 1, 97, 3, 0, 0, 0, 0, 0],
        ),
        (&ALL_KINDS, &ALL_KINDS),
    ];
    for (bytes, written) in &cases {
        expect_written(&rt, rt.alloc(), *bytes, *written)?;
    }
    Ok(())
}

#[test]
fn other_bytes_are_refused(rt: HostRuntime) {
    let cases: [&[u8]; 16] = [
        &[],
        // roots of another type, and one without an end
        &[9, 0, 0, 0, 0, 0, 0, 0],
        &[9, 0, 0, 0],
        &[10, 0, 0, 9, 0, 1, 97, 0, 255, 255, 255, 255],
        // arrays longer than the bytes, and of a negative length
        &[10, 0, 0, 12, 0, 1, 97, 127, 255, 255, 255, 0],
        &[10, 0, 0, 7, 0, 1, 97, 255, 255, 255, 255, 0],
        &[10, 0, 0, 11, 0, 1, 97, 255, 255, 255, 255, 0],
        &[10, 0, 0, 12, 0, 1, 97, 255, 255, 255, 255, 0],
        // a List of one tag of no type, and of a type that there is not
        &[10, 0, 0, 9, 0, 1, 97, 0, 0, 0, 0, 1, 0],
        &[10, 0, 0, 9, 0, 1, 97, 13, 0, 0, 0, 0, 0],
        // a name twice, also with another one between
        &[10, 0, 0, 1, 0, 1, 97, 0, 1, 0, 1, 97, 0, 0],
        &[10, 0, 0, 1, 0, 1, 97, 0, 1, 0, 1, 98, 0, 1, 0, 1, 97, 0, 0],
        // a name twice in a Compound of the root
        &[10, 0, 0, 10, 0, 0, 1, 0, 1, 97, 0, 1, 0, 1, 97, 0, 0, 0],
        // bytes after the root
        &[10, 0, 0, 0, 0],
        // a List longer than the bytes
        &[10, 0, 0, 9, 0, 1, 97, 10, 127, 255, 255, 255, 0],
        &[10, 0, 0, 13, 0, 1, 97, 0, 0],
    ];
    for bytes in &cases {
        expect_refused(&rt, rt.alloc(), *bytes);
    }
}

#[test]
fn beginnings_are_refused(rt: HostRuntime) {
    for end in 0..ALL_KINDS.len() {
        expect_refused(&rt, rt.alloc(), &ALL_KINDS[..end]);
    }
}

/// The bytes of a document are counted before they are written, so they fill the memory that was asked for.
#[test]
fn what_is_written_fills_its_memory(rt: HostRuntime) -> Result<(), Fail> {
    let written = rewritten(rt.alloc(), &ALL_KINDS)?;
    expect_equal(&rt, written.capacity(), 124);
    Ok(())
}

/// For how many tags there is memory in a List of five Bytes, behind which stand 9 bytes and so many more.
fn memory_of_five(alloc: Global, more: u8) -> Result<usize, Fail> {
    let mut bytes = Vec::from_slice(alloc, &[10, 0, 0, 9, 0, 0, 1, 0, 0, 0, 5, 1, 2, 3, 4, 5])?;
    bytes.extend_from_slice(&[7, 0, 1, b'a', 0, 0, 0, more])?;
    for _ in 0..more {
        bytes.push(0)?;
    }
    bytes.push(0)?;
    let root = decode(alloc, &bytes)?;
    match tag(&root.tags, b"")? {
        Tag::List(_, items) => Ok(items.capacity()),
        _ => Ok(0),
    }
}

/// The share of a List in the root is a quarter of the bytes behind its length. A quarter of 20 holds five Bytes, and memory is
/// asked for once. One of 19 doesn't, and the Bytes ask for that of four and of eight tags.
#[test]
fn a_list_asks_once_for_what_its_share_holds(rt: HostRuntime) -> Result<(), Fail> {
    expect_equal(&rt, memory_of_five(rt.alloc(), 6)?, 5);
    expect_equal(&rt, memory_of_five(rt.alloc(), 5)?, 8);
    Ok(())
}

/// A text's length has no sign.
#[test]
fn a_text_of_65535_bytes(rt: HostRuntime) -> Result<(), Fail> {
    let mut bytes = Vec::from_slice(rt.alloc(), &[10, 0, 0, 8, 0, 0, 255, 255])?;
    bytes.resize(65543, b'a')?;
    bytes.push(0)?;
    expect_written(&rt, rt.alloc(), &bytes, &bytes)?;
    Ok(())
}

#[test]
fn depth_is_limited(rt: HostRuntime) -> Result<(), Fail> {
    let deep = lists(rt.alloc(), 511)?;
    expect_written(&rt, rt.alloc(), &deep, &deep)?;
    let deeper = lists(rt.alloc(), 512)?;
    expect_refused(&rt, rt.alloc(), &deeper);
    Ok(())
}

#[test]
fn a_compound_is_as_deep_as_a_list(rt: HostRuntime) -> Result<(), Fail> {
    let deep = compounds(rt.alloc(), 512)?;
    assert!(rt; decode(rt.alloc(), &deep).is_ok());
    let deeper = compounds(rt.alloc(), 513)?;
    expect_refused(&rt, rt.alloc(), &deeper);
    Ok(())
}

/// A document of 200 Bytes, each under a name of two bytes, the first of which is 85 and 7.
fn many_names(alloc: Global) -> Result<Vec<u8>, AllocError> {
    let mut bytes = Vec::from_slice(alloc, &[10, 0, 0])?;
    for name in 0..200u8 {
        bytes.extend_from_slice(&[1, 0, 2, name ^ 85, 7, name])?;
    }
    bytes.push(0)?;
    Ok(bytes)
}

#[test]
fn many_names_are_compared(rt: HostRuntime) -> Result<(), Fail> {
    let mut bytes = many_names(rt.alloc())?;
    expect_written(&rt, rt.alloc(), &bytes, &bytes)?;
    // the last name becomes that of the first
    assert_eq!(rt; bytes.len(), 1204);
    bytes[1200] = 85;
    expect_refused(&rt, rt.alloc(), &bytes);
    Ok(())
}

#[test]
fn an_empty_list_of_a_negative_length(rt: HostRuntime) -> Result<(), Fail> {
    let bytes = [10, 0, 0, 9, 0, 1, 97, 0, 255, 255, 255, 255, 0];
    let root = decode(rt.alloc(), &bytes)?;
    expect_equal(&rt, root.name.len(), 0);
    expect_equal(&rt, root.tags.len(), 1);
    expect_equal(
        &rt,
        find(&root.tags, b"a"),
        Some(&Tag::List(TagType::End, Vec::new(rt.alloc()))),
    );
    Ok(())
}

/// The tag of a name is this one.
fn expect_tag(rt: &impl Abort, tags: &[Named], name: &[u8], want: &Tag) -> Result<(), Fail> {
    assert!(rt; tag(tags, name)? == want);
    Ok(())
}

/// Each number has its highest byte first.
#[test]
fn the_highest_byte_comes_first(rt: HostRuntime) -> Result<(), Fail> {
    let root = decode(rt.alloc(), &ALL_KINDS)?;
    expect_tag(&rt, &root.tags, b"b", &Tag::Short(0x0102))?;
    expect_tag(&rt, &root.tags, b"d", &Tag::Long(0x0102030405060708))?;
    expect_tag(&rt, &root.tags, b"e", &Tag::Float(0x01020304))?;
    expect_tag(&rt, &root.tags, b"f", &Tag::Double(0x0102030405060708))?;
    Ok(())
}

#[test]
fn an_array_of_one_int_below_zero(rt: HostRuntime) -> Result<(), Fail> {
    let root = decode(rt.alloc(), &ALL_KINDS)?;
    let ints = Tag::IntArray(Vec::from_slice(rt.alloc(), &[-2])?);
    expect_tag(&rt, &root.tags, b"k", &ints)
}

/// They only have to be called once: their contracts are what they say.
#[test]
fn laws_can_be_called() {
    spelling_is_unique();
    written_is_spelling();
}
