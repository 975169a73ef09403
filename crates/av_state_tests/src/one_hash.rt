//! States of one hash, by hand.
use crate::expecting::expect_equal;
use av_state::{Property, PropertyText, State, StateTable};
use av_types::Fault;
use std::alloc::Global;
use std::hash::{BuildHasher, BuildHasherDefault, FoldHasher};
use std::process::Abort;
use std::test::Fail;

/// A text of 16 bytes that ends so leaves a hasher at 0, whatever came before: these are the bytes of its multiplier.
const LAST_EIGHT: [u8; 8] = [0x15, 0x7c, 0x4a, 0x7f, 0xb9, 0x79, 0x37, 0x9e];

/// The text of eight bytes with those behind it.
fn text(alloc: Global, first_eight: &str) -> Result<Vec<u8>, Fault> {
    let mut text = Vec::from_slice(alloc, first_eight.as_bytes())?;
    text.extend_from_slice(LAST_EIGHT.as_slice())?;
    Ok(text)
}

/// The block of a name and of a kind.
fn block(alloc: Global, name: &str, kind: &str) -> Result<State, Fault> {
    let mut properties = Vec::new(alloc);
    properties.push(Property {
        key: Vec::from_slice(alloc, b"kind")?,
        value: text(alloc, kind)?,
    })?;
    State::new(text(alloc, name)?, properties)?.ok_or(Fault::BadPalette)
}

/// A table answers this number of a block, and of its texts; all such blocks have one hash.
fn expect_number(
    rt: &impl Abort,
    alloc: Global,
    table: &StateTable,
    (name, kind): (&str, &str),
    want: Option<u16>,
) -> Result<(), Fault> {
    let block = block(alloc, name, kind)?;
    let hash = BuildHasherDefault::<FoldHasher>::new().hash_one(&block);
    expect_equal(rt, (hash, table.number_of(&block)), (0, want));
    let mut texts = Vec::new(alloc);
    for property in &block.properties {
        let (key, value) = (property.key.as_slice(), property.value.as_slice());
        texts.push(PropertyText { key, value })?;
    }
    let found = table.number_of_texts(block.name.as_slice(), &mut texts)?;
    expect_equal(rt, found, want);
    Ok(())
}

/// Blocks that a table is given one after the other have the numbers from 10 on, and another of their hash has none.
fn expect_numbers(rt: &impl Abort, alloc: Global, blocks: [(&str, &str); 4]) -> Result<(), Fault> {
    let mut table = StateTable::new(alloc)?;
    for (name, kind) in blocks {
        table.intern(&block(alloc, name, kind)?)?;
    }
    expect_equal(rt, table.len(), 14);
    for (index, names) in blocks.iter().enumerate() {
        expect_number(rt, alloc, &table, *names, Some(10 + index as u16))?;
    }
    expect_number(rt, alloc, &table, ("granite_", "polished"), None)?;
    expect_number(rt, alloc, &table, ("granites", "polishes"), None)
}

#[test]
fn states_of_one_hash_have_numbers_of_their_own(rt: HostRuntime) -> Result<(), Fail> {
    let (alloc, first, last) = (
        rt.alloc(),
        ("andesite", "polished"),
        ("tuff____", "chiseled"),
    );
    let (second, third) = (("andesite", "polishes"), ("granites", "polished"));
    expect_numbers(&rt, alloc, [first, second, third, last])?;
    expect_numbers(&rt, alloc, [last, third, second, first])?;
    expect_numbers(&rt, alloc, [third, first, last, second])?;
    Ok(())
}
