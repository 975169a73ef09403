//! Sections by hand, read and set.
ghost use Rattle.std.specs.Prelude.{length};
ghost use Rattle.av_state.specs.Table.{states};
ghost use Rattle.av_section.specs.Section.{HasNumbersBelow};

use crate::expecting::expect_equal;
use av_section::{KnownStates, Section};
use av_state::StateTable;
use av_tags::{Named, Tag, TagType};
use av_types::{Fault, Place};
use std::alloc::Global;
use std::process::Abort;
use std::test::Fail;

/// A text under a name.
fn named_text(alloc: Global, name: &[u8], text: &[u8]) -> Result<Named, Fault> {
    let text = Tag::text(Vec::from_slice(alloc, text)?);
    Ok(Named::new(Vec::from_slice(alloc, name)?, text))
}

/// A palette entry of a name.
pub(crate) fn entry(alloc: Global, name: &[u8]) -> Result<Tag, Fault> {
    let mut members = Vec::new(alloc);
    members.push(named_text(alloc, b"Name", name)?)?;
    Ok(Tag::compound(members))
}

/// The palette entries of so many different states, each with a name of two bytes.
fn entries(alloc: Global, count: u16) -> Result<Vec<Tag>, Fault> {
    let mut entries = Vec::new(alloc);
    for number in 0..count {
        entries.push(entry(alloc, number.to_be_bytes().as_slice())?)?;
    }
    Ok(entries)
}

/// A palette of so many different states.
pub(crate) fn palette(alloc: Global, count: u16) -> Result<Tag, Fault> {
    Ok(Tag::list(TagType::Compound, entries(alloc, count)?))
}

/// So many longs, of which the first is given and all others are 0.
fn longs_of(alloc: Global, count: usize, first: i64) -> Result<Tag, Fault> {
    let mut packed = vec![in alloc; 0; count]?;
    if !packed.is_empty() {
        packed[0] = first;
    }
    Ok(Tag::long_array(packed))
}

/// The fault of a palette of so many states with these longs.
fn fault_of(alloc: Global, states: u16, longs: &Tag) -> Result<Option<Fault>, Fault> {
    let palette = palette(alloc, states)?;
    let mut table = StateTable::new(alloc)?;
    Ok(Section::read(alloc, Some(&palette), Some(longs), &mut table).err())
}

/// These longs are refused with this fault for a palette of so many states.
fn expect_fault(
    rt: &impl Abort,
    alloc: Global,
    states: u16,
    longs: (usize, i64),
    want: &Fault,
) -> Result<(), Fault> {
    let (count, first) = longs;
    let longs = longs_of(alloc, count, first)?;
    let fault = fault_of(alloc, states, &longs)?;
    assert!(rt;
        fault.as_ref() == Some(want),
        "{count} longs of {states} states"
    );
    Ok(())
}

/// These longs fit a palette of so many states.
fn expect_read(
    rt: &impl Abort,
    alloc: Global,
    states: u16,
    longs: (usize, i64),
) -> Result<(), Fault> {
    let (count, first) = longs;
    let longs = longs_of(alloc, count, first)?;
    let fault = fault_of(alloc, states, &longs)?;
    assert!(rt; fault.is_none(), "{count} longs of {states} states");
    Ok(())
}

/// A palette of one entry has 256 longs of 0, or none.
#[test]
fn longs_of_one_state(rt: HostRuntime) -> Result<(), Fail> {
    expect_read(&rt, rt.alloc(), 1, (256, 0))?;
    expect_read(&rt, rt.alloc(), 1, (0, 0))?;
    expect_fault(&rt, rt.alloc(), 1, (255, 0), &Fault::BadPacked)?;
    Ok(())
}

/// No index is 2 in a palette of two entries, nor is there one in a palette of none.
#[test]
fn indices_lie_in_their_palette(rt: HostRuntime) -> Result<(), Fail> {
    expect_read(&rt, rt.alloc(), 2, (256, 1))?;
    expect_fault(&rt, rt.alloc(), 2, (256, 2), &Fault::BadPacked)?;
    expect_fault(&rt, rt.alloc(), 0, (0, 0), &Fault::BadPalette)?;
    Ok(())
}

/// The four bits that no index of 5 bits has are ignored.
#[test]
fn longs_of_17_states(rt: HostRuntime) -> Result<(), Fail> {
    expect_read(&rt, rt.alloc(), 17, (342, 0x7000_0000_0000_0000))?;
    expect_fault(&rt, rt.alloc(), 17, (256, 0), &Fault::BadPacked)?;
    Ok(())
}

/// A palette of one entry.
pub(crate) fn one_entry(alloc: Global, entry: Tag) -> Result<Tag, Fault> {
    let mut entries = Vec::new(alloc);
    entries.push(entry)?;
    Ok(Tag::list(TagType::Compound, entries))
}

/// `Properties` of these keys and one value.
fn properties(alloc: Global, keys: &[&[u8]], value: &[u8]) -> Result<Named, Fault> {
    let mut properties = Vec::new(alloc);
    for key in keys {
        properties.push(named_text(alloc, key, value)?)?;
    }
    let name = Vec::from_slice(alloc, b"Properties")?;
    Ok(Named::new(name, Tag::compound(properties)))
}

/// An entry with a name and with properties of these keys and one value.
fn entry_of(alloc: Global, name: &[u8], keys: &[&[u8]], value: &[u8]) -> Result<Tag, Fault> {
    let mut members = Vec::new(alloc);
    members.push(named_text(alloc, b"Name", name)?)?;
    members.push(properties(alloc, keys, value)?)?;
    Ok(Tag::compound(members))
}

/// The fault of a palette of one entry, with a name and with properties of these keys and one value.
fn entry_fault(
    alloc: Global,
    name: &[u8],
    keys: &[&[u8]],
    value: &[u8],
) -> Result<Option<Fault>, Fault> {
    let palette = one_entry(alloc, entry_of(alloc, name, keys, value)?)?;
    let mut table = StateTable::new(alloc)?;
    Ok(Section::read(alloc, Some(&palette), None, &mut table).err())
}

/// A palette with that entry is refused.
fn expect_bad(
    rt: &impl Abort,
    alloc: Global,
    name: &[u8],
    keys: &[&[u8]],
    value: &[u8],
) -> Result<(), Fault> {
    let fault = entry_fault(alloc, name, keys, value)?;
    expect_equal(rt, fault, Some(Fault::BadPalette));
    Ok(())
}

/// A text of a file has at most 65,535 bytes, and `long` has one more.
fn expect_bounded(rt: &impl Abort, alloc: Global, long: &[u8], short: &[u8]) -> Result<(), Fault> {
    expect_bad(rt, alloc, long, &[b"a", b"b"], short)?;
    expect_bad(rt, alloc, short, &[long, b"b"], short)?;
    expect_bad(rt, alloc, short, &[b"a", b"b"], long)?;
    let fault = entry_fault(alloc, short, &[short, b"b"], short)?;
    expect_equal(rt, fault, None);
    Ok(())
}

/// A text of a file has at most 65,535 bytes, and a Compound has no name twice.
#[test]
fn states_that_no_file_has_are_refused(rt: HostRuntime) -> Result<(), Fail> {
    let long = vec![in rt.alloc(); b'a'; 65536]?;
    let short = &long[..65535];
    expect_bounded(&rt, rt.alloc(), &long, short)?;
    expect_bad(&rt, rt.alloc(), short, &[b"a", b"b", b"a"], short)?;
    Ok(())
}

/// How many numbers and longs a section has, and the bits of an index.
pub(crate) fn sizes(section: &Section) -> (usize, usize, u32) {
    let (numbers, longs, bits) = section.parts();
    (numbers.len(), longs.len(), bits)
}

/// A section has so many numbers and longs, and an index so many bits.
pub(crate) fn expect_sizes(rt: &impl Abort, section: &Section, want: (usize, usize, u32)) {
    expect_equal(rt, sizes(section), want);
}

/// A place of a section has this number.
pub(crate) fn expect_number(rt: &impl Abort, section: &Section, place: u16, want: u16) {
    assert!(rt; place < 4096);
    assert_eq!(rt; section.get(Place::new(place)), want, "at {place}");
}

/// A section is written with this palette and these longs.
pub(crate) fn expect_written(
    rt: &impl Abort,
    alloc: Global,
    section: &Section,
    table: &StateTable,
    palette: &Tag,
    longs: Option<&Tag>,
) -> Result<(), Fail>
    requires { HasNumbersBelow section.now (length (states table.now)) }
{
    let (written, packed) = section.write(alloc, table)?;
    expect_equal(rt, &written, palette);
    expect_equal(rt, packed.as_ref(), longs);
    Ok(())
}

/// A palette of one entry with these longs is that state at every place, and it is written without.
fn expect_one_state(
    rt: &impl Abort,
    alloc: Global,
    table: &mut StateTable,
    palette: &Tag,
    longs: Option<&Tag>,
) -> Result<(), Fail> {
    let section = Section::read(alloc, Some(palette), longs, table)?;
    let ends = (section.get(Place::new(0)), section.get(Place::new(4095)));
    expect_equal(rt, ends, (10, 10));
    expect_written(rt, alloc, &section, table, palette, None)
}

/// 256 longs of 0.
fn zeros(alloc: Global) -> Result<Tag, Fault> {
    Ok(Tag::long_array(vec![in alloc; 0; 256]?))
}

/// Longs of 0 are 256, and a second section has the same state.
#[test]
fn one_state_has_no_longs(rt: HostRuntime) -> Result<(), Fail> {
    let palette = palette(rt.alloc(), 1)?;
    let longs = zeros(rt.alloc())?;
    let mut table = StateTable::new(rt.alloc())?;
    expect_one_state(&rt, rt.alloc(), &mut table, &palette, Some(&longs))?;
    expect_one_state(&rt, rt.alloc(), &mut table, &palette, None)?;
    expect_equal(&rt, table.len(), 11);
    Ok(())
}

/// The longs of indices of 5 bits: long 1 is 12 and the last is 506284.
pub(crate) fn two_longs(alloc: Global) -> Result<Vec<i64>, Fault> {
    let mut packed = vec![in alloc; 0; 342]?;
    if packed.len() == 342 {
        packed[1] = 12;
        packed[341] = 506284;
    }
    Ok(packed)
}

/// A section, read by the states that a table knows.
fn read_by_known(
    alloc: Global,
    palette: &Tag,
    longs: Option<&Tag>,
    table: &StateTable,
) -> Result<Section, Fault> {
    Section::read(alloc, Some(palette), longs, &mut KnownStates { table })
}

/// A table that knows a palette's states reads its sections as before and stays as it is. One that lacks a state takes none.
#[test]
fn known_states_are_read_by_their_numbers(rt: HostRuntime) -> Result<(), Fail> {
    let mut table = StateTable::new(rt.alloc())?;
    let (palette, longs) = (palette(rt.alloc(), 17)?, two_longs(rt.alloc())?);
    let longs = Tag::long_array(longs);
    let unknown = read_by_known(rt.alloc(), &palette, Some(&longs), &table);
    expect_equal(&rt, unknown.err(), Some(Fault::TooManyStates));
    let _first = Section::read(rt.alloc(), Some(&palette), Some(&longs), &mut table)?;
    let section = read_by_known(rt.alloc(), &palette, Some(&longs), &table)?;
    expect_sizes(&rt, &section, (17, 342, 5));
    for (place, number) in [(12, 22), (4092, 22), (4095, 25)] {
        expect_number(&rt, &section, place, number);
    }
    let short = read_by_known(rt.alloc(), &palette, None, &table);
    expect_equal(&rt, short.err(), Some(Fault::BadPacked));
    Ok(())
}

/// 38 states, numbered from 10 on, and then the first and the last of them once more. Places 0, 1 and 2 have the indices 38, 39
/// and 37, and all others 0: 38 and 0 are one state, and so are 39 and 37.
#[test]
fn states_that_come_twice_have_one_number(rt: HostRuntime) -> Result<(), Fail> {
    let mut table = StateTable::new(rt.alloc())?;
    let mut entries = entries(rt.alloc(), 38)?;
    for number in [0u16, 37] {
        entries.push(entry(rt.alloc(), number.to_be_bytes().as_slice())?)?;
    }
    let palette = Tag::list(TagType::Compound, entries);
    let longs = longs_of(rt.alloc(), 410, 38 + 39 * 64 + 37 * 4096)?;
    let section = Section::read(rt.alloc(), Some(&palette), Some(&longs), &mut table)?;
    expect_equal(&rt, table.len(), 48);
    expect_sizes(&rt, &section, (38, 410, 6));
    for (place, number) in [(0, 10), (1, 47), (2, 47), (3, 10), (4095, 10)] {
        expect_number(&rt, &section, place, number);
    }
    Ok(())
}
