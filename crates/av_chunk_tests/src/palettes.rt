//! Sections by hand, written with the states that they have.
ghost use Rattle.av_state.specs.Table.{states};

use crate::expecting::{expect_equal, expect_true};
use crate::stored::{
    entry, expect_number, expect_sizes, expect_written, one_entry, palette, sizes, two_longs,
};
use av_section::Section;
use av_state::StateTable;
use av_tags::Tag;
use av_types::{Fault, Place};
use std::alloc::Global;
use std::test::Fail;

/// A section of so many states with these longs.
fn section_of(
    alloc: Global,
    table: &mut StateTable,
    states: u16,
    longs: Vec<i64>,
) -> Result<Section, Fault> {
    let palette = palette(alloc, states)?;
    let longs = Tag::long_array(longs);
    Section::read(alloc, Some(&palette), Some(&longs), table)
}

/// 17 states, numbered from 10 on, and twelve indices of 5 bits in a long. All longs are 0 except long 1, which is 12,
/// and the last: place 12 has index 12, places 4092 to 4095 have 12, 13, 14 and 15, and all others have 0.
#[test]
fn places_have_the_numbers_of_their_states(rt: HostRuntime) -> Result<(), Fail> {
    let mut table = StateTable::new(rt.alloc())?;
    let section = section_of(rt.alloc(), &mut table, 17, two_longs(rt.alloc())?)?;
    expect_equal(&rt, table.len(), 27);
    expect_sizes(&rt, &section, (17, 342, 5));
    for (place, number) in [(12, 22), (4092, 22), (4095, 25)] {
        expect_number(&rt, &section, place, number);
    }
    Ok(())
}

/// 16 numbers have indices of 4 bits, and one more makes them 5.
#[test]
fn a_prepared_section_reads_as_before(rt: HostRuntime) -> Result<(), Fail> {
    let mut section = Section::filled(rt.alloc(), 3)?;
    let place = Place::new(700);
    expect_equal(&rt, sizes(&section).1, 0);
    section.set(place, 3);
    section.add_pending(place);
    section.prepare(&[0, 1, 2, 3, 4, 5, 6, 7, 8, 9, 10, 11, 12, 13, 14, 15])?;
    expect_sizes(&rt, &section, (16, 256, 4));
    section.prepare(&[16, 2])?;
    expect_sizes(&rt, &section, (17, 342, 5));
    let found = (
        section.get(place),
        section.get(Place::new(4095)),
        section.pending(place),
    );
    expect_equal(&rt, found, (3, 3, true));
    section.remove_pending(place);
    expect_true(&rt, !section.pending(place));
    Ok(())
}

/// Sets a place to a number that the palette need not have.
fn set_prepared(section: &mut Section, place: Place, number: u16) -> Result<(), Fault> {
    section.prepare(&[number])?;
    section.set(place, number);
    Ok(())
}

/// 16 states in use, the index of place i being i mod 16, and one more number: the states are numbered from 10 on.
#[test]
fn wider_indices_keep_every_place(rt: HostRuntime) -> Result<(), Fail> {
    let mut table = StateTable::new(rt.alloc())?;
    let longs = vec![in rt.alloc(); 0xFEDC_BA98_7654_3210_u64.cast_signed(); 256]?;
    let mut section = section_of(rt.alloc(), &mut table, 16, longs)?;
    expect_equal(&rt, sizes(&section).2, 4);
    section.prepare(&[3])?;
    expect_sizes(&rt, &section, (17, 342, 5));
    expect_equal(&rt, section.parts().1.last(), Some(&506284));
    for index in 0..4096 {
        expect_number(&rt, &section, index, 10 + index % 16);
    }
    set_prepared(&mut section, Place::new(100), 3)?;
    for (place, number) in [(99, 13), (100, 3), (101, 15)] {
        expect_number(&rt, &section, place, number);
    }
    Ok(())
}

/// The longs of indices of 12 bits, the index of place i being i: five indices are in a long.
fn rising_longs(alloc: Global) -> Result<Vec<i64>, Fault> {
    let mut longs = Vec::new(alloc);
    let mut long: i64 = 0x0004_0030_0200_1000;
    for _ in 0..819 {
        longs.push(long)?;
        long = long.wrapping_add(0x0005_0050_0500_5005);
    }
    longs.push(4095)?;
    Ok(longs)
}

/// 4,096 states, one a place, and then air and the nine water states, which no place has.
#[test]
fn unused_numbers_are_not_written(rt: HostRuntime) -> Result<(), Fail> {
    let mut table = StateTable::new(rt.alloc())?;
    let palette = palette(rt.alloc(), 4096)?;
    let longs = Tag::long_array(rising_longs(rt.alloc())?);
    let mut section = Section::read(rt.alloc(), Some(&palette), Some(&longs), &mut table)?;
    section.prepare(&[0, 1, 2, 3, 4, 5, 6, 7, 8, 9])?;
    expect_sizes(&rt, &section, (4106, 1024, 13));
    expect_written(&rt, rt.alloc(), &section, &table, &palette, Some(&longs))
}

/// 16 states, the index of place i being i mod 16: they are written as they were read.
#[test]
fn a_palette_in_order_is_written_as_it_stands(rt: HostRuntime) -> Result<(), Fail> {
    let mut table = StateTable::new(rt.alloc())?;
    let palette = palette(rt.alloc(), 16)?;
    let digits = vec![in rt.alloc(); 0xFEDC_BA98_7654_3210_u64.cast_signed(); 256]?;
    let longs = Tag::long_array(digits);
    let section = Section::read(rt.alloc(), Some(&palette), Some(&longs), &mut table)?;
    expect_written(&rt, rt.alloc(), &section, &table, &palette, Some(&longs))
}

/// A section of air alone has no longs.
#[test]
fn air_is_written_without_longs(rt: HostRuntime) -> Result<(), Fail> {
    let palette = one_entry(rt.alloc(), entry(rt.alloc(), b"minecraft:air")?)?;
    let table = StateTable::new(rt.alloc())?;
    let section = Section::filled(rt.alloc(), 0)?;
    expect_written(&rt, rt.alloc(), &section, &table, &palette, None)
}
