//! Block states and their numbers, by hand.
use crate::expecting::{expect_equal, expect_true};
use av_state::{Property, PropertyText, State, StateTable};
use av_types::{Fault, Wet};
use std::alloc::Global;
use std::process::Abort;
use std::test::Fail;

/// A property of a key and a value.
fn property(alloc: Global, key: &str, value: &str) -> Result<Property, Fault> {
    Ok(Property {
        key: Vec::from_slice(alloc, key.as_bytes())?,
        value: Vec::from_slice(alloc, value.as_bytes())?,
    })
}

/// A state of a name, and of keys and values.
fn state(alloc: Global, name: &str, pairs: &[(&str, &str)]) -> Result<State, Fault> {
    let mut properties = Vec::new(alloc);
    for (key, value) in pairs {
        properties.push(property(alloc, *key, *value)?)?;
    }
    State::new(Vec::from_slice(alloc, name.as_bytes())?, properties)?.ok_or(Fault::BadPalette)
}

/// A table gives a state this number.
fn expect_number(rt: &impl Abort, table: &mut StateTable, state: &State, want: u16) {
    expect_equal(rt, table.intern(state), Ok(want));
}

/// A table gives the state of a name, and of keys and values, this number.
fn expect_interned(
    rt: &impl Abort,
    alloc: Global,
    table: &mut StateTable,
    name: &str,
    pairs: &[(&str, &str)],
    want: u16,
) -> Result<(), Fault> {
    let state = state(alloc, name, pairs)?;
    expect_number(rt, table, &state, want);
    Ok(())
}

#[test]
fn numbers_air(rt: HostRuntime) -> Result<(), Fail> {
    let mut table = StateTable::new(rt.alloc())?;
    expect_equal(&rt, (table.len(), table.is_empty()), (10, false));
    expect_interned(&rt, rt.alloc(), &mut table, "minecraft:air", &[], 0)?;
    expect_interned(
        &rt,
        rt.alloc(),
        &mut table,
        "minecraft:air",
        &[("lit", "true")],
        0,
    )?;
    expect_equal(&rt, table.len(), 10);
    Ok(())
}

#[test]
fn air_is_dry(rt: HostRuntime) -> Result<(), Fail> {
    let air = state(rt.alloc(), "minecraft:air", &[("lit", "true")])?;
    expect_equal(&rt, (air.is_air(), air.is_water()), (true, false));
    expect_equal(&rt, air.wet(), Wet::Dry);
    Ok(())
}

#[test]
fn numbers_a_source(rt: HostRuntime) -> Result<(), Fail> {
    let mut table = StateTable::new(rt.alloc())?;
    expect_interned(&rt, rt.alloc(), &mut table, "minecraft:water", &[], 1)?;
    expect_equal(&rt, table.len(), 10);
    Ok(())
}

#[test]
fn water_without_a_level_is_a_source(rt: HostRuntime) -> Result<(), Fail> {
    let source = state(rt.alloc(), "minecraft:water", &[])?;
    expect_equal(&rt, (source.is_water(), source.is_air()), (true, false));
    expect_equal(&rt, source.wet(), Wet::Source);
    Ok(())
}

/// Water of a level has this number, or no form and no number where it has none.
fn expect_level(
    rt: &impl Abort,
    table: &mut StateTable,
    water: &State,
    level: &str,
    want: Option<u16>,
) {
    let has_number = table.number_of(water).is_some();
    let found = (has_number, water.has_form());
    assert_eq!(rt; found, (want.is_some(), want.is_some()), "level {level}");
    let number = table.intern(water);
    assert_eq!(rt; number, want.ok_or(Fault::BadWaterLevel), "level {level}");
}

/// Water of a level that falls.
fn falling_water(alloc: Global, level: &str) -> Result<State, Fault> {
    let pairs = [("level", level), ("falling", "true")];
    state(alloc, "minecraft:water", &pairs)
}

#[test]
fn numbers_water_by_its_level(rt: HostRuntime) -> Result<(), Fail> {
    let mut table = StateTable::new(rt.alloc())?;
    let cases = [
        ("0", Some(1)),
        ("7", Some(8)),
        ("8", Some(9)),
        ("9", Some(9)),
        ("12", Some(9)),
        ("15", Some(9)),
        ("16", None),
        ("", None),
        ("01", None),
    ];
    for (level, want) in &cases {
        let water = falling_water(rt.alloc(), *level)?;
        expect_level(&rt, &mut table, &water, *level, *want);
    }
    expect_equal(&rt, table.len(), 10);
    Ok(())
}

#[test]
fn tells_how_wet_a_state_is(rt: HostRuntime) -> Result<(), Fail> {
    let table = StateTable::new(rt.alloc())?;
    let wets = [
        Wet::Dry,
        Wet::Source,
        Wet::Flow(7),
        Wet::Flow(6),
        Wet::Flow(5),
        Wet::Flow(4),
        Wet::Flow(3),
        Wet::Flow(2),
        Wet::Flow(1),
        Wet::Falling,
    ];
    for (number, want) in wets.iter().enumerate() {
        assert!(rt; number < table.len());
        assert!(rt; number < 10);
        assert_eq!(rt; table.wet(number as u16), *want, "number {number}");
    }
    Ok(())
}

/// A state prints as this text.
fn expect_text(rt: &impl Abort, alloc: Global, state: &State, want: &[u8]) -> Result<(), Fail> {
    let text = state.text(alloc)?;
    expect_equal(rt, text.as_slice(), want);
    Ok(())
}

/// A furnace with its properties in another order than that of their keys.
fn furnace(alloc: Global) -> Result<State, Fault> {
    let pairs = [("lit", "true"), ("facing", "north")];
    state(alloc, "minecraft:furnace", &pairs)
}

#[test]
fn sorts_properties_and_prints(rt: HostRuntime) -> Result<(), Fail> {
    let furnace = furnace(rt.alloc())?;
    let want = b"minecraft:furnace[facing=north,lit=true]";
    expect_text(&rt, rt.alloc(), &furnace, want.as_slice())?;
    expect_equal(&rt, furnace.value(b"lit"), Some(b"true".as_slice()));
    expect_equal(&rt, furnace.value(b"li"), None);
    Ok(())
}

#[test]
fn prints_states_without_properties(rt: HostRuntime) -> Result<(), Fail> {
    let stone = state(rt.alloc(), "minecraft:stone", &[])?;
    expect_text(&rt, rt.alloc(), &stone, b"minecraft:stone".as_slice())
}

#[test]
fn prints_the_form_of_falling_water(rt: HostRuntime) -> Result<(), Fail> {
    let falling = state(rt.alloc(), "minecraft:water", &[("level", "12")])?;
    let meant = falling.meant(rt.alloc())?;
    let want = b"minecraft:water[level=8]";
    expect_text(&rt, rt.alloc(), &meant, want.as_slice())
}

/// Whether two tables have the same states under the numbers 0 to 9.
fn have_the_same_first_ten(table: &StateTable, other: &StateTable) -> bool {
    for number in 0u16..10 {
        if usize::from(number) >= table.len() || usize::from(number) >= other.len() {
            return false;
        }
        if table.state(number) != other.state(number) {
            return false;
        }
    }
    true
}

/// The name of the block that gets a number.
fn block_name(alloc: Global, number: u16) -> Result<String, Fault> {
    Ok(format!(in alloc; "minecraft:block_{number}")?)
}

/// A block that a table does not have gets this number.
fn expect_new(
    rt: &impl Abort,
    alloc: Global,
    table: &mut StateTable,
    number: u16,
) -> Result<(), Fault> {
    let name = block_name(alloc, number)?;
    let block = state(alloc, name.as_str(), &[])?;
    expect_equal(rt, table.number_of(&block), None);
    expect_number(rt, table, &block, number);
    Ok(())
}

/// A table has the block of a number.
fn expect_kept(
    rt: &impl Abort,
    alloc: Global,
    table: &StateTable,
    number: u16,
) -> Result<(), Fault> {
    assert!(rt; (number as usize) < table.len());
    let block = table.state(number);
    expect_equal(rt, table.number_of(block), Some(number));
    let name = block_name(alloc, number)?;
    expect_equal(rt, block.name.as_slice(), name.as_bytes());
    Ok(())
}

/// A table of 65,535 states: the ten first, and blocks with the numbers from 10 on.
fn full_table(rt: &impl Abort, alloc: Global) -> Result<StateTable, Fault> {
    let mut table = StateTable::new(alloc)?;
    for number in 10u16..65535 {
        expect_new(rt, alloc, &mut table, number)?;
    }
    expect_equal(rt, table.len(), 65535);
    Ok(table)
}

/// A table takes no other state, and stays as it is.
fn expect_full(rt: &impl Abort, alloc: Global, table: &mut StateTable) -> Result<(), Fault> {
    let one_more = state(alloc, "minecraft:one_more", &[])?;
    expect_equal(rt, table.intern(&one_more), Err(Fault::TooManyStates));
    expect_equal(rt, table.len(), 65535);
    Ok(())
}

#[test]
fn takes_65535_states(rt: HostRuntime) -> Result<(), Fail> {
    let mut table = full_table(&rt, rt.alloc())?;
    expect_full(&rt, rt.alloc(), &mut table)?;
    for number in 10u16..65535 {
        expect_kept(&rt, rt.alloc(), &table, number)?;
    }
    expect_true(
        &rt,
        have_the_same_first_ten(&table, &StateTable::new(rt.alloc())?),
    );
    Ok(())
}

/// A text of so many bytes.
fn long_text(alloc: Global, length: usize) -> Result<Vec<u8>, Fault> {
    Ok(vec![in alloc; b'a'; length]?)
}

/// One property, of a key and a value of so many bytes.
fn one(alloc: Global, key: usize, value: usize) -> Result<Vec<Property>, Fault> {
    let mut properties = Vec::new(alloc);
    properties.push(Property {
        key: long_text(alloc, key)?,
        value: long_text(alloc, value)?,
    })?;
    Ok(properties)
}

/// Whether there is a state of a name of so many bytes, with these properties.
fn is_state(alloc: Global, name: usize, properties: Vec<Property>) -> Result<bool, Fault> {
    Ok(State::new(long_text(alloc, name)?, properties)?.is_some())
}

#[test]
fn texts_are_of_65535_bytes_at_most(rt: HostRuntime) -> Result<(), Fail> {
    let alloc = rt.alloc();
    for (length, fits) in [(65535, true), (65536, false)] {
        let named = is_state(alloc, length, Vec::new(alloc))?;
        assert_eq!(rt; named, fits, "a name of {length} bytes");
        let keyed = is_state(alloc, 1, one(alloc, length, 1)?)?;
        assert_eq!(rt; keyed, fits, "a key of {length} bytes");
        let valued = is_state(alloc, 1, one(alloc, 1, length)?)?;
        assert_eq!(rt; valued, fits, "a value of {length} bytes");
    }
    Ok(())
}

#[test]
fn no_key_comes_twice(rt: HostRuntime) -> Result<(), Fail> {
    let alloc = rt.alloc();
    let pairs = [("lit", "true"), ("facing", "north"), ("lit", "false")];
    expect_equal(
        &rt,
        state(alloc, "minecraft:furnace", &pairs),
        Err(Fault::BadPalette),
    );
    expect_equal(
        &rt,
        state(alloc, "minecraft:furnace", &pairs[..2]).is_ok(),
        true,
    );
    Ok(())
}

#[test]
fn a_copy_is_the_same_state(rt: HostRuntime) -> Result<(), Fail> {
    let copy = furnace(rt.alloc())?.clone()?;
    let want = b"minecraft:furnace[facing=north,lit=true]";
    expect_text(&rt, rt.alloc(), &copy, want.as_slice())
}

/// A table answers this number of a name, and of keys and values in that order.
fn expect_known(
    rt: &impl Abort,
    alloc: Global,
    table: &StateTable,
    name: &str,
    pairs: &[(&str, &str)],
    want: Option<u16>,
) -> Result<(), Fault> {
    let mut texts = Vec::new(alloc);
    for (key, value) in pairs {
        let (key, value) = (key.as_bytes(), value.as_bytes());
        texts.push(PropertyText { key, value })?;
    }
    let found = table.number_of_texts(name.as_bytes(), &mut texts)?;
    assert_eq!(rt; found, want, "{name}");
    Ok(())
}

/// Air and water have their numbers from the start, in the form that they take; the furnace is number 10, by its
/// properties in any order.
#[test]
fn numbers_are_found_by_texts(rt: HostRuntime) -> Result<(), Fail> {
    let mut table = StateTable::new(rt.alloc())?;
    let furnace = "minecraft:furnace";
    let lit = [("facing", "north"), ("lit", "true")];
    expect_interned(&rt, rt.alloc(), &mut table, furnace, &lit, 10)?;
    let cases: [(&str, &[(&str, &str)], Option<u16>); 10] = [
        (furnace, &[("facing", "north"), ("lit", "true")], Some(10)),
        (furnace, &[("lit", "true"), ("facing", "north")], Some(10)),
        (furnace, &[("facing", "north")], None),
        (furnace, &[("facing", "north"), ("lit", "false")], None),
        (furnace, &[("lit", "true"), ("lit", "true")], None),
        ("minecraft:air", &[("lit", "true")], Some(0)),
        ("minecraft:air", &[("lit", "true"), ("lit", "true")], None),
        ("minecraft:water", &[], Some(1)),
        ("minecraft:water", &[("level", "9")], Some(9)),
        ("minecraft:water", &[("level", "16")], None),
    ];
    for (name, pairs, want) in cases {
        expect_known(&rt, rt.alloc(), &table, name, pairs, want)?;
    }
    expect_equal(&rt, table.len(), 11);
    Ok(())
}
