//! What water knows of soaked blocks.
use crate::expecting::expect_equal;
use crate::tests::{row, state};
use av_rules::{Kinds, Rules};
use av_state::{State, StateTable};
use av_types::{Fault, Wet};
use std::alloc::Global;
use std::process::Abort;
use std::test::Fail;

/// Of the slab with `waterlogged=true`, the one with `waterlogged=false` and kelp, by the table's begin and a line of kelp's row:
/// from version 2 on `true` is a source and nothing else, and without `wet` a row soaks nothing.
const SOAKED: [(&str, &str, [Wet; 3]); 5] = [
    ("version = 1", "", [Wet::Dry, Wet::Dry, Wet::Dry]),
    ("version = 2", "", [Wet::Source, Wet::Dry, Wet::Dry]),
    (
        "version = 2",
        "wet = true\n",
        [Wet::Source, Wet::Dry, Wet::Source],
    ),
    (
        "version = 2",
        "wet = false\n",
        [Wet::Source, Wet::Dry, Wet::Dry],
    ),
    (
        "version = 3\nmin_section = 0\nsections = 1",
        "wet = true\n",
        [Wet::Source, Wet::Dry, Wet::Source],
    ),
];

/// A table gives a state this number.
fn expect_number(rt: &impl Abort, table: &mut StateTable, state: &State, want: u16) {
    expect_equal(rt, table.intern(state), Ok(want));
}

/// A table in which the slab with `waterlogged=true` is number 10, the one with `waterlogged=false` 11 and kelp 12.
fn soaked_table(rt: &impl Abort, alloc: Global) -> Result<StateTable, Fault> {
    let mut table = StateTable::new(alloc)?;
    for (number, logged) in [(10, "true"), (11, "false")] {
        let pairs = [("type", "bottom"), ("waterlogged", logged)];
        let slab = state(alloc, "minecraft:oak_slab", &pairs)?;
        expect_number(rt, &mut table, &slab, number);
    }
    let kelp = state(alloc, "minecraft:kelp", &[])?;
    expect_number(rt, &mut table, &kelp, 12);
    Ok(table)
}

/// Rules of a table's begin and a row of kelp, with this line.
fn kelp_rules(alloc: Global, begin: &str, line: &str) -> Result<Rules, Fault> {
    let kelp =
        "[[block]]\nname = \"minecraft:kelp\"\nopen = false\nfloor = false\nopacity = 1\nemission = 0\n";
    let document = format!(in alloc; "{begin}\n{kelp}{line}")?;
    Rules::read(alloc, document.as_bytes())
}

/// The kind of a number is so wet, and of the states beside the first ten the row of each source is soaked.
fn expect_wet(rt: &impl Abort, kinds: &Kinds, number: u16, want: Wet) {
    assert!(rt; (number as usize) < kinds.count());
    assert_eq!(rt; kinds.wet(number), want, "number {number}");
    let is_soaked = number > 9 && want == Wet::Source;
    assert_eq!(rt; kinds.row(number).wet, is_soaked, "number {number}");
}

/// The kinds of `soaked_table` by these rules: those of the two slabs and of kelp are so wet.
fn expect_wets(
    rt: &impl Abort,
    alloc: Global,
    rules: &Rules,
    wants: [Wet; 3],
) -> Result<(), Fault> {
    let kinds = Kinds::new(alloc, soaked_table(rt, alloc)?, rules)?;
    expect_equal(rt, (kinds.table().len(), kinds.count()), (13, 13));
    let [logged, dry, kelp] = wants;
    for (number, want) in [
        (1, Wet::Source),
        (9, Wet::Falling),
        (10, logged),
        (11, dry),
        (12, kelp),
    ] {
        expect_wet(rt, &kinds, number, want);
    }
    Ok(())
}

#[test]
fn soaked_states_are_sources(rt: HostRuntime) -> Result<(), Fail> {
    for (begin, line, wants) in &SOAKED {
        let rules = kelp_rules(rt.alloc(), *begin, *line)?;
        expect_wets(&rt, rt.alloc(), &rules, *wants)?;
    }
    Ok(())
}
