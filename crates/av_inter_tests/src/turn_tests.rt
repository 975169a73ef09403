//! Entries turned one by one, with what they make put aside.
ghost use Rattle.av_world_tests.specs.Flat.{IsPlain};

use crate::parts::{ORIGIN, at, stone_kinds};
use arrayvec::ArrayVec;
use av_cells::Cells;
use av_play::{DueEntry, turn_one};
use av_rules::Kinds;
use av_types::{Entry, Fault, Height, Made, Pos};
use av_world::World;
use av_world_tests::flat::SOURCE;
use av_world_tests::worlds::{flat_world, put};
use std::alloc::Global;
use std::test::Fail;

/// An entry of a block, at an index of its tick.
fn due(index: u64, pos: Pos) -> DueEntry {
    DueEntry {
        index,
        entry: Entry {
            pos,
            due: 6,
            priority: 0,
        },
    }
}

/// An entry that the one at an index has made, with its number there, for five ticks later.
fn made(maker: u64, number: u8, pos: Pos) -> Made {
    Made {
        maker,
        number,
        entry: Entry {
            pos,
            due: 11,
            priority: 0,
        },
    }
}

/// What two entries make that are turned in tick 6, one after the other.
fn made_by_both(
    alloc: Global,
    world: &mut World,
    kinds: &Kinds,
    first: DueEntry,
    second: DueEntry,
) -> Result<Vec<Made>, Fault>
    requires { IsPlain world.old }
{
    if kinds.count() < 11 {
        return Err(Fault::BadTable);
    }
    let mut added = ArrayVec::new();
    let mut made = Vec::new(alloc);
    if !world.loaded(first.entry.pos) {
        return Err(Fault::EditOutside(0));
    }
    turn_one(world, kinds, 6, first, &mut added, &mut made)?;
    if !world.loaded(second.entry.pos) {
        return Err(Fault::EditOutside(0));
    }
    turn_one(world, kinds, 6, second, &mut added, &mut made)?;
    Ok(made)
}

/// Each has the index of the entry that made it and its number among those of that one, and stands behind what was made before. Water that
/// stands on stone makes five, water that can fall two.
#[test]
fn made_entries_are_labelled(rt: HostRuntime) -> Result<(), Fail> {
    let alloc = rt.alloc();
    let kinds = stone_kinds(alloc)?;
    let mut world = flat_world(alloc, Height::game(), &[ORIGIN])?;
    put(&mut world, at(8, 64, 8), SOURCE)?;
    put(&mut world, at(8, 70, 8), SOURCE)?;
    let (standing, falling) = (due(7, at(8, 64, 8)), due(9, at(8, 70, 8)));
    let found = made_by_both(alloc, &mut world, &kinds, standing, falling)?;
    let want = [
        made(7, 0, at(8, 64, 7)),
        made(7, 1, at(8, 64, 8)),
        made(7, 2, at(8, 64, 9)),
        made(7, 3, at(7, 64, 8)),
        made(7, 4, at(9, 64, 8)),
        made(9, 0, at(8, 69, 8)),
        made(9, 1, at(8, 70, 8)),
    ];
    assert_eq!(rt; found.as_slice(), &want[..]);
    Ok(())
}
