//! Parcels by hand.
ghost use Rattle.std.specs.Prelude.{IfOk};
ghost use Rattle.av_cells.specs.Rule.{HasKinds};
ghost use Rattle.av_world.specs.ParcelViews.{blocks as parcel_blocks};
ghost use Rattle.av_world_tests.specs.Flat.{IsPlain, StaysPart};

use crate::flat::{SOURCE, STONE};
use crate::reads::water_in;
use crate::tests::{
    EAST, FIRST, SOUTH, at, entry, expect_list, expect_numbers, kinds, numbers, one_waiting,
};
use crate::worlds::{carve_at, flat_world, put, put_aside, set_in_parcel, wait};
use av_cells::Cells;
use av_types::{Entry, Fault, Height, Pos};
use av_world::{Parcel, World};
use std::alloc::Global;
use std::process::Abort;
use std::test::Fail;

/// A block of a section, by the section's number from the lowest of the game's height.
fn block_of(section: u8) -> Pos {
    at(0, 16 * i32::from(section) - 64, 0)
}

/// A block of each section of the chunk at the origin.
fn all_of_the_first() -> [Pos; 24] {
    let mut blocks = [at(0, 0, 0); 24];
    for section in 0..24 {
        blocks[usize::from(section)] = block_of(section);
    }
    blocks
}

/// A block of each of 65 sections of the chunks (0, 0), (1, 0) and (0, 1).
fn sixty_five() -> [Pos; 65] {
    let mut blocks = [at(0, 0, 0); 65];
    for section in 0..24 {
        let block = block_of(section);
        blocks[usize::from(section)] = block;
        blocks[usize::from(section + 24)] = at(16, block.y, 0);
    }
    for section in 0..17 {
        blocks[usize::from(section + 48)] = at(0, block_of(section).y, 16);
    }
    blocks
}

/// An entry of the section that is out, and one of the section below it.
const INSIDE: Entry = Entry {
    pos: Pos { x: 8, y: 64, z: 8 },
    due: 5,
    priority: 0,
};

const OUTSIDE: Entry = Entry {
    pos: Pos { x: 8, y: 63, z: 8 },
    due: 5,
    priority: 0,
};

/// The first chunk, in which both wait.
fn two_waiting(alloc: Global) -> Result<World, Fault>
    ensures { IfOk result IsPlain }
{
    let mut world = flat_world(alloc, Height::game(), &[FIRST])?;
    wait(&mut world, INSIDE)?;
    wait(&mut world, OUTSIDE)?;
    Ok(world)
}

/// Blocks by whether they are out: a parcel has those that are, and the world the others.
fn expect_out(rt: &impl Abort, world: &World, parcel: &Parcel, blocks: &[(Pos, bool)]) {
    for (pos, out) in blocks {
        assert_eq!(rt; (world.loaded(*pos), parcel.loaded(*pos)), (!*out, *out));
        let have = (
            world.number_at(*pos).is_some(),
            parcel.number_at(*pos).is_some(),
        );
        assert_eq!(rt; have, (!*out, *out));
    }
}

/// Each entry waits where its block is, and the lists are as they were.
fn expect_both_wait(rt: &impl Abort, world: &World, parcel: &Parcel) {
    let inside_waits = (world.pending(INSIDE.pos), parcel.pending(INSIDE.pos));
    assert_eq!(rt;
        (inside_waits, world.pending(OUTSIDE.pos)),
        ((false, true), true)
    );
    expect_list(rt, world, FIRST, &[INSIDE, OUTSIDE]);
    assert_eq!(rt; world.positions(), [FIRST].as_slice());
}

/// A section that is out is not loaded, and neither blocks nor entries of the others change.
#[test]
fn a_section_that_is_out_is_not_loaded(rt: HostRuntime) -> Result<(), Fail> {
    let mut world = two_waiting(rt.alloc())?;
    let parcel = carve_at(rt.alloc(), &mut world, &[at(0, 64, 0)])?;
    let blocks = [
        (at(0, 64, 0), true),
        (at(15, 79, 15), true),
        (at(0, 63, 0), false),
        (at(0, 80, 0), false),
    ];
    expect_out(&rt, &world, &parcel, blocks.as_slice());
    expect_both_wait(&rt, &world, &parcel);
    world.mend(parcel);
    let back = (world.loaded(at(0, 64, 0)), world.pending(INSIDE.pos));
    assert_eq!(rt; back, (true, true));
    Ok(())
}

/// What is added to a parcel reaches no list, and is forgotten when the parcel comes back.
#[test]
fn what_is_put_aside_reaches_no_list(rt: HostRuntime) -> Result<(), Fail> {
    let before = entry(at(8, 65, 8), 9, 0);
    let aside = entry(at(8, 64, 8), 6, 0);
    let mut world = one_waiting(rt.alloc(), before)?;
    let mut parcel = carve_at(rt.alloc(), &mut world, &[at(0, 64, 0)])?;
    let added = (
        put_aside(&mut parcel, aside)?,
        put_aside(&mut parcel, aside)?,
        put_aside(&mut parcel, before)?,
    );
    assert_eq!(rt;
        (added, parcel.pending(aside.pos)),
        ((true, false, false), true)
    );
    expect_list(&rt, &world, FIRST, &[before]);
    world.mend(parcel);
    let waits = (world.pending(aside.pos), world.pending(before.pos));
    assert_eq!(rt; waits, (false, true));
    expect_list(&rt, &world, FIRST, &[before]);
    Ok(())
}

/// Sets a source in a parcel in tick 1, which makes one entry, due in tick 6.
fn set_source(rt: &impl Abort, alloc: Global, parcel: &mut Parcel, pos: Pos) -> Result<(), Fault>
    requires { HasKinds 11 (parcel_blocks parcel.old) }
    ensures { StaysPart parcel.old parcel.new }
{
    let made = set_in_parcel(parcel, &kinds(alloc)?, 1, pos, SOURCE)?;
    assert_eq!(rt; made.as_slice(), [entry(pos, 6, 0)].as_slice());
    Ok(())
}

/// The only water of a world is a source at (8, 64, 8), and no entry waits.
fn expect_one_source(rt: &impl Abort, alloc: Global, world: &World) -> Result<(), Fault> {
    let pos = at(8, 64, 8);
    assert_eq!(rt;
        (world.number_at(pos), world.pending(pos)),
        (Some(SOURCE), false)
    );
    expect_list(rt, world, FIRST, &[]);
    assert_eq!(rt;
        water_in(alloc, world)?.as_slice(),
        [(8, 64, 8, 0)].as_slice()
    );
    Ok(())
}

/// Blocks that were set on a parcel stay set, and nothing else of a set with its waking does.
#[test]
fn a_parcel_comes_back_with_its_blocks(rt: HostRuntime) -> Result<(), Fail> {
    let mut world = flat_world(rt.alloc(), Height::game(), &[FIRST])?;
    let mut parcel = carve_at(rt.alloc(), &mut world, all_of_the_first().as_slice())?;
    assert!(rt; !world.loaded(at(8, 64, 8)));
    set_source(&rt, rt.alloc(), &mut parcel, at(8, 64, 8))?;
    world.mend(parcel);
    expect_one_source(&rt, rt.alloc(), &world)?;
    Ok(())
}

/// Each of these blocks is out of the world, and in the parcel.
fn expect_all_out(rt: &impl Abort, world: &World, parcel: &Parcel, blocks: &[Pos]) {
    for block in blocks {
        assert_eq!(rt;
            (world.loaded(*block), parcel.loaded(*block)),
            (false, true)
        );
    }
}

/// Each of these blocks is in the world.
fn expect_all_back(rt: &impl Abort, world: &World, blocks: &[Pos]) {
    for block in blocks {
        assert!(rt; world.loaded(*block));
    }
}

/// 65 sections of three chunks come back to their places.
#[test]
fn many_sections_come_back(rt: HostRuntime) -> Result<(), Fail> {
    let mut world = flat_world(rt.alloc(), Height::game(), &[FIRST, EAST, SOUTH])?;
    put(&mut world, at(3, 300, 19), SOURCE)?;
    let blocks = sixty_five();
    let parcel = carve_at(rt.alloc(), &mut world, blocks.as_slice())?;
    expect_all_out(&rt, &world, &parcel, blocks.as_slice());
    // the last is section 12 of the chunk (0, 1)
    let ends = (world.loaded(at(0, 207, 16)), world.loaded(at(0, 208, 16)));
    assert_eq!(rt; ends, (false, true));
    world.mend(parcel);
    expect_all_back(&rt, &world, blocks.as_slice());
    let numbers = [
        (at(0, 63, 0), Some(STONE)),
        (at(0, 47, 0), Some(0)),
        (at(16, 63, 0), Some(STONE)),
        (at(16, 47, 0), Some(0)),
        (at(3, 300, 19), Some(SOURCE)),
    ];
    expect_numbers(&rt, &world, numbers.as_slice());
    Ok(())
}
