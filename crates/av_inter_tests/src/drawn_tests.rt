//! Drawn worlds, and drawn lists of events: each gives the tick of one thread.
ghost use Rattle.std.specs.Prelude.{◌<◌};

use crate::drawn::{bring_all_back, drawn_world, play_drawn};
use crate::parts::{end_of, started, stone_kinds, ticked};
use av_types::{ChunkPos, Fault, Pos};
use av_world::World;
use av_world_tests::reads::{entries_in, number_at};
use std::alloc::Global;
use std::process::Abort;
use std::test::Fail;

/// The layers that a tick of a drawn world may change, and some around them.
const BLOCKS: u32 = 28_672;

/// The blocks of those layers, by y, z and x.
fn block_of(index: u32) -> Pos
    requires { index < 28672 }
{
    Pos {
        x: (index % 32) as i32,
        y: (index / 512) as i32 + 56,
        z: (index / 32 % 16) as i32,
    }
}

/// Two worlds have the same blocks.
fn expect_blocks(rt: &impl Abort, world: &World, other: &World) {
    for index in 0..BLOCKS {
        let pos = block_of(index);
        assert_eq!(rt; number_at(world, pos), number_at(other, pos), "{pos:?}");
    }
}

/// Two worlds have the same lists.
fn expect_lists(rt: &impl Abort, alloc: Global, world: &World, other: &World) -> Result<(), Fault> {
    for x in 0..2 {
        let list = entries_in(alloc, world, ChunkPos { x, z: 0 })?;
        let others = entries_in(alloc, other, ChunkPos { x, z: 0 })?;
        assert_eq!(rt; list.as_slice(), others.as_slice());
    }
    Ok(())
}

/// Some drawn events in a drawn world, and then those that are left: the tick of one thread.
fn expect_tick(rt: &impl Abort, alloc: Global, seed: u32) -> Result<(), Fault> {
    let kinds = stone_kinds(alloc)?;
    let mut core = started(alloc, drawn_world(alloc, seed)?, &kinds, 6)?;
    let count = play_drawn(&mut core, seed);
    assert!(rt; 10 <= count, "seed {seed}");
    bring_all_back(&mut core);
    let after = end_of(core)?;
    let tick = ticked(drawn_world(alloc, seed)?, &kinds, 6)?;
    expect_blocks(rt, &after, &tick);
    expect_lists(rt, alloc, &after, &tick)
}

#[test]
fn drawn_events_give_the_tick(rt: HostRuntime) -> Result<(), Fail> {
    for seed in 0..12 {
        expect_tick(&rt, rt.alloc(), seed)?;
    }
    Ok(())
}
