//! Light by hand, and against plain sweeps.
use crate::states::{GLOWSTONE, SOAKED_SLAB, STONE, drawn_kinds, kinds, kinds_with_slab};
use crate::sweeps::{Draws, byte, differences, half_byte, is_dark, position, swept};
use crate::worlds::{air, put};
use av_chunk::ChunkLight;
use av_light::{Flood, flood, light_all, light_of_chunk};
use av_rules::Kinds;
use av_types::{ChunkPos, Fault, Height, Pos};
use av_world::World;
use std::alloc::Global;
use std::process::Abort;
use std::test::Fail;
use std::thread::Threads;

const ORIGIN: ChunkPos = ChunkPos { x: 0, z: 0 };

const EAST: ChunkPos = ChunkPos { x: 1, z: 0 };

const ONE_SECTION: Height = Height {
    min_section: 0,
    sections: 1,
};

const FOUR: [(i32, i32); 4] = [(0, 0), (1, 0), (0, 1), (1, 1)];

fn at(x: i32, y: i32, z: i32) -> Pos {
    Pos { x, y, z }
}

/// Stone in one layer of the four chunks.
fn floor(world: &mut World, y: i32) -> Result<(), Fault> {
    for index in 0..1024 {
        put(world, at(index % 32, y, index / 32), STONE)?;
    }
    Ok(())
}

/// A block of the lowest section of the chunk at the origin, by its place.
fn in_origin(place: u32) -> Pos {
    at(
        (place % 16) as i32,
        (place / 256) as i32,
        (place / 16 % 16) as i32,
    )
}

/// A world with a chunk of air at each position, but for these blocks.
fn with_blocks(
    alloc: Global,
    height: Height,
    chunks: &[(i32, i32)],
    blocks: &[(Pos, u16)],
) -> Result<World, Fault> {
    let mut world = air(alloc, height, chunks)?;
    for (pos, number) in blocks {
        put(&mut world, *pos, *number)?;
    }
    Ok(world)
}

/// The same of the game's height, with stone at y 63.
fn with_floor(alloc: Global, chunks: &[(i32, i32)], blocks: &[(Pos, u16)]) -> Result<World, Fault> {
    let mut world = with_blocks(alloc, Height::game(), chunks, blocks)?;
    floor(&mut world, 63)?;
    Ok(world)
}

/// The board of the chunk at the origin.
fn flooded(alloc: Global, world: &World) -> Result<Flood, Fault> {
    flood(alloc, world, &kinds(alloc)?, ORIGIN)
}

/// The light of a chunk.
fn lit(alloc: Global, world: &World, chunk: ChunkPos) -> Result<ChunkLight, Fault> {
    light_of_chunk(alloc, world, &kinds(alloc)?, chunk)
}

/// The light of all chunks.
fn all_lit(
    rt: &(impl Threads + Sync),
    alloc: Global,
    world: &World,
) -> Result<Vec<ChunkLight>, Fault> {
    light_all(rt, alloc, world, &kinds(alloc)?)
}

/// These blocks have this light.
fn expect_lights(rt: &impl Abort, board: &Flood, wants: &[(Pos, u8)]) {
    for (pos, light) in wants {
        assert_eq!(rt; board.light(*pos), *light, "{pos:?}");
    }
}

/// How many blocks have another light by plain sweeps.
fn differ(
    rt: &(impl Threads + Sync),
    alloc: Global,
    world: &World,
    kinds: &Kinds,
) -> Result<usize, Fault> {
    let lights = light_all(rt, alloc, world, kinds)?;
    let slow = swept(alloc, world, kinds)?;
    Ok(differences(lights.as_slice(), slow.as_slice()))
}

/// Glowstone, and stone east of it. Light has four steps round the stone, and goes to no block that is not loaded.
#[test]
fn light_goes_round_a_stone(rt: HostRuntime) -> Result<(), Fail> {
    let blocks = [(at(8, 70, 8), GLOWSTONE), (at(9, 70, 8), STONE)];
    let world = with_floor(rt.alloc(), &[(0, 0)], &blocks)?;
    let wants = [
        (at(8, 70, 8), 15),
        (at(7, 70, 8), 14),
        (at(9, 70, 8), 0),
        (at(10, 70, 8), 11),
        (at(8, 64, 8), 9),
        (at(8, 63, 8), 0),
        (at(15, 70, 8), 6),
        (at(16, 70, 8), 0),
    ];
    expect_lights(&rt, &flooded(rt.alloc(), &world)?, &wants);
    Ok(())
}

/// A soaked slab stops light by its row, 8, and not as water, which stops 1: round it there are four steps. It gives light by
/// its row too, where that is 5, and water none.
#[test]
fn light_of_a_soaked_slab_goes_by_its_row(rt: HostRuntime) -> Result<(), Fail> {
    let alloc = rt.alloc();
    let blocks = [
        (at(8, 70, 8), GLOWSTONE),
        (at(9, 70, 8), SOAKED_SLAB),
        (at(8, 100, 8), SOAKED_SLAB),
    ];
    let world = with_floor(alloc, &[(0, 0)], &blocks)?;
    let board = flood(alloc, &world, &kinds_with_slab(alloc)?, ORIGIN)?;
    let wants = [
        (at(8, 70, 8), 15),
        (at(7, 70, 8), 14),
        (at(9, 70, 8), 7),
        (at(10, 70, 8), 11),
        (at(8, 100, 8), 5),
        (at(9, 100, 8), 4),
    ];
    expect_lights(&rt, &board, &wants);
    Ok(())
}

/// Two chunks, and glowstone by their edge.
fn at_the_edge(alloc: Global) -> Result<World, Fault> {
    with_floor(alloc, &[(1, 0), (0, 0)], &[(at(15, 64, 8), GLOWSTONE)])
}

/// Light goes into the chunk beside.
#[test]
fn light_crosses_a_chunks_edge(rt: HostRuntime) -> Result<(), Fail> {
    let world = at_the_edge(rt.alloc())?;
    for (chunk, index, light) in [
        (ORIGIN, 71, 0xfe),
        (EAST, 64, 0xde),
        (EAST, 70, 0x12),
        (EAST, 71, 0x00),
    ] {
        let found = lit(rt.alloc(), &world, chunk)?;
        assert_eq!(rt; byte(&found, 8, index), Some(light));
    }
    Ok(())
}

/// By z and then by x, as the chunks stand.
#[test]
fn all_chunks_have_their_light(rt: HostRuntime) -> Result<(), Fail> {
    let world = at_the_edge(rt.alloc())?;
    let lights = all_lit(&rt, rt.alloc(), &world)?;
    for (index, chunk) in [(0, ORIGIN), (1, EAST)] {
        let light = lit(rt.alloc(), &world, chunk)?;
        assert!(rt; lights.get(index) == Some(&light));
    }
    Ok(())
}

#[test]
fn light_goes_with_its_emitter(rt: HostRuntime) -> Result<(), Fail> {
    let mut world = at_the_edge(rt.alloc())?;
    put(&mut world, at(15, 64, 8), 0)?;
    let lights = all_lit(&rt, rt.alloc(), &world)?;
    assert_eq!(rt; lights.len(), 2);
    assert!(rt; lights.iter().all(|light| is_dark(light)));
    Ok(())
}

/// A chunk of one section with a wall of stone at x 9, and glowstone west of it at the top and at the bottom.
fn walled(alloc: Global) -> Result<World, Fault> {
    let blocks = [(at(8, 15, 8), GLOWSTONE), (at(8, 0, 8), GLOWSTONE)];
    let mut world = with_blocks(alloc, ONE_SECTION, &[(0, 0)], &blocks)?;
    for index in 0..256 {
        put(&mut world, at(9, index / 16, index % 16), STONE)?;
    }
    Ok(world)
}

/// A wall of stone over the whole height: no way leads over it or under it.
#[test]
fn light_stays_in_the_height(rt: HostRuntime) -> Result<(), Fail> {
    let world = walled(rt.alloc())?;
    let wants = [
        (at(7, 15, 8), 14),
        (at(10, 15, 8), 0),
        (at(10, 0, 8), 0),
        (at(8, 16, 8), 0),
        (at(8, -1, 8), 0),
    ];
    expect_lights(&rt, &flooded(rt.alloc(), &world)?, &wants);
    Ok(())
}

/// A light has 2,048 bytes for each of 16 sections.
#[test]
fn a_light_has_all_sections(rt: HostRuntime) -> Result<(), Fail> {
    let height = Height {
        min_section: 0,
        sections: 16,
    };
    let world = air(rt.alloc(), height, &[(0, 0)])?;
    let light = lit(rt.alloc(), &world, ORIGIN)?;
    assert_eq!(rt; light.len(), 16);
    let ends = (byte(&light, 15, 2047), byte(&light, 15, 2048));
    assert_eq!(rt; ends, (Some(0), None));
    Ok(())
}

/// Glowstone in a corner of the chunk at the origin.
const CORNER: [(Pos, u16); 1] = [(Pos { x: 15, y: 8, z: 15 }, GLOWSTONE)];

/// From a corner light comes to the chunk across it only through one of the two beside.
#[test]
fn light_goes_over_no_corner(rt: HostRuntime) -> Result<(), Fail> {
    let apart = with_blocks(rt.alloc(), ONE_SECTION, &[(0, 0), (1, 1)], &CORNER)?;
    let across = ChunkPos { x: 1, z: 1 };
    let board = flood(rt.alloc(), &apart, &kinds(rt.alloc())?, across)?;
    assert_eq!(rt; board.light(at(16, 8, 16)), 0);
    Ok(())
}

#[test]
fn light_goes_through_loaded_chunks(rt: HostRuntime) -> Result<(), Fail> {
    let world = with_blocks(rt.alloc(), ONE_SECTION, &FOUR, &CORNER)?;
    let lights = all_lit(&rt, rt.alloc(), &world)?;
    for (x, z, light) in [(15, 15, 15), (16, 15, 14), (15, 16, 14), (16, 16, 13)] {
        let found = half_byte(lights.as_slice(), 8 * 1024 + 32 * z + x);
        assert_eq!(rt; found, Some(light));
    }
    Ok(())
}

/// The light at (15, 8, 8) of glowstone at y 8 and z 8, and whether the chunk at the origin is dark.
fn light_from(alloc: Global, x: i32) -> Result<(u8, bool), Fault> {
    let world = with_blocks(alloc, ONE_SECTION, &FOUR, &[(at(x, 8, 8), GLOWSTONE)])?;
    let light = flooded(alloc, &world)?.light(at(15, 8, 8));
    Ok((light, is_dark(&lit(alloc, &world, ORIGIN)?)))
}

/// An emitter 14 blocks from a chunk lights it, one that is 15 blocks away does not.
#[test]
fn light_goes_fourteen_blocks(rt: HostRuntime) -> Result<(), Fail> {
    assert_eq!(rt; light_from(rt.alloc(), 29)?, (1, false));
    assert_eq!(rt; light_from(rt.alloc(), 30)?, (0, true));
    Ok(())
}

/// Ten emitters over four flat chunks.
fn ten_emitters(alloc: Global) -> Result<World, Fault> {
    let height = Height {
        min_section: 0,
        sections: 2,
    };
    let mut world = air(alloc, height, &FOUR)?;
    floor(&mut world, 6)?;
    let mut draws = Draws::new(10);
    for _ in 0..10 {
        let pos = position(7168 + draws.below(25600));
        put(&mut world, pos, GLOWSTONE + draws.below(5) as u16)?;
    }
    Ok(world)
}

#[test]
fn a_flat_world_is_lit_as_by_sweeps(rt: HostRuntime) -> Result<(), Fail> {
    let world = ten_emitters(rt.alloc())?;
    let kinds = kinds(rt.alloc())?;
    assert_eq!(rt; differ(&rt, rt.alloc(), &world, &kinds)?, 0);
    Ok(())
}

#[test]
fn no_emitter_gives_no_light(rt: HostRuntime) -> Result<(), Fail> {
    let world = air(rt.alloc(), ONE_SECTION, &FOUR)?;
    assert_eq!(rt; flooded(rt.alloc(), &world)?.settled(), 0);
    let kinds = kinds(rt.alloc())?;
    assert_eq!(rt; differ(&rt, rt.alloc(), &world, &kinds)?, 0);
    Ok(())
}

/// Fifteen hundred emitters in one chunk.
fn many_emitters(alloc: Global) -> Result<World, Fault> {
    let mut world = air(alloc, ONE_SECTION, &FOUR)?;
    for index in 0..1500u32 {
        let pos = in_origin(index * 2731 % 4096);
        put(&mut world, pos, GLOWSTONE + (index % 5) as u16)?;
    }
    Ok(world)
}

#[test]
fn many_emitters_are_lit_as_by_sweeps(rt: HostRuntime) -> Result<(), Fail> {
    let world = many_emitters(rt.alloc())?;
    let kinds = kinds(rt.alloc())?;
    assert_eq!(rt; differ(&rt, rt.alloc(), &world, &kinds)?, 0);
    Ok(())
}

/// A number of a state for a block: mostly one that lets light through, else one of any opacity, or one that gives light.
fn drawn(draws: &mut Draws) -> u16 {
    let kind = match draws.below(16) {
        0 => 16 + draws.below(16),
        1..=3 => draws.below(16),
        _ => 7 * draws.below(2),
    };
    10 + kind as u16
}

/// Four chunks of blocks drawn at random.
fn drawn_world(alloc: Global, seed: u64) -> Result<World, Fault> {
    let mut draws = Draws::new(seed);
    let mut world = air(alloc, ONE_SECTION, &FOUR)?;
    for index in 0..16384 {
        put(&mut world, position(index), drawn(&mut draws))?;
    }
    Ok(world)
}

/// Worlds drawn at random, with opacities 0 to 15 and emitters side by side.
#[test]
fn drawn_worlds_are_lit_as_by_sweeps(rt: HostRuntime) -> Result<(), Fail> {
    let kinds = drawn_kinds(rt.alloc())?;
    for seed in [1, 2, 3] {
        let world = drawn_world(rt.alloc(), seed)?;
        assert_eq!(rt; differ(&rt, rt.alloc(), &world, &kinds)?, 0, "seed {seed}");
    }
    Ok(())
}

/// A board has 14 blocks on each side of the chunk.
#[test]
fn a_board_is_settled_block_by_block(rt: HostRuntime) -> Result<(), Fail> {
    let mut board = Flood::new(rt.alloc(), ORIGIN, Height::game())?;
    for (x, inside) in [(-15, false), (-14, true), (29, true), (30, false)] {
        assert_eq!(rt; board.is_on(at(x, 64, 0)), inside);
    }
    let pos = at(-14, 319, 29);
    if board.is_on(pos) && !board.is_settled(pos) {
        board.settle(pos, 7);
    }
    assert!(rt; board.is_settled(pos));
    assert_eq!(rt; board.light(pos), 7);
    assert_eq!(rt; board.light(at(-13, 319, 29)), 0);
    assert_eq!(rt; board.settled(), 1);
    Ok(())
}

/// A broken world has no light.
#[test]
fn a_broken_world_is_refused(rt: HostRuntime) -> Result<(), Fail> {
    let mut world = air(rt.alloc(), Height::game(), &[(0, 0)])?;
    world.give_up();
    assert!(rt; flooded(rt.alloc(), &world).is_err());
    assert!(rt; lit(rt.alloc(), &world, ORIGIN) == Err(Fault::Broken));
    assert!(rt; all_lit(&rt, rt.alloc(), &world) == Err(Fault::Broken));
    Ok(())
}
