//! Sections of a landscape, by what they show.
use crate::cells::{Span, fill, filled, is, scatter, set, span_within};
use crate::dice::Dice;
use crate::packed::{Order, block_states};
use crate::states::{
    AIR, BEDROCK, CAVE_AIR, DEEPSLATE, DIRT, GRASS_BLOCK, LANTERN, LAVA, LEAVES, LOG, ODDITIES,
    ODDITIES_COUNT, ORES, ORES_COUNT, PLANTS, PLANTS_COUNT, STONE, TORCH,
};
use std::alloc::{AllocError, Global};

/// What a section shows.
#[derive(Clone, Copy)]
pub(crate) enum Scenery {
    /// Deepslate with ores, caves, and lava at the bottom of some.
    Deep,
    /// Stone with ores and caves.
    Stone,
    /// The ground and what grows on it.
    Surface,
    /// The ground of a village: torches, and what players leave.
    Village,
    /// A floor of lanterns.
    Lanterns,
    /// A lake of lava.
    LavaLake,
    /// The crowns of trees.
    Crowns,
}

fn layer(y: u32, high: u32) -> Span {
    Span {
        x: 0,
        y,
        z: 0,
        wide: 16,
        high,
        deep: 16,
    }
}

/// Caves, half of them with lava at their bottom where there may be some.
fn carve(cells: &mut [u8], dice: &mut Dice, with_lava: bool) {
    for _ in 0..dice.below(3) {
        let cave = span_within(dice, 8);
        fill(cells, cave, CAVE_AIR);
        if with_lava && dice.below(2) == 0 {
            fill(cells, Span { high: 1, ..cave }, LAVA);
        }
    }
}

fn draw_ground(cells: &mut [u8], dice: &mut Dice, ground: u8, with_lava: bool) {
    let runs = 12 + dice.below(50);
    scatter(cells, dice, ground, ORES, ORES_COUNT, runs);
    if dice.below(12) == 0 {
        scatter(cells, dice, ground, ODDITIES, ODDITIES_COUNT, 24);
    }
    carve(cells, dice, with_lava);
    if with_lava && dice.below(4) == 0 {
        fill(cells, layer(0, 1), BEDROCK);
    }
}

/// The ground of one column, with what stands on it.
fn draw_column(cells: &mut [u8], dice: &mut Dice, x: u32, z: u32, top: u32) {
    let soil = top.saturating_sub(3);
    for y in 0..soil {
        set(cells, x, y, z, STONE);
    }
    for y in soil..top {
        set(cells, x, y, z, DIRT);
    }
    set(cells, x, top, z, GRASS_BLOCK);
    if dice.below(6) == 0 {
        let plant = PLANTS.wrapping_add((dice.below(PLANTS_COUNT) % 256) as u8);
        set(cells, x, top.wrapping_add(1), z, plant);
    }
}

/// Ground whose height changes every four blocks, and the height of its lowest column.
fn draw_hills(cells: &mut [u8], dice: &mut Dice) -> u32 {
    let lowest = 4 + dice.below(5);
    for x in 0..4u32 {
        for z in 0..4u32 {
            let top = lowest + dice.below(3);
            for step in 0..16u32 {
                draw_column(cells, dice, 4 * x + step % 4, 4 * z + step / 4, top);
            }
        }
    }
    lowest
}

/// Torches and what players leave, on the ground.
fn furnish(cells: &mut [u8], dice: &mut Dice, y: u32) {
    for _ in 0..2 {
        set(cells, dice.below(16), y, dice.below(16), TORCH);
    }
    for _ in 0..dice.below(30) {
        let thing = ODDITIES.wrapping_add((dice.below(ODDITIES_COUNT) % 256) as u8);
        set(cells, dice.below(16), y, dice.below(16), thing);
    }
}

fn draw_crown(cells: &mut [u8], dice: &mut Dice) {
    let crown = span_within(dice, 5);
    for step in 0..crown.wide.wrapping_mul(crown.high).wrapping_mul(crown.deep) {
        let (x, y, z) = (
            crown.x.wrapping_add(step % 5),
            crown.y.wrapping_add(step / 25 % 4),
            crown.z.wrapping_add(step / 5 % 5),
        );
        if is(cells, x, y, z, AIR) {
            set(
                cells,
                x,
                y,
                z,
                LEAVES.wrapping_add((dice.below(2) % 2) as u8),
            );
        }
    }
    let trunk = Span {
        wide: 1,
        deep: 1,
        ..crown
    };
    fill(cells, trunk, LOG);
}

fn draw(cells: &mut [u8], dice: &mut Dice, scenery: Scenery) {
    match scenery {
        Scenery::Deep => draw_ground(cells, dice, DEEPSLATE, true),
        Scenery::Stone => draw_ground(cells, dice, STONE, false),
        Scenery::Surface => {
            draw_hills(cells, dice);
        }
        Scenery::Village => {
            let lowest = draw_hills(cells, dice);
            furnish(cells, dice, lowest.wrapping_add(3));
        }
        Scenery::Lanterns => {
            fill(cells, layer(0, 6), STONE);
            fill(cells, layer(6, 1), LANTERN);
        }
        Scenery::LavaLake => {
            draw_hills(cells, dice);
            fill(cells, layer(5 + dice.below(3), 1), LAVA);
        }
        Scenery::Crowns => {
            for _ in 0..1 + dice.below(4) {
                draw_crown(cells, dice);
            }
        }
    }
}

fn ground_of(scenery: Scenery) -> u8 {
    match scenery {
        Scenery::Deep => DEEPSLATE,
        Scenery::Stone => STONE,
        _ => AIR,
    }
}

/// Most palettes stand in the order of their first places.
fn order(dice: &mut Dice) -> Order {
    match dice.below(8) {
        0 => Order::WithSpare(STONE),
        1 => Order::Backwards,
        _ => Order::FirstUse,
    }
}

/// The tag `block_states` of a section.
pub(crate) fn section(
    alloc: Global,
    dice: &mut Dice,
    scenery: Scenery,
) -> Result<Vec<u8>, AllocError> {
    let mut cells = filled(alloc, ground_of(scenery))?;
    draw(cells.as_mut_slice(), dice, scenery);
    block_states(alloc, cells.as_slice(), order(dice))
}
