//! Drawn sections of each scenery, from which chunks are put together.
use crate::dice::Dice;
use crate::sections::{Scenery, section};
use std::alloc::{AllocError, Global};

/// The tags `block_states` of drawn sections.
#[derive(Drop)]
pub(crate) struct Pool {
    pub(crate) deep: Vec<Vec<u8>>,
    pub(crate) stone: Vec<Vec<u8>>,
    pub(crate) surface: Vec<Vec<u8>>,
    pub(crate) village: Vec<Vec<u8>>,
    pub(crate) lanterns: Vec<Vec<u8>>,
    pub(crate) lava: Vec<Vec<u8>>,
    pub(crate) crowns: Vec<Vec<u8>>,
}

fn drawn(
    alloc: Global,
    dice: &mut Dice,
    scenery: Scenery,
    count: u32,
) -> Result<Vec<Vec<u8>>, AllocError> {
    let mut all = Vec::new(alloc);
    for _ in 0..count {
        all.push(section(alloc, dice, scenery)?)?;
    }
    Ok(all)
}

impl Pool {
    /// The sections of a seed.
    pub(crate) fn new(alloc: Global, seed: u32) -> Result<Self, AllocError> {
        let mut dice = Dice::new(seed, 1);
        let dice = &mut dice;
        Ok(Pool {
            deep: drawn(alloc, dice, Scenery::Deep, 160)?,
            stone: drawn(alloc, dice, Scenery::Stone, 160)?,
            surface: drawn(alloc, dice, Scenery::Surface, 64)?,
            village: drawn(alloc, dice, Scenery::Village, 64)?,
            lanterns: drawn(alloc, dice, Scenery::Lanterns, 1)?,
            lava: drawn(alloc, dice, Scenery::LavaLake, 16)?,
            crowns: drawn(alloc, dice, Scenery::Crowns, 64)?,
        })
    }
}

/// One of some sections.
pub(crate) fn pick<'a>(sections: &'a [Vec<u8>], dice: &mut Dice) -> &'a [u8] {
    let index = dice.roll() as usize % sections.len().max(1);
    match sections.get(index) {
        Some(section) => section.as_slice(),
        None => &[],
    }
}
