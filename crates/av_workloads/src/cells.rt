//! The 4,096 cells of a section, drawn.
ghost use Rattle.std.specs.Prelude.{◌<◌};

use crate::dice::Dice;
use std::alloc::{AllocError, Global};

/// A box of cells: from a corner so many along x, y and z.
#[derive(Clone, Copy)]
pub(crate) struct Span {
    pub(crate) x: u32,
    pub(crate) y: u32,
    pub(crate) z: u32,
    pub(crate) wide: u32,
    pub(crate) high: u32,
    pub(crate) deep: u32,
}

/// All cells of one state.
pub(crate) fn filled(alloc: Global, state: u8) -> Result<Vec<u8>, AllocError> {
    vec![in alloc; state; 4096]
}

/// Sets a cell. Coordinates go round at 16.
pub(crate) fn set(cells: &mut [u8], x: u32, y: u32, z: u32, state: u8) {
    let place = (y % 16 * 256 + z % 16 * 16 + x % 16) as usize;
    if place < cells.len() {
        cells[place] = state;
    }
}

/// Whether a cell has a state.
pub(crate) fn is(cells: &[u8], x: u32, y: u32, z: u32, state: u8) -> bool {
    let place = (y % 16 * 256 + z % 16 * 16 + x % 16) as usize;
    place < cells.len() && cells[place] == state
}

/// A row of cells along x.
fn fill_row(cells: &mut [u8], x: u32, y: u32, z: u32, wide: u32, state: u8) {
    for step in 0..wide {
        set(cells, x.wrapping_add(step), y, z, state);
    }
}

/// Rows of cells along x, beside each other.
fn fill_layer(cells: &mut [u8], span: Span, y: u32, state: u8) {
    for step in 0..span.deep {
        fill_row(
            cells,
            span.x,
            y,
            span.z.wrapping_add(step),
            span.wide,
            state,
        );
    }
}

/// Fills a box.
pub(crate) fn fill(cells: &mut [u8], span: Span, state: u8) {
    for step in 0..span.high {
        fill_layer(cells, span, span.y.wrapping_add(step), state);
    }
}

/// A box somewhere, of at most so many cells along each axis, that does not go round.
pub(crate) fn span_within(dice: &mut Dice, most: u32) -> Span {
    let most = 2 + most % 12;
    let (wide, high, deep) = (
        1 + dice.below(most),
        1 + dice.below(most),
        1 + dice.below(most),
    );
    Span {
        x: dice.below(16u32.saturating_sub(wide).max(1)),
        y: dice.below(16u32.saturating_sub(high).max(1)),
        z: dice.below(16u32.saturating_sub(deep).max(1)),
        wide,
        high,
        deep,
    }
}

/// Short runs along x of states that follow a first one, where the ground is.
pub(crate) fn scatter(
    cells: &mut [u8],
    dice: &mut Dice,
    ground: u8,
    first: u8,
    count: u32,
    runs: u32,
) {
    let kinds = 1 + dice.below(count.max(1));
    for _ in 0..runs {
        let state = first.wrapping_add((dice.below(kinds) % 256) as u8);
        let (x, y, z) = (dice.below(16), dice.below(16), dice.below(16));
        for step in 0..1 + dice.below(4) {
            if is(cells, x.wrapping_add(step), y, z, ground) {
                set(cells, x.wrapping_add(step), y, z, state);
            }
        }
    }
}
