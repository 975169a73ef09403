//! Blocks of a board, with where their bytes stand.
ghost use Rattle.std.specs.Prelude.{◌≡◌, ◌<◌, ◌+◌, ◌*◌, pos, ◌≤ℤ◌, ◌<ℤ◌, ◌+ℤ◌, ◌-ℤ◌, ◌*ℤ◌, IsTrue};
ghost use Rattle.av_flood.specs.Offsets.{IsNth};

use crate::board::Flood;
use crate::bytes::{LAYER, ROW};
use crate::sides::{above, below, east, north, south, west};
use av_types::Pos;

/// A block, and where its byte stands; or a block beside one at the board's end, and where a byte stands that says that no
/// light is of use.
#[derive(Clone, Copy)]
pub(crate) struct Spot {
    pub(crate) pos: Pos,
    pub(crate) index: usize,
}

/// How many blocks a block of the board is from its west, north and lower end.
#[derive(Clone, Copy)]
pub(crate) struct Steps {
    pub(crate) x: u32,
    pub(crate) z: u32,
    pub(crate) y: u32,
}

impl Steps {
    /// Where the block's byte stands, behind a layer of no blocks.
    fn index(self) -> usize
        requires x { self.x < 44 }
        requires z { self.z < 44 }
        requires y { self.y < 65536 }
        ensures { result ≡ 44 * (44 * (self.y + 1) + self.z) + self.x }
    {
        (44 * (44 * (self.y + 1) + self.z) + self.x) as usize
    }
}

/// A number that is not negative.
pub(crate) fn natural(number: i64) -> u32
    requires low { pos 0 ≤ℤ number }
    requires high { number <ℤ pos 4294967296 }
    ensures { number ≡ pos result }
{
    number as u32
}

/// How many blocks after the board's first a coordinate is, along x or z.
fn across(chunk: i32, coordinate: i32) -> u32
    requires low { (pos 16 *ℤ chunk -ℤ pos 14) ≤ℤ coordinate }
    requires high { coordinate <ℤ (pos 16 *ℤ chunk -ℤ pos 14 +ℤ pos 44) }
    ensures { IsNth (pos 16 *ℤ chunk -ℤ pos 14) 44 coordinate result }
{
    let steps = i64::from(coordinate) - (16 * i64::from(chunk) - 14);
    natural(steps)
}

/// How many blocks above the board's lowest a coordinate is, of so many.
fn up(section: i32, size: u32, coordinate: i32) -> u32
    requires low { (pos 16 *ℤ section) ≤ℤ coordinate }
    requires high { coordinate <ℤ (pos 16 *ℤ section +ℤ pos size) }
    ensures { IsNth (pos 16 *ℤ section) size coordinate result }
{
    let steps = i64::from(coordinate) - 16 * i64::from(section);
    natural(steps)
}

impl Flood {
    ghost use Rattle.av_flood.specs.Light.{below, above, north, south, west, east};
    ghost use Rattle.av_flood.specs.Board.{is_on, IsOnBoard};
    ghost use Rattle.av_flood.specs.Blocks.{IsFarFromEnds};
    ghost use Rattle.av_flood.specs.Spots.{IsSpot, AreSteps};

    /// How far a block of the board is from its ends.
    fn steps(&self, pos: Pos) -> Steps
        requires { IsTrue (is_on self.now.chunk self.now.height pos) }
        ensures { AreSteps self.now.chunk self.now.height pos result }
    {
        Steps {
            x: across(self.chunk.x, pos.x),
            z: across(self.chunk.z, pos.z),
            y: up(self.height.min_section, 16 * self.height.sections, pos.y),
        }
    }

    /// A block of the board, and where its byte stands.
    #[inline(always)]
    pub(crate) fn spot(&self, pos: Pos) -> Spot
        requires { IsTrue (is_on self.now.chunk self.now.height pos) }
        ensures pos { result.pos ≡ pos }
        ensures on_board { IsOnBoard self.now.chunk self.now.height pos result.index }
    {
        Spot {
            pos,
            index: self.steps(pos).index(),
        }
    }

    /// The block below one of the board.
    #[inline(always)]
    pub(crate) fn spot_below(&self, spot: Spot) -> Spot
        requires inner { IsFarFromEnds spot.pos }
        requires on_board { IsOnBoard self.now.chunk self.now.height spot.pos spot.index }
        ensures pos { result.pos ≡ below spot.pos }
        ensures spot { IsSpot self.now.chunk self.now.height result }
    {
        Spot {
            pos: below(spot.pos),
            index: spot.index - LAYER,
        }
    }

    /// The block above one of the board.
    #[inline(always)]
    pub(crate) fn spot_above(&self, spot: Spot) -> Spot
        requires inner { IsFarFromEnds spot.pos }
        requires on_board { IsOnBoard self.now.chunk self.now.height spot.pos spot.index }
        ensures pos { result.pos ≡ above spot.pos }
        ensures spot { IsSpot self.now.chunk self.now.height result }
    {
        Spot {
            pos: above(spot.pos),
            index: spot.index + LAYER,
        }
    }

    /// The block north of one of the board.
    #[inline(always)]
    pub(crate) fn spot_north(&self, spot: Spot) -> Spot
        requires inner { IsFarFromEnds spot.pos }
        requires on_board { IsOnBoard self.now.chunk self.now.height spot.pos spot.index }
        ensures pos { result.pos ≡ north spot.pos }
        ensures spot { IsSpot self.now.chunk self.now.height result }
    {
        Spot {
            pos: north(spot.pos),
            index: spot.index - ROW,
        }
    }

    /// The block south of one of the board.
    #[inline(always)]
    pub(crate) fn spot_south(&self, spot: Spot) -> Spot
        requires inner { IsFarFromEnds spot.pos }
        requires on_board { IsOnBoard self.now.chunk self.now.height spot.pos spot.index }
        ensures pos { result.pos ≡ south spot.pos }
        ensures spot { IsSpot self.now.chunk self.now.height result }
    {
        Spot {
            pos: south(spot.pos),
            index: spot.index + ROW,
        }
    }

    /// The block west of one of the board.
    #[inline(always)]
    pub(crate) fn spot_west(&self, spot: Spot) -> Spot
        requires inner { IsFarFromEnds spot.pos }
        requires on_board { IsOnBoard self.now.chunk self.now.height spot.pos spot.index }
        ensures pos { result.pos ≡ west spot.pos }
        ensures spot { IsSpot self.now.chunk self.now.height result }
    {
        Spot {
            pos: west(spot.pos),
            index: spot.index - 1,
        }
    }

    /// The block east of one of the board.
    #[inline(always)]
    pub(crate) fn spot_east(&self, spot: Spot) -> Spot
        requires inner { IsFarFromEnds spot.pos }
        requires on_board { IsOnBoard self.now.chunk self.now.height spot.pos spot.index }
        ensures pos { result.pos ≡ east spot.pos }
        ensures spot { IsSpot self.now.chunk self.now.height result }
    {
        Spot {
            pos: east(spot.pos),
            index: spot.index + 1,
        }
    }
}
