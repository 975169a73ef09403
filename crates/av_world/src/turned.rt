//! Where a turn of a block reaches.
ghost use Rattle.std.specs.Prelude.{◌≡◌, pos, ◌+ℤ◌, ◌-ℤ◌};
ghost use Rattle.av_cells.specs.Positions.{IsNearOrigin, around};
ghost use Rattle.av_world.specs.Turned.{corners, turned};

use av_cells::{above, below, step};
use av_types::{Direction, Pos};

/// The x of the corners to the west.
fn west_of(at: Pos) -> i32
    requires { IsNearOrigin at }
    ensures { result ≡ at.x -ℤ pos 5 }
{
    at.x - 5
}

/// The x of the corners to the east.
fn east_of(at: Pos) -> i32
    requires { IsNearOrigin at }
    ensures { result ≡ at.x +ℤ pos 5 }
{
    at.x + 5
}

/// The y of the lower corners.
fn low_of(at: Pos) -> i32
    requires { IsNearOrigin at }
    ensures { result ≡ at.y -ℤ pos 2 }
{
    at.y - 2
}

/// The y of the upper corners.
fn high_of(at: Pos) -> i32
    requires { IsNearOrigin at }
    ensures { result ≡ at.y +ℤ pos 1 }
{
    at.y + 1
}

/// The z of the corners to the north.
fn north_of(at: Pos) -> i32
    requires { IsNearOrigin at }
    ensures { result ≡ at.z -ℤ pos 5 }
{
    at.z - 5
}

/// The z of the corners to the south.
fn south_of(at: Pos) -> i32
    requires { IsNearOrigin at }
    ensures { result ≡ at.z +ℤ pos 5 }
{
    at.z + 5
}

/// A block.
fn block(x: i32, y: i32, z: i32) -> Pos
    ensures { result ≡ record { x = x; y = y; z = z } }
{
    Pos { x, y, z }
}

/// The blocks at the corners of a block's reach. The reach meets no sections but theirs.
pub(crate) fn corners(at: Pos) -> [Pos; 8]
    requires { IsNearOrigin at }
    ensures { result ≡ corners at }
{
    let (west, east) = (west_of(at), east_of(at));
    let (low, high) = (low_of(at), high_of(at));
    let (north, south) = (north_of(at), south_of(at));
    [
        block(west, low, north),
        block(east, low, north),
        block(west, low, south),
        block(east, low, south),
        block(west, high, north),
        block(east, high, north),
        block(west, high, south),
        block(east, high, south),
    ]
}

/// The blocks that a turn may set.
pub(crate) fn turned(at: Pos) -> [Pos; 6]
    requires { IsNearOrigin at }
    ensures { result ≡ turned at }
{
    [
        at,
        below(at),
        step(at, Direction::North),
        step(at, Direction::South),
        step(at, Direction::West),
        step(at, Direction::East),
    ]
}

/// The block and those next to it.
pub(crate) fn around(at: Pos) -> [Pos; 7]
    requires { IsNearOrigin at }
    ensures { result ≡ around at }
{
    [
        at,
        below(at),
        above(at),
        step(at, Direction::North),
        step(at, Direction::South),
        step(at, Direction::West),
        step(at, Direction::East),
    ]
}
