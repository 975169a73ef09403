//! The blocks next to a block.
ghost use Rattle.std.specs.Prelude.{◌≡◌};
ghost use Rattle.av_cells.specs.Positions.{IsInner, step, below, above};

use av_types::{Direction, Pos};

/// The block next to it in a horizontal direction.
pub fn step(pos: Pos, direction: Direction) -> Pos
    requires { IsInner pos }
    ensures { result ≡ step pos direction }
{
    match direction {
        Direction::North => Pos {
            x: pos.x,
            y: pos.y,
            z: pos.z - 1,
        },
        Direction::South => Pos {
            x: pos.x,
            y: pos.y,
            z: pos.z + 1,
        },
        Direction::West => Pos {
            x: pos.x - 1,
            y: pos.y,
            z: pos.z,
        },
        Direction::East => Pos {
            x: pos.x + 1,
            y: pos.y,
            z: pos.z,
        },
    }
}

/// The block below it.
pub fn below(pos: Pos) -> Pos
    requires { IsInner pos }
    ensures { result ≡ below pos }
{
    Pos {
        x: pos.x,
        y: pos.y - 1,
        z: pos.z,
    }
}

/// The block above it.
pub fn above(pos: Pos) -> Pos
    requires { IsInner pos }
    ensures { result ≡ above pos }
{
    Pos {
        x: pos.x,
        y: pos.y + 1,
        z: pos.z,
    }
}
