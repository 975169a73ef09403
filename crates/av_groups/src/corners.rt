//! The chunks that a turn may touch.
ghost use Rattle.std.specs.Prelude.{◌≡◌, true, false};
ghost use Rattle.av_cells.specs.Positions.{IsNearOrigin};
ghost use Rattle.av_play.specs.Corners.{corner};
ghost use Rattle.av_groups.specs.Open.{reach_of, chunks_in_reach};

use av_types::{ChunkPos, Pos};

/// The chunks of a block's reach: those from one in the north-west to one in the south-east, which are one, two or four.
#[derive(Clone, Copy, Drop)]
pub(crate) struct Reach {
    pub(crate) north_west: ChunkPos,
    pub(crate) south_east: ChunkPos,
}

/// The x of a corner of a block's reach.
fn corner_x(at: Pos, east: bool) -> i32
    requires { IsNearOrigin at }
    ensures { result ≡ (corner at east false false).x }
{
    if east { at.x + 5 } else { at.x - 5 }
}

/// The z of a corner of a block's reach.
fn corner_z(at: Pos, south: bool) -> i32
    requires { IsNearOrigin at }
    ensures { result ≡ (corner at false false south).z }
{
    if south { at.z + 5 } else { at.z - 5 }
}

/// The y of the lower corners of a block's reach.
fn corner_y(at: Pos) -> i32
    requires { IsNearOrigin at }
    ensures { result ≡ (corner at false false false).y }
{
    at.y - 2
}

/// A lower corner of a block's reach.
fn corner_of(at: Pos, east: bool, south: bool) -> Pos
    requires { IsNearOrigin at }
    ensures { result ≡ corner at east false south }
{
    Pos {
        x: corner_x(at, east),
        y: corner_y(at),
        z: corner_z(at, south),
    }
}

/// The chunks of a block's reach.
pub(crate) fn reach_of(at: Pos) -> Reach
    requires { IsNearOrigin at }
    ensures { result ≡ reach_of at }
{
    Reach {
        north_west: corner_of(at, false, false).chunk(),
        south_east: corner_of(at, true, true).chunk(),
    }
}

/// The chunks of a reach, that to the north-west first, then that to the east, and so those to the south.
pub(crate) fn chunks_of(reach: Reach) -> [ChunkPos; 4]
    ensures { result ≡ chunks_in_reach reach }
{
    let Reach {
        north_west,
        south_east,
    } = reach;
    let north_east = ChunkPos {
        x: south_east.x,
        z: north_west.z,
    };
    let south_west = ChunkPos {
        x: north_west.x,
        z: south_east.z,
    };
    [north_west, north_east, south_west, south_east]
}
