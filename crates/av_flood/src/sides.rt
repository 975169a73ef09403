//! The blocks that share a face with a block.
ghost use Rattle.std.specs.Prelude.{◌≡◌};
ghost use Rattle.av_flood.specs.Light.{below, above, north, south, west, east};
ghost use Rattle.av_flood.specs.Blocks.{IsFarFromEnds};

use av_types::Pos;

/// The block below it.
pub(crate) fn below(pos: Pos) -> Pos
    requires { IsFarFromEnds pos }
    ensures { result ≡ below pos }
{
    Pos {
        x: pos.x,
        y: pos.y - 1,
        z: pos.z,
    }
}

/// The block above it.
pub(crate) fn above(pos: Pos) -> Pos
    requires { IsFarFromEnds pos }
    ensures { result ≡ above pos }
{
    Pos {
        x: pos.x,
        y: pos.y + 1,
        z: pos.z,
    }
}

/// The block north of it.
pub(crate) fn north(pos: Pos) -> Pos
    requires { IsFarFromEnds pos }
    ensures { result ≡ north pos }
{
    Pos {
        x: pos.x,
        y: pos.y,
        z: pos.z - 1,
    }
}

/// The block south of it.
pub(crate) fn south(pos: Pos) -> Pos
    requires { IsFarFromEnds pos }
    ensures { result ≡ south pos }
{
    Pos {
        x: pos.x,
        y: pos.y,
        z: pos.z + 1,
    }
}

/// The block west of it.
pub(crate) fn west(pos: Pos) -> Pos
    requires { IsFarFromEnds pos }
    ensures { result ≡ west pos }
{
    Pos {
        x: pos.x - 1,
        y: pos.y,
        z: pos.z,
    }
}

/// The block east of it.
pub(crate) fn east(pos: Pos) -> Pos
    requires { IsFarFromEnds pos }
    ensures { result ≡ east pos }
{
    Pos {
        x: pos.x + 1,
        y: pos.y,
        z: pos.z,
    }
}
