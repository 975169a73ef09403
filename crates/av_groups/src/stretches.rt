//! Stretches of a tick's entries: those of one tile of chunks that come one after the other.
ghost use Rattle.std.specs.Prelude.{◌≡◌, ◌<◌, ◌≤◌, length, pos, ◌+ℤ◌, ◌*ℤ◌};
ghost use Rattle.av_types.specs.Division.{divided};
ghost use Rattle.av_groups.specs.Stretches.{tile_of, begins, stretch_count};

use av_types::{ChunkPos, Entry};

/// Four chunks side by side.
#[derive(Clone, Copy, PartialEq, Eq)]
pub(crate) struct Tile {
    pub(crate) column: i64,
    pub(crate) row: i32,
}

/// How far east a chunk lies in its row of tiles, which is shifted by two chunks against the row before.
fn shifted(x: i32, z: i32) -> i64
    ensures { result ≡ x +ℤ pos 2 *ℤ z }
{
    x as i64 + 2 * z as i64
}

/// A fourth, with rounding down.
fn fourth(number: i64) -> i64
    ensures { result ≡ divided number 4 }
{
    number >> 2
}

/// The tile that a chunk lies in. Each row of tiles is shifted by half a tile against the next. So the entries of a tile share
/// chunks with those of two tiles of the row beside it, where without the shift there would be three: a group waits for one fewer.
fn tile_of(chunk: ChunkPos) -> Tile
    ensures { result ≡ tile_of chunk }
{
    Tile {
        column: fourth(shifted(chunk.x, chunk.z)),
        row: chunk.z,
    }
}

/// Where the entries of one tile end that begin at an index.
pub(crate) fn stretch_end(entries: &[Entry], from: usize) -> usize
    requires { from < length entries.now }
    ensures further { from < result }
    ensures bound { result ≤ length entries.now }
{
    let tile = tile_of(entries[from].pos.chunk());
    for index in from + 1..entries.len() {
        if tile_of(entries[index].pos.chunk()) != tile {
            return index;
        }
    }
    entries.len()
}

/// Whether a stretch begins at an entry of a tile, behind one of the tile before.
fn begins(before: Option<Tile>, tile: Tile) -> bool
    ensures { result ≡ begins before tile }
{
    match before {
        Some(other) => other != tile,
        None => true,
    }
}

/// How many stretches there are: as many as groups, when the entries are cut.
pub fn stretch_count(entries: &[Entry]) -> usize
    ensures { result ≡ stretch_count entries.now }
{
    let mut count = 0;
    let mut before = None;
    for entry in entries {
        let tile = tile_of(entry.pos.chunk());
        if begins(before, tile) {
            count += 1;
        }
        before = Some(tile);
    }
    count
}
