//! A world as the light of one chunk reads it.
ghost use Rattle.std.specs.Prelude.{◌≡◌, ◌<◌, ◌+◌, ◌≤ℤ◌, ◌+ℤ◌, pos, negsuc, ℕ, slice_index, map, IfSome};
ghost use Rattle.av_world.specs.Index.{slot};
ghost use Rattle.av_world.specs.Views.{positions_of};
ghost use Rattle.av_light.specs.Columns.{column, IsCorner};

use crate::finding::{list_at, section_in, slot};
use av_section::Section;
use av_section_light::Sections;
use av_types::{ChunkPos, Height, Pos, SectionPos};
use av_world::World;

/// No chunk is loaded beyond this coordinate.
const FAR: i32 = 1_073_741_824;

/// The coordinate before, of one that is not too far.
fn before(coordinate: i32) -> i32
    ensures low { negsuc 1073741824 ≤ℤ result }
    ensures high { result ≤ℤ pos 1073741823 }
{
    coordinate.max(-FAR).min(FAR) - 1
}

/// One of nine chunks, from the corner of the least coordinates on.
fn column(corner: ChunkPos, n: usize) -> ChunkPos
    requires corner { IsCorner corner }
    requires nine { n < 9 }
    ensures { result ≡ column corner n }
{
    ChunkPos {
        x: corner.x + (n % 3) as i32,
        z: corner.z + (n / 3) as i32,
    }
}

/// Which of three coordinates it is.
#[inline(always)]
fn step(from: i32, coordinate: i32) -> Option<usize>
    ensures { IfSome result (λ n. (n < 3) × (coordinate ≡ from +ℤ pos n)) }
{
    let steps = i64::from(coordinate) - i64::from(from);
    if steps < 0 || 2 < steps {
        return None;
    }
    Some(steps as usize)
}

/// Which of the nine chunks it is.
#[inline(always)]
fn nth(corner: ChunkPos, at: ChunkPos) -> Option<usize>
    ensures { IfSome result (λ n. (n < 9) × (at ≡ column corner n)) }
{
    let x = step(corner.x, at.x)?;
    let z = step(corner.z, at.z)?;
    Some(x + 3 * z)
}

/// A world, in which the nine chunks around one were looked up.
#[derive(Drop)]
pub(crate) struct Around<'a> {
    world: &'a World,
    /// The blocks that give light, as far as they are known, by where their chunks stand.
    lamps: &'a [Vec<Pos>],
    corner: ChunkPos,
    slots: [usize; 9],
    ghost inner: { IsCorner corner },
    ghost found: { (n : ℕ) → n < 9 → slice_index slots n ≡ slot (positions_of world.now) (column corner n) },
}

impl<'a> Around<'a> {
    pub(crate) fn new(world: &'a World, lamps: &'a [Vec<Pos>], chunk: ChunkPos) -> Around<'a>
        ensures world { result.world.now ≡ world.now }
        ensures lamps { result.lamps.now ≡ lamps.now }
    {
        let corner = ChunkPos {
            x: before(chunk.x),
            z: before(chunk.z),
        };
        let mut slots = [0; 9];
        for n in 0..9 {
            slots[n] = slot(world, column(corner, n));
        }
        Around {
            world,
            lamps,
            corner,
            slots,
        }
    }

    /// Where a chunk stands.
    #[inline(always)]
    fn slot(&self, at: ChunkPos) -> usize
        ensures { result ≡ slot (positions_of self.now.world.now) at }
    {
        match nth(self.corner, at) {
            Some(n) => self.slots[n],
            None => slot(self.world, at),
        }
    }
}

impl Sections for Around<'_> {
    ghost use Rattle.av_world.specs.Views.{height_of, grid};
    ghost use Rattle.av_light.specs.Near.{blocks_near};
    ghost use Rattle.av_light.specs.Lamps.{lamps_at};

    ghost grid = { λ a. grid a.world.now };

    ghost tall = { λ a. height_of a.world.now };

    ghost lamps = { λ a c. lamps_at a.world.now (map (λ v. v.items) a.lamps.now) c };

    ghost near = { λ a p h. blocks_near a.world.now.height a.world.now.positions.items a.world.now.chunks.items a.world.now.lawful p h };

    fn height(&self) -> Height {
        self.world.height()
    }

    #[inline(always)]
    fn section(&self, at: SectionPos) -> Option<&Section> {
        section_in(self.world, self.slot(at.chunk()), at)
    }

    fn lamps(&self, chunk: ChunkPos) -> &[Pos] {
        list_at(self.lamps, self.slot(chunk))
    }
}
