//! Positions in the world, in blocks, sections, chunks and regions.
//!
//! A section is 16 blocks a side, a chunk is a column of sections, and a region is 32 by 32 chunks
//! (<https://minecraft.wiki/w/Chunk_format>, <https://minecraft.wiki/w/Region_file_format>).
//! Each conversion divides with rounding down.
ghost use Rattle.std.specs.Prelude.{◌≡◌, ◌<◌, ◌≤◌, ◌+◌, ◌*◌, ◌≤ℤ◌, ◌+ℤ◌, ◌*ℤ◌, pos, negsuc, IsTrue, ◌↔◌};
ghost use Rattle.av_types.specs.Division.{remainder};

/// The position of a block, in blocks: `x` grows to the east, `y` upwards, `z` to the south
/// (<https://minecraft.wiki/w/Coordinates>).
#[derive(Clone, Copy, Debug, Default, PartialEq, Eq)]
pub struct Pos {
    pub x: i32,
    pub y: i32,
    pub z: i32,
}

/// The position of a chunk, in chunks.
#[derive(Clone, Copy, Debug, Default, PartialEq, Eq)]
pub struct ChunkPos {
    pub x: i32,
    pub z: i32,
}

/// The position of a section, in sections.
#[derive(Clone, Copy, Debug, Default, PartialEq, Eq)]
pub struct SectionPos {
    pub x: i32,
    pub y: i32,
    pub z: i32,
}

/// The position of a region, in regions. The file `r.X.Z.mca` holds it.
#[derive(Clone, Copy, Debug, Default, PartialEq, Eq)]
pub struct RegionPos {
    pub x: i32,
    pub z: i32,
}

/// The place of a block in its section: `256 * y + 16 * z + x`, each of the three from 0 to 15.
#[derive(Clone, Copy, Debug, PartialEq, Eq)]
pub struct Place {
    pub index: u16,
    ghost in_range: { index < 4096 },
}

/// The range of section numbers that a world has, from `min_section` on. Section `n` has the blocks with `y` from
/// `16 * n` to `16 * n + 15`.
#[derive(Clone, Copy, Debug, PartialEq, Eq)]
pub struct Height {
    /// The lowest section's number, from -64 to 63.
    pub min_section: i32,
    /// How many sections there are, from 1 to 64. The last one's number is at most 63.
    pub sections: u32,
    ghost lowest: { negsuc 63 ≤ℤ min_section },
    ghost nonempty: { 1 ≤ sections },
    ghost bounded: { sections ≤ 64 },
    ghost highest: { (min_section +ℤ pos sections) ≤ℤ pos 64 },
}

/// The remainder of a division by 16 with rounding down: where a coordinate lies in its section.
fn low_bits(coordinate: i32) -> u16
    ensures value { result ≡ remainder coordinate 16 }
    ensures bound { result < 16 }
{
    coordinate.rem_euclid(16) as u16
}

/// The remainder of a division by 32 with rounding down: where a chunk lies in its region.
fn low_chunk_bits(coordinate: i32) -> usize
    ensures value { result ≡ remainder coordinate 32 }
    ensures bound { result < 32 }
{
    coordinate.rem_euclid(32) as usize
}

/// A chunk coordinate, so many chunks after the first of a region.
fn first_chunk_plus(region: i32, chunks: usize) -> i32
    requires low { negsuc 59999 ≤ℤ region }
    requires high { region ≤ℤ pos 60000 }
    requires chunks { chunks < 32 }
    ensures { result ≡ pos 32 *ℤ region +ℤ pos chunks }
{
    32 * region + chunks as i32
}

impl Pos {
    ghost use Rattle.av_types.specs.Positions.{chunk_of, section_of, place_of};

    /// The chunk that the block lies in.
    pub fn chunk(self) -> ChunkPos
        ensures { result ≡ chunk_of self }
    {
        self.section().chunk()
    }

    /// The section that the block lies in.
    pub fn section(self) -> SectionPos
        ensures { result ≡ section_of self }
    {
        SectionPos {
            x: self.x >> 4,
            y: self.y >> 4,
            z: self.z >> 4,
        }
    }

    /// The block's place in its section.
    pub fn place(self) -> Place
        ensures { result.index ≡ place_of self }
    {
        let y = low_bits(self.y);
        let z = low_bits(self.z);
        let x = low_bits(self.x);
        Place {
            index: 256 * y + 16 * z + x,
        }
    }
}

impl SectionPos {
    ghost use Rattle.av_types.specs.Positions.{chunk_of_section};

    /// The chunk that the section lies in.
    pub fn chunk(self) -> ChunkPos
        ensures { result ≡ chunk_of_section self }
    {
        ChunkPos {
            x: self.x,
            z: self.z,
        }
    }
}

impl ChunkPos {
    ghost use Rattle.av_types.specs.Positions.{region_of, index_of};

    /// The region that the chunk lies in.
    pub fn region(self) -> RegionPos
        ensures { result ≡ region_of self }
    {
        RegionPos {
            x: self.x.div_euclid(32),
            z: self.z.div_euclid(32),
        }
    }

    /// The chunk's index in its region's header, from 0 to 1,023: `x + 32 * z` of the remainders by 32.
    pub fn index(self) -> usize
        ensures value { result ≡ index_of self }
        ensures bound { result < 1024 }
    {
        let x = low_chunk_bits(self.x);
        let z = low_chunk_bits(self.z);
        x + 32 * z
    }
}

impl RegionPos {
    ghost use Rattle.av_types.specs.Positions.{IsInLimits, chunk_at};

    /// Whether both coordinates lie from -60,000 to 60,000, as those of every region that this project accepts.
    /// Then no block of it has a coordinate beyond an `i32`.
    pub fn is_in_limits(self) -> bool
        ensures { IsTrue result ↔ IsInLimits self }
    {
        -60000 <= self.x && self.x <= 60000 && -60000 <= self.z && self.z <= 60000
    }

    /// The chunk at an index of the region's header, 0 to 1,023. The region is within the limits.
    pub fn chunk_at(self, index: usize) -> ChunkPos
        requires limits { IsInLimits self }
        requires index { index < 1024 }
        ensures { result ≡ chunk_at self index }
    {
        ChunkPos {
            x: first_chunk_plus(self.x, index % 32),
            z: first_chunk_plus(self.z, index / 32),
        }
    }
}

impl Place {
    /// The place of an index, which is below 4,096.
    pub fn new(index: u16) -> Self
        requires { index < 4096 }
        ensures { result.index ≡ index }
    {
        Place { index }
    }
}

impl Height {
    ghost use Rattle.av_types.specs.Positions.{IsSectionOf, IsBlockOf, section_index};

    /// Whether a section of that number is in the height.
    pub fn has_section(self, y: i32) -> bool
        ensures { IsTrue result ↔ IsSectionOf self y }
    {
        self.min_section <= y && y < self.min_section + self.sections as i32
    }

    /// Whether a block at that y, in blocks, is in the height.
    pub fn has_block(self, y: i32) -> bool
        ensures { IsTrue result ↔ IsBlockOf self y }
    {
        self.has_section(y.div_euclid(16))
    }

    /// Where a section of the height stands among its sections, the lowest first, by its number.
    pub fn section_index(self, y: i32) -> usize
        requires { IsSectionOf self y }
        ensures value { result ≡ section_index self y }
        ensures number { y ≡ self.min_section +ℤ pos result }
        ensures bound { result < self.sections }
    {
        (y - self.min_section) as usize
    }

    /// The height of the game's overworld since 1.18: sections -4 to 19, y -64 to 319
    /// (<https://minecraft.wiki/w/Altitude>).
    pub fn game() -> Self
        ensures lowest { result.min_section ≡ negsuc 3 }
        ensures sections { result.sections ≡ 24 }
    {
        Height {
            min_section: -4,
            sections: 24,
        }
    }
}
