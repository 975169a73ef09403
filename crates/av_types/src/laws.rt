//! Laws of places and heights. These functions do nothing: each states a law by its contract.
ghost use Rattle.std.specs.Prelude.{◌≡◌, ◌<◌, ◌↔◌, ℕ, IsTrue};
ghost use Rattle.av_types.specs.declared.position.Pos.{Pos};
ghost use Rattle.av_types.specs.declared.position.ChunkPos.{ChunkPos};
ghost use Rattle.av_types.specs.declared.position.SectionPos.{SectionPos};
ghost use Rattle.av_types.specs.declared.position.RegionPos.{RegionPos};
ghost use Rattle.av_types.specs.declared.position.Height.{Height};
ghost use Rattle.av_types.specs.Positions.{section_of, place_of, block_at, region_of, index_of, chunk_at, IsInLimits, IsChunkInLimits, same_pos, same_chunk, same_section};

/// The chunk at an index of a region has that index, and lies in that region.
pub fn chunk_at_has_its_index()
    ensures index { (r : RegionPos) (i : ℕ) → i < 1024 → index_of (chunk_at r i) ≡ i }
    ensures region { (r : RegionPos) (i : ℕ) → i < 1024 → region_of (chunk_at r i) ≡ r }
{}

/// A chunk is the one at its index of its region, and each index is below 1,024.
pub fn chunk_is_at_its_index()
    ensures chunk { (c : ChunkPos) → chunk_at (region_of c) (index_of c) ≡ c }
    ensures bound { (c : ChunkPos) → index_of c < 1024 }
{}

/// The chunks of the regions from -60,000 to 60,000 are those from -1,920,000 to 1,920,031.
pub fn chunks_in_limits()
    ensures { (c : ChunkPos) → IsInLimits (region_of c) ↔ IsChunkInLimits c }
{}

/// The block at a place of a section lies in that section, at that place.
pub fn block_at_has_its_place()
    ensures section { (s : SectionPos) (i : ℕ) → i < 4096 → section_of (block_at s i) ≡ s }
    ensures place { (s : SectionPos) (i : ℕ) → i < 4096 → place_of (block_at s i) ≡ i }
{}

/// A block is the one at its place of its section, and each place is below 4,096.
pub fn block_is_at_its_place()
    ensures block { (p : Pos) → block_at (section_of p) (place_of p) ≡ p }
    ensures bound { (p : Pos) → place_of p < 4096 }
{}

/// The tests of positions say whether they are equal.
pub fn tests_tell_what_is_equal()
    ensures blocks { (p q : Pos) → IsTrue (same_pos p q) ↔ (p ≡ q) }
    ensures chunks { (a b : ChunkPos) → IsTrue (same_chunk a b) ↔ (a ≡ b) }
    ensures sections { (s t : SectionPos) → IsTrue (same_section s t) ↔ (s ≡ t) }
{}

/// Heights with the same lowest section and as many sections are equal.
pub fn height_is_its_numbers()
    ensures { (h k : Height) → h.min_section ≡ k.min_section → h.sections ≡ k.sections → h ≡ k }
{}
