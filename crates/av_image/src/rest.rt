//! What region files have beside the blocks, the water entries and the light of loaded chunks.
use av_chunk::ChunkRest;
use av_types::RegionPos;

/// What a region keeps at an index.
#[derive(Drop)]
pub enum Slot {
    /// No chunk.
    Absent,
    /// The payload of a chunk that is not full, byte for byte.
    Kept(Vec<u8>),
    /// What a loaded chunk keeps.
    Loaded(ChunkRest),
}

/// What a region keeps.
#[derive(Drop)]
pub struct RegionRest {
    /// Its position.
    pub pos: RegionPos,
    /// The 1,024 timestamps of its header, also those of absent chunks.
    pub stamps: Vec<u32>,
    /// Its 1,024 slots, by index.
    pub slots: Vec<Slot>,
}

/// All that region files have beside the world, so that they can be written as they were.
#[derive(Drop)]
pub struct Rest {
    /// The regions, by z and then by x.
    pub regions: Vec<RegionRest>,
}
