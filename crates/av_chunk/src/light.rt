//! The block light of a chunk.
ghost use Rattle.std.specs.Prelude.{◌≡◌, ◌*◌, length};

use av_types::Fault;
use std::alloc::Global;

/// The block light of a chunk's sections: 2,048 bytes for each, the lowest section first. A byte has the light of two
/// blocks, the low half that of the even place (<https://minecraft.wiki/w/Chunk_format>).
#[derive(Debug, PartialEq, Eq, Drop)]
pub struct ChunkLight {
    sections: u32,
    bytes: Vec<u8>,
    pub ghost whole: { length bytes.items ≡ 2048 * sections },
}

impl ChunkLight {
    ghost use Rattle.std.specs.Prelude.{◌<◌, replicate, IfOk, IfErr};
    ghost use Rattle.av_types.specs.declared.fault.Fault.TheVariants.{OutOfMemory};
    ghost use Rattle.av_chunk.specs.Light.{section_count, light_bytes, light_section};

    /// So many sections, all dark. Refuses with OutOfMemory alone.
    pub fn new(alloc: Global, sections: u32) -> Result<Self, Fault>
        ensures sections { IfOk result (λ l. section_count l ≡ sections) }
        ensures dark { IfOk result (λ l. light_bytes l ≡ replicate (2048 * sections) 0) }
        ensures memory { IfErr result (λ e. e ≡ OutOfMemory) }
    {
        let bytes = vec![in alloc; 0u8; 2048 * sections as usize]?;
        Ok(ChunkLight { sections, bytes })
    }

    /// The light of so many sections, from 2,048 bytes for each.
    pub fn from_bytes(sections: u32, bytes: Vec<u8>) -> Self
        requires { length bytes.items ≡ 2048 * sections }
        ensures sections { section_count result ≡ sections }
        ensures bytes { light_bytes result ≡ bytes.items }
    {
        ChunkLight { sections, bytes }
    }

    /// How many sections there are.
    pub fn len(&self) -> u32
        ensures { result ≡ section_count self.now }
    {
        self.sections
    }

    /// The 2,048 bytes of a section, counted from 0 for the lowest.
    pub fn section(&self, index: u32) -> &[u8]
        requires { index < section_count self.now }
        ensures value { result.now ≡ light_section self.now index }
        ensures length { length result.now ≡ 2048 }
    {
        let start = 2048 * index as usize;
        &self.bytes[start..start + 2048]
    }
}
