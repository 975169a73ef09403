//! Sizes and numbers of a region file (<https://minecraft.wiki/w/Region_file_format>).

/// The indices of a region's chunks, each of which has a location and a timestamp.
pub const CHUNKS: usize = 1024;

/// The bytes of a sector.
pub(crate) const SECTOR: usize = 4096;

/// The bytes of all locations, after which the timestamps stand.
pub(crate) const LOCATIONS: usize = 4096;

/// The bytes of a region's header: 1,024 locations and 1,024 timestamps, of 4 bytes each.
pub const HEADER: usize = 8192;

/// The bytes of a chunk before its payload: the length field and the type.
pub(crate) const CHUNK_HEADER: usize = 5;

/// The type of a chunk that is not compressed.
pub(crate) const UNCOMPRESSED: u8 = 3;

/// The lowest type of a chunk whose payload is in a file of its own.
pub(crate) const EXTERNAL: u8 = 128;
