//! A digest of results, in their order.
use av_region_files::RegionFile;
use av_types::{ChunkPos, Fault, RegionPos};

/// A number that depends on all that was added.
#[derive(Clone, Copy, Default)]
pub(crate) struct Digest {
    pub(crate) sum: u64,
}

impl Digest {
    /// Adds a number.
    pub(crate) fn add(&mut self, number: u64) {
        let mixed = (self.sum ^ number).wrapping_mul(0x9E37_79B9_7F4A_7C15);
        self.sum = mixed ^ mixed >> 31;
    }

    /// Adds bytes and how many they are.
    pub(crate) fn add_bytes(&mut self, bytes: &[u8]) {
        let (words, rest) = bytes.as_chunks::<8>();
        for word in words {
            self.add(u64::from_le_bytes(*word));
        }
        for byte in rest {
            self.add(u64::from(*byte));
        }
        self.add(bytes.len() as u64);
    }

    /// Adds where a region lies.
    pub(crate) fn add_region(&mut self, pos: RegionPos) {
        self.add(u64::from(pos.x.cast_unsigned()));
        self.add(u64::from(pos.z.cast_unsigned()));
    }

    /// Adds where a chunk lies.
    pub(crate) fn add_chunk(&mut self, pos: ChunkPos) {
        self.add(u64::from(pos.x.cast_unsigned()));
        self.add(u64::from(pos.z.cast_unsigned()));
    }

    /// Adds a fault's number, and what it carries.
    pub(crate) fn add_fault(&mut self, fault: &Fault) {
        self.add(u64::from(fault.number()));
        match fault {
            Fault::Compression(kind) => self.add(u64::from(*kind)),
            Fault::BadEdit(line) | Fault::EditTick(line) | Fault::EditOutside(line) => {
                self.add(*line);
            }
            Fault::ChunkTooLarge(pos) => self.add_chunk(*pos),
            Fault::Device(name) => self.add_bytes(name.as_bytes()),
            _ => {}
        }
    }

    /// Adds how many files there are, and each with its region.
    pub(crate) fn add_files(&mut self, files: &[RegionFile]) {
        self.add(files.len() as u64);
        for file in files {
            self.add_region(file.pos);
            self.add_bytes(file.bytes.as_slice());
        }
    }
}
