//! Reading a region file where it lies.
ghost use Rattle.std.specs.Prelude.{◌≡◌, ◌+◌, ◌/◌, ◌%◌, ◌<◌, ◌≤◌, ◌↔◌, ℕ, List, Ok, Err, None, IfOk, IfErr, MatchResult, MatchOption, length};
ghost use Rattle.std.specs.Option.{IsSomeAnd};
ghost use Rattle.std.specs.Result.{IsOkAnd};
ghost use Rattle.av_types.specs.declared.fault.Fault.{Fault};
ghost use Rattle.av_types.specs.declared.fault.Fault.TheVariants.{ShortHeader};
ghost use Rattle.av_region.specs.Region.{IsShort, number_at, stamp_of, IsAbsent, Holds, IsChunkFault};

use crate::layout::{CHUNK_HEADER, EXTERNAL, HEADER, LOCATIONS, SECTOR, UNCOMPRESSED};
use av_types::Fault;
use byteorder::{BigEndian, ByteOrder};

/// A region file's bytes, which have a whole header or none at all. An index names a chunk, as
/// `ChunkPos::index` gives it.
#[derive(Clone, Copy)]
pub struct Region<'a> {
    /// The bytes of the whole file.
    pub bytes: &'a [u8],
    pub ghost header: { 1 ≤ length bytes.now → 8192 ≤ length bytes.now },
}

/// The number in the four bytes from a position on.
#[tactic(auto, unfolding(crate::specs::Region::number_at))]
fn number_at(bytes: &[u8], position: usize) -> u32
    requires { position + 4 ≤ length bytes.now }
    ensures { result ≡ number_at bytes.now position }
{
    BigEndian::read_u32(&bytes[position..position + 4])
}

/// Where a chunk stands in its file, in sectors.
#[derive(Clone, Copy)]
struct Location {
    offset: usize,
    count: usize,
}

impl Location {
    /// A header's entry: an offset of 3 bytes and a count of 1 byte.
    fn new(entry: u32) -> Self
        ensures offset { result.offset ≡ entry / 256 }
        ensures count { result.count ≡ entry % 256 }
    {
        Location {
            offset: entry as usize / 256,
            count: entry as usize % 256,
        }
    }
}

impl<'a> Region<'a> {
    /// A region over a file's bytes, which stay where they are. A file of 0 bytes is a region
    /// without chunks. Answers `ShortHeader` exactly where there are 1 to 8,191 bytes.
    pub fn read(bytes: &'a [u8]) -> Result<Self, Fault>
        ensures ok { IfOk result (λ region. region.bytes.now ≡ bytes.now) }
        ensures short_header { (result ≡ Err ShortHeader) ↔ IsShort bytes.now }
        ensures err { IfErr result (λ e. e ≡ ShortHeader) }
    {
        if 1 <= bytes.len() && bytes.len() < HEADER {
            return Err(Fault::ShortHeader);
        }
        Ok(Region { bytes })
    }

    /// The number in the header at a position.
    #[tactic(auto, using(crate::proofs::Numbers::number_at_empty))]
    fn header_number(&self, position: usize) -> u32
        requires { position + 4 ≤ 8192 }
        ensures { result ≡ number_at self.now.bytes.now position }
    {
        if self.bytes.is_empty() {
            return 0;
        }
        number_at(self.bytes, position)
    }

    /// The timestamp at an index, 0 to 1,023: seconds since 1970, and 0 in a file of 0 bytes.
    pub fn stamp(&self, index: usize) -> u32
        requires { index ≤ 1023 }
        ensures { result ≡ stamp_of self.now.bytes.now index }
    {
        self.header_number(LOCATIONS + 4 * index)
    }

    /// The payload of the chunk at an index, 0 to 1,023, or `None` where there is no such chunk.
    /// It is a part of the file's bytes.
    ///
    /// Answers the first of these that holds of the chunk: `BadLocation` for an offset within the
    /// header or a count of 0; `TruncatedChunk` where the file ends before the chunk does;
    /// `BadLength` for a length of 0, or one that the chunk's sectors do not hold; `ExternalChunk`
    /// for a payload in another file; `Compression` for any type but that of uncompressed chunks.
    pub fn payload(&self, index: usize) -> Result<Option<&'a [u8]>, Fault>
        requires { index ≤ 1023 }
        ensures ok { IfOk result (λ found. MatchOption found (IsAbsent self.now.bytes.now index)
            (λ payload. Holds self.now.bytes.now index payload.now)) }
        ensures err { IfErr result (λ e. IsChunkFault self.now.bytes.now index e) }
        ensures absent { IsAbsent self.now.bytes.now index → result ≡ Ok None }
        ensures held { (payload : List ℕ) → Holds self.now.bytes.now index payload
            → IsOkAnd result (λ found. IsSomeAnd found (λ p. p.now ≡ payload)) }
        ensures refused { (e : Fault) → IsChunkFault self.now.bytes.now index e → result ≡ Err e }
    {
        let location = self.header_number(4 * index);
        if location == 0 {
            return Ok(None);
        }
        let location = Location::new(location);
        if location.offset < 2 || location.count == 0 {
            return Err(Fault::BadLocation);
        }
        let start = SECTOR * location.offset;
        if self.bytes.len() < start + 4 {
            return Err(Fault::TruncatedChunk);
        }
        let length = number_at(self.bytes, start) as usize;
        if self.bytes.len() - start - 4 < length {
            return Err(Fault::TruncatedChunk);
        }
        if length == 0 || SECTOR * location.count < length + 4 {
            return Err(Fault::BadLength);
        }
        match self.bytes[start + 4] {
            UNCOMPRESSED => Ok(Some(&self.bytes[start + CHUNK_HEADER..start + 4 + length])),
            EXTERNAL.. => Err(Fault::ExternalChunk),
            kind => Err(Fault::Compression(kind)),
        }
    }
}
