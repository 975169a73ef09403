//! Decoding every chunk of a region.
use crate::tally::Tally;
use av_nbt::decode;
use av_region::Region;
use av_types::Fault;
use std::alloc::Global;

const CHUNKS: usize = 1024;

/// Decodes every chunk of a region, and counts the chunks.
fn decode_region(alloc: Global, region: &Region<'_>, tally: &mut Tally) -> Result<u64, Fault> {
    let mut chunks = 0u64;
    for index in 0..CHUNKS {
        if let Some(payload) = region.payload(index)? {
            tally.add_root(&decode(alloc, payload)?);
            chunks = chunks.wrapping_add(1);
        }
    }
    Ok(chunks)
}

/// Decodes every chunk of a region so many times. The line has the number of chunks and of tags, and the sum of all
/// that stands in them.
pub(crate) fn decode_rounds(alloc: Global, bytes: &[u8], rounds: u32) -> Result<String, Fault> {
    let region = Region::read(bytes)?;
    let mut tally = Tally::default();
    let mut chunks = 0u64;
    for _ in 0..rounds {
        chunks = chunks.wrapping_add(decode_region(alloc, &region, &mut tally)?);
    }
    let Tally { tags, sum } = tally;
    Ok(format!(in alloc; "chunks {chunks} tags {tags} sum {sum}")?)
}
