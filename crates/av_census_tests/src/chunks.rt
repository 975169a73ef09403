//! Region files of small chunks, by hand.
use std::alloc::{AllocError, Global};

/// The root's begin, with an `xPos` and a `zPos` of 0, and a `Status`.
pub(crate) const FULL: &[u8] =
    b"\x0a\0\0\x03\0\x04xPos\0\0\0\0\x03\0\x04zPos\0\0\0\0\x08\0\x06Status\0\x04full";

/// The same with an `xPos` of 32.
pub(crate) const EAST: &[u8] =
    b"\x0a\0\0\x03\0\x04xPos\0\0\0\x20\x03\0\x04zPos\0\0\0\0\x08\0\x06Status\0\x04full";

/// The same with another `Status`.
pub(crate) const UNFINISHED: &[u8] =
    b"\x0a\0\0\x03\0\x04xPos\0\0\0\0\x03\0\x04zPos\0\0\0\0\x08\0\x06Status\0\x05noise";

/// Three sections.
const SECTIONS: &[u8] = b"\x09\0\x08sections\x0a\0\0\0\x03";

/// Section 3 has five states. `a:b` is there twice.
const MIXED: &[u8] = b"\x01\0\x01Y\x03\x0a\0\x0cblock_states\x09\0\x07palette\x0a\0\0\0\x05\
\x08\0\x04Name\0\x0fminecraft:stone\0\
\x08\0\x04Name\0\x04a:b0\0\
\x08\0\x04Name\0\x03a:b\x0a\0\x0aProperties\x08\0\x01k\0\x01v\0\0\
\x08\0\x04Name\0\x03a:b\0\
\x08\0\x04Name\0\x03a:b\0\
\x0c\0\x04data\0\0\x01\0";

/// Places 0 to 3 have the indices 1 to 4, and places 4 to 15 have 0.
const FIRST_LONG: [u8; 8] = [0, 0, 0, 0, 0, 0, 0x43, 0x21];

/// Section 4 is of water alone.
const WATER: &[u8] = b"\0\0\x01\0\x01Y\x04\x0a\0\x0cblock_states\x09\0\x07palette\x0a\0\0\0\x01\
\x08\0\x04Name\0\x0fminecraft:water\0\0\0";

/// Section 20 is out of the game's height.
const ABOVE: &[u8] = b"\x01\0\x01Y\x14\x0a\0\x0cblock_states\x09\0\x07palette\x0a\0\0\0\x01\
\x08\0\x04Name\0\x03a:b\0\0\0\0";

/// A chunk with that begin: one `a:b0`, one `a:b[k=v]` and two `a:b` among 4,092 `minecraft:stone`, 4,096 of water, and 22 sections
/// without `block_states`.
fn payload(alloc: Global, begin: &[u8]) -> Result<Vec<u8>, AllocError> {
    let mut bytes = Vec::from_slice(alloc, begin)?;
    bytes.extend_from_slice(SECTIONS)?;
    bytes.extend_from_slice(MIXED)?;
    bytes.extend_from_slice(&FIRST_LONG)?;
    for _ in 0..255 {
        bytes.extend_from_slice(&[0; 8])?;
    }
    bytes.extend_from_slice(WATER)?;
    bytes.extend_from_slice(ABOVE)?;
    Ok(bytes)
}

/// A region with a chunk of that begin at index 0.
pub(crate) fn region(alloc: Global, begin: &[u8]) -> Result<Vec<u8>, AllocError> {
    let payload = payload(alloc, begin)?;
    let mut file = Vec::from_slice(alloc, b"\0\0\x02\x01")?;
    file.resize(8192, 0)?;
    let length = (payload.len() % 4096) as u32 + 1;
    file.extend_from_slice(&length.to_be_bytes())?;
    file.push(3)?;
    file.extend_from_slice(payload.as_slice())?;
    file.resize(12288, 0)?;
    Ok(file)
}
