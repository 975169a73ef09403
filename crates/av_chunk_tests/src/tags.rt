//! Tags of documents, as bytes.
use crate::pieces::Piece;
use crate::pieces::Piece::Bytes;

/// A root's begin, with its position and its `Status`.
pub(crate) const ROOT: Piece<'static> = Bytes(
    b"\x0a\x00\x00\x03\x00\x04xPos\x00\x00\x00\x01\x03\x00\x04zPos\xff\xff\xff\xfe\x08\x00\x06Status\x00\x04full",
);

pub(crate) const NO_LIST: Piece<'static> = Bytes(b"\x09\x00\x08sections\x00\x00\x00\x00\x00");

/// `sections` and `fluid_ticks`, with a count.
pub(crate) const SECTIONS_1: Piece<'static> = Bytes(b"\x09\x00\x08sections\x0a\x00\x00\x00\x01");

pub(crate) const SECTIONS_4: Piece<'static> = Bytes(b"\x09\x00\x08sections\x0a\x00\x00\x00\x04");

pub(crate) const SECTIONS_5: Piece<'static> = Bytes(b"\x09\x00\x08sections\x0a\x00\x00\x00\x05");

pub(crate) const SECTIONS_17: Piece<'static> = Bytes(b"\x09\x00\x08sections\x0a\x00\x00\x00\x11");

pub(crate) const TICKS_0: Piece<'static> = Bytes(b"\x09\x00\x0bfluid_ticks\x0a\x00\x00\x00\x00");

pub(crate) const TICKS_1: Piece<'static> = Bytes(b"\x09\x00\x0bfluid_ticks\x0a\x00\x00\x00\x01");

pub(crate) const TICKS_4: Piece<'static> = Bytes(b"\x09\x00\x0bfluid_ticks\x0a\x00\x00\x00\x04");

pub(crate) const TICKS_6: Piece<'static> = Bytes(b"\x09\x00\x0bfluid_ticks\x0a\x00\x00\x00\x06");

pub(crate) const TICKS_7: Piece<'static> = Bytes(b"\x09\x00\x0bfluid_ticks\x0a\x00\x00\x00\x07");

/// The begin of `block_states`.
pub(crate) const STATES: Piece<'static> = Bytes(b"\x0a\x00\x0cblock_states");

/// `palette`, with a count.
pub(crate) const PALETTE_1: Piece<'static> = Bytes(b"\x09\x00\x07palette\x0a\x00\x00\x00\x01");

pub(crate) const PALETTE_2: Piece<'static> = Bytes(b"\x09\x00\x07palette\x0a\x00\x00\x00\x02");

pub(crate) const PALETTE_5: Piece<'static> = Bytes(b"\x09\x00\x07palette\x0a\x00\x00\x00\x05");

/// `data` of 256 longs, each of which has 16 indices, that of the lowest place last.
pub(crate) const DATA: Piece<'static> = Bytes(b"\x0c\x00\x04data\x00\x00\x01\x00");

/// Entries of palettes, some of them to be ended.
pub(crate) const AIR: Piece<'static> = Bytes(b"\x08\x00\x04Name\x00\x0dminecraft:air\x00");

pub(crate) const LIT_AIR: Piece<'static> = Bytes(
    b"\x0a\x00\x0aProperties\x08\x00\x03lit\x00\x04true\x00\x08\x00\x04Name\x00\x0dminecraft:air\x00",
);

pub(crate) const STONE: Piece<'static> = Bytes(b"\x08\x00\x04Name\x00\x0fminecraft:stone\x00");

pub(crate) const SLAB: Piece<'static> = Bytes(
    b"\x08\x00\x04Name\x00\x12minecraft:oak_slab\x0a\x00\x0aProperties\x08\x00\x0bwaterlogged\x00\x04true\x00\x00",
);

pub(crate) const FURNACE: Piece<'static> = Bytes(
    b"\x08\x00\x04Name\x00\x11minecraft:furnace\x0a\x00\x0aProperties",
);

pub(crate) const LIT: Piece<'static> = Bytes(b"\x08\x00\x03lit\x00\x04true");

pub(crate) const FACING: Piece<'static> = Bytes(b"\x08\x00\x06facing\x00\x05north");

pub(crate) const BARE: Piece<'static> = Bytes(b"\x08\x00\x04Name\x00\x0fminecraft:water\x00");

pub(crate) const WATER: Piece<'static> = Bytes(
    b"\x08\x00\x04Name\x00\x0fminecraft:water\x0a\x00\x0aProperties",
);

pub(crate) const LEVEL_0: Piece<'static> = Bytes(b"\x08\x00\x05level\x00\x010\x00\x00");

pub(crate) const LEVEL_3: Piece<'static> = Bytes(b"\x08\x00\x05level\x00\x013\x00\x00");

pub(crate) const LEVEL_8: Piece<'static> = Bytes(b"\x08\x00\x05level\x00\x018\x00\x00");

pub(crate) const LEVEL_12: Piece<'static> = Bytes(b"\x08\x00\x05level\x00\x0212\x00\x00");

/// A tick's fluid.
pub(crate) const STILL: &[u8] = b"\x08\x00\x01i\x00\x0fminecraft:water";

pub(crate) const FLOWING: &[u8] = b"\x08\x00\x01i\x00\x17minecraft:flowing_water";

pub(crate) const LAVA: &[u8] = b"\x08\x00\x01i\x00\x0eminecraft:lava";

/// Water with too few tags, which is foreign.
pub(crate) const ODD_TICK: Piece<'static> = Bytes(
    b"\x03\x00\x01x\x00\x00\x00\x01\x08\x00\x01i\x00\x0fminecraft:water\x00",
);

pub(crate) const END: Piece<'static> = Bytes(b"\x00");

/// Parts of another root, which has a name.
pub(crate) const BEGIN: Piece<'static> = Bytes(
    b"\x0a\x00\x02hi\x04\x00\x0aLastUpdate\x00\x00\x00\x00\x00\x00\x00\x07\x03\x00\x04xPos\x00\x00\x00\x01",
);

pub(crate) const STATUS: Piece<'static> = Bytes(b"\x08\x00\x06Status\x00\x0eminecraft:full");

pub(crate) const Z_POS: Piece<'static> = Bytes(b"\x03\x00\x04zPos\xff\xff\xff\xfe");

pub(crate) const UNKNOWN: Piece<'static> = Bytes(
    b"\x09\x00\x0eblock_entities\x00\x00\x00\x00\x00\x0a\x00\x06nobody\x01\x00\x01a\x01\x00",
);

/// Other tags of a section, and one of its `block_states`.
pub(crate) const BIOMES: Piece<'static> = Bytes(
    b"\x0a\x00\x06biomes\x09\x00\x07palette\x08\x00\x00\x00\x01\x00\x10minecraft:plains\x00",
);

pub(crate) const SKY: Piece<'static> = Bytes(b"\x07\x00\x08SkyLight\x00\x00\x00\x02\xff\xfe");

pub(crate) const LAST: Piece<'static> = Bytes(b"\x02\x00\x04last\x7f\xff");

pub(crate) const EXTRA: Piece<'static> = Bytes(b"\x03\x00\x05extra\x00\x00\x00\x05");

/// Section -1, whose `block_states` are a Byte.
pub(crate) const BELOW: Piece<'static> = Bytes(
    b"\x01\x00\x0cblock_states\x09\x01\x00\x01Y\xff\x00",
);

/// Section 3.
pub(crate) const ABOVE: Piece<'static> = Bytes(b"\x08\x00\x04note\x00\x02ok\x01\x00\x01Y\x03\x00");
