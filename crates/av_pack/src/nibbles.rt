//! Light arrays (<https://minecraft.wiki/w/Chunk_format#Block_format>): 2,048 bytes hold a half
//! byte for each of the 4,096 places of a section.
ghost use Rattle.std.specs.Prelude.{◌≡◌, ◌<◌, ◌≤◌, length};
ghost use Rattle.av_pack.specs.Nibbles.{nibble_at, SetsNibble};

use av_types::Place;

/// The half byte at a place, from 0 to 15: the low half of a byte at an even place, the high half
/// at an odd one. `bytes` are 2,048.
#[tactic(auto, unfolding(crate::specs::Nibbles::nibble_at))]
pub fn nibble(bytes: &[u8], place: Place) -> u8
    requires { length bytes.now ≡ 2048 }
    ensures value { result ≡ nibble_at bytes.now place.index }
    ensures bound { result < 16 }
{
    let byte = bytes[usize::from(place.index / 2)];
    if place.index % 2 == 0 {
        byte % 16
    } else {
        byte / 16
    }
}

/// Sets the half byte at a place to `value`, at most 15, and leaves all others. `bytes` are 2,048.
#[tactic(auto, unfolding(crate::specs::Nibbles::nibble_at))]
pub fn set_nibble(bytes: &mut [u8], place: Place, value: u8)
    requires count { length bytes.old ≡ 2048 }
    requires fits { value ≤ 15 }
    ensures { SetsNibble bytes.old bytes.new place.index value }
{
    let byte = &mut bytes[usize::from(place.index / 2)];
    *byte = if place.index % 2 == 0 {
        *byte / 16 * 16 + value
    } else {
        value * 16 + *byte % 16
    };
}
