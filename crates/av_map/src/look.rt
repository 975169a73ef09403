//! What a block shows from above.
ghost use Rattle.std.specs.Prelude.{◌≡◌, map};
ghost use Rattle.av_map.specs.Looks.{air_names, is_among, water_names};

use crate::colour::Colour;

/// What a block shows from above.
#[derive(Clone, Copy, Debug, PartialEq, Eq)]
pub(crate) struct Look {
    pub is_air: bool,
    pub is_water: bool,
    pub colour: Colour,
}

const AIR_NAMES: [&[u8]; 3] = [
    b"minecraft:air",
    b"minecraft:cave_air",
    b"minecraft:void_air",
];

/// Water, and what stands in water always.
const WATER_NAMES: [&[u8]; 6] = [
    b"minecraft:water",
    b"minecraft:bubble_column",
    b"minecraft:kelp",
    b"minecraft:kelp_plant",
    b"minecraft:seagrass",
    b"minecraft:tall_seagrass",
];

fn air_names() -> &'static [&'static [u8]]
    ensures { map (λ name. name.now) result.now ≡ air_names }
{
    &AIR_NAMES
}

fn water_names() -> &'static [&'static [u8]]
    ensures { map (λ name. name.now) result.now ≡ water_names }
{
    &WATER_NAMES
}

/// Whether a name is one of these.
fn is_among(name: &[u8], names: &[&[u8]]) -> bool
    ensures { result ≡ is_among name.now (map (λ known. known.now) names.now) }
{
    names.iter().any(|known| *known == name)
}

/// Whether blocks of that name are air.
pub(crate) fn is_air(name: &[u8]) -> bool
    ensures { result ≡ is_among name.now air_names }
{
    is_among(name, air_names())
}

/// Whether blocks of that name are water.
pub(crate) fn is_water(name: &[u8]) -> bool
    ensures { result ≡ is_among name.now water_names }
{
    is_among(name, water_names())
}

impl Look {
    /// What a block shows that has no number of a state.
    pub(crate) const AIR: Look = Look {
        is_air: true,
        is_water: false,
        colour: Colour {
            red: 0,
            green: 0,
            blue: 0,
        },
    };
}
