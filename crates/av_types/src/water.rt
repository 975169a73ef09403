//! Water, and the directions in which it spreads (<https://minecraft.wiki/w/Water>).
ghost use Rattle.std.specs.Prelude.{◌≡◌, ◌<◌};

/// How wet a block is.
#[derive(Clone, Copy, Debug, Default, PartialEq, Eq)]
pub enum Wet {
    #[default]
    Dry,
    /// Level 0.
    Source,
    /// Levels 1 to 7, as the amount 8 - level, from 1 to 7.
    Flow(u8),
    /// Level 8 and above.
    Falling,
}

impl Wet {
    ghost use Rattle.av_types.specs.Water.{amount_of, is_wet, is_source};

    /// How much water there is, in eighths of a source: 8 of a source and of falling water, 0 where it is dry.
    pub fn amount(self) -> u8
        ensures { result ≡ amount_of self }
    {
        match self {
            Wet::Dry => 0,
            Wet::Source | Wet::Falling => 8,
            Wet::Flow(amount) => amount,
        }
    }

    /// Whether there is any water.
    pub fn is_wet(self) -> bool
        ensures { result ≡ is_wet self }
    {
        !matches!(self, Wet::Dry)
    }

    /// Whether it is a source.
    pub fn is_source(self) -> bool
        ensures { result ≡ is_source self }
    {
        matches!(self, Wet::Source)
    }
}

/// A horizontal direction. Rules go through them in this order.
#[derive(Clone, Copy, Debug, PartialEq, Eq)]
pub enum Direction {
    /// z - 1
    North,
    /// z + 1
    South,
    /// x - 1
    West,
    /// x + 1
    East,
}
