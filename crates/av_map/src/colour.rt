//! Colours.
ghost use Rattle.std.specs.Prelude.{◌≡◌, ◌≤◌, ◌+◌, ◌-◌, ◌*◌, ◌/◌, min};

/// A colour, each part from 0 to 255.
#[derive(Clone, Copy, Debug, PartialEq, Eq)]
pub(crate) struct Colour {
    pub(crate) red: u8,
    pub(crate) green: u8,
    pub(crate) blue: u8,
}

/// A quarter of the way to white.
fn brighter_part(part: u8) -> u8
    ensures { result ≡ part + (255 - part) / 4 }
{
    part + (255 - part) / 4
}

/// A quarter of the way to black.
fn darker_part(part: u8) -> u8
    ensures { result ≡ part - part / 4 }
{
    part - part / 4
}

/// How much water of a depth takes of each part.
fn darkness(depth: usize) -> u8
    ensures { result ≡ 4 * min depth 24 }
{
    4 * depth.min(24) as u8
}

impl Colour {
    ghost use Rattle.av_map.specs.Columns.{deepened, grey};
    ghost use Rattle.av_map.specs.Pixels.{brighter, darker};

    /// The colour of a slope that is seen from above.
    pub(crate) fn brighter(self) -> Colour
        ensures { result ≡ brighter self }
    {
        Colour {
            red: brighter_part(self.red),
            green: brighter_part(self.green),
            blue: brighter_part(self.blue),
        }
    }

    /// The colour of a slope that turns away.
    pub(crate) fn darker(self) -> Colour
        ensures { result ≡ darker self }
    {
        Colour {
            red: darker_part(self.red),
            green: darker_part(self.green),
            blue: darker_part(self.blue),
        }
    }

    /// The colour of water that is so many blocks deep.
    pub(crate) fn deepened(self, depth: usize) -> Colour
        ensures { result ≡ deepened depth self }
    {
        let darkness = darkness(depth);
        Colour {
            red: self.red.saturating_sub(darkness),
            green: self.green.saturating_sub(darkness),
            blue: self.blue.saturating_sub(darkness),
        }
    }

    /// The grey of a light, from 0 to 15.
    pub(crate) fn grey(level: u8) -> Colour
        requires { level ≤ 15 }
        ensures { result ≡ grey level }
    {
        let part = 17 * level;
        Colour {
            red: part,
            green: part,
            blue: part,
        }
    }
}
