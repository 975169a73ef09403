//! Numbers that look random, from a seed (xorshift64*, <https://en.wikipedia.org/wiki/Xorshift>).
ghost use Rattle.std.specs.Prelude.{◌<◌};

/// A source of numbers.
#[derive(Clone, Copy)]
pub(crate) struct Dice {
    state: u64,
}

impl Dice {
    /// The numbers of a seed, and of a part of the input.
    pub(crate) fn new(seed: u32, part: u64) -> Self {
        let mixed = (u64::from(seed) + 1).wrapping_mul(0x9E37_79B9_7F4A_7C15);
        let mixed = (mixed ^ mixed >> 29)
            .wrapping_add(part)
            .wrapping_mul(0xBF58_476D_1CE4_E5B9);
        Dice {
            state: mixed ^ mixed >> 32 | 1,
        }
    }

    /// The next number.
    pub(crate) fn roll(&mut self) -> u64 {
        let mut x = self.state;
        x ^= x >> 12;
        x ^= x << 25;
        x ^= x >> 27;
        self.state = x;
        x.wrapping_mul(0x2545_F491_4F6C_DD1D) >> 16
    }

    /// The next number, below a bound.
    pub(crate) fn below(&mut self, bound: u32) -> u32
        requires { 0 < bound }
        ensures { result < bound }
    {
        (self.roll() % u64::from(bound)) as u32
    }
}
