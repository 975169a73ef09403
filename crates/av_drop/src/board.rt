//! Squares of a board of 11 by 11 blocks around a block, row by row from the north: a bit for each.
ghost use Rattle.std.specs.Prelude.{◌≡◌, ◌<◌, ◌&&◌, ℕ, nat_eq, not, true, false};
ghost use Rattle.av_drop.specs.Board.{is_on, HasMark, AreBeside};

/// Some squares of the board.
#[derive(Clone, Copy)]
pub(crate) struct Board {
    bits: u128,
}

impl Board {
    /// No square.
    pub(crate) fn empty() -> Self
        ensures { (i : ℕ) → is_on result i ≡ false }
    {
        Board { bits: 0 }
    }

    /// Whether there is no square.
    pub(crate) fn is_empty(self) -> bool
        ensures none { result ≡ true → (i : ℕ) → is_on self i ≡ false }
        ensures some { result ≡ false → HasMark self }
    {
        self.bits == 0
    }

    /// The first square of some.
    pub(crate) fn first(self) -> u32
        requires { HasMark self }
        ensures bound { result < 128 }
        ensures marked { is_on self result ≡ true }
    {
        self.bits.trailing_zeros()
    }

    /// These squares and one more.
    pub(crate) fn with(self, square: u32) -> Self
        requires { square < 128 }
        ensures here { is_on result square ≡ true }
        ensures others { (i : ℕ) → nat_eq i square ≡ false → is_on result i ≡ is_on self i }
    {
        Board {
            bits: self.bits | 1 << square,
        }
    }

    /// These squares and one more, where it is meant.
    pub(crate) fn with_if(self, square: u32, meant: bool) -> Self
        requires { square < 128 }
        ensures here { is_on self square ≡ false → is_on result square ≡ meant }
        ensures others { (i : ℕ) → nat_eq i square ≡ false → is_on result i ≡ is_on self i }
    {
        if meant { self.with(square) } else { self }
    }

    /// These squares without one of them.
    pub(crate) fn without(self, square: u32) -> Self
        requires bound { square < 128 }
        requires there { is_on self square ≡ true }
        ensures here { is_on result square ≡ false }
        ensures others { (i : ℕ) → i < 128 → nat_eq i square ≡ false
            → is_on result i ≡ is_on self i }
        ensures less { result.bits < self.bits }
    {
        Board {
            bits: self.bits & !(1 << square),
        }
    }

    /// Those of these squares that are not among others.
    pub(crate) fn apart_from(self, others: Board) -> Self
        ensures { (i : ℕ) → i < 128 → is_on result i ≡ (is_on self i && not (is_on others i)) }
    {
        Board {
            bits: self.bits & !others.bits,
        }
    }

    /// The squares that are among these and others.
    pub(crate) fn among(self, others: Board) -> Self
        ensures { (i : ℕ) → is_on result i ≡ (is_on self i && is_on others i) }
    {
        Board {
            bits: self.bits & others.bits,
        }
    }

    /// The squares beside these.
    pub(crate) fn beside(self) -> Self
        ensures { AreBeside self result }
    {
        let along_z = self.bits >> 11 | self.bits << 11;
        let along_x = self.bits >> 1 | self.bits << 1;
        Board {
            bits: along_z | along_x,
        }
    }
}
