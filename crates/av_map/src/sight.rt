//! What a column shows.
use crate::colour::Colour;

/// What a column of blocks shows from above.
#[derive(Clone, Copy, Debug, PartialEq, Eq)]
pub(crate) struct Sight {
    /// The block that is seen, counted from the lowest of the height.
    pub top: u16,
    pub colour: Colour,
    /// Whether its slope is drawn.
    pub is_sloped: bool,
}
