//! What is drawn.

/// What a pixel shows of its column.
#[derive(Clone, Copy, Debug, PartialEq, Eq)]
pub enum View {
    /// The highest block that is not air.
    Blocks,
    /// The block light that falls on it, as its file has it.
    Light,
}
