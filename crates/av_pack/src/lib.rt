//! What a section has at each place, packed: block indices in longs, light in half bytes, and sets of places in bits.
#![tactic(auto)]

pub mod in_longs;
pub mod nibbles;
pub mod packing;
pub mod places;

pub use in_longs::{cleaned, entries_below, used_in_order};
pub use nibbles::{nibble, set_nibble};
pub use packing::{bits_for, get_at, longs_for, pack, set_at, unpack};
pub use places::PlaceSet;
