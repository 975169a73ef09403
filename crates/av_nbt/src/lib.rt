//! The bytes of NBT (<https://minecraft.wiki/w/NBT_format>): tag trees read from them and written.
#![tactic(auto)]

mod distinct;
mod fields;
pub mod reader;
mod room;
mod size;
pub mod writer;

pub use reader::{decode, spelling_is_unique};
pub use writer::{encode, written_is_spelling};
