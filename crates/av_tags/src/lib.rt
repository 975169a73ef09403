//! NBT, the tags of Minecraft's files (<https://minecraft.wiki/w/NBT_format>): a tag tree in memory.
#![tactic(auto)]

pub mod copy;
pub mod members;
pub mod tag;

pub use copy::copy_tags;
pub use members::{exchange, find, put, remove};
pub use tag::{Named, Root, Tag, TagType};
