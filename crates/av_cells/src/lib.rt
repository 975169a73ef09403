//! Blocks as the rule of water sees them: its definitions (in `specs/`), the trait through which a turn reads and
//! changes a world or a part of one, and one set of a block with its waking.
#![tactic(auto)]

pub mod awake;
pub mod cells;
pub mod kind;
pub mod laws;
pub mod neighbours;

pub use awake::{set_awake, set_awake_onto};
pub use cells::Cells;
pub use kind::{Kind, can_enter, has_hole, kind_at};
pub use neighbours::{above, below, step};
