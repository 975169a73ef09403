//! Groups of a tick's entries that are turned apart: each in a world of the chunks that it touches, which is lent out of the
//! tick's world and taken back. Each chunk goes through its groups in their order, so that what is left is that of the tick.
#![tactic(auto)]

pub mod handed;
pub mod lender;
pub mod lent;
pub mod plans;
mod waiting;

pub use handed::{Keeper, Work};
pub use lender::Lender;
pub use lent::{Lent, Turned, turn_lent};
pub use plans::Plan;
