//! A picture of a world from above, or of the light on it.
#![tactic(auto)]

mod bounds;
mod colour;
pub mod colours;
mod columns;
pub mod drawing;
mod light;
mod look;
mod painting;
mod patch;
mod reading;
pub mod refusal;
mod rows;
mod sight;
pub mod view;

pub use colours::Colours;
pub use drawing::{Map, draw};
pub use refusal::Refusal;
pub use view::View;
