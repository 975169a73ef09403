//! The entries of a tick in groups, each of which may be turned in a world of the chunks that it touches alone.
#![tactic(auto)]

mod corners;
pub mod cutting;
pub mod groups;
mod noting;
pub mod stretches;

ghost use Rattle.av_groups.specs.Parts.{TurnsStayInTheirPart};

/// A law. Entries whose turns read and change loaded blocks of some chunks only leave in a land of these chunks alone what they
/// leave in the whole land, where all other chunks stay as they were. It does nothing when it is called.
pub fn turns_stay_in_their_part()
    ensures { TurnsStayInTheirPart }
{}
