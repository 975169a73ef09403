//! A tick in groups, as clauses see it.
ghost use Rattle.std.specs.Prelude.{◌≡◌};

use av_groups::groups::Groups;
use av_rules::Kinds;
use av_world::World;
use std::snapshot::Snapshot;

/// A tick in groups: its number, the kinds of its states, the world with which its turns begin, and its entries in groups. All who
/// turn groups of it know it, in clauses; when the program runs it is a number.
#[derive(Drop)]
pub struct Plan {
    pub tick: u32,
    pub kinds: Snapshot<Kinds>,
    pub start: Snapshot<World>,
    pub groups: Snapshot<Groups>,
}

impl Plan {
    /// Tick `now`, with which this world begins, in these groups.
    pub fn new(now: u32, kinds: &Kinds, start: &World, groups: &Groups) -> Self
        ensures tick { result.tick ≡ now }
        ensures kinds { result.kinds.value ≡ kinds.now }
        ensures start { result.start.value ≡ start.now }
        ensures groups { result.groups.value ≡ groups.now }
    {
        Plan {
            tick: now,
            kinds: Snapshot::of(kinds),
            start: Snapshot::of(start),
            groups: Snapshot::of(groups),
        }
    }
}
