//! Which sides of a block its water spreads to.
ghost use Rattle.std.specs.Prelude.{◌≡◌, ◌<◌, IsTrue};
ghost use Rattle.av_rules.specs.Kinds.{kind_count};
ghost use Rattle.av_types.specs.Water.{IsProper};
ghost use Rattle.av_cells.specs.Kinds.{kinds_of};
ghost use Rattle.av_cells.specs.Positions.{step};
ghost use Rattle.av_cells.specs.Rule.{HasKinds, can_enter};
ghost use Rattle.av_cells.specs.Turn.{number_of_wet, is_chosen};
ghost use Rattle.av_drop.specs.Sides.{AreWays};
ghost use Rattle.av_water.specs.Sides.{ForSides, IsPlanFor};

use crate::coming::incoming;
use av_cells::{Cells, can_enter, step};
use av_drop::{Sides, nearest_sides};
use av_rules::Kinds;
use av_types::{Direction, Pos, Wet};

/// The number of a state of water: 0 is air, 1 to 9 are the levels 0 to 8.
pub(crate) fn number_of_wet(wet: Wet) -> u16
    requires { IsProper wet }
    ensures is { result ≡ number_of_wet wet }
    ensures bound { result < 10 }
{
    match wet {
        Wet::Dry => 0,
        Wet::Source => 1,
        Wet::Flow(amount) => 9 - u16::from(amount),
        Wet::Falling => 9,
    }
}

/// What each side is to be set to, by the numbers of states, if anything.
#[derive(Clone, Copy)]
pub(crate) struct Plan {
    pub(crate) north: Option<u16>,
    pub(crate) south: Option<u16>,
    pub(crate) west: Option<u16>,
    pub(crate) east: Option<u16>,
}

/// Whether the side in one direction can be entered.
fn is_way<C: Cells>(cells: &C, kinds: &Kinds, pos: Pos, direction: Direction) -> bool
    requires loaded { IsTrue ((C.world cells.now).loaded pos) }
    requires kinds { HasKinds (kind_count kinds.now) (C.world cells.now) }
    ensures { result ≡ can_enter (kinds_of kinds.now) (C.world cells.now) (step pos direction) }
{
    can_enter(cells, kinds, step(pos, direction))
}

/// Which sides of a loaded block can be entered.
fn ways_of<C: Cells>(cells: &C, kinds: &Kinds, pos: Pos) -> Sides
    requires loaded { IsTrue ((C.world cells.now).loaded pos) }
    requires kinds { HasKinds (kind_count kinds.now) (C.world cells.now) }
    ensures { AreWays (kinds_of kinds.now) (C.world cells.now) pos result }
{
    Sides {
        north: is_way(cells, kinds, pos, Direction::North),
        south: is_way(cells, kinds, pos, Direction::South),
        west: is_way(cells, kinds, pos, Direction::West),
        east: is_way(cells, kinds, pos, Direction::East),
    }
}

/// What the side in one direction is to be set to, by whether it is chosen.
#[tactic(auto, using(crate::proofs::Plans::no_plan))]
fn planned_side<C: Cells>(
    cells: &C,
    kinds: &Kinds,
    pos: Pos,
    direction: Direction,
    chosen: bool,
) -> Option<u16>
    requires loaded { IsTrue ((C.world cells.now).loaded pos) }
    requires kinds { HasKinds (kind_count kinds.now) (C.world cells.now) }
    requires chosen { chosen ≡ is_chosen (kinds_of kinds.now) (C.world cells.now) pos direction }
    ensures { IsPlanFor (kinds_of kinds.now) (C.world cells.now) pos direction result }
{
    if !chosen {
        return None;
    }
    let side = step(pos, direction);
    Some(number_of_wet(incoming(cells, kinds, side)))
}

/// What the sides of a loaded block are to be set to: each that can be entered and has no farther drop than another
/// such side gets what comes into it.
pub(crate) fn plan_of<C: Cells>(cells: &C, kinds: &Kinds, pos: Pos) -> Plan
    requires loaded { IsTrue ((C.world cells.now).loaded pos) }
    requires kinds { HasKinds (kind_count kinds.now) (C.world cells.now) }
    ensures { ForSides (IsPlanFor (kinds_of kinds.now) (C.world cells.now) pos)
        result.north result.south result.west result.east }
{
    let ways = ways_of(cells, kinds, pos);
    let chosen = nearest_sides(cells, kinds, pos, ways);
    Plan {
        north: planned_side(cells, kinds, pos, Direction::North, chosen.north),
        south: planned_side(cells, kinds, pos, Direction::South, chosen.south),
        west: planned_side(cells, kinds, pos, Direction::West, chosen.west),
        east: planned_side(cells, kinds, pos, Direction::East, chosen.east),
    }
}
