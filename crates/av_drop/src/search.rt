//! The search for the nearest drop.
ghost use Rattle.std.specs.Prelude.{◌≡◌, ◌<◌, ◌+◌, ◌&&◌, ◌||◌, ℕ, IsTrue, true, false};
ghost use Rattle.av_rules.specs.Kinds.{kind_count};
ghost use Rattle.av_types.specs.declared.position.Pos.{Pos};
ghost use Rattle.av_types.specs.declared.water.Direction.{Direction};
ghost use Rattle.av_cells.specs.declared.kind.Kind.{Kind};
ghost use Rattle.av_cells.specs.Kinds.{kinds_of};
ghost use Rattle.av_cells.specs.Positions.{step, IsNearOrigin};
ghost use Rattle.av_cells.specs.Rule.{IsDrop, HasKinds, can_drop, has_hole};
ghost use Rattle.av_cells.specs.World.{World};
ghost use Rattle.av_drop.specs.Fronts.{AreSeen, AreFronts, AreDropping, HaveNone, IsFront};
ghost use Rattle.av_drop.specs.Sides.{AreWays, AreChosen};

use crate::around::{Around, look};
use crate::board::Board;
use crate::fronts::{Next, advance, first_front};
use av_cells::{Cells, has_hole, step};
use av_rules::Kinds;
use av_types::{Direction, Pos};

/// Some of the four sides of a block.
#[derive(Clone, Copy, Debug, PartialEq, Eq)]
pub struct Sides {
    pub north: bool,
    pub south: bool,
    pub west: bool,
    pub east: bool,
}

impl Sides {
    /// Whether there is one.
    pub fn has_any(self) -> bool
        ensures { result ≡ (self.north || self.south || self.west || self.east) }
    {
        self.north || self.south || self.west || self.east
    }
}

/// The fronts of the four sides.
#[derive(Clone, Copy)]
struct Fronts {
    north: Board,
    south: Board,
    west: Board,
    east: Board,
}

/// The fronts of sides that can be entered, before the first step.
fn first_fronts(ways: Sides) -> Fronts
    ensures { (k : ℕ → Kind) (w : World) (p : Pos) → AreWays k w p ways
        → AreFronts k w p ways 0 result.north result.south result.west result.east }
{
    Fronts {
        north: first_front(Direction::North, ways.north),
        south: first_front(Direction::South, ways.south),
        west: first_front(Direction::West, ways.west),
        east: first_front(Direction::East, ways.east),
    }
}

/// Goes one step on from the front of a side, if that can be entered.
fn advance_side<C: Cells>(
    cells: &C,
    kinds: &Kinds,
    pos: Pos,
    around: &mut Around,
    front: Board,
    is_way: bool,
) -> Next
    requires near { IsNearOrigin pos }
    requires kinds { HasKinds (kind_count kinds.now) (C.world cells.now) }
    requires seen { AreSeen (kinds_of kinds.now) (C.world cells.now) pos around.old }
    ensures front { (s : Pos) (n : ℕ) → n < 4
        → (is_way ≡ true → IsFront (kinds_of kinds.now) (C.world cells.now) pos s n front)
        → is_way ≡ true → IsFront (kinds_of kinds.now) (C.world cells.now) pos s (n + 1) result.front }
    ensures drops { (s : Pos) (n : ℕ) → n < 4
        → (is_way ≡ true → IsFront (kinds_of kinds.now) (C.world cells.now) pos s n front)
        → result.drops ≡ (is_way && can_drop (kinds_of kinds.now) (C.world cells.now) (n + 1) s) }
    ensures seen { AreSeen (kinds_of kinds.now) (C.world cells.now) pos around.new }
{
    if !is_way {
        return Next {
            front,
            drops: false,
        };
    }
    advance(cells, kinds, pos, around, front)
}

/// The fronts, and the sides whose front drops.
#[derive(Clone, Copy)]
struct Advance {
    fronts: Fronts,
    drops: Sides,
}

/// Goes one step on from the front of each side that can be entered.
fn advance_all<C: Cells>(
    cells: &C,
    kinds: &Kinds,
    pos: Pos,
    ways: Sides,
    around: &mut Around,
    fronts: Fronts,
) -> Advance
    requires near { IsNearOrigin pos }
    requires kinds { HasKinds (kind_count kinds.now) (C.world cells.now) }
    requires seen { AreSeen (kinds_of kinds.now) (C.world cells.now) pos around.old }
    ensures fronts { (n : ℕ) → n < 4
        → AreFronts (kinds_of kinds.now) (C.world cells.now) pos ways n fronts.north fronts.south fronts.west fronts.east
        → AreFronts (kinds_of kinds.now) (C.world cells.now) pos ways (n + 1) result.fronts.north result.fronts.south result.fronts.west result.fronts.east }
    ensures drops { (n : ℕ) → n < 4
        → AreFronts (kinds_of kinds.now) (C.world cells.now) pos ways n fronts.north fronts.south fronts.west fronts.east
        → AreDropping (kinds_of kinds.now) (C.world cells.now) pos ways (n + 1) result.drops }
    ensures seen { AreSeen (kinds_of kinds.now) (C.world cells.now) pos around.new }
{
    let north = advance_side(cells, kinds, pos, around, fronts.north, ways.north);
    let south = advance_side(cells, kinds, pos, around, fronts.south, ways.south);
    let west = advance_side(cells, kinds, pos, around, fronts.west, ways.west);
    let east = advance_side(cells, kinds, pos, around, fronts.east, ways.east);
    Advance {
        fronts: Fronts {
            north: north.front,
            south: south.front,
            west: west.front,
            east: east.front,
        },
        drops: Sides {
            north: north.drops,
            south: south.drops,
            west: west.drops,
            east: east.drops,
        },
    }
}

/// Whether a side is one of those that can be entered, and has a hole.
fn is_way_down<C: Cells>(
    cells: &C,
    kinds: &Kinds,
    pos: Pos,
    direction: Direction,
    is_way: bool,
) -> bool
    requires loaded { IsTrue ((C.world cells.now).loaded pos) }
    requires kinds { HasKinds (kind_count kinds.now) (C.world cells.now) }
    ensures { result ≡ (is_way && has_hole (kinds_of kinds.now) (C.world cells.now)
        (step pos direction)) }
{
    is_way && has_hole(cells, kinds, step(pos, direction))
}

/// Which sides have a hole, of those that can be entered.
fn ways_down<C: Cells>(cells: &C, kinds: &Kinds, pos: Pos, ways: Sides) -> Sides
    requires loaded { IsTrue ((C.world cells.now).loaded pos) }
    requires kinds { HasKinds (kind_count kinds.now) (C.world cells.now) }
    requires ways { AreWays (kinds_of kinds.now) (C.world cells.now) pos ways }
    ensures { AreDropping (kinds_of kinds.now) (C.world cells.now) pos ways 0 result }
{
    Sides {
        north: is_way_down(cells, kinds, pos, Direction::North, ways.north),
        south: is_way_down(cells, kinds, pos, Direction::South, ways.south),
        west: is_way_down(cells, kinds, pos, Direction::West, ways.west),
        east: is_way_down(cells, kinds, pos, Direction::East, ways.east),
    }
}

/// Which sides are chosen, of those that can be entered, where none of these has a hole: those from which the fewest
/// steps come to a drop, and all where 4 steps come to none. Blocks are read only where a walk comes.
fn nearest_by_walks<C: Cells>(cells: &C, kinds: &Kinds, pos: Pos, ways: Sides) -> Sides
    requires near { IsNearOrigin pos }
    requires kinds { HasKinds (kind_count kinds.now) (C.world cells.now) }
    requires ways { AreWays (kinds_of kinds.now) (C.world cells.now) pos ways }
    requires any { (ways.north || ways.south || ways.west || ways.east) ≡ true }
    requires none { HaveNone (kinds_of kinds.now) (C.world cells.now) pos ways 1 }
    ensures { AreChosen (kinds_of kinds.now) (C.world cells.now) pos result }
{
    let mut around = Around::new();
    let mut fronts = first_fronts(ways);
    for steps in 0..4u8 {
        let next = advance_all(cells, kinds, pos, ways, &mut around, fronts);
        if next.drops.has_any() {
            return next.drops;
        }
        fronts = next.fronts;
    }
    ways
}

/// To which sides of a loaded block its water spreads, of those that can be entered: those with the nearest drop, or
/// all where none has one. A drop is as far as the least number of steps, from 0 to 4, of a walk that begins at the
/// side, goes over loaded blocks that are open or wet and no sources, and ends at one with a hole. Takes no memory.
pub fn nearest_sides<C: Cells>(cells: &C, kinds: &Kinds, pos: Pos, ways: Sides) -> Sides
    requires loaded { IsTrue ((C.world cells.now).loaded pos) }
    requires kinds { HasKinds (kind_count kinds.now) (C.world cells.now) }
    requires ways { AreWays (kinds_of kinds.now) (C.world cells.now) pos ways }
    ensures { AreChosen (kinds_of kinds.now) (C.world cells.now) pos result }
{
    if !ways.has_any() {
        return ways;
    }
    let down = ways_down(cells, kinds, pos, ways);
    if down.has_any() {
        return down;
    }
    nearest_by_walks(cells, kinds, pos, ways)
}

/// How far it is from one side of a loaded block to the nearest drop: the least number of steps, from 0 to 4, of a
/// walk that begins at the side, goes over loaded blocks that are open or wet and no sources, and ends at one with
/// a hole. None where there is no such walk. Takes no memory.
pub fn drop_distance<C: Cells>(
    cells: &C,
    kinds: &Kinds,
    pos: Pos,
    direction: Direction,
) -> Option<u8>
    requires loaded { IsTrue ((C.world cells.now).loaded pos) }
    requires kinds { HasKinds (kind_count kinds.now) (C.world cells.now) }
    ensures { IsDrop (kinds_of kinds.now) (C.world cells.now) (step pos direction) result }
{
    let first = look(cells, kinds, step(pos, direction));
    if first.drops {
        return Some(0);
    }
    let mut around = Around::new();
    let mut front = first_front(direction, first.passes);
    for steps in 0..4 {
        let next = advance(cells, kinds, pos, &mut around, front);
        if next.drops {
            return Some(steps + 1);
        }
        front = next.front;
    }
    None
}
