//! The blocks that a turn sets: the block itself, the one below, and the sides.
ghost use Rattle.std.specs.Prelude.{◌≡◌, ◌<◌, ℕ, IsTrue, Some};
ghost use Rattle.av_rules.specs.Kinds.{kind_count};
ghost use Rattle.av_cells.specs.Kinds.{kinds_of};
ghost use Rattle.av_cells.specs.Positions.{step};
ghost use Rattle.av_cells.specs.Turn.{set_awake, set_planned};
ghost use Rattle.av_water.specs.Ready.{IsReadyForTurn};
ghost use Rattle.av_water.specs.Sides.{ForSides, IsPlanFor};
ghost use Rattle.av_water.specs.Steps.{IsTurnStep, MaySet};
ghost use Rattle.av_types.specs.declared.water.Direction.TheVariants.{North, South, West, East};

use crate::plan::Plan;
use arrayvec::ArrayVec;
use av_cells::{Cells, set_awake_onto, step};
use av_rules::Kinds;
use av_types::{Direction, Entry, Pos};

/// Sets a block to air or water in a turn of `pos`, and wakes it and those next to it.
pub(crate) fn set_number<C: Cells>(
    cells: &mut C,
    kinds: &Kinds,
    now: u32,
    pos: Pos,
    target: Pos,
    number: u16,
    made: &mut ArrayVec<Entry, 42>,
)
    requires ready { IsReadyForTurn (kind_count kinds.now) (C.world cells.old) (C.room cells.old)
        (C.can_set cells.old) made.old.items pos 7 }
    requires target { MaySet pos target }
    requires there { IsTrue ((C.world cells.old).loaded target) }
    requires water { number < 10 }
    ensures { IsTurnStep C.world C.lists C.site C.room C.can_set (kind_count kinds.now) pos 7
        (set_awake (kinds_of kinds.now) now target number)
        cells.old made.old.items cells.new made.new.items }
{
    set_awake_onto(cells, kinds, now, target, number, made);
}

/// Sets a side to what is planned for it, if anything.
fn set_planned_side<C: Cells>(
    cells: &mut C,
    kinds: &Kinds,
    now: u32,
    pos: Pos,
    direction: Direction,
    plan: Option<u16>,
    made: &mut ArrayVec<Entry, 42>,
)
    requires ready { IsReadyForTurn (kind_count kinds.now) (C.world cells.old) (C.room cells.old)
        (C.can_set cells.old) made.old.items pos 7 }
    requires there { (n : ℕ) → plan ≡ Some n → IsTrue
        ((C.world cells.old).loaded (step pos direction)) }
    requires water { (n : ℕ) → plan ≡ Some n → n < 10 }
    ensures { IsTurnStep C.world C.lists C.site C.room C.can_set (kind_count kinds.now) pos 7
        (set_planned (kinds_of kinds.now) now (step pos direction) plan)
        cells.old made.old.items cells.new made.new.items }
{
    if let Some(number) = plan {
        set_number(cells, kinds, now, pos, step(pos, direction), number, made);
    }
}

/// Sets the sides to what is planned for them, north, south, west and east in this order.
pub(crate) fn set_sides<C: Cells>(
    cells: &mut C,
    kinds: &Kinds,
    now: u32,
    pos: Pos,
    plan: Plan,
    made: &mut ArrayVec<Entry, 42>,
)
    requires ready { IsReadyForTurn (kind_count kinds.now) (C.world cells.old) (C.room cells.old)
        (C.can_set cells.old) made.old.items pos 28 }
    requires planned { ForSides (IsPlanFor (kinds_of kinds.now) (C.world cells.old) pos)
        plan.north plan.south plan.west plan.east }
    ensures { IsTurnStep C.world C.lists C.site C.room C.can_set (kind_count kinds.now) pos 28
        (λ c. set_planned (kinds_of kinds.now) now (step pos East) plan.east
        (set_planned (kinds_of kinds.now) now (step pos West) plan.west
        (set_planned (kinds_of kinds.now) now (step pos South) plan.south
        (set_planned (kinds_of kinds.now) now (step pos North) plan.north c))))
        cells.old made.old.items cells.new made.new.items }
{
    set_planned_side(cells, kinds, now, pos, Direction::North, plan.north, made);
    set_planned_side(cells, kinds, now, pos, Direction::South, plan.south, made);
    set_planned_side(cells, kinds, now, pos, Direction::West, plan.west, made);
    set_planned_side(cells, kinds, now, pos, Direction::East, plan.east, made);
}
