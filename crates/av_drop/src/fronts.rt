//! Fronts: the blocks to which walks of so many steps come.
ghost use Rattle.std.specs.Prelude.{◌≡◌, ◌<◌, ◌&&◌, ℕ, nat_eq};
ghost use Rattle.av_rules.specs.Kinds.{kind_count};
ghost use Rattle.av_cells.specs.Kinds.{kinds_of};
ghost use Rattle.av_cells.specs.Positions.{IsNearOrigin};
ghost use Rattle.av_cells.specs.Rule.{HasKinds};
ghost use Rattle.av_drop.specs.Board.{is_on, side_square};
ghost use Rattle.av_drop.specs.Fronts.{AreSeen, IsNext};

use crate::around::Around;
use crate::board::Board;
use av_cells::Cells;
use av_rules::Kinds;
use av_types::{Direction, Pos};

/// The square of a side of the middle.
fn side_square(direction: Direction) -> u32
    ensures is { result ≡ side_square direction }
    ensures bound { result < 128 }
{
    match direction {
        Direction::North => 49,
        Direction::South => 71,
        Direction::West => 59,
        Direction::East => 61,
    }
}

/// The front of no steps from a side, where a walk may pass that.
pub(crate) fn first_front(direction: Direction, passes: bool) -> Board
    ensures { (i : ℕ) → is_on result i ≡ (nat_eq i (side_square direction) && passes) }
{
    Board::empty().with_if(side_square(direction), passes)
}

/// A front, and whether a block of it drops.
#[derive(Clone, Copy)]
pub(crate) struct Next {
    pub(crate) front: Board,
    pub(crate) drops: bool,
}

/// Goes one step on from the blocks of a front. Blocks beside it are read where nothing is known of them.
pub(crate) fn advance<C: Cells>(
    cells: &C,
    kinds: &Kinds,
    middle: Pos,
    around: &mut Around,
    front: Board,
) -> Next
    requires near { IsNearOrigin middle }
    requires kinds { HasKinds (kind_count kinds.now) (C.world cells.now) }
    requires seen { AreSeen (kinds_of kinds.now) (C.world cells.now) middle around.old }
    ensures is { IsNext (kinds_of kinds.now) (C.world cells.now) middle front result.front
        result.drops }
    ensures seen { AreSeen (kinds_of kinds.now) (C.world cells.now) middle around.new }
{
    let beside = front.beside();
    around.read(cells, kinds, middle, beside);
    let next = around.passed(beside);
    Next {
        front: next,
        drops: around.drops_at(next),
    }
}
