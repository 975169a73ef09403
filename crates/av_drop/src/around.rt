//! What is known of the blocks of a board.
ghost use Rattle.std.specs.Prelude.{◌≡◌, ◌≤◌, ◌<◌, ◌+◌, ◌-◌, pos, negsuc, ◌+ℤ◌, ◌-ℤ◌, ◌≤ℤ◌, ◌&&◌, ℕ, nat_eq, true, false};
ghost use Rattle.av_rules.specs.Kinds.{kind_count};
ghost use Rattle.av_types.specs.declared.position.Pos.{Pos};
ghost use Rattle.av_cells.specs.declared.kind.Kind.{Kind};
ghost use Rattle.av_cells.specs.Kinds.{kinds_of};
ghost use Rattle.av_cells.specs.Positions.{IsNearOrigin, IsInner};
ghost use Rattle.av_cells.specs.Rule.{can_pass, HasKinds};
ghost use Rattle.av_cells.specs.World.{World};
ghost use Rattle.av_drop.specs.Board.{spot, is_on, ShareSquare};
ghost use Rattle.av_drop.specs.Fronts.{IsSeen, AreSeen};

use crate::board::Board;
use av_cells::{Cells, has_hole, kind_at};
use av_rules::Kinds;
use av_types::Pos;

/// A coordinate of a block of the board.
fn coordinate(middle: i32, steps: u32) -> i32
    requires low { negsuc 30719999 ≤ℤ middle }
    requires high { middle ≤ℤ pos 30720511 }
    requires steps { steps < 12 }
    ensures { result ≡ middle +ℤ pos steps -ℤ pos 5 }
{
    middle + (steps as i32 - 5)
}

/// The block at a square of the board.
fn spot(middle: Pos, square: u32) -> Pos
    requires near { IsNearOrigin middle }
    requires square { square < 128 }
    ensures is { result ≡ spot middle square }
    ensures inner { IsInner result }
{
    Pos {
        x: coordinate(middle.x, square % 11),
        y: middle.y,
        z: coordinate(middle.z, square / 11),
    }
}

/// Whether a walk to a drop may pass a block: it is open or wet, and no source.
#[tactic(auto, unfolding(av_cells::specs::Rule::can_pass))]
fn can_pass<C: Cells>(cells: &C, kinds: &Kinds, pos: Pos) -> bool
    requires { HasKinds (kind_count kinds.now) (C.world cells.now) }
    ensures { result ≡ can_pass (kinds_of kinds.now) (C.world cells.now) pos }
{
    let kind = kind_at(cells, kinds, pos);
    (kind.opens || kind.wet.is_wet()) && !kind.wet.is_source()
}

/// What is known of a block.
#[derive(Clone, Copy)]
pub(crate) struct Seen {
    /// Whether a walk may pass it.
    pub(crate) passes: bool,
    /// Whether it has a walk of no steps to a drop.
    pub(crate) drops: bool,
}

/// Reads a block, and the one below it if a walk may pass it.
#[tactic(auto, unfolding(av_cells::specs::Rule::can_drop))]
pub(crate) fn look<C: Cells>(cells: &C, kinds: &Kinds, pos: Pos) -> Seen
    requires inner { IsInner pos }
    requires kinds { HasKinds (kind_count kinds.now) (C.world cells.now) }
    ensures { IsSeen (kinds_of kinds.now) (C.world cells.now) pos result }
{
    let passes = can_pass(cells, kinds, pos);
    Seen {
        passes,
        drops: passes && has_hole(cells, kinds, pos),
    }
}

/// What is known of the blocks of the board.
#[derive(Clone, Copy)]
pub(crate) struct Around {
    /// The squares of the blocks that were read.
    known: Board,
    /// Those of them that a walk may pass.
    passes: Board,
    /// Those of them that have a walk of no steps to a drop.
    drops: Board,
}

impl Around {
    /// Nothing is known.
    pub(crate) fn new() -> Self
        ensures { (k : ℕ → Kind) (w : World) (p : Pos) → AreSeen k w p result }
    {
        Around {
            known: Board::empty(),
            passes: Board::empty(),
            drops: Board::empty(),
        }
    }

    /// Reads the block at a square at which nothing is known.
    fn read_at<C: Cells>(&mut self, cells: &C, kinds: &Kinds, middle: Pos, square: u32)
        requires near { IsNearOrigin middle }
        requires square { square < 128 }
        requires kinds { HasKinds (kind_count kinds.now) (C.world cells.now) }
        requires seen { AreSeen (kinds_of kinds.now) (C.world cells.now) middle self.old }
        requires new { is_on self.old.known square ≡ false }
        ensures seen { AreSeen (kinds_of kinds.now) (C.world cells.now) middle self.new }
        ensures here { is_on self.new.known square ≡ true }
        ensures others { (i : ℕ) → nat_eq i square ≡ false
            → is_on self.new.known i ≡ is_on self.old.known i }
    {
        let seen = look(cells, kinds, spot(middle, square));
        self.known = self.known.with(square);
        self.passes = self.passes.with_if(square, seen.passes);
        self.drops = self.drops.with_if(square, seen.drops);
    }

    /// Reads the blocks at some squares, where nothing is known.
    pub(crate) fn read<C: Cells>(&mut self, cells: &C, kinds: &Kinds, middle: Pos, squares: Board)
        requires near { IsNearOrigin middle }
        requires kinds { HasKinds (kind_count kinds.now) (C.world cells.now) }
        requires seen { AreSeen (kinds_of kinds.now) (C.world cells.now) middle self.old }
        ensures seen { AreSeen (kinds_of kinds.now) (C.world cells.now) middle self.new }
        ensures known { (i : ℕ) → i < 128 → is_on squares i ≡ true → is_on self.new.known i ≡ true }
    {
        let mut left = squares.apart_from(self.known);
        while !left.is_empty() {
            let square = left.first();
            self.read_at(cells, kinds, middle, square);
            left = left.without(square);
        }
    }

    /// Those of some squares, all of which were read, that a walk may pass.
    pub(crate) fn passed(self, squares: Board) -> Board
        ensures { (i : ℕ) → is_on result i ≡ (is_on squares i && is_on self.passes i) }
    {
        squares.among(self.passes)
    }

    /// Whether one of some squares, all of which were read, has a walk of no steps to a drop.
    pub(crate) fn drops_at(self, squares: Board) -> bool
        ensures some { result ≡ true → ShareSquare squares self.drops }
        ensures none { result ≡ false → (i : ℕ) → is_on squares i ≡ true
            → is_on self.drops i ≡ false }
    {
        let dropping = squares.among(self.drops);
        !dropping.is_empty()
    }
}
