//! What the rule knows of a block.
ghost use Rattle.std.specs.Prelude.{◌≡◌, ◌<◌};
ghost use Rattle.av_rules.specs.Kinds.{kind_count};
ghost use Rattle.av_types.specs.Water.{IsProper};
ghost use Rattle.av_cells.specs.Kinds.{kinds_of};
ghost use Rattle.av_cells.specs.Positions.{IsInner};
ghost use Rattle.av_cells.specs.Rule.{kind_at, can_enter, has_hole, HasKinds};

use crate::cells::Cells;
use crate::neighbours::below;
use av_rules::Kinds;
use av_types::{Pos, Wet};

/// What the rule knows of a block's state.
#[derive(Clone, Copy, Debug, PartialEq, Eq)]
pub struct Kind {
    /// Whether water may replace it.
    pub opens: bool,
    /// Whether water stands on it: two sources make a third above it.
    pub floor: bool,
    /// How wet it is.
    pub wet: Wet,
}

/// The kind of a number's state.
#[tactic(auto, unfolding(crate::specs::Kinds::kinds_of))]
fn kind_of(kinds: &Kinds, number: u16) -> Kind
    requires { number < kind_count kinds.now }
    ensures is { result ≡ kinds_of kinds.now number }
    ensures proper { IsProper result.wet }
{
    let row = kinds.row(number);
    Kind {
        opens: row.opens,
        floor: row.floor,
        wet: kinds.wet(number),
    }
}

/// The kind of a block. One that is not loaded is dry, not open, and floor.
#[tactic(auto, unfolding(crate::specs::Rule::kind_at))]
#[inline(always)]
pub fn kind_at<C: Cells>(cells: &C, kinds: &Kinds, pos: Pos) -> Kind
    requires { HasKinds (kind_count kinds.now) (C.world cells.now) }
    ensures is { result ≡ kind_at (kinds_of kinds.now) (C.world cells.now) pos }
    ensures proper { IsProper result.wet }
{
    match cells.number_at(pos) {
        Some(number) => kind_of(kinds, number),
        None => Kind {
            opens: false,
            floor: true,
            wet: Wet::Dry,
        },
    }
}

/// Whether water can come into a block: it is loaded, open and dry.
#[tactic(auto, unfolding(crate::specs::Rule::can_enter))]
pub fn can_enter<C: Cells>(cells: &C, kinds: &Kinds, pos: Pos) -> bool
    requires { HasKinds (kind_count kinds.now) (C.world cells.now) }
    ensures { result ≡ can_enter (kinds_of kinds.now) (C.world cells.now) pos }
{
    let kind = kind_at(cells, kinds, pos);
    kind.opens && !kind.wet.is_wet()
}

/// Whether a block has a hole: the block below is wet or can be entered.
#[tactic(auto, using(crate::proofs::Loaded::wet_or_dry_and_open), unfolding(crate::specs::Rule::has_hole, crate::specs::Rule::can_enter))]
#[inline(always)]
pub fn has_hole<C: Cells>(cells: &C, kinds: &Kinds, pos: Pos) -> bool
    requires inner { IsInner pos }
    requires kinds { HasKinds (kind_count kinds.now) (C.world cells.now) }
    ensures { result ≡ has_hole (kinds_of kinds.now) (C.world cells.now) pos }
{
    let under = kind_at(cells, kinds, below(pos));
    under.wet.is_wet() || under.opens
}
