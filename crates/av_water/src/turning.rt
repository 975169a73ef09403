//! The turn of a block.
ghost use Rattle.std.specs.Prelude.{◌≡◌, ◌<◌, ◌≤◌, ℕ, [], IsTrue};
ghost use Rattle.av_rules.specs.Kinds.{kind_count};
ghost use Rattle.av_types.specs.declared.position.Pos.{Pos};
ghost use Rattle.av_cells.specs.Kinds.{kinds_of};
ghost use Rattle.av_cells.specs.Positions.{ForTurned, InReach, below};
ghost use Rattle.av_cells.specs.Rule.{HasKinds, can_enter, wet_at};
ghost use Rattle.av_cells.specs.Turn.{change, same_wet, spread, onward, renewed, turn};
ghost use Rattle.av_cells.specs.World.{listed_all};
ghost use Rattle.av_water.specs.Ready.{IsReadyForTurn};
ghost use Rattle.av_water.specs.Steps.{IsTurnStep};

use crate::coming::{incoming, sources_beside};
use crate::plan::{number_of_wet, plan_of};
use crate::steps::{set_number, set_sides};
use arrayvec::ArrayVec;
use av_cells::{Cells, below, kind_at};
use av_rules::Kinds;
use av_types::{Entry, Pos, Wet};

/// Spreads from a block that is so wet to the chosen sides, where there is an amount of at least 2.
#[tactic(auto, unfolding(av_cells::specs::Turn::spread))]
fn spread<C: Cells>(
    cells: &mut C,
    kinds: &Kinds,
    now: u32,
    pos: Pos,
    wet: Wet,
    made: &mut ArrayVec<Entry, 42>,
)
    requires ready { IsReadyForTurn (kind_count kinds.now) (C.world cells.old) (C.room cells.old)
        (C.can_set cells.old) made.old.items pos 28 }
    requires wet { wet ≡ wet_at (kinds_of kinds.now) (C.world cells.old) pos }
    ensures { IsTurnStep C.world C.lists C.site C.room C.can_set (kind_count kinds.now) pos 28
        (spread (kinds_of kinds.now) now pos) cells.old made.old.items cells.new made.new.items }
{
    if wet.amount() >= 2 {
        let plan = plan_of(cells, kinds, pos);
        set_sides(cells, kinds, now, pos, plan, made);
    }
}

/// Sets the block below, which can be entered, to what comes into it. Then, over three sources beside the block, it
/// spreads.
#[tactic(auto, using(crate::proofs::Plans::enterable_is_loaded), unfolding(av_cells::specs::Turn::onward))]
fn fall<C: Cells>(
    cells: &mut C,
    kinds: &Kinds,
    now: u32,
    pos: Pos,
    wet: Wet,
    made: &mut ArrayVec<Entry, 42>,
)
    requires ready { IsReadyForTurn (kind_count kinds.now) (C.world cells.old) (C.room cells.old)
        (C.can_set cells.old) made.old.items pos 35 }
    requires wet { wet ≡ wet_at (kinds_of kinds.now) (C.world cells.old) pos }
    requires open { IsTrue (can_enter (kinds_of kinds.now) (C.world cells.old) (below pos)) }
    ensures { IsTurnStep C.world C.lists C.site C.room C.can_set (kind_count kinds.now) pos 35
        (onward (kinds_of kinds.now) now pos) cells.old made.old.items cells.new made.new.items }
{
    let spreads = sources_beside(cells, kinds, pos) >= 3;
    let under = below(pos);
    let number = number_of_wet(incoming(cells, kinds, under));
    set_number(cells, kinds, now, pos, under, number, made);
    if spreads {
        spread(cells, kinds, now, pos, wet, made);
    }
}

/// Goes on from a block that is so wet, and up to date: down, and to the sides.
#[tactic(auto, unfolding(av_cells::specs::Turn::onward, av_cells::specs::Rule::can_enter, av_cells::specs::Rule::has_hole))]
fn go_on<C: Cells>(
    cells: &mut C,
    kinds: &Kinds,
    now: u32,
    pos: Pos,
    wet: Wet,
    made: &mut ArrayVec<Entry, 42>,
)
    requires ready { IsReadyForTurn (kind_count kinds.now) (C.world cells.old) (C.room cells.old)
        (C.can_set cells.old) made.old.items pos 35 }
    requires wet { wet ≡ wet_at (kinds_of kinds.now) (C.world cells.old) pos }
    ensures { IsTurnStep C.world C.lists C.site C.room C.can_set (kind_count kinds.now) pos 35
        (onward (kinds_of kinds.now) now pos) cells.old made.old.items cells.new made.new.items }
{
    let under = kind_at(cells, kinds, below(pos));
    if under.opens && !under.wet.is_wet() {
        fall(cells, kinds, now, pos, wet, made);
    } else if !under.wet.is_wet() || wet.is_source() {
        spread(cells, kinds, now, pos, wet, made);
    }
}

/// Whether two wetnesses are the same.
fn is_same(a: Wet, b: Wet) -> bool
    ensures { result ≡ same_wet a b }
{
    a == b
}

/// Brings a block that is so wet up to date, unless it is a source, and goes on unless it dried.
#[tactic(auto, unfolding(av_cells::specs::Turn::renewed))]
fn renew<C: Cells>(
    cells: &mut C,
    kinds: &Kinds,
    now: u32,
    pos: Pos,
    wet: Wet,
    made: &mut ArrayVec<Entry, 42>,
)
    requires ready { IsReadyForTurn (kind_count kinds.now) (C.world cells.old) (C.room cells.old)
        (C.can_set cells.old) made.old.items pos 42 }
    requires wet { wet ≡ wet_at (kinds_of kinds.now) (C.world cells.old) pos }
    ensures { IsTurnStep C.world C.lists C.site C.room C.can_set (kind_count kinds.now) pos 42
        (renewed (kinds_of kinds.now) now pos) cells.old made.old.items cells.new made.new.items }
{
    if wet.is_source() {
        go_on(cells, kinds, now, pos, wet, made);
        return;
    }
    let coming = incoming(cells, kinds, pos);
    if is_same(coming, wet) {
        go_on(cells, kinds, now, pos, wet, made);
        return;
    }
    set_number(cells, kinds, now, pos, pos, number_of_wet(coming), made);
    if coming.is_wet() {
        go_on(cells, kinds, now, pos, coming, made);
    }
}

/// The turn of a loaded block in tick `now`.
///
/// A dry block does nothing. A wet one that is no source is brought up to date; if it dried, the turn ends. Then, if
/// the block below can be entered, that is set, and the sides only if three of them are sources. Otherwise the sides
/// are set if the block is a source or has no hole. The sides that are set are those with the nearest drop, or, with
/// no drop, all that can be entered. Each set wakes the block and those next to it.
///
/// The entries that were added are put into `made`, which is empty, in order. The room for them was made before, by
/// `prepare`; this can't want memory.
#[tactic(auto, unfolding(av_cells::specs::Turn::turn))]
pub fn turn_onto<C: Cells>(
    cells: &mut C,
    kinds: &Kinds,
    now: u32,
    pos: Pos,
    made: &mut ArrayVec<Entry, 42>,
)
    requires empty { made.old.items ≡ [] }
    requires loaded { IsTrue ((C.world cells.old).loaded pos) }
    requires room { (q : Pos) → InReach pos q → IsTrue ((C.world cells.old).loaded q)
        → 42 ≤ C.room cells.old q }
    requires prepared { ForTurned (λ q. IsTrue ((C.world cells.old).loaded q)
        → (n : ℕ) → n < 10 → C.can_set cells.old q n) pos }
    requires kinds { HasKinds (kind_count kinds.now) (C.world cells.old) }
    ensures changed { change (C.world cells.new) made.new.items
        ≡ turn (kinds_of kinds.now) now pos (C.world cells.old) }
    ensures listed { C.lists cells.new ≡ listed_all (C.lists cells.old) made.new.items }
    ensures site { C.site cells.new ≡ C.site cells.old }
    ensures loaded { (C.world cells.new).loaded ≡ (C.world cells.old).loaded }
    ensures kinds { HasKinds (kind_count kinds.now) (C.world cells.new) }
{
    let wet = kind_at(cells, kinds, pos).wet;
    if wet.is_wet() {
        renew(cells, kinds, now, pos, wet, made);
    }
}

/// The turn of a loaded block in tick `now`, as `turn_onto` takes it. Returns the entries that were added, in order.
pub fn turn<C: Cells>(cells: &mut C, kinds: &Kinds, now: u32, pos: Pos) -> ArrayVec<Entry, 42>
    requires loaded { IsTrue ((C.world cells.old).loaded pos) }
    requires room { (q : Pos) → InReach pos q → IsTrue ((C.world cells.old).loaded q)
        → 42 ≤ C.room cells.old q }
    requires prepared { ForTurned (λ q. IsTrue ((C.world cells.old).loaded q)
        → (n : ℕ) → n < 10 → C.can_set cells.old q n) pos }
    requires kinds { HasKinds (kind_count kinds.now) (C.world cells.old) }
    ensures changed { change (C.world cells.new) result.items
        ≡ turn (kinds_of kinds.now) now pos (C.world cells.old) }
    ensures listed { C.lists cells.new ≡ listed_all (C.lists cells.old) result.items }
    ensures site { C.site cells.new ≡ C.site cells.old }
    ensures loaded { (C.world cells.new).loaded ≡ (C.world cells.old).loaded }
    ensures kinds { HasKinds (kind_count kinds.now) (C.world cells.new) }
{
    let mut made = ArrayVec::new();
    turn_onto(cells, kinds, now, pos, &mut made);
    made
}
