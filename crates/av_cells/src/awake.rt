//! One set of a block, with its waking.
ghost use Rattle.std.specs.Prelude.{◌≡◌, ◌≤◌, ◌<◌, ◌+◌, ℕ, [], IsTrue, length};
ghost use Rattle.arrayvec.specs.ArrayVec.{array_vec_len};
ghost use Rattle.av_rules.specs.Kinds.{kind_count};
ghost use Rattle.av_cells.specs.Kinds.{kinds_of};
ghost use Rattle.av_cells.specs.Positions.{ForAround, IsInner, around};
ghost use Rattle.av_cells.specs.Rule.{HasKinds};
ghost use Rattle.av_cells.specs.Turn.{change, entry_of, woken, woken_all, set_awake};
ghost use Rattle.av_cells.specs.World.{listed_all};
ghost use Rattle.av_cells.specs.Wakes.{Appends, HasRoom, HaveRoom, SameStates};
ghost use Rattle.av_types.specs.declared.position.Pos.{Pos};

use crate::cells::Cells;
use crate::kind::kind_at;
use crate::neighbours::{above, below, step};
use arrayvec::ArrayVec;
use av_rules::Kinds;
use av_types::{Direction, Entry, Pos};

/// A block's entry, due five ticks later.
fn entry_of(pos: Pos, now: u32) -> Entry
    ensures { result ≡ entry_of pos now }
{
    Entry {
        pos,
        due: i64::from(now) + 5,
        priority: 0,
    }
}

/// Adds an entry of a block where that is wet and no entry of it waits.
#[tactic(auto, using(crate::proofs::Loaded::wet_is_loaded), unfolding(crate::specs::Turn::woken))]
fn wake<C: Cells, const N: usize>(
    cells: &mut C,
    kinds: &Kinds,
    now: u32,
    pos: Pos,
    made: &mut ArrayVec<Entry, N>,
)
    requires kinds { HasKinds (kind_count kinds.now) (C.world cells.old) }
    requires room { HasRoom (C.world cells.old) (C.room cells.old) 1 pos }
    requires capacity { array_vec_len made.old < N }
    ensures changed { change (C.world cells.new) made.new.items
        ≡ woken (kinds_of kinds.now) now pos (change (C.world cells.old) made.old.items) }
    ensures listed { Appends made.old.items made.new.items (C.lists cells.old) (C.lists cells.new) }
    ensures site { C.site cells.new ≡ C.site cells.old }
    ensures states { SameStates (C.world cells.old) (C.world cells.new) }
    ensures length { array_vec_len made.new ≤ array_vec_len made.old + 1 }
    ensures room { (q : Pos) → C.room cells.old q ≤ C.room cells.new q + 1 }
    ensures prepared { (q : Pos) (n : ℕ) → C.can_set cells.old q n → C.can_set cells.new q n }
{
    if !kind_at(cells, kinds, pos).wet.is_wet() {
        return;
    }
    let entry = entry_of(pos, now);
    let is_new = cells.add(entry);
    if is_new {
        made.push(entry);
    }
}

/// The block and those next to it, in the order in which they are woken.
fn around(pos: Pos) -> [Pos; 7]
    requires { IsInner pos }
    ensures { result ≡ around pos }
{
    [
        pos,
        below(pos),
        above(pos),
        step(pos, Direction::North),
        step(pos, Direction::South),
        step(pos, Direction::West),
        step(pos, Direction::East),
    ]
}

/// Wakes some blocks, in order.
fn wake_all<C: Cells, const N: usize>(
    cells: &mut C,
    kinds: &Kinds,
    now: u32,
    positions: &[Pos],
    made: &mut ArrayVec<Entry, N>,
)
    requires kinds { HasKinds (kind_count kinds.now) (C.world cells.old) }
    requires room { HaveRoom (C.world cells.old) (C.room cells.old)
        (length positions.now) positions.now }
    requires capacity { array_vec_len made.old + length positions.now ≤ N }
    ensures changed { change (C.world cells.new) made.new.items
        ≡ woken_all (kinds_of kinds.now) now positions.now (change (C.world cells.old) made.old.items) }
    ensures listed { Appends made.old.items made.new.items (C.lists cells.old) (C.lists cells.new) }
    ensures site { C.site cells.new ≡ C.site cells.old }
    ensures states { SameStates (C.world cells.old) (C.world cells.new) }
    ensures length { array_vec_len made.new ≤ array_vec_len made.old + length positions.now }
    ensures room { (q : Pos) → C.room cells.old q ≤ C.room cells.new q + length positions.now }
    ensures prepared { (q : Pos) (n : ℕ) → C.can_set cells.old q n → C.can_set cells.new q n }
{
    for position in positions {
        wake(cells, kinds, now, *position, made);
    }
}

/// Sets a block to a state in tick `now`, and then wakes it and those next to it: below, above, north, south, west
/// and east of it, in this order. Each that is wet, with no entry that waits, gets one that is due five ticks
/// later. The entries are added to the lists of their chunks, and to `made`. It can't want memory.
#[tactic(auto, unfolding(crate::specs::Turn::set_awake))]
pub fn set_awake_onto<C: Cells, const N: usize>(
    cells: &mut C,
    kinds: &Kinds,
    now: u32,
    pos: Pos,
    number: u16,
    made: &mut ArrayVec<Entry, N>,
)
    requires loaded { IsTrue ((C.world cells.old).loaded pos) }
    requires prepared { C.can_set cells.old pos number }
    requires room { ForAround (HasRoom (C.world cells.old) (C.room cells.old) 7) pos }
    requires kinds { HasKinds (kind_count kinds.now) (C.world cells.old) }
    requires number { number < kind_count kinds.now }
    requires capacity { array_vec_len made.old + 7 ≤ N }
    ensures changed { change (C.world cells.new) made.new.items
        ≡ set_awake (kinds_of kinds.now) now pos number (change (C.world cells.old) made.old.items) }
    ensures listed { Appends made.old.items made.new.items (C.lists cells.old) (C.lists cells.new) }
    ensures site { C.site cells.new ≡ C.site cells.old }
    ensures loaded { (C.world cells.new).loaded ≡ (C.world cells.old).loaded }
    ensures length { array_vec_len made.new ≤ array_vec_len made.old + 7 }
    ensures room { (q : Pos) → C.room cells.old q ≤ C.room cells.new q + 7 }
    ensures prepared { (q : Pos) (n : ℕ) → C.can_set cells.old q n → C.can_set cells.new q n }
    ensures kinds { HasKinds (kind_count kinds.now) (C.world cells.new) }
{
    cells.set(pos, number);
    wake_all(cells, kinds, now, &around(pos), made);
}

/// Sets a block to a state in tick `now`, and wakes it and those next to it, as `set_awake_onto` does. Returns the
/// entries that were added, in order.
pub fn set_awake<C: Cells>(
    cells: &mut C,
    kinds: &Kinds,
    now: u32,
    pos: Pos,
    number: u16,
) -> ArrayVec<Entry, 7>
    requires loaded { IsTrue ((C.world cells.old).loaded pos) }
    requires prepared { C.can_set cells.old pos number }
    requires room { ForAround (HasRoom (C.world cells.old) (C.room cells.old) 7) pos }
    requires kinds { HasKinds (kind_count kinds.now) (C.world cells.old) }
    requires number { number < kind_count kinds.now }
    ensures changed { change (C.world cells.new) result.items
        ≡ set_awake (kinds_of kinds.now) now pos number (change (C.world cells.old) []) }
    ensures listed { C.lists cells.new ≡ listed_all (C.lists cells.old) result.items }
    ensures site { C.site cells.new ≡ C.site cells.old }
    ensures loaded { (C.world cells.new).loaded ≡ (C.world cells.old).loaded }
    ensures kinds { HasKinds (kind_count kinds.now) (C.world cells.new) }
    ensures room { (q : Pos) → C.room cells.old q ≤ C.room cells.new q + 7 }
    ensures prepared { (q : Pos) (n : ℕ) → C.can_set cells.old q n → C.can_set cells.new q n }
{
    let mut made = ArrayVec::new();
    set_awake_onto(cells, kinds, now, pos, number, &mut made);
    made
}
