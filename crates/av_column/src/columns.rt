//! Some layers of the chunk at x 0 and z 0.
ghost use Rattle.std.specs.Prelude.{◌≡◌, ◌<◌, ◌≤◌, ◌+◌, ◌*◌, ◌-◌, ℕ, ◌+ℤ◌, ◌-ℤ◌, ◌≤ℤ◌, ◌<ℤ◌, pos, negsuc, nat_abs, length, [], replicate, drop, slice_get, IsTrue, Some, None, IfSome, IfNone, IfOk, IfErr, true, false, nat_lt, ◌↔◌};
ghost use Rattle.std.specs.List.{list_all};
ghost use Rattle.av_rules.specs.Kinds.{kind_count};
ghost use Rattle.av_cells.specs.Rule.{HasKinds};
ghost use Rattle.av_cells.specs.World.{without_entry};
ghost use Rattle.av_types.specs.declared.fault.Fault.TheVariants.{OutOfMemory};
ghost use Rattle.av_types.specs.declared.position.Pos.{Pos};
ghost use Rattle.av_column.specs.Columns.{is_in, is_there, slot, lists_of};

use arrayvec::ArrayVec;
use av_cells::Cells;
use av_rules::Kinds;
use av_types::{Entry, Fault, Pos};
use std::alloc::Global;

/// The blocks of some layers of one chunk, as numbers of states, with at most 512 entries.
#[derive(Drop)]
pub struct Column {
    bottom: i32,
    layers: u32,
    numbers: Vec<u16>,
    waiting: Vec<bool>,
    entries: ArrayVec<Entry, 512>,
    pub ghost low: { negsuc 1023 ≤ℤ bottom },
    pub ghost high: { (bottom +ℤ pos layers) ≤ℤ pos 1024 },
    pub ghost numbered: { length numbers.items ≡ 256 * layers },
    pub ghost waited: { length waiting.items ≡ 256 * layers },
}

/// Whether a coordinate is one of so many from the lowest.
fn is_in(low: i32, count: u32, x: i32) -> bool
    requires low { negsuc 1023 ≤ℤ low }
    requires high { (low +ℤ pos count) ≤ℤ pos 1024 }
    ensures { result ≡ is_in low count x }
{
    low <= x && x < low + count as i32
}

/// How far a coordinate is from the lowest.
fn steps_from(low: i32, x: i32) -> usize
    requires low { negsuc 1023 ≤ℤ low }
    requires from { low ≤ℤ x }
    requires to { x <ℤ pos 1024 }
    ensures { result ≡ nat_abs (x -ℤ low) }
{
    (x - low) as usize
}

/// Whether each number is below a count.
fn are_below(numbers: &[u16], count: usize) -> bool
    ensures { result ≡ list_all (λ n. nat_lt n count) numbers.now }
{
    numbers.iter().all(|number| usize::from(*number) < count)
}

impl Column {
    ghost use Rattle.av_column.specs.Views.{blocks_of, bottom_of, entries_of, layer_count, numbers_of, waits_of};

    /// Whether a block is one of these layers.
    fn is_there(&self, pos: Pos) -> bool
        ensures { result ≡ is_there self.now.bottom self.now.layers pos }
    {
        is_in(0, 16, pos.x) && is_in(0, 16, pos.z) && is_in(self.bottom, self.layers, pos.y)
    }

    /// The place of a block in the list.
    #[tactic(auto, using(crate::specs::Limits::there_of, crate::proofs::Slots::slot_within))]
    fn slot(&self, pos: Pos) -> usize
        requires { IsTrue (is_there self.now.bottom self.now.layers pos) }
        ensures value { result ≡ slot self.now.bottom pos }
        ensures bound { result < 256 * self.now.layers }
    {
        let layer = steps_from(self.bottom, pos.y);
        let row = steps_from(0, pos.z);
        256 * layer + 16 * row + steps_from(0, pos.x)
    }

    /// So many layers of one state from the bottom up, with no entries.
    ///
    /// # Errors
    /// `OutOfMemory`.
    #[tactic(auto, using(crate::proofs::Numbers::filled_has_kinds))]
    pub fn filled(alloc: Global, bottom: i32, layers: u32, number: u16) -> Result<Column, Fault>
        requires low { negsuc 1023 ≤ℤ bottom }
        requires high { (bottom +ℤ pos layers) ≤ℤ pos 1024 }
        ensures memory { IfErr result (λ e. e ≡ OutOfMemory) }
        ensures bottom { IfOk result (λ c. bottom_of c ≡ bottom) }
        ensures layers { IfOk result (λ c. layer_count c ≡ layers) }
        ensures numbers { IfOk result (λ c. numbers_of c ≡ replicate (256 * layers) number) }
        ensures waiting { IfOk result (λ c. waits_of c ≡ replicate (256 * layers) false) }
        ensures entries { IfOk result (λ c. entries_of c ≡ []) }
        ensures kinds { IfOk result (λ c. (k : ℕ) → number < k → HasKinds k (blocks_of c)) }
    {
        let count = 256 * layers as usize;
        Ok(Column {
            bottom,
            layers,
            numbers: vec![in alloc; number; count]?,
            waiting: vec![in alloc; false; count]?,
            entries: ArrayVec::new(),
        })
    }

    /// Whether each block's number has a kind.
    pub fn has_kinds(&self, kinds: &Kinds) -> bool
        ensures { IsTrue result ↔ HasKinds (kind_count kinds.now) (blocks_of self.now) }
    {
        are_below(self.numbers.as_slice(), kinds.count())
    }

    /// The entries, in the order in which they were added.
    pub fn entries(&self) -> &[Entry]
        ensures { result.now ≡ entries_of self.now }
    {
        self.entries.as_slice()
    }

    /// How many more entries it can take.
    pub fn room(&self) -> usize
        ensures { result ≡ 512 - length (entries_of self.now) }
    {
        self.entries.remaining_capacity()
    }

    /// Takes the first entry out, if there is one. Its block is pending no longer, and keeps its state.
    pub fn take_first(&mut self) -> Option<Entry>
        ensures first { result ≡ slice_get (entries_of self.old) 0 }
        ensures rest { entries_of self.new ≡ drop 1 (entries_of self.old) }
        ensures leaves { IfSome result (λ e. blocks_of self.new
            ≡ without_entry (blocks_of self.old) e) }
        ensures stays { IfNone result (blocks_of self.new ≡ blocks_of self.old) }
    {
        if self.entries.is_empty() {
            return None;
        }
        let entry = self.entries.remove(0);
        if self.is_there(entry.pos) {
            let slot = self.slot(entry.pos);
            self.waiting[slot] = false;
        }
        Some(entry)
    }
}

impl Cells for Column {
    ghost use Rattle.av_cells.specs.World.{World, Lists, Site};
    ghost use Rattle.av_column.specs.Limits.{there_is_near};
    ghost use Rattle.av_column.specs.Views.{blocks_of, entries_of};

    ghost world = { blocks_of };

    ghost lists = { λ c. lists_of (entries_of c) };

    ghost room = { λ c _. 512 - length (entries_of c) };

    ghost can_set = { λ _ _ _. Unit {0} };

    ghost site = { λ _. record { height = None; chunks = []; broken = false } };

    ghost near = { λ c p h. there_is_near c.bottom c.layers c.low c.high p h };

    fn loaded(&self, pos: Pos) -> bool {
        self.is_there(pos)
    }

    fn number(&self, pos: Pos) -> u16 {
        self.numbers[self.slot(pos)]
    }

    fn pending(&self, pos: Pos) -> bool {
        self.is_there(pos) && self.waiting[self.slot(pos)]
    }

    fn set(&mut self, pos: Pos, number: u16) {
        let slot = self.slot(pos);
        self.numbers[slot] = number;
    }

    fn add(&mut self, entry: Entry) -> bool {
        let slot = self.slot(entry.pos);
        if self.waiting[slot] {
            return false;
        }
        self.waiting[slot] = true;
        self.entries.push(entry);
        true
    }

    fn prepare(&mut self, _pos: Pos) -> Result<(), Fault> {
        if self.entries.remaining_capacity() < 42 {
            return Err(Fault::OutOfMemory);
        }
        Ok(())
    }

    fn prepare_set(&mut self, _pos: Pos, _number: u16) -> Result<(), Fault> {
        if self.entries.remaining_capacity() < 7 {
            return Err(Fault::OutOfMemory);
        }
        Ok(())
    }
}
