//! The blocks of a world, or of a part of one.
ghost use Rattle.std.specs.Prelude.{◌≡◌, ◌≤◌, ◌<◌, ◌+◌, ℕ, IsTrue, IsOk, OnOk, IfErr, IfSome, is_some, not};
ghost use Rattle.av_types.specs.declared.fault.Fault.TheVariants.{OutOfMemory};
ghost use Rattle.av_cells.specs.Positions.{InReach, ForAround, ForTurned, IsNearOrigin};
ghost use Rattle.av_cells.specs.World.{World, Lists, Site, with_number, with_entry, listed_if};

use av_types::{Entry, Fault, Pos};

/// Blocks that a turn can read and change.
///
/// A block is read as a number of its state, and changed by `set`. Each chunk has a list of entries (scheduled
/// ticks of water), to which `add` appends. `set` and `add` can't want memory: what they need is made before,
/// by `prepare` or `prepare_set`.
pub trait Cells {
    ghost use Rattle.av_types.specs.declared.position.Pos.{Pos};

    /// The blocks, however they are kept.
    ghost world: { Self → World };

    /// The entries of each chunk, in order.
    ghost lists: { Self → Lists };

    /// How many more entries of a block can be added for sure.
    ghost room: { Self → Pos → ℕ };

    /// Whether a block can be set to a number for sure.
    ghost can_set: { Self → Pos → ℕ → Type 0 };

    /// What no call changes: the height, the chunks that were inserted, and whether the world is broken.
    ghost site: { Self → Site };

    /// Whether a block is loaded.
    fn loaded(&self, pos: Pos) -> bool
        ensures { result ≡ (world self.now).loaded pos };

    /// The number of a loaded block's state.
    fn number(&self, pos: Pos) -> u16
        requires { IsTrue ((world self.now).loaded pos) }
        ensures { result ≡ (world self.now).number pos };

    /// The number of a block's state, where it is loaded: what `loaded` and `number` say, by one look-up.
    fn number_at(&self, pos: Pos) -> Option<u16>
        ensures loaded { is_some result ≡ (world self.now).loaded pos }
        ensures number { IfSome result (λ n. n ≡ (world self.now).number pos) }
    {
        if self.loaded(pos) {
            Some(self.number(pos))
        } else {
            None
        }
    }

    /// Whether an entry of a block waits, of any due time.
    fn pending(&self, pos: Pos) -> bool
        ensures { result ≡ (world self.now).pending pos };

    /// Sets a block to a state, by its number.
    fn set(&mut self, pos: Pos, number: u16)
        requires loaded { IsTrue ((world self.old).loaded pos) }
        requires prepared { can_set self.old pos number }
        ensures changed { world self.new ≡ with_number (world self.old) pos number }
        ensures lists { lists self.new ≡ lists self.old }
        ensures site { site self.new ≡ site self.old }
        ensures room { (q : Pos) → room self.old q ≤ room self.new q }
        ensures prepared { (q : Pos) (n : ℕ) → can_set self.old q n → can_set self.new q n };

    /// Appends an entry to the list of its chunk, unless one of its block waits, and says whether it did.
    fn add(&mut self, entry: Entry) -> bool
        requires loaded { IsTrue ((world self.old).loaded entry.pos) }
        requires prepared { 0 < room self.old entry.pos }
        ensures added { result ≡ not ((world self.old).pending entry.pos) }
        ensures changed { world self.new ≡ with_entry (world self.old) entry }
        ensures lists { lists self.new
            ≡ listed_if (not ((world self.old).pending entry.pos)) (lists self.old) entry }
        ensures site { site self.new ≡ site self.old }
        ensures room { (q : Pos) → room self.old q ≤ room self.new q + 1 }
        ensures prepared { (q : Pos) (n : ℕ) → can_set self.old q n → can_set self.new q n };

    /// Makes room for the next turn of a loaded block: for 42 entries of each block in its reach, and for air
    /// (number 0) and the nine states of water (1 to 9) in each block that the turn may set.
    ///
    /// # Errors
    /// `OutOfMemory`. Also then all blocks, entries and earlier preparations are as before.
    fn prepare(&mut self, pos: Pos) -> Result<(), Fault>
        requires { IsTrue ((world self.old).loaded pos) }
        ensures memory { IfErr result (λ e. e ≡ OutOfMemory) }
        ensures same { world self.new ≡ world self.old }
        ensures lists { lists self.new ≡ lists self.old }
        ensures site { site self.new ≡ site self.old }
        ensures keeps_room { (q : Pos) → room self.old q ≤ room self.new q }
        ensures keeps_prepared { (q : Pos) (n : ℕ) → can_set self.old q n → can_set self.new q n }
        ensures room { OnOk result
            ((q : Pos) → InReach pos q → IsTrue ((world self.old).loaded q) → 42 ≤ room self.new q) }
        ensures prepared { OnOk result
            (ForTurned (λ q. IsTrue ((world self.old).loaded q) → (n : ℕ) → n < 10 → can_set self.new q n) pos) }
        ensures succeeds { ((q : Pos) → InReach pos q → IsTrue ((world self.old).loaded q) → 42 ≤ room self.old q)
            → ForTurned (λ q. IsTrue ((world self.old).loaded q) → (n : ℕ) → n < 10 → can_set self.old q n) pos
            → IsOk result };

    /// Makes room for the next set of a loaded block with its waking: for that number there, and for seven
    /// entries of it and of each block next to it.
    ///
    /// # Errors
    /// `OutOfMemory`. Also then all blocks, entries and earlier preparations are as before.
    fn prepare_set(&mut self, pos: Pos, number: u16) -> Result<(), Fault>
        requires { IsTrue ((world self.old).loaded pos) }
        ensures memory { IfErr result (λ e. e ≡ OutOfMemory) }
        ensures same { world self.new ≡ world self.old }
        ensures lists { lists self.new ≡ lists self.old }
        ensures site { site self.new ≡ site self.old }
        ensures keeps_room { (q : Pos) → room self.old q ≤ room self.new q }
        ensures keeps_prepared { (q : Pos) (n : ℕ) → can_set self.old q n → can_set self.new q n }
        ensures room { OnOk result
            (ForAround (λ q. IsTrue ((world self.old).loaded q) → 7 ≤ room self.new q) pos) }
        ensures prepared { OnOk result (can_set self.new pos number) }
        ensures succeeds { ForAround (λ q. IsTrue ((world self.old).loaded q) → 7 ≤ room self.old q) pos
            → can_set self.old pos number → IsOk result };

    /// A loaded block lies near the origin.
    ghost near: { (c : Self) (p : Pos) → IsTrue ((world c).loaded p) → IsNearOrigin p };
}
