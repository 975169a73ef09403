//! Laws of plays. These functions do nothing: each states a law by its contract.
ghost use Rattle.std.specs.Prelude.{◌≡◌, ◌↔◌, if◌then◌else◌, ℕ, length, Bool, true, IsTrue, List, Some, slice_set};
ghost use Rattle.std.specs.List.{slice_get};
ghost use Rattle.av_types.specs.declared.position.Pos.{Pos};
ghost use Rattle.av_types.specs.declared.position.SectionPos.{SectionPos};
ghost use Rattle.av_types.specs.declared.tick.Entry.{Entry};
ghost use Rattle.av_types.specs.declared.tick.Made.{Made};
ghost use Rattle.av_cells.specs.declared.kind.Kind.{Kind};
ghost use Rattle.av_cells.specs.World.{World, Lists};
ghost use Rattle.av_cells.specs.Grid.{Grid, cells_of, is_here, only, over};
ghost use Rattle.av_land.specs.Land.{Land, cells_of as land_cells};
ghost use Rattle.av_cells.specs.Sets.{Set};
ghost use Rattle.av_land.specs.Tick.{ticked};
ghost use Rattle.av_play.specs.declared.event.DueEntry.{DueEntry};
ghost use Rattle.av_play.specs.declared.event.Event.{Event};
ghost use Rattle.av_play.specs.Partition as divided;
ghost use Rattle.av_play.specs.Parts.{InTerritory, IsPlan, numbered, part_at};
ghost use Rattle.av_play.specs.Ticks.{opened, due_in, outcome_of};
ghost use Rattle.av_play.specs.Play.{start, AreLawful, play, AllBack, CanEnd, outcome, gathered, in_order, turn_of, world_after, made_after, entries_of};
ghost use Rattle.av_play.specs.Corners.{HasCorner};
ghost use Rattle.av_play.specs.Joined.{joined, empty, AreCarved, IsTurned};
ghost use Rattle.av_play.specs.Labels.{AreLabelled};
ghost use Rattle.av_play.specs.Groups.{AreFirst, rank, grouped};
ghost use Rattle.av_play.specs.Laws.{IsOfPart, EntriesCommute, IsAsAlone, IsAfterEvents};
ghost use Rattle.av_play.specs.Parcels.{AreMended, AreSettled, IsPutBack};
ghost use Rattle.av_play.specs.Waiting.{is_among, AreNew, appended};
ghost use Rattle.av_cells.specs.Turn.{turn};
ghost use Rattle.av_ticks.specs.Entries.{made_order};
ghost use Rattle.av_types.specs.Order.{ordered};

/// Entries whose territories share no section commute: turned in either order they leave the same blocks, and each puts
/// the same aside, under its own index. The sections are any division of the blocks.
pub fn unshared_entries_commute<S>()
    ensures { (division : Pos → S) (k : ℕ → Kind) (now : ℕ) (x y : DueEntry) (w : World)
        → ¬ divided.ShareSection division w x.entry.pos y.entry.pos → EntriesCommute k now x y w }
{}

/// A section is in the territory of a block exactly if it is there and one of the eight corners of the reach lies in it.
pub fn territory_has_a_corner()
    ensures { (g : Grid) (p : Pos) (s : SectionPos)
        → InTerritory (cells_of g) p s ↔ HasCorner g p s }
{}

/// No section lies in the territories of two parts.
pub fn parts_share_no_section<S>()
    ensures { (division : Pos → S) (w : World) (entries : List Entry) (parts : List (List DueEntry)) → divided.IsPlan division w entries parts
        → (m n : ℕ) (s : S) → ¬ (m ≡ n) → divided.IsOfPart division w (part_at parts m) s → divided.IsOfPart division w (part_at parts n) s → ⊥ }
{}

/// After every list of lawful events no section lies in the territories of two held parts. Each part's sections are as
/// its own turned entries alone would leave them, all other blocks and the chunks' lists are as at the start, and what
/// was put aside is what those entries alone make. The sections are any division of the blocks.
pub fn parts_are_as_alone<S>()
    ensures { (division : Pos → S) (w : World) (entries : List Entry) (parts : List (List DueEntry)) (plan : divided.IsPlan division w entries parts)
        → (k : ℕ → Kind) (now : ℕ) (lists : Lists) (events : List Event)
        → AreLawful k now parts (start w lists parts) events
        → IsAfterEvents division k now w lists parts plan.part_of (play k now parts (start w lists parts) events) }
{}

/// Where each part's sections are as all its entries alone leave them, the world is the one that the entries leave
/// one after the other, and what was put aside is, by maker and number, what they make.
pub fn parts_alone_give_the_whole<S>()
    ensures { (division : Pos → S) (w : World) (entries : List Entry) (parts : List (List DueEntry)) (plan : divided.IsPlan division w entries parts)
        → (k : ℕ → Kind) (now : ℕ) (v : World) (made : List Made)
        → IsAsAlone division k now w parts plan.part_of (part_at parts) v made
        → (lists : Lists) → gathered v lists made ≡ in_order k now entries w lists }
{}

/// Some list of lawful events brings all parts back.
pub fn every_tick_can_be_played()
    ensures { (k : ℕ → Kind) (now : ℕ) (parts : List (List DueEntry)) (w : World) (lists : Lists)
        → CanEnd k now parts (start w lists parts) }
{}

/// Every list of lawful events that brings all parts back leaves what the entries leave, turned one after the other.
pub fn every_play_gives_the_whole<S>()
    ensures { (division : Pos → S) (w : World) (entries : List Entry) (parts : List (List DueEntry)) → divided.IsPlan division w entries parts
        → (k : ℕ → Kind) (now : ℕ) (lists : Lists) (events : List Event)
        → AreLawful k now parts (start w lists parts) events
        → AllBack (play k now parts (start w lists parts) events)
        → outcome (play k now parts (start w lists parts) events) ≡ in_order k now entries w lists }
{}

/// From the world after the tick's edits, its due entries taken out, every list of lawful events that brings all parts
/// of the plan back gives the world of the tick. The sections are any division of the blocks.
pub fn every_play_gives_the_tick<S>()
    ensures { (division : Pos → S) (k : ℕ → Kind) (now : ℕ) (edits : List (Set ℕ)) (w : Land ℕ) (parts : List (List DueEntry))
        → divided.IsPlan division (land_cells (opened k now edits w)) (due_in k now edits w) parts → (events : List Event)
        → AreLawful k now parts (start (land_cells (opened k now edits w)) (opened k now edits w).lists parts) events
        → AllBack (play k now parts (start (land_cells (opened k now edits w)) (opened k now edits w).lists parts) events)
        → outcome (play k now parts (start (land_cells (opened k now edits w)) (opened k now edits w).lists parts) events) ≡ outcome_of (ticked k now edits w) }
{}

/// Entries that are turned on some sections alone, among which are their territories, and put back over the other
/// sections, leave what they leave in the whole, and make the same.
pub fn carved_turns_are_turns()
    ensures { (k : ℕ → Kind) (now : ℕ) (g : Grid) (part : List DueEntry) (b : SectionPos → Bool)
        → ((s : SectionPos) → IsOfPart (cells_of g) part s → IsTrue (b s))
        → (t : Grid) → cells_of t ≡ world_after k now part (cells_of (only b g)) → IsPutBack k now g part b t }
{}

/// Parts that are turned on their own sections alone and put back leave what all entries leave one after the other.
pub fn mended_parts_give_the_whole()
    ensures { (g : Grid) (entries : List Entry) (parts : List (List DueEntry)) (plan : IsPlan (cells_of g) entries parts)
        → (k : ℕ → Kind) (now : ℕ) (picks : ℕ → SectionPos → Bool) (parcels : ℕ → Grid) (h : Grid) (made : List Made)
        → AreMended k now g parts plan.part_of picks parcels h made
        → (lists : Lists) → gathered (cells_of h) lists made ≡ in_order k now entries (cells_of g) lists }
{}

/// A turn in one of several parcels, among whose sections is its territory, is the turn in the whole: the parcel
/// exchanged for the turned one gives the whole after the turn, and the turn makes the same.
pub fn parcel_turn_is_turn()
    ensures { (parcels : List Grid) (rest : Grid) → AreCarved parcels rest → (n : ℕ) (p : Grid) → slice_get parcels n ≡ Some p
        → (t : Grid) → ((s : SectionPos) → is_here (t s) ≡ is_here (p s)) → (k : ℕ → Kind) (now : ℕ) (x : DueEntry)
        → ((s : SectionPos) → InTerritory (cells_of (joined parcels rest)) x.entry.pos s → IsTrue (is_here (p s)))
        → cells_of t ≡ (turn_of k now x (cells_of p)).world
        → IsTurned k now x (joined parcels rest) p (joined (slice_set parcels n t) rest) }
{}

/// A parcel that is put back over the rest leaves the whole as it was.
pub fn parcel_back_changes_nothing()
    ensures { (parcels : List Grid) (rest : Grid) → AreCarved parcels rest → (n : ℕ) (p : Grid) → slice_get parcels n ≡ Some p
        → joined (slice_set parcels n empty) (over p rest) ≡ joined parcels rest }
{}

/// Labels that are each the index of the first entry with that label give a plan.
pub fn labels_give_a_plan()
    ensures { (w : World) (entries : List Entry) (label : ℕ → ℕ) → AreLabelled w (numbered 0 entries) label → AreFirst (length entries) label
        → IsPlan w entries (grouped (λ i. rank label (label i)) (numbered 0 entries) 0 (rank label (length entries))) }
{}

/// After a turn those blocks wait that waited before, and those of the entries that it made.
pub fn turn_makes_pending_what_it_makes()
    ensures { (k : ℕ → Kind) (now : ℕ) (p : Pos) (w : World) (q : Pos)
        → (turn k now p w).world.pending q ≡ (if is_among q (turn k now p w).made then true else w.pending q) }
{}

/// What turns make one after the other is of blocks that did not wait before, and of each block once.
pub fn entries_made_are_new()
    ensures { (k : ℕ → Kind) (now : ℕ) (xs : List DueEntry) (w : World)
        → AreNew w (entries_of (made_after k now xs w)) }
{}

/// Parts that are turned on their own sections alone, whose blocks' states are then put back, and whose entries are
/// then appended by maker and number, give the tick of one thread.
pub fn settled_parts_give_the_tick()
    ensures { (g : Grid) (entries : List Entry) (parts : List (List DueEntry)) (plan : IsPlan (cells_of g) entries parts)
        → (k : ℕ → Kind) (now : ℕ) (picks : ℕ → SectionPos → Bool) (h : World) (made : List Made)
        → AreSettled k now g parts plan.part_of picks h made
        → (lists : Lists) → appended h lists (entries_of (ordered made_order made)) ≡ in_order k now entries (cells_of g) lists }
{}

/// And those entries are of blocks that do not wait, and of each block once.
pub fn settled_parts_can_be_appended()
    ensures { (g : Grid) (entries : List Entry) (parts : List (List DueEntry)) (plan : IsPlan (cells_of g) entries parts)
        → (k : ℕ → Kind) (now : ℕ) (picks : ℕ → SectionPos → Bool) (h : World) (made : List Made)
        → AreSettled k now g parts plan.part_of picks h made
        → AreNew h (entries_of (ordered made_order made)) }
{}
