//! Laws of grids of sections. These functions do nothing: each states a law by its contract.
ghost use Rattle.std.specs.Prelude.{◌≡◌, ◌↔◌, ℕ, Bool, List, Option, IsTrue, Contains};
ghost use Rattle.av_types.specs.declared.position.Pos.{Pos};
ghost use Rattle.av_types.specs.declared.position.SectionPos.{SectionPos};
ghost use Rattle.av_types.specs.declared.tick.Entry.{Entry};
ghost use Rattle.av_types.specs.Positions.{section_of, place_of};
ghost use Rattle.av_cells.specs.Grid.{Grid, Filling, cells_of, is_here, LiesIn, HasOneSection, only, without, over, among, with_filling, renumbered_in, waited_in, cleared_in};
ghost use Rattle.av_cells.specs.World.{with_number, with_entry, without_entry};

/// Sections that are taken out of a grid and put back over the rest give the grid again.
pub fn out_and_back_is_identity()
    ensures { (b : SectionPos → Bool) (g : Grid) → over (only b g) (without b g) ≡ g }
{}

/// Each loaded block lies in a section that is there, and in no other section.
pub fn loaded_block_has_one_section()
    ensures { (g : Grid) (p : Pos) → IsTrue ((cells_of g).loaded p) → HasOneSection g p }
{}

/// Each block of a section that is there is loaded.
pub fn block_of_section_is_loaded()
    ensures { (g : Grid) (s : SectionPos) (p : Pos) → IsTrue (is_here (g s)) → LiesIn s p
        → IsTrue ((cells_of g).loaded p) }
{}

/// One section exchanged is that section, and each other section stays.
pub fn exchanged_section_is_alone()
    ensures section { (g : Grid) (s : SectionPos) (f : Option Filling) → with_filling g s f s ≡ f }
    ensures others { (g : Grid) (s t : SectionPos) (f : Option Filling) → ¬ (t ≡ s)
        → with_filling g s f t ≡ g t }
{}

/// To give a place of a section another number is to set its block, and no other.
pub fn renumbered_place_is_its_block()
    ensures { (g : Grid) (p : Pos) (n : ℕ) → IsTrue (is_here (g (section_of p)))
        → cells_of (with_filling g (section_of p) (renumbered_in (g (section_of p)) (place_of p) n))
        ≡ with_number (cells_of g) p n }
{}

/// To let a place of a section wait is to make its block pending, and no other.
pub fn waited_place_is_its_block()
    ensures { (g : Grid) (e : Entry) → IsTrue (is_here (g (section_of e.pos)))
        → cells_of (with_filling g (section_of e.pos) (waited_in (g (section_of e.pos)) (place_of e.pos)))
        ≡ with_entry (cells_of g) e }
{}

/// To let a place of a section wait no longer is to make its block pending no longer, and no other.
pub fn cleared_place_is_its_block()
    ensures { (g : Grid) (e : Entry) → IsTrue (is_here (g (section_of e.pos)))
        → cells_of (with_filling g (section_of e.pos) (cleared_in (g (section_of e.pos)) (place_of e.pos)))
        ≡ without_entry (cells_of g) e }
{}

/// A section is among some exactly if it is one of them.
pub fn among_is_one_of_them()
    ensures { (ss : List SectionPos) (s : SectionPos) → IsTrue (among ss s) ↔ Contains ss s }
{}
