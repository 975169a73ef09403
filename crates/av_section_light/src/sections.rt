//! The sections that light is read from.
ghost use Rattle.std.specs.Prelude.{◌≡◌, List, IsTrue};
ghost use Rattle.std.specs.Option.{option_copied};
ghost use Rattle.av_cells.specs.Grid.{Grid, cells_of};
ghost use Rattle.av_flood.specs.Blocks.{IsNear};
ghost use Rattle.av_section_light.specs.Sections.{filling_in};

use av_section::Section;
use av_types::{ChunkPos, Height, Pos, SectionPos};

/// The sections of a world.
pub trait Sections {
    ghost use Rattle.av_types.specs.declared.position.Pos.{Pos};
    ghost use Rattle.av_types.specs.declared.position.ChunkPos.{ChunkPos};
    ghost use Rattle.av_types.specs.declared.position.Height.{Height};

    ghost grid: { Self → Grid };

    ghost tall: { Self → Height };

    /// The world's height.
    fn height(&self) -> Height
        ensures { result ≡ tall self.now };

    /// A section, or None where it is not loaded.
    fn section(&self, at: SectionPos) -> Option<&Section>
        ensures { filling_in (option_copied result) ≡ grid self.now at };

    ghost lamps: { Self → ChunkPos → List Pos };

    /// Blocks of a chunk, among them those that give light, as far as they are known.
    fn lamps(&self, chunk: ChunkPos) -> &[Pos]
        ensures { result.now ≡ lamps self.now chunk };

    /// A loaded block lies in the height and within the limits of regions.
    ghost near: { (s : Self) (p : Pos) → IsTrue ((cells_of (grid s)).loaded p) → IsNear (tall s) p };
}
