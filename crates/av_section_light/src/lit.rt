//! Sections as a flood reads them.
use crate::rows::{emission, opacity};
use crate::sections::Sections;
use av_flood::Blocks;
use av_rules::Kinds;
use av_types::{ChunkPos, Height, Pos};

/// Sections, with what their states give and take of light.
#[derive(Drop)]
pub struct Lit<'a, S> {
    pub sections: &'a S,
    pub kinds: &'a Kinds,
}

impl<S: Sections> Blocks for Lit<'_, S> {
    ghost use Rattle.av_rules.proofs.KindFacts.{are_kinds};
    ghost use Rattle.av_cells.specs.Grid.{cells_of};
    ghost use Rattle.av_section_light.specs.Light.{terrain_of};

    ghost terrain = { λ l. terrain_of l.kinds.now (cells_of (S.grid l.sections.now)) };

    ghost tall = { λ l. S.tall l.sections.now };

    ghost lamps = { λ l c. S.lamps l.sections.now c };

    ghost near = { λ l p h. S.near l.sections.now p h };

    ghost dim = { λ l p. (are_kinds l.kinds.now).emission ((cells_of (S.grid l.sections.now)).number p) };

    fn height(&self) -> Height {
        self.sections.height()
    }

    #[inline(always)]
    fn cost(&self, pos: Pos) -> Option<u8> {
        let Some(section) = self.sections.section(pos.section()) else {
            return None;
        };
        Some(1u8.max(opacity(self.kinds, section.get(pos.place()))))
    }

    fn emission(&self, pos: Pos) -> Option<u8> {
        let Some(section) = self.sections.section(pos.section()) else {
            return None;
        };
        Some(emission(self.kinds, section.get(pos.place())))
    }

    fn lamps(&self, chunk: ChunkPos) -> &[Pos] {
        self.sections.lamps(chunk)
    }
}
