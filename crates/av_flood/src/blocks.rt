//! What a flood reads of a world.
ghost use Rattle.std.specs.Prelude.{◌≡◌, ◌≤◌, List, IsTrue, MatchOption, false};
ghost use Rattle.av_flood.specs.Light.{Terrain, cost};
ghost use Rattle.av_flood.specs.Blocks.{IsNear};

use av_types::{ChunkPos, Height, Pos};

/// Blocks as light sees them. Each is loaded or not, and gives and takes light.
pub trait Blocks {
    ghost use Rattle.av_types.specs.declared.position.Pos.{Pos};
    ghost use Rattle.av_types.specs.declared.position.ChunkPos.{ChunkPos};
    ghost use Rattle.av_types.specs.declared.position.Height.{Height};

    ghost terrain: { Self → Terrain };

    ghost tall: { Self → Height };

    /// The height of their world.
    fn height(&self) -> Height
        ensures { result ≡ tall self.now };

    /// What light loses on coming into a block, at least 1, or None where it is not loaded.
    fn cost(&self, pos: Pos) -> Option<u8>
        ensures { MatchOption result ((terrain self.now).loaded pos ≡ false)
            (λ n. IsTrue ((terrain self.now).loaded pos) × (n ≡ cost (terrain self.now) pos)) };

    /// The light that a block gives, or None where it is not loaded.
    fn emission(&self, pos: Pos) -> Option<u8>
        ensures { MatchOption result ((terrain self.now).loaded pos ≡ false)
            (λ n. IsTrue ((terrain self.now).loaded pos) × (n ≡ (terrain self.now).emission pos)) };

    ghost lamps: { Self → ChunkPos → List Pos };

    /// Blocks of a chunk, among them those that give light, as far as they are known.
    fn lamps(&self, chunk: ChunkPos) -> &[Pos]
        ensures { result.now ≡ lamps self.now chunk };

    /// A loaded block lies in the height and within the limits of regions.
    ghost near: { (b : Self) (p : Pos) → IsTrue ((terrain b).loaded p) → IsNear (tall b) p };

    /// No block gives more than 15.
    ghost dim: { (b : Self) (p : Pos) → (terrain b).emission p ≤ 15 };
}
