//! What a parcel remembers of its look-ups.
ghost use Rattle.std.specs.Prelude.{◌≡◌, ◌<◌, ℕ, List, All, false};
ghost use Rattle.av_types.specs.declared.position.SectionPos.{SectionPos};
ghost use Rattle.av_pack.specs.Places.{has_place};
ghost use Rattle.av_world.specs.Parcels.{IsSectionInLimits, AreAbsent};

use crate::finding::fourth;
use av_pack::PlaceSet;
use av_types::SectionPos;

/// What a parcel remembers, so that it finds sections and entries at once. A parcel has it in a box, and is moved
/// without it.
#[derive(Drop)]
pub(crate) struct Notes {
    /// Where the sections stand that were looked up last, by their x and z modulo 4 and whether y is odd. A look-up
    /// checks it.
    pub(crate) near: [usize; 32],

    /// Sections that were looked up last and are not there, by the same.
    pub(crate) absent: [SectionPos; 32],

    /// The places in their sections of the blocks of all entries that were put aside.
    pub(crate) marks: PlaceSet,
}

/// A section above those of all worlds.
const NOWHERE: SectionPos = SectionPos { x: 0, y: 64, z: 0 };

/// Sections that no parcel has.
fn nowhere() -> [SectionPos; 32]
    ensures { (at : List SectionPos) → All IsSectionInLimits at → AreAbsent at result }
{
    [NOWHERE; 32]
}

/// Whether a number is odd, as 0 or 1.
#[inline(always)]
fn parity(number: i32) -> usize
    ensures { result < 2 }
{
    number.rem_euclid(2) as usize
}

/// Sections that are near each other have each another of these.
#[inline(always)]
pub(crate) fn near_index(at: SectionPos) -> usize
    ensures { result < 32 }
{
    fourth(at.x) + 4 * fourth(at.z) + 16 * parity(at.y)
}

impl Notes {
    /// Those of a new parcel.
    pub(crate) fn new() -> Notes
        ensures absent { (at : List SectionPos) → All IsSectionInLimits at
            → AreAbsent at result.absent }
        ensures marks { (i : ℕ) → has_place result.marks i ≡ false }
    {
        Notes {
            near: [0; 32],
            absent: nowhere(),
            marks: PlaceSet::new(),
        }
    }
}
