//! Region files.
ghost use Rattle.std.specs.Prelude.{IsTrue, ◌↔◌};
ghost use Rattle.std.specs.List.{All};
ghost use Rattle.av_types.specs.Positions.{IsInLimits};

use av_types::RegionPos;

/// A region, and the bytes of its file.
#[derive(Debug, Drop)]
pub struct RegionFile {
    pub pos: RegionPos,
    pub bytes: Vec<u8>,
}

/// Whether all regions are within the limits.
pub fn are_in_limits(files: &[RegionFile]) -> bool
    ensures { IsTrue result ↔ All (λ f. IsInLimits f.pos) files.now }
{
    for file in files {
        if !file.pos.is_in_limits() {
            return false;
        }
    }
    true
}
