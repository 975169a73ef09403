//! What is known of the definitions.
ghost use Rattle.av_region.specs.Layout.{WrittenHolds};

/// A region that was written holds each payload and each timestamp at its index, and no chunk at
/// the other indices.
pub fn written_holds()
    ensures { WrittenHolds }
{}
