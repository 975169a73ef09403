//! Laws of parts that are taken out of a world. These functions do nothing: each states a law by its contract.
ghost use Rattle.av_world.specs.Mending.{MendUndoesCarve};

/// Sections that are taken out of a world and come back leave it as it was, but for the blocks that were set.
pub fn mend_undoes_carve()
    ensures { MendUndoesCarve }
{}
