//! Laws of the two orders. These functions do nothing: each states a law by its contract.
ghost use Rattle.std.specs.Prelude.{List};
ghost use Rattle.av_types.specs.declared.tick.Entry.{Entry};
ghost use Rattle.av_types.specs.declared.tick.Made.{Made};
ghost use Rattle.av_ticks.specs.Entries.{due_order, made_order};
ghost use Rattle.av_types.specs.Order.{ordered, IsStableSort};

/// A list of entries in order is its stable sort.
pub fn ordered_is_stable_sort()
    ensures due { (es : List Entry) → IsStableSort due_order es (ordered due_order es) }
    ensures made { (ms : List Made) → IsStableSort made_order ms (ordered made_order ms) }
{}
