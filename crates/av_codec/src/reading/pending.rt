//! The places of a chunk at which a scheduled tick is pending.
ghost use Rattle.std.specs.Prelude.{◌≡◌, length, true};
ghost use Rattle.std.specs.List.{list_all};
ghost use Rattle.av_codec.specs.Pending.{SlotPending, MarksPending, is_in_height};

use crate::index::section_index;
use av_section::Section;
use av_types::{Entry, Height, Place};

/// Makes a place of a section pending, where the section is not out.
fn set_pending(slot: &mut Option<Section>, place: Place)
    ensures { SlotPending slot.old slot.new place.index }
{
    if let Some(section) = slot {
        section.add_pending(place);
    }
}

/// Makes each place pending that has an entry. All entries lie in the height.
pub(crate) fn mark_pending(sections: &mut Vec<Option<Section>>, entries: &[Entry], height: Height)
    requires count { length sections.old.items ≡ height.sections }
    requires inside { list_all (is_in_height height) entries.now ≡ true }
    ensures { MarksPending height entries.now sections.old.items sections.new.items }
{
    for entry in entries {
        let index = section_index(height, entry.pos.section().y);
        set_pending(&mut sections[index], entry.pos.place());
    }
}
