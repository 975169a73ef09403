//! Where the sections of a chunk stand.
ghost use Rattle.std.specs.Prelude.{◌≡◌, ◌<◌, true};
ghost use Rattle.av_types.specs.Positions.{is_section_of, section_index};

use av_types::Height;

/// Where a section of the height stands among its sections, by its number.
pub(crate) fn section_index(height: Height, y: i32) -> usize
    requires { is_section_of height y ≡ true }
    ensures value { result ≡ section_index height y }
    ensures bound { result < height.sections }
{
    height.section_index(y)
}
